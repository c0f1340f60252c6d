//! Lines of a text, their words, and one word read by its kind: a number, a colour, a place. Everything is bytes, so no text need
//! be UTF-8.
//!
//! `specs/` says what lines and words are (`Lines`), how each kind of word is spelled (`Spelling`, `Places`) and between which bounds
//! (`Bounds`), and how one thing is asked after another, up to the first refusal (`Asking`).
#![tactic(auto)]

mod bounds;
mod finding;
mod places;
mod refusal;
mod spelling;
mod splitting;
#[cfg(test)]
mod tests;

pub use bounds::{
    GREATEST_COORDINATE, GREATEST_NUMBER, GREATEST_POINT, LEAST_COORDINATE, MOST_DIGITS,
    MOST_NAME_BYTES,
};
pub use finding::{FoundLine, find_line, first_lines};
pub use places::{colour, point, rect, well_ordered};
pub use refusal::{ReadError, Refusal};
pub use spelling::{count, decimal, hexadecimal, is_name, number};
pub use splitting::{first_line, word, words};
