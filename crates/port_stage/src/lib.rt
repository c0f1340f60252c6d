//! What is drawn on through a port, for tests and measures: a screen and a bitmap in memory, and calls of each class.
//!
//! The tests: each call of the device fails in turn, and what was pushed has values that are worked out pixel by pixel.
#![tactic(auto)]

mod calls;
mod picture;
mod stage;
mod tools;

pub use calls::{Drawing, Kind, copy_call, paint_call};
pub use picture::{BITMAP, Picture, SCREEN, SOURCE};
pub use stage::{Stage, value_in};
pub use tools::{RED, Tools, WHITE};

#[cfg(test)]
mod expected;
#[cfg(test)]
mod tests;
