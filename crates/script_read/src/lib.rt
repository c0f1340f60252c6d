//! A script read into commands, or its first refusal.
//!
//! `specs/` has the definition as a reader of lists: one function for each command (`Commands`), the region of a line
//! (`Regions`), the drawing that comes of one (`Drawing`), what is kept from line to line (`State`), and all lines one after the
//! other (`Reading`); `InnerReading` speaks of the functions inside, and `InnerKnows` of the names that the reader keeps. The order of
//! refusals is the order of its lines. The commands are those of `script_orders`; `script_names` says what each word of a line gives.
//! Each command of a script that is read names only what is there when its turn comes (`CanRun` of `script_orders`).
#![tactic(auto)]

mod drawings;
mod naming;
mod operands;
mod reader;
mod reading;
mod refusal;
#[cfg(test)]
mod refusal_tests;
mod regions;
mod standard_tables;
#[cfg(test)]
mod tests;
mod verb;

pub use reading::read_script;
pub use refusal::ScriptRefusal;
