//! The top call: an input is read, checked and run, and the pixels that it asks for are written.
//!
//! `specs/` has the definitions: the checked input (`Input`), a run and its text (`Run`, `Texts`), and the answer of the call
//! (`Answers`), which is the contract of `run_desktop`.
#![tactic(auto)]

mod call;
mod config;
mod dump;
mod input;
mod report;
mod room;
mod run;
mod status;
mod sum;
mod text;
mod told;

pub use call::run_desktop;
pub use status::{InputRefusal, Status};
pub use told::texts_tell_reports;
