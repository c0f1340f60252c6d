//! The least driver: it shows a screen in memory, and hands every call that it hooks back to the engine.
//!
//! It is a place to begin at: a driver takes over call by call what it can draw itself, and hands back the rest.
#![tactic(auto)]

mod driver;

pub use driver::PuntDriver;
