//! What a driver on the shelf is tested on: a screen in memory, and calls of each kind that are asked of its hooks, or routed.
//!
//! The tests: the pixels are the same whoever draws, and where a call of the device fails exactly what is reported was drawn.
#![tactic(auto)]

mod calls;
mod props;
mod stage;

pub use calls::{Answer, Drawing, Kind, Way, draw};
pub use stage::{enable_anew, pixels};

#[cfg(test)]
mod expected;
#[cfg(test)]
mod tests;
