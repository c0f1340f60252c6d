//! Tests of whole calls of the top call, over linear drivers on devices in memory.
#![tactic(auto)]

mod flow;
#[cfg(test)]
mod tests;

pub use flow::{Flow, SMOOTH};
