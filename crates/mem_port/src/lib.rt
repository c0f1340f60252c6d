//! A port over surfaces in memory, for tests of what draws through ports.
//!
//! `MemPort` shows a screen and one bitmap. The calls of its device are numbered from 1, and those whose numbers are named fail; so each way in
//! which a drawing can be cut short is tried by a list of one number.
#![tactic(auto)]

mod mem_port;
mod mem_surf;

pub use mem_port::MemPort;
pub use mem_surf::MemSurf;
