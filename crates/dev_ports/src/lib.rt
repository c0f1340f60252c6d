//! The devices that drivers draw on.
//!
//! `LinearMem` is a device that shows memory as it stands: its bytes lie in one piece and are lent, and only a touch before them can fail.
//! `MemLinear` is such a device in memory, for programs and tests, whose touches fail by their numbers.
#![tactic(auto)]

mod linear;
mod mem_linear;
mod refusals;

pub use linear::LinearMem;
pub use mem_linear::MemLinear;
pub use refusals::{PortFault, PowerRefusal};
