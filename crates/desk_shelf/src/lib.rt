//! The shelf: drivers in a row, and calls on the one at a place.
//!
//! A shelf is seen as the list of its drivers' states. A call on the driver at a place does there what it does on that driver, and all others
//! stay as they were: `OthersStay` of `specs/Shelf.antt`. A screen takes the first driver of its kind that is disabled: `specs/Free.antt`.
#![tactic(auto)]

mod calls;
mod taking;

pub use calls::{disable_at, enable_at, held_at, read_at, route_at};
pub use taking::{first_free, held_of};
