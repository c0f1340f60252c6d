//! The route of a drawing call to a driver: it is offered to the driver where that hooks it, and else the engine draws it through the
//! driver's port.
//!
//! `Routed` of `specs/Routes.antt` says what is shown afterwards, whoever drew.
#![tactic(auto)]

mod offer;
mod outcome;
mod routing;

pub use outcome::{Cause, Outcome};
pub use routing::route;
