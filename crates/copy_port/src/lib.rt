//! How a driver's pixels are reached.
//!
//! A target is a screen or a bitmap that a driver keeps. `PortState` of `specs/State.antt` is what a driver shows, by target, and what it
//! counts and keeps. `CopyPort` reads and writes rectangles of targets; `Draws` of `specs/Port.antt` says of each drawing what was pushed onto
//! a drawn list: exactly these points have their new values, whether the call is done or not. `CanDraw` and `Asked` of
//! `specs/Given.antt` are the conditions of a call and what is asked of whoever draws it, one record each for every call.
#![tactic(auto)]

mod classes;
mod hooks;
mod port;
mod words;

pub use classes::{Class, Classes, class_of, class_of_blt};
pub use hooks::{Hook, Hooks, hook_of};
pub use port::{CopyPort, Pictured, Realizer};
pub use words::{Kind, Limit, Mode, TargetInfo};
