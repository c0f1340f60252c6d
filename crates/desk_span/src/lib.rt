//! The desk: screens, bitmaps and brushes, and each command on them.
//!
//! `State` of `specs/Desk.antt` is what a desk shows, as lists, and `carried` one command on it with its reports. A screen's pixels are those that
//! its driver shows, which stands at a place of a shelf; those of a bitmap are the engine's. `Kept` of `specs/Kept.antt` is what a desk keeps
//! beside the driver, and `Carries` of `specs/Carries.antt` what one command leaves of both. A desk asks that a command names what is there,
//! which a script that was read keeps to, and that the driver serves the screen. Today it has one screen, at its first point.
#![tactic(auto)]

mod bitmap;
mod canvas;
mod desk;
mod draw;
mod inputs;
mod lent;
mod on_screen;
mod others;
mod pane;
mod place;
mod reports;
mod row;
mod screen;
mod sight;

pub use desk::{Desk, SurfaceLook};
pub use reports::{DeskOutcome, Report, Reports, is_fault};
