//! Display drivers.
//!
//! `DisplayDriver` is the trait that a driver is written against: it is enabled with a mode and then shows a screen, keeps bitmaps where it
//! can, and draws the calls that it hooks, or hands them back to the engine. What a drawing hook does and answers is one record for every
//! call, `HookContract` of `specs/Hook.antt`; `specs/HookLaws.antt` has a law for each way in which a hook ends. A `DriverPort` is a driver as
//! it stands on the shelf, through which the engine calls it.
#![tactic(auto)]

mod answers;
mod calls;
mod counts;
mod driver;
mod driver_port;

pub use answers::{CreateAnswer, EnableRefusal, HookAnswer};
pub use calls::{
    ask, create_bitmap, delete_bitmap, disable, draw_managed, enable, hooks, is_enabled, kind,
    max_cuts, mode_limit, read_held, read_port, stats,
};
pub use counts::Stats;
pub use driver::DisplayDriver;
pub use driver_port::DriverPort;
