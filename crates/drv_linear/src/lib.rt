//! The driver of a linear frame buffer: a device that shows its memory as it stands.
//!
//! It takes the calls whose classes its mode lets it take and draws them where its screen lies in that memory. Before it reads or
//! draws it touches the device once. It declines the other classes, and every so many calls where its mode says so. It keeps no bitmaps.
#![tactic(auto)]

mod driver;
mod policy;
mod screen;

pub use driver::LinearDriver;
