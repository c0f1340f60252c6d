//! The words in which drivers speak of themselves.

use crate::classes::Classes;
use crate::hooks::Hooks;
use geom_base::{Counts, Size};
use pix_format::{ColourTable, Format};

/// How a driver reaches its pixels.
#[derive(Clone, Copy, Debug, PartialEq, Eq)]
pub enum Kind {
    Linear,
    Banked,
    Accel,
    Mirror,
}

/// What of a mode a driver can't do.
#[derive(Clone, Copy, Debug, PartialEq, Eq)]
pub enum Limit {
    Width,
    Height,
    Format,
    Extra,
}

/// What a target is: its size in pixels, and how they are kept.
#[derive(Clone, Copy, Debug, PartialEq, Eq)]
pub struct TargetInfo {
    pub size: Size,
    pub format: Format,
}

/// What a driver is enabled with: its screen; the calls that it hooks, and the classes of them that it takes; every how
/// many hook calls it declines (0 for never); the bytes of a bank, the words of a ring, and the rows off screen; and how its device goes on
/// and which of its calls fail.
#[derive(Drop)]
pub struct Mode {
    pub size: Size,
    pub format: Format,
    pub table: ColourTable,
    pub hooks: Hooks,
    pub takes: Classes,
    pub decline: u32,
    pub bank: u32,
    pub ring: u32,
    pub spare: u32,
    pub pace: Counts,
    pub faults: Counts,
}
