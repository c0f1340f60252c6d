//! The counts of a driver.

/// What a driver counts. Each count goes on from 0 after its last value; that of faults stays at it.
#[derive(Clone, Copy, Debug, PartialEq, Eq)]
pub struct Stats {
    /// The calls of drawing hooks on the screen since it was enabled.
    pub offered: u64,
    /// Those on its bitmaps.
    pub offered_bitmaps: u64,
    /// Those of both that were declined.
    pub declined: u64,
    /// The rectangles that were written through its port, or failed to be, since it was enabled; what it writes itself in a hook isn't among them.
    pub written: u64,
    /// The bitmaps that it was asked to keep since it was made.
    pub asked: u64,
    /// Those of them that it keeps or kept.
    pub made: u64,
    /// The calls of its device that failed since it was made.
    pub faults: u64,
}
