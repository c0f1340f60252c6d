//! What a script makes: bitmaps and brushes, each kind numbered in the order in which they are made.

use crate::shared_table::SharedTable;
use brush_obj::Hatch;
use geom_base::Size;
use pix_format::{Format, Rgb};

/// A bitmap to be made, whose values are all 0.
#[derive(Drop)]
pub struct CreateOrder {
    pub number: u32,
    pub size: Size,
    pub format: Format,
    pub table: SharedTable,
}

/// What a brush is made of.
#[derive(Clone, Copy, Debug, PartialEq, Eq)]
pub enum FaceOrder {
    /// One colour.
    Solid(Rgb),
    /// Lines of the first colour on the second.
    Hatch(Hatch, Rgb, Rgb),
    /// A copy of a bitmap, made at once.
    Pattern { bitmap: u32 },
}

/// A brush to be made, with the background colour in force.
#[derive(Clone, Copy, Debug, PartialEq, Eq)]
pub struct BrushOrder {
    pub number: u32,
    pub face: FaceOrder,
    pub back: Rgb,
}
