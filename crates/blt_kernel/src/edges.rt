//! Rectangles in columns and rows.

ghost use Rattle.std.specs.Prelude.{◌≡◌, ◌↔◌, ◌≤ℤ◌, pos, IsTrue};
ghost use Rattle.geom_base.specs.Points.{box_of};
ghost use Rattle.blt_kernel.specs.InnerBoxes.{HasPoint};

use geom_base::{Rect, coordinate};

/// A rectangle whose columns and rows aren't negative.
#[derive(Clone, Copy)]
pub struct Edges {
    pub left: u32,
    pub top: u32,
    pub right: u32,
    pub bottom: u32,
}

impl Edges {
    /// The edges of a rectangle.
    pub fn of(rect: Rect) -> Edges
        requires left { pos 0 ≤ℤ rect.left }
        requires top { pos 0 ≤ℤ rect.top }
        requires right { pos 0 ≤ℤ rect.right }
        requires bottom { pos 0 ≤ℤ rect.bottom }
        ensures { box_of result.left result.top result.right result.bottom ≡ rect }
    {
        Edges {
            left: coordinate(rect.left),
            top: coordinate(rect.top),
            right: coordinate(rect.right),
            bottom: coordinate(rect.bottom),
        }
    }

    /// Whether a point is in it.
    pub fn has_point(&self) -> bool
        ensures { IsTrue result ↔ HasPoint self.now }
    {
        self.left < self.right && self.top < self.bottom
    }
}
