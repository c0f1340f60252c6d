ghost use Rattle.std.specs.Prelude.{◌≡◌, ◌≤◌};
ghost use Rattle.geom_base.specs.Points.{most_side, whole};

use crate::rect::Rect;

/// The most pixels of a side of a surface.
pub const MOST_SIDE: u32 = 4_096;

/// A width and a height in pixels.
#[derive(Clone, Copy, Debug, PartialEq, Eq)]
pub struct Size {
    pub w: u32,
    pub h: u32,
}

impl Size {
    /// All points of a surface of the size.
    pub fn whole(self) -> Rect
        requires width { self.w ≤ most_side }
        requires height { self.h ≤ most_side }
        ensures { result ≡ whole self }
    {
        Rect {
            left: 0,
            top: 0,
            right: self.w as i32,
            bottom: self.h as i32,
        }
    }
}
