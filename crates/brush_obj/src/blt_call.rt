//! The call that combines a mask, a brush, a source and a target.

ghost use Rattle.std.specs.Prelude.{◌≡◌, false};
ghost use Rattle.geom_base.specs.Points.{RectMoves};

use crate::shifting::shifted;
use geom_base::{Point, Rect, Target};
use rop_mix::{Rop4, needs_mask, needs_target};

/// A raster operation in a rectangle of a target. Points are the target's, `src` and `mask` the points of source and mask for
/// the rectangle's corner. `held` names the source where the same driver keeps it; no view of it is lent then.
#[derive(Clone, Copy, Debug, PartialEq, Eq)]
pub struct BltCall {
    pub target: Target,
    pub rect: Rect,
    pub held: Option<Target>,
    pub src: Point,
    pub mask: Point,
    pub origin: Point,
    pub rop: Rop4,
}

impl BltCall {
    ghost use Rattle.brush_obj.specs.Calls.{IgnoresTarget, PointMoves, moved_blt};
    ghost use Rattle.brush_obj.specs.declared.draw_call.DrawCall.TheVariants.{Blt};

    /// Whether what a point gets may depend on what it had, though the call finds its source: where the old value counts, or a
    /// point of the mask may be wanting.
    pub fn reads_target(&self) -> bool
        ensures { result ≡ false → IgnoresTarget (Blt self.now) }
    {
        needs_target(self.rop) || needs_mask(self.rop)
    }

    /// The call on a target whose points are moved.
    pub fn shifted(&self, by: Point) -> BltCall
        requires rect { RectMoves by self.now.rect }
        requires origin { PointMoves self.now.origin by }
        ensures { result ≡ moved_blt self.now by }
    {
        BltCall {
            rect: self.rect.shifted(by),
            origin: shifted(self.origin, by),
            ..*self
        }
    }
}
