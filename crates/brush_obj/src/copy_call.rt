//! The call that copies a source to a target.

ghost use Rattle.std.specs.Prelude.{◌≡◌, ◌<◌, ◌^◌, ℕ, None, Some};
ghost use Rattle.geom_base.specs.declared.point.Point.{Point};
ghost use Rattle.geom_base.specs.Points.{RectMoves};
ghost use Rattle.pix_format.specs.Value.{bits_of};

use crate::blt_call::BltCall;
use geom_base::{Point, Rect, Target};
use rop_mix::Rop4;

/// A copy into a rectangle of a target; `src` is the source's point for the rectangle's corner. `held` names the source where
/// the same driver keeps it; no view of it is lent then.
#[derive(Clone, Copy, Debug, PartialEq, Eq)]
pub struct CopyCall {
    pub target: Target,
    pub rect: Rect,
    pub held: Option<Target>,
    pub src: Point,
}

/// The point 0 0.
pub const ZERO: Point = Point { x: 0, y: 0 };

/// The code of the raster operation that takes the source as it is.
pub const SOURCE_ALONE: u16 = 0xcccc;

impl CopyCall {
    ghost use Rattle.brush_obj.specs.Calls.{moved_copy, Operands, blt_of, new_of_blt, new_of_copy, point_across};

    /// The raster operation that copies: the source alone.
    pub fn as_blt(&self) -> BltCall
        ensures call { result ≡ blt_of self.now }
        ensures same { (o : Operands) (p : Point) (d : ℕ) → new_of_blt result o p d ≡ new_of_copy self.now o p d }
        // it gives a point the source's value, and leaves it untouched where the source has no point
        ensures source { (o : Operands) (p : Point) (d v : ℕ) → o.source (point_across self.now.rect self.now.src p) ≡ Some v → v < 2 ^ bits_of o.format →
            new_of_copy self.now o p d ≡ Some v }
        ensures untouched { (o : Operands) (p : Point) (d : ℕ) → o.source (point_across self.now.rect self.now.src p) ≡ None →
            new_of_copy self.now o p d ≡ None }
    {
        BltCall {
            target: self.target,
            rect: self.rect,
            held: self.held,
            src: self.src,
            mask: ZERO,
            origin: ZERO,
            rop: Rop4::of(SOURCE_ALONE),
        }
    }

    /// The call on a target whose points are moved.
    pub fn shifted(&self, by: Point) -> CopyCall
        requires rect { RectMoves by self.now.rect }
        ensures { result ≡ moved_copy self.now by }
    {
        CopyCall {
            rect: self.rect.shifted(by),
            ..*self
        }
    }
}
