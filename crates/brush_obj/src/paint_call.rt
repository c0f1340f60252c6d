//! The call that mixes a brush into a target.

ghost use Rattle.std.specs.Prelude.{◌≡◌, ℕ, Some, false};
ghost use Rattle.geom_base.specs.Step.{value_after};
ghost use Rattle.geom_base.specs.declared.point.Point.{Point};
ghost use Rattle.geom_base.specs.Points.{RectMoves};
ghost use Rattle.pix_format.specs.Value.{bits_of};
ghost use Rattle.rop_mix.specs.Rop.{rop3_of};

use crate::shifting::shifted;
use geom_base::{Point, Rect, Target};
use rop_mix::{Mix, Rop4, needs_target};

/// A mix of a brush in a rectangle of a target.
#[derive(Clone, Copy, Debug, PartialEq, Eq)]
pub struct PaintCall {
    pub target: Target,
    pub rect: Rect,
    pub origin: Point,
    pub mix: Mix,
}

impl PaintCall {
    ghost use Rattle.brush_obj.specs.Wrapping.{from_origin};
    ghost use Rattle.brush_obj.specs.Calls.{PointMoves, moved_paint, Operands, new_of_paint};

    /// The code of three operands that does what the mix does, whatever the source.
    pub fn rop3(&self) -> u8
        ensures { (o : Operands) (p : Point) (s d : ℕ) →
            new_of_paint self.now o p d ≡ Some (rop3_of result (o.pattern (from_origin self.now.origin p)) s d (bits_of o.format)) }
    {
        self.mix.rop3()
    }

    /// Whether what a point gets depends on what it had.
    pub fn reads_target(&self) -> bool
        ensures { result ≡ false → (o : Operands) (p : Point) (d e : ℕ) → value_after (new_of_paint self.now o) p d ≡ value_after (new_of_paint self.now o) p e }
    {
        let code = u16::from(self.mix.rop3());
        needs_target(Rop4::of(code * 257))
    }

    /// The call on a target whose points are moved.
    pub fn shifted(&self, by: Point) -> PaintCall
        requires rect { RectMoves by self.now.rect }
        requires origin { PointMoves self.now.origin by }
        ensures { result ≡ moved_paint self.now by }
    {
        PaintCall {
            rect: self.rect.shifted(by),
            origin: shifted(self.origin, by),
            ..*self
        }
    }
}
