//! The traits by which a driver's pixels are reached.

ghost use Rattle.std.specs.Prelude.{◌≡◌, ◌*◌, ◌≤◌, ◌<◌, ◌^◌, length};
ghost use Rattle.std.specs.List.{All};
ghost use Rattle.geom_base.specs.Points.{height_of, is_in, width_of};
ghost use Rattle.pix_format.specs.Value.{bits_of};
ghost use Rattle.surf_obj.specs.Rects.{ReadsRect, with_values};
ghost use Rattle.brush_obj.specs.Brush.{IsRealised, size_of};
ghost use Rattle.brush_obj.specs.Realised.{IsReadyFor};
ghost use Rattle.copy_port.specs.State.{IsLive, PortState, info_of, next_count, surface_of};
ghost use Rattle.copy_port.specs.Port.{Draws, IfDone, InTarget, Keeps};

use crate::words::TargetInfo;
use brush_obj::{BrushFace, RBrush};
use geom_base::{DrawnList, PortAnswer, Rect, Target};

/// What is shown, counted and kept: the one state that all traits of a driver speak of.
pub trait Pictured {
    /// what it shows and counts, and what it keeps beside that
    ghost state: { Self → PortState };
}

/// Targets whose rectangles are read and written as lists of values, row by row.
pub trait CopyPort: Pictured {
    /// What a target is; none exactly where it isn't shown.
    fn info(&self, target: Target) -> Option<TargetInfo>
        ensures { result ≡ info_of ((Self.state self.now).shown target) };

    /// Reads a rectangle. After another answer than Done it isn't said what `out` holds.
    fn read_rect(&mut self, target: Target, rect: Rect, out: &mut [u32]) -> PortAnswer
        requires inside { InTarget (Self.state self.old).shown target rect }
        requires count { length out.old ≡ width_of rect * height_of rect }
        ensures keeps { Keeps (Self.state self.old) (Self.state self.new) result }
        ensures values { let s = surface_of (Self.state self.old).shown target in IfDone result (ReadsRect rect s.size s.values out.new) }
        ensures fits { let s = surface_of (Self.state self.old).shown target in IfDone result (All (λ v. v < 2 ^ bits_of s.format) out.new) };

    /// Writes a rectangle, and pushes what was written of it.
    fn write_rect(
        &mut self,
        target: Target,
        rect: Rect,
        from: &[u32],
        drawn: &mut DrawnList,
    ) -> PortAnswer
        requires inside { InTarget (Self.state self.old).shown target rect }
        requires count { length from.now ≡ width_of rect * height_of rect }
        requires fits { All (λ v. v < 2 ^ bits_of (surface_of (Self.state self.old).shown target).format) from.now }
        requires spare { (Self.state self.old).rest.cuts ≤ drawn.old.spare }
        ensures draws { Draws target (with_values rect from.now) (λ p. is_in p rect) (Self.state self.old).rest.cuts (Self.state self.old) (Self.state self.new) drawn.old drawn.new result }
        ensures written { (Self.state self.new).written ≡ next_count (Self.state self.old).written };

    /// Waits until no device still reads or draws in a rectangle.
    fn synchronise(&mut self, target: Target, rect: Rect) -> PortAnswer
        requires { InTarget (Self.state self.old).shown target rect }
        ensures { Keeps (Self.state self.old) (Self.state self.new) result };

    /// In how many parts at most a rectangle is written, and so reported.
    fn max_cuts(&self) -> u32
        ensures value { result ≡ (Self.state self.now).rest.cuts }
        ensures least { 1 ≤ result }
        ensures most { result ≤ 64 };
}

/// Targets for which brushes are realised.
pub trait Realizer: Pictured {
    /// Fills in a brush's values in the target's format and table.
    fn realize_brush(&mut self, target: Target, brush: &BrushFace, into: &mut RBrush) -> PortAnswer
        requires live { IsLive (Self.state self.old).shown target }
        requires ready { IsReadyFor (size_of brush.now) into.old }
        ensures keeps { Keeps (Self.state self.old) (Self.state self.new) result }
        ensures values { let s = surface_of (Self.state self.old).shown target in IfDone result (IsRealised brush.now s.format s.table into.new) };
}
