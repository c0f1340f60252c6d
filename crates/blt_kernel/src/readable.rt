//! The part of a drawing for which source and mask are there.

ghost use Rattle.std.specs.Prelude.{◌≡◌, ◌≤◌, ℕ, ◌&&◌, IfSome};
ghost use Rattle.geom_base.specs.Points.{is_in, point_at, most_side};
ghost use Rattle.surf_obj.specs.Lent.{values_of, size_of, format_of, OnlyPixels};
ghost use Rattle.geom_base.specs.Step.{redrawn};
ghost use Rattle.blt_kernel.specs.InnerBoxes.{box_from, LieIn, ArePart, HasPoint, BoxReaches, SourceReaches, MaskReaches};
ghost use Rattle.blt_kernel.specs.InnerDrawing.{IsTranslated};
ghost use Rattle.brush_obj.specs.Ink.{InkFits};
ghost use Rattle.blt_kernel.specs.InnerReadable.{is_readable, source_is_readable, mask_is_readable, drawn_readable};

use crate::drawing::Drawing;
use crate::edges::Edges;
use crate::mask::Mask;
use crate::rows::draw_box;
use crate::source::SourcePixels;
use geom_base::Size;
use surf_obj::LentSurf;

/// Draws the points of a box for which source and mask are there.
pub fn draw_readable(drawing: &Drawing<'_>, dst: &mut LentSurf<'_>, edges: &Edges)
    requires inside { LieIn (size_of dst.old) edges.now }
    requires translated { IfSome drawing.now.source (IsTranslated (format_of dst.old)) }
    requires ink { InkFits drawing.now.ink (format_of dst.old) }
    ensures values { values_of dst.new ≡
        redrawn (size_of dst.old) (values_of dst.old) (λ p. is_in p (box_from edges.now))
        (drawn_readable drawing.now (size_of dst.old) (format_of dst.old) (values_of dst.old)) }
    ensures only { OnlyPixels dst.old dst.new }
{
    let readable = cut_by_source(&drawing.source, dst.size(), edges);
    let there = cut_by_mask(&drawing.mask, &readable);
    if there.has_point() {
        draw_box(drawing, dst, &there, drawing.is_forward());
    }
}

/// The part of a box on a target of a size for which the source is there.
fn cut_by_source(source: &Option<SourcePixels<'_>>, size: Size, edges: &Edges) -> Edges
    requires inside { LieIn size edges.now }
    requires width { size.w ≤ most_side }
    requires height { size.h ≤ most_side }
    ensures part { ArePart edges.now result }
    ensures points { (x y : ℕ) → is_in (point_at x y) (box_from result) ≡
        (is_in (point_at x y) (box_from edges.now) && source_is_readable source.now size (point_at x y)) }
    ensures there { HasPoint result → IfSome source.now (SourceReaches size result) }
{
    match source {
        Some(source) => source.shift.cut(source.size(size), edges),
        None => *edges,
    }
}

/// The part of a box for which the mask is there.
fn cut_by_mask(mask: &Option<Mask<'_>>, edges: &Edges) -> Edges
    requires across { edges.now.left ≤ edges.now.right }
    requires right { edges.now.right ≤ most_side }
    requires down { edges.now.top ≤ edges.now.bottom }
    requires bottom { edges.now.bottom ≤ most_side }
    ensures part { ArePart edges.now result }
    ensures points { (x y : ℕ) → is_in (point_at x y) (box_from result) ≡
        (is_in (point_at x y) (box_from edges.now) && mask_is_readable mask.now (point_at x y)) }
    ensures there { HasPoint result → IfSome mask.now (MaskReaches result) }
{
    match mask {
        Some(mask) => mask.shift.cut(mask.view.size(), edges),
        None => *edges,
    }
}
