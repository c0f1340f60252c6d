//! Paints.

ghost use Rattle.std.specs.Prelude.{◌≡◌, ℕ, List, None, length};
ghost use Rattle.geom_base.specs.Points.{is_in, LiesIn};
ghost use Rattle.geom_base.specs.declared.point.Point.{Point};
ghost use Rattle.geom_base.specs.declared.size.Size.{Size};
ghost use Rattle.pix_format.specs.Value.{colours_of};
ghost use Rattle.pix_format.specs.declared.format.Format.{Format};
ghost use Rattle.surf_obj.specs.Lent.{values_of, size_of, format_of, OnlyPixels};
ghost use Rattle.geom_base.specs.Step.{redrawn};
ghost use Rattle.brush_obj.specs.Brush.{tiled};
ghost use Rattle.brush_obj.specs.Calls.{new_of_paint, paint_operands};
ghost use Rattle.blt_kernel.specs.InnerDrawing.{drawn};
ghost use Rattle.brush_obj.specs.Ink.{InkFits, ink_at};

use crate::drawing::Drawing;
use crate::edges::Edges;
use crate::rows::draw_box;
use brush_obj::{BrushObj, Ink, MOST_VALUES, PaintCall};
use geom_base::Rect;
use pix_format::ColourTable;
use rop_mix::Rop4;
use surf_obj::LentSurf;

/// Draws the part of a paint in a rectangle of the target. `table` is the target's.
pub fn paint_rect(
    dst: &mut LentSurf<'_>,
    rect: Rect,
    call: &PaintCall,
    table: &ColourTable,
    brush: &BrushObj,
)
    requires inside { LiesIn rect (size_of dst.old) }
    requires table { length table.now ≡ colours_of (format_of dst.old) }
    ensures values { let o = paint_operands (tiled brush.now.face (format_of dst.old) table.now) (format_of dst.old) in
        values_of dst.new ≡ redrawn (size_of dst.old) (values_of dst.old) (λ p. is_in p rect) (new_of_paint call.now o) }
    ensures only { OnlyPixels dst.old dst.new }
{
    match Ink::ready(brush.face(), dst.format(), table) {
        Some(ink) => paint_inked(dst, rect, call, ink),
        None => {
            let mut room = [0; MOST_VALUES];
            let ink = Ink::made(brush.face(), dst.format(), table, &mut room);
            paint_inked(dst, rect, call, ink);
        }
    }
}

/// The same by an ink that was made for the target: for many rectangles of one call it is made once.
pub fn paint_inked(dst: &mut LentSurf<'_>, rect: Rect, call: &PaintCall, ink: Ink<'_>)
    requires inside { LiesIn rect (size_of dst.old) }
    requires ink { InkFits ink (format_of dst.old) }
    ensures values { let o = paint_operands (ink_at ink.entry) (format_of dst.old) in
        values_of dst.new ≡ redrawn (size_of dst.old) (values_of dst.old) (λ p. is_in p rect) (new_of_paint call.now o) }
    ensures only { OnlyPixels dst.old dst.new }
{
    let drawing = paint_drawing(call, ink);
    draw_box(&drawing, dst, &Edges::of(rect), true);
}

/// What a paint draws with.
fn paint_drawing<'a>(call: &PaintCall, ink: Ink<'a>) -> Drawing<'a>
    ensures source { result.source ≡ None }
    ensures mask { result.mask ≡ None }
    ensures ink { result.ink ≡ ink.entry }
    ensures values { (size : Size) (format : Format) (values : List ℕ) (p : Point) (d : ℕ) →
        drawn result size format values p d ≡ new_of_paint call.now (paint_operands (ink_at ink.entry) format) p d }
{
    Drawing {
        rop: Rop4::of(u16::from(call.rop3()) * 257),
        source: None,
        mask: None,
        ink,
        origin: call.origin,
    }
}
