//! Raster operations.

ghost use Rattle.std.specs.Prelude.{◌≡◌, IsTrue, length};
ghost use Rattle.geom_base.specs.Points.{is_in, LiesIn};
ghost use Rattle.pix_format.specs.Value.{colours_of};
ghost use Rattle.surf_obj.specs.Lent.{values_of, size_of, format_of, OnlyPixels};
ghost use Rattle.geom_base.specs.Step.{redrawn};
ghost use Rattle.brush_obj.specs.Brush.{tiled};
ghost use Rattle.brush_obj.specs.Calls.{HoldsOwn, blt_operands, new_of_blt, shown};
ghost use Rattle.rop_mix.specs.Needs.{pattern_needed};
ghost use Rattle.brush_obj.specs.Ink.{InkFits, ink_at};
ghost use Rattle.blt_kernel.specs.Handed.{TranslatesFrom, mask_of, source_of};
ghost use Rattle.blt_kernel.specs.InnerHanded.{drawing_given, ink_given};

use crate::drawing::Drawing;
use crate::edges::Edges;
use crate::mask::{lacks_mask, mask_for};
use crate::readable::draw_readable;
use crate::shift::Shift;
use crate::source::{lacks_source, source_for};
use brush_obj::{BltCall, BrushObj, Ink, MOST_VALUES};
use geom_base::Rect;
use pix_format::{ColourTable, XlateObj};
use rop_mix::{Rop4, needs_pattern};
use surf_obj::{LentSurf, LentView};

/// Draws the part of a raster operation in a rectangle of the target. The source is `src`, or the target itself where the call
/// names a source that is held and no view is lent; then each point is read before it is drawn. `xlate` leads from the source to
/// the target, and `table` is the target's. A point for which a source or a mask that is needed has no point is untouched.
pub fn bit_blt_rect(
    dst: &mut LentSurf<'_>,
    rect: Rect,
    call: &BltCall,
    src: Option<&LentView<'_>>,
    mask: Option<&LentView<'_>>,
    xlate: &XlateObj,
    table: &ColourTable,
    brush: &BrushObj,
)
    requires inside { LiesIn rect (size_of dst.old) }
    requires held { HoldsOwn call.now.held call.now.target }
    requires from { TranslatesFrom src call.now.held (format_of dst.old) xlate.now }
    requires to { xlate.now.to ≡ format_of dst.old }
    requires table { length table.now ≡ colours_of (format_of dst.old) }
    ensures values { let source = source_of src.entry call.now.held (shown (size_of dst.old) (values_of dst.old)) in
        let o = blt_operands source (mask_of mask.entry) xlate.now (tiled brush.now.face (format_of dst.old) table.now) (format_of dst.old) in
        values_of dst.new ≡ redrawn (size_of dst.old) (values_of dst.old) (λ p. is_in p rect) (new_of_blt call.now o) }
    ensures only { OnlyPixels dst.old dst.new }
{
    if !needs_pattern(call.rop) {
        bit_blt_inked(dst, rect, call, src, mask, xlate, Ink::Solid(0));
        return;
    }
    match Ink::ready(brush.face(), dst.format(), table) {
        Some(ink) => bit_blt_inked(dst, rect, call, src, mask, xlate, ink),
        None => {
            let mut room = [0; MOST_VALUES];
            let ink = Ink::made(brush.face(), dst.format(), table, &mut room);
            bit_blt_inked(dst, rect, call, src, mask, xlate, ink);
        }
    }
}

/// The same by an ink that was made for the target: for many rectangles of one call it is made once.
pub fn bit_blt_inked(
    dst: &mut LentSurf<'_>,
    rect: Rect,
    call: &BltCall,
    src: Option<&LentView<'_>>,
    mask: Option<&LentView<'_>>,
    xlate: &XlateObj,
    ink: Ink<'_>,
)
    requires inside { LiesIn rect (size_of dst.old) }
    requires held { HoldsOwn call.now.held call.now.target }
    requires from { TranslatesFrom src call.now.held (format_of dst.old) xlate.now }
    requires to { xlate.now.to ≡ format_of dst.old }
    requires ink { IsTrue (pattern_needed call.now.rop.code) → InkFits ink (format_of dst.old) }
    ensures values { let source = source_of src.entry call.now.held (shown (size_of dst.old) (values_of dst.old)) in
        let o = blt_operands source (mask_of mask.entry) xlate.now (ink_at ink.entry) (format_of dst.old) in
        values_of dst.new ≡ redrawn (size_of dst.old) (values_of dst.old) (λ p. is_in p rect) (new_of_blt call.now o) }
    ensures only { OnlyPixels dst.old dst.new }
{
    if lacks_source(call.rop, call.held, src) {
        return;
    }
    if lacks_mask(call.rop, mask) {
        return;
    }
    let drawing = blt_drawing(call, src, mask, xlate, ink);
    draw_readable(&drawing, dst, &Edges::of(rect));
}

/// An ink as a raster operation draws with it, which is the value 0 where it needs no pattern.
fn needed_ink(rop: Rop4, ink: Ink<'_>) -> Ink<'_>
    ensures { result ≡ ink_given (pattern_needed rop.code) ink.entry }
{
    if needs_pattern(rop) {
        return ink;
    }
    Ink::Solid(0)
}

/// What a raster operation draws with.
fn blt_drawing<'a>(
    call: &BltCall,
    src: Option<&'a LentView<'a>>,
    mask: Option<&'a LentView<'a>>,
    xlate: &'a XlateObj,
    ink: Ink<'a>,
) -> Drawing<'a>
    ensures { result ≡ drawing_given call.now src.entry mask.entry xlate.entry ink.entry }
{
    let to_source = Shift {
        rect: call.rect,
        at: call.src,
    };
    let to_mask = Shift {
        rect: call.rect,
        at: call.mask,
    };
    Drawing {
        rop: call.rop,
        source: source_for(call.rop, src, to_source, xlate),
        mask: mask_for(call.rop, mask, to_mask),
        ink: needed_ink(call.rop, ink),
        origin: call.origin,
    }
}
