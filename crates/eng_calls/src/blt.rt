//! Raster operations.

ghost use Rattle.std.specs.Prelude.{◌≡◌, All, IsTrue, length, OnOk, OnErr};
ghost use Rattle.geom_base.specs.Points.{is_in_some, LiesIn};
ghost use Rattle.pix_format.specs.Value.{colours_of};
ghost use Rattle.surf_obj.specs.Lent.{values_of, size_of, format_of, bytes_of, OnlyPixels};
ghost use Rattle.geom_base.specs.Step.{redrawn};
ghost use Rattle.brush_obj.specs.Brush.{tiled};
ghost use Rattle.brush_obj.specs.Calls.{HoldsOwn, blt_operands, new_of_blt, shown};
ghost use Rattle.blt_kernel.specs.Handed.{TranslatesFrom, mask_of, source_of};
ghost use Rattle.rop_mix.specs.Needs.{pattern_needed};
ghost use Rattle.brush_obj.specs.Ink.{InkFits, ink_at};
ghost use Rattle.eng_calls.specs.Memory.{MayWantMemory};

use crate::draws::{DrawsRect, draw_clip};
use crate::order::direction_for;
use blt_kernel::bit_blt_inked;
use brush_obj::{BltCall, BrushObj, Ink, MOST_VALUES};
use clip_obj::ClipObj;
use geom_base::Rect;
use pix_format::{ColourTable, XlateObj};
use rop_mix::needs_pattern;
use std::alloc::{AllocError, Global};
use surf_obj::{LentSurf, LentView};

/// A raster operation with what it draws with.
#[derive(Drop)]
struct Blitting<'a> {
    call: &'a BltCall,
    src: Option<&'a LentView<'a>>,
    mask: Option<&'a LentView<'a>>,
    xlate: &'a XlateObj,
    ink: Ink<'a>,
}

impl DrawsRect for Blitting<'_> {
    ghost use Rattle.eng_calls.specs.InnerGives.{BltFits, BltGives};

    ghost fits = { λ k format. BltFits k format };

    ghost gives = { λ k size format. BltGives k size format };

    fn draw(&self, dst: &mut LentSurf<'_>, rect: &Rect) {
        bit_blt_inked(
            dst, *rect, self.call, self.src, self.mask, self.xlate, self.ink,
        );
    }
}

/// Draws a raster operation in the rectangles of a clip that lies in the target. The source is `src`, or the target itself where
/// the call names a source that is held and no view is lent; then it is read as it was before the call. `xlate` leads from the
/// source to the target, and `table` is the target's. A point for which a source or a mask that is needed has no point is untouched.
///
/// # Errors
///
/// `AllocError` only for want of memory for a copy of the source, where that is the target itself and a mask is needed. None is taken
/// today: on bits the order of drawing keeps the source's pixels until they are read, with a mask as without.
pub fn eng_bit_blt(
    _alloc: Global,
    dst: &mut LentSurf<'_>,
    call: &BltCall,
    src: Option<&LentView<'_>>,
    mask: Option<&LentView<'_>>,
    xlate: &XlateObj,
    table: &ColourTable,
    brush: &BrushObj,
    clip: &mut ClipObj,
) -> Result<(), AllocError>
    requires inside { All (λ r. LiesIn r (size_of dst.old)) clip.old.rects }
    requires held { HoldsOwn call.now.held call.now.target }
    requires from { TranslatesFrom src call.now.held (format_of dst.old) xlate.now }
    requires to { xlate.now.to ≡ format_of dst.old }
    requires table { length table.now ≡ colours_of (format_of dst.old) }
    ensures values { let source = source_of src.entry call.now.held (shown (size_of dst.old) (values_of dst.old)) in
        let o = blt_operands source (mask_of mask.entry) xlate.now (tiled brush.now.face (format_of dst.old) table.now) (format_of dst.old) in
        OnOk result (values_of dst.new ≡ redrawn (size_of dst.old) (values_of dst.old) (λ p. is_in_some p clip.old.rects) (new_of_blt call.now o)) }
    ensures only { OnlyPixels dst.old dst.new }
    ensures unchanged { OnErr result (bytes_of dst.new ≡ bytes_of dst.old) }
    ensures cause { OnErr result (MayWantMemory call.now src.entry) }
    ensures rects { clip.new.rects ≡ clip.old.rects }
    ensures bounds { clip.new.bounds ≡ clip.old.bounds }
{
    blt_clip(dst, call, src, mask, xlate, table, brush, clip);
    Ok(())
}

/// Draws a raster operation in the rectangles of a clip, from a source that is read as it was before the call.
fn blt_clip(
    dst: &mut LentSurf<'_>,
    call: &BltCall,
    src: Option<&LentView<'_>>,
    mask: Option<&LentView<'_>>,
    xlate: &XlateObj,
    table: &ColourTable,
    brush: &BrushObj,
    clip: &mut ClipObj,
)
    requires inside { All (λ r. LiesIn r (size_of dst.old)) clip.old.rects }
    requires held { HoldsOwn call.now.held call.now.target }
    requires from { TranslatesFrom src call.now.held (format_of dst.old) xlate.now }
    requires to { xlate.now.to ≡ format_of dst.old }
    requires table { length table.now ≡ colours_of (format_of dst.old) }
    ensures values { let source = source_of src.entry call.now.held (shown (size_of dst.old) (values_of dst.old)) in
        let o = blt_operands source (mask_of mask.entry) xlate.now (tiled brush.now.face (format_of dst.old) table.now) (format_of dst.old) in
        values_of dst.new ≡ redrawn (size_of dst.old) (values_of dst.old) (λ p. is_in_some p clip.old.rects) (new_of_blt call.now o) }
    ensures only { OnlyPixels dst.old dst.new }
    ensures rects { clip.new.rects ≡ clip.old.rects }
    ensures bounds { clip.new.bounds ≡ clip.old.bounds }
{
    if !needs_pattern(call.rop) {
        blt_inked(dst, call, src, mask, xlate, Ink::Solid(0), clip);
        return;
    }
    match Ink::ready(brush.face(), dst.format(), table) {
        Some(ink) => blt_inked(dst, call, src, mask, xlate, ink, clip),
        None => {
            let mut room = [0; MOST_VALUES];
            let ink = Ink::made(brush.face(), dst.format(), table, &mut room);
            blt_inked(dst, call, src, mask, xlate, ink, clip);
        }
    }
}

/// The same by an ink that was made for the target.
pub(crate) fn blt_inked(
    dst: &mut LentSurf<'_>,
    call: &BltCall,
    src: Option<&LentView<'_>>,
    mask: Option<&LentView<'_>>,
    xlate: &XlateObj,
    ink: Ink<'_>,
    clip: &mut ClipObj,
)
    requires inside { All (λ r. LiesIn r (size_of dst.old)) clip.old.rects }
    requires held { HoldsOwn call.now.held call.now.target }
    requires from { TranslatesFrom src call.now.held (format_of dst.old) xlate.now }
    requires to { xlate.now.to ≡ format_of dst.old }
    requires ink { IsTrue (pattern_needed call.now.rop.code) → InkFits ink (format_of dst.old) }
    ensures values { let source = source_of src.entry call.now.held (shown (size_of dst.old) (values_of dst.old)) in
        let o = blt_operands source (mask_of mask.entry) xlate.now (ink_at ink.entry) (format_of dst.old) in
        values_of dst.new ≡ redrawn (size_of dst.old) (values_of dst.old) (λ p. is_in_some p clip.old.rects) (new_of_blt call.now o) }
    ensures only { OnlyPixels dst.old dst.new }
    ensures rects { clip.new.rects ≡ clip.old.rects }
    ensures bounds { clip.new.bounds ≡ clip.old.bounds }
{
    let blitting = Blitting {
        call,
        src,
        mask,
        xlate,
        ink,
    };
    draw_clip(&blitting, dst, clip, direction_for(&call.rect, &call.src));
}
