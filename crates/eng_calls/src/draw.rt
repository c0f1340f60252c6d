//! Any call on bits that hold its target.

ghost use Rattle.std.specs.Prelude.{◌≡◌, All, OnErr, OnOk, length};
ghost use Rattle.geom_base.specs.Points.{is_in_some, LiesIn};
ghost use Rattle.geom_base.specs.Step.{redrawn};
ghost use Rattle.surf_obj.specs.Layout.{Holds, values_in};
ghost use Rattle.surf_obj.specs.Lent.{values_of, size_of, format_of, bytes_of, OnlyPixels};
ghost use Rattle.brush_obj.specs.Calls.{HoldsOwn, held_of, new_of_call, shown, target_of};
ghost use Rattle.eng_calls.specs.Inputs.{Suits, drawn_with};
ghost use Rattle.eng_calls.specs.Memory.{CallMayWantMemory};

use crate::blt::eng_bit_blt;
use crate::copy::eng_copy_bits;
use crate::inputs::Inputs;
use crate::paint::eng_paint;
use brush_obj::DrawCall;
use clip_obj::ClipObj;
use std::alloc::{AllocError, Global};
use surf_obj::{Layout, LentSurf};

/// Draws any call in the rectangles of a clip that lies in the target, on bits that hold it. A source that is held and of which no
/// view is lent is the target itself.
///
/// # Errors
///
/// `AllocError` as of `eng_bit_blt`; the bits are unchanged then.
pub fn eng_draw(
    alloc: Global,
    bits: &mut [u8],
    layout: Layout,
    call: &DrawCall,
    inputs: &Inputs<'_, '_>,
    clip: &mut ClipObj,
) -> Result<(), AllocError>
    requires holds { Holds layout (length bits.old) }
    requires inside { All (λ r. LiesIn r layout.size) clip.old.rects }
    requires held { HoldsOwn (held_of call.now) (target_of call.now) }
    requires suits { Suits call.now inputs.now layout.format }
    ensures values { let own = shown layout.size (values_in layout bits.old) in
        let o = drawn_with inputs.now (held_of call.now) own layout.format in
        OnOk result (values_in layout bits.new ≡ redrawn layout.size (values_in layout bits.old) (λ p. is_in_some p clip.old.rects) (new_of_call call.now o)) }
    ensures unchanged { OnErr result (bits.new ≡ bits.old) }
    ensures cause { OnErr result (CallMayWantMemory call.now inputs.now.source) }
    ensures rects { clip.new.rects ≡ clip.old.rects }
    ensures bounds { clip.new.bounds ≡ clip.old.bounds }
{
    draw_on(alloc, &mut LentSurf::on(bits, layout), call, inputs, clip)
}

/// The same on a surface that was lent.
fn draw_on(
    alloc: Global,
    dst: &mut LentSurf<'_>,
    call: &DrawCall,
    inputs: &Inputs<'_, '_>,
    clip: &mut ClipObj,
) -> Result<(), AllocError>
    requires inside { All (λ r. LiesIn r (size_of dst.old)) clip.old.rects }
    requires held { HoldsOwn (held_of call.now) (target_of call.now) }
    requires suits { Suits call.now inputs.now (format_of dst.old) }
    ensures values { let own = shown (size_of dst.old) (values_of dst.old) in
        let o = drawn_with inputs.now (held_of call.now) own (format_of dst.old) in
        OnOk result (values_of dst.new ≡ redrawn (size_of dst.old) (values_of dst.old) (λ p. is_in_some p clip.old.rects) (new_of_call call.now o)) }
    ensures only { OnlyPixels dst.old dst.new }
    ensures unchanged { OnErr result (bytes_of dst.new ≡ bytes_of dst.old) }
    ensures cause { OnErr result (CallMayWantMemory call.now inputs.now.source) }
    ensures rects { clip.new.rects ≡ clip.old.rects }
    ensures bounds { clip.new.bounds ≡ clip.old.bounds }
{
    let Inputs {
        source,
        mask,
        xlate,
        table,
        brush,
    } = *inputs;
    match (call, xlate, brush) {
        (DrawCall::Blt(call), Some(xlate), Some(brush)) => {
            eng_bit_blt(alloc, dst, call, source, mask, xlate, table, brush, clip)
        }
        (DrawCall::Copy(call), Some(xlate), _) => {
            eng_copy_bits(dst, call, source, xlate, clip);
            Ok(())
        }
        (DrawCall::Paint(call), _, Some(brush)) => {
            eng_paint(dst, call, table, brush, clip);
            Ok(())
        }
        // what `Suits` rules out
        _ => Err(AllocError),
    }
}
