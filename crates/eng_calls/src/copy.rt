//! Copies.

ghost use Rattle.std.specs.Prelude.{◌≡◌, All};
ghost use Rattle.geom_base.specs.Points.{is_in_some, LiesIn};
ghost use Rattle.surf_obj.specs.Lent.{values_of, size_of, format_of, OnlyPixels};
ghost use Rattle.geom_base.specs.Step.{redrawn};
ghost use Rattle.brush_obj.specs.Calls.{HoldsOwn, copy_operands, new_of_copy, shown};
ghost use Rattle.blt_kernel.specs.Handed.{TranslatesFrom, source_of};

use crate::blt::blt_inked;
use brush_obj::{CopyCall, Ink};
use clip_obj::ClipObj;
use pix_format::XlateObj;
use surf_obj::{LentSurf, LentView};

/// Draws a copy in the rectangles of a clip that lies in the target. The source is `src`, or the target itself where the call
/// names a source that is held and no view is lent; then it is read as it was before the call. `xlate` leads from the source to
/// the target. A point for which the source has none is untouched.
pub fn eng_copy_bits(
    dst: &mut LentSurf<'_>,
    call: &CopyCall,
    src: Option<&LentView<'_>>,
    xlate: &XlateObj,
    clip: &mut ClipObj,
)
    requires inside { All (λ r. LiesIn r (size_of dst.old)) clip.old.rects }
    requires held { HoldsOwn call.now.held call.now.target }
    requires from { TranslatesFrom src call.now.held (format_of dst.old) xlate.now }
    requires to { xlate.now.to ≡ format_of dst.old }
    ensures values { let source = source_of src.entry call.now.held (shown (size_of dst.old) (values_of dst.old)) in
        let o = copy_operands source xlate.now (format_of dst.old) in
        values_of dst.new ≡ redrawn (size_of dst.old) (values_of dst.old) (λ p. is_in_some p clip.old.rects) (new_of_copy call.now o) }
    ensures only { OnlyPixels dst.old dst.new }
    ensures rects { clip.new.rects ≡ clip.old.rects }
    ensures bounds { clip.new.bounds ≡ clip.old.bounds }
{
    blt_inked(dst, &call.as_blt(), src, None, xlate, Ink::Solid(0), clip);
}
