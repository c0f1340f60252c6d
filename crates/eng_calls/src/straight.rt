//! Sources that are copied as they are.

ghost use Rattle.std.specs.Prelude.{◌≡◌, IfSome};
ghost use Rattle.geom_base.specs.Points.{HasSides};
ghost use Rattle.copy_port.specs.Given.{HasCoordinates};
ghost use Rattle.eng_calls.specs.Copies.{LiesOnTarget};
ghost use Rattle.eng_calls.specs.InnerCopies.{IsStraightSource, source_place};

use crate::copies::has_all;
use crate::inputs::Inputs;
use brush_obj::{DrawCall, shifted_back};
use geom_base::{Rect, Size};
use pix_format::XlateKind;
use surf_obj::LentView;

/// The source of a call that copies it as it is to all points of a rectangle: it is lent, no value is translated, and no point is
/// wanting.
pub fn straight_source<'s>(
    call: &DrawCall,
    inputs: &Inputs<'s, '_>,
    rect: &Rect,
) -> Option<&'s LentView<'s>>
    requires coordinates { HasCoordinates call.now }
    requires on_target { LiesOnTarget rect.now }
    ensures { IfSome result (IsStraightSource call.now inputs.now rect.now) }
{
    let source = inputs.source?;
    let xlate = inputs.xlate?;
    if !call.copies_source() {
        return None;
    }
    let XlateKind::Trivial = xlate.kind() else {
        return None;
    };
    if has_all(call, source.size(), rect) {
        Some(source)
    } else {
        None
    }
}

/// Where a source of a size lies, in the coordinates of the target that it is copied to.
pub fn source_place(call: &DrawCall, size: Size) -> Rect
    requires coordinates { HasCoordinates call.now }
    requires sides { HasSides size }
    ensures { result ≡ source_place call.now size }
{
    size.whole()
        .shifted(shifted_back(call.rect().corner(), call.src()))
}
