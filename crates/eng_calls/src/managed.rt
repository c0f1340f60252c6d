//! Drawing through a port.

ghost use Rattle.std.specs.Prelude.{◌≡◌, ◌*◌, ◌≤◌, length, replicate, IfOk};
ghost use Rattle.geom_base.specs.Points.{HasPoints, is_in_some, width_of};
ghost use Rattle.brush_obj.specs.declared.draw_call.DrawCall.TheVariants as calls;
ghost use Rattle.copy_port.specs.Given.{CanDraw, asked_of, given_blt, given_copy, given_paint};
ghost use Rattle.copy_port.specs.Port.{Draws};
ghost use Rattle.eng_calls.specs.Inputs.{given_of};
ghost use Rattle.eng_calls.specs.Copies.{LiesOnTarget};

use crate::framed::Framed;
use crate::inputs::Inputs;
use crate::on_copy::drawn_copy;
use crate::part::Part;
use crate::storing::store_all;
use crate::straight::{source_place, straight_source};
use brush_obj::{BltCall, BrushObj, CopyCall, DrawCall, PaintCall};
use clip_obj::ClipObj;
use copy_port::CopyPort;
use geom_base::{DrawnList, MOST_SIDE, PortAnswer, Rect, Size};
use pix_format::{ColourTable, XlateObj};
use region::extents_of;
use std::alloc::{AllocError, Global};
use surf_obj::LentView;

/// How many values there is to be room for: those of a rectangle, or of a row of it at least.
fn room_for(rect: &Rect) -> usize
    requires points { HasPoints rect.now }
    requires on_target { LiesOnTarget rect.now }
    ensures { width_of rect.now ≤ result }
{
    let Size { w, h } = rect.size();
    (w as usize * h as usize).min(MOST_SIDE as usize)
}

/// So many values.
fn zeros(alloc: Global, len: usize) -> Result<Vec<u32>, AllocError>
    ensures items { IfOk result (λ v. v.items ≡ replicate len 0) }
{
    vec![in alloc; 0u32; len]
}

/// Draws any call through a port, in the rectangles of a clip that lies in the target and in the call's reach. All memory is taken and all
/// pixels are read before the first is written; the rectangles are written in the order of the clip. What was pushed has its new values, and
/// all else is as before, whatever the answer.
pub fn eng_draw_managed<P: CopyPort>(
    alloc: Global,
    port: &mut P,
    call: &DrawCall,
    inputs: &Inputs<'_, '_>,
    clip: &ClipObj,
    drawn: &mut DrawnList,
) -> PortAnswer
    requires can { CanDraw call.now (given_of inputs.now) (P.state port.old).shown clip.now.rects }
    requires spare { (P.state port.old).rest.cuts * length clip.now.rects ≤ drawn.old.spare }
    ensures { let a = asked_of call.now (given_of inputs.now) (P.state port.old).shown clip.now.rects in
        Draws a.target a.new (λ p. is_in_some p a.clip) ((P.state port.old).rest.cuts * length a.clip)
        (P.state port.old) (P.state port.new) drawn.old drawn.new result }
{
    let rects = clip.rects();
    let frame = extents_of(rects);
    if !frame.has_points() {
        return PortAnswer::Done;
    }
    let mut room = match zeros(alloc, room_for(&frame)) {
        Ok(room) => room,
        Err(_) => return PortAnswer::NoMemory,
    };
    if let Some(source) = straight_source(call, inputs, &frame) {
        let part = Part {
            target: call.target(),
            rect: source_place(call, source.size()),
            layout: source.layout(),
        };
        return store_all(port, &part, rects, source.bits(), &mut room, drawn);
    }
    let framed = Framed { clip, frame };
    let copy = match drawn_copy(alloc, port, call, inputs, &framed, &mut room) {
        Ok(copy) => copy,
        Err(answer) => return answer,
    };
    let part = Part {
        target: call.target(),
        rect: frame,
        layout: copy.layout(),
    };
    store_all(port, &part, rects, copy.bits(), &mut room, drawn)
}

/// Draws a raster operation through a port: `eng_draw_managed` of it.
pub fn eng_bit_blt_managed<P: CopyPort>(
    alloc: Global,
    port: &mut P,
    call: &BltCall,
    src: Option<&LentView<'_>>,
    mask: Option<&LentView<'_>>,
    xlate: &XlateObj,
    table: &ColourTable,
    brush: &BrushObj,
    clip: &mut ClipObj,
    drawn: &mut DrawnList,
) -> PortAnswer
    requires can { CanDraw (calls.Blt call.now) (given_blt src mask xlate.now table.now brush.now.face) (P.state port.old).shown clip.old.rects }
    requires spare { (P.state port.old).rest.cuts * length clip.old.rects ≤ drawn.old.spare }
    ensures draws { let g = given_blt src.entry mask.entry xlate.now table.now brush.now.face in
        let a = asked_of (calls.Blt call.now) g (P.state port.old).shown clip.old.rects in
        Draws a.target a.new (λ p. is_in_some p a.clip) ((P.state port.old).rest.cuts * length a.clip)
        (P.state port.old) (P.state port.new) drawn.old drawn.new result }
    ensures clip { clip.new ≡ clip.old }
{
    let inputs = Inputs::blt(src, mask, xlate, table, brush);
    eng_draw_managed(alloc, port, &DrawCall::Blt(*call), &inputs, clip, drawn)
}

/// Draws a copy through a port: `eng_draw_managed` of it.
pub fn eng_copy_bits_managed<P: CopyPort>(
    alloc: Global,
    port: &mut P,
    call: &CopyCall,
    src: Option<&LentView<'_>>,
    xlate: &XlateObj,
    table: &ColourTable,
    clip: &mut ClipObj,
    drawn: &mut DrawnList,
) -> PortAnswer
    requires can { CanDraw (calls.Copy call.now) (given_copy src xlate.now table.now) (P.state port.old).shown clip.old.rects }
    requires spare { (P.state port.old).rest.cuts * length clip.old.rects ≤ drawn.old.spare }
    ensures draws { let g = given_copy src.entry xlate.now table.now in
        let a = asked_of (calls.Copy call.now) g (P.state port.old).shown clip.old.rects in
        Draws a.target a.new (λ p. is_in_some p a.clip) ((P.state port.old).rest.cuts * length a.clip)
        (P.state port.old) (P.state port.new) drawn.old drawn.new result }
    ensures clip { clip.new ≡ clip.old }
{
    let inputs = Inputs::copy(src, xlate, table);
    eng_draw_managed(alloc, port, &DrawCall::Copy(*call), &inputs, clip, drawn)
}

/// Draws a paint through a port: `eng_draw_managed` of it.
pub fn eng_paint_managed<P: CopyPort>(
    alloc: Global,
    port: &mut P,
    call: &PaintCall,
    table: &ColourTable,
    brush: &BrushObj,
    clip: &mut ClipObj,
    drawn: &mut DrawnList,
) -> PortAnswer
    requires can { CanDraw (calls.Paint call.now) (given_paint table.now brush.now.face) (P.state port.old).shown clip.old.rects }
    requires spare { (P.state port.old).rest.cuts * length clip.old.rects ≤ drawn.old.spare }
    ensures draws { let g = given_paint table.now brush.now.face in
        let a = asked_of (calls.Paint call.now) g (P.state port.old).shown clip.old.rects in
        Draws a.target a.new (λ p. is_in_some p a.clip) ((P.state port.old).rest.cuts * length a.clip)
        (P.state port.old) (P.state port.new) drawn.old drawn.new result }
    ensures clip { clip.new ≡ clip.old }
{
    let inputs = Inputs::paint(table, brush);
    eng_draw_managed(alloc, port, &DrawCall::Paint(*call), &inputs, clip, drawn)
}
