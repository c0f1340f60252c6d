//! Calls on the copy of a part of their target.

ghost use Rattle.std.specs.Prelude.{◌≡◌, ◌≤◌, None, All, OnOk, IfOk, IfErr, length, map};
ghost use Rattle.geom_base.specs.declared.port_answer.PortAnswer.TheVariants.{Done};
ghost use Rattle.geom_base.specs.Points.{LiesIn, corner_of, is_in_some, moved_rect, sides_of, width_of};
ghost use Rattle.geom_base.specs.Step.{redrawn};
ghost use Rattle.surf_obj.specs.Object.{object_format, object_layout, object_size, object_values};
ghost use Rattle.brush_obj.specs.Calls.{CallMoves, held_of, moved_call, new_of_call, shown, target_of};
ghost use Rattle.clip_obj.specs.Clip.{to_origin};
ghost use Rattle.copy_port.specs.Given.{CanDraw, asked_of};
ghost use Rattle.copy_port.specs.Port.{Keeps};
ghost use Rattle.copy_port.specs.State.{surface_of};
ghost use Rattle.eng_calls.specs.Inputs.{Suits, drawn_with, given_of};
ghost use Rattle.eng_calls.specs.Copies.{LiesOnTarget, begins_at, ended};
ghost use Rattle.eng_calls.specs.InnerCopies.{Frames, IsDrawnCopy, IsLentAs};
ghost use Rattle.eng_calls.specs.declared.inputs.Inputs.{Inputs};

use crate::copies::{PartCopy, held_part, stand_in};
use crate::draw::eng_draw;
use crate::framed::Framed;
use crate::inputs::Inputs;
use brush_obj::{DrawCall, calls_move};
use clip_obj::{ClipObj, origin_from};
use copy_port::CopyPort;
use geom_base::{Point, PortAnswer};
use std::alloc::{AllocError, Global};
use surf_obj::SurfObj;

/// Draws a call that holds no source on the copy of a frame of its target.
///
/// # Errors
///
/// `AllocError` for want of memory.
fn draw_on_copy(
    alloc: Global,
    pixels: &mut SurfObj,
    framed: &Framed<'_>,
    call: &DrawCall,
    inputs: &Inputs<'_, '_>,
) -> Result<(), AllocError>
    requires size { object_size pixels.old ≡ sides_of framed.now.frame }
    requires frame { Frames framed.now.frame framed.now.clip.now.rects }
    requires on_target { LiesOnTarget framed.now.frame }
    requires moves { CallMoves call.now (to_origin (corner_of framed.now.frame)) }
    requires unheld { held_of call.now ≡ None }
    requires suits { Suits call.now inputs.now (object_format pixels.old) }
    ensures layout { OnOk result (object_layout pixels.new ≡ object_layout pixels.old) }
    ensures values { let by = to_origin (corner_of framed.now.frame) in
        let o = drawn_with inputs.now None (shown (object_size pixels.old) (object_values pixels.old)) (object_format pixels.old) in
        OnOk result (object_values pixels.new ≡ redrawn (object_size pixels.old) (object_values pixels.old)
        (λ p. is_in_some p (map (λ r. moved_rect r by) framed.now.clip.now.rects)) (new_of_call (moved_call call.now by) o)) }
{
    let corner = framed.frame.corner();
    let mut clip = framed.clip.seen_from(alloc, framed.frame, corner)?;
    let call = call.shifted(origin_from(&corner));
    draw_seen(alloc, pixels, &call, inputs, &mut clip)
}

/// Draws a call that holds no source on a surface, in the rectangles of a clip that lies in it.
fn draw_seen(
    alloc: Global,
    pixels: &mut SurfObj,
    call: &DrawCall,
    inputs: &Inputs<'_, '_>,
    clip: &mut ClipObj,
) -> Result<(), AllocError>
    requires inside { All (λ r. LiesIn r (object_size pixels.old)) clip.old.rects }
    requires unheld { held_of call.now ≡ None }
    requires suits { Suits call.now inputs.now (object_format pixels.old) }
    ensures layout { OnOk result (object_layout pixels.new ≡ object_layout pixels.old) }
    ensures values { let o = drawn_with inputs.now (held_of call.now) (shown (object_size pixels.old) (object_values pixels.old)) (object_format pixels.old) in
        OnOk result (object_values pixels.new ≡ redrawn (object_size pixels.old) (object_values pixels.old)
        (λ p. is_in_some p clip.old.rects) (new_of_call call.now o)) }
{
    let layout = pixels.layout();
    eng_draw(alloc, pixels.bits_mut(), layout, call, inputs, clip)
}

/// The point at which a copy begins; 0 0 where there is none.
fn begins_at(copy: &Option<PartCopy>) -> Point
    ensures { result ≡ begins_at copy.now }
{
    match copy {
        Some(copy) => copy.corner,
        None => Point { x: 0, y: 0 },
    }
}

/// The same, where a copy of what was held is the source, or the source that is lent.
fn draw_lent(
    alloc: Global,
    pixels: &mut SurfObj,
    framed: &Framed<'_>,
    call: &DrawCall,
    inputs: &Inputs<'_, '_>,
    held: &Option<PartCopy>,
) -> Result<(), AllocError>
    requires size { object_size pixels.old ≡ sides_of framed.now.frame }
    requires frame { Frames framed.now.frame framed.now.clip.now.rects }
    requires on_target { LiesOnTarget framed.now.frame }
    requires moves { CallMoves call.now (to_origin (corner_of framed.now.frame)) }
    requires unheld { held_of call.now ≡ None }
    requires suits { (lent : Inputs) → IsLentAs held.now inputs.now lent → Suits call.now lent (object_format pixels.old) }
    ensures layout { OnOk result (object_layout pixels.new ≡ object_layout pixels.old) }
    ensures values { let by = to_origin (corner_of framed.now.frame) in
        OnOk result ((lent : Inputs) × IsLentAs held.now inputs.now lent ×
        (object_values pixels.new ≡ redrawn (object_size pixels.old) (object_values pixels.old)
        (λ p. is_in_some p (map (λ r. moved_rect r by) framed.now.clip.now.rects)) (new_of_call (moved_call call.now by)
        (drawn_with lent None (shown (object_size pixels.old) (object_values pixels.old)) (object_format pixels.old))))) }
{
    match held {
        Some(part) => {
            let view = part.pixels.view();
            let lent = inputs.with_source(&view);
            draw_on_copy(alloc, pixels, framed, call, &lent)
        }
        None => draw_on_copy(alloc, pixels, framed, call, inputs),
    }
}

/// The copy of a frame of a call's target, on which the call is drawn. What it reads of a source that is held is copied before.
///
/// # Errors
///
/// The answer of the port that stopped it, or want of memory.
pub fn drawn_copy<P: CopyPort>(
    alloc: Global,
    port: &mut P,
    call: &DrawCall,
    inputs: &Inputs<'_, '_>,
    framed: &Framed<'_>,
    room: &mut [u32],
) -> Result<SurfObj, PortAnswer>
    requires can { CanDraw call.now (given_of inputs.now) (P.state port.old).shown framed.now.clip.now.rects }
    requires frame { Frames framed.now.frame framed.now.clip.now.rects }
    requires inside { LiesIn framed.now.frame (surface_of (P.state port.old).shown (target_of call.now)).size }
    requires room { width_of framed.now.frame ≤ length room.old }
    ensures keeps { Keeps (P.state port.old) (P.state port.new) (ended result) }
    ensures ok { let clip = framed.now.clip.now.rects in let a = asked_of call.now (given_of inputs.now) (P.state port.old).shown clip in
        IfOk result (IsDrawnCopy (surface_of (P.state port.old).shown a.target) framed.now.frame clip a.new) }
    ensures err { IfErr result (λ answer. ¬ (answer ≡ Done)) }
{
    let held = held_part(alloc, port, call, &framed.frame, room)?;
    let mut pixels = stand_in(alloc, port, call, inputs.source, &framed.frame, room)?;
    calls_move();
    let call = call.lent_from(begins_at(&held));
    match draw_lent(alloc, &mut pixels, framed, &call, inputs, &held) {
        Ok(()) => Ok(pixels),
        Err(_) => Err(PortAnswer::NoMemory),
    }
}
