//! Copies of rectangles of targets.

ghost use Rattle.std.specs.Prelude.{◌≡◌, ◌≤◌, ◌≤ℤ◌, ◌↔◌, pos, IsTrue, length, option_map, IfOk, IfErr, IfSome};
ghost use Rattle.geom_base.specs.declared.point.Point.{Point};
ghost use Rattle.geom_base.specs.declared.port_answer.PortAnswer.TheVariants.{Done, NoMemory};
ghost use Rattle.geom_base.specs.Points.{HasPoints, IsIn, LiesIn, moved_rect, most_side, sides_of, whole, width_of};
ghost use Rattle.surf_obj.specs.Object.{IsBlank};
ghost use Rattle.brush_obj.specs.Calls.{held_of, source_point, target_of};
ghost use Rattle.copy_port.specs.Given.{HasCoordinates, first_of, held_in, picture_of_view};
ghost use Rattle.copy_port.specs.Port.{InTarget, Keeps};
ghost use Rattle.copy_port.specs.State.{IsLive, surface_of};
ghost use Rattle.eng_calls.specs.Copies.{HeldFor, LiesOnTarget, ended};
ghost use Rattle.eng_calls.specs.InnerCopies.{FindsSources, IsCopyOf, StandsIn, to_source};

use crate::part::Part;
use crate::transfer::fetch;
use brush_obj::{DrawCall, shifted_back};
use copy_port::{CopyPort, TargetInfo};
use geom_base::{Point, PortAnswer, Rect, Size, Target};
use pix_format::Format;
use std::alloc::Global;
use surf_obj::{LentView, SurfObj};

/// A copy of a rectangle of a target, and the target's point at which it begins.
#[derive(Drop)]
pub struct PartCopy {
    pub pixels: SurfObj,
    pub corner: Point,
}

/// What a live target is.
fn info_of<P: CopyPort>(port: &P, target: Target) -> TargetInfo
    requires { IsLive (P.state port.now).shown target }
    ensures size { result.size ≡ (surface_of (P.state port.now).shown target).size }
    ensures format { result.format ≡ (surface_of (P.state port.now).shown target).format }
{
    match port.info(target) {
        Some(info) => info,
        None => unreachable!(),
    }
}

/// Copies a rectangle of a target.
///
/// # Errors
///
/// The answer of the port that stopped it, or want of memory.
pub fn copied<P: CopyPort>(
    alloc: Global,
    port: &mut P,
    target: Target,
    rect: &Rect,
    room: &mut [u32],
) -> Result<SurfObj, PortAnswer>
    requires inside { InTarget (P.state port.old).shown target rect.now }
    requires room { width_of rect.now ≤ length room.old }
    ensures keeps { Keeps (P.state port.old) (P.state port.new) (ended result) }
    ensures ok { IfOk result (IsCopyOf (surface_of (P.state port.old).shown target) rect.now) }
    ensures err { IfErr result (λ answer. ¬ (answer ≡ Done)) }
{
    let format = info_of(port, target).format;
    let mut pixels = blank(alloc, rect, format)?;
    let part = Part {
        target,
        rect: *rect,
        layout: pixels.layout(),
    };
    match fetch(port, &part, pixels.bits_mut(), room) {
        PortAnswer::Done => Ok(pixels),
        answer => Err(answer),
    }
}

/// Whether the places from one to before another are some of so many.
fn is_on_side(from: &i32, to: &i32, count: u32) -> bool
    ensures { IsTrue result → (pos 0 ≤ℤ from.now) × (to.now ≤ℤ pos count) }
{
    0 <= *from && i64::from(*to) <= i64::from(count)
}

/// Whether a source of a size has the points that belong to those of a rectangle.
pub fn has_all(call: &DrawCall, size: Size, rect: &Rect) -> bool
    requires coordinates { HasCoordinates call.now }
    requires on_target { LiesOnTarget rect.now }
    ensures { IsTrue result → (p : Point) → IsIn p rect.now → IsIn (source_point call.now p) (whole size) }
{
    let part = moved_to_source(call, rect);
    is_on_side(&part.left, &part.right, size.w) && is_on_side(&part.top, &part.bottom, size.h)
}

/// Whether a call, where it reads its source, finds the points that belong to those of a rectangle.
fn finds_sources<P: CopyPort>(
    port: &P,
    call: &DrawCall,
    source: Option<&LentView<'_>>,
    rect: &Rect,
) -> bool
    requires coordinates { HasCoordinates call.now }
    requires held { IfSome (held_of call.now) (IsLive (P.state port.now).shown) }
    requires on_target { LiesOnTarget rect.now }
    ensures { IsTrue result → FindsSources call.now (first_of (option_map picture_of_view source.entry) (held_in (held_of call.now) (P.state port.now).shown)) rect.now }
{
    if !call.reads_source() {
        return true;
    }
    match (source, call.held()) {
        (Some(view), _) => has_all(call, view.size(), rect),
        (None, Some(target)) => has_all(call, info_of(port, target).size, rect),
        (None, None) => false,
    }
}

/// A surface on which a call can be drawn in the place of a rectangle of its target: a copy where the call reads what points have, or
/// some of them have no source.
///
/// # Errors
///
/// The answer of the port that stopped it, or want of memory.
pub fn stand_in<P: CopyPort>(
    alloc: Global,
    port: &mut P,
    call: &DrawCall,
    source: Option<&LentView<'_>>,
    rect: &Rect,
    room: &mut [u32],
) -> Result<SurfObj, PortAnswer>
    requires coordinates { HasCoordinates call.now }
    requires held { IfSome (held_of call.now) (IsLive (P.state port.old).shown) }
    requires inside { InTarget (P.state port.old).shown (target_of call.now) rect.now }
    requires on_target { LiesOnTarget rect.now }
    requires room { width_of rect.now ≤ length room.old }
    ensures keeps { Keeps (P.state port.old) (P.state port.new) (ended result) }
    ensures ok { let targets = (P.state port.old).shown in IfOk result (StandsIn call.now
        (first_of (option_map picture_of_view source.entry) (held_in (held_of call.now) targets)) (surface_of targets (target_of call.now)) rect.now) }
    ensures err { IfErr result (λ answer. ¬ (answer ≡ Done)) }
{
    let target = call.target();
    if call.reads_target() || !finds_sources(port, call, source, rect) {
        let pixels = copied(alloc, port, target, rect, room)?;
        return Ok(pixels);
    }
    let pixels = blank(alloc, rect, info_of(port, target).format)?;
    Ok(pixels)
}

/// A surface of the size of a rectangle.
fn blank(alloc: Global, rect: &Rect, format: Format) -> Result<SurfObj, PortAnswer>
    requires points { HasPoints rect.now }
    requires on_target { LiesOnTarget rect.now }
    ensures ok { IfOk result (IsBlank (sides_of rect.now) format) }
    ensures err { IfErr result (λ answer. answer ≡ NoMemory) }
{
    match SurfObj::new(alloc, rect.size(), format) {
        Ok(pixels) => Ok(pixels),
        Err(_) => Err(PortAnswer::NoMemory),
    }
}

/// The rectangle of a source that has the source's points for those of a frame.
fn source_rect(call: &DrawCall, frame: &Rect, size: Size) -> Rect
    requires coordinates { HasCoordinates call.now }
    requires frame { LiesOnTarget frame.now }
    requires width { size.w ≤ most_side }
    requires height { size.h ≤ most_side }
    ensures points { (q : Point) → IsIn q result ↔ (IsIn q (moved_rect frame.now (to_source call.now)) × IsIn q (whole size)) }
    ensures inside { LiesIn result size }
{
    moved_to_source(call, frame).cut_to(size)
}

/// A rectangle of a target, moved to the points of a source that belong to its own.
fn moved_to_source(call: &DrawCall, rect: &Rect) -> Rect
    requires coordinates { HasCoordinates call.now }
    requires on_target { LiesOnTarget rect.now }
    ensures { result ≡ moved_rect rect.now (to_source call.now) }
{
    rect.shifted(to_source(call))
}

/// How far a source's point is from the target's point that it belongs to.
fn to_source(call: &DrawCall) -> Point
    requires { HasCoordinates call.now }
    ensures { result ≡ to_source call.now }
{
    shifted_back(call.src(), call.rect().corner())
}

/// What a source that is held has for the points of a frame: a copy of the rectangle that has them; none where none is held, none is
/// read, or it has none of them.
///
/// # Errors
///
/// The answer of the port that stopped it, or want of memory.
pub fn held_part<P: CopyPort>(
    alloc: Global,
    port: &mut P,
    call: &DrawCall,
    frame: &Rect,
    room: &mut [u32],
) -> Result<Option<PartCopy>, PortAnswer>
    requires coordinates { HasCoordinates call.now }
    requires held { IfSome (held_of call.now) (IsLive (P.state port.old).shown) }
    requires frame { LiesOnTarget frame.now }
    requires points { HasPoints frame.now }
    requires room { width_of frame.now ≤ length room.old }
    ensures keeps { Keeps (P.state port.old) (P.state port.new) (ended result) }
    ensures ok { IfOk result (HeldFor (held_of call.now) call.now (P.state port.old).shown frame.now) }
    ensures err { IfErr result (λ answer. ¬ (answer ≡ Done)) }
{
    let target = match call.held() {
        Some(target) if call.reads_source() => target,
        _ => return Ok(None),
    };
    let rect = source_rect(call, frame, info_of(port, target).size);
    if !rect.has_points() {
        return Ok(None);
    }
    let pixels = copied(alloc, port, target, &rect, room)?;
    let corner = rect.corner();
    Ok(Some(PartCopy { pixels, corner }))
}
