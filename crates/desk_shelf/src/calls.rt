//! Calls on the driver at a place.

ghost use Rattle.std.specs.Prelude.{◌≡◌, ◌*◌, ◌<◌, ◌^◌, [], false, length, map, replicate, IfErr, IfOk, IfSome, IsTrue};
ghost use Rattle.std.specs.List.{All};
ghost use Rattle.geom_base.specs.declared.port_answer.PortAnswer.TheVariants.{Done};
ghost use Rattle.geom_base.specs.declared.target.Target.TheVariants.{Screen};
ghost use Rattle.geom_base.specs.Points.{HasPoints, height_of, width_of};
ghost use Rattle.pix_format.specs.Value.{bits_of};
ghost use Rattle.surf_obj.specs.Rects.{ReadsRect};
ghost use Rattle.brush_obj.specs.Calls.{held_of};
ghost use Rattle.copy_port.specs.Given.{CanDraw, HasCoordinates, asked_of};
ghost use Rattle.copy_port.specs.Port.{IfDone, InTarget, Keeps};
ghost use Rattle.copy_port.specs.State.{IsLive, surface_of};
ghost use Rattle.eng_calls.specs.Copies.{HeldFor, LiesOnTarget, ended};
ghost use Rattle.ddi_driver.specs.Enabling.{Disables, Enables};
ghost use Rattle.ddi_driver.specs.Hook.{given_for};
ghost use Rattle.ddi_driver.specs.Modes.{IsMode};
ghost use Rattle.ddi_driver.specs.Slots.{AreRealised};
ghost use Rattle.hook_route.specs.Routes.{Routed};
ghost use Rattle.desk_shelf.specs.Shelf.{OthersStay, state_at};

use brush_obj::{BrushObj, DrawCall};
use clip_obj::ClipObj;
use copy_port::{Mode, Pictured};
use ddi_driver::{DriverPort, EnableRefusal, disable, enable, read_held, read_port};
use eng_calls::PartCopy;
use geom_base::{DrawnList, PortAnswer, Rect, Target};
use hook_route::{Outcome, route};
use pix_format::{ColourTable, XlateObj};
use std::alloc::{AllocError, Global};
use surf_obj::LentView;

/// Enables the driver at a place.
///
/// # Errors
///
/// As `enable`.
pub fn enable_at(
    alloc: Global,
    shelf: &mut Vec<DriverPort>,
    place: usize,
    mode: &Mode,
) -> Result<(), EnableRefusal>
    requires place { place < length shelf.old.items }
    requires disabled { (state_at (map (λ d. ⟦<DriverPort as Pictured>⟧.state d) shelf.old.items) place).rest.enabled ≡ false }
    requires mode { IsMode mode.now }
    ensures enables { Enables mode.now (state_at (map (λ d. ⟦<DriverPort as Pictured>⟧.state d) shelf.old.items) place)
        (state_at (map (λ d. ⟦<DriverPort as Pictured>⟧.state d) shelf.new.items) place) result }
    ensures others { OthersStay place shelf.old.items shelf.new.items }
{
    enable(alloc, &mut shelf[place], mode)
}

/// Disables the driver at a place.
pub fn disable_at(shelf: &mut Vec<DriverPort>, place: usize)
    requires { place < length shelf.old.items }
    ensures disables { Disables (state_at (map (λ d. ⟦<DriverPort as Pictured>⟧.state d) shelf.old.items) place)
        (state_at (map (λ d. ⟦<DriverPort as Pictured>⟧.state d) shelf.new.items) place) }
    ensures others { OthersStay place shelf.old.items shelf.new.items }
{
    disable(&mut shelf[place]);
}

/// Reads a rectangle of a target of the driver at a place.
pub fn read_at(
    shelf: &mut Vec<DriverPort>,
    place: usize,
    target: Target,
    rect: Rect,
    out: &mut [u32],
) -> PortAnswer
    requires place { place < length shelf.old.items }
    requires inside { InTarget (state_at (map (λ d. ⟦<DriverPort as Pictured>⟧.state d) shelf.old.items) place).shown target rect }
    requires count { length out.old ≡ width_of rect * height_of rect }
    ensures keeps { Keeps (state_at (map (λ d. ⟦<DriverPort as Pictured>⟧.state d) shelf.old.items) place)
        (state_at (map (λ d. ⟦<DriverPort as Pictured>⟧.state d) shelf.new.items) place) result }
    ensures values { let s = surface_of (state_at (map (λ d. ⟦<DriverPort as Pictured>⟧.state d) shelf.old.items) place).shown target in
        IfDone result (ReadsRect rect s.size s.values out.new) }
    ensures fits { let s = surface_of (state_at (map (λ d. ⟦<DriverPort as Pictured>⟧.state d) shelf.old.items) place).shown target in
        IfDone result (All (λ v. v < 2 ^ bits_of s.format) out.new) }
    ensures others { OthersStay place shelf.old.items shelf.new.items }
{
    read_port(&mut shelf[place], target, rect, out)
}

/// Draws a call on a target of the driver at a place: `route` to that driver.
pub fn route_at(
    alloc: Global,
    shelf: &mut Vec<DriverPort>,
    place: usize,
    call: &DrawCall,
    src: Option<&LentView<'_>>,
    mask: Option<&LentView<'_>>,
    xlate: &XlateObj,
    table: &ColourTable,
    brush: &mut BrushObj,
    clip: &mut ClipObj,
    drawn: &mut DrawnList,
) -> Outcome
    requires place { place < length shelf.old.items }
    requires enabled { IsTrue (state_at (map (λ d. ⟦<DriverPort as Pictured>⟧.state d) shelf.old.items) place).rest.enabled }
    requires can { CanDraw call.now (given_for call.now src mask xlate.now table.now brush.old.face)
        (state_at (map (λ d. ⟦<DriverPort as Pictured>⟧.state d) shelf.old.items) place).shown clip.old.rects }
    requires slots { AreRealised brush.old (surface_of (state_at (map (λ d. ⟦<DriverPort as Pictured>⟧.state d) shelf.old.items) place).shown Screen) }
    requires empty { drawn.old.rects ≡ [] }
    ensures routed { let g = given_for call.now src.entry mask.entry xlate.now table.now brush.old.face in
        let a = asked_of call.now g (state_at (map (λ d. ⟦<DriverPort as Pictured>⟧.state d) shelf.old.items) place).shown clip.old.rects in
        Routed a (state_at (map (λ d. ⟦<DriverPort as Pictured>⟧.state d) shelf.old.items) place)
        (state_at (map (λ d. ⟦<DriverPort as Pictured>⟧.state d) shelf.new.items) place) drawn.old drawn.new result }
    ensures rects { clip.new.rects ≡ clip.old.rects }
    ensures bounds { clip.new.bounds ≡ clip.old.bounds }
    ensures face { brush.new.face ≡ brush.old.face }
    ensures slots { AreRealised brush.new (surface_of (state_at (map (λ d. ⟦<DriverPort as Pictured>⟧.state d) shelf.old.items) place).shown Screen) }
    ensures others { OthersStay place shelf.old.items shelf.new.items }
{
    let driver = &mut shelf[place];
    route(
        alloc, driver, call, src, mask, xlate, table, brush, clip, drawn,
    )
}

/// So many values.
fn zeros(alloc: Global, len: usize) -> Result<Vec<u32>, AllocError>
    ensures { IfOk result (λ v. v.items ≡ replicate len 0) }
{
    vec![in alloc; 0u32; len]
}

/// Reads what a source that the driver at a place holds has for the points of a frame. All memory is taken before the read.
///
/// # Errors
///
/// The answer of the port that stopped it, or want of memory.
pub fn held_at(
    alloc: Global,
    shelf: &mut Vec<DriverPort>,
    place: usize,
    call: &DrawCall,
    frame: &Rect,
) -> Result<Option<PartCopy>, PortAnswer>
    requires place { place < length shelf.old.items }
    requires coordinates { HasCoordinates call.now }
    requires held { IfSome (held_of call.now) (IsLive (state_at (map (λ d. ⟦<DriverPort as Pictured>⟧.state d) shelf.old.items) place).shown) }
    requires frame { LiesOnTarget frame.now }
    requires points { HasPoints frame.now }
    ensures keeps { Keeps (state_at (map (λ d. ⟦<DriverPort as Pictured>⟧.state d) shelf.old.items) place)
        (state_at (map (λ d. ⟦<DriverPort as Pictured>⟧.state d) shelf.new.items) place) (ended result) }
    ensures ok { let shown = (state_at (map (λ d. ⟦<DriverPort as Pictured>⟧.state d) shelf.old.items) place).shown in
        IfOk result (HeldFor (held_of call.now) call.now shown frame.now) }
    ensures err { IfErr result (λ answer. ¬ (answer ≡ Done)) }
    ensures others { OthersStay place shelf.old.items shelf.new.items }
{
    let mut room = match zeros(alloc, frame.size().w as usize) {
        Ok(room) => room,
        Err(_) => return Err(PortAnswer::NoMemory),
    };
    read_held(alloc, &mut shelf[place], call, frame, room.as_mut_slice())
}
