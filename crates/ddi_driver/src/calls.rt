//! The calls of a driver on the shelf.

ghost use Rattle.std.specs.Prelude.{◌≡◌, ◌*◌, ◌<◌, ◌≤◌, ◌^◌, false, length, IfErr, IfOk, IfSome, IsTrue};
ghost use Rattle.std.specs.List.{All};
ghost use Rattle.geom_base.specs.declared.port_answer.PortAnswer.TheVariants.{Done};
ghost use Rattle.geom_base.specs.declared.target.Target.TheVariants.{Screen};
ghost use Rattle.geom_base.specs.Points.{HasPoints, height_of, is_in_some, width_of};
ghost use Rattle.pix_format.specs.Value.{bits_of};
ghost use Rattle.surf_obj.specs.Rects.{ReadsRect};
ghost use Rattle.brush_obj.specs.Calls.{held_of};
ghost use Rattle.copy_port.specs.Classes.{has_hook};
ghost use Rattle.copy_port.specs.declared.hooks.Hook.{Hook};
ghost use Rattle.copy_port.specs.Given.{CanDraw, HasCoordinates, asked_of};
ghost use Rattle.copy_port.specs.Port.{Draws, IfDone, InTarget, Keeps};
ghost use Rattle.copy_port.specs.State.{IsLive, surface_of};
ghost use Rattle.eng_calls.specs.Copies.{HeldFor, LiesOnTarget, ended};
ghost use Rattle.eng_calls.specs.Inputs.{given_of};
ghost use Rattle.ddi_driver.specs.Bitmaps.{Creates, Deletes, HasBitmap};
ghost use Rattle.ddi_driver.specs.Enabling.{Disables, Enables};
ghost use Rattle.ddi_driver.specs.Hook.{HookContract, given_for};
ghost use Rattle.ddi_driver.specs.Modes.{IsMode, IsTargetSize};
ghost use Rattle.ddi_driver.specs.Slots.{AreRealised};
ghost use Rattle.ddi_driver.specs.Stats.{stats_of};

use crate::answers::{CreateAnswer, EnableRefusal, HookAnswer};
use crate::counts::Stats;
use crate::driver::DisplayDriver;
use crate::driver_port::DriverPort;
use brush_obj::{BrushObj, DrawCall};
use clip_obj::ClipObj;
use copy_port::{CopyPort, Hooks, Kind, Limit, Mode, Pictured};
use eng_calls::{Inputs, PartCopy, eng_draw_managed, held_part};
use geom_base::{DrawnList, PortAnswer, Rect, Size, Target};
use pix_format::{ColourTable, XlateObj};
use std::alloc::Global;
use surf_obj::LentView;

/// How a driver reaches its pixels.
pub fn kind(driver: &DriverPort) -> Kind
    ensures { result ≡ (⟦<DriverPort as Pictured>⟧.state driver.now).rest.kind }
{
    driver.driver.kind()
}

/// Whether a driver is enabled.
pub fn is_enabled(driver: &DriverPort) -> bool
    ensures { result ≡ (⟦<DriverPort as Pictured>⟧.state driver.now).rest.enabled }
{
    driver.driver.enabled()
}

/// What of a mode a driver can't do, or `None` where it can do the mode.
pub fn mode_limit(driver: &DriverPort, mode: &Mode) -> Option<Limit>
    ensures { result ≡ (⟦<DriverPort as Pictured>⟧.state driver.now).rest.mode_limit mode.now }
{
    driver.driver.mode_limit(mode)
}

/// Enables a driver.
///
/// # Errors
///
/// As `enable_pdev` of the driver.
pub fn enable(alloc: Global, driver: &mut DriverPort, mode: &Mode) -> Result<(), EnableRefusal>
    requires disabled { (⟦<DriverPort as Pictured>⟧.state driver.old).rest.enabled ≡ false }
    requires mode { IsMode mode.now }
    ensures { Enables mode.now (⟦<DriverPort as Pictured>⟧.state driver.old) (⟦<DriverPort as Pictured>⟧.state driver.new) result }
{
    driver.driver.enable_pdev(alloc, mode)
}

/// Disables a driver.
pub fn disable(driver: &mut DriverPort)
    ensures { Disables (⟦<DriverPort as Pictured>⟧.state driver.old) (⟦<DriverPort as Pictured>⟧.state driver.new) }
{
    driver.driver.disable_pdev();
}

/// Which calls a driver hooks.
pub fn hooks(driver: &DriverPort) -> Hooks
    ensures { (hook : Hook) → has_hook result hook ≡ (⟦<DriverPort as Pictured>⟧.state driver.now).rest.hooks hook }
{
    driver.driver.hooks()
}

/// What a driver counts.
pub fn stats(driver: &DriverPort) -> Stats
    ensures { result ≡ stats_of (⟦<DriverPort as Pictured>⟧.state driver.now) }
{
    driver.driver.stats()
}

/// Asks a driver to keep a bitmap.
pub fn create_bitmap(alloc: Global, driver: &mut DriverPort, size: Size) -> CreateAnswer
    requires enabled { IsTrue (⟦<DriverPort as Pictured>⟧.state driver.old).rest.enabled }
    requires size { IsTargetSize size }
    ensures { Creates size (⟦<DriverPort as Pictured>⟧.state driver.old) (⟦<DriverPort as Pictured>⟧.state driver.new) result }
{
    driver.driver.create_device_bitmap(alloc, size)
}

/// Has a driver give up a bitmap that it keeps.
pub fn delete_bitmap(driver: &mut DriverPort, id: u32)
    requires { HasBitmap (⟦<DriverPort as Pictured>⟧.state driver.old).shown id }
    ensures { Deletes id (⟦<DriverPort as Pictured>⟧.state driver.old) (⟦<DriverPort as Pictured>⟧.state driver.new) }
{
    driver.driver.delete_device_bitmap(id);
}

/// In how many parts at most a driver writes a rectangle.
pub fn max_cuts(driver: &DriverPort) -> u32
    ensures value { result ≡ (⟦<DriverPort as Pictured>⟧.state driver.now).rest.cuts }
    ensures least { 1 ≤ result }
    ensures most { result ≤ 64 }
{
    driver.driver.max_cuts()
}

/// Calls the hook of a call.
pub fn ask(
    alloc: Global,
    driver: &mut DriverPort,
    call: &DrawCall,
    src: Option<&LentView<'_>>,
    mask: Option<&LentView<'_>>,
    xlate: &XlateObj,
    table: &ColourTable,
    brush: &mut BrushObj,
    clip: &mut ClipObj,
    drawn: &mut DrawnList,
) -> HookAnswer
    requires enabled { IsTrue (⟦<DriverPort as Pictured>⟧.state driver.old).rest.enabled }
    requires can { CanDraw call.now (given_for call.now src mask xlate.now table.now brush.old.face)
        (⟦<DriverPort as Pictured>⟧.state driver.old).shown clip.old.rects }
    requires slots { AreRealised brush.old (surface_of (⟦<DriverPort as Pictured>⟧.state driver.old).shown Screen) }
    requires spare { (⟦<DriverPort as Pictured>⟧.state driver.old).rest.cuts * length clip.old.rects ≤ drawn.old.spare }
    ensures hook { let g = given_for call.now src.entry mask.entry xlate.now table.now brush.old.face in
        let a = asked_of call.now g (⟦<DriverPort as Pictured>⟧.state driver.old).shown clip.old.rects in
        HookContract a (⟦<DriverPort as Pictured>⟧.state driver.old) (⟦<DriverPort as Pictured>⟧.state driver.new) drawn.old drawn.new result }
    ensures rects { clip.new.rects ≡ clip.old.rects }
    ensures bounds { clip.new.bounds ≡ clip.old.bounds }
    ensures face { brush.new.face ≡ brush.old.face }
    ensures slots { AreRealised brush.new (surface_of (⟦<DriverPort as Pictured>⟧.state driver.old).shown Screen) }
{
    let driver = &mut driver.driver;
    match call {
        DrawCall::Blt(call) => {
            driver.bit_blt(alloc, call, src, mask, xlate, table, brush, clip, drawn)
        }
        DrawCall::Copy(call) => driver.copy_bits(alloc, call, src, xlate, table, clip, drawn),
        DrawCall::Paint(call) => driver.paint(alloc, call, table, brush, clip, drawn),
    }
}

/// Draws a call through a driver's port alone: `eng_draw_managed` of it.
pub fn draw_managed(
    alloc: Global,
    driver: &mut DriverPort,
    call: &DrawCall,
    inputs: &Inputs<'_, '_>,
    clip: &ClipObj,
    drawn: &mut DrawnList,
) -> PortAnswer
    requires can { CanDraw call.now (given_of inputs.now) (⟦<DriverPort as Pictured>⟧.state driver.old).shown clip.now.rects }
    requires spare { (⟦<DriverPort as Pictured>⟧.state driver.old).rest.cuts * length clip.now.rects ≤ drawn.old.spare }
    ensures { let a = asked_of call.now (given_of inputs.now) (⟦<DriverPort as Pictured>⟧.state driver.old).shown clip.now.rects in
        Draws a.target a.new (λ p. is_in_some p a.clip) ((⟦<DriverPort as Pictured>⟧.state driver.old).rest.cuts * length a.clip)
        (⟦<DriverPort as Pictured>⟧.state driver.old) (⟦<DriverPort as Pictured>⟧.state driver.new) drawn.old drawn.new result }
{
    eng_draw_managed(alloc, driver, call, inputs, clip, drawn)
}

/// Reads a rectangle of a driver's target.
pub fn read_port(driver: &mut DriverPort, target: Target, rect: Rect, out: &mut [u32]) -> PortAnswer
    requires inside { InTarget (⟦<DriverPort as Pictured>⟧.state driver.old).shown target rect }
    requires count { length out.old ≡ width_of rect * height_of rect }
    ensures keeps { Keeps (⟦<DriverPort as Pictured>⟧.state driver.old) (⟦<DriverPort as Pictured>⟧.state driver.new) result }
    ensures values { let s = surface_of (⟦<DriverPort as Pictured>⟧.state driver.old).shown target in
        IfDone result (ReadsRect rect s.size s.values out.new) }
    ensures fits { let s = surface_of (⟦<DriverPort as Pictured>⟧.state driver.old).shown target in
        IfDone result (All (λ v. v < 2 ^ bits_of s.format) out.new) }
{
    driver.driver.read_rect(target, rect, out)
}

/// Reads what a source that a driver holds has for the points of a frame: `held_part` of it.
///
/// # Errors
///
/// As `held_part`.
pub fn read_held(
    alloc: Global,
    driver: &mut DriverPort,
    call: &DrawCall,
    frame: &Rect,
    room: &mut [u32],
) -> Result<Option<PartCopy>, PortAnswer>
    requires coordinates { HasCoordinates call.now }
    requires held { IfSome (held_of call.now) (IsLive (⟦<DriverPort as Pictured>⟧.state driver.old).shown) }
    requires frame { LiesOnTarget frame.now }
    requires points { HasPoints frame.now }
    requires room { width_of frame.now ≤ length room.old }
    ensures keeps { Keeps (⟦<DriverPort as Pictured>⟧.state driver.old) (⟦<DriverPort as Pictured>⟧.state driver.new) (ended result) }
    ensures ok { IfOk result (HeldFor (held_of call.now) call.now (⟦<DriverPort as Pictured>⟧.state driver.old).shown frame.now) }
    ensures err { IfErr result (λ answer. ¬ (answer ≡ Done)) }
{
    held_part(alloc, driver, call, frame, room)
}
