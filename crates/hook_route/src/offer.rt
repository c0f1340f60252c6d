//! The offer of a call to its hook.

ghost use Rattle.std.specs.Prelude.{◌≡◌, ◌*◌, ◌≤◌, [], length, IsTrue, IfNone, IfSome};
ghost use Rattle.geom_base.specs.declared.target.Target.TheVariants.{Screen};
ghost use Rattle.copy_port.specs.Given.{CanDraw, asked_of};
ghost use Rattle.copy_port.specs.State.{surface_of};
ghost use Rattle.ddi_driver.specs.Hook.{given_for};
ghost use Rattle.ddi_driver.specs.Slots.{AreRealised};
ghost use Rattle.hook_route.specs.Routes.{IsUndrawn, Routed};

use crate::outcome::{Cause, Outcome};
use brush_obj::{BrushObj, DrawCall};
use clip_obj::ClipObj;
use copy_port::{Pictured, hook_of};
use ddi_driver::{DriverPort, HookAnswer, ask, hooks};
use geom_base::DrawnList;
use pix_format::{ColourTable, XlateObj};
use std::alloc::Global;
use surf_obj::LentView;

/// Offers a call once to a driver that hooks it. None: the driver doesn't hook it, or declined, and nothing was drawn.
pub fn offer(
    alloc: Global,
    driver: &mut DriverPort,
    call: &DrawCall,
    src: Option<&LentView<'_>>,
    mask: Option<&LentView<'_>>,
    xlate: &XlateObj,
    table: &ColourTable,
    brush: &mut BrushObj,
    clip: &mut ClipObj,
    drawn: &mut DrawnList,
) -> Option<Outcome>
    requires enabled { IsTrue (⟦<DriverPort as Pictured>⟧.state driver.old).rest.enabled }
    requires can { CanDraw call.now (given_for call.now src mask xlate.now table.now brush.old.face)
        (⟦<DriverPort as Pictured>⟧.state driver.old).shown clip.old.rects }
    requires slots { AreRealised brush.old (surface_of (⟦<DriverPort as Pictured>⟧.state driver.old).shown Screen) }
    requires spare { (⟦<DriverPort as Pictured>⟧.state driver.old).rest.cuts * length clip.old.rects ≤ drawn.old.spare }
    requires empty { drawn.old.rects ≡ [] }
    ensures none { let g = given_for call.now src.entry mask.entry xlate.now table.now brush.old.face in
        let a = asked_of call.now g (⟦<DriverPort as Pictured>⟧.state driver.old).shown clip.old.rects in
        IfNone result (IsUndrawn a (⟦<DriverPort as Pictured>⟧.state driver.old) (⟦<DriverPort as Pictured>⟧.state driver.new) drawn.old drawn.new) }
    ensures some { let g = given_for call.now src.entry mask.entry xlate.now table.now brush.old.face in
        let a = asked_of call.now g (⟦<DriverPort as Pictured>⟧.state driver.old).shown clip.old.rects in
        IfSome result (Routed a (⟦<DriverPort as Pictured>⟧.state driver.old) (⟦<DriverPort as Pictured>⟧.state driver.new) drawn.old drawn.new) }
    ensures rects { clip.new.rects ≡ clip.old.rects }
    ensures bounds { clip.new.bounds ≡ clip.old.bounds }
    ensures face { brush.new.face ≡ brush.old.face }
    ensures slots { AreRealised brush.new (surface_of (⟦<DriverPort as Pictured>⟧.state driver.old).shown Screen) }
{
    if !hooks(driver).has(hook_of(call)) {
        return None;
    }
    match ask(
        alloc, driver, call, src, mask, xlate, table, brush, clip, drawn,
    ) {
        HookAnswer::Done => Some(Outcome::All),
        HookAnswer::Declined => None,
        HookAnswer::Fault => Some(Outcome::Part(Cause::Fault)),
        HookAnswer::NoMemory => Some(Outcome::Part(Cause::Memory)),
    }
}
