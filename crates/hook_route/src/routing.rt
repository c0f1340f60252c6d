//! The route of a call to a driver.

ghost use Rattle.std.specs.Prelude.{◌≡◌, ◌*◌, ◌≤◌, [], IsTrue, length};
ghost use Rattle.geom_base.specs.declared.target.Target.TheVariants.{Screen};
ghost use Rattle.copy_port.specs.Given.{CanDraw, asked_of};
ghost use Rattle.copy_port.specs.State.{surface_of};
ghost use Rattle.eng_calls.specs.Inputs.{given_of};
ghost use Rattle.ddi_driver.specs.Hook.{given_for};
ghost use Rattle.ddi_driver.specs.Slots.{AreRealised};
ghost use Rattle.hook_route.specs.Routes.{Routed};

use crate::offer::offer;
use crate::outcome::{Cause, Outcome};
use brush_obj::{BrushObj, DrawCall};
use clip_obj::ClipObj;
use copy_port::Pictured;
use ddi_driver::{DriverPort, draw_managed, max_cuts};
use eng_calls::Inputs;
use geom_base::DrawnList;
use pix_format::{ColourTable, XlateObj};
use std::alloc::Global;
use surf_obj::LentView;

/// What a call is handed of all that may be.
fn inputs_for<'s, 'a>(
    call: &DrawCall,
    src: Option<&'s LentView<'s>>,
    mask: Option<&'a LentView<'a>>,
    xlate: &'a XlateObj,
    table: &'a ColourTable,
    brush: &'a BrushObj,
) -> Inputs<'s, 'a>
    ensures { given_of result ≡ given_for call.now src.entry mask.entry xlate.now table.now brush.now.face }
{
    match call {
        DrawCall::Blt(_) => Inputs::blt(src, mask, xlate, table, brush),
        DrawCall::Copy(_) => Inputs::copy(src, xlate, table),
        DrawCall::Paint(_) => Inputs::paint(table, brush),
    }
}

/// Makes room for so many entries for each rectangle of a clip, or doesn't for want of memory.
fn reserve(drawn: &mut DrawnList, cuts: u32, clip: &ClipObj) -> bool
    ensures rects { drawn.new.rects ≡ drawn.old.rects }
    ensures kept { drawn.old.spare ≤ drawn.new.spare }
    ensures enough { IsTrue result → cuts * length clip.now.rects ≤ drawn.new.spare }
{
    match clip.count().checked_mul(cuts as usize) {
        Some(entries) => drawn.reserve(entries).is_ok(),
        None => false,
    }
}

/// Draws a call on a driver's target: it is offered to the driver where that hooks it; where it isn't hooked, or is declined, the engine draws it
/// through the driver's port. The drawn list is empty, and gets what was drawn where not all was, or more.
pub fn route(
    alloc: Global,
    driver: &mut DriverPort,
    call: &DrawCall,
    src: Option<&LentView<'_>>,
    mask: Option<&LentView<'_>>,
    xlate: &XlateObj,
    table: &ColourTable,
    brush: &mut BrushObj,
    clip: &mut ClipObj,
    drawn: &mut DrawnList,
) -> Outcome
    requires enabled { IsTrue (⟦<DriverPort as Pictured>⟧.state driver.old).rest.enabled }
    requires can { CanDraw call.now (given_for call.now src mask xlate.now table.now brush.old.face)
        (⟦<DriverPort as Pictured>⟧.state driver.old).shown clip.old.rects }
    requires slots { AreRealised brush.old (surface_of (⟦<DriverPort as Pictured>⟧.state driver.old).shown Screen) }
    requires empty { drawn.old.rects ≡ [] }
    ensures routed { let g = given_for call.now src.entry mask.entry xlate.now table.now brush.old.face in
        let a = asked_of call.now g (⟦<DriverPort as Pictured>⟧.state driver.old).shown clip.old.rects in
        Routed a (⟦<DriverPort as Pictured>⟧.state driver.old) (⟦<DriverPort as Pictured>⟧.state driver.new) drawn.old drawn.new result }
    ensures rects { clip.new.rects ≡ clip.old.rects }
    ensures bounds { clip.new.bounds ≡ clip.old.bounds }
    ensures face { brush.new.face ≡ brush.old.face }
    ensures slots { AreRealised brush.new (surface_of (⟦<DriverPort as Pictured>⟧.state driver.old).shown Screen) }
{
    if !reserve(drawn, max_cuts(driver), clip) {
        return Outcome::Part(Cause::Memory);
    }
    if let Some(outcome) = offer(
        alloc, driver, call, src, mask, xlate, table, brush, clip, drawn,
    ) {
        return outcome;
    }
    let inputs = inputs_for(call, src, mask, xlate, table, brush);
    Outcome::managed(draw_managed(alloc, driver, call, &inputs, clip, drawn))
}
