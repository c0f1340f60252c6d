//! The calls.

ghost use Rattle.std.specs.Prelude.{◌≡◌, ◌*◌, ◌≤◌, [], length, IfOk};
ghost use Rattle.geom_base.specs.declared.target.Target.TheVariants.{Screen};
ghost use Rattle.copy_port.specs.Given.{CanDraw, IsPoint};
ghost use Rattle.copy_port.specs.State.{surface_of};
ghost use Rattle.ddi_driver.specs.Hook.{given_for};
ghost use Rattle.ddi_driver.specs.Slots.{AreRealised};
ghost use Rattle.linear_tests.specs.Stage.{IsStage};

use crate::props::{BEFORE, MASK, Props, SIZE, SOURCE, WHOLE, brush};
use brush_obj::{BltCall, BrushObj, CopyCall, DrawCall, PaintCall};
use clip_obj::ClipObj;
use copy_port::Pictured;
use ddi_driver::{DriverPort, HookAnswer, ask, max_cuts};
use geom_base::{DrawnList, Point, Target};
use hook_route::{Outcome, route};
use pix_format::Format;
use region::Region;
use rop_mix::{Mix, Rop4};
use std::alloc::{AllocError, Global};
use surf_obj::{Layout, LentView};

const ZERO: Point = Point { x: 0, y: 0 };

/// From where a source is taken that comes a point right and one down.
const FROM: Point = Point { x: -1, y: -1 };

/// The source where the mask is set, and else the old value.
const MASKED: u16 = 0xaacc;

/// The calls, each over the whole screen.
#[derive(Clone, Copy, Debug, PartialEq, Eq)]
pub enum Kind {
    /// A copy of what the screen is to show before another call.
    Before,
    /// A paint in white.
    Paint,
    /// A paint of hatch or old value but not both.
    Hatch,
    /// A raster operation: a source that is lent under a mask.
    Blt,
    /// A copy of a source that is lent, a point right and one down, so that some points get none.
    Copy,
    /// A copy of the screen itself, a point right and one down.
    Shift,
}

/// What becomes of a call: its hook is asked, whether the driver hooks it or not; or it is routed.
#[derive(Clone, Copy, Debug, PartialEq, Eq)]
pub enum Way {
    Ask,
    Route,
}

/// The answer of a hook, or the outcome of a routed call.
#[derive(Clone, Copy, Debug, PartialEq, Eq)]
pub enum Answer {
    Asked(HookAnswer),
    Routed(Outcome),
}

/// What a call left: its answer, and the rectangles that were pushed.
#[derive(Drop)]
pub struct Drawing {
    pub answer: Answer,
    pub drawn: DrawnList,
}

/// Draws a call on the screen, in a region, or everywhere where there is none.
///
/// # Errors
///
/// `AllocError` for want of memory for what the call is handed; then nothing was drawn.
pub fn draw(
    alloc: Global,
    driver: &mut DriverPort,
    way: Way,
    kind: Kind,
    region: Option<&Region>,
) -> Result<Drawing, AllocError>
    requires stage { IsStage (⟦<DriverPort as Pictured>⟧.state driver.old) }
    ensures stage { IsStage (⟦<DriverPort as Pictured>⟧.state driver.new) }
{
    match kind {
        Kind::Before => copy(alloc, driver, way, &BEFORE, ZERO, region),
        Kind::Paint => paint(alloc, driver, way, 13, false, region),
        Kind::Hatch => paint(alloc, driver, way, 7, true, region),
        Kind::Blt => blt(alloc, driver, way, region),
        Kind::Copy => copy(alloc, driver, way, &SOURCE, FROM, region),
        Kind::Shift => shift(alloc, driver, way, region),
    }
}

/// A list with room for all parts of each rectangle of a clip.
fn room_for(alloc: Global, cuts: u32, clip: &ClipObj) -> Result<DrawnList, AllocError>
    ensures spare { IfOk result (λ d. cuts * length clip.now.rects ≤ d.spare) }
    ensures empty { IfOk result (λ d. d.rects ≡ []) }
{
    let mut drawn = DrawnList::new(alloc);
    match clip.count().checked_mul(cuts as usize) {
        Some(entries) => drawn.reserve(entries)?,
        None => return Err(AllocError),
    }
    Ok(drawn)
}

/// Hands a call over.
fn hand_over(
    alloc: Global,
    driver: &mut DriverPort,
    way: Way,
    call: &DrawCall,
    src: Option<&LentView<'_>>,
    mask: Option<&LentView<'_>>,
    props: &Props,
    brush: &mut BrushObj,
    clip: &mut ClipObj,
) -> Result<Drawing, AllocError>
    requires stage { IsStage (⟦<DriverPort as Pictured>⟧.state driver.old) }
    requires can { CanDraw call.now (given_for call.now src mask props.now.xlate props.now.table brush.old.face)
        (⟦<DriverPort as Pictured>⟧.state driver.old).shown clip.old.rects }
    requires slots { AreRealised brush.old (surface_of (⟦<DriverPort as Pictured>⟧.state driver.old).shown Screen) }
    ensures stage { IsStage (⟦<DriverPort as Pictured>⟧.state driver.new) }
{
    let mut drawn = room_for(alloc, max_cuts(driver), clip)?;
    let answer = answered(
        alloc, driver, way, call, src, mask, props, brush, clip, &mut drawn,
    );
    Ok(Drawing { answer, drawn })
}

/// Asks the hook of a call, or routes it, with an empty list in which there is room.
fn answered(
    alloc: Global,
    driver: &mut DriverPort,
    way: Way,
    call: &DrawCall,
    src: Option<&LentView<'_>>,
    mask: Option<&LentView<'_>>,
    props: &Props,
    brush: &mut BrushObj,
    clip: &mut ClipObj,
    drawn: &mut DrawnList,
) -> Answer
    requires stage { IsStage (⟦<DriverPort as Pictured>⟧.state driver.old) }
    requires can { CanDraw call.now (given_for call.now src mask props.now.xlate props.now.table brush.old.face)
        (⟦<DriverPort as Pictured>⟧.state driver.old).shown clip.old.rects }
    requires slots { AreRealised brush.old (surface_of (⟦<DriverPort as Pictured>⟧.state driver.old).shown Screen) }
    requires spare { (⟦<DriverPort as Pictured>⟧.state driver.old).rest.cuts * length clip.old.rects ≤ drawn.old.spare }
    requires empty { drawn.old.rects ≡ [] }
    ensures stage { IsStage (⟦<DriverPort as Pictured>⟧.state driver.new) }
{
    let (xlate, table) = (&props.xlate, &props.table);
    match way {
        Way::Ask => Answer::Asked(ask(
            alloc, driver, call, src, mask, xlate, table, brush, clip, drawn,
        )),
        Way::Route => Answer::Routed(route(
            alloc, driver, call, src, mask, xlate, table, brush, clip, drawn,
        )),
    }
}

/// A paint with the hatch or in white, in the mix of a number.
fn paint(
    alloc: Global,
    driver: &mut DriverPort,
    way: Way,
    mix: u8,
    hatched: bool,
    region: Option<&Region>,
) -> Result<Drawing, AllocError>
    requires stage { IsStage (⟦<DriverPort as Pictured>⟧.state driver.old) }
    ensures stage { IsStage (⟦<DriverPort as Pictured>⟧.state driver.new) }
{
    let props = Props::new(alloc)?;
    let mut brush = brush(alloc, hatched);
    let mut clip = ClipObj::build(alloc, region, WHOLE)?;
    let mix = match Mix::of(mix) {
        Some(mix) => mix,
        None => return Err(AllocError),
    };
    let call = DrawCall::Paint(PaintCall {
        target: Target::Screen,
        rect: WHOLE,
        origin: ZERO,
        mix,
    });
    hand_over(
        alloc, driver, way, &call, None, None, &props, &mut brush, &mut clip,
    )
}

/// A copy of a source that is lent, from a point of it.
fn copy(
    alloc: Global,
    driver: &mut DriverPort,
    way: Way,
    source: &[u8; 24],
    src: Point,
    region: Option<&Region>,
) -> Result<Drawing, AllocError>
    requires point { IsPoint src }
    requires stage { IsStage (⟦<DriverPort as Pictured>⟧.state driver.old) }
    ensures stage { IsStage (⟦<DriverPort as Pictured>⟧.state driver.new) }
{
    let props = Props::new(alloc)?;
    let mut brush = brush(alloc, false);
    let mut clip = ClipObj::build(alloc, region, WHOLE)?;
    let source = LentView::on(source, Layout::new(SIZE, Format::B8, 6, false));
    let call = DrawCall::Copy(CopyCall {
        target: Target::Screen,
        rect: WHOLE,
        held: None,
        src,
    });
    hand_over(
        alloc,
        driver,
        way,
        &call,
        Some(&source),
        None,
        &props,
        &mut brush,
        &mut clip,
    )
}

/// A copy of the screen itself.
fn shift(
    alloc: Global,
    driver: &mut DriverPort,
    way: Way,
    region: Option<&Region>,
) -> Result<Drawing, AllocError>
    requires stage { IsStage (⟦<DriverPort as Pictured>⟧.state driver.old) }
    ensures stage { IsStage (⟦<DriverPort as Pictured>⟧.state driver.new) }
{
    let props = Props::new(alloc)?;
    let mut brush = brush(alloc, false);
    let mut clip = ClipObj::build(alloc, region, WHOLE)?;
    let call = DrawCall::Copy(CopyCall {
        target: Target::Screen,
        rect: WHOLE,
        held: Some(Target::Screen),
        src: FROM,
    });
    hand_over(
        alloc, driver, way, &call, None, None, &props, &mut brush, &mut clip,
    )
}

/// A raster operation on the source that is lent, under the mask.
fn blt(
    alloc: Global,
    driver: &mut DriverPort,
    way: Way,
    region: Option<&Region>,
) -> Result<Drawing, AllocError>
    requires stage { IsStage (⟦<DriverPort as Pictured>⟧.state driver.old) }
    ensures stage { IsStage (⟦<DriverPort as Pictured>⟧.state driver.new) }
{
    let props = Props::new(alloc)?;
    let mut brush = brush(alloc, false);
    let mut clip = ClipObj::build(alloc, region, WHOLE)?;
    let source = LentView::on(&SOURCE, Layout::new(SIZE, Format::B8, 6, false));
    let mask = LentView::on(&MASK, Layout::new(SIZE, Format::B1, 1, false));
    let call = DrawCall::Blt(BltCall {
        target: Target::Screen,
        rect: WHOLE,
        held: None,
        src: ZERO,
        mask: ZERO,
        origin: ZERO,
        rop: Rop4::of(MASKED),
    });
    hand_over(
        alloc,
        driver,
        way,
        &call,
        Some(&source),
        Some(&mask),
        &props,
        &mut brush,
        &mut clip,
    )
}
