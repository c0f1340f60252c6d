//! What a drawing on a bitmap sees of the screen.

ghost use Rattle.std.specs.Prelude.{◌≡◌, ◌<◌, None, Some, length, map, IfErr, IfOk};
ghost use Rattle.std.specs.Option.{option_copied};
ghost use Rattle.brush_obj.specs.Calls.{PointMovesBack, src_of};
ghost use Rattle.copy_port.specs.Port.{Keeps};
ghost use Rattle.eng_calls.specs.Copies.{IsPlace};
ghost use Rattle.geom_base.specs.Points.{moved};
ghost use Rattle.script_orders.specs.Asked.{IsSurfaceSize};
ghost use Rattle.script_orders.specs.Places.{HasPlaces, IsPlaced};
ghost use Rattle.script_orders.specs.Rows.{zero_point};
ghost use Rattle.script_orders.specs.declared.desk_command.Feed.TheVariants as feeds;
ghost use Rattle.surf_obj.specs.Object.{object_format};
ghost use Rattle.desk_shelf.specs.Shelf.{OthersStay, state_at};
ghost use Rattle.desk_span.specs.Desk.{State, area_of};
ghost use Rattle.desk_span.specs.InnerBeside.{IsAlone, stand_of};
ghost use Rattle.desk_span.specs.InnerPane.{shown_in};
ghost use Rattle.desk_span.specs.InnerSight.{Sees, answer_of, cause_of};
ghost use Rattle.desk_span.specs.Kept.{Serves, shown_by_driver};
ghost use Rattle.desk_span.specs.Meeting.{Reaches};

use crate::draw::{meets, region_of};
use crate::pane::Pane;
use crate::place::ORIGIN;
use crate::screen::Screen;
use brush_obj::shifted_back;
use clip_obj::origin_from;
use copy_port::Pictured;
use ddi_driver::DriverPort;
use eng_calls::PartCopy;
use geom_base::{Point, PortAnswer, Size};
use hook_route::Cause;
use pix_format::ColourTable;
use script_orders::{DeskCommand, Feed};
use std::alloc::{AllocError, Global};

/// The part of the screen that a drawing reads, if it reads any, and the point of the desk at which that stands.
#[derive(Drop)]
pub struct Sight {
    pub part: Option<Pane>,
    pub at: Point,
}

impl Sight {
    /// Nothing of the screen.
    fn nothing() -> Sight
        ensures { result ≡ record { part = None; at = zero_point } }
    {
        Sight {
            part: None,
            at: ORIGIN,
        }
    }

    /// The part, to be read.
    pub fn part(&self) -> Option<&Pane>
        ensures { option_copied result ≡ self.now.part }
    {
        match &self.part {
            Some(part) => Some(part),
            None => None,
        }
    }
}

/// Why the screen was not read.
fn cause_of(answer: PortAnswer) -> Cause
    ensures { result ≡ cause_of answer }
{
    match answer {
        PortAnswer::Fault => Cause::Fault,
        _ => Cause::Memory,
    }
}

/// A copy of a part of the screen as that part is seen.
fn part_seen(alloc: Global, screen: &Screen, copy: PartCopy) -> Result<Sight, AllocError>
    requires format { object_format copy.pixels ≡ screen.now.format }
    requires place { IsPlace copy.corner }
    ensures { IfOk result (λ sight. sight ≡ record { part = Some (shown_in copy.pixels screen.now.table); at = moved copy.corner screen.now.at }) }
{
    let table = ColourTable::of(alloc, screen.table.colours())?;
    Ok(Sight {
        at: shifted_back(copy.corner, origin_from(&screen.at)),
        part: Some(Pane::of(copy.pixels, table)),
    })
}

/// What a drawing on a bitmap of a size sees of the screen: the part that it reads for the points that it reaches in its clip.
///
/// # Errors
///
/// Why that part can't be read; then the drawing reaches such a point.
pub fn see(
    alloc: Global,
    shelf: &mut Vec<DriverPort>,
    screen: &Screen,
    size: Size,
    command: &DeskCommand,
) -> Result<Sight, Cause>
    requires place { screen.now.place < length shelf.old.items }
    requires serves { Serves screen.now (state_at (map (λ d. ⟦<DriverPort as Pictured>⟧.state d) shelf.old.items) screen.now.place) }
    requires size { IsSurfaceSize size }
    requires places { HasPlaces command.now.source command.now.call }
    requires source { PointMovesBack (src_of command.now.call) zero_point }
    ensures stands { IfOk result (λ sight. PointMovesBack (src_of command.now.call) (stand_of sight.at command.now.source)) }
    ensures sees { let screen_shown = shown_by_driver (state_at (map (λ d. ⟦<DriverPort as Pictured>⟧.state d) shelf.old.items) screen.now.place) in
        IfOk result (λ sight. (s : State) → IsAlone s screen.now.at screen_shown → Sees s command.now size sight) }
    ensures meets { IfErr result (λ cause. Reaches (area_of command.now) size) }
    ensures keeps { Keeps (state_at (map (λ d. ⟦<DriverPort as Pictured>⟧.state d) shelf.old.items) screen.now.place)
        (state_at (map (λ d. ⟦<DriverPort as Pictured>⟧.state d) shelf.new.items) screen.now.place) (answer_of result) }
    ensures others { OthersStay screen.now.place shelf.old.items shelf.new.items }
{
    match command.source {
        Feed::Desk => see_desk(alloc, shelf, screen, size, command),
        _ => Ok(Sight::nothing()),
    }
}

/// The same for a drawing whose source is the desk.
fn see_desk(
    alloc: Global,
    shelf: &mut Vec<DriverPort>,
    screen: &Screen,
    size: Size,
    command: &DeskCommand,
) -> Result<Sight, Cause>
    requires place { screen.now.place < length shelf.old.items }
    requires serves { Serves screen.now (state_at (map (λ d. ⟦<DriverPort as Pictured>⟧.state d) shelf.old.items) screen.now.place) }
    requires size { IsSurfaceSize size }
    requires desk { command.now.source ≡ feeds.Desk }
    requires places { IsPlaced command.now.call }
    requires source { PointMovesBack (src_of command.now.call) zero_point }
    ensures stands { IfOk result (λ sight. PointMovesBack (src_of command.now.call) sight.at) }
    ensures sees { let screen_shown = shown_by_driver (state_at (map (λ d. ⟦<DriverPort as Pictured>⟧.state d) shelf.old.items) screen.now.place) in
        IfOk result (λ sight. (s : State) → IsAlone s screen.now.at screen_shown → Sees s command.now size sight) }
    ensures meets { IfErr result (λ cause. Reaches (area_of command.now) size) }
    ensures keeps { Keeps (state_at (map (λ d. ⟦<DriverPort as Pictured>⟧.state d) shelf.old.items) screen.now.place)
        (state_at (map (λ d. ⟦<DriverPort as Pictured>⟧.state d) shelf.new.items) screen.now.place) (answer_of result) }
    ensures others { OthersStay screen.now.place shelf.old.items shelf.new.items }
{
    let frame = command.call.rect().cut_to(size);
    if !meets(region_of(&command.clip), &frame) {
        return Ok(Sight::nothing());
    }
    let call = command.call.lent_from(screen.at);
    match screen.part(alloc, shelf, &call, &frame) {
        Ok(Some(copy)) => match part_seen(alloc, screen, copy) {
            Ok(sight) => Ok(sight),
            Err(_) => Err(Cause::Memory),
        },
        Ok(None) => Ok(Sight::nothing()),
        Err(answer) => Err(cause_of(answer)),
    }
}
