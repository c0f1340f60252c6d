//! Drawings on bitmaps of the desk, which the engine draws.

ghost use Rattle.std.specs.Prelude.{◌≡◌, ◌<◌, [], length, map, IfOk, OnErr, OnOk};
ghost use Rattle.std.specs.Option.{option_to_list};
ghost use Rattle.copy_port.specs.Port.{Keeps};
ghost use Rattle.script_orders.specs.Live.{CanDraw};
ghost use Rattle.script_orders.specs.Places.{HasPlaces};
ghost use Rattle.script_orders.specs.declared.desk_command.Spot.TheVariants as spots;
ghost use Rattle.script_orders.specs.declared.script_command.ScriptCommand.TheVariants as asked;
ghost use Rattle.surf_obj.specs.Surface.{changed};
ghost use Rattle.desk_shelf.specs.Shelf.{OthersStay, state_at};
ghost use Rattle.desk_span.specs.Carries.{Carries};
ghost use Rattle.desk_span.specs.Desk.{State, area_of, new_of};
ghost use Rattle.desk_span.specs.InnerBeside.{DrawsOn, IsAlone, IsAmong, WasMade, undrawn};
ghost use Rattle.desk_span.specs.InnerRouted.{kept_with};
ghost use Rattle.desk_span.specs.InnerSight.{answer_of};
ghost use Rattle.desk_span.specs.Kept.{Serves, live_in, shown_by_driver};
ghost use Rattle.desk_span.specs.Meeting.{Reaches};

use crate::canvas::Canvas;
use crate::draw::draw_beside;
use crate::others::Others;
use crate::place::{ORIGIN, is_seen_from_origin};
use crate::reports::Report;
use crate::screen::Screen;
use crate::sight::see;
use brush_obj::BrushObj;
use copy_port::Pictured;
use ddi_driver::DriverPort;
use geom_base::DrawnList;
use hook_route::Cause;
use script_orders::{DeskCommand, Named};
use std::alloc::Global;

/// Draws a command on the bitmap of a number, which is out of its place meanwhile. Of the screen the part that is its source is read before the
/// first pixel. A report says that nothing was drawn, and why.
pub fn draw_on_bitmap(
    alloc: Global,
    shelf: &mut Vec<DriverPort>,
    screen: &Screen,
    bitmaps: &mut [Option<Canvas>],
    brushes: &[BrushObj],
    number: u32,
    command: &DeskCommand,
) -> Option<Report>
    requires place { screen.now.place < length shelf.old.items }
    requires serves { Serves screen.now (state_at (map (λ d. ⟦<DriverPort as Pictured>⟧.state d) shelf.old.items) screen.now.place) }
    requires target { command.now.target ≡ spots.Bitmap number }
    requires can { CanDraw (live_in (kept_with screen.now bitmaps.old brushes.now)) command.now }
    ensures carries { Carries (kept_with screen.now bitmaps.old brushes.now) (kept_with screen.now bitmaps.new brushes.now)
        (asked.Draw command.now) (option_to_list result)
        (state_at (map (λ d. ⟦<DriverPort as Pictured>⟧.state d) shelf.old.items) screen.now.place)
        (state_at (map (λ d. ⟦<DriverPort as Pictured>⟧.state d) shelf.new.items) screen.now.place) }
    ensures others { OthersStay screen.now.place shelf.old.items shelf.new.items }
{
    let place = number as usize;
    let mut target = match bitmaps[place].take() {
        Some(target) => target,
        None => unreachable!(),
    };
    let drew = draw_there(alloc, shelf, screen, bitmaps, brushes, &mut target, command);
    bitmaps[place] = Some(target);
    match drew {
        Ok(()) => None,
        Err(cause) => Some(undrawn(alloc, number, cause)),
    }
}

/// The report that nothing was drawn on a bitmap, and why.
fn undrawn(alloc: Global, number: u32, cause: Cause) -> Report
    ensures { result ≡ undrawn number cause }
{
    Report::of(Named::Bitmap(number), cause, DrawnList::new(alloc))
}

/// Draws a command on a bitmap beside the others.
///
/// # Errors
///
/// Why nothing was drawn, where the command reaches a point of the bitmap in its clip.
fn draw_there(
    alloc: Global,
    shelf: &mut Vec<DriverPort>,
    screen: &Screen,
    bitmaps: &[Option<Canvas>],
    brushes: &[BrushObj],
    target: &mut Canvas,
    command: &DeskCommand,
) -> Result<(), Cause>
    requires place { screen.now.place < length shelf.old.items }
    requires serves { Serves screen.now (state_at (map (λ d. ⟦<DriverPort as Pictured>⟧.state d) shelf.old.items) screen.now.place) }
    requires can { DrawsOn target.old command.now }
    requires made { WasMade (length brushes.now) command.now.brush }
    requires places { HasPlaces command.now.source command.now.call }
    ensures ok { let screen_shown = shown_by_driver (state_at (map (λ d. ⟦<DriverPort as Pictured>⟧.state d) shelf.old.items) screen.now.place) in
        OnOk result ((s : State) → IsAlone s screen.now.at screen_shown → IsAmong s command.now.target target.old bitmaps.now brushes.now →
        target.new ≡ changed (new_of s command.now target.old) (area_of command.now) target.old) }
    ensures err { OnErr result (target.new ≡ target.old) }
    ensures meets { OnErr result (Reaches (area_of command.now) target.old.size) }
    ensures keeps { Keeps (state_at (map (λ d. ⟦<DriverPort as Pictured>⟧.state d) shelf.old.items) screen.now.place)
        (state_at (map (λ d. ⟦<DriverPort as Pictured>⟧.state d) shelf.new.items) screen.now.place) (answer_of result) }
    ensures others { OthersStay screen.now.place shelf.old.items shelf.new.items }
{
    is_seen_from_origin(&command.call);
    let sight = see(alloc, shelf, screen, target.size(), command)?;
    let others = Others {
        sight: &sight,
        bitmaps,
        brushes,
    };
    match draw_beside(alloc, target, ORIGIN, others, command) {
        Ok(()) => Ok(()),
        Err(_) => Err(Cause::Memory),
    }
}
