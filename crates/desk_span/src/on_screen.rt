//! Drawings on the screen of the desk, which its driver draws, or the engine through the driver's port.

ghost use Rattle.std.specs.Prelude.{◌≡◌, ◌<◌, ◌^◌, [], IfOk, IsTrue, OnErr, length, map};
ghost use Rattle.std.specs.List.{All};
ghost use Rattle.geom_base.specs.declared.target.Target.TheVariants as target;
ghost use Rattle.geom_base.specs.Points.{HasPoints};
ghost use Rattle.copy_port.specs.Given.{CanDraw, asked_of};
ghost use Rattle.copy_port.specs.State.{surface_of};
ghost use Rattle.ddi_driver.specs.Slots.{AreRealised};
ghost use Rattle.script_orders.specs.Live.{CanDraw as CanBeDrawn};
ghost use Rattle.script_orders.specs.declared.desk_command.Spot.TheVariants as spots;
ghost use Rattle.desk_shelf.specs.Shelf.{OthersStay, state_at};
ghost use Rattle.desk_span.specs.InnerBeside.{WasMade, faces_of};
ghost use Rattle.desk_span.specs.InnerPieces.{IsPiece};
ghost use Rattle.desk_span.specs.InnerRouted.{DrewOn, IsFor, IsRouted, face_among, handed_with, kept_with, routed_report, wanting_there};
ghost use Rattle.desk_span.specs.Kept.{Serves, live_in};

use crate::canvas::Canvas;
use crate::draw::region_of;
use crate::lent::{lent_bitmap, mask_bitmap};
use crate::others::plain_colour;
use crate::pane::{Pane, view_of};
use crate::reports::Report;
use crate::screen::{Piece, Screen};
use brush_obj::{BrushObj, DrawCall, calls_move};
use clip_obj::ClipObj;
use copy_port::Pictured;
use ddi_driver::DriverPort;
use desk_shelf::route_at;
use geom_base::DrawnList;
use hook_route::{Cause, Outcome};
use pix_format::{ColourTable, XlateObj};
use script_orders::{BrushUse, DeskCommand, Named};
use std::alloc::{AllocError, Global};

/// What a screen's driver is handed beside a brush.
#[derive(Clone, Copy)]
pub struct Handed<'a> {
    place: usize,
    call: &'a DrawCall,
    source: Option<&'a Pane>,
    mask: Option<&'a Pane>,
    xlate: &'a XlateObj,
    table: &'a ColourTable,
}

impl Handed<'_> {
    /// Hands it over with a brush, in a clip. The report says what was drawn where not all was.
    fn draw(
        &self,
        alloc: Global,
        shelf: &mut Vec<DriverPort>,
        brush: &mut BrushObj,
        clip: &mut ClipObj,
    ) -> Option<Report>
        requires place { self.now.place < length shelf.old.items }
        requires enabled { IsTrue (state_at (map (λ d. ⟦<DriverPort as Pictured>⟧.state d) shelf.old.items) self.now.place).rest.enabled }
        requires can { CanDraw self.now.call.now (handed_with self.now brush.old.face)
            (state_at (map (λ d. ⟦<DriverPort as Pictured>⟧.state d) shelf.old.items) self.now.place).shown clip.old.rects }
        requires slots { AreRealised brush.old (surface_of (state_at (map (λ d. ⟦<DriverPort as Pictured>⟧.state d) shelf.old.items) self.now.place).shown target.Screen) }
        ensures routed { let before = state_at (map (λ d. ⟦<DriverPort as Pictured>⟧.state d) shelf.old.items) self.now.place in
            IsRouted (asked_of self.now.call.now (handed_with self.now brush.old.face) before.shown clip.old.rects) before
            (state_at (map (λ d. ⟦<DriverPort as Pictured>⟧.state d) shelf.new.items) self.now.place) result }
        ensures face { brush.new.face ≡ brush.old.face }
        ensures slots { AreRealised brush.new (surface_of (state_at (map (λ d. ⟦<DriverPort as Pictured>⟧.state d) shelf.old.items) self.now.place).shown target.Screen) }
        ensures others { OthersStay self.now.place shelf.old.items shelf.new.items }
    {
        let source = view_of(self.source);
        let mask = view_of(self.mask);
        let mut drawn = DrawnList::new(alloc);
        let outcome = route_at(
            alloc,
            shelf,
            self.place,
            self.call,
            source.as_ref(),
            mask.as_ref(),
            self.xlate,
            self.table,
            brush,
            clip,
            &mut drawn,
        );
        reported(outcome, drawn)
    }
}

/// Draws a command on the screen of the desk, beside its bitmaps, with the brushes that the screen's driver may keep realised forms in. A report
/// names what was drawn where not all was.
pub fn draw_on_screen(
    alloc: Global,
    shelf: &mut Vec<DriverPort>,
    screen: &Screen,
    bitmaps: &[Option<Canvas>],
    brushes: &mut [BrushObj],
    command: &DeskCommand,
) -> Option<Report>
    requires place { screen.now.place < length shelf.old.items }
    requires serves { Serves screen.now (state_at (map (λ d. ⟦<DriverPort as Pictured>⟧.state d) shelf.old.items) screen.now.place) }
    requires target { command.now.target ≡ spots.Desk }
    requires can { CanBeDrawn (live_in (kept_with screen.now bitmaps.now brushes.old)) command.now }
    requires realised { All (IsFor screen.now) brushes.old }
    ensures drew { DrewOn (kept_with screen.now bitmaps.now brushes.old) command.now result
        (state_at (map (λ d. ⟦<DriverPort as Pictured>⟧.state d) shelf.old.items) screen.now.place)
        (state_at (map (λ d. ⟦<DriverPort as Pictured>⟧.state d) shelf.new.items) screen.now.place) }
    ensures others { OthersStay screen.now.place shelf.old.items shelf.new.items }
    ensures faces { faces_of brushes.new ≡ faces_of brushes.old }
    ensures realised { All (IsFor screen.now) brushes.new }
{
    match screen.piece(command) {
        None => None,
        Some(piece) => {
            match draw_piece(alloc, shelf, screen, bitmaps, brushes, &piece, command) {
                Ok(report) => report,
                Err(_) => Some(memory_wanting(alloc)),
            }
        }
    }
}

/// The report that memory was wanting before anything was drawn.
fn memory_wanting(alloc: Global) -> Report
    ensures { result ≡ wanting_there }
{
    Report::of(Named::Screen(0), Cause::Memory, DrawnList::new(alloc))
}

/// Draws what a command asks of the screen.
///
/// # Errors
///
/// `AllocError` for want of memory for what the driver is handed; nothing is drawn then.
fn draw_piece(
    alloc: Global,
    shelf: &mut Vec<DriverPort>,
    screen: &Screen,
    bitmaps: &[Option<Canvas>],
    brushes: &mut [BrushObj],
    piece: &Piece,
    command: &DeskCommand,
) -> Result<Option<Report>, AllocError>
    requires place { screen.now.place < length shelf.old.items }
    requires serves { Serves screen.now (state_at (map (λ d. ⟦<DriverPort as Pictured>⟧.state d) shelf.old.items) screen.now.place) }
    requires target { command.now.target ≡ spots.Desk }
    requires can { CanBeDrawn (live_in (kept_with screen.now bitmaps.now brushes.old)) command.now }
    requires realised { All (IsFor screen.now) brushes.old }
    requires piece { IsPiece screen.now command.now piece.now }
    ensures ok { IfOk result (λ report. DrewOn (kept_with screen.now bitmaps.now brushes.old) command.now report
        (state_at (map (λ d. ⟦<DriverPort as Pictured>⟧.state d) shelf.old.items) screen.now.place)
        (state_at (map (λ d. ⟦<DriverPort as Pictured>⟧.state d) shelf.new.items) screen.now.place)) }
    ensures err { OnErr result (shelf.new ≡ shelf.old) }
    ensures others { OthersStay screen.now.place shelf.old.items shelf.new.items }
    ensures faces { faces_of brushes.new ≡ faces_of brushes.old }
    ensures realised { All (IsFor screen.now) brushes.new }
{
    calls_move();
    let region = region_of(&command.clip);
    let mut clip = ClipObj::build_at(alloc, region, piece.asked, screen.at)?;
    let source = lent_bitmap(bitmaps, command.target, &command.source);
    let xlate = screen.translation(alloc, &piece.call, source, command.back)?;
    let handed = Handed {
        place: screen.place,
        call: &piece.call,
        source,
        mask: mask_bitmap(bitmaps, command.mask),
        xlate: screen.or_same(&xlate),
        table: &screen.table,
    };
    Ok(hand_over(alloc, shelf, &handed, command.brush, brushes, &mut clip))
}

/// Hands a call over with the brush that a drawing uses.
fn hand_over(
    alloc: Global,
    shelf: &mut Vec<DriverPort>,
    handed: &Handed<'_>,
    with: BrushUse,
    brushes: &mut [BrushObj],
    clip: &mut ClipObj,
) -> Option<Report>
    requires place { handed.now.place < length shelf.old.items }
    requires enabled { IsTrue (state_at (map (λ d. ⟦<DriverPort as Pictured>⟧.state d) shelf.old.items) handed.now.place).rest.enabled }
    requires made { WasMade (length brushes.old) with }
    requires can { CanDraw handed.now.call.now (handed_with handed.now (face_among (faces_of brushes.old) with))
        (state_at (map (λ d. ⟦<DriverPort as Pictured>⟧.state d) shelf.old.items) handed.now.place).shown clip.old.rects }
    requires realised { All (λ b. AreRealised b (surface_of (state_at (map (λ d. ⟦<DriverPort as Pictured>⟧.state d) shelf.old.items) handed.now.place).shown target.Screen)) brushes.old }
    ensures routed { let before = state_at (map (λ d. ⟦<DriverPort as Pictured>⟧.state d) shelf.old.items) handed.now.place in
        IsRouted (asked_of handed.now.call.now (handed_with handed.now (face_among (faces_of brushes.old) with)) before.shown clip.old.rects) before
        (state_at (map (λ d. ⟦<DriverPort as Pictured>⟧.state d) shelf.new.items) handed.now.place) result }
    ensures faces { faces_of brushes.new ≡ faces_of brushes.old }
    ensures realised { All (λ b. AreRealised b (surface_of (state_at (map (λ d. ⟦<DriverPort as Pictured>⟧.state d) shelf.old.items) handed.now.place).shown target.Screen)) brushes.new }
    ensures others { OthersStay handed.now.place shelf.old.items shelf.new.items }
{
    match with {
        BrushUse::Made(number) => handed.draw(alloc, shelf, &mut brushes[number as usize], clip),
        with => {
            let mut plain = BrushObj::solid(alloc, plain_colour(with));
            handed.draw(alloc, shelf, &mut plain, clip)
        }
    }
}

/// The report of a drawing on the screen of which so much was drawn; none where all was.
fn reported(outcome: Outcome, drawn: DrawnList) -> Option<Report>
    ensures told { result ≡ routed_report outcome drawn.rects }
    ensures points { All HasPoints drawn.rects }
    ensures few { length drawn.rects < 2 ^ 64 }
{
    have_points(&drawn);
    match outcome {
        Outcome::All => None,
        Outcome::Part(cause) => Some(Report::of(Named::Screen(0), cause, drawn)),
    }
}

/// Each rectangle of a drawn list has points, and a number of 64 bits counts them.
fn have_points(drawn: &DrawnList)
    ensures points { All HasPoints drawn.now.rects }
    ensures few { length drawn.now.rects < 2 ^ 64 }
{
    let _count = drawn.rects().len();
}
