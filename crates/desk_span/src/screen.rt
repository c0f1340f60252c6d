//! A screen of the desk, and what a drawing asks of it.

ghost use Rattle.std.specs.Prelude.{◌≡◌, ◌<◌, ◌&&◌, ◌↔◌, true, length, map, IsTrue, IfErr, IfNone, IfOk, IfSome, unwrap_or};
ghost use Rattle.std.specs.Option.{option_copied};
ghost use Rattle.geom_base.specs.declared.point.Point.{Point};
ghost use Rattle.geom_base.specs.declared.port_answer.PortAnswer.TheVariants.{Done};
ghost use Rattle.geom_base.specs.Points.{HasPoints, IsIn, LiesIn, whole};
ghost use Rattle.brush_obj.specs.Calls.{held_of, reads_source, rect_of, source_point};
ghost use Rattle.copy_port.specs.Given.{HasCoordinates};
ghost use Rattle.copy_port.specs.Port.{Keeps};
ghost use Rattle.eng_calls.specs.Copies.{HeldFor, LiesOnTarget, ended};
ghost use Rattle.script_orders.specs.Asked.{IsSurfaceSize};
ghost use Rattle.script_orders.specs.Places.{IsPlaced};
ghost use Rattle.script_orders.specs.declared.desk_command.Spot.TheVariants as spots;
ghost use Rattle.desk_shelf.specs.Shelf.{OthersStay, state_at};
ghost use Rattle.desk_span.specs.InnerBeside.{stand_of};
ghost use Rattle.desk_span.specs.InnerPieces.{FindsThere, IsPiece, aimed, piece_on, screen_call};
ghost use Rattle.desk_span.specs.Desk.{translation};
ghost use Rattle.desk_span.specs.InnerDrawing.{translation_for};
ghost use Rattle.desk_span.specs.InnerRouted.{plate};
ghost use Rattle.desk_span.specs.Kept.{Serves, first_screen, shown_by_driver};
ghost use Rattle.desk_span.specs.Meeting.{Reaches};
ghost use Rattle.desk_span.specs.Reading.{IsRead};

use crate::draw::{meets, region_of};
use crate::others::{BLACK, is_own};
use crate::pane::Pane;
use crate::place::ORIGIN;
use brush_obj::{BltCall, CopyCall, DrawCall, PaintCall, shifted_back};
use clip_obj::{origin_from, seen_from};
use copy_port::Pictured;
use ddi_driver::DriverPort;
use desk_shelf::{held_at, read_at};
use eng_calls::PartCopy;
use geom_base::{Point, PortAnswer, Rect, Size, Target};
use pix_format::{ColourTable, Format, Rgb, XlateObj};
use script_orders::{DeskCommand, Feed};
use std::alloc::{AllocError, Global};
use std::marker::Model;

/// A screen of the desk, which a driver of the shelf shows.
#[derive(Drop)]
pub struct Screen {
    /// Where its driver stands on the shelf.
    pub place: usize,
    /// The point of the desk that its first point is.
    pub at: Point,
    pub size: Size,
    pub format: Format,
    /// The colours that its values stand for.
    pub table: ColourTable,
    /// The translation from it to itself.
    pub same: XlateObj,
}

impl Model for Screen {
    ghost use Rattle.std.specs.Prelude.{◌≡◌, ◌&&◌, ◌↔◌, IsTrue, length};
    ghost use Rattle.pix_format.specs.Value.{colours_of};
    ghost use Rattle.script_orders.specs.Asked.{IsSurfaceSize};
    ghost use Rattle.script_orders.specs.Places.{MayStandAt};
    ghost use Rattle.desk_span.specs.Kept.{ScreenKept};

    ghost Value = { ScreenKept };

    ghost view = { λ w. record { place = w.place; at = w.at; size = w.size; format = w.format; table = w.table } };

    ghost invariant = { λ w. (length w.table ≡ colours_of w.format) × IsSurfaceSize w.size × MayStandAt w.at };
}

/// What a drawing asks of a screen.
#[derive(Clone, Copy, Debug, PartialEq, Eq)]
pub struct Piece {
    /// The call, in the screen's own coordinates; it holds the screen where that is its source.
    pub call: DrawCall,
    /// The rectangle of the desk in which the screen has points that are drawn.
    pub asked: Rect,
}

/// The point at which a source stands: that of the screen where it is the desk.
fn stand_of(screen: Point, feed: &Feed) -> Point
    ensures { result ≡ stand_of screen feed.now }
{
    match feed {
        Feed::Desk => screen,
        _ => ORIGIN,
    }
}

/// The call on the screen of a driver, which it holds where that is its own source.
pub fn aimed(own: bool, call: &DrawCall) -> DrawCall
    ensures { result ≡ aimed own call.now }
{
    let target = Target::Screen;
    let held = own.then_some(target);
    match call {
        DrawCall::Blt(call) => DrawCall::Blt(BltCall {
            target,
            held,
            ..*call
        }),
        DrawCall::Copy(call) => DrawCall::Copy(CopyCall {
            target,
            held,
            ..*call
        }),
        DrawCall::Paint(call) => DrawCall::Paint(PaintCall { target, ..*call }),
    }
}

/// Whether a call reads what it draws on as its source.
fn reads_own(own: bool, call: &DrawCall) -> bool
    ensures { result ≡ (own && reads_source call.now) }
{
    own && call.reads_source()
}

impl Screen {
    /// A screen of format 8 with the standard colours, at the first point of the desk.
    pub(crate) fn standard(alloc: Global, place: usize, size: Size) -> Result<Screen, AllocError>
        requires { IsSurfaceSize size }
        ensures { IfOk result (λ w. w ≡ first_screen place size) }
    {
        let format = Format::B8;
        let table = ColourTable::standard(alloc, format)?;
        let same = XlateObj::build(alloc, format, &table, format, &table, BLACK)?;
        Ok(Screen {
            place,
            at: ORIGIN,
            size,
            format,
            table,
            same,
        })
    }

    /// Reads its values whole, row by row, in place of what the list had. The list's room is kept.
    pub(crate) fn read(&self, shelf: &mut Vec<DriverPort>, out: &mut Vec<u32>) -> PortAnswer
        requires place { self.now.place < length shelf.old.items }
        requires serves { Serves self.now (state_at (map (λ d. ⟦<DriverPort as Pictured>⟧.state d) shelf.old.items) self.now.place) }
        ensures read { IsRead result out.new.items (shown_by_driver (state_at (map (λ d. ⟦<DriverPort as Pictured>⟧.state d) shelf.old.items) self.now.place)) }
        ensures keeps { Keeps (state_at (map (λ d. ⟦<DriverPort as Pictured>⟧.state d) shelf.old.items) self.now.place)
            (state_at (map (λ d. ⟦<DriverPort as Pictured>⟧.state d) shelf.new.items) self.now.place) result }
        ensures others { OthersStay self.now.place shelf.old.items shelf.new.items }
    {
        let whole = self.size.whole();
        out.clear();
        if out.resize((self.size.w * self.size.h) as usize, 0).is_err() {
            return PortAnswer::NoMemory;
        }
        match read_at(shelf, self.place, Target::Screen, whole, out.as_mut_slice()) {
            PortAnswer::Done => PortAnswer::Done,
            PortAnswer::Fault => {
                out.clear();
                PortAnswer::Fault
            }
            PortAnswer::NoMemory => {
                out.clear();
                PortAnswer::NoMemory
            }
        }
    }

    /// The part of it that a call reads, as its source, for the points of a frame; none where it reads none of it. The call has the screen's own
    /// coordinates.
    ///
    /// # Errors
    ///
    /// The answer of the port that stopped it, or want of memory.
    pub(crate) fn part(
        &self,
        alloc: Global,
        shelf: &mut Vec<DriverPort>,
        call: &DrawCall,
        frame: &Rect,
    ) -> Result<Option<PartCopy>, PortAnswer>
        requires place { self.now.place < length shelf.old.items }
        requires serves { Serves self.now (state_at (map (λ d. ⟦<DriverPort as Pictured>⟧.state d) shelf.old.items) self.now.place) }
        requires coordinates { HasCoordinates call.now }
        requires frame { LiesOnTarget frame.now }
        requires points { HasPoints frame.now }
        ensures ok { let shown = (state_at (map (λ d. ⟦<DriverPort as Pictured>⟧.state d) shelf.old.items) self.now.place).shown in
            IfOk result (HeldFor (held_of (aimed true call.now)) (aimed true call.now) shown frame.now) }
        ensures keeps { Keeps (state_at (map (λ d. ⟦<DriverPort as Pictured>⟧.state d) shelf.old.items) self.now.place)
            (state_at (map (λ d. ⟦<DriverPort as Pictured>⟧.state d) shelf.new.items) self.now.place) (ended result) }
        ensures err { IfErr result (λ answer. ¬ (answer ≡ Done)) }
        ensures others { OthersStay self.now.place shelf.old.items shelf.new.items }
    {
        held_at(alloc, shelf, self.place, &aimed(true, call), frame)
    }

    /// The translation to it from a source, or from itself where none is lent; none for a call that has no source.
    ///
    /// # Errors
    ///
    /// `AllocError` for want of memory.
    pub(crate) fn translation(
        &self,
        alloc: Global,
        call: &DrawCall,
        source: Option<&Pane>,
        back: Rgb,
    ) -> Result<Option<XlateObj>, AllocError>
        ensures { let from = unwrap_or (option_copied source.entry) (plate self.now) in
            IfOk result (λ x. x ≡ translation_for call.now (translation from (plate self.now) back)) }
    {
        if let DrawCall::Paint(_) = call {
            return Ok(None);
        }
        let (format, table) = match source {
            Some(source) => (source.format(), source.table()),
            None => (self.format, &self.table),
        };
        let xlate = XlateObj::build(alloc, format, table, self.format, &self.table, back)?;
        Ok(Some(xlate))
    }

    /// A translation, or that from it to itself where there is none.
    pub(crate) fn or_same<'a>(&'a self, xlate: &'a Option<XlateObj>) -> &'a XlateObj
        ensures { IfSome xlate.now (λ x. result.now ≡ x) }
    {
        match xlate {
            Some(xlate) => xlate,
            None => &self.same,
        }
    }

    /// What a drawing on the desk asks of this screen; none where it reaches no point of the screen in its clip, or finds no source for one.
    pub(crate) fn piece(&self, command: &DeskCommand) -> Option<Piece>
        requires target { command.now.target ≡ spots.Desk }
        requires places { IsPlaced command.now.call }
        ensures none { IfNone result (¬ (Reaches (piece_on self.now command.now) self.now.size)) }
        ensures some { IfSome result (IsPiece self.now command.now) }
    {
        let own = is_own(command.target, &command.source);
        let call = aimed(own, &self.call(command));
        let asked = self.frame(&call, own).shifted(self.at);
        if !meets(region_of(&command.clip), &asked) {
            return None;
        }
        Some(Piece { call, asked })
    }

    /// A drawing's call in the screen's own coordinates, its source counted from where it stands.
    fn call(&self, command: &DeskCommand) -> DrawCall
        requires { IsPlaced command.now.call }
        ensures call { result ≡ screen_call self.now command.now }
        ensures coordinates { HasCoordinates result }
    {
        let call = command.call.shifted(origin_from(&self.at));
        call.lent_from(stand_of(self.at, &command.source))
    }

    /// The points of a call's rectangle on the screen; of a call that reads the screen itself those for which this has the source's points.
    fn frame(&self, call: &DrawCall, own: bool) -> Rect
        requires { HasCoordinates call.now }
        ensures points { (p : Point) → IsIn p result ↔ (IsIn p (rect_of call.now) × IsIn p (whole self.now.size) × FindsThere own call.now self.now.size p) }
        ensures inside { LiesIn result self.now.size }
    {
        let frame = call.rect().cut_to(self.size);
        if reads_own(own, call) {
            return self.found(call, &frame);
        }
        frame
    }

    /// The points of a frame on the screen for which the screen has a call's source's points.
    fn found(&self, call: &DrawCall, frame: &Rect) -> Rect
        requires coordinates { HasCoordinates call.now }
        requires frame { LiesIn frame.now self.now.size }
        ensures points { (p : Point) → IsIn p result ↔ (IsIn p frame.now × IsIn (source_point call.now p) (whole self.now.size)) }
        ensures inside { LiesIn result self.now.size }
    {
        let size = self.size;
        let by = shifted_back(call.src(), call.rect().corner());
        let found = frame.shifted(by).cut_to(size);
        seen_from(&by, &found).cut_to(size)
    }
}
