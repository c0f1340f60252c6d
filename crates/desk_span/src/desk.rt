//! The desk.

ghost use Rattle.std.specs.Prelude.{◌≡◌, ◌<◌, length, map, IfOk, OnOk, OnErr, Some};
ghost use Rattle.std.specs.Option.{option_to_list};
ghost use Rattle.copy_port.specs.Port.{Keeps};
ghost use Rattle.copy_port.specs.State.{PortState};
ghost use Rattle.script_orders.specs.Asked.{CanCreate, IsSurfaceSize};
ghost use Rattle.script_orders.specs.Live.{Any, CanDraw, FaceIsThere, IsThere, NamedIsThere};
ghost use Rattle.script_orders.specs.declared.script_command.ScriptCommand.TheVariants as asked;
ghost use Rattle.desk_shelf.specs.Shelf.{OthersStay, state_at};
ghost use Rattle.desk_span.specs.Carries.{Alters, Carries};
ghost use Rattle.desk_span.specs.InnerBeside.{bitmap_among};
ghost use Rattle.desk_span.specs.InnerRouted.{brush_made};
ghost use Rattle.desk_span.specs.Kept.{Serves, first_kept, live_in, state_by};
ghost use Rattle.desk_span.specs.Reading.{IsFaultless, IsRead, LooksSo, SurfaceIs};
ghost use Rattle.desk_span.specs.Telling.{TellsAs};

use crate::bitmap::draw_on_bitmap;
use crate::canvas::Canvas;
use crate::on_screen::draw_on_screen;
use crate::reports::{DeskOutcome, Report, Reports};
use crate::screen::Screen;
use brush_obj::BrushObj;
use copy_port::Pictured;
use ddi_driver::DriverPort;
use geom_base::{PortAnswer, Size};
use pix_format::{ColourTable, Format, Rgb};
use script_orders::{BrushOrder, CreateOrder, DeskCommand, FaceOrder, Named, Spot};
use std::alloc::{AllocError, Global};
use std::marker::Model;

/// What a surface looks like from outside: its size, and how its pixels are kept.
#[derive(Clone, Copy, Debug, PartialEq, Eq)]
pub struct SurfaceLook {
    pub size: Size,
    pub format: Format,
}

/// The screen, whose pixels are its driver's, and the bitmaps and brushes in the order in which they were made.
#[derive(Drop)]
pub struct Desk {
    screen: Screen,
    /// None where a bitmap is gone.
    bitmaps: Vec<Option<Canvas>>,
    /// In each of them the screen's driver may keep a realised form.
    brushes: Vec<BrushObj>,
}

impl Model for Desk {
    ghost use Rattle.std.specs.List.{All};
    ghost use Rattle.desk_span.specs.InnerRouted.{IsFor, kept_with};
    ghost use Rattle.desk_span.specs.Kept.{Kept};

    ghost Value = { Kept };

    ghost view = { λ d. kept_with d.screen d.bitmaps.items d.brushes.items };

    ghost invariant = { λ d. All (IsFor d.screen) d.brushes.items };
}

impl Desk {
    /// A desk whose one screen has a size and is shown by the driver at a place of the shelf, with no bitmap and no brush.
    pub fn new(alloc: Global, place: usize, size: Size) -> Result<Desk, AllocError>
        requires { IsSurfaceSize size }
        ensures { IfOk result (λ d. d ≡ first_kept place size) }
    {
        Ok(Desk {
            screen: Screen::standard(alloc, place, size)?,
            bitmaps: Vec::new(alloc),
            brushes: Vec::new(alloc),
        })
    }

    /// The size of a surface, and how its pixels are kept.
    pub fn look(&self, what: Named) -> SurfaceLook
        requires { NamedIsThere (live_in self.now) what }
        ensures look { (driver : PortState) → Serves self.now.screen driver → SurfaceIs (state_by self.now driver) what (LooksSo result) }
        ensures fits { (driver : PortState) → Serves self.now.screen driver → IsSurfaceSize result.size }
    {
        match what {
            Named::Screen(_) => SurfaceLook {
                size: self.screen.size,
                format: self.screen.format,
            },
            Named::Bitmap(number) => {
                let bitmap = self.bitmap(number);
                SurfaceLook {
                    size: bitmap.size(),
                    format: bitmap.pane().format(),
                }
            }
        }
    }

    /// Reads the values of a surface whole, row by row, in place of what the list had. The list's room is kept, so a second surface of
    /// no more pixels takes no memory. Those of a screen are read from its driver; those of a bitmap never fault.
    pub fn read(&self, shelf: &mut Vec<DriverPort>, what: Named, out: &mut Vec<u32>) -> PortAnswer
        requires place { self.now.screen.place < length shelf.old.items }
        requires serves { Serves self.now.screen (state_at (map (λ d. ⟦<DriverPort as Pictured>⟧.state d) shelf.old.items) self.now.screen.place) }
        requires there { NamedIsThere (live_in self.now) what }
        ensures read { SurfaceIs (state_by self.now (state_at (map (λ d. ⟦<DriverPort as Pictured>⟧.state d) shelf.old.items) self.now.screen.place)) what
            (IsRead result out.new.items) }
        ensures faultless { IsFaultless what result }
        ensures keeps { Keeps (state_at (map (λ d. ⟦<DriverPort as Pictured>⟧.state d) shelf.old.items) self.now.screen.place)
            (state_at (map (λ d. ⟦<DriverPort as Pictured>⟧.state d) shelf.new.items) self.now.screen.place) result }
        ensures others { OthersStay self.now.screen.place shelf.old.items shelf.new.items }
    {
        match what {
            Named::Screen(_) => self.screen.read(shelf, out),
            Named::Bitmap(number) => match self.bitmap(number).pane().read(out) {
                Ok(()) => PortAnswer::Done,
                Err(_) => PortAnswer::NoMemory,
            },
        }
    }

    /// The bitmap of a number.
    fn bitmap(&self, number: u32) -> &Canvas
        requires { IsThere (live_in self.now) number Any }
        ensures { bitmap_among self.now.bitmaps number ≡ Some result.now }
    {
        match self.bitmaps.get(number as usize) {
            Some(Some(bitmap)) => bitmap,
            _ => unreachable!(),
        }
    }

    /// Makes a bitmap.
    ///
    /// # Errors
    ///
    /// `AllocError` for want of memory; the desk is unchanged then.
    pub fn create(&mut self, alloc: Global, order: &CreateOrder) -> Result<(), AllocError>
        requires { CanCreate order.now }
        ensures ok { OnOk result (Alters self.old self.new (asked.Create order.now)) }
        ensures err { OnErr result (self.new ≡ self.old) }
    {
        let table = ColourTable::of(alloc, order.table.colours())?;
        let bitmap = Canvas::new(alloc, order.size, order.format, table)?;
        self.bitmaps.push(Some(bitmap))?;
        Ok(())
    }

    /// Takes a bitmap away.
    pub fn delete(&mut self, number: u32)
        requires { IsThere (live_in self.old) number Any }
        ensures { Alters self.old self.new (asked.Delete number) }
    {
        self.bitmaps[number as usize] = None;
    }

    /// Makes a brush.
    ///
    /// # Errors
    ///
    /// `AllocError` for want of memory; the desk is unchanged then.
    pub fn make_brush(&mut self, alloc: Global, order: &BrushOrder) -> Result<(), AllocError>
        requires { FaceIsThere (live_in self.old) order.now.face }
        ensures ok { OnOk result (Alters self.old self.new (asked.Brush order.now)) }
        ensures err { OnErr result (self.new ≡ self.old) }
    {
        let brush = self.brush(alloc, order.face, order.back)?;
        self.brushes.push(brush)?;
        Ok(())
    }

    /// The brush that is made of this, with the background colour in force.
    fn brush(&self, alloc: Global, face: FaceOrder, back: Rgb) -> Result<BrushObj, AllocError>
        requires { FaceIsThere (live_in self.now) face }
        ensures { IfOk result (λ b. b ≡ brush_made self.now.bitmaps back face) }
    {
        match face {
            FaceOrder::Solid(colour) => Ok(BrushObj::solid(alloc, colour)),
            FaceOrder::Hatch(kind, fore, other) => Ok(BrushObj::hatch(alloc, kind, fore, other)),
            FaceOrder::Pattern { bitmap } => self.bitmap(bitmap).pane().pattern(alloc, back),
        }
    }

    /// Carries out a drawing, with its reports.
    pub fn draw(
        &mut self,
        alloc: Global,
        shelf: &mut Vec<DriverPort>,
        command: &DeskCommand,
        reports: &mut Reports,
    ) -> DeskOutcome
        requires place { self.old.screen.place < length shelf.old.items }
        requires serves { Serves self.old.screen (state_at (map (λ d. ⟦<DriverPort as Pictured>⟧.state d) shelf.old.items) self.old.screen.place) }
        requires can { CanDraw (live_in self.old) command.now }
        ensures carries { Carries self.old self.new (asked.Draw command.now) reports.new
            (state_at (map (λ d. ⟦<DriverPort as Pictured>⟧.state d) shelf.old.items) self.old.screen.place)
            (state_at (map (λ d. ⟦<DriverPort as Pictured>⟧.state d) shelf.new.items) self.old.screen.place) }
        ensures outcome { TellsAs result reports.new }
        ensures others { OthersStay self.old.screen.place shelf.old.items shelf.new.items }
    {
        reports.clear();
        match self.drawn(alloc, shelf, command) {
            None => DeskOutcome::All,
            Some(report) => {
                reports.add(report);
                DeskOutcome::Parted
            }
        }
    }

    /// Carries out a drawing on its target.
    fn drawn(
        &mut self,
        alloc: Global,
        shelf: &mut Vec<DriverPort>,
        command: &DeskCommand,
    ) -> Option<Report>
        requires place { self.old.screen.place < length shelf.old.items }
        requires serves { Serves self.old.screen (state_at (map (λ d. ⟦<DriverPort as Pictured>⟧.state d) shelf.old.items) self.old.screen.place) }
        requires can { CanDraw (live_in self.old) command.now }
        ensures carries { Carries self.old self.new (asked.Draw command.now) (option_to_list result)
            (state_at (map (λ d. ⟦<DriverPort as Pictured>⟧.state d) shelf.old.items) self.old.screen.place)
            (state_at (map (λ d. ⟦<DriverPort as Pictured>⟧.state d) shelf.new.items) self.old.screen.place) }
        ensures others { OthersStay self.old.screen.place shelf.old.items shelf.new.items }
    {
        let screen = &self.screen;
        match command.target {
            Spot::Desk => {
                let brushes = self.brushes.as_mut_slice();
                draw_on_screen(alloc, shelf, screen, &self.bitmaps, brushes, command)
            }
            Spot::Bitmap(number) => {
                let bitmaps = self.bitmaps.as_mut_slice();
                draw_on_bitmap(
                    alloc,
                    shelf,
                    screen,
                    bitmaps,
                    &self.brushes,
                    number,
                    command,
                )
            }
        }
    }
}
