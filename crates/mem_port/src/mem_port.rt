//! The port.

ghost use Rattle.std.specs.Prelude.{◌≡◌, ◌≤◌};
ghost use Rattle.geom_base.specs.Points.{HasPoints};
ghost use Rattle.mem_port.specs.Rows.{row_of};

use crate::mem_surf::MemSurf;
use copy_port::{CopyPort, Pictured, TargetInfo};
use geom_base::{Counts, DrawnList, PortAnswer, Rect, Size, Target};
use pix_format::{ColourTable, Format};
use std::alloc::{AllocError, Global};
use surf_obj::LentView;

/// The screen and one bitmap, `Bitmap(1)`, in memory. Each read, write and synchronisation is a call of the device; the calls are numbered from 1.
#[derive(Drop)]
pub struct MemPort {
    screen: MemSurf,
    bitmap: MemSurf,
    /// The numbers of the calls that fail before they do anything.
    fails: Counts,
    /// The numbers of the writes that fail after the first row.
    breaks: Counts,
    cuts: u32,
    calls: u64,
    faults: u64,
    written: u64,
    ghost least: { 1 ≤ cuts },
    ghost most: { cuts ≤ 64 },
}

impl Pictured for MemPort {
    ghost use Rattle.mem_port.specs.Port.{state_with};

    ghost state = { λ p. state_with p.screen p.bitmap p.faults p.written p.cuts };
}

impl CopyPort for MemPort {
    ghost use Rattle.std.specs.Prelude.{◌≡◌, ◌<◌, ◌≤◌, ◌*◌, ◌^◌, ◌||◌, length};
    ghost use Rattle.std.specs.List.{All};
    ghost use Rattle.geom_base.specs.Points.{height_of, is_in, width_of};
    ghost use Rattle.pix_format.specs.Value.{bits_of};
    ghost use Rattle.surf_obj.specs.Rects.{ReadsRect, with_values};
    ghost use Rattle.copy_port.specs.Port.{Draws, IfDone, InTarget, Keeps};
    ghost use Rattle.copy_port.specs.State.{drawn_on, next_count, surface_of};
    ghost use Rattle.mem_port.specs.Calls.{Counted, CountedWrite, answer_of, breaks_at, fails_at, part_at, pushed_at};
    ghost use Rattle.mem_port.specs.Port.{state_of};

    fn info(&self, target: Target) -> Option<TargetInfo> {
        match target {
            Target::Screen => Some(self.screen.info()),
            Target::Bitmap(1) => Some(self.bitmap.info()),
            Target::Bitmap(_) => None,
        }
    }

    /// Reads a rectangle, if the call isn't one of those that fail; then nothing but the counts changes.
    fn read_rect(&mut self, target: Target, rect: Rect, out: &mut [u32]) -> PortAnswer
        requires inside { InTarget (state_of self.old).shown target rect }
        requires count { length out.old ≡ width_of rect * height_of rect }
        ensures keeps { Keeps (state_of self.old) (state_of self.new) result }
        ensures values { let s = surface_of (state_of self.old).shown target in IfDone result (ReadsRect rect s.size s.values out.new) }
        ensures fits { let s = surface_of (state_of self.old).shown target in IfDone result (All (λ v. v < 2 ^ bits_of s.format) out.new) }
        ensures answer { result ≡ answer_of (fails_at self.old) }
        ensures counted { Counted (fails_at self.old) self.old self.new }
    {
        if self.fails_now() {
            return PortAnswer::Fault;
        }
        self.surface(target).read_rect(&rect, out);
        PortAnswer::Done
    }

    /// Writes a rectangle and pushes it; or its first row, and then fails; or nothing: by the call's number.
    fn write_rect(
        &mut self,
        target: Target,
        rect: Rect,
        from: &[u32],
        drawn: &mut DrawnList,
    ) -> PortAnswer
        requires inside { InTarget (state_of self.old).shown target rect }
        requires count { length from.now ≡ width_of rect * height_of rect }
        requires fits { All (λ v. v < 2 ^ bits_of (surface_of (state_of self.old).shown target).format) from.now }
        requires spare { self.old.cuts ≤ drawn.old.spare }
        ensures draws { Draws target (with_values rect from.now) (λ p. is_in p rect) self.old.cuts
            (state_of self.old) (state_of self.new) drawn.old drawn.new result }
        ensures written { self.new.written ≡ next_count self.old.written }
        ensures answer { result ≡ answer_of (fails_at self.old || breaks_at self.old) }
        ensures counted { CountedWrite (fails_at self.old || breaks_at self.old) self.old self.new }
        ensures exact { (state_of self.new).shown
            ≡ drawn_on target (with_values rect from.now) (λ p. is_in p (part_at self.old rect)) (state_of self.old).shown }
        ensures pushed { drawn.new.rects ≡ pushed_at self.old rect drawn.old.rects }
    {
        self.written = self.written.wrapping_add(1);
        if self.fails_now() {
            return PortAnswer::Fault;
        }
        if self.breaks.holds(self.calls) {
            self.count_fault();
            self.write_row(target, &rect, from, drawn);
            return PortAnswer::Fault;
        }
        self.set_rect(target, &rect, from);
        drawn.push(rect);
        PortAnswer::Done
    }

    /// Waits for nothing; nothing but the counts changes.
    fn synchronise(&mut self, _target: Target, _rect: Rect) -> PortAnswer
        requires { InTarget (state_of self.old).shown _target _rect }
        ensures keeps { Keeps (state_of self.old) (state_of self.new) result }
        ensures answer { result ≡ answer_of (fails_at self.old) }
        ensures counted { Counted (fails_at self.old) self.old self.new }
    {
        if self.fails_now() {
            PortAnswer::Fault
        } else {
            PortAnswer::Done
        }
    }

    fn max_cuts(&self) -> u32 {
        self.cuts
    }
}

impl MemPort {
    ghost use Rattle.std.specs.Prelude.{◌≡◌, ◌*◌, ◌<◌, ◌≤◌, ◌^◌, length, IfOk};
    ghost use Rattle.std.specs.List.{All};
    ghost use Rattle.geom_base.specs.Drawn.{pushed};
    ghost use Rattle.geom_base.specs.Points.{HasSides, height_of, is_in, width_of};
    ghost use Rattle.pix_format.specs.Value.{bits_of, colours_of};
    ghost use Rattle.surf_obj.specs.Rects.{with_values};
    ghost use Rattle.surf_obj.specs.View.{view_format, view_size, view_values};
    ghost use Rattle.geom_base.specs.declared.port_answer.PortAnswer.TheVariants as answers;
    ghost use Rattle.copy_port.specs.Port.{Draws, InTarget};
    ghost use Rattle.copy_port.specs.State.{IsLive, blank, drawn_on, surface_of};
    ghost use Rattle.mem_port.specs.Memory.{surface_in};
    ghost use Rattle.mem_port.specs.Calls.{Counted, HasCuts, IsNew, SameButFaults, SameCounts, fails_at, next_fault};
    ghost use Rattle.mem_port.specs.Port.{state_of};

    /// A port with a screen whose values are all 0, and this bitmap; the calls of these numbers fail. A rectangle is written in one part.
    ///
    /// # Errors
    ///
    /// `AllocError` for want of memory.
    pub fn new(
        alloc: Global,
        size: Size,
        format: Format,
        table: ColourTable,
        bitmap: MemSurf,
        fails: Counts,
    ) -> Result<MemPort, AllocError>
        requires sides { HasSides size }
        requires table { length table ≡ colours_of format }
        ensures { IfOk result (IsNew (blank size format table) (surface_in bitmap) fails) }
    {
        let screen = MemSurf::new(alloc, size, format, table)?;
        Ok(MemPort {
            screen,
            bitmap,
            fails,
            breaks: Counts::of(Vec::new(alloc)),
            cuts: 1,
            calls: 0,
            faults: 0,
            written: 0,
        })
    }

    /// The same port, which writes a rectangle in up to so many parts: a write whose number is one of these fails after the first row.
    pub fn with_cuts(self, cuts: u32, breaks: Counts) -> MemPort
        requires least { 1 ≤ cuts }
        requires most { cuts ≤ 64 }
        ensures { HasCuts cuts breaks self result }
    {
        MemPort {
            screen: self.screen,
            bitmap: self.bitmap,
            fails: self.fails,
            breaks,
            cuts,
            calls: self.calls,
            faults: self.faults,
            written: self.written,
        }
    }

    /// How many calls were made, modulo 2^64.
    pub fn calls(&self) -> u64
        ensures { result ≡ self.now.calls }
    {
        self.calls
    }

    /// How many calls failed, or the greatest number where they were more.
    pub fn faults(&self) -> u64
        ensures { result ≡ (state_of self.now).faults }
    {
        self.faults
    }

    /// How many rectangles were written or failed to be, modulo 2^64.
    pub fn written(&self) -> u64
        ensures { result ≡ (state_of self.now).written }
    {
        self.written
    }

    /// The colours that the values of a target stand for.
    pub fn table(&self, target: Target) -> &ColourTable
        requires { IsLive (state_of self.now).shown target }
        ensures table { result.now ≡ (surface_of (state_of self.now).shown target).table }
        ensures fits { length result.now ≡ colours_of (surface_of (state_of self.now).shown target).format }
    {
        self.surface(target).table()
    }

    /// The pixels of a target, to be read by no call of the device.
    pub fn pixels(&self, target: Target) -> LentView<'_>
        requires { IsLive (state_of self.now).shown target }
        ensures size { view_size result ≡ (surface_of (state_of self.now).shown target).size }
        ensures format { view_format result ≡ (surface_of (state_of self.now).shown target).format }
        ensures values { view_values result ≡ (surface_of (state_of self.now).shown target).values }
    {
        self.surface(target).view()
    }

    /// Gives the points of a rectangle of a target these values, row by row, by no call of the device.
    pub fn set_rect(&mut self, target: Target, rect: &Rect, values: &[u32])
        requires inside { InTarget (state_of self.old).shown target rect.now }
        requires count { length values.now ≡ width_of rect.now * height_of rect.now }
        requires fits { All (λ v. v < 2 ^ bits_of (surface_of (state_of self.old).shown target).format) values.now }
        ensures shown { (state_of self.new).shown
            ≡ drawn_on target (with_values rect.now values.now) (λ p. is_in p rect.now) (state_of self.old).shown }
        ensures same { SameCounts self.old self.new }
    {
        match target {
            Target::Screen => self.screen.write_rect(rect, values),
            Target::Bitmap(_) => self.bitmap.write_rect(rect, values),
        }
    }

    /// Writes the first row of a rectangle, and pushes it.
    fn write_row(&mut self, target: Target, rect: &Rect, from: &[u32], drawn: &mut DrawnList)
        requires inside { InTarget (state_of self.old).shown target rect.now }
        requires count { length from.now ≡ width_of rect.now * height_of rect.now }
        requires fits { All (λ v. v < 2 ^ bits_of (surface_of (state_of self.old).shown target).format) from.now }
        requires spare { 1 ≤ drawn.old.spare }
        ensures draws { Draws target (with_values rect.now from.now) (λ p. is_in p (row_of rect.now)) 1
            (state_of self.old) (state_of self.new) drawn.old drawn.new answers.Done }
        ensures shown { (state_of self.new).shown
            ≡ drawn_on target (with_values rect.now from.now) (λ p. is_in p (row_of rect.now)) (state_of self.old).shown }
        ensures rects { drawn.new.rects ≡ pushed drawn.old.rects (row_of rect.now) }
        ensures same { SameCounts self.old self.new }
    {
        let row = first_row(rect);
        let width = row.size().w as usize;
        self.set_rect(target, &row, &from[..width]);
        drawn.push(row);
    }

    /// The surface of a target.
    fn surface(&self, target: Target) -> &MemSurf
        requires { IsLive (state_of self.now).shown target }
        ensures { surface_in result.now ≡ surface_of (state_of self.now).shown target }
    {
        match target {
            Target::Screen => &self.screen,
            Target::Bitmap(_) => &self.bitmap,
        }
    }

    /// Counts a call of the device, and tells whether it fails; then that is counted too.
    fn fails_now(&mut self) -> bool
        ensures which { result ≡ fails_at self.old }
        ensures counted { Counted result self.old self.new }
    {
        self.calls = self.calls.wrapping_add(1);
        if self.fails.holds(self.calls) {
            self.count_fault();
            return true;
        }
        false
    }

    /// Counts a fault.
    fn count_fault(&mut self)
        ensures same { SameButFaults self.old self.new }
        ensures count { self.new.faults ≡ next_fault self.old.faults }
        ensures later { self.old.faults ≤ self.new.faults }
    {
        self.faults = self.faults.saturating_add(1);
    }
}

/// The first row of a rectangle.
fn first_row(rect: &Rect) -> Rect
    requires { HasPoints rect.now }
    ensures { result ≡ row_of rect.now }
{
    Rect {
        bottom: rect.top + 1,
        ..*rect
    }
}
