//! The driver.

ghost use Rattle.std.specs.Prelude.{◌≡◌};

use bitflags::Flags;
use brush_obj::{BltCall, BrushFace, BrushObj, CopyCall, DrawCall, PaintCall, RBrush};
use clip_obj::ClipObj;
use copy_port::{CopyPort, Hooks, Kind, Limit, Mode, Pictured, Realizer, TargetInfo};
use ddi_driver::{CreateAnswer, DisplayDriver, EnableRefusal, HookAnswer, Stats};
use eng_calls::{Inputs, eng_draw_managed};
use geom_base::{DrawnList, PortAnswer, Rect, Size, Target};
use mem_port::MemSurf;
use pix_format::{ColourTable, XlateObj};
use std::alloc::Global;
use surf_obj::LentView;

/// A driver that hands every call back. It has a screen while it is enabled, and keeps no bitmaps.
#[derive(Drop)]
pub struct PuntDriver {
    screen: Option<MemSurf>,
    hooks: Hooks,
    offered: u64,
    written: u64,
    asked: u64,
}

impl Pictured for PuntDriver {
    ghost use Rattle.punt_driver.specs.State.{state_with};

    ghost state = { λ d. state_with d.screen d.hooks d.offered d.written d.asked };
}

impl CopyPort for PuntDriver {
    fn info(&self, target: Target) -> Option<TargetInfo> {
        let screen = self.screen.as_ref()?;
        match target {
            Target::Screen => Some(TargetInfo {
                size: screen.size(),
                format: screen.format(),
            }),
            Target::Bitmap(_) => None,
        }
    }

    fn read_rect(&mut self, _target: Target, rect: Rect, out: &mut [u32]) -> PortAnswer {
        let Some(screen) = &self.screen else {
            return PortAnswer::NoMemory;
        };
        screen.read_rect(&rect, out);
        PortAnswer::Done
    }

    fn write_rect(
        &mut self,
        _target: Target,
        rect: Rect,
        from: &[u32],
        drawn: &mut DrawnList,
    ) -> PortAnswer {
        self.written = self.written.wrapping_add(1);
        let Some(screen) = &mut self.screen else {
            return PortAnswer::NoMemory;
        };
        screen.write_rect(&rect, from);
        drawn.push(rect);
        PortAnswer::Done
    }

    fn synchronise(&mut self, _target: Target, _rect: Rect) -> PortAnswer {
        PortAnswer::Done
    }

    fn max_cuts(&self) -> u32 {
        1
    }
}

impl Realizer for PuntDriver {
    fn realize_brush(
        &mut self,
        _target: Target,
        brush: &BrushFace,
        into: &mut RBrush,
    ) -> PortAnswer {
        let Some(screen) = &self.screen else {
            return PortAnswer::NoMemory;
        };
        brush.realise(screen.format(), screen.table(), into);
        PortAnswer::Done
    }
}

impl DisplayDriver for PuntDriver {
    fn kind(&self) -> Kind {
        Kind::Linear
    }

    fn enabled(&self) -> bool {
        self.screen.is_some()
    }

    fn mode_limit(&self, _mode: &Mode) -> Option<Limit> {
        None
    }

    fn enable_pdev(&mut self, alloc: Global, mode: &Mode) -> Result<(), EnableRefusal> {
        let table = ColourTable::of(alloc, mode.table.colours())?;
        let screen = MemSurf::new(alloc, mode.size, mode.format, table)?;
        self.screen = Some(screen);
        self.hooks = mode.hooks;
        self.offered = 0;
        self.written = 0;
        Ok(())
    }

    fn disable_pdev(&mut self) {
        self.screen = None;
    }

    fn hooks(&self) -> Hooks {
        self.hooks
    }

    fn stats(&self) -> Stats {
        Stats {
            offered: self.offered,
            offered_bitmaps: 0,
            declined: 0,
            written: self.written,
            asked: self.asked,
            made: 0,
            faults: 0,
        }
    }

    fn create_device_bitmap(&mut self, _alloc: Global, _size: Size) -> CreateAnswer {
        self.asked = self.asked.wrapping_add(1);
        CreateAnswer::Declined
    }

    fn delete_device_bitmap(&mut self, _id: u32) {}

    fn bit_blt(
        &mut self,
        alloc: Global,
        call: &BltCall,
        src: Option<&LentView<'_>>,
        mask: Option<&LentView<'_>>,
        xlate: &XlateObj,
        table: &ColourTable,
        brush: &mut BrushObj,
        clip: &mut ClipObj,
        drawn: &mut DrawnList,
    ) -> HookAnswer {
        let inputs = Inputs::blt(src, mask, xlate, table, brush);
        self.punt(alloc, &DrawCall::Blt(*call), &inputs, clip, drawn)
    }

    fn copy_bits(
        &mut self,
        alloc: Global,
        call: &CopyCall,
        src: Option<&LentView<'_>>,
        xlate: &XlateObj,
        table: &ColourTable,
        clip: &mut ClipObj,
        drawn: &mut DrawnList,
    ) -> HookAnswer {
        let inputs = Inputs::copy(src, xlate, table);
        self.punt(alloc, &DrawCall::Copy(*call), &inputs, clip, drawn)
    }

    fn paint(
        &mut self,
        alloc: Global,
        call: &PaintCall,
        table: &ColourTable,
        brush: &mut BrushObj,
        clip: &mut ClipObj,
        drawn: &mut DrawnList,
    ) -> HookAnswer {
        let inputs = Inputs::paint(table, brush);
        self.punt(alloc, &DrawCall::Paint(*call), &inputs, clip, drawn)
    }
}

impl PuntDriver {
    ghost use Rattle.std.specs.Prelude.{◌≡◌, ◌*◌, ◌≤◌, None, false, length};
    ghost use Rattle.copy_port.specs.Given.{CanDraw, asked_of};
    ghost use Rattle.eng_calls.specs.Inputs.{given_of};
    ghost use Rattle.ddi_driver.specs.Hook.{HookContract};
    ghost use Rattle.punt_driver.specs.State.{shown_on, state_of};

    /// A driver that isn't enabled.
    pub fn new() -> PuntDriver
        ensures disabled { (state_of result).rest.enabled ≡ false }
        ensures shown { (state_of result).shown ≡ shown_on None }
    {
        PuntDriver {
            screen: None,
            hooks: Hooks::empty(),
            offered: 0,
            written: 0,
            asked: 0,
        }
    }

    /// Hands a call back to the engine, which draws it through the port of this driver; what it writes on the way isn't counted.
    fn punt(
        &mut self,
        alloc: Global,
        call: &DrawCall,
        inputs: &Inputs<'_, '_>,
        clip: &ClipObj,
        drawn: &mut DrawnList,
    ) -> HookAnswer
        requires can { CanDraw call.now (given_of inputs.now) (state_of self.old).shown clip.now.rects }
        requires spare { (state_of self.old).rest.cuts * length clip.now.rects ≤ drawn.old.spare }
        ensures { let a = asked_of call.now (given_of inputs.now) (state_of self.old).shown clip.now.rects in
            HookContract a (state_of self.old) (state_of self.new) drawn.old drawn.new result }
    {
        self.offered = self.offered.wrapping_add(1);
        let written = self.written;
        let answer = eng_draw_managed(alloc, self, call, inputs, clip, drawn);
        self.written = written;
        HookAnswer::punted(answer)
    }
}
