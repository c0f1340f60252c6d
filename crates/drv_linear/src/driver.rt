//! The driver.

ghost use Rattle.std.specs.Prelude.{◌≡◌, false, length};
ghost use Rattle.std.specs.Option.{option_map_or};
ghost use Rattle.brush_obj.specs.Brush.{is_solid};
ghost use Rattle.copy_port.specs.Classes.{class_of};
ghost use Rattle.eng_calls.specs.Inputs.{given_of};
ghost use Rattle.drv_linear.specs.State.{HoldsScreen};

use crate::policy::Policy;
use crate::screen::Screen;
use bitflags::Flags;
use brush_obj::{BltCall, BrushFace, BrushObj, CopyCall, DrawCall, PaintCall, RBrush};
use clip_obj::ClipObj;
use copy_port::{
    Class, Classes, CopyPort, Hooks, Kind, Limit, Mode, Pictured, Realizer, TargetInfo, class_of,
};
use ddi_driver::{CreateAnswer, DisplayDriver, EnableRefusal, HookAnswer, Stats};
use dev_ports::{LinearMem, PortFault, PowerRefusal};
use eng_calls::{Inputs, eng_draw};
use geom_base::{DrawnList, PortAnswer, Rect, Size, Target};
use pix_format::{ColourTable, XlateObj};
use std::alloc::{AllocError, Global};
use surf_obj::{LentView, read_rect_on, write_rect_on};

/// A driver over a device that shows its memory as it stands.
#[derive(Drop)]
pub struct LinearDriver<P: LinearMem> {
    port: P,
    screen: Option<Screen>,
    policy: Policy,
    offered: u64,
    declined: u64,
    written: u64,
    asked: u64,
    ghost holds: { HoldsScreen screen (length (P.bytes port)) },
}

impl<P: LinearMem> Pictured for LinearDriver<P> {
    ghost use Rattle.std.specs.Prelude.{is_some};
    ghost use Rattle.drv_linear.specs.State.{rest_with, state_with};

    ghost state = { λ d. state_with d.screen (P.bytes d.port) d.holds (P.failed d.port) d.written
        (rest_with (is_some d.screen) d.policy d.offered d.declined d.asked) };
}

impl<P: LinearMem> CopyPort for LinearDriver<P> {
    ghost use Rattle.std.specs.Prelude.{◌≡◌, ◌<◌, ◌≤◌, ◌*◌, ◌^◌, length};
    ghost use Rattle.std.specs.List.{All};
    ghost use Rattle.geom_base.specs.Points.{height_of, is_in, width_of};
    ghost use Rattle.geom_base.specs.declared.port_answer.PortAnswer.TheVariants as answers;
    ghost use Rattle.pix_format.specs.Value.{bits_of};
    ghost use Rattle.surf_obj.specs.Rects.{ReadsRect, with_values};
    ghost use Rattle.copy_port.specs.Port.{Draws, IfDone, InTarget, Keeps};
    ghost use Rattle.copy_port.specs.State.{next_count, surface_of};

    fn info(&self, target: Target) -> Option<TargetInfo> {
        let layout = self.screen.as_ref()?.layout;
        match target {
            Target::Screen => Some(TargetInfo {
                size: layout.size,
                format: layout.format,
            }),
            Target::Bitmap(_) => None,
        }
    }

    fn read_rect(&mut self, _target: Target, rect: Rect, out: &mut [u32]) -> PortAnswer
        requires inside { InTarget (⟦<LinearDriver<P> as Pictured>⟧.state self.old).shown _target rect }
        requires count { length out.old ≡ width_of rect * height_of rect }
        ensures keeps { Keeps (⟦<LinearDriver<P> as Pictured>⟧.state self.old) (⟦<LinearDriver<P> as Pictured>⟧.state self.new) result }
        ensures values { let s = surface_of (⟦<LinearDriver<P> as Pictured>⟧.state self.old).shown _target in IfDone result (ReadsRect rect s.size s.values out.new) }
        ensures fits { let s = surface_of (⟦<LinearDriver<P> as Pictured>⟧.state self.old).shown _target in IfDone result (All (λ v. v < 2 ^ bits_of s.format) out.new) }
        ensures touched { P.touches self.new.port ≡ next_count (P.touches self.old.port) }
        ensures memory { ¬ (result ≡ answers.NoMemory) }
    {
        if self.port.touch().is_err() {
            return PortAnswer::Fault;
        }
        let Some(screen) = &self.screen else {
            return PortAnswer::NoMemory;
        };
        read_rect_on(self.port.bits(), screen.layout, &rect, out);
        PortAnswer::Done
    }

    fn write_rect(
        &mut self,
        _target: Target,
        rect: Rect,
        from: &[u32],
        drawn: &mut DrawnList,
    ) -> PortAnswer
        requires inside { InTarget (⟦<LinearDriver<P> as Pictured>⟧.state self.old).shown _target rect }
        requires count { length from.now ≡ width_of rect * height_of rect }
        requires fits { All (λ v. v < 2 ^ bits_of (surface_of (⟦<LinearDriver<P> as Pictured>⟧.state self.old).shown _target).format) from.now }
        requires spare { (⟦<LinearDriver<P> as Pictured>⟧.state self.old).rest.cuts ≤ drawn.old.spare }
        ensures draws { Draws _target (with_values rect from.now) (λ p. is_in p rect) (⟦<LinearDriver<P> as Pictured>⟧.state self.old).rest.cuts
            (⟦<LinearDriver<P> as Pictured>⟧.state self.old) (⟦<LinearDriver<P> as Pictured>⟧.state self.new) drawn.old drawn.new result }
        ensures written { (⟦<LinearDriver<P> as Pictured>⟧.state self.new).written ≡ next_count (⟦<LinearDriver<P> as Pictured>⟧.state self.old).written }
        ensures touched { P.touches self.new.port ≡ next_count (P.touches self.old.port) }
        ensures memory { ¬ (result ≡ answers.NoMemory) }
    {
        self.written = self.written.wrapping_add(1);
        if self.port.touch().is_err() {
            return PortAnswer::Fault;
        }
        let Some(screen) = &self.screen else {
            return PortAnswer::NoMemory;
        };
        write_rect_on(self.port.bits(), screen.layout, &rect, from);
        drawn.push(rect);
        PortAnswer::Done
    }

    fn synchronise(&mut self, _target: Target, _rect: Rect) -> PortAnswer
        requires { InTarget (⟦<LinearDriver<P> as Pictured>⟧.state self.old).shown _target _rect }
        ensures keeps { Keeps (⟦<LinearDriver<P> as Pictured>⟧.state self.old) (⟦<LinearDriver<P> as Pictured>⟧.state self.new) result }
        ensures touched { P.touches self.new.port ≡ next_count (P.touches self.old.port) }
        ensures memory { ¬ (result ≡ answers.NoMemory) }
    {
        match self.port.touch() {
            Ok(()) => PortAnswer::Done,
            Err(PortFault) => PortAnswer::Fault,
        }
    }

    fn max_cuts(&self) -> u32 {
        1
    }
}

impl<P: LinearMem> Realizer for LinearDriver<P> {
    ghost use Rattle.std.specs.Prelude.{◌≡◌};
    ghost use Rattle.geom_base.specs.declared.port_answer.PortAnswer.TheVariants as answers;
    ghost use Rattle.brush_obj.specs.Brush.{IsRealised, size_of};
    ghost use Rattle.brush_obj.specs.Realised.{IsReadyFor};
    ghost use Rattle.copy_port.specs.Port.{IfDone, Keeps};
    ghost use Rattle.copy_port.specs.State.{IsLive, next_count, surface_of};

    fn realize_brush(&mut self, _target: Target, brush: &BrushFace, into: &mut RBrush) -> PortAnswer
        requires live { IsLive (⟦<LinearDriver<P> as Pictured>⟧.state self.old).shown _target }
        requires ready { IsReadyFor (size_of brush.now) into.old }
        ensures keeps { Keeps (⟦<LinearDriver<P> as Pictured>⟧.state self.old) (⟦<LinearDriver<P> as Pictured>⟧.state self.new) result }
        ensures values { let s = surface_of (⟦<LinearDriver<P> as Pictured>⟧.state self.old).shown _target in IfDone result (IsRealised brush.now s.format s.table into.new) }
        ensures touched { P.touches self.new.port ≡ next_count (P.touches self.old.port) }
        ensures memory { ¬ (result ≡ answers.NoMemory) }
    {
        if self.port.touch().is_err() {
            return PortAnswer::Fault;
        }
        let Some(screen) = &self.screen else {
            return PortAnswer::NoMemory;
        };
        brush.realise(screen.layout.format, &screen.table, into);
        PortAnswer::Done
    }
}

impl<P: LinearMem> DisplayDriver for LinearDriver<P> {
    ghost use Rattle.std.specs.Prelude.{◌≡◌, ◌*◌, ◌≤◌, false, length, IsTrue, None, OnOk};
    ghost use Rattle.geom_base.specs.declared.target.Target.TheVariants as targets;
    ghost use Rattle.brush_obj.specs.declared.draw_call.DrawCall.TheVariants as calls;
    ghost use Rattle.copy_port.specs.Given.{CanDraw, asked_of, given_blt, given_copy, given_paint};
    ghost use Rattle.copy_port.specs.State.{next_count, surface_of};
    ghost use Rattle.ddi_driver.specs.Enabling.{Enables};
    ghost use Rattle.ddi_driver.specs.Hook.{HookContract};
    ghost use Rattle.ddi_driver.specs.Modes.{IsMode};
    ghost use Rattle.ddi_driver.specs.Slots.{AreRealised};
    ghost use Rattle.drv_linear.specs.Answers.{AnswersBy};
    ghost use Rattle.drv_linear.specs.Policies.{policy_of};

    fn kind(&self) -> Kind {
        Kind::Linear
    }

    fn enabled(&self) -> bool {
        self.screen.is_some()
    }

    fn mode_limit(&self, _mode: &Mode) -> Option<Limit> {
        None
    }

    /// Enables it; it then declines by what the mode says.
    fn enable_pdev(&mut self, alloc: Global, mode: &Mode) -> Result<(), EnableRefusal>
        requires disabled { (⟦<LinearDriver<P> as Pictured>⟧.state self.old).rest.enabled ≡ false }
        requires mode { IsMode mode.now }
        ensures enables { Enables mode.now (⟦<LinearDriver<P> as Pictured>⟧.state self.old) (⟦<LinearDriver<P> as Pictured>⟧.state self.new) result }
        ensures policy { OnOk result (self.new.policy ≡ policy_of mode.now) }
    {
        let screen = Screen::of(alloc, mode)?;
        match self.port.power_on(alloc, screen.layout.len(), &mode.faults) {
            Ok(()) => {}
            Err(PowerRefusal::Fault) => return Err(EnableRefusal::Fault),
            Err(PowerRefusal::NoMemory) => return Err(EnableRefusal::NoMemory),
        }
        self.screen = Some(screen);
        self.policy = Policy::of(mode);
        self.offered = 0;
        self.declined = 0;
        self.written = 0;
        Ok(())
    }

    fn disable_pdev(&mut self) {
        self.screen = None;
        self.port.power_off();
    }

    fn hooks(&self) -> Hooks {
        self.policy.hooks
    }

    fn stats(&self) -> Stats {
        Stats {
            offered: self.offered,
            offered_bitmaps: 0,
            declined: self.declined,
            written: self.written,
            asked: self.asked,
            made: 0,
            faults: self.port.faults(),
        }
    }

    fn create_device_bitmap(&mut self, _alloc: Global, _size: Size) -> CreateAnswer {
        self.asked = self.asked.wrapping_add(1);
        CreateAnswer::Declined
    }

    fn delete_device_bitmap(&mut self, _id: u32) {}

    fn bit_blt(
        &mut self,
        alloc: Global,
        call: &BltCall,
        src: Option<&LentView<'_>>,
        mask: Option<&LentView<'_>>,
        xlate: &XlateObj,
        table: &ColourTable,
        brush: &mut BrushObj,
        clip: &mut ClipObj,
        _drawn: &mut DrawnList,
    ) -> HookAnswer
        requires enabled { IsTrue (⟦<LinearDriver<P> as Pictured>⟧.state self.old).rest.enabled }
        requires can { CanDraw (calls.Blt call.now) (given_blt src mask xlate.now table.now brush.old.face) (⟦<LinearDriver<P> as Pictured>⟧.state self.old).shown clip.old.rects }
        requires slots { AreRealised brush.old (surface_of (⟦<LinearDriver<P> as Pictured>⟧.state self.old).shown targets.Screen) }
        requires spare { (⟦<LinearDriver<P> as Pictured>⟧.state self.old).rest.cuts * length clip.old.rects ≤ _drawn.old.spare }
        ensures hook { let g = given_blt src.entry mask.entry xlate.now table.now brush.old.face in
            let a = asked_of (calls.Blt call.now) g (⟦<LinearDriver<P> as Pictured>⟧.state self.old).shown clip.old.rects in
            HookContract a (⟦<LinearDriver<P> as Pictured>⟧.state self.old) (⟦<LinearDriver<P> as Pictured>⟧.state self.new) _drawn.old _drawn.new result }
        ensures exact { let g = given_blt src.entry mask.entry xlate.now table.now brush.old.face in
            let a = asked_of (calls.Blt call.now) g (⟦<LinearDriver<P> as Pictured>⟧.state self.old).shown clip.old.rects in
            AnswersBy self.old.policy (next_count self.old.offered) a.class (calls.Blt call.now) src.entry (P.touches self.old.port) (P.touches self.new.port) result }
        ensures policy { self.new.policy ≡ self.old.policy }
        ensures rects { clip.new.rects ≡ clip.old.rects }
        ensures bounds { clip.new.bounds ≡ clip.old.bounds }
        ensures face { brush.new.face ≡ brush.old.face }
        ensures slots { AreRealised brush.new (surface_of (⟦<LinearDriver<P> as Pictured>⟧.state self.old).shown targets.Screen) }
    {
        let inputs = Inputs::blt(src, mask, xlate, table, brush);
        self.draw(alloc, &DrawCall::Blt(*call), &inputs, clip)
    }

    fn copy_bits(
        &mut self,
        alloc: Global,
        call: &CopyCall,
        src: Option<&LentView<'_>>,
        xlate: &XlateObj,
        table: &ColourTable,
        clip: &mut ClipObj,
        _drawn: &mut DrawnList,
    ) -> HookAnswer
        requires enabled { IsTrue (⟦<LinearDriver<P> as Pictured>⟧.state self.old).rest.enabled }
        requires can { CanDraw (calls.Copy call.now) (given_copy src xlate.now table.now) (⟦<LinearDriver<P> as Pictured>⟧.state self.old).shown clip.old.rects }
        requires spare { (⟦<LinearDriver<P> as Pictured>⟧.state self.old).rest.cuts * length clip.old.rects ≤ _drawn.old.spare }
        ensures hook { let g = given_copy src.entry xlate.now table.now in
            let a = asked_of (calls.Copy call.now) g (⟦<LinearDriver<P> as Pictured>⟧.state self.old).shown clip.old.rects in
            HookContract a (⟦<LinearDriver<P> as Pictured>⟧.state self.old) (⟦<LinearDriver<P> as Pictured>⟧.state self.new) _drawn.old _drawn.new result }
        ensures exact { let g = given_copy src.entry xlate.now table.now in
            let a = asked_of (calls.Copy call.now) g (⟦<LinearDriver<P> as Pictured>⟧.state self.old).shown clip.old.rects in
            AnswersBy self.old.policy (next_count self.old.offered) a.class (calls.Copy call.now) src.entry (P.touches self.old.port) (P.touches self.new.port) result }
        ensures policy { self.new.policy ≡ self.old.policy }
        ensures rects { clip.new.rects ≡ clip.old.rects }
        ensures bounds { clip.new.bounds ≡ clip.old.bounds }
    {
        let inputs = Inputs::copy(src, xlate, table);
        self.draw(alloc, &DrawCall::Copy(*call), &inputs, clip)
    }

    fn paint(
        &mut self,
        alloc: Global,
        call: &PaintCall,
        table: &ColourTable,
        brush: &mut BrushObj,
        clip: &mut ClipObj,
        _drawn: &mut DrawnList,
    ) -> HookAnswer
        requires enabled { IsTrue (⟦<LinearDriver<P> as Pictured>⟧.state self.old).rest.enabled }
        requires can { CanDraw (calls.Paint call.now) (given_paint table.now brush.old.face) (⟦<LinearDriver<P> as Pictured>⟧.state self.old).shown clip.old.rects }
        requires slots { AreRealised brush.old (surface_of (⟦<LinearDriver<P> as Pictured>⟧.state self.old).shown targets.Screen) }
        requires spare { (⟦<LinearDriver<P> as Pictured>⟧.state self.old).rest.cuts * length clip.old.rects ≤ _drawn.old.spare }
        ensures hook { let g = given_paint table.now brush.old.face in
            let a = asked_of (calls.Paint call.now) g (⟦<LinearDriver<P> as Pictured>⟧.state self.old).shown clip.old.rects in
            HookContract a (⟦<LinearDriver<P> as Pictured>⟧.state self.old) (⟦<LinearDriver<P> as Pictured>⟧.state self.new) _drawn.old _drawn.new result }
        ensures exact { let g = given_paint table.now brush.old.face in
            let a = asked_of (calls.Paint call.now) g (⟦<LinearDriver<P> as Pictured>⟧.state self.old).shown clip.old.rects in
            AnswersBy self.old.policy (next_count self.old.offered) a.class (calls.Paint call.now) None (P.touches self.old.port) (P.touches self.new.port) result }
        ensures policy { self.new.policy ≡ self.old.policy }
        ensures rects { clip.new.rects ≡ clip.old.rects }
        ensures bounds { clip.new.bounds ≡ clip.old.bounds }
        ensures face { brush.new.face ≡ brush.old.face }
        ensures slots { AreRealised brush.new (surface_of (⟦<LinearDriver<P> as Pictured>⟧.state self.old).shown targets.Screen) }
    {
        let inputs = Inputs::paint(table, brush);
        self.draw(alloc, &DrawCall::Paint(*call), &inputs, clip)
    }
}

impl<P: LinearMem> LinearDriver<P> {
    ghost use Rattle.std.specs.Prelude.{◌≡◌, None, false, OnErr, OnOk};
    ghost use Rattle.geom_base.specs.Drawn.{Drawn};
    ghost use Rattle.geom_base.specs.Points.{is_in_some};
    ghost use Rattle.copy_port.specs.Given.{CanDraw, asked_of};
    ghost use Rattle.copy_port.specs.State.{drawn_on, next_count};
    ghost use Rattle.eng_calls.specs.Inputs.{given_of};
    ghost use Rattle.eng_calls.specs.Memory.{CallMayWantMemory};
    ghost use Rattle.ddi_driver.specs.Hook.{HookContract};
    ghost use Rattle.ddi_driver.specs.HookLaws.{Serves};
    ghost use Rattle.drv_linear.specs.Answers.{AnswersBy};

    /// A driver that isn't enabled, over a device that is off.
    pub fn new(_alloc: Global, port: P) -> LinearDriver<P>
        ensures disabled { (⟦<LinearDriver<P> as Pictured>⟧.state result).rest.enabled ≡ false }
        ensures port { result.port ≡ port }
    {
        LinearDriver {
            port,
            screen: None,
            policy: Policy {
                hooks: Hooks::empty(),
                takes: Classes::empty(),
                decline: 0,
            },
            offered: 0,
            declined: 0,
            written: 0,
            asked: 0,
        }
    }

    /// What every hook does: it counts the call, declines it by the policy, or draws it on the bytes.
    fn draw(
        &mut self,
        alloc: Global,
        call: &DrawCall,
        inputs: &Inputs<'_, '_>,
        clip: &mut ClipObj,
    ) -> HookAnswer
        requires can { CanDraw call.now (given_of inputs.now) (⟦<LinearDriver<P> as Pictured>⟧.state self.old).shown clip.old.rects }
        ensures hook { let a = asked_of call.now (given_of inputs.now) (⟦<LinearDriver<P> as Pictured>⟧.state self.old).shown clip.old.rects in
            (d : Drawn) → HookContract a (⟦<LinearDriver<P> as Pictured>⟧.state self.old) (⟦<LinearDriver<P> as Pictured>⟧.state self.new) d d result }
        ensures exact { let a = asked_of call.now (given_of inputs.now) (⟦<LinearDriver<P> as Pictured>⟧.state self.old).shown clip.old.rects in
            AnswersBy self.old.policy (next_count self.old.offered) a.class call.now inputs.now.source (P.touches self.old.port) (P.touches self.new.port)
            result }
        ensures policy { self.new.policy ≡ self.old.policy }
        ensures rects { clip.new.rects ≡ clip.old.rects }
        ensures bounds { clip.new.bounds ≡ clip.old.bounds }
    {
        self.offered = self.offered.wrapping_add(1);
        if self.policy.declines(self.offered, class_with(call, inputs)) {
            self.declined = self.declined.wrapping_add(1);
            return HookAnswer::Declined;
        }
        if self.port.touch().is_err() {
            return HookAnswer::Fault;
        }
        match self.draw_on_bytes(alloc, call, inputs, clip) {
            Ok(()) => HookAnswer::Done,
            Err(AllocError) => HookAnswer::NoMemory,
        }
    }

    /// Draws a call on the bytes.
    ///
    /// # Errors
    ///
    /// `AllocError` as of `eng_draw`; nothing is drawn then.
    fn draw_on_bytes(
        &mut self,
        alloc: Global,
        call: &DrawCall,
        inputs: &Inputs<'_, '_>,
        clip: &mut ClipObj,
    ) -> Result<(), AllocError>
        requires can { CanDraw call.now (given_of inputs.now) (⟦<LinearDriver<P> as Pictured>⟧.state self.old).shown clip.old.rects }
        ensures serves { Serves (⟦<LinearDriver<P> as Pictured>⟧.state self.old) (⟦<LinearDriver<P> as Pictured>⟧.state self.new) }
        ensures drawn { let a = asked_of call.now (given_of inputs.now) (⟦<LinearDriver<P> as Pictured>⟧.state self.old).shown clip.old.rects in
            OnOk result ((⟦<LinearDriver<P> as Pictured>⟧.state self.new).shown
            ≡ drawn_on a.target a.new (λ p. is_in_some p a.clip) (⟦<LinearDriver<P> as Pictured>⟧.state self.old).shown) }
        ensures unchanged { OnErr result
            ((⟦<LinearDriver<P> as Pictured>⟧.state self.new).shown ≡ (⟦<LinearDriver<P> as Pictured>⟧.state self.old).shown) }
        ensures cause { OnErr result (CallMayWantMemory call.now inputs.now.source) }
        ensures touches { P.touches self.new.port ≡ P.touches self.old.port }
        ensures policy { self.new.policy ≡ self.old.policy }
        ensures rects { clip.new.rects ≡ clip.old.rects }
        ensures bounds { clip.new.bounds ≡ clip.old.bounds }
    {
        let Some(screen) = &self.screen else {
            return Err(AllocError);
        };
        eng_draw(alloc, self.port.bits(), screen.layout, call, inputs, clip)
    }
}

/// The class of a call by its brush.
fn class_with(call: &DrawCall, inputs: &Inputs<'_, '_>) -> Class
    ensures { result ≡ class_of call.now (option_map_or is_solid (given_of inputs.now).brush false) }
{
    let solid = match inputs.brush {
        Some(brush) => matches!(brush.face(), BrushFace::Solid(_)),
        None => false,
    };
    class_of(call, solid)
}
