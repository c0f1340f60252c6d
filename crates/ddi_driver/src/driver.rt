//! The trait of display drivers.

ghost use Rattle.std.specs.Prelude.{◌≡◌, ◌*◌, ◌≤◌, false, length, IsTrue};
ghost use Rattle.geom_base.specs.declared.target.Target.TheVariants.{Screen};
ghost use Rattle.brush_obj.specs.declared.draw_call.DrawCall.TheVariants as calls;
ghost use Rattle.copy_port.specs.Classes.{has_hook};
ghost use Rattle.copy_port.specs.declared.hooks.Hook.{Hook};
ghost use Rattle.copy_port.specs.Given.{CanDraw, asked_of, given_blt, given_copy, given_paint};
ghost use Rattle.copy_port.specs.State.{surface_of};
ghost use Rattle.ddi_driver.specs.Bitmaps.{Creates, Deletes, HasBitmap};
ghost use Rattle.ddi_driver.specs.Enabling.{Disables, Enables};
ghost use Rattle.ddi_driver.specs.Hook.{HookContract};
ghost use Rattle.ddi_driver.specs.Modes.{IsMode, IsTargetSize};
ghost use Rattle.ddi_driver.specs.Slots.{AreRealised};
ghost use Rattle.ddi_driver.specs.Stats.{stats_of};

use crate::answers::{CreateAnswer, EnableRefusal, HookAnswer};
use crate::counts::Stats;
use brush_obj::{BltCall, BrushObj, CopyCall, PaintCall};
use clip_obj::ClipObj;
use copy_port::{CopyPort, Hooks, Kind, Limit, Mode, Realizer};
use geom_base::{DrawnList, Size};
use pix_format::{ColourTable, XlateObj};
use std::alloc::Global;
use surf_obj::LentView;

/// A display driver. Once it is enabled it shows a screen, and may keep bitmaps. It hooks some of the drawing calls: for each of them the engine
/// calls the hook, and draws through the port what the driver declines.
pub trait DisplayDriver: CopyPort + Realizer + Drop {
    /// How it reaches its pixels.
    fn kind(&self) -> Kind
        ensures { result ≡ (Self.state self.now).rest.kind };

    /// Whether it is enabled.
    fn enabled(&self) -> bool
        ensures { result ≡ (Self.state self.now).rest.enabled };

    /// What of a mode it can't do, or `None` where it can do the mode. The answer for a mode is always the same.
    fn mode_limit(&self, mode: &Mode) -> Option<Limit>
        ensures { result ≡ (Self.state self.now).rest.mode_limit mode.now };

    /// Enables it: it shows its screen alone, all of value 0, and begins to count.
    ///
    /// # Errors
    ///
    /// `ModeOut` exactly where `mode_limit` has a limit for the mode, which is named; `Fault` where a call of the device failed, which is
    /// counted; `NoMemory`. After each of them it is disabled, as before.
    fn enable_pdev(&mut self, alloc: Global, mode: &Mode) -> Result<(), EnableRefusal>
        requires disabled { (Self.state self.old).rest.enabled ≡ false }
        requires mode { IsMode mode.now }
        ensures { Enables mode.now (Self.state self.old) (Self.state self.new) result };

    /// Disables it: it shows nothing, and its bitmaps are gone.
    fn disable_pdev(&mut self)
        ensures { Disables (Self.state self.old) (Self.state self.new) };

    /// Which calls it hooks; from enabling to disabling always the same.
    fn hooks(&self) -> Hooks
        ensures { (hook : Hook) → has_hook result hook ≡ (Self.state self.now).rest.hooks hook };

    /// What it counts.
    fn stats(&self) -> Stats
        ensures { result ≡ stats_of (Self.state self.now) };

    /// Asks it to keep a bitmap of the screen's format and table, all of value 0.
    fn create_device_bitmap(&mut self, alloc: Global, size: Size) -> CreateAnswer
        requires enabled { IsTrue (Self.state self.old).rest.enabled }
        requires size { IsTargetSize size }
        ensures { Creates size (Self.state self.old) (Self.state self.new) result };

    /// Gives up a bitmap that it keeps. It is called for no other one, of which nothing is promised.
    fn delete_device_bitmap(&mut self, id: u32)
        ensures { HasBitmap (Self.state self.old).shown id → Deletes id (Self.state self.old) (Self.state self.new) };

    /// Draws a raster operation by the hook contract.
    fn bit_blt(
        &mut self,
        alloc: Global,
        call: &BltCall,
        src: Option<&LentView<'_>>,
        mask: Option<&LentView<'_>>,
        xlate: &XlateObj,
        table: &ColourTable,
        brush: &mut BrushObj,
        clip: &mut ClipObj,
        drawn: &mut DrawnList,
    ) -> HookAnswer
        requires enabled { IsTrue (Self.state self.old).rest.enabled }
        requires can { CanDraw (calls.Blt call.now) (given_blt src mask xlate.now table.now brush.old.face) (Self.state self.old).shown clip.old.rects }
        requires slots { AreRealised brush.old (surface_of (Self.state self.old).shown Screen) }
        requires spare { (Self.state self.old).rest.cuts * length clip.old.rects ≤ drawn.old.spare }
        ensures hook { let g = given_blt src.entry mask.entry xlate.now table.now brush.old.face in
            let a = asked_of (calls.Blt call.now) g (Self.state self.old).shown clip.old.rects in
            HookContract a (Self.state self.old) (Self.state self.new) drawn.old drawn.new result }
        ensures rects { clip.new.rects ≡ clip.old.rects }
        ensures bounds { clip.new.bounds ≡ clip.old.bounds }
        ensures face { brush.new.face ≡ brush.old.face }
        ensures slots { AreRealised brush.new (surface_of (Self.state self.old).shown Screen) };

    /// Draws a copy by the hook contract.
    fn copy_bits(
        &mut self,
        alloc: Global,
        call: &CopyCall,
        src: Option<&LentView<'_>>,
        xlate: &XlateObj,
        table: &ColourTable,
        clip: &mut ClipObj,
        drawn: &mut DrawnList,
    ) -> HookAnswer
        requires enabled { IsTrue (Self.state self.old).rest.enabled }
        requires can { CanDraw (calls.Copy call.now) (given_copy src xlate.now table.now) (Self.state self.old).shown clip.old.rects }
        requires spare { (Self.state self.old).rest.cuts * length clip.old.rects ≤ drawn.old.spare }
        ensures hook { let g = given_copy src.entry xlate.now table.now in
            let a = asked_of (calls.Copy call.now) g (Self.state self.old).shown clip.old.rects in
            HookContract a (Self.state self.old) (Self.state self.new) drawn.old drawn.new result }
        ensures rects { clip.new.rects ≡ clip.old.rects }
        ensures bounds { clip.new.bounds ≡ clip.old.bounds };

    /// Draws a paint by the hook contract.
    fn paint(
        &mut self,
        alloc: Global,
        call: &PaintCall,
        table: &ColourTable,
        brush: &mut BrushObj,
        clip: &mut ClipObj,
        drawn: &mut DrawnList,
    ) -> HookAnswer
        requires enabled { IsTrue (Self.state self.old).rest.enabled }
        requires can { CanDraw (calls.Paint call.now) (given_paint table.now brush.old.face) (Self.state self.old).shown clip.old.rects }
        requires slots { AreRealised brush.old (surface_of (Self.state self.old).shown Screen) }
        requires spare { (Self.state self.old).rest.cuts * length clip.old.rects ≤ drawn.old.spare }
        ensures hook { let g = given_paint table.now brush.old.face in
            let a = asked_of (calls.Paint call.now) g (Self.state self.old).shown clip.old.rects in
            HookContract a (Self.state self.old) (Self.state self.new) drawn.old drawn.new result }
        ensures rects { clip.new.rects ≡ clip.old.rects }
        ensures bounds { clip.new.bounds ≡ clip.old.bounds }
        ensures face { brush.new.face ≡ brush.old.face }
        ensures slots { AreRealised brush.new (surface_of (Self.state self.old).shown Screen) };
}
