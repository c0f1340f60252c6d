//! The surfaces of the desk that the engine keeps: its bitmaps.

ghost use Rattle.std.specs.Prelude.{◌≡◌, ◌*◌, All, length, IfOk, OnOk, OnErr};
ghost use Rattle.geom_base.specs.Points.{is_in_some, LiesIn};
ghost use Rattle.pix_format.specs.Value.{colours_of};
ghost use Rattle.surf_obj.specs.Surface.{changed};
ghost use Rattle.brush_obj.specs.Calls.{HoldsOwn, held_of, new_of_call, target_of};
ghost use Rattle.script_orders.specs.Asked.{IsSurfaceSize};
ghost use Rattle.desk_span.specs.Desk.{blank};
ghost use Rattle.desk_span.specs.InnerDrawing.{operands_with};

use crate::inputs::PaneInputs;
use crate::pane::Pane;
use brush_obj::DrawCall;
use clip_obj::ClipObj;
use geom_base::Size;
use pix_format::{ColourTable, Format};
use std::alloc::{AllocError, Global};
use std::marker::Model;

/// A bitmap of the desk.
#[derive(Drop)]
pub struct Canvas {
    pane: Pane,
}

impl Model for Canvas {
    ghost use Rattle.surf_obj.specs.Surface.{Surface};
    ghost use Rattle.script_orders.specs.Asked.{IsSurfaceSize};

    ghost Value = { Surface };

    ghost view = { λ c. c.pane };

    ghost invariant = { λ c. IsSurfaceSize c.pane.size };
}

impl Canvas {
    /// A bitmap whose values are all 0.
    pub(crate) fn new(
        alloc: Global,
        size: Size,
        format: Format,
        table: ColourTable,
    ) -> Result<Canvas, AllocError>
        requires size { IsSurfaceSize size }
        requires table { length table ≡ colours_of format }
        ensures { IfOk result (λ c. c ≡ blank size format table) }
    {
        Ok(Canvas {
            pane: Pane::new(alloc, size, format, table)?,
        })
    }

    /// The number of columns and rows.
    pub fn size(&self) -> Size
        ensures size { result ≡ self.now.size }
        ensures fits { IsSurfaceSize result }
        ensures places { length self.now.values ≡ result.w * result.h }
    {
        self.pane.size()
    }

    /// What it shows, to be read.
    pub(crate) fn pane(&self) -> &Pane
        ensures { result.now ≡ self.now }
    {
        &self.pane
    }

    /// Draws a call in the rectangles of a clip that lies in the bitmap: `Pane::draw`.
    ///
    /// # Errors
    ///
    /// `AllocError` for want of memory; the bitmap is unchanged then.
    pub(crate) fn draw(
        &mut self,
        alloc: Global,
        call: &DrawCall,
        inputs: &PaneInputs<'_>,
        clip: &mut ClipObj,
    ) -> Result<(), AllocError>
        requires held { HoldsOwn (held_of call.now) (target_of call.now) }
        requires inside { All (λ r. LiesIn r self.old.size) clip.old.rects }
        ensures ok { let o = operands_with self.old (held_of call.now) inputs.now in
            OnOk result (self.new ≡ changed (new_of_call call.now o) (λ p. is_in_some p clip.old.rects) self.old) }
        ensures err { OnErr result (self.new ≡ self.old) }
    {
        self.pane.draw(alloc, call, inputs, clip)
    }
}
