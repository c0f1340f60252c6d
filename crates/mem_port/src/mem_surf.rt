//! A surface in memory.

ghost use Rattle.std.specs.Prelude.{◌≡◌, length};
ghost use Rattle.geom_base.specs.Points.{HasSides};
ghost use Rattle.pix_format.specs.Value.{colours_of};
ghost use Rattle.surf_obj.specs.Object.{object_format, object_size};

use copy_port::TargetInfo;
use geom_base::{Rect, Size};
use pix_format::{ColourTable, Format};
use std::alloc::{AllocError, Global};
use surf_obj::{LentView, SurfObj, read_rect_on, write_rect_on};

/// A surface in memory, and the colours that its values stand for.
#[derive(Drop)]
pub struct MemSurf {
    pixels: SurfObj,
    table: ColourTable,
    ghost sides: { HasSides (object_size pixels) },
    ghost colours: { length table ≡ colours_of (object_format pixels) },
}

impl MemSurf {
    ghost use Rattle.std.specs.Prelude.{◌*◌, ◌<◌, ◌^◌, IfOk};
    ghost use Rattle.std.specs.List.{All};
    ghost use Rattle.geom_base.specs.Points.{LiesIn, height_of, is_in, width_of};
    ghost use Rattle.pix_format.specs.Value.{bits_of};
    ghost use Rattle.surf_obj.specs.Rects.{ReadsRect, with_values};
    ghost use Rattle.surf_obj.specs.Surface.{changed};
    ghost use Rattle.surf_obj.specs.View.{view_format, view_size, view_values};
    ghost use Rattle.copy_port.specs.State.{blank};
    ghost use Rattle.mem_port.specs.Memory.{surface_in};

    /// A surface whose values are all 0.
    ///
    /// # Errors
    ///
    /// `AllocError` for want of memory.
    pub fn new(
        alloc: Global,
        size: Size,
        format: Format,
        table: ColourTable,
    ) -> Result<MemSurf, AllocError>
        requires sides { HasSides size }
        requires table { length table ≡ colours_of format }
        ensures { IfOk result (λ s. surface_in s ≡ blank size format table) }
    {
        let pixels = SurfObj::new(alloc, size, format)?;
        Ok(MemSurf { pixels, table })
    }

    /// Its width and height.
    pub fn size(&self) -> Size
        ensures size { result ≡ (surface_in self.now).size }
        ensures sides { HasSides result }
    {
        self.pixels.size()
    }

    /// How its pixels are kept.
    pub fn format(&self) -> Format
        ensures { result ≡ (surface_in self.now).format }
    {
        self.pixels.format()
    }

    /// What it is as a target.
    pub(crate) fn info(&self) -> TargetInfo
        ensures { result ≡ record { size = (surface_in self.now).size; format = (surface_in self.now).format } }
    {
        TargetInfo {
            size: self.pixels.size(),
            format: self.pixels.format(),
        }
    }

    /// The colours that its values stand for.
    pub fn table(&self) -> &ColourTable
        ensures table { result.now ≡ (surface_in self.now).table }
        ensures fits { length result.now ≡ colours_of (surface_in self.now).format }
    {
        &self.table
    }

    /// Its pixels, to be read.
    pub fn view(&self) -> LentView<'_>
        ensures size { view_size result ≡ (surface_in self.now).size }
        ensures format { view_format result ≡ (surface_in self.now).format }
        ensures values { view_values result ≡ (surface_in self.now).values }
    {
        self.pixels.view()
    }

    /// Reads the values of a rectangle, row by row.
    pub fn read_rect(&self, rect: &Rect, out: &mut [u32])
        requires inside { LiesIn rect.now (surface_in self.now).size }
        requires count { length out.old ≡ width_of rect.now * height_of rect.now }
        ensures values { ReadsRect rect.now (surface_in self.now).size (surface_in self.now).values out.new }
        ensures fits { All (λ v. v < 2 ^ bits_of (surface_in self.now).format) out.new }
    {
        read_rect_on(self.pixels.bits(), self.pixels.layout(), rect, out);
    }

    /// Gives the points of a rectangle these values, row by row.
    pub fn write_rect(&mut self, rect: &Rect, values: &[u32])
        requires inside { LiesIn rect.now (surface_in self.old).size }
        requires count { length values.now ≡ width_of rect.now * height_of rect.now }
        requires fits { All (λ v. v < 2 ^ bits_of (surface_in self.old).format) values.now }
        ensures { surface_in self.new ≡ changed (with_values rect.now values.now) (λ p. is_in p rect.now) (surface_in self.old) }
    {
        let layout = self.pixels.layout();
        write_rect_on(self.pixels.bits_mut(), layout, rect, values);
    }
}
