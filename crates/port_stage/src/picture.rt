//! Pictures, and surfaces in memory that show them.

ghost use Rattle.std.specs.Prelude.{◌≡◌, ◌*◌, ◌<◌, ◌^◌, IfOk, length};
ghost use Rattle.std.specs.List.{All};
ghost use Rattle.geom_base.specs.Points.{HasSides, height_of, whole, width_of};
ghost use Rattle.pix_format.specs.Value.{bits_of};
ghost use Rattle.mem_port.specs.Memory.{surface_in};
ghost use Rattle.port_stage.specs.Stage.{IsPlain};

use geom_base::Size;
use mem_port::MemSurf;
use pix_format::{ColourTable, Format};
use std::alloc::{AllocError, Global};

/// A picture of any size and format: each point has a number, row by row, and its value is the highest bits of that. How much each
/// number is more than the one before, modulo 2^32, and the first.
#[derive(Clone, Copy)]
pub struct Picture {
    pub step: u32,
    pub first: u32,
}

/// What the screen shows.
pub const SCREEN: Picture = Picture {
    step: 0x9e37_79b1,
    first: 0x243f_6a88,
};

/// What the bitmap shows.
pub const BITMAP: Picture = Picture {
    step: 0x6a09_e667,
    first: 0x85a3_08d3,
};

/// What a source that is lent shows.
pub const SOURCE: Picture = Picture {
    step: 0xbb67_ae85,
    first: 0x1319_8a2e,
};

impl Picture {
    /// The value at a place, counted row by row.
    pub fn value(&self, format: Format, place: u32) -> u32
        ensures { result < 2 ^ bits_of format }
    {
        let number = place.wrapping_mul(self.step).wrapping_add(self.first);
        number >> (32 - format.bits())
    }

    /// The values of all points of a size.
    pub(crate) fn values(
        &self,
        alloc: Global,
        size: Size,
        format: Format,
    ) -> Result<Vec<u32>, AllocError>
        requires sides { HasSides size }
        ensures fits { IfOk result (λ v. All (λ x. x < 2 ^ bits_of format) v.items) }
        ensures count { IfOk result (λ v. length v.items ≡ width_of (whole size) * height_of (whole size)) }
    {
        let count = size.w * size.h;
        let mut values = Vec::with_capacity(alloc, count as usize)?;
        for place in 0..count {
            values.push(self.value(format, place))?;
        }
        Ok(values)
    }

    /// A surface that shows it.
    ///
    /// # Errors
    ///
    /// `AllocError` for want of memory.
    pub fn surface(&self, alloc: Global, size: Size, format: Format) -> Result<MemSurf, AllocError>
        requires sides { HasSides size }
        ensures { IfOk result (λ s. IsPlain size format (surface_in s)) }
    {
        let table = ColourTable::standard(alloc, format)?;
        let mut surface = MemSurf::new(alloc, size, format, table)?;
        let values = self.values(alloc, size, format)?;
        surface.write_rect(&size.whole(), &values);
        Ok(surface)
    }
}
