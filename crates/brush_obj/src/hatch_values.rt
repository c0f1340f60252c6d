//! Hatches in the values of a surface.

ghost use Rattle.std.specs.Prelude.{◌≡◌, ◌≤◌, ◌<◌, ◌+◌, ◌/◌, ◌%◌, ◌^◌, ◌+ℤ◌, pos, All, EachIndex, length, slice_index};
ghost use Rattle.pix_format.specs.Value.{bits_of, colours_of, value_of};
ghost use Rattle.pix_format.specs.declared.format.Format.{Format};

use crate::hatch::Hatch;
use crate::repeating::repeat;
use crate::wrapping::{turned, wrapped};
use geom_base::Point;
use pix_format::{ColourTable, Format, Rgb, value_of};

/// A hatch in the values that its two colours have on one kind of surface.
#[derive(Clone, Copy)]
pub struct HatchValues {
    pub kind: Hatch,
    pub fore: u32,
    pub back: u32,
}

impl HatchValues {
    ghost use Rattle.brush_obj.specs.Hatches.{HatchFits, hatch_value, value_of_hatch};

    /// A hatch in these colours, on a surface of this format and table.
    pub(crate) fn of(
        kind: Hatch,
        fore: Rgb,
        back: Rgb,
        format: Format,
        table: &ColourTable,
    ) -> HatchValues
        requires { length table.now ≡ colours_of format }
        ensures values { result ≡ record { kind = kind; fore = value_of format table.now fore; back = value_of format table.now back } }
        ensures fits { HatchFits format result }
    {
        HatchValues {
            kind,
            fore: value_of(format, table, fore),
            back: value_of(format, table, back),
        }
    }

    /// The values along a row, from a point on.
    pub fn fill_row(&self, origin: Point, at: Point, out: &mut [u32])
        ensures values { EachIndex out.new (λ k. slice_index out.new k ≡ value_of_hatch self.now origin (record { x = at.x +ℤ pos k; y = at.y })) }
        ensures fits { (format : Format) → HatchFits format self.now → All (λ v. v < 2 ^ bits_of format) out.new }
    {
        let x = wrapped(at.x, origin.x, 8);
        let y = wrapped(at.y, origin.y, 8);
        let first = out.len().min(8);
        self.fill_part(x, y, &mut out[..first]);
        repeat(out, 8);
    }

    /// A part of a row of the tile: from column `x` of row `y` on, and round to the first column again.
    pub(crate) fn fill_part(&self, x: u32, y: u32, out: &mut [u32])
        requires column { x < 8 }
        requires row { y < 8 }
        requires short { length out.old ≤ 8 }
        ensures values { EachIndex out.new (λ k. slice_index out.new k ≡ hatch_value self.now ((x + k) % 8) y) }
        ensures fits { (format : Format) → HatchFits format self.now → All (λ v. v < 2 ^ bits_of format) out.new }
    {
        for k in 0..out.len() {
            let column = turned(x as usize + k, 8) as u32;
            out[k] = self.tile_value(column, y);
        }
    }

    /// The values of the tile, row by row.
    pub(crate) fn write_tile(&self, out: &mut [u32])
        requires { length out.old ≡ 64 }
        ensures values { EachIndex out.new (λ k. slice_index out.new k ≡ hatch_value self.now (k % 8) (k / 8)) }
        ensures fits { (format : Format) → HatchFits format self.now → All (λ v. v < 2 ^ bits_of format) out.new }
    {
        for k in 0..out.len() {
            out[k] = self.tile_value(k as u32 % 8, k as u32 / 8);
        }
    }

    /// The value at column `x` of row `y` of the tile.
    fn tile_value(&self, x: u32, y: u32) -> u32
        requires column { x < 8 }
        requires row { y < 8 }
        ensures value { result ≡ hatch_value self.now x y }
        ensures fits { (format : Format) → HatchFits format self.now → result < 2 ^ bits_of format }
    {
        if self.kind.has(x, y) {
            self.fore
        } else {
            self.back
        }
    }
}
