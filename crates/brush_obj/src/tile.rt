//! Tiles: the values that a brush repeats.

ghost use Rattle.std.specs.Prelude.{◌≡◌, ◌<◌, ◌*◌, ◌^◌, ◌+ℤ◌, ℕ, pos, All, EachIndex, length, slice_index};
ghost use Rattle.pix_format.specs.Value.{bits_of};
ghost use Rattle.pix_format.specs.declared.format.Format.{Format};
ghost use Rattle.brush_obj.specs.Brush.{tiled_values};
ghost use Rattle.brush_obj.specs.Image.{HasPatternSides};
ghost use Rattle.brush_obj.specs.Wrapping.{from_origin};

use crate::repeating::{copy_round, repeat};
use crate::wrapping::wrapped;
use geom_base::{Point, Size};

/// The most values of a tile.
pub const MOST_VALUES: usize = 4096;

/// The values that a brush repeats on one kind of surface, row by row.
#[derive(Clone, Copy)]
pub struct Tile<'a> {
    size: Size,
    values: &'a [u32],
    ghost sides: { HasPatternSides size },
    ghost len: { length values.now ≡ size.w * size.h },
}

impl<'a> Tile<'a> {
    /// A tile of these values.
    pub(crate) fn new(size: Size, values: &'a [u32]) -> Tile<'a>
        requires sides { HasPatternSides size }
        requires len { length values.now ≡ size.w * size.h }
        ensures size { result.size ≡ size }
        ensures values { result.values.now ≡ values.now }
    {
        Tile { size, values }
    }
}

impl Tile<'_> {
    /// The values along a row of a surface, from a point on.
    pub(crate) fn fill_row(&self, origin: Point, at: Point, out: &mut [u32])
        ensures values { EachIndex out.new (λ k. slice_index out.new k ≡
            tiled_values self.now.size self.now.values.now (from_origin origin (record { x = at.x +ℤ pos k; y = at.y }))) }
        ensures fits { (format : Format) → All (λ v. v < 2 ^ bits_of format) self.now.values.now → All (λ v. v < 2 ^ bits_of format) out.new }
    {
        let width = self.size.w as usize;
        let x = wrapped(at.x, origin.x, self.size.w) as usize;
        let y = wrapped(at.y, origin.y, self.size.h) as usize;
        let start = y * width;
        let first = out.len().min(width);
        copy_round(&self.values[start..start + width], x, &mut out[..first]);
        repeat(out, width);
    }
}
