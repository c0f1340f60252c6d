//! What a brush looks like.

ghost use Rattle.std.specs.Prelude.{◌≡◌, ◌≤◌, ◌<◌, ◌*◌, ◌/◌, ◌%◌, ◌^◌, All, EachIndex, IfSome, is_some, length, slice_index};
ghost use Rattle.pix_format.specs.Value.{bits_of, colours_of};

use crate::hatch::Hatch;
use crate::hatch_values::HatchValues;
use crate::pattern::Pattern;
use crate::rbrush::RBrush;
use crate::tile::MOST_VALUES;
use crate::wrapping::wrapped;
use geom_base::{Point, Size};
use pix_format::{ColourTable, Format, Rgb, value_of};

/// What a brush looks like: one colour, a hatch in two colours, or a pattern.
#[derive(Drop)]
pub enum BrushFace {
    Solid(Rgb),
    Hatch { kind: Hatch, fore: Rgb, back: Rgb },
    Pattern(Pattern),
}

impl BrushFace {
    ghost use Rattle.brush_obj.specs.Brush.{IsRealised, brush_value, is_solid, size_of, tile_value, tiled};
    ghost use Rattle.brush_obj.specs.Image.{HasPatternSides};
    ghost use Rattle.brush_obj.specs.Realised.{HasAllValues, IsReadyFor};

    /// The size of the tile that it repeats, which is that of the realised brush.
    pub fn size(&self) -> Size
        ensures size { result ≡ size_of self.now }
        ensures sides { HasPatternSides result }
    {
        match self {
            BrushFace::Solid(_) => Size { w: 1, h: 1 },
            BrushFace::Hatch { .. } => Size { w: 8, h: 8 },
            BrushFace::Pattern(pattern) => pattern.size(),
        }
    }

    /// The value at a point of a surface of this format and table.
    pub fn value_at(&self, format: Format, table: &ColourTable, origin: Point, p: Point) -> u32
        requires { length table.now ≡ colours_of format }
        ensures value { result ≡ brush_value self.now format table.now origin p }
        ensures fits { result < 2 ^ bits_of format }
    {
        let size = self.size();
        let x = wrapped(p.x, origin.x, size.w);
        let y = wrapped(p.y, origin.y, size.h);
        self.tile_value(format, table, x, y)
    }

    /// The value that it has at every point, or `None` where it isn't solid.
    pub fn solid_value(&self, format: Format, table: &ColourTable) -> Option<u32>
        requires { length table.now ≡ colours_of format }
        ensures solid { is_some result ≡ is_solid self.now }
        ensures value { IfSome result (λ v. tiled self.now format table.now ≡ (λ q. v)) }
        ensures fits { IfSome result (λ v. v < 2 ^ bits_of format) }
    {
        match self {
            BrushFace::Solid(colour) => Some(value_of(format, table, *colour)),
            _ => None,
        }
    }

    /// Fills a realised brush with the values on a surface of this format and table.
    pub fn realise(&self, format: Format, table: &ColourTable, into: &mut RBrush)
        requires table { length table.now ≡ colours_of format }
        requires ready { IsReadyFor (size_of self.now) into.old }
        ensures realised { IsRealised self.now format table.now into.new }
        ensures all { HasAllValues into.new }
        ensures fits { All (λ v. v < 2 ^ bits_of format) into.new.values }
    {
        let size = self.size();
        let mut room = [0; MOST_VALUES];
        let values = &mut room[..size.w as usize * size.h as usize];
        self.write_tile(format, table, values);
        into.put_row(values);
    }

    /// The values of the tile, row by row.
    pub(crate) fn write_tile(&self, format: Format, table: &ColourTable, out: &mut [u32])
        requires table { length table.now ≡ colours_of format }
        requires len { length out.old ≡ (size_of self.now).w * (size_of self.now).h }
        ensures values { let w = (size_of self.now).w in
            EachIndex out.new (λ k. slice_index out.new k ≡ tile_value self.now format table.now (k % w) (k / w)) }
        ensures fits { All (λ v. v < 2 ^ bits_of format) out.new }
    {
        match self {
            BrushFace::Solid(colour) => out.fill(value_of(format, table, *colour)),
            BrushFace::Hatch { kind, fore, back } => {
                HatchValues::of(*kind, *fore, *back, format, table).write_tile(out)
            }
            BrushFace::Pattern(pattern) => pattern.write_tile(format, table, out),
        }
    }

    /// The value at column `x` of row `y` of the tile.
    fn tile_value(&self, format: Format, table: &ColourTable, x: u32, y: u32) -> u32
        requires table { length table.now ≡ colours_of format }
        requires column { x < (size_of self.now).w }
        requires row { y < (size_of self.now).h }
        ensures value { result ≡ tile_value self.now format table.now x y }
        ensures fits { result < 2 ^ bits_of format }
    {
        match self {
            BrushFace::Solid(colour) => value_of(format, table, *colour),
            BrushFace::Hatch { kind, fore, back } => {
                let colour = if kind.has(x, y) { *fore } else { *back };
                value_of(format, table, colour)
            }
            BrushFace::Pattern(pattern) => pattern.tile_value(format, table, x, y),
        }
    }
}
