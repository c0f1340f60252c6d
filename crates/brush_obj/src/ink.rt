//! What a call draws a pattern with.

ghost use Rattle.std.specs.Prelude.{◌≡◌, ◌≤◌, ◌<◌, ◌+ℤ◌, ◌^◌, All, List, EachIndex, IfSome, pos, is_some, length, slice_index};
ghost use Rattle.pix_format.specs.Value.{bits_of, colours_of};
ghost use Rattle.pix_format.specs.declared.format.Format.{Format};
ghost use Rattle.pix_format.specs.declared.rgb.Rgb.{Rgb};
ghost use Rattle.brush_obj.specs.Brush.{IsRealised, is_kept, tiled};
ghost use Rattle.brush_obj.specs.Ink.{InkFits, ink_at};
ghost use Rattle.brush_obj.specs.Realised.{HasAllValues};
ghost use Rattle.brush_obj.specs.Wrapping.{from_origin};
ghost use Rattle.brush_obj.specs.declared.face.BrushFace.{BrushFace};

use crate::face::BrushFace;
use crate::hatch_values::HatchValues;
use crate::rbrush::RBrush;
use crate::tile::{MOST_VALUES, Tile};
use geom_base::Point;
use pix_format::{ColourTable, Format, value_of};

/// What a brush gives on a target, made once a call: one value, a hatch in two values, or a tile of values.
#[derive(Clone, Copy)]
pub enum Ink<'a> {
    Solid(u32),
    Hatch(HatchValues),
    Tile(Tile<'a>),
}

impl<'a> Ink<'a> {
    /// The ink of a brush on a target of this format and table, or `None` where its values have to be worked out one by one: for a
    /// pattern of another format or another table.
    pub fn ready(face: &'a BrushFace, format: Format, table: &ColourTable) -> Option<Ink<'a>>
        requires { length table.now ≡ colours_of format }
        ensures some { is_some result ≡ is_kept face.now format table.now }
        ensures fits { IfSome result (λ ink. InkFits ink format) }
        ensures values { IfSome result (λ ink. ink_at ink ≡ tiled face.now format table.now) }
    {
        match face {
            BrushFace::Solid(colour) => Some(Ink::Solid(value_of(format, table, *colour))),
            BrushFace::Hatch { kind, fore, back } => {
                let values = HatchValues::of(*kind, *fore, *back, format, table);
                Some(Ink::Hatch(values))
            }
            BrushFace::Pattern(pattern) => match pattern.kept_tile(format, table) {
                Some(tile) => Some(Ink::Tile(tile)),
                None => None,
            },
        }
    }

    /// The ink of any brush on a target of this format and table; its values are worked out in `room`.
    pub fn made(
        face: &BrushFace,
        format: Format,
        table: &ColourTable,
        room: &'a mut [u32; MOST_VALUES],
    ) -> Ink<'a>
        requires { length table.now ≡ colours_of format }
        ensures fits { InkFits result format }
        ensures values { ink_at result ≡ tiled face.now format table.now }
    {
        let size = face.size();
        let tile = &mut room[..size.w as usize * size.h as usize];
        face.write_tile(format, table, tile);
        Ink::Tile(Tile::new(size, tile))
    }

    /// The ink of a brush whose values were worked out before.
    pub fn realised(brush: &'a RBrush) -> Ink<'a>
        requires { HasAllValues brush.now }
        ensures fits { (format : Format) → All (λ v. v < 2 ^ bits_of format) brush.now.values → InkFits result format }
        ensures values { (face : BrushFace) (format : Format) (table : List Rgb) → IsRealised face format table brush.now →
            ink_at result ≡ tiled face format table }
    {
        Ink::Tile(Tile::new(brush.size(), brush.values()))
    }
}

impl Ink<'_> {
    /// The values along a row of a target, from a point on.
    pub fn fill_row(&self, origin: Point, at: Point, out: &mut [u32])
        ensures values { EachIndex out.new (λ k. slice_index out.new k ≡ ink_at self.now (from_origin origin (record { x = at.x +ℤ pos k; y = at.y }))) }
        ensures fits { (format : Format) → InkFits self.now format → All (λ v. v < 2 ^ bits_of format) out.new }
    {
        match self {
            Ink::Solid(value) => out.fill(*value),
            Ink::Hatch(hatch) => hatch.fill_row(origin, at, out),
            Ink::Tile(tile) => tile.fill_row(origin, at, out),
        }
    }
}
