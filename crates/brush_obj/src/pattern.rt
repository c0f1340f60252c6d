//! A pattern: a picture that a brush repeats.

ghost use Rattle.std.specs.Prelude.{◌≡◌, ◌<◌, ◌*◌, ◌^◌, All, EachIndex, IfSome, is_some, length, slice_index};
ghost use Rattle.pix_format.specs.Translate.{convert, same_kind};
ghost use Rattle.pix_format.specs.Value.{bits_of, colours_of};
ghost use Rattle.geom_base.specs.Grid.{value_at};

use crate::tile::Tile;
use geom_base::Size;
use pix_format::{ColourTable, Format, Rgb, convert_row, is_same_kind};
use std::marker::Model;

/// A picture that a brush repeats, at most 64 by 64 pixels, as it was copied from a bitmap: with the format and the table
/// of the bitmap, and with the background colour that was in force then.
#[derive(Drop)]
pub struct Pattern {
    size: Size,
    format: Format,
    table: ColourTable,
    values: Vec<u32>,
    back: Rgb,
}

impl Model for Pattern {
    ghost use Rattle.brush_obj.specs.Image.{Image, HasPatternSides, IsImage};

    ghost Value = { Image };

    ghost view = { λ p. record { size = p.size; format = p.format; table = p.table; values = p.values.items; back = p.back } };

    ghost invariant = { λ p. HasPatternSides p.size
        × IsImage (record { size = p.size; format = p.format; table = p.table; values = p.values.items; back = p.back }) };
}

impl Pattern {
    ghost use Rattle.brush_obj.specs.Image.{HasPatternSides, IsImage};

    /// A pattern of these values, row by row.
    pub(crate) fn new(
        size: Size,
        format: Format,
        table: ColourTable,
        values: Vec<u32>,
        back: Rgb,
    ) -> Pattern
        requires sides { HasPatternSides size }
        requires whole { IsImage (record { size = size; format = format; table = table; values = values.items; back = back }) }
        ensures { result ≡ record { size = size; format = format; table = table; values = values.items; back = back } }
    {
        Pattern {
            size,
            format,
            table,
            values,
            back,
        }
    }

    /// Its width and height.
    pub fn size(&self) -> Size
        ensures size { result ≡ self.now.size }
        ensures sides { HasPatternSides result }
    {
        self.size
    }

    /// Its own values as a tile, or `None` where a surface of this format and table keeps its pixels otherwise.
    pub(crate) fn kept_tile(&self, format: Format, table: &ColourTable) -> Option<Tile<'_>>
        ensures some { is_some result ≡ same_kind self.now.format self.now.table format table.now }
        ensures size { IfSome result (λ t. t.size ≡ self.now.size) }
        ensures values { IfSome result (λ t. t.values.now ≡ self.now.values) }
        ensures fits { IfSome result (λ t. All (λ v. v < 2 ^ bits_of format) t.values.now) }
    {
        if !is_same_kind(self.format, &self.table, format, table) {
            return None;
        }
        Some(Tile::new(self.size, self.values.as_slice()))
    }

    /// Its values on a surface of this format and table, row by row.
    pub(crate) fn write_tile(&self, format: Format, table: &ColourTable, out: &mut [u32])
        requires table { length table.now ≡ colours_of format }
        requires len { length out.old ≡ self.now.size.w * self.now.size.h }
        ensures values { let i = self.now in
            EachIndex out.new (λ k. slice_index out.new k ≡ convert i.format i.table format table.now i.back (slice_index i.values k)) }
        ensures fits { All (λ v. v < 2 ^ bits_of format) out.new }
    {
        out.copy_from_slice(&self.values);
        convert_row(self.format, &self.table, format, table, self.back, out);
    }

    /// Its value at column `x` of row `y` on a surface of this format and table.
    pub(crate) fn tile_value(&self, format: Format, table: &ColourTable, x: u32, y: u32) -> u32
        requires table { length table.now ≡ colours_of format }
        requires column { x < self.now.size.w }
        requires row { y < self.now.size.h }
        ensures value { let i = self.now in result ≡ convert i.format i.table format table.now i.back (value_at i.size i.values x y) }
        ensures fits { result < 2 ^ bits_of format }
    {
        let mut value = [self.values[(y * self.size.w + x) as usize]];
        convert_row(
            self.format,
            &self.table,
            format,
            table,
            self.back,
            &mut value,
        );
        value[0]
    }
}
