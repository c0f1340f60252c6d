//! Values and the colours that they stand for.

ghost use Rattle.std.specs.Prelude.{◌≡◌, ◌<◌, ◌^◌, ℕ, length};
ghost use Rattle.pix_format.specs.Colour.{IsNearest};
ghost use Rattle.pix_format.specs.Value.{bits_of, colours_of};
ghost use Rattle.pix_format.specs.Value as spec;

use crate::colour_table::ColourTable;
use crate::format::Format;
use crate::nearest::nearest;
use crate::packing::{packed555, packed565, packed888, unpacked555, unpacked565, unpacked888};
use crate::rgb::Rgb;

/// The value that stands for a colour on a surface of this format and table.
pub fn value_of(format: Format, table: &ColourTable, colour: Rgb) -> u32
    requires { length table.now ≡ colours_of format }
    ensures value { result ≡ spec.value_of format table.now colour }
    ensures nearest { 0 < colours_of format → IsNearest table.now colour result }
    // a colour that some value stands for gets a value that stands for it
    ensures exact { (v : ℕ) → v < 2 ^ bits_of format → spec.colour_of format table.now v ≡ colour →
        spec.colour_of format table.now result ≡ colour }
    ensures fits { result < 2 ^ bits_of format }
{
    match format {
        Format::B1 | Format::B4 | Format::B8 => nearest(table.colours(), colour) as u32,
        Format::B555 => packed555(colour),
        Format::B565 => packed565(colour),
        Format::B24 | Format::B32 => packed888(colour),
    }
}

/// The colour that a value stands for on a surface of this format and table.
pub fn colour_of(format: Format, table: &ColourTable, value: u32) -> Rgb
    requires table { length table.now ≡ colours_of format }
    requires value { value < 2 ^ bits_of format }
    ensures { result ≡ spec.colour_of format table.now value }
{
    match format {
        Format::B1 | Format::B4 | Format::B8 => table.colours()[value as usize],
        Format::B555 => unpacked555(value),
        Format::B565 => unpacked565(value),
        Format::B24 | Format::B32 => unpacked888(value),
    }
}
