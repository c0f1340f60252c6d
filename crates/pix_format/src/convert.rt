//! The conversion of a short row, for which nothing is made ready.

ghost use Rattle.std.specs.Prelude.{◌≡◌, ◌<◌, ◌^◌, All, EachIndex, length, slice_index};
ghost use Rattle.pix_format.specs.Translate.{convert};
ghost use Rattle.pix_format.specs.Value.{bits_of, colours_of};

use crate::colour_table::ColourTable;
use crate::format::Format;
use crate::ready::{is_same_kind, is_to_mono};
use crate::rgb::Rgb;
use crate::row::{mark, recolour};
use crate::value::value_of;

/// The values of a row of one surface as they are drawn on another, in place and without memory; `back` is the background
/// colour. For more than a few rows make an `XlateObj`, which looks colours up once.
pub fn convert_row(
    from: Format,
    from_table: &ColourTable,
    to: Format,
    to_table: &ColourTable,
    back: Rgb,
    values: &mut [u32],
)
    requires from { length from_table.now ≡ colours_of from }
    requires to { length to_table.now ≡ colours_of to }
    requires values { All (λ v. v < 2 ^ bits_of from) values.old }
    ensures values { EachIndex values.new (λ k. slice_index values.new k ≡ convert from from_table.now to to_table.now back (slice_index values.old k)) }
    ensures fits { All (λ v. v < 2 ^ bits_of to) values.new }
{
    if is_same_kind(from, from_table, to, to_table) {
        return;
    }
    if is_to_mono(from, to) {
        mark(values, value_of(from, from_table, back));
        return;
    }
    recolour(values, from, from_table, to, to_table);
}
