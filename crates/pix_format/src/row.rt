//! Rows of colours and of values.

ghost use Rattle.std.specs.Prelude.{◌≡◌, ◌<◌, ◌^◌, ◌==◌, if◌then◌else◌, All, EachIndex, length, slice_index, slice_index_or};
ghost use Rattle.pix_format.specs.Colour as colour;
ghost use Rattle.pix_format.specs.InnerKept.{KeepsNearest};
ghost use Rattle.pix_format.specs.Packing as packing;
ghost use Rattle.pix_format.specs.Translate.{recoloured};
ghost use Rattle.pix_format.specs.Value.{bits_of, black, colours_of};
ghost use Rattle.pix_format.specs.Value as spec;

use crate::colour_table::ColourTable;
use crate::format::Format;
use crate::nearest::nearest;
use crate::packing::{packed555, packed565, packed888, unpacked555, unpacked565, unpacked888};
use crate::rgb::Rgb;

/// Each value through a table of new values.
pub fn look_up(values: &mut [u32], table: &[u32])
    requires { All (λ v. v < length table.now) values.old }
    ensures { EachIndex values.new (λ k. slice_index values.new k ≡ slice_index table.now (slice_index values.old k)) }
{
    for i in 0..values.len() {
        values[i] = table[values[i] as usize];
    }
}

/// 1 where the value is the background, else 0.
pub fn mark(values: &mut [u32], background: u32)
    ensures { EachIndex values.new (λ k. slice_index values.new k ≡ (if slice_index values.old k == background then 1 else 0)) }
{
    for i in 0..values.len() {
        values[i] = u32::from(values[i] == background);
    }
}

/// The values that stand for a row of colours on a surface of this format and table, as `value_of` gives them one by one.
/// Colours come again along a row, so a table is searched once for most of them.
pub fn values_of_row(format: Format, table: &ColourTable, colours: &[Rgb], values: &mut [u32])
    requires table { length table.now ≡ colours_of format }
    requires colours { length colours.now ≡ length values.old }
    ensures values { EachIndex values.new (λ k. slice_index values.new k ≡ spec.value_of format table.now (slice_index_or colours.now k black)) }
    ensures fits { All (λ v. v < 2 ^ bits_of format) values.new }
{
    for k in 0..values.len() {
        values[k] = packed888(colours[k]);
    }
    pack(values, format, table);
}

/// The values of a row become those that stand for their colours on another surface.
pub fn recolour(
    values: &mut [u32],
    from: Format,
    from_table: &ColourTable,
    to: Format,
    to_table: &ColourTable,
)
    requires from { length from_table.now ≡ colours_of from }
    requires to { length to_table.now ≡ colours_of to }
    requires values { All (λ v. v < 2 ^ bits_of from) values.old }
    ensures values { EachIndex values.new (λ k. slice_index values.new k ≡ recoloured from from_table.now to to_table.now (slice_index values.old k)) }
    ensures fits { All (λ v. v < 2 ^ bits_of to) values.new }
{
    unpack(values, from, from_table);
    pack(values, to, to_table);
}

/// The values of a row become their colours, in three bytes each.
fn unpack(values: &mut [u32], format: Format, table: &ColourTable)
    requires table { length table.now ≡ colours_of format }
    requires values { All (λ v. v < 2 ^ bits_of format) values.old }
    ensures { EachIndex values.new (λ k. packing.unpacked888 (slice_index values.new k) ≡ spec.colour_of format table.now (slice_index values.old k)) }
{
    match format {
        Format::B1 | Format::B4 | Format::B8 => unpack_table(values, table.colours()),
        Format::B555 => each(values, |v| packed888(unpacked555(v))),
        Format::B565 => each(values, |v| packed888(unpacked565(v))),
        Format::B24 | Format::B32 => each(values, |v| packed888(unpacked888(v))),
    }
}

/// The values of a row, colours in three bytes each, become those of another format.
fn pack(values: &mut [u32], format: Format, table: &ColourTable)
    requires { length table.now ≡ colours_of format }
    ensures values { EachIndex values.new (λ k. slice_index values.new k ≡ spec.value_of format table.now (packing.unpacked888 (slice_index values.old k))) }
    ensures fits { All (λ v. v < 2 ^ bits_of format) values.new }
{
    match format {
        Format::B1 | Format::B4 | Format::B8 => pack_table(values, table.colours()),
        Format::B555 => each(values, |v| packed555(unpacked888(v))),
        Format::B565 => each(values, |v| packed565(unpacked888(v))),
        Format::B24 | Format::B32 => each(values, |v| packed888(unpacked888(v))),
    }
}

/// Each value by a rule.
fn each<F: Fn(u32) -> u32>(values: &mut [u32], rule: F)
    requires { F.IsAlwaysCallable rule }
    ensures { EachIndex values.new (λ k. F.post rule (slice_index values.old k) (slice_index values.new k)) }
{
    for i in 0..values.len() {
        values[i] = rule(values[i]);
    }
}

/// The colour of each index, in three bytes.
fn unpack_table(values: &mut [u32], table: &[Rgb])
    requires { All (λ v. v < length table.now) values.old }
    ensures { EachIndex values.new (λ k. packing.unpacked888 (slice_index values.new k) ≡ slice_index_or table.now (slice_index values.old k) black) }
{
    for i in 0..values.len() {
        values[i] = packed888(table[values[i] as usize]);
    }
}

/// The index nearest to each colour of three bytes. Colours come again, so some that were asked for are kept with their
/// indices, each at a place that it has by its value.
fn pack_table(values: &mut [u32], table: &[Rgb])
    requires some { 0 < length table.now }
    requires few { length table.now < 257 }
    ensures { EachIndex values.new (λ k. slice_index values.new k ≡ colour.nearest table.now (packing.unpacked888 (slice_index values.old k))) }
{
    if values.is_empty() {
        return;
    }
    let first = values[0];
    let index = nearest(table, unpacked888(first)) as u32;
    let mut asked = [first; 64];
    let mut found = [index; 64];
    for i in 0..values.len() {
        values[i] = index_of(values[i], table, &mut asked, &mut found);
    }
}

/// The index nearest to a colour of three bytes, which is kept or searched for.
#[inline]
fn index_of(value: u32, table: &[Rgb], asked: &mut [u32], found: &mut [u32]) -> u32
    requires some { 0 < length table.now }
    requires few { length table.now < 257 }
    requires asked { length asked.old ≡ 64 }
    requires found { length found.old ≡ 64 }
    requires kept { KeepsNearest table.now asked.old found.old }
    ensures index { result ≡ colour.nearest table.now (packing.unpacked888 value) }
    ensures kept { KeepsNearest table.now asked.new found.new }
{
    let place = kept_place(value);
    if asked[place] != value {
        asked[place] = value;
        found[place] = nearest(table, unpacked888(value)) as u32;
    }
    found[place]
}

/// A place among 64 for a value: the high bits of a product, in which neighbours are apart.
fn kept_place(value: u32) -> usize
    ensures { result < 64 }
{
    (value.wrapping_mul(0x9e37_79b1) / 0x400_0000) as usize
}
