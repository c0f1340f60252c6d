//! Rows of pixels that begin at a byte and are whole bytes together.

ghost use Rattle.std.specs.Prelude.{◌≡◌, ◌≤◌, ◌<◌, ◌+◌, ◌*◌, ◌/◌, ◌%◌, ◌^◌, ℕ, All, length, slice_index};
ghost use Rattle.pix_format.specs.Value.{bits_of};
ghost use Rattle.pix_format.specs.declared.format.Format.TheVariants.{B1, B4};
ghost use Rattle.surf_obj.specs.Layout.{row_bytes, pixel_in};
ghost use Rattle.surf_obj.specs.InnerBytes.{ChangesOnly};

use crate::bytes::{bits_of_byte, byte_of_bits};
use crate::units::{Four, One, Three, Two, WholeBytes};
use pix_format::Format;

/// Reads the values of pixels.
pub fn read_values(bits: &[u8], at: usize, format: Format, out: &mut [u32])
    requires whole { length out.old * bits_of format % 8 ≡ 0 }
    requires room { at + row_bytes format (length out.old) ≤ length bits.now }
    ensures values { (k : ℕ) → k < length out.old → slice_index out.new k ≡ pixel_in format bits.now at k }
    ensures fits { All (λ v. v < 2 ^ bits_of format) out.new }
{
    match format {
        Format::B1 => read_bits(bits, at, out),
        Format::B4 => read_halves(bits, at, out),
        Format::B8 => read_units::<One>(bits, at, out),
        Format::B555 | Format::B565 => read_units::<Two>(bits, at, out),
        Format::B24 => read_units::<Three>(bits, at, out),
        Format::B32 => read_units::<Four>(bits, at, out),
    }
}

/// Writes the values of pixels.
pub fn write_values(bits: &mut [u8], at: usize, format: Format, values: &[u32])
    requires whole { length values.now * bits_of format % 8 ≡ 0 }
    requires room { at + row_bytes format (length values.now) ≤ length bits.old }
    requires fits { All (λ v. v < 2 ^ bits_of format) values.now }
    ensures values { (k : ℕ) → k < length values.now → pixel_in format bits.new at k ≡ slice_index values.now k }
    ensures bytes { ChangesOnly at (at + row_bytes format (length values.now)) bits.old bits.new }
{
    match format {
        Format::B1 => write_bits(bits, at, values),
        Format::B4 => write_halves(bits, at, values),
        Format::B8 => write_units::<One>(bits, at, values),
        Format::B555 | Format::B565 => write_units::<Two>(bits, at, values),
        Format::B24 => write_units::<Three>(bits, at, values),
        Format::B32 => write_units::<Four>(bits, at, values),
    }
}

/// Writes one value to pixels.
pub fn fill_values(bits: &mut [u8], at: usize, format: Format, count: usize, value: u32)
    requires whole { count * bits_of format % 8 ≡ 0 }
    requires room { at + row_bytes format count ≤ length bits.old }
    requires fits { value < 2 ^ bits_of format }
    ensures values { (k : ℕ) → k < count → pixel_in format bits.new at k ≡ value }
    ensures bytes { ChangesOnly at (at + row_bytes format count) bits.old bits.new }
{
    match format {
        Format::B1 => fill_bits(bits, at, count, value),
        Format::B4 => fill_halves(bits, at, count, value),
        Format::B8 => fill_bytes(bits, at, count, value as u8),
        Format::B555 | Format::B565 => fill_units::<Two>(bits, at, count, value),
        Format::B24 => fill_units::<Three>(bits, at, count, value),
        Format::B32 => fill_units::<Four>(bits, at, count, value),
    }
}

fn read_bits(bits: &[u8], at: usize, out: &mut [u32])
    requires whole { length out.old % 8 ≡ 0 }
    requires room { 8 * at + length out.old ≤ 8 * length bits.now }
    ensures { (k : ℕ) → k < length out.old → slice_index out.new k ≡ pixel_in B1 bits.now at k }
{
    for i in 0..out.len() / 8 {
        bits_of_byte(bits[at + i], &mut out[8 * i..8 * i + 8]);
    }
}

fn write_bits(bits: &mut [u8], at: usize, values: &[u32])
    requires whole { length values.now % 8 ≡ 0 }
    requires room { 8 * at + length values.now ≤ 8 * length bits.old }
    requires fits { All (λ v. v < 2) values.now }
    ensures values { (k : ℕ) → k < length values.now → pixel_in B1 bits.new at k ≡ slice_index values.now k }
    ensures bytes { ChangesOnly at (at + length values.now / 8) bits.old bits.new }
{
    for i in 0..values.len() / 8 {
        bits[at + i] = byte_of_bits(&values[8 * i..8 * i + 8]);
    }
}

fn read_halves(bits: &[u8], at: usize, out: &mut [u32])
    requires whole { length out.old % 2 ≡ 0 }
    requires room { 2 * at + length out.old ≤ 2 * length bits.now }
    ensures { (k : ℕ) → k < length out.old → slice_index out.new k ≡ pixel_in B4 bits.now at k }
{
    for i in 0..out.len() / 2 {
        let byte = bits[at + i] as u32;
        out[2 * i] = byte / 16;
        out[2 * i + 1] = byte % 16;
    }
}

fn write_halves(bits: &mut [u8], at: usize, values: &[u32])
    requires whole { length values.now % 2 ≡ 0 }
    requires room { 2 * at + length values.now ≤ 2 * length bits.old }
    requires fits { All (λ v. v < 16) values.now }
    ensures values { (k : ℕ) → k < length values.now → pixel_in B4 bits.new at k ≡ slice_index values.now k }
    ensures bytes { ChangesOnly at (at + length values.now / 2) bits.old bits.new }
{
    for i in 0..values.len() / 2 {
        bits[at + i] = (values[2 * i] * 16 + values[2 * i + 1]) as u8;
    }
}

fn fill_bytes(bits: &mut [u8], at: usize, count: usize, value: u8)
    requires { at + count ≤ length bits.old }
    ensures values { (k : ℕ) → k < count → slice_index bits.new (at + k) ≡ value }
    ensures bytes { ChangesOnly at (at + count) bits.old bits.new }
{
    bits[at..at + count].fill(value);
}

fn fill_bits(bits: &mut [u8], at: usize, count: usize, value: u32)
    requires whole { count % 8 ≡ 0 }
    requires room { 8 * at + count ≤ 8 * length bits.old }
    requires fits { value < 2 }
    ensures values { (k : ℕ) → k < count → pixel_in B1 bits.new at k ≡ value }
    ensures bytes { ChangesOnly at (at + count / 8) bits.old bits.new }
{
    fill_bytes(bits, at, count / 8, (value * 255) as u8);
}

fn fill_halves(bits: &mut [u8], at: usize, count: usize, value: u32)
    requires whole { count % 2 ≡ 0 }
    requires room { 2 * at + count ≤ 2 * length bits.old }
    requires fits { value < 16 }
    ensures values { (k : ℕ) → k < count → pixel_in B4 bits.new at k ≡ value }
    ensures bytes { ChangesOnly at (at + count / 2) bits.old bits.new }
{
    fill_bytes(bits, at, count / 2, (value * 17) as u8);
}

fn read_units<U: WholeBytes>(bits: &[u8], at: usize, out: &mut [u32])
    requires { at + row_bytes U.format (length out.old) ≤ length bits.now }
    ensures values { (k : ℕ) → k < length out.old → slice_index out.new k ≡ pixel_in U.format bits.now at k }
    ensures fits { All (λ v. v < 2 ^ bits_of U.format) out.new }
{
    for i in 0..out.len() {
        out[i] = U::get(bits, at, i);
    }
}

fn write_units<U: WholeBytes>(bits: &mut [u8], at: usize, values: &[u32])
    requires room { at + row_bytes U.format (length values.now) ≤ length bits.old }
    requires fits { All (λ v. v < 2 ^ bits_of U.format) values.now }
    ensures values { (k : ℕ) → k < length values.now → pixel_in U.format bits.new at k ≡ slice_index values.now k }
    ensures bytes { ChangesOnly at (at + row_bytes U.format (length values.now)) bits.old bits.new }
{
    for i in 0..values.len() {
        U::put(bits, at, i, values[i]);
    }
}

fn fill_units<U: WholeBytes>(bits: &mut [u8], at: usize, count: usize, value: u32)
    requires room { at + row_bytes U.format count ≤ length bits.old }
    requires fits { value < 2 ^ bits_of U.format }
    ensures values { (k : ℕ) → k < count → pixel_in U.format bits.new at k ≡ value }
    ensures bytes { ChangesOnly at (at + row_bytes U.format count) bits.old bits.new }
{
    for i in 0..count {
        U::put(bits, at, i, value);
    }
}
