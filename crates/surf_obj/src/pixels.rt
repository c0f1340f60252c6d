//! One pixel among those that begin at a byte.

ghost use Rattle.std.specs.Prelude.{◌≡◌, ◌≢◌, ◌≤◌, ◌<◌, ◌+◌, ◌*◌, ◌/◌, ◌%◌, ◌^◌, ℕ, length, if◌then◌else◌};
ghost use Rattle.pix_format.specs.Value.{bits_of};
ghost use Rattle.pix_format.specs.declared.format.Format.TheVariants.{B1, B4};
ghost use Rattle.surf_obj.specs.Layout.{row_bytes, pixel_in};
ghost use Rattle.surf_obj.specs.InnerBytes.{ChangesOnly, KeepsAfter};

use crate::bytes::{bit, with_bit, with_high, with_low};
use crate::units::{Four, One, Three, Two, WholeBytes};
use pix_format::Format;

/// The value of a pixel.
pub fn get_value(bits: &[u8], at: usize, format: Format, x: usize) -> u32
    requires { at + row_bytes format (x + 1) ≤ length bits.now }
    ensures value { result ≡ pixel_in format bits.now at x }
    ensures fits { result < 2 ^ bits_of format }
{
    match format {
        Format::B1 => bit(bits[at + x / 8], 7 - (x % 8) as u32),
        Format::B4 => half(bits[at + x / 2], x % 2 == 0),
        Format::B8 => One::get(bits, at, x),
        Format::B555 | Format::B565 => Two::get(bits, at, x),
        Format::B24 => Three::get(bits, at, x),
        Format::B32 => Four::get(bits, at, x),
    }
}

/// The high or the low half of a byte.
fn half(byte: u8, high: bool) -> u32
    ensures value { result ≡ (if high then byte / 16 else byte % 16) }
    ensures fits { result < 16 }
{
    if high {
        byte as u32 / 16
    } else {
        byte as u32 % 16
    }
}

/// Writes the value of a pixel.
pub fn put_value(bits: &mut [u8], at: usize, format: Format, x: usize, value: u32)
    requires room { at + row_bytes format (x + 1) ≤ length bits.old }
    requires value { value < 2 ^ bits_of format }
    ensures value { pixel_in format bits.new at x ≡ value }
    ensures others { (k : ℕ) → k ≢ x → pixel_in format bits.new at k ≡ pixel_in format bits.old at k }
    ensures bytes { ChangesOnly (at + x * bits_of format / 8) (at + row_bytes format (x + 1)) bits.old bits.new }
    ensures after { KeepsAfter at ((x + 1) * bits_of format) bits.old bits.new }
{
    match format {
        Format::B1 => put_bit(bits, at, x, value),
        Format::B4 => put_half(bits, at, x, value),
        Format::B8 => One::put(bits, at, x, value),
        Format::B555 | Format::B565 => Two::put(bits, at, x, value),
        Format::B24 => Three::put(bits, at, x, value),
        Format::B32 => Four::put(bits, at, x, value),
    }
}

/// Writes a pixel of one bit.
fn put_bit(bits: &mut [u8], at: usize, x: usize, value: u32)
    requires room { at + x / 8 < length bits.old }
    requires value { value < 2 }
    ensures value { pixel_in B1 bits.new at x ≡ value }
    ensures others { (k : ℕ) → k ≢ x → pixel_in B1 bits.new at k ≡ pixel_in B1 bits.old at k }
    ensures bytes { ChangesOnly (at + x / 8) (at + x / 8 + 1) bits.old bits.new }
    ensures after { KeepsAfter at (x + 1) bits.old bits.new }
{
    let byte = at + x / 8;
    bits[byte] = with_bit(bits[byte], 7 - (x % 8) as u32, value);
}

/// Writes a pixel of four bits.
fn put_half(bits: &mut [u8], at: usize, x: usize, value: u32)
    requires room { at + x / 2 < length bits.old }
    requires value { value < 16 }
    ensures value { pixel_in B4 bits.new at x ≡ value }
    ensures others { (k : ℕ) → k ≢ x → pixel_in B4 bits.new at k ≡ pixel_in B4 bits.old at k }
    ensures bytes { ChangesOnly (at + x / 2) (at + x / 2 + 1) bits.old bits.new }
    ensures after { KeepsAfter at (4 * (x + 1)) bits.old bits.new }
{
    let byte = at + x / 2;
    if x % 2 == 0 {
        bits[byte] = with_high(bits[byte], value);
    } else {
        bits[byte] = with_low(bits[byte], value);
    }
}
