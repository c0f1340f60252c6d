//! Pixels of one, two, three or four whole bytes, the lowest byte first.

ghost use Rattle.std.specs.Prelude.{◌≡◌, ◌≢◌, ◌≤◌, ◌<◌, ◌+◌, ◌*◌, ◌/◌, ◌^◌, ℕ, length};
ghost use Rattle.pix_format.specs.Value.{bits_of};
ghost use Rattle.pix_format.specs.declared.format.Format.{Format};
ghost use Rattle.pix_format.specs.declared.format.Format.TheVariants.{B8, B555, B24, B32};
ghost use Rattle.surf_obj.specs.Layout.{row_bytes, pixel_in};
ghost use Rattle.surf_obj.specs.InnerBytes.{ChangesOnly};

use byteorder::{ByteOrder, LittleEndian};

/// Pixels of so many whole bytes.
pub trait WholeBytes {
    /// A format that keeps them.
    ghost format: { Format };

    /// The value of pixel k of those that begin at a byte.
    fn get(bits: &[u8], at: usize, k: usize) -> u32
        requires { at + row_bytes format (k + 1) ≤ length bits.now }
        ensures value { result ≡ pixel_in format bits.now at k }
        ensures fits { result < 2 ^ bits_of format };

    /// Writes the value of pixel k.
    fn put(bits: &mut [u8], at: usize, k: usize, value: u32)
        requires room { at + row_bytes format (k + 1) ≤ length bits.old }
        requires value { value < 2 ^ bits_of format }
        ensures value { pixel_in format bits.new at k ≡ value }
        ensures others { (j : ℕ) → j ≢ k → pixel_in format bits.new at j ≡ pixel_in format bits.old at j }
        ensures bytes { ChangesOnly (at + k * bits_of format / 8) (at + row_bytes format (k + 1)) bits.old bits.new };
}

/// One byte.
pub struct One {}

impl WholeBytes for One {
    ghost format = { B8 };

    fn get(bits: &[u8], at: usize, k: usize) -> u32 {
        bits[at + k] as u32
    }

    fn put(bits: &mut [u8], at: usize, k: usize, value: u32) {
        bits[at + k] = value as u8;
    }
}

/// Two bytes.
pub struct Two {}

impl WholeBytes for Two {
    ghost format = { B555 };

    fn get(bits: &[u8], at: usize, k: usize) -> u32 {
        LittleEndian::read_u16(&bits[at + 2 * k..]) as u32
    }

    fn put(bits: &mut [u8], at: usize, k: usize, value: u32) {
        LittleEndian::write_u16(&mut bits[at + 2 * k..at + 2 * k + 2], value as u16);
    }
}

/// Three bytes.
pub struct Three {}

impl WholeBytes for Three {
    ghost format = { B24 };

    fn get(bits: &[u8], at: usize, k: usize) -> u32 {
        let first = at + 3 * k;
        bits[first] as u32 + 256 * bits[first + 1] as u32 + 65536 * bits[first + 2] as u32
    }

    fn put(bits: &mut [u8], at: usize, k: usize, value: u32) {
        let first = at + 3 * k;
        bits[first] = (value % 256) as u8;
        bits[first + 1] = (value / 256 % 256) as u8;
        bits[first + 2] = (value / 65536) as u8;
    }
}

/// Four bytes.
pub struct Four {}

impl WholeBytes for Four {
    ghost format = { B32 };

    fn get(bits: &[u8], at: usize, k: usize) -> u32 {
        LittleEndian::read_u32(&bits[at + 4 * k..])
    }

    fn put(bits: &mut [u8], at: usize, k: usize, value: u32) {
        put_four(bits, at + 4 * k, value);
    }
}

fn put_four(bits: &mut [u8], at: usize, value: u32)
    requires { at + 4 ≤ length bits.old }
    ensures value { pixel_in B32 bits.new at 0 ≡ value }
    ensures bytes { ChangesOnly at (at + 4) bits.old bits.new }
{
    LittleEndian::write_u32(&mut bits[at..at + 4], value);
}
