//! The formats whose values hold the channels.

ghost use Rattle.std.specs.Prelude.{◌≡◌, ◌<◌, ◌^◌};
ghost use Rattle.pix_format.specs.Packing as spec;

use crate::rgb::Rgb;

/// The high five bits of each channel, red highest.
pub fn packed555(colour: Rgb) -> u32
    ensures value { result ≡ spec.packed555 colour }
    ensures fits { result < 2 ^ 16 }
{
    u32::from(colour.r) / 8 * 1024 + u32::from(colour.g) / 8 * 32 + u32::from(colour.b) / 8
}

/// The high five bits of red, six of green and five of blue, red highest.
pub fn packed565(colour: Rgb) -> u32
    ensures value { result ≡ spec.packed565 colour }
    ensures fits { result < 2 ^ 16 }
{
    u32::from(colour.r) / 8 * 2048 + u32::from(colour.g) / 4 * 32 + u32::from(colour.b) / 8
}

/// A byte for each channel, red highest.
pub fn packed888(colour: Rgb) -> u32
    ensures value { result ≡ spec.packed888 colour }
    ensures colour { spec.unpacked888 result ≡ colour }
    ensures fits { result < 2 ^ 24 }
{
    u32::from(colour.r) * 65536 + u32::from(colour.g) * 256 + u32::from(colour.b)
}

/// The colour of three channels of five bits.
pub fn unpacked555(value: u32) -> Rgb
    ensures { result ≡ spec.unpacked555 value }
{
    Rgb {
        r: widened5(value / 1024 % 32),
        g: widened5(value / 32 % 32),
        b: widened5(value % 32),
    }
}

/// The colour of channels of five, six and five bits.
pub fn unpacked565(value: u32) -> Rgb
    ensures { result ≡ spec.unpacked565 value }
{
    Rgb {
        r: widened5(value / 2048 % 32),
        g: widened6(value / 32 % 64),
        b: widened5(value % 32),
    }
}

/// The colour of three bytes.
pub fn unpacked888(value: u32) -> Rgb
    ensures { result ≡ spec.unpacked888 value }
{
    Rgb {
        r: (value / 65536 % 256) as u8,
        g: (value / 256 % 256) as u8,
        b: (value % 256) as u8,
    }
}

fn widened5(channel: u32) -> u8
    requires { channel < 32 }
    ensures { result ≡ spec.widened5 channel }
{
    (channel * 8 + channel / 4) as u8
}

fn widened6(channel: u32) -> u8
    requires { channel < 64 }
    ensures { result ≡ spec.widened6 channel }
{
    (channel * 4 + channel / 16) as u8
}
