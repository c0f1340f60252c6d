//! How a surface keeps a pixel.

ghost use Rattle.std.specs.Prelude.{◌≡◌};
ghost use Rattle.pix_format.specs.Value.{bits_of, colours_of, digits_of};

/// How a surface keeps a pixel: the index of a colour in 1, 4 or 8 bits, or the channels red,
/// green and blue themselves, in 5, 5 and 5 bits, in 5, 6 and 5, or in 8 each.
#[derive(Clone, Copy, Debug, PartialEq, Eq)]
pub enum Format {
    B1,
    B4,
    B8,
    B555,
    B565,
    B24,
    B32,
}

impl Format {
    /// How many bits a value has.
    pub fn bits(self) -> u32
        ensures { result ≡ bits_of self }
    {
        match self {
            Format::B1 => 1,
            Format::B4 => 4,
            Format::B8 => 8,
            Format::B555 | Format::B565 => 16,
            Format::B24 => 24,
            Format::B32 => 32,
        }
    }

    /// How many colours its table has; none where a value holds the channels.
    pub fn colours(self) -> usize
        ensures { result ≡ colours_of self }
    {
        match self {
            Format::B1 => 2,
            Format::B4 => 16,
            Format::B8 => 256,
            Format::B555 | Format::B565 | Format::B24 | Format::B32 => 0,
        }
    }

    /// How many hexadecimal digits a value has in a dump.
    pub fn digits(self) -> u32
        ensures { result ≡ digits_of self }
    {
        match self {
            Format::B1 | Format::B4 => 1,
            Format::B8 => 2,
            Format::B555 | Format::B565 => 4,
            Format::B24 => 6,
            Format::B32 => 8,
        }
    }
}
