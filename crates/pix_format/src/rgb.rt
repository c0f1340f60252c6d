//! Colours, and how far apart two are.

ghost use Rattle.std.specs.Prelude.{◌≡◌, ◌≤◌};
ghost use Rattle.pix_format.specs.Colour.{distance, squared_difference};

/// A colour by its channels.
#[derive(Clone, Copy, Debug, PartialEq, Eq)]
pub struct Rgb {
    pub r: u8,
    pub g: u8,
    pub b: u8,
}

impl Rgb {
    /// The part of the distance that red alone makes.
    pub(crate) fn red_distance(self, other: Rgb) -> u32
        ensures value { result ≡ squared_difference self.r other.r }
        ensures small { result ≤ 65025 }
    {
        squared_difference(self.r, other.r)
    }

    /// How far apart two colours are: the sum of the squared differences of their channels.
    pub(crate) fn distance(self, other: Rgb) -> u32
        ensures value { result ≡ distance self other }
        ensures small { result ≤ 195075 }
    {
        squared_difference(self.r, other.r)
            + squared_difference(self.g, other.g)
            + squared_difference(self.b, other.b)
    }
}

/// The square of the difference of two channels. It fits 16 bits, which makes loops over tables fast.
fn squared_difference(a: u8, b: u8) -> u32
    ensures value { result ≡ squared_difference a b }
    ensures small { result ≤ 65025 }
{
    let difference = u16::from(a.abs_diff(b));
    u32::from(difference * difference)
}
