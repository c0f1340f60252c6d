//! Colours, points and rectangles.

ghost use Rattle.std.specs.Prelude.{◌≡◌, ◌<◌, ◌≤ℤ◌, ◌^◌, IfOk, map};
ghost use Rattle.script_words.specs.Bounds.{greatest_point};
ghost use Rattle.script_words.specs.Places.{rgb_of, colour_in, edge_in, rect_in, point_in, is_well_ordered, IsCoordinate, AreCoordinates};

use crate::bounds::{GREATEST_COORDINATE, GREATEST_POINT, LEAST_COORDINATE};
use crate::refusal::Refusal;
use crate::spelling::{hexadecimal, number};
use crate::splitting::word;
use geom_base::{Point, Rect};
use pix_format::Rgb;

/// The colour with these 24 bits.
fn rgb(bits: u32) -> Rgb
    requires { bits < 16 ^ 6 }
    ensures { result ≡ rgb_of bits }
{
    Rgb {
        r: (bits / 65536) as u8,
        g: (bits / 256 % 256) as u8,
        b: (bits % 256) as u8,
    }
}

/// RRGGBB.
pub fn colour(word: &[u8]) -> Result<Rgb, Refusal>
    ensures { result ≡ colour_in word.now }
{
    let bits = hexadecimal(word, 6)?;
    Ok(rgb(bits as u32))
}

/// An edge of a rectangle.
fn edge(word: &[u8]) -> Result<i32, Refusal>
    ensures value { result ≡ edge_in word.now }
    ensures range { IfOk result IsCoordinate }
{
    number(word, LEAST_COORDINATE, GREATEST_COORDINATE)
}

/// A rectangle of four words from number i on.
pub fn rect(words: &[&[u8]], i: usize) -> Result<Rect, Refusal>
    requires { i < 2 ^ 63 }
    ensures value { result ≡ rect_in (map (λ w. w.now) words.now) i }
    ensures range { IfOk result AreCoordinates }
{
    let left = edge(word(words, i))?;
    let top = edge(word(words, i + 1))?;
    let right = edge(word(words, i + 2))?;
    let bottom = edge(word(words, i + 3))?;
    Ok(Rect {
        left,
        top,
        right,
        bottom,
    })
}

/// A point of two words from number i on.
pub fn point(words: &[&[u8]], i: usize) -> Result<Point, Refusal>
    requires { i < 2 ^ 63 }
    ensures value { result ≡ point_in (map (λ w. w.now) words.now) i }
    ensures below { IfOk result (λ p. p.y ≤ℤ greatest_point) }
{
    let x = number(word(words, i), LEAST_COORDINATE, GREATEST_POINT)?;
    let y = number(word(words, i + 1), LEAST_COORDINATE, GREATEST_POINT)?;
    Ok(Point { x, y })
}

/// Left isn't right of right, and top isn't below bottom.
pub fn well_ordered(rect: &Rect) -> bool
    ensures { result ≡ is_well_ordered rect.now }
{
    rect.left <= rect.right && rect.top <= rect.bottom
}
