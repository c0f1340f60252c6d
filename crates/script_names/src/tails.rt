//! The words of a line's end, each read alike.

ghost use Rattle.std.specs.Prelude.{◌≤◌, All, IfOk, drop, length, map};
ghost use Rattle.script_words.specs.Asking.{ReadsAs, each};
ghost use Rattle.script_words.specs.Places.{AreCoordinates, colour_in};
ghost use Rattle.script_names.specs.Fields.{value_in};
ghost use Rattle.script_names.specs.Tails.{rects_from};

use crate::fields::value;
use geom_base::Rect;
use pix_format::{Format, Rgb};
use script_words::{ReadError, colour, rect, word};
use std::alloc::Global;

/// A colour for each word from number `from` on.
pub fn colours(alloc: Global, words: &[&[u8]], from: usize) -> Result<Vec<Rgb>, ReadError>
    requires { from ≤ length words.now }
    ensures { ReadsAs (λ v. v.items) result (each colour_in (drop from (map (λ w. w.now) words.now))) }
{
    let mut found = Vec::new(alloc);
    for i in from..words.len() {
        let one = colour(word(words, i))?;
        found.push(one)?;
    }
    Ok(found)
}

/// A rectangle for each four words from number `from` on.
pub fn rects(alloc: Global, words: &[&[u8]], from: usize) -> Result<Vec<Rect>, ReadError>
    requires { from ≤ length words.now }
    ensures value { ReadsAs (λ v. v.items) result (rects_from (drop from (map (λ w. w.now) words.now))) }
    ensures range { IfOk result (λ v. All AreCoordinates v.items) }
{
    let mut found = Vec::new(alloc);
    let mut i = from;
    while words.len() - i >= 4 {
        let one = rect(words, i)?;
        found.push(one)?;
        i += 4;
    }
    Ok(found)
}

/// A pixel value for each word from number `from` on.
pub fn values(
    alloc: Global,
    format: Format,
    words: &[&[u8]],
    from: usize,
) -> Result<Vec<u32>, ReadError>
    requires { from ≤ length words.now }
    ensures { ReadsAs (λ v. v.items) result (each (value_in format) (drop from (map (λ w. w.now) words.now))) }
{
    let mut found = Vec::new(alloc);
    for i in from..words.len() {
        let one = value(format, word(words, i))?;
        found.push(one)?;
    }
    Ok(found)
}
