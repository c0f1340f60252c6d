//! The commands.

ghost use Rattle.std.specs.Prelude.{◌≡◌, ◌≤◌, IsTrue, length, map, Ok, Err};
ghost use Rattle.script_read.specs.Commands.{spelling_of, all_verbs, verb_among, brush_fits, region_fits, count_fits};

use script_names::operation_named;
use script_words::{Refusal, word};

/// A command.
#[derive(Clone, Copy, PartialEq, Eq, Debug)]
pub enum Verb {
    Back,
    Bitmap,
    Blt,
    Brush,
    Brushorg,
    Clip,
    Copy,
    Delete,
    Dump,
    Paint,
    Pixels,
    Region,
    Sum,
    Table,
}

/// All commands.
const VERBS: [Verb; 14] = [
    Verb::Back,
    Verb::Bitmap,
    Verb::Blt,
    Verb::Brush,
    Verb::Brushorg,
    Verb::Clip,
    Verb::Copy,
    Verb::Delete,
    Verb::Dump,
    Verb::Paint,
    Verb::Pixels,
    Verb::Region,
    Verb::Sum,
    Verb::Table,
];

/// The word of a command.
fn spelling(verb: Verb) -> &'static [u8]
    ensures { result.now ≡ spelling_of verb }
{
    match verb {
        Verb::Back => b"back",
        Verb::Bitmap => b"bitmap",
        Verb::Blt => b"blt",
        Verb::Brush => b"brush",
        Verb::Brushorg => b"brushorg",
        Verb::Clip => b"clip",
        Verb::Copy => b"copy",
        Verb::Delete => b"delete",
        Verb::Dump => b"dump",
        Verb::Paint => b"paint",
        Verb::Pixels => b"pixels",
        Verb::Region => b"region",
        Verb::Sum => b"sum",
        Verb::Table => b"table",
    }
}

/// The command that a word names.
pub fn verb_of(word: &[u8]) -> Result<Verb, Refusal>
    ensures { result ≡ verb_among all_verbs word.now }
{
    for verb in VERBS {
        if spelling(verb) == word {
            return Ok(verb);
        }
    }
    Err(Refusal::UnknownCommand)
}

/// A brush of this form has so many words. The number isn't asked where the word is no form.
fn fits_brush(form: &[u8], count: usize) -> bool
    ensures value { result ≡ brush_fits form.now count }
    ensures least { IsTrue result → 2 ≤ count }
{
    if form == b"solid".as_slice() {
        count == 4
    } else if form == b"hatch".as_slice() {
        count == 6
    } else if form == b"pattern".as_slice() {
        count == 4
    } else {
        count >= 3
    }
}

/// A region of this form has so many words. The number isn't asked where the word is no form.
fn fits_region(form: &[u8], count: usize) -> bool
    ensures value { result ≡ region_fits form.now count }
    ensures least { IsTrue result → 3 ≤ count }
{
    if form == b"rects".as_slice() {
        count >= 3 && (count - 3).is_multiple_of(4)
    } else if form == b"offset".as_slice() {
        count == 6
    } else if operation_named(form).is_some() {
        count == 5
    } else {
        count >= 3
    }
}

/// A line of the command has so many words.
pub fn fits_count(verb: Verb, words: &[&[u8]]) -> bool
    ensures value { result ≡ count_fits verb (map (λ w. w.now) words.now) }
    ensures least { IsTrue result → 2 ≤ length words.now }
    ensures form { IsTrue result → verb ≡ Verb.Region → 3 ≤ length words.now }
{
    let count = words.len();
    match verb {
        Verb::Back => count == 2,
        Verb::Bitmap => count == 5 || count == 6,
        Verb::Blt => count == 14,
        Verb::Brush => fits_brush(word(words, 2), count),
        Verb::Brushorg => count == 3,
        Verb::Clip => count == 2,
        Verb::Copy => count == 9,
        Verb::Delete => count == 2,
        Verb::Dump => count == 2,
        Verb::Paint => count == 8,
        Verb::Pixels => count >= 5,
        Verb::Region => fits_region(word(words, 2), count),
        Verb::Sum => count == 2,
        Verb::Table => count == 4 || count == 18 || count == 258,
    }
}
