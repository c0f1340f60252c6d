//! What a brush is made of.

ghost use Rattle.std.specs.Prelude.{◌≡◌, map};
ghost use Rattle.script_names.specs.Names.{names_of};
ghost use Rattle.script_names.specs.Fields.{solid_in, hatched_in, pattern_in, face_in};

use crate::fields::hatch;
use crate::names::Names;
use brush_obj::MOST_PATTERN_SIDE;
use script_orders::FaceOrder;
use script_words::{Refusal, colour, word};

/// What a line asks a brush to be made of.
#[derive(Clone, Copy, Debug, PartialEq, Eq)]
pub struct FaceAsked {
    pub face: FaceOrder,
    /// No side of a pattern is too long.
    pub fits: bool,
}

/// solid C
fn solid(words: &[&[u8]]) -> Result<FaceAsked, Refusal>
    ensures { result ≡ solid_in (map (λ w. w.now) words.now) }
{
    let colour = colour(word(words, 3))?;
    Ok(FaceAsked {
        face: FaceOrder::Solid(colour),
        fits: true,
    })
}

/// hatch KIND FORE BACK
fn hatched(words: &[&[u8]]) -> Result<FaceAsked, Refusal>
    ensures { result ≡ hatched_in (map (λ w. w.now) words.now) }
{
    let kind = hatch(word(words, 3))?;
    let fore = colour(word(words, 4))?;
    let back = colour(word(words, 5))?;
    Ok(FaceAsked {
        face: FaceOrder::Hatch(kind, fore, back),
        fits: true,
    })
}

/// pattern BITMAP
fn pattern(names: &Names<'_>, words: &[&[u8]]) -> Result<FaceAsked, Refusal>
    ensures { result ≡ pattern_in (names_of names.now) (map (λ w. w.now) words.now) }
{
    let bitmap = names.bitmap(word(words, 3))?;
    let face = FaceOrder::Pattern {
        bitmap: bitmap.number,
    };
    let fits = bitmap.size.w <= MOST_PATTERN_SIDE && bitmap.size.h <= MOST_PATTERN_SIDE;
    Ok(FaceAsked { face, fits })
}

/// What a brush is made of, by the words from its third on.
pub fn face(names: &Names<'_>, words: &[&[u8]]) -> Result<FaceAsked, Refusal>
    ensures { result ≡ face_in (names_of names.now) (map (λ w. w.now) words.now) }
{
    let form = word(words, 2);
    if form == b"solid".as_slice() {
        solid(words)
    } else if form == b"hatch".as_slice() {
        hatched(words)
    } else if form == b"pattern".as_slice() {
        pattern(names, words)
    } else {
        Err(Refusal::Spelling)
    }
}
