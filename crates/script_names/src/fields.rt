//! One word of a line, where names count.

ghost use Rattle.std.specs.Prelude.{◌≡◌, ◌<◌, ◌≤◌, ◌^◌, ◌==◌, OnOk, length};
ghost use Rattle.std.specs.Str.{bytes_eq};
ghost use Rattle.script_words.specs.Asking.{ReadsAs};
ghost use Rattle.script_words.specs.Bounds.{most_name_bytes};
ghost use Rattle.script_names.specs.Names.{names_of};
ghost use Rattle.script_names.specs.Fields.{new_name, spot_in, clip_in, is_dash, spot_or_none};
ghost use Rattle.script_names.specs.Fields.{bitmap_or_none, brush_in, brush_or_none, format_in, value_in, hatch_in, mix_in, named_in};

use crate::entry::{Bitmap, Entry};
use crate::names::Names;
use brush_obj::Hatch;
use pix_format::Format;
use rop_mix::Mix;
use script_orders::{BrushUse, Named, NamedRegion, Spot};
use script_words::{ReadError, Refusal, colour, count, hexadecimal, is_name};

/// A name that is to be made: its spelling is asked first, and then whether it is free.
pub fn new_name(names: &Names<'_>, word: &[u8]) -> Result<(), Refusal>
    ensures value { result ≡ new_name (names_of names.now) word.now }
    ensures short { OnOk result (length word.now ≤ most_name_bytes) }
{
    if !is_name(word) {
        return Err(Refusal::BadName);
    }
    if names.get(word).is_some() {
        return Err(Refusal::NameInUse);
    }
    Ok(())
}

/// What is drawn on, or read: the desk or a bitmap.
pub fn spot(names: &Names<'_>, word: &[u8]) -> Result<Spot, Refusal>
    ensures { result ≡ spot_in (names_of names.now) word.now }
{
    match names.get(word) {
        Some(Entry::Screen) => Ok(Spot::Desk),
        Some(Entry::Bitmap(bitmap)) => Ok(Spot::Bitmap(bitmap.number)),
        _ => Err(Refusal::UnknownName),
    }
}

/// A clip: none, or a region.
pub fn clip(names: &Names<'_>, word: &[u8]) -> Result<Option<NamedRegion>, ReadError>
    ensures { ReadsAs (λ c. c) result (clip_in (names_of names.now) word.now) }
{
    match names.get(word) {
        Some(Entry::NoClip) => Ok(None),
        Some(Entry::Region(region)) => Ok(Some(region.shared()?)),
        _ => Err(ReadError::Refused(Refusal::UnknownName)),
    }
}

/// The word for what isn't given.
fn is_dash(word: &[u8]) -> bool
    ensures { result ≡ is_dash word.now }
{
    word == b"-".as_slice()
}

/// A source that may be left out.
pub fn spot_or_none(names: &Names<'_>, word: &[u8]) -> Result<Option<Spot>, Refusal>
    ensures { result ≡ spot_or_none (names_of names.now) word.now }
{
    if is_dash(word) {
        return Ok(None);
    }
    let spot = spot(names, word)?;
    Ok(Some(spot))
}

/// A mask that may be left out.
pub fn bitmap_or_none(names: &Names<'_>, word: &[u8]) -> Result<Option<Bitmap>, Refusal>
    ensures { result ≡ bitmap_or_none (names_of names.now) word.now }
{
    if is_dash(word) {
        return Ok(None);
    }
    let bitmap = names.bitmap(word)?;
    Ok(Some(bitmap))
}

/// A colour behind a #, which is a solid brush, or a brush's name.
pub fn brush(names: &Names<'_>, word: &[u8]) -> Result<BrushUse, Refusal>
    ensures { result ≡ brush_in (names_of names.now) word.now }
{
    if let [b'#', digits @ ..] = word {
        return Ok(BrushUse::Colour(colour(digits)?));
    }
    match names.get(word) {
        Some(Entry::Brush(number)) => Ok(BrushUse::Made(*number)),
        _ => Err(Refusal::UnknownName),
    }
}

/// A brush that may be left out.
pub fn brush_or_none(names: &Names<'_>, word: &[u8]) -> Result<BrushUse, Refusal>
    ensures { result ≡ brush_or_none (names_of names.now) word.now }
{
    if is_dash(word) {
        return Ok(BrushUse::Nothing);
    }
    brush(names, word)
}

/// How a bitmap keeps its pixels.
pub fn format(word: &[u8]) -> Result<Format, Refusal>
    ensures { result ≡ format_in word.now }
{
    if word == b"1".as_slice() {
        Ok(Format::B1)
    } else if word == b"4".as_slice() {
        Ok(Format::B4)
    } else if word == b"8".as_slice() {
        Ok(Format::B8)
    } else if word == b"555".as_slice() {
        Ok(Format::B555)
    } else if word == b"565".as_slice() {
        Ok(Format::B565)
    } else if word == b"24".as_slice() {
        Ok(Format::B24)
    } else if word == b"32".as_slice() {
        Ok(Format::B32)
    } else {
        Err(Refusal::Spelling)
    }
}

/// A pixel value with as many digits as a dump prints. A value of one bit is 0 or 1.
pub fn value(format: Format, word: &[u8]) -> Result<u32, Refusal>
    ensures { result ≡ value_in format word.now }
{
    let value = hexadecimal(word, format.digits() as usize)?;
    if format.bits() == 1 && value > 1 {
        return Err(Refusal::Spelling);
    }
    Ok(value as u32)
}

/// A mix by its number.
pub fn mix(word: &[u8]) -> Result<Mix, Refusal>
    ensures { result ≡ mix_in word.now }
{
    let number = count(word, 1, 16)?;
    match Mix::of(number as u8) {
        Some(mix) => Ok(mix),
        None => Err(Refusal::Range),
    }
}

/// The kind of a hatch.
pub fn hatch(word: &[u8]) -> Result<Hatch, Refusal>
    ensures { result ≡ hatch_in word.now }
{
    if word == b"horizontal".as_slice() {
        Ok(Hatch::Horizontal)
    } else if word == b"vertical".as_slice() {
        Ok(Hatch::Vertical)
    } else if word == b"fdiagonal".as_slice() {
        Ok(Hatch::FDiagonal)
    } else if word == b"bdiagonal".as_slice() {
        Ok(Hatch::BDiagonal)
    } else if word == b"cross".as_slice() {
        Ok(Hatch::Cross)
    } else if word == b"diagcross".as_slice() {
        Ok(Hatch::DiagCross)
    } else {
        Err(Refusal::Spelling)
    }
}

/// The one screen by its number, or a bitmap by its name, which begins with a letter.
pub fn named(names: &Names<'_>, word: &[u8]) -> Result<Named, Refusal>
    ensures { result ≡ named_in (names_of names.now) word.now }
{
    if word.first().is_some_and(|b| b.is_ascii_alphabetic()) {
        let bitmap = names.bitmap(word)?;
        return Ok(Named::Bitmap(bitmap.number));
    }
    let screen = count(word, 0, 0)?;
    Ok(Named::Screen(screen))
}
