//! What a raster operation needs, and whether it is given.

ghost use Rattle.std.specs.Prelude.{◌≡◌};
ghost use Rattle.script_read.specs.Drawing.{feed_from, needed_feed, needed_mask, is_brush, has_operands, is_mono_mask, is_bitmap, is_other, number_of_mask};

use rop_mix::{Rop4, needs_mask, needs_pattern, needs_source};
use script_names::Bitmap;
use script_orders::{BrushUse, Feed, Spot};

/// A source is read from the desk or from a bitmap.
pub fn feed_from(spot: Spot) -> Feed
    ensures { result ≡ feed_from spot }
{
    match spot {
        Spot::Desk => Feed::Desk,
        Spot::Bitmap(number) => Feed::Bitmap(number),
    }
}

/// The source, where it is needed.
pub fn needed_feed(needed: bool, source: Option<Spot>) -> Feed
    ensures { result ≡ needed_feed needed source }
{
    match source {
        Some(spot) if needed => feed_from(spot),
        _ => Feed::Nothing,
    }
}

/// The mask, where it is needed.
pub fn needed_mask(needed: bool, mask: Option<Bitmap>) -> Option<Bitmap>
    ensures { result ≡ needed_mask needed mask }
{
    if needed { mask } else { None }
}

/// A brush is given.
fn is_brush(brush: BrushUse) -> bool
    ensures { result ≡ is_brush brush }
{
    match brush {
        BrushUse::Nothing => false,
        _ => true,
    }
}

/// Source, mask and brush are given where the raster operation needs them.
pub fn has_operands(rop: Rop4, source: Option<Spot>, mask: Option<Bitmap>, brush: BrushUse) -> bool
    ensures { result ≡ has_operands rop.code source mask brush }
{
    (!needs_source(rop) || source.is_some())
        && (!needs_mask(rop) || mask.is_some())
        && (!needs_pattern(rop) || is_brush(brush))
}

/// A mask has one bit for each pixel.
pub fn is_mono_mask(mask: Option<Bitmap>) -> bool
    ensures { result ≡ is_mono_mask mask }
{
    match mask {
        Some(bitmap) => bitmap.format.bits() == 1,
        None => true,
    }
}

/// The bitmap of a number.
fn is_bitmap(spot: Spot, number: u32) -> bool
    ensures { result ≡ is_bitmap spot number }
{
    match spot {
        Spot::Desk => false,
        Spot::Bitmap(drawn) => drawn == number,
    }
}

/// A mask isn't what is drawn on.
pub fn is_other(target: Spot, mask: Option<Bitmap>) -> bool
    ensures { result ≡ is_other target mask }
{
    match mask {
        Some(bitmap) => !is_bitmap(target, bitmap.number),
        None => true,
    }
}

/// The number of a mask.
pub fn number_of_mask(mask: Option<Bitmap>) -> Option<u32>
    ensures { result ≡ number_of_mask mask }
{
    match mask {
        Some(bitmap) => Some(bitmap.number),
        None => None,
    }
}
