//! What a drawing reads of the desk's bitmaps.

ghost use Rattle.std.specs.Prelude.{◌≡◌, None, slice_index_or};
ghost use Rattle.std.specs.Option.{option_copied};
ghost use Rattle.desk_span.specs.InnerRouted.{lent_bitmap, mask_bitmap};

use crate::canvas::Canvas;
use crate::others::is_own;
use crate::pane::Pane;
use script_orders::{Feed, Spot};

/// The bitmap of a number, where it is there.
fn bitmap_of(bitmaps: &[Option<Canvas>], number: u32) -> Option<&Pane>
    ensures { option_copied result ≡ slice_index_or bitmaps.now number None }
{
    match bitmaps.get(number as usize) {
        Some(Some(bitmap)) => Some(bitmap.pane()),
        _ => None,
    }
}

/// The bitmap that a drawing takes its source from, where that is another than what is drawn on.
pub fn lent_bitmap<'a>(bitmaps: &'a [Option<Canvas>], spot: Spot, feed: &Feed) -> Option<&'a Pane>
    ensures { option_copied result ≡ lent_bitmap bitmaps.now spot feed.now }
{
    if is_own(spot, feed) {
        return None;
    }
    match feed {
        Feed::Bitmap(number) => bitmap_of(bitmaps, *number),
        _ => None,
    }
}

/// The bitmap that is a drawing's mask.
pub fn mask_bitmap(bitmaps: &[Option<Canvas>], mask: Option<u32>) -> Option<&Pane>
    ensures { option_copied result ≡ mask_bitmap bitmaps.now mask }
{
    match mask {
        Some(number) => bitmap_of(bitmaps, number),
        None => None,
    }
}
