//! Rectangles in bands for which there is room.

ghost use Rattle.std.specs.Prelude.{◌≡◌, ◌<◌, ◌≤◌, ◌^◌, ◌*◌, pos, ◌≤ℤ◌, MatchOption};
ghost use Rattle.geom_base.specs.Points.{height_of, width_of};
ghost use Rattle.eng_calls.specs.InnerBands.{band_count, band_of, band_rows, bands_of, has_room};

use geom_base::Rect;

/// Whether there is room for all values of a rectangle.
fn has_room(rect: &Rect, room: usize) -> bool
    ensures { result ≡ has_room room rect.now }
{
    let width = rect.right.abs_diff(rect.left);
    let height = rect.bottom.abs_diff(rect.top);
    width as usize * height as usize <= room
}

/// How many rows a band of a rectangle has: all of them where there is room, and else one.
fn band_rows(rect: &Rect, room: usize) -> u32
    ensures { result ≡ band_rows room rect.now }
{
    if has_room(rect, room) {
        rect.bottom.abs_diff(rect.top)
    } else {
        1
    }
}

/// How many bands a rectangle has.
pub(crate) fn band_count(rect: &Rect, room: usize) -> u32
    ensures { result ≡ band_count room rect.now }
{
    if has_room(rect, room) {
        1
    } else {
        rect.bottom.abs_diff(rect.top)
    }
}

/// How many values a band of a rectangle has.
pub(crate) fn band_size(rect: &Rect, room: usize) -> usize
    ensures { result ≡ width_of rect.now * band_rows room rect.now }
{
    let width = rect.right.abs_diff(rect.left);
    width as usize * band_rows(rect, room) as usize
}

/// A band of a rectangle.
pub(crate) fn band_of(rect: &Rect, room: usize, k: u32) -> Rect
    requires top { pos 0 ≤ℤ rect.now.top }
    requires down { rect.now.top ≤ℤ rect.now.bottom }
    requires band { k < band_count room rect.now }
    ensures { result ≡ band_of room rect.now k }
{
    let rows = band_rows(rect, room);
    let top = rect.top + (k * rows) as i32;
    Rect {
        left: rect.left,
        top,
        right: rect.right,
        bottom: top + rows as i32,
    }
}

/// How many bands rectangles have together; none where that is no number of 64 bits.
pub fn bands_of(rects: &[Rect], room: usize) -> Option<u64>
    ensures { MatchOption result (2 ^ 64 ≤ bands_of room rects.now) (λ n. n ≡ bands_of room rects.now) }
{
    let mut bands: u64 = 0;
    for i in 0..rects.len() {
        bands = bands.checked_add(u64::from(band_count(&rects[i], room)))?;
    }
    Some(bands)
}

#[cfg(test)]
mod tests {
    use super::*;

    #[test]
    fn bands_by_room(rt: HostRuntime) {
        let rect = Rect {
            left: 1,
            top: 2,
            right: 5,
            bottom: 7,
        };
        for (room, size, bands) in [(20, 20, 2), (19, 4, 10), (4, 4, 10)] {
            assert_eq!(rt; band_size(&rect, room), size, "{room}");
            assert_eq!(rt; bands_of(&[rect, rect], room), Some(bands), "{room}");
        }
    }
}
