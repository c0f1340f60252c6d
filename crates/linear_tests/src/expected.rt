//! What the calls give by definition.

use crate::calls::Kind;
use crate::props::BEFORE;
use geom_base::{Point, Rect};

/// What the screen shows after a call over all of it, row by row.
fn after(kind: Kind) -> [u8; 24] {
    match kind {
        Kind::Before => BEFORE,
        Kind::Paint => [0xff; 24],
        // the old value or the hatch but not both: red, 0xe0, on the diagonals, else white, 0xff
        Kind::Hatch => [
            0xf0, 0xee, 0xed, 0xec, 0xeb, 0xea, //
            0xdf, 0xc1, 0xdd, 0xdc, 0xdb, 0xda, //
            0xcf, 0xce, 0xd2, 0xcc, 0xcb, 0xd5, //
            0xbf, 0xbe, 0xbd, 0xa3, 0xa4, 0xba,
        ],
        // the source where the coordinates have an even sum
        Kind::Blt => [
            0xa0, 0x11, 0xa2, 0x13, 0xa4, 0x15, //
            0x20, 0xb1, 0x22, 0xb3, 0x24, 0xb5, //
            0xc0, 0x31, 0xc2, 0x33, 0xc4, 0x35, //
            0x40, 0xd1, 0x42, 0xd3, 0x44, 0xd5,
        ],
        // the source a point right and one down
        Kind::Copy => [
            0x10, 0x11, 0x12, 0x13, 0x14, 0x15, //
            0x20, 0xa0, 0xa1, 0xa2, 0xa3, 0xa4, //
            0x30, 0xb0, 0xb1, 0xb2, 0xb3, 0xb4, //
            0x40, 0xc0, 0xc1, 0xc2, 0xc3, 0xc4,
        ],
        // what the screen showed, a point right and one down
        Kind::Shift => [
            0x10, 0x11, 0x12, 0x13, 0x14, 0x15, //
            0x20, 0x10, 0x11, 0x12, 0x13, 0x14, //
            0x30, 0x20, 0x21, 0x22, 0x23, 0x24, //
            0x40, 0x30, 0x31, 0x32, 0x33, 0x34,
        ],
    }
}

/// Whether a point is in one of the rectangles.
fn covers(rects: &[Rect], p: Point) -> bool {
    for rect in rects {
        if rect.holds(p) {
            return true;
        }
    }
    false
}

/// What the screen shows where a call was drawn in these rectangles alone.
pub fn drawn_in(kind: Kind, rects: &[Rect]) -> [u32; 24] {
    let all = after(kind);
    let mut values = [0; 24];
    for place in 0..24 {
        let p = Point::at(place as u32 % 6, place as u32 / 6);
        let value = if covers(rects, p) {
            all[place]
        } else {
            BEFORE[place]
        };
        values[place] = u32::from(value);
    }
    values
}
