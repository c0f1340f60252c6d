//! What the calls give by definition.

use crate::calls::{FROM, Kind};
use crate::picture::{BITMAP, Picture, SCREEN, SOURCE};
use crate::stage::value_in;
use geom_base::{DrawnList, Point, PortAnswer, Rect, Target};
use mem_port::MemPort;
use pix_format::Format;
use std::process::Abort;

/// A call, the format of the source that it is lent, and that of the targets: either the same, or from 8 bits to 32.
#[derive(Clone, Copy, Debug, PartialEq, Eq)]
pub struct Case {
    pub kind: Kind,
    pub from: Format,
    pub format: Format,
}

/// What a call left: the port, the rectangles that were pushed, and the answer.
#[derive(Drop)]
pub struct Outcome {
    pub port: MemPort,
    pub drawn: DrawnList,
    pub answer: PortAnswer,
}

/// The values of white and of red, or of what is nearest.
fn colours(format: Format) -> (u32, u32) {
    match format {
        Format::B1 => (1, 0),
        Format::B4 => (0xf, 0x5),
        Format::B8 => (0xff, 0xe0),
        Format::B555 => (0x7fff, 0x7c00),
        Format::B565 => (0xffff, 0xf800),
        Format::B24 | Format::B32 => (0xff_ffff, 0xff_0000),
    }
}

/// A hatch of both diagonals of the screen in red, else white.
fn hatched(format: Format, x: u32, y: u32) -> u32 {
    let (white, red) = colours(format);
    if x == y || x.wrapping_add(y) == 7 {
        red
    } else {
        white
    }
}

/// A channel of three bits as one of eight: its bits over again.
fn widened(channel: u32) -> u32 {
    (channel << 5) | (channel << 2) | (channel >> 1)
}

/// The channels of an index of 8 bits, red in the three highest bits, green in the next and blue in the two lowest.
fn channels(index: u32) -> u32 {
    let blue = (index & 3).wrapping_mul(0x55);
    (widened(index >> 5) << 16) | (widened((index >> 2) & 7) << 8) | blue
}

/// The value of a picture at a point.
fn value_of(picture: Picture, format: Format, x: u32, y: u32) -> u32 {
    picture.value(format, y.wrapping_mul(8).wrapping_add(x))
}

/// The value of a picture for a point that gets it a point right and two down, or none outside.
fn moved(picture: Picture, format: Format, x: u32, y: u32) -> Option<u32> {
    let left = x.wrapping_sub(FROM.x.unsigned_abs());
    let top = y.wrapping_sub(FROM.y.unsigned_abs());
    if left >= 8 || top >= 8 {
        return None;
    }
    Some(value_of(picture, format, left, top))
}

/// The old value where the source is set, else the pattern.
fn combined(pattern: u32, source: u32, old: u32) -> u32 {
    (source & old) | (pattern & !source)
}

impl Case {
    /// A value of the source as one of the targets.
    fn kept(&self, value: u32) -> u32 {
        if self.from == self.format {
            value
        } else {
            channels(value)
        }
    }

    /// The source's value for a point that gets it a point right and two down, or none outside.
    fn source(&self, x: u32, y: u32) -> Option<u32> {
        let value = moved(SOURCE, self.from, x, y)?;
        Some(self.kept(value))
    }

    /// In white: where the mask is set either white or the old value, else one of them by the source.
    fn masked(&self, x: u32, y: u32, old: u32) -> u32 {
        let (white, _) = colours(self.format);
        match self.source(x, y) {
            None => old,
            Some(_) if x.wrapping_add(y) % 2 == 0 => old ^ white,
            Some(source) => combined(white, source, old),
        }
    }

    /// The hatch or the old value by the source.
    fn mixed(&self, x: u32, y: u32, old: u32) -> u32 {
        match self.source(x, y) {
            None => old,
            Some(source) => combined(hatched(self.format, x, y), source, old),
        }
    }

    /// The value that the call gives a point of the screen.
    fn new_value(&self, x: u32, y: u32, old: u32) -> u32 {
        match self.kind {
            Kind::Paint => colours(self.format).0,
            Kind::Hatch => old ^ hatched(self.format, x, y),
            Kind::Copy => self.source(x, y).unwrap_or(old),
            Kind::Whole => self.kept(value_of(SOURCE, self.from, x, y)),
            Kind::Overlap => moved(SCREEN, self.format, x, y).unwrap_or(old),
            Kind::Across => moved(BITMAP, self.format, x, y).unwrap_or(old),
            Kind::Masked => self.masked(x, y, old),
            Kind::Mixed => self.mixed(x, y, old),
        }
    }
}

/// Whether a point is in one of the rectangles.
pub fn covers(rects: &[Rect], p: Point) -> bool {
    for rect in rects {
        if rect.holds(p) {
            return true;
        }
    }
    false
}

/// The points that were pushed have the new values, and all others of both targets the old ones.
pub fn check_pixels(rt: &impl Abort, case: Case, outcome: &Outcome, turn: u64) {
    let screen = outcome.port.pixels(Target::Screen);
    let bitmap = outcome.port.pixels(Target::Bitmap(1));
    for y in 0..8 {
        for x in 0..8 {
            let p = Point::at(x, y);
            let old = value_of(SCREEN, case.format, x, y);
            let want = if covers(outcome.drawn.rects(), p) {
                case.new_value(x, y, old)
            } else {
                old
            };
            let got = value_in(&screen, p);
            assert_eq!(rt; got, Some(want), "{case:?} {x} {y} at call {turn}");
            let beside = value_of(BITMAP, case.format, x, y);
            assert_eq!(rt; value_in(&bitmap, p), Some(beside), "{case:?} {x} {y}");
        }
    }
}

/// On a wide screen of 8 bits the points that were pushed are white, and all others as they were.
pub fn check_wide(rt: &impl Abort, outcome: &Outcome) {
    let screen = outcome.port.pixels(Target::Screen);
    for y in 0..5 {
        for x in 0..2_052 {
            let p = Point::at(x, y);
            let want = if covers(outcome.drawn.rects(), p) {
                0xff
            } else {
                SCREEN.value(Format::B8, y * 2_052 + x)
            };
            assert_eq!(rt; value_in(&screen, p), Some(want), "{x} {y}");
        }
    }
}
