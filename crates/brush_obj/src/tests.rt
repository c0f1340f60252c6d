//! Brushes and calls by the tables that define them, and by values that were worked out by hand.

use crate::{BltCall, BrushObj, BrushRefusal, CopyCall, Hatch, Ink, MOST_VALUES, PaintCall};
use geom_base::{Point, Rect, Size, Target};
use pix_format::{ColourTable, Format, Rgb};
use rop_mix::{Mix, Rop4};
use std::alloc::AllocError;

const BLACK: Rgb = Rgb { r: 0, g: 0, b: 0 };

const WHITE: Rgb = Rgb {
    r: 0xff,
    g: 0xff,
    b: 0xff,
};

const RED: Rgb = Rgb {
    r: 0xff,
    g: 0,
    b: 0,
};

const ORIGIN: Point = Point { x: 0, y: 0 };

/// Each row as a byte, its first pixel the highest bit.
#[test]
fn points_of_hatches(rt: HostRuntime) -> Result<(), AllocError> {
    let table = ColourTable::standard(rt.alloc(), Format::B1)?;
    let rows = [
        (Hatch::Horizontal, [0, 0, 0, 0, 0xff, 0, 0, 0]),
        (Hatch::Vertical, [8, 8, 8, 8, 8, 8, 8, 8]),
        (Hatch::FDiagonal, [0x80, 0x40, 0x20, 0x10, 8, 4, 2, 1]),
        (Hatch::BDiagonal, [1, 2, 4, 8, 0x10, 0x20, 0x40, 0x80]),
        (Hatch::Cross, [8, 8, 8, 8, 0xff, 8, 8, 8]),
        (
            Hatch::DiagCross,
            [0x81, 0x42, 0x24, 0x18, 0x18, 0x24, 0x42, 0x81],
        ),
    ];
    for (kind, want) in rows {
        let brush = BrushObj::hatch(rt.alloc(), kind, WHITE, BLACK);
        let ink = Ink::ready(brush.face(), Format::B1, &table).expect(&rt, "hatches are ready");
        for y in 0..8 {
            let mut row = [0; 8];
            let at = Point {
                x: -16,
                y: y as i32 - 8,
            };
            ink.fill_row(ORIGIN, at, &mut row);
            let mut byte = 0;
            for value in row {
                byte = byte << 1 | value;
            }
            assert_eq!(rt; byte, want[y], "{kind:?} {y}");
        }
    }
    Ok(())
}

/// The falling diagonal of a tile that is moved.
#[test]
fn values_of_a_hatch(rt: HostRuntime) -> Result<(), AllocError> {
    let table = ColourTable::standard(rt.alloc(), Format::B8)?;
    let brush = BrushObj::hatch(rt.alloc(), Hatch::FDiagonal, RED, WHITE);
    let want = [
        0xff, 0xff, 0xff, 0xe0, 0xff, 0xff, 0xff, 0xff, 0xff, 0xff, 0xff, 0xe0,
    ];
    let mut room = [0; MOST_VALUES];
    let made = Ink::made(brush.face(), Format::B8, &table, &mut room);
    let ready = Ink::ready(brush.face(), Format::B8, &table).expect(&rt, "hatches are ready");
    for ink in [ready, made] {
        let mut row = [0; 12];
        ink.fill_row(Point { x: 3, y: -1 }, Point { x: -6, y: 1 }, &mut row);
        assert_eq!(rt; row, want);
    }
    Ok(())
}

/// The pattern 01 01 03, and where its columns fall.
#[test]
fn points_of_a_pattern(rt: HostRuntime) -> Result<(), AllocError> {
    let table = ColourTable::standard(rt.alloc(), Format::B8)?;
    let size = Size { w: 3, h: 1 };
    let made = BrushObj::pattern(rt.alloc(), size, Format::B8, &table, &[1, 1, 3], WHITE);
    let brush = made.expect(&rt, "the pattern is small");
    assert_eq!(rt; brush.face().size(), size);
    let rows = [
        (0, 0, [1, 1, 3, 1]),
        (0, -1, [3, 1, 1, 3]),
        (0, -3, [1, 1, 3, 1]),
        (1, 0, [3, 1, 1, 3]),
        (-1, 0, [1, 3, 1, 1]),
        (i32::MIN, i32::MAX, [1, 1, 3, 1]),
    ];
    let ink = Ink::ready(brush.face(), Format::B8, &table).expect(&rt, "its values are kept");
    for (origin, x, want) in rows {
        let mut row = [0; 4];
        let origin = Point { x: origin, y: -7 };
        let at = Point { x, y: 2 };
        ink.fill_row(origin, at, &mut row);
        assert_eq!(rt; row, want, "{x}");
        assert_eq!(rt; brush.value_at(Format::B8, &table, origin, at), want[0]);
    }
    Ok(())
}

/// A pattern of red and another colour on one bit, with red in force as background, and with white.
#[test]
fn a_pattern_in_one_bit(rt: HostRuntime) -> Result<(), AllocError> {
    let table = ColourTable::standard(rt.alloc(), Format::B8)?;
    let mono = ColourTable::standard(rt.alloc(), Format::B1)?;
    for (back, want) in [(RED, 1), (WHITE, 0)] {
        let size = Size { w: 1, h: 2 };
        let made = BrushObj::pattern(rt.alloc(), size, Format::B8, &table, &[0xe0, 0x1c], back);
        let brush = made.expect(&rt, "the pattern is small");
        assert_eq!(rt; brush.value_at(Format::B1, &mono, ORIGIN, ORIGIN), want);
        let below = Point { x: 0, y: 1 };
        assert_eq!(rt; brush.value_at(Format::B1, &mono, ORIGIN, below), 0);
        assert!(rt; Ink::ready(brush.face(), Format::B1, &mono).is_none());
        let mut room = [0; MOST_VALUES];
        let mut row = [7; 2];
        Ink::made(brush.face(), Format::B1, &mono, &mut room).fill_row(ORIGIN, ORIGIN, &mut row);
        assert_eq!(rt; row, [want, want]);
    }
    Ok(())
}

/// Why a brush was refused, if it was.
fn refusal_of(made: Result<BrushObj, BrushRefusal>) -> Option<BrushRefusal> {
    made.err()
}

#[test]
fn sides_of_patterns(rt: HostRuntime) -> Result<(), AllocError> {
    let table = ColourTable::standard(rt.alloc(), Format::B8)?;
    let wide = Size { w: 65, h: 1 };
    let made = BrushObj::pattern(rt.alloc(), wide, Format::B8, &table, &[0; 65], WHITE);
    assert_eq!(rt; refusal_of(made), Some(BrushRefusal::TooLarge(wide)));
    let high = Size { w: 1, h: 65 };
    let made = BrushObj::pattern(rt.alloc(), high, Format::B8, &table, &[0; 65], WHITE);
    assert_eq!(rt; refusal_of(made), Some(BrushRefusal::TooLarge(high)));
    let widest = Size { w: 64, h: 1 };
    let made = BrushObj::pattern(rt.alloc(), widest, Format::B8, &table, &[0; 64], WHITE);
    assert_eq!(rt; refusal_of(made), None);
    Ok(())
}

#[test]
fn slots_of_two_owners(rt: HostRuntime) -> Result<(), AllocError> {
    let table = ColourTable::standard(rt.alloc(), Format::B24)?;
    let mut brush = BrushObj::hatch(rt.alloc(), Hatch::Vertical, RED, BLACK);
    assert!(rt; brush.rbrush(0).is_none());
    let mut realised = brush.slot(rt.alloc(), 0)?;
    brush.face().realise(Format::B24, &table, &mut realised);
    assert_eq!(rt; realised.size(), Size { w: 8, h: 8 });
    let _other = brush.slot(rt.alloc(), 1)?;
    brush.keep(0, realised);
    assert!(rt; brush.rbrush(1).is_none());
    let mut row = [0; 3];
    let at = Point { x: 3, y: -1 };
    match brush.rbrush(0) {
        Some(kept) => {
            assert_eq!(rt; kept.values().len(), 64);
            Ink::realised(kept).fill_row(ORIGIN, at, &mut row);
        }
        None => assert!(rt; false),
    }
    assert_eq!(rt; row, [0, 0xff0000, 0]);
    let _again = brush.slot(rt.alloc(), 0)?;
    assert!(rt; brush.rbrush(0).is_none());
    Ok(())
}

#[test]
fn values_of_solid_brushes(rt: HostRuntime) -> Result<(), AllocError> {
    let table = ColourTable::standard(rt.alloc(), Format::B8)?;
    let solid = BrushObj::solid(rt.alloc(), RED);
    assert_eq!(rt; solid.face().size(), Size { w: 1, h: 1 });
    assert_eq!(rt; solid.solid_value(Format::B8, &table), Some(0xe0));
    assert_eq!(rt; solid.value_at(Format::B8, &table, ORIGIN, ORIGIN), 0xe0);
    let hatch = BrushObj::hatch(rt.alloc(), Hatch::Cross, RED, RED);
    assert_eq!(rt; hatch.solid_value(Format::B8, &table), None);
    Ok(())
}

#[test]
fn calls_as_raster_operations(rt: HostRuntime) {
    let rect = Rect {
        left: 1,
        top: 0,
        right: 4,
        bottom: 1,
    };
    let copy = CopyCall {
        target: Target::Screen,
        rect,
        held: Some(Target::Bitmap(3)),
        src: ORIGIN,
    };
    let want = BltCall {
        target: Target::Screen,
        rect,
        held: Some(Target::Bitmap(3)),
        src: ORIGIN,
        mask: ORIGIN,
        origin: ORIGIN,
        rop: Rop4 { code: 0xcccc },
    };
    assert_eq!(rt; copy.as_blt(), want);
    for (number, code) in [(6, 0x55), (7, 0x5a), (13, 0xf0)] {
        let mix = Mix::of(number).expect(&rt, "the number is from 1 to 16");
        let paint = PaintCall {
            target: Target::Screen,
            rect,
            origin: ORIGIN,
            mix,
        };
        assert_eq!(rt; paint.rop3(), code, "{number}");
    }
}
