//! Copies, raster operations and paints whose outcomes an independent model gave.

ghost use Rattle.std.specs.Prelude.{◌≡◌, ◌≤◌, IfSome, None};
ghost use Rattle.geom_base.specs.Points.{LiesIn};
ghost use Rattle.pix_format.specs.Value.{bits_of};
ghost use Rattle.pix_format.specs.declared.format.Format.TheVariants.{B8};
ghost use Rattle.surf_obj.specs.View.{view_format};

use crate::{bit_blt_rect, copy_rect, paint_rect};
use brush_obj::{BltCall, BrushObj, CopyCall, Hatch, PaintCall};
use geom_base::{Point, Rect, Size, Target};
use pix_format::{ColourTable, Format, Rgb, XlateObj};
use rop_mix::{Mix, Rop4};
use std::alloc::{AllocError, Global};
use std::process::Abort;
use surf_obj::{Layout, LentSurf, LentView};

const WHITE: Rgb = Rgb {
    r: 0xff,
    g: 0xff,
    b: 0xff,
};

const RED: Rgb = Rgb {
    r: 0xff,
    g: 0,
    b: 0,
};

const BLUE: Rgb = Rgb {
    r: 0,
    g: 0,
    b: 0xff,
};

const ORIGIN: Point = Point { x: 0, y: 0 };

const SIZE: Size = Size { w: 4, h: 3 };

const WIDE: Size = Size { w: 10, h: 2 };

/// Four by three pixels of eight bits.
const PICTURE: [u8; 12] = [
    0x11, 0x12, 0x13, 0x14, 0x21, 0x22, 0x23, 0x24, 0x31, 0x32, 0x33, 0x34,
];

/// The same size in other values.
const OTHER: [u8; 12] = [
    0x51, 0x52, 0x53, 0x54, 0x61, 0x62, 0x63, 0x64, 0x71, 0x72, 0x73, 0x74,
];

/// Four by three pixels of one bit.
const MASK: [u8; 3] = [0xa0, 0x70, 0xd0];

fn rect(left: i32, top: i32, right: i32, bottom: i32) -> Rect
    ensures { result ≡ record { left = left; top = top; right = right; bottom = bottom } }
{
    Rect {
        left,
        top,
        right,
        bottom,
    }
}

/// The picture with a part copied within itself.
fn shifted(alloc: Global, rect: Rect, src: Point) -> Result<[u8; 12], AllocError>
    requires { LiesIn rect (record { w = 4; h = 3 }) }
{
    let table = ColourTable::standard(alloc, Format::B8)?;
    let xlate = XlateObj::build(alloc, Format::B8, &table, Format::B8, &table, WHITE)?;
    let mut bytes = PICTURE;
    let mut dst = LentSurf::on(&mut bytes, Layout::new(SIZE, Format::B8, 4, false));
    let call = CopyCall {
        target: Target::Screen,
        rect,
        held: Some(Target::Screen),
        src,
    };
    copy_rect(&mut dst, rect, &call, None, &xlate);
    Ok(bytes)
}

#[test]
fn overlaps_in_four_directions(rt: HostRuntime) -> Result<(), AllocError> {
    let alloc = rt.alloc();
    let to_right = shifted(alloc, rect(1, 0, 4, 3), ORIGIN)?;
    assert_eq!(rt;
        to_right,
        [
            0x11, 0x11, 0x12, 0x13, 0x21, 0x21, 0x22, 0x23, 0x31, 0x31, 0x32, 0x33
        ]
    );
    let to_left = shifted(alloc, rect(0, 0, 3, 3), Point { x: 1, y: 0 })?;
    assert_eq!(rt;
        to_left,
        [
            0x12, 0x13, 0x14, 0x14, 0x22, 0x23, 0x24, 0x24, 0x32, 0x33, 0x34, 0x34
        ]
    );
    let down = shifted(alloc, rect(0, 1, 3, 3), Point { x: 1, y: 0 })?;
    assert_eq!(rt;
        down,
        [
            0x11, 0x12, 0x13, 0x14, 0x12, 0x13, 0x14, 0x24, 0x22, 0x23, 0x24, 0x34
        ]
    );
    let up = shifted(alloc, rect(1, 0, 4, 2), Point { x: 0, y: 1 })?;
    assert_eq!(rt;
        up,
        [
            0x11, 0x21, 0x22, 0x23, 0x21, 0x31, 0x32, 0x33, 0x31, 0x32, 0x33, 0x34
        ]
    );
    Ok(())
}

/// Twelve zero bytes with a copy of a surface of four columns.
fn copied(
    alloc: Global,
    source: &LentView<'_>,
    from: Format,
    to: Format,
    rect: Rect,
    src: Point,
) -> Result<[u8; 12], AllocError>
    requires from { view_format source.now ≡ from }
    requires rect { LiesIn rect (record { w = 4; h = 3 }) }
    requires narrow { bits_of to ≤ 8 }
{
    let from_table = ColourTable::standard(alloc, from)?;
    let to_table = ColourTable::standard(alloc, to)?;
    let xlate = XlateObj::build(alloc, from, &from_table, to, &to_table, WHITE)?;
    let mut bytes = [0; 12];
    let mut dst = LentSurf::on(&mut bytes, Layout::new(SIZE, to, 4, false));
    let call = CopyCall {
        target: Target::Screen,
        rect,
        held: None,
        src,
    };
    copy_rect(&mut dst, rect, &call, Some(source), &xlate);
    Ok(bytes)
}

#[test]
fn points_that_the_source_lacks(rt: HostRuntime) -> Result<(), AllocError> {
    let view = LentView::on(&PICTURE, Layout::new(SIZE, Format::B8, 4, false));
    let got = copied(
        rt.alloc(),
        &view,
        Format::B8,
        Format::B8,
        rect(0, 0, 4, 3),
        Point { x: -1, y: 1 },
    )?;
    assert_eq!(rt; got, [0, 0x21, 0x22, 0x23, 0, 0x31, 0x32, 0x33, 0, 0, 0, 0]);
    Ok(())
}

#[test]
fn copies_between_formats(rt: HostRuntime) -> Result<(), AllocError> {
    let bytes = [0x17, 0xf8, 0x9a, 0xbc];
    let view = LentView::on(
        &bytes,
        Layout::new(Size { w: 4, h: 2 }, Format::B4, 2, false),
    );
    let part = rect(0, 0, 4, 2);
    let bytewise = copied(rt.alloc(), &view, Format::B4, Format::B8, part, ORIGIN)?;
    assert_eq!(rt;
        bytewise,
        [0x00, 0x6d, 0xff, 0x92, 0x92, 0xb6, 0xb6, 0xda, 0, 0, 0, 0]
    );
    let mono = copied(rt.alloc(), &view, Format::B4, Format::B1, part, ORIGIN)?;
    assert_eq!(rt; mono, [0x20, 0, 0, 0, 0, 0, 0, 0, 0, 0, 0, 0]);
    Ok(())
}

#[test]
fn bits_at_one_place_of_a_byte_and_at_another(rt: HostRuntime) -> Result<(), AllocError> {
    let view = LentView::on(&MASK, Layout::new(SIZE, Format::B1, 1, false));
    let whole = rect(0, 0, 4, 3);
    let same = copied(rt.alloc(), &view, Format::B1, Format::B1, whole, ORIGIN)?;
    assert_eq!(rt; same, [0xa0, 0, 0, 0, 0x70, 0, 0, 0, 0xd0, 0, 0, 0]);
    let at = Point { x: 1, y: 0 };
    let moved = copied(rt.alloc(), &view, Format::B1, Format::B1, whole, at)?;
    assert_eq!(rt; moved, [0x40, 0, 0, 0, 0xe0, 0, 0, 0, 0xa0, 0, 0, 0]);
    Ok(())
}

/// The other picture after a raster operation with a source that is lent or held, and a mask.
fn combined(
    alloc: Global,
    rect: Rect,
    lent: Option<&LentView<'_>>,
    mask: Option<&LentView<'_>>,
    at: Point,
    code: u16,
) -> Result<[u8; 12], AllocError>
    requires rect { LiesIn rect (record { w = 4; h = 3 }) }
    requires lent { IfSome lent (λ v. view_format v.now ≡ B8) }
{
    let table = ColourTable::standard(alloc, Format::B8)?;
    let xlate = XlateObj::build(alloc, Format::B8, &table, Format::B8, &table, WHITE)?;
    let brush = BrushObj::solid(alloc, WHITE);
    let mut bytes = OTHER;
    let mut dst = LentSurf::on(&mut bytes, Layout::new(SIZE, Format::B8, 4, false));
    let call = BltCall {
        target: Target::Screen,
        rect,
        held: Some(Target::Screen),
        src: ORIGIN,
        mask: at,
        origin: ORIGIN,
        rop: Rop4::of(code),
    };
    bit_blt_rect(&mut dst, rect, &call, lent, mask, &xlate, &table, &brush);
    Ok(bytes)
}

#[test]
fn masks_and_held_sources(rt: HostRuntime) -> Result<(), AllocError> {
    let source = LentView::on(&PICTURE, Layout::new(SIZE, Format::B8, 4, false));
    let mask = LentView::on(&MASK, Layout::new(SIZE, Format::B1, 1, false));
    let masked = combined(
        rt.alloc(),
        rect(0, 0, 4, 3),
        Some(&source),
        Some(&mask),
        Point { x: 1, y: 1 },
        0xaacc,
    )?;
    assert_eq!(rt;
        masked,
        [
            0x11, 0x12, 0x13, 0x54, 0x21, 0x62, 0x23, 0x64, 0x71, 0x72, 0x73, 0x74
        ]
    );
    let crossed = combined(rt.alloc(), rect(0, 1, 4, 3), None, None, ORIGIN, 0x6666)?;
    assert_eq!(rt;
        crossed,
        [
            0x51, 0x52, 0x53, 0x54, 0x30, 0x30, 0x30, 0x30, 0x10, 0x10, 0x10, 0x10
        ]
    );
    Ok(())
}

#[test]
fn rows_of_three_bytes_a_pixel(rt: HostRuntime) -> Result<(), AllocError> {
    let colour = Rgb {
        r: 0x12,
        g: 0x34,
        b: 0x56,
    };
    let table = ColourTable::standard(rt.alloc(), Format::B24)?;
    let brush = BrushObj::solid(rt.alloc(), colour);
    let mut bytes = [0; 24];
    let mut dst = LentSurf::on(
        &mut bytes,
        Layout::new(Size { w: 3, h: 2 }, Format::B24, 12, false),
    );
    let rect = rect(1, 0, 2, 2);
    let call = PaintCall {
        target: Target::Screen,
        rect,
        origin: ORIGIN,
        mix: Mix::of(13).expect(&rt, "the number is from 1 to 16"),
    };
    paint_rect(&mut dst, rect, &call, &table, &brush);
    let row = [0, 0, 0, 0x56, 0x34, 0x12, 0, 0, 0, 0, 0, 0];
    assert_eq!(rt; &bytes[..12], row.as_slice());
    assert_eq!(rt; &bytes[12..], row.as_slice());
    Ok(())
}

/// A paint of the whole target in a mix.
fn mixed(rt: &impl Abort, number: u8) -> PaintCall {
    PaintCall {
        target: Target::Screen,
        rect: rect(0, 0, 10, 2),
        origin: Point { x: 3, y: -4 },
        mix: Mix::of(number).expect(rt, "the number is from 1 to 16"),
    }
}

/// A raster operation on the whole target, without a source.
fn without_source(code: u16) -> BltCall
    ensures { result.held ≡ None }
{
    BltCall {
        target: Target::Screen,
        rect: rect(0, 0, 10, 2),
        held: None,
        src: ORIGIN,
        mask: ORIGIN,
        origin: Point { x: 3, y: -4 },
        rop: Rop4::of(code),
    }
}

/// Each step is drawn on what the one before left.
#[test]
fn hatches_and_mixes(rt: HostRuntime) -> Result<(), AllocError> {
    let alloc = rt.alloc();
    let table = ColourTable::standard(alloc, Format::B8)?;
    let xlate = XlateObj::build(alloc, Format::B8, &table, Format::B8, &table, WHITE)?;
    let hatch = BrushObj::hatch(alloc, Hatch::Cross, RED, BLUE);
    let white = BrushObj::solid(alloc, WHITE);
    let mut bytes = [0; 20];
    let mut dst = LentSurf::on(&mut bytes, Layout::new(WIDE, Format::B8, 10, false));
    paint_rect(&mut dst, rect(0, 0, 10, 2), &mixed(&rt, 13), &table, &hatch);
    paint_rect(&mut dst, rect(2, 1, 9, 2), &mixed(&rt, 7), &table, &white);
    bit_blt_rect(
        &mut dst,
        rect(1, 0, 8, 2),
        &without_source(0x5555),
        None,
        None,
        &xlate,
        &table,
        &hatch,
    );
    bit_blt_rect(
        &mut dst,
        rect(0, 0, 9, 1),
        &without_source(0xa0a0),
        None,
        None,
        &xlate,
        &table,
        &hatch,
    );
    let want = [
        0xe0, 0, 0, 0, 0, 0, 0, 0, 0xe0, 0xe0, 0x03, 0xfc, 0x03, 0x03, 0x03, 0x03, 0x03, 0xe0,
        0xfc, 0x03,
    ];
    assert_eq!(rt; bytes, want);
    Ok(())
}
