//! Calls over clips, against plain definitions.

ghost use Rattle.std.specs.Prelude.{◌≡◌, All, IfOk, length};
ghost use Rattle.geom_base.specs.Points.{LiesIn};

use super::*;
use brush_obj::{BltCall, BrushObj, CopyCall, DrawCall, PaintCall};
use clip_obj::ClipObj;
use geom_base::{Point, Rect, Size, Target};
use pix_format::{ColourTable, Format, Rgb, XlateObj};
use region::Region;
use rop_mix::{Mix, Rop4};
use std::alloc::{AllocError, Global};
use std::process::Abort;
use std::test::Fail;
use surf_obj::{Layout, LentSurf, LentView};

const WHITE: Rgb = Rgb {
    r: 0xff,
    g: 0xff,
    b: 0xff,
};

const ORIGIN: Point = Point { x: 0, y: 0 };

const SIZE: Size = Size { w: 8, h: 8 };

const WHOLE: Rect = Rect {
    left: 0,
    top: 0,
    right: 8,
    bottom: 8,
};

/// The rectangles of the clip: two bands of several rows, each with more than one.
fn parts() -> [Rect; 5] {
    [
        rect(1, 1, 3, 4),
        rect(4, 1, 7, 4),
        rect(0, 4, 2, 7),
        rect(3, 4, 5, 7),
        rect(6, 4, 8, 7),
    ]
}

fn rect(left: i32, top: i32, right: i32, bottom: i32) -> Rect {
    Rect {
        left,
        top,
        right,
        bottom,
    }
}

/// A clip of these rectangles in a surface of eight by eight pixels.
fn clip_of(alloc: Global, rects: &[Rect]) -> Result<ClipObj, Fail>
    ensures { IfOk result (λ c. All (λ r. LiesIn r (record { w = 8; h = 8 })) c.rects) }
{
    let region = Region::from_rects(alloc, rects)?;
    Ok(ClipObj::build(alloc, Some(&region), WHOLE)?)
}

/// Values that tell each pixel from every other.
fn picture() -> [u8; 64] {
    let mut bytes = [0; 64];
    for i in 0..64 {
        bytes[i] = i as u8 * 3 + 1;
    }
    bytes
}

fn is_clipped(x: i32, y: i32) -> bool {
    let p = Point { x, y };
    for part in parts() {
        if part.holds(p) {
            return true;
        }
    }
    false
}

/// The byte at a place of a picture, or none outside.
fn byte_at(bytes: &[u8; 64], x: i32, y: i32) -> Option<u8> {
    if x < 0 || y < 0 {
        return None;
    }
    if x >= 8 || y >= 8 {
        return None;
    }
    bytes
        .get(y.unsigned_abs() as usize * 8 + x.unsigned_abs() as usize)
        .copied()
}

/// What a copy of a picture within itself gives by definition: where the clip and the mask allow it, the byte that lay so far to
/// the left and above.
fn moved(from: &[u8; 64], right: i32, down: i32, allows: bool) -> [u8; 64] {
    let mut want = *from;
    for i in 0..64 {
        let x = (i % 8) as i32;
        let y = (i / 8) as i32;
        let chosen = allows || (x + y) % 2 == 0;
        let byte = byte_at(from, x.wrapping_sub(right), y.wrapping_sub(down));
        if let Some(byte) = byte {
            if chosen && is_clipped(x, y) {
                want[i] = byte;
            }
        }
    }
    want
}

/// The copy as the engine makes it.
fn copied(alloc: Global, right: i32, down: i32) -> Result<[u8; 64], Fail> {
    let mut clip = clip_of(alloc, &parts())?;
    let table = ColourTable::standard(alloc, Format::B8)?;
    let xlate = XlateObj::build(alloc, Format::B8, &table, Format::B8, &table, WHITE)?;
    let mut bytes = picture();
    let mut dst = LentSurf::on(&mut bytes, Layout::new(SIZE, Format::B8, 8, false));
    let call = CopyCall {
        target: Target::Screen,
        rect: WHOLE,
        held: Some(Target::Screen),
        src: Point {
            x: 0i32.wrapping_sub(right),
            y: 0i32.wrapping_sub(down),
        },
    };
    eng_copy_bits(&mut dst, &call, None, &xlate, &mut clip);
    Ok(bytes)
}

#[test]
fn copies_by_every_shift(rt: HostRuntime) -> Result<(), Fail> {
    for down in -3..4 {
        for right in -3..4 {
            let got = copied(rt.alloc(), right, down)?;
            assert_eq!(rt; got, moved(&picture(), right, down, true), "{right} {down}");
        }
    }
    Ok(())
}

/// A mask that allows the pixels whose coordinates have an even sum.
const MASK: [u8; 8] = [0xaa, 0x55, 0xaa, 0x55, 0xaa, 0x55, 0xaa, 0x55];

/// The same copy under a mask.
fn masked(alloc: Global, right: i32, down: i32) -> Result<[u8; 64], Fail> {
    let mut clip = clip_of(alloc, &parts())?;
    let table = ColourTable::standard(alloc, Format::B8)?;
    let xlate = XlateObj::build(alloc, Format::B8, &table, Format::B8, &table, WHITE)?;
    let brush = BrushObj::solid(alloc, WHITE);
    let mask = LentView::on(&MASK, Layout::new(SIZE, Format::B1, 1, false));
    let mut bytes = picture();
    let mut dst = LentSurf::on(&mut bytes, Layout::new(SIZE, Format::B8, 8, false));
    let call = BltCall {
        target: Target::Screen,
        rect: WHOLE,
        held: Some(Target::Screen),
        src: Point {
            x: 0i32.wrapping_sub(right),
            y: 0i32.wrapping_sub(down),
        },
        mask: ORIGIN,
        origin: ORIGIN,
        rop: Rop4::of(0xaacc),
    };
    eng_bit_blt(
        alloc,
        &mut dst,
        &call,
        None,
        Some(&mask),
        &xlate,
        &table,
        &brush,
        &mut clip,
    )?;
    Ok(bytes)
}

#[test]
fn masked_blts_by_every_shift(rt: HostRuntime) -> Result<(), Fail> {
    for down in -3..4 {
        for right in -3..4 {
            let got = masked(rt.alloc(), right, down)?;
            assert_eq!(rt;
                got,
                moved(&picture(), right, down, false),
                "{right} {down}"
            );
        }
    }
    Ok(())
}

/// A picture painted over in white where the clip allows it.
fn painted() -> [u8; 64] {
    let mut want = picture();
    for i in 0..64 {
        if is_clipped((i % 8) as i32, (i / 8) as i32) {
            want[i] = 0xff;
        }
    }
    want
}

/// The picture after a paint, by the engine's one call for all.
fn painted_by_any<'a>(
    alloc: Global,
    call: PaintCall,
    table: &'a ColourTable,
    brush: &'a BrushObj,
    clip: &mut ClipObj,
) -> Result<[u8; 64], AllocError>
    requires inside { All (λ r. LiesIn r (record { w = 8; h = 8 })) clip.old.rects }
    requires table { length table.now ≡ 256 }
{
    let inputs = Inputs {
        source: None,
        mask: None,
        xlate: None,
        table,
        brush: Some(brush),
    };
    let mut bytes = picture();
    let layout = Layout::new(SIZE, Format::B8, 8, false);
    eng_draw(
        alloc,
        &mut bytes,
        layout,
        &DrawCall::Paint(call),
        &inputs,
        clip,
    )?;
    Ok(bytes)
}

#[test]
fn paints_in_the_clip_alone(rt: HostRuntime) -> Result<(), Fail> {
    let alloc = rt.alloc();
    let mut clip = clip_of(alloc, &parts())?;
    let table = ColourTable::standard(alloc, Format::B8)?;
    let brush = BrushObj::solid(alloc, WHITE);
    let mut bytes = picture();
    let mut dst = LentSurf::on(&mut bytes, Layout::new(SIZE, Format::B8, 8, false));
    let call = PaintCall {
        target: Target::Screen,
        rect: WHOLE,
        origin: ORIGIN,
        mix: Mix::of(13).expect(&rt, "the number is from 1 to 16"),
    };
    eng_paint(&mut dst, &call, &table, &brush, &mut clip);
    assert_eq!(rt; bytes, painted());
    let again = painted_by_any(alloc, call, &table, &brush, &mut clip)?;
    assert_eq!(rt; again, painted());
    assert_eq!(rt; clip.count(), 5);
    Ok(())
}

/// More rectangles than one batch holds: every second pixel.
#[test]
fn many_rectangles(rt: HostRuntime) -> Result<(), Fail> {
    let alloc = rt.alloc();
    let mut dots = [WHOLE; 32];
    for i in 0..32 {
        let x = (i % 4 * 2 + i / 4 % 2) as i32;
        let y = (i / 4) as i32;
        dots[i] = rect(x, y, x + 1, y + 1);
    }
    let mut clip = clip_of(alloc, &dots)?;
    let table = ColourTable::standard(alloc, Format::B8)?;
    let brush = BrushObj::solid(alloc, WHITE);
    let mut bytes = [0; 64];
    let mut dst = LentSurf::on(&mut bytes, Layout::new(SIZE, Format::B8, 8, false));
    let call = PaintCall {
        target: Target::Screen,
        rect: WHOLE,
        origin: ORIGIN,
        mix: Mix::of(13).expect(&rt, "the number is from 1 to 16"),
    };
    eng_paint(&mut dst, &call, &table, &brush, &mut clip);
    for i in 0..64 {
        let want = if (i % 8 + i / 8) % 2 == 0 { 0xff } else { 0 };
        assert_eq!(rt; bytes[i], want, "{i}");
    }
    Ok(())
}
