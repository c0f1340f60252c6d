//! Bytes and values side by side.

ghost use Rattle.std.specs.Prelude.{◌≡◌, ◌≤◌, ◌<◌, ◌+◌, ◌^◌, All, length};
ghost use Rattle.pix_format.specs.Value.{bits_of};
ghost use Rattle.surf_obj.specs.Layout.{row_bytes};

use super::*;
use geom_base::{Point, Rect, Size};
use pix_format::Format;
use std::process::Abort;
use std::test::Fail;

const ORIGIN: Point = Point { x: 0, y: 0 };

const ELEVEN: Size = Size { w: 11, h: 1 };

const FORMATS: [(Format, usize); 7] = [
    (Format::B1, 1),
    (Format::B4, 4),
    (Format::B8, 8),
    (Format::B555, 16),
    (Format::B565, 16),
    (Format::B24, 24),
    (Format::B32, 32),
];

const THREE: Size = Size { w: 3, h: 1 };

const DRAWN: [u8; 24] = [
    1, 0, 0, 2, 0, 0, 0, 0, 0, 0, 0, 0, 0, 0, 0, 5, 0, 0, 3, 2, 1, 0, 0, 0,
];

const FOUR: Size = Size { w: 4, h: 3 };

/// The two middle columns of the lower two rows of those.
const MIDDLE: Rect = Rect {
    left: 1,
    top: 1,
    right: 3,
    bottom: 3,
};

/// Reads three pixels of a row that takes all the bytes.
fn reads(rt: &impl Abort, format: Format, bytes: &[u8], want: [u32; 3])
    requires { length bytes.now ≤ 12 }
{
    match LentView::over(bytes, THREE, format, bytes.len() as u32, false) {
        Err(_) => panic!(rt; "refused"),
        Ok(view) => {
            let mut out = [0u32; 3];
            view.read_row(ORIGIN, &mut out);
            assert_eq!(rt; out, want);
            assert_eq!(rt; view.get(Point { x: 2, y: 0 }), want[2]);
        }
    }
}

#[test]
fn each_format_is_read_from_its_bytes(rt: HostRuntime) {
    reads(&rt, Format::B1, &[0xa0], [1, 0, 1]);
    reads(&rt, Format::B4, &[0x12, 0x3f], [1, 2, 3]);
    reads(&rt, Format::B8, &[1, 2, 3], [1, 2, 3]);
    let pairs = [0x34, 0x12, 0, 0x80, 1, 0];
    reads(&rt, Format::B555, &pairs, [0x1234, 0x8000, 1]);
    reads(&rt, Format::B565, &pairs, [0x1234, 0x8000, 1]);
    let triples = [0x33, 0x22, 0x11, 0xff, 0, 0, 0, 0, 0xff];
    reads(&rt, Format::B24, &triples, [0x112233, 0xff, 0xff0000]);
    let quads = [0x78, 0x56, 0x34, 0x12, 0, 0, 0, 0x80, 1, 0, 0, 0];
    reads(&rt, Format::B32, &quads, [0x12345678, 0x80000000, 1]);
}

/// Draws through `over`: the first bytes are then these, and all others stay.
fn writes(rt: &impl Abort, format: Format, values: [u32; 3], want: &[u8])
    requires fits { All (λ v. v < 2 ^ bits_of format) values }
    requires some { length want.now ≤ 12 }
{
    let mut bytes = [0xffu8; 12];
    match LentSurf::over(&mut bytes, THREE, format, 12, false) {
        Err(_) => panic!(rt; "refused"),
        Ok(mut surface) => surface.write_row(ORIGIN, &values),
    }
    assert_eq!(rt; &bytes[..want.len()], want);
    assert!(rt; bytes[want.len()..].iter().all(|byte| *byte == 0xff));
}

#[test]
fn padding_stays_where_values_are_written(rt: HostRuntime) {
    writes(&rt, Format::B1, [0, 1, 0], &[0x5f]);
    writes(&rt, Format::B4, [1, 2, 3], &[0x12, 0x3f]);
    writes(&rt, Format::B8, [1, 2, 3], &[1, 2, 3]);
    let pairs = [0x34, 0x12, 0, 0x80, 1, 0];
    writes(&rt, Format::B565, [0x1234, 0x8000, 1], &pairs);
    let triples = [0x33, 0x22, 0x11, 0xff, 0, 0, 0, 0, 0xff];
    writes(&rt, Format::B24, [0x112233, 0xff, 0xff0000], &triples);
    let quads = [0x78, 0x56, 0x34, 0x12, 0, 0, 0, 0, 1, 0, 0, 0];
    writes(&rt, Format::B32, [0x12345678, 0, 1], &quads);
}

#[test]
fn bytes_that_are_refused_stay(rt: HostRuntime) {
    let mut bytes = [7u8; 10];
    let size = Size { w: 3, h: 3 };
    let short = LentSurf::over(&mut bytes, size, Format::B8, 4, false).is_err();
    let narrow = LentSurf::over(&mut bytes, size, Format::B8, 2, true).is_err();
    assert!(rt; short && narrow);
    assert_eq!(rt; bytes, [7; 10]);
}

#[test]
fn rows_of_a_surface_are_drawn_on_alone(rt: HostRuntime) {
    let size = Size { w: 2, h: 3 };
    let mut bytes = [1u8, 2, 99, 3, 4, 99, 5, 6, 99, 99];
    let mut rows = LentSurf::on(&mut bytes, Layout::new(size, Format::B8, 3, false)).into_rows(
        1, 1,
    );
    assert_eq!(rt; rows.get(Point { x: 1, y: 0 }), 4);
    rows.fill_row(ORIGIN, 2, 8);
    assert_eq!(rt; bytes, [1, 2, 99, 8, 8, 99, 5, 6, 99, 99]);
    let mut rows = LentSurf::on(&mut bytes, Layout::new(size, Format::B8, 3, true)).into_rows(0, 2);
    assert_eq!(rt; rows.scan0(), 6);
    rows.set(Point { x: 0, y: 0 }, 10);
    rows.write_row(Point { x: 0, y: 1 }, &[11, 12]);
    assert_eq!(rt; bytes, [1, 2, 99, 11, 12, 99, 10, 6, 99, 99]);
}

#[test]
fn the_lowest_row_is_first_from_the_bottom_up(rt: HostRuntime) {
    let mut bytes = [1, 2, 0, 0, 3, 4, 0, 0, 5, 6, 0, 0];
    let size = Size { w: 2, h: 3 };
    let mut surface = LentSurf::on(&mut bytes, Layout::new(size, Format::B8, 4, true));
    assert_eq!(rt; surface.scan0(), 8);
    assert_eq!(rt; surface.delta(), -4);
    assert_eq!(rt; surface.get(ORIGIN), 5);
    surface.set(Point { x: 1, y: 2 }, 9);
    surface.fill_row(Point { x: 0, y: 1 }, 2, 7);
    assert_eq!(rt; bytes, [1, 9, 0, 0, 7, 7, 0, 0, 5, 6, 0, 0]);
}

#[test]
fn a_stride_is_refused_before_a_length(rt: HostRuntime) {
    let size = Size { w: 3, h: 3 };
    assert_eq!(rt;
        refusal_of(10, size, Format::B8, 4),
        Some(SurfRefusal::Short {
            needed: 12,
            got: 10
        })
    );
    assert_eq!(rt;
        refusal_of(10, size, Format::B8, 2),
        Some(SurfRefusal::Stride { least: 3 })
    );
    assert_eq!(rt; refusal_of(12, size, Format::B8, 4), None);
}

#[test]
fn a_new_surface_is_blank_and_its_rows_are_padded(rt: HostRuntime) -> Result<(), Fail> {
    let size = Size { w: 3, h: 2 };
    let mut surface = SurfObj::new(rt.alloc(), size, Format::B24)?;
    assert_eq!(rt; surface.layout(), Layout::new(size, Format::B24, 12, false));
    assert_eq!(rt; surface.bits(), [0u8; 24].as_slice());
    {
        let mut lent = surface.lend();
        lent.set(Point { x: 2, y: 1 }, 0x010203);
        lent.write_row(ORIGIN, &[1, 2]);
        lent.fill_row(Point { x: 1, y: 1 }, 1, 5);
    }
    assert_eq!(rt; surface.bits(), DRAWN.as_slice());
    let mut row = [0; 3];
    surface.view().read_row(Point { x: 0, y: 1 }, &mut row);
    assert_eq!(rt; row, [0, 5, 0x010203]);
    assert_eq!(rt; surface.view().get(Point { x: 1, y: 0 }), 2);
    surface.bits_mut()[3] = 4;
    assert_eq!(rt; surface.view().get(Point { x: 1, y: 0 }), 4);
    Ok(())
}

/// The bit of a byte at a place, counted from the highest, set to a bit of a value; past the end nothing.
fn put_bit(bytes: &mut [u8], place: usize, bit: u32) {
    if let Some(byte) = bytes.get_mut(place / 8) {
        let mask = 128u8 >> (place % 8);
        if bit == 0 {
            *byte &= !mask;
        } else {
            *byte |= mask;
        }
    }
}

/// One pixel put into bytes, bit by bit: under 8 bits the first pixel is the highest, else the lowest byte is first.
fn put_plainly(bytes: &mut [u8], depth: usize, x: usize, value: u32)
    requires x { x < 16 }
    requires depth { depth ≤ 32 }
{
    for i in 0..depth {
        let bit = (value >> (depth - 1 - i)) & 1;
        put_bit(bytes, x * depth + (depth - 1 - i) / 8 * 8 + i % 8, bit);
    }
}

/// Values of a format, one more than the greatest run has.
fn sample(format: Format) -> [u32; 11]
    ensures { All (λ v. v < 2 ^ bits_of format) result }
{
    match format {
        Format::B1 => [1, 0, 1, 1, 0, 0, 1, 0, 1, 1, 1],
        Format::B4 => [9, 1, 15, 0, 6, 8, 3, 12, 7, 14, 5],
        Format::B8 => [0x81, 0, 0xff, 0x7e, 1, 0x80, 0x3c, 0xc3, 0x55, 0xaa, 0x0f],
        Format::B555 | Format::B565 => [
            0x8001, 0, 0xffff, 0x7ffe, 1, 0x8000, 0x1234, 0xfedc, 0x55aa, 0xaa55, 0x00ff,
        ],
        Format::B24 => [
            0x800001, 0, 0xffffff, 0x123456, 1, 0x800000, 0xfedcba, 0x0000ff, 0xff0000, 0x00ff00,
            0x55aa55,
        ],
        Format::B32 => [
            0x80000001, 0, 0xffffffff, 0x12345678, 1, 0x80000000, 0xfedcba98, 0xff, 0xff00,
            0xff0000, 0xff000000,
        ],
    }
}

/// Writes a run of a row of eleven pixels, and copies it from another row: the bytes are those of the plain way, and what is read
/// is what was written.
fn aligned(rt: &impl Abort, format: Format, depth: usize, x: u32, count: usize)
    requires depth { depth ≤ 32 }
    requires run { x + count ≤ 11 }
{
    let values = sample(format);
    let part = &values[x as usize..x as usize + count];
    let at = Point::at(x, 0);
    let layout = Layout::new(ELEVEN, format, 44, false);
    let mut read = [0u32; 11];
    let mut bytes = [0x5au8; 44];
    {
        let mut surface = LentSurf::on(&mut bytes, layout);
        surface.write_row(at, part);
        surface.read_row(at, &mut read[..count]);
    }
    let mut picture = [0xa5u8; 44];
    LentSurf::on(&mut picture, layout).write_row(ORIGIN, &values);
    let mut copied = [0x5au8; 44];
    let source = LentView::on(&picture, layout);
    LentSurf::on(&mut copied, layout).copy_row(at, count, &source, at);
    let mut plain = [0x5au8; 44];
    for i in 0..count {
        put_plainly(&mut plain, depth, x as usize + i, part[i]);
    }
    assert_eq!(rt;
        bytes.as_slice(),
        plain.as_slice(),
        "{format:?} from {x}, {count}"
    );
    assert_eq!(rt;
        copied.as_slice(),
        plain.as_slice(),
        "{format:?} from {x}, {count}"
    );
    assert_eq!(rt; &read[..count], part, "{format:?} from {x}, {count}");
}

#[test]
fn every_alignment_of_a_short_row(rt: HostRuntime) {
    for (format, depth) in FORMATS {
        for x in 0..11 {
            for count in 0..12 - x {
                aligned(&rt, format, depth, x, count as usize);
            }
        }
    }
}

#[test]
fn runs_move_within_a_row(rt: HostRuntime) {
    let mut bytes = [1, 2, 3, 4, 5, 6, 7, 8, 9, 10, 11];
    let mut surface = LentSurf::on(&mut bytes, Layout::new(ELEVEN, Format::B8, 11, false));
    surface.move_row(Point { x: 2, y: 0 }, 5, ORIGIN);
    surface.move_row(ORIGIN, 3, Point { x: 4, y: 0 });
    assert_eq!(rt; bytes, [3, 4, 5, 2, 3, 4, 5, 8, 9, 10, 11]);
}

/// Writes the middle of a surface of equal bytes, in both directions: the two rows then have these bytes, all others are as before,
/// and what is read is what was written.
fn middle(rt: &impl Abort, format: Format, values: [u32; 4], one: &[u8], two: &[u8])
    requires fits { All (λ v. v < 2 ^ bits_of format) values }
    requires same { length two.now ≡ length one.now }
    requires wide { row_bytes format 4 ≤ length one.now }
    requires short { length one.now ≤ 17 }
{
    let stride = one.len();
    for bottom_up in [false, true] {
        let layout = Layout::new(FOUR, format, stride as u32, bottom_up);
        let mut bytes = [0x5au8; 51];
        write_rect_on(&mut bytes, layout, &MIDDLE, &values);
        let (lower, upper) = if bottom_up {
            (0, 2 * stride)
        } else {
            (2 * stride, 0)
        };
        assert_eq!(rt; &bytes[stride..2 * stride], one, "{format:?}");
        assert_eq!(rt; &bytes[lower..lower + stride], two, "{format:?}");
        assert!(rt;
            bytes[upper..upper + stride]
                .iter()
                .all(|byte| *byte == 0x5a)
        );
        assert!(rt; bytes[3 * stride..].iter().all(|byte| *byte == 0x5a));
        let mut read = [0u32; 4];
        read_rect_on(&bytes, layout, &MIDDLE, &mut read);
        assert_eq!(rt; read, values, "{format:?}");
    }
}

#[test]
fn a_rectangle_is_its_values_row_by_row(rt: HostRuntime) {
    middle(&rt, Format::B1, [0, 1, 0, 0], &[0x3a, 0x5a], &[0x1a, 0x5a]);
    middle(
        &rt,
        Format::B4,
        [1, 2, 15, 0],
        &[0x51, 0x2a, 0x5a],
        &[0x5f, 0x0a, 0x5a],
    );
    let one = [0x5a, 1, 0xff, 0x5a, 0x5a];
    let two = [0x5a, 0x80, 7, 0x5a, 0x5a];
    middle(&rt, Format::B8, [1, 0xff, 0x80, 7], &one, &two);
    let one = [0x5a, 0x5a, 0x34, 0x12, 0, 0x80, 0x5a, 0x5a, 0x5a];
    let two = [0x5a, 0x5a, 1, 0, 0xff, 0x7f, 0x5a, 0x5a, 0x5a];
    middle(&rt, Format::B555, [0x1234, 0x8000, 1, 0x7fff], &one, &two);
    let one = [0x5a, 0x5a, 0, 0xf8, 0xe0, 7, 0x5a, 0x5a, 0x5a];
    let two = [0x5a, 0x5a, 0x1f, 0, 0xff, 0xff, 0x5a, 0x5a, 0x5a];
    middle(
        &rt,
        Format::B565,
        [0xf800, 0x07e0, 0x1f, 0xffff],
        &one,
        &two,
    );
}

#[test]
fn a_rectangle_of_wide_pixels_is_its_values(rt: HostRuntime) {
    let one = [
        0x5a, 0x5a, 0x5a, 0x33, 0x22, 0x11, 0xff, 0, 0, 0x5a, 0x5a, 0x5a, 0x5a,
    ];
    let two = [
        0x5a, 0x5a, 0x5a, 0, 0, 0xff, 3, 2, 1, 0x5a, 0x5a, 0x5a, 0x5a,
    ];
    middle(
        &rt,
        Format::B24,
        [0x112233, 0xff, 0xff0000, 0x010203],
        &one,
        &two,
    );
    let one = [
        0x5a, 0x5a, 0x5a, 0x5a, 0x78, 0x56, 0x34, 0x12, 0, 0, 0, 0x80, 0x5a, 0x5a, 0x5a, 0x5a, 0x5a,
    ];
    let two = [
        0x5a, 0x5a, 0x5a, 0x5a, 1, 0, 0, 0, 0xfc, 0xfd, 0xfe, 0xff, 0x5a, 0x5a, 0x5a, 0x5a, 0x5a,
    ];
    middle(
        &rt,
        Format::B32,
        [0x12345678, 0x80000000, 1, 0xfffefdfc],
        &one,
        &two,
    );
}
