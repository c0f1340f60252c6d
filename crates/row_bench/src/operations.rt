//! The operations.

ghost use Rattle.std.specs.Prelude.{◌≡◌, false};
ghost use Rattle.surf_obj.specs.Layout.{layout_from};

use geom_base::{Point, Size};
use pix_format::{ColourTable, Format, Rgb, XlateObj};
use rop_mix::apply_row;
use std::alloc::{AllocError, Global};
use surf_obj::{Layout, LentSurf, LentView};

/// The pixels of a row.
const WIDTH: usize = 1024;

const ROW: Size = Size { w: 1024, h: 1 };

const START: Point = Point { x: 0, y: 0 };

const WHITE: Rgb = Rgb {
    r: 255,
    g: 255,
    b: 255,
};

/// Carries an operation out so often, and gives a number that depends on each time; `None` where there is no such operation.
pub fn repeated(alloc: Global, name: &str, count: u32) -> Result<Option<u32>, AllocError> {
    Ok(match name {
        "rop-66" => Some(combined(0x66, count)),
        "rop-b8" => Some(combined(0xb8, count)),
        "rop-1e" => Some(combined(0x1e, count)),
        "read-1" => Some(read(Format::B1, count)),
        "read-4" => Some(read(Format::B4, count)),
        "read-8" => Some(read(Format::B8, count)),
        "read-16" => Some(read(Format::B565, count)),
        "read-24" => Some(read(Format::B24, count)),
        "read-32" => Some(read(Format::B32, count)),
        "both-1" => Some(written(Format::B1, count)),
        "both-4" => Some(written(Format::B4, count)),
        "both-8" => Some(written(Format::B8, count)),
        "both-16" => Some(written(Format::B565, count)),
        "both-24" => Some(written(Format::B24, count)),
        "both-32" => Some(written(Format::B32, count)),
        "xlate-8-32" => Some(translated(alloc, Format::B8, Format::B32, count)?),
        "xlate-565-32" => Some(translated(alloc, Format::B565, Format::B32, count)?),
        "xlate-32-565" => Some(translated(alloc, Format::B32, Format::B565, count)?),
        "xlate-24-32" => Some(translated(alloc, Format::B24, Format::B32, count)?),
        "xlate-32-8" => Some(translated(alloc, Format::B32, Format::B8, count)?),
        _ => None,
    })
}

/// A raster operation on rows of numbers.
fn combined(code: u8, count: u32) -> u32 {
    let pattern = [0x0f0f_3355u32; WIDTH];
    let source = [0x1234_5678u32; WIDTH];
    let mut target = [0u32; WIDTH];
    let mut sum = 0u32;
    for _ in 0..count {
        apply_row(code, &pattern, &source, &mut target, 32);
        sum = sum.wrapping_mul(31).wrapping_add(target[5]);
    }
    sum
}

/// The layout of a row of a format.
fn row_layout(format: Format) -> Layout
    ensures { result ≡ layout_from (record { w = 1024; h = 1 }) format 4096 false }
{
    Layout::new(ROW, format, 4096, false)
}

/// A row of a surface, read.
fn read(format: Format, count: u32) -> u32 {
    let layout = row_layout(format);
    let mut bits = [0x5au8; 4096];
    let mut values = [0u32; WIDTH];
    let mut sum = 0u32;
    for i in 0..count {
        bits[7] = (i & 0x7f) as u8;
        LentView::on(&bits, layout).read_row(START, &mut values);
        sum = sum.wrapping_mul(31).wrapping_add(values[9]);
    }
    sum
}

/// A row of a surface, read and written back.
fn written(format: Format, count: u32) -> u32 {
    let layout = row_layout(format);
    let mut bits = [0x5au8; 4096];
    let mut values = [0u32; WIDTH];
    let mut sum = 0u32;
    for i in 0..count {
        bits[7] = (i & 0x7f) as u8;
        let mut surface = LentSurf::on(&mut bits, layout);
        surface.read_row(START, &mut values);
        surface.write_row(START, &values);
        sum = sum.wrapping_mul(31).wrapping_add(values[9]);
    }
    sum
}

/// A row of a surface, read and translated.
fn translated(alloc: Global, from: Format, to: Format, count: u32) -> Result<u32, AllocError> {
    let from_table = ColourTable::standard(alloc, from)?;
    let to_table = ColourTable::standard(alloc, to)?;
    let xlate = XlateObj::build(alloc, from, &from_table, to, &to_table, WHITE)?;
    let layout = row_layout(from);
    let mut bits = [0x5au8; 4096];
    let mut values = [0u32; WIDTH];
    let mut sum = 0u32;
    for i in 0..count {
        bits[7] = (i & 0x7f) as u8;
        LentView::on(&bits, layout).read_row(START, &mut values);
        xlate.xlate_row(&mut values);
        sum = sum.wrapping_mul(31).wrapping_add(values[9]);
    }
    Ok(sum)
}
