//! Regions of a shape, on which an operation is done again and again.

ghost use Rattle.std.specs.Prelude.{◌≤ℤ◌, pos};

use crate::asked::combined;
use geom_base::Rect;
use region::{Region, RegionRefusal};
use std::alloc::{AllocError, Global};

/// How the rectangles of a region lie.
#[derive(Clone, Copy)]
pub enum Shape {
    /// One below the other.
    Rows,
    /// Side by side.
    Columns,
    /// Cells that touch at their corners, 64 in a row.
    Checkers,
    /// Columns with a bar below them.
    Combs,
}

/// The shape of a word.
pub fn shape_named(word: &str) -> Option<Shape> {
    match word {
        "rows" => Some(Shape::Rows),
        "columns" => Some(Shape::Columns),
        "checkers" => Some(Shape::Checkers),
        "combs" => Some(Shape::Combs),
        _ => None,
    }
}

/// The rectangle of so many columns and rows, from a point on.
fn rect_at(x: i32, y: i32, w: u8, h: u8) -> Rect
    requires x { x ≤ℤ pos 1048576 }
    requires y { y ≤ℤ pos 1048576 }
{
    Rect {
        left: x,
        top: y,
        right: x + i32::from(w),
        bottom: y + i32::from(h),
    }
}

/// Rectangle number k of a shape that stands so far from the corner.
fn rect_of(shape: Shape, k: u16, at: u8) -> Rect {
    let place = 4 * i32::from(k);
    let at = i32::from(at);
    match shape {
        Shape::Rows => rect_at(0, place + at, 100, 1),
        Shape::Columns => rect_at(place + at, 0, 1, 100),
        Shape::Checkers => {
            let row = i32::from(k / 64);
            rect_at(
                8 * i32::from(k % 64) + 4 * (row % 2) + at,
                4 * row + at,
                4,
                4,
            )
        }
        Shape::Combs => rect_at(place + at, at, 1, 100),
    }
}

/// So many rectangles of a shape.
fn rects_of(alloc: Global, shape: Shape, count: u16, at: u8) -> Result<Vec<Rect>, AllocError> {
    let mut rects = Vec::new(alloc);
    for k in 0..count {
        rects.push(rect_of(shape, k, at))?;
    }
    if let Shape::Combs = shape {
        let at = i32::from(at);
        rects.push(Rect {
            left: at,
            top: 100 + at,
            right: 4 * i32::from(count) + at,
            bottom: 101 + at,
        })?;
    }
    Ok(rects)
}

/// The operation of a name on two regions of a shape, so often; the last result.
pub fn repeated(
    alloc: Global,
    name: &str,
    shape: Shape,
    count: u16,
    times: i32,
) -> Result<Region, RegionRefusal> {
    let first = Region::from_rects(alloc, &rects_of(alloc, shape, count, 0)?)?;
    let second = Region::from_rects(alloc, &rects_of(alloc, shape, count, 2)?)?;
    let mut last = combined(alloc, name, &first, &second);
    for _ in 0..times {
        last = combined(alloc, name, &first, &second);
    }
    last
}
