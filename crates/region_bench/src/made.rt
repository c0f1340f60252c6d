//! Large regions.

use crate::asked::combined;
use geom_base::Rect;
use region::{Region, RegionRefusal};
use std::alloc::{AllocError, Global};

/// So many columns of one point, a point apart, in the rows from one to before another.
fn columns(alloc: Global, count: u16, top: i32, bottom: i32) -> Result<Vec<Rect>, AllocError> {
    let mut rects = Vec::new(alloc);
    for i in 0..count {
        let left = 2 * i as i32;
        rects.push(Rect {
            left,
            top,
            right: left + 1,
            bottom,
        })?;
    }
    Ok(rects)
}

/// So many columns in one row.
pub fn line(alloc: Global, count: u16) -> Result<Region, RegionRefusal> {
    Region::from_rects(alloc, &columns(alloc, count, 0, 1)?)
}

/// So many columns, a point apart, across as many rows.
pub fn grid(alloc: Global, count: u16) -> Result<Region, RegionRefusal> {
    let side = 2 * count as i32;
    let mut rects = columns(alloc, count, 0, side)?;
    add_rows(&mut rects, count, side)?;
    Region::from_rects(alloc, &rects)
}

/// Adds so many rows of one point, a point apart.
fn add_rows(rects: &mut Vec<Rect>, count: u16, right: i32) -> Result<(), AllocError> {
    for i in 0..count {
        let top = 2 * i as i32;
        rects.push(Rect {
            left: 0,
            top,
            right,
            bottom: top + 1,
        })?;
    }
    Ok(())
}

/// The operation on so many columns and on those right below them.
pub fn stacked(alloc: Global, name: &str, count: u16) -> Result<Region, RegionRefusal> {
    let above = Region::from_rects(alloc, &columns(alloc, count, 0, 1)?)?;
    let below = Region::from_rects(alloc, &columns(alloc, count, 1, 2)?)?;
    combined(alloc, name, &above, &below)
}
