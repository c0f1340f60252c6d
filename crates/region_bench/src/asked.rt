//! What the words ask for.

use geom_base::{Point, Rect};
use region::{Region, RegionRefusal};
use std::alloc::{AllocError, Global};

/// The rectangles with these edges, four for each.
fn rects_of(alloc: Global, edges: &[i32]) -> Result<Vec<Rect>, AllocError> {
    let mut rects = Vec::new(alloc);
    for i in 0..edges.len() / 4 {
        rects.push(Rect {
            left: edges[4 * i],
            top: edges[4 * i + 1],
            right: edges[4 * i + 2],
            bottom: edges[4 * i + 3],
        })?;
    }
    Ok(rects)
}

/// How far a region is moved.
const BY: Point = Point { x: 1, y: 1 };

/// The result of the operation of a name; of another name, the first region made anew of its rectangles.
pub fn combined(
    alloc: Global,
    name: &str,
    first: &Region,
    second: &Region,
) -> Result<Region, RegionRefusal> {
    match name {
        "union" => first.union(alloc, second),
        "intersect" => first.intersect(alloc, second),
        "subtract" => first.subtract(alloc, second),
        "xor" => first.xor(alloc, second),
        "offset" if first.can_offset(BY) => first.offset(alloc, BY),
        _ => Region::from_rects(alloc, first.rects()),
    }
}

/// The operation on the region of so many of the rectangles with these edges and on that of the rest.
pub fn asked(
    alloc: Global,
    name: &str,
    count: u16,
    edges: &[i32],
) -> Result<Region, RegionRefusal> {
    let (first, second) = edges.split_at((4 * count as usize).min(edges.len()));
    let first = Region::from_rects(alloc, &rects_of(alloc, first)?)?;
    let second = Region::from_rects(alloc, &rects_of(alloc, second)?)?;
    combined(alloc, name, &first, &second)
}
