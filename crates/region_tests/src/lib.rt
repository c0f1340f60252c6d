//! Regions near their limit, for tests; and the tests of regions: how they are made, moved, cut and asked, and the four operations.
//!
//! The tests hold small regions against answers worked out by hand, and those at the limit against numbers.
#![tactic(auto)]

ghost use Rattle.std.specs.Prelude.{◌<◌, ℤ, List, IfOk};
ghost use Rattle.geom_base.specs.declared.rect.Rect.{Rect};
ghost use Rattle.region.specs.Builder.{HasRows};

use geom_base::Rect;
use region::{RegionBuilder, Span};
use std::alloc::{AllocError, Global};

#[cfg(test)]
mod regions;
#[cfg(test)]
mod tests;

/// A rectangle by its edges.
pub const fn rect(left: i32, top: i32, right: i32, bottom: i32) -> Rect {
    Rect {
        left,
        top,
        right,
        bottom,
    }
}

/// So many lines with gaps between them, and as many columns.
pub fn stripes(alloc: Global, count: u32) -> Result<(Vec<Rect>, Vec<Rect>), AllocError>
    requires { count < 1000 }
{
    let mut across = Vec::new(alloc);
    let mut down = Vec::new(alloc);
    for i in 0..count {
        let place = 2 * i as i32;
        across.push(rect(0, place, 140, place + 1))?;
        down.push(rect(place, 0, place + 1, 140))?;
    }
    Ok((across, down))
}

/// So many rows of one column, where every two are equal and the next two are not.
pub fn rows_in_pairs(alloc: Global, count: u32) -> Result<RegionBuilder, AllocError>
    requires { count < 10000 }
    ensures { IfOk result (λ r. (pushed : List Rect) × (end : ℤ) × HasRows pushed end r) }
{
    let mut builder = RegionBuilder::new(alloc);
    for i in 0..count {
        let left = (i / 2 % 2) as i32;
        let right = left + 1;
        builder.push_row(i as i32, i as i32 + 1, &[Span { left, right }])?;
    }
    Ok(builder)
}
