//! The union of two regions, rows after rows.

ghost use Rattle.std.specs.Prelude.{◌≡◌, ◌||◌, ℤ, [], IfOk, MatchOption};
ghost use Rattle.geom_base.specs.Points.{is_in_some};
ghost use Rattle.region.specs.Order.{IsInOrder};
ghost use Rattle.region.specs.InnerUnion.{first_top, next_edge, AreNextRows, HasPointsOf, IsBelow, IsSteady, IsTurn};

use crate::band_list::MOST_RECTS;
use crate::builder::RegionBuilder;
use crate::search::{Edge, count_until};
use geom_base::Rect;
use std::alloc::{AllocError, Global};

/// The first row that rectangles have, or the greatest coordinate where there are none.
fn first_top(rects: &[Rect]) -> i32
    ensures { result ≡ first_top rects.now }
{
    match rects {
        [] => i32::MAX,
        [first, ..] => first.top,
    }
}

/// The first row after one in which rectangles begin or end, or the greatest coordinate where there are none.
fn next_edge(rects: &[Rect], row: &i32) -> i32
    ensures { result ≡ next_edge row.now rects.now }
{
    match rects {
        [] => i32::MAX,
        [first, ..] if first.top <= *row => first.bottom,
        [first, ..] => first.top,
    }
}

/// The next rows, from one to before another, in which either has points, and has the same columns.
fn next_rows(a: &[Rect], b: &[Rect], row: &i32) -> Option<(i32, i32)>
    requires left { IsBelow row.now a.now }
    requires right { IsBelow row.now b.now }
    ensures { MatchOption result ((a.now ≡ []) × (b.now ≡ [])) (λ r. AreNextRows row.now a.now b.now r.0 r.1) }
{
    if a.is_empty() && b.is_empty() {
        return None;
    }
    let top = first_top(a).min(first_top(b)).max(*row);
    let bottom = next_edge(a, &top).min(next_edge(b, &top));
    Some((top, bottom))
}

/// The rectangles that have the rows from one to before another, and those that are left below.
fn turn<'a>(rects: &'a [Rect], top: &i32, bottom: &i32) -> (&'a [Rect], &'a [Rect])
    requires { (row : ℤ) × IsSteady row top.now bottom.now rects.now }
    ensures { (row : ℤ) → IsSteady row top.now bottom.now rects.now → IsTurn row top.now bottom.now rects.now result.0.now result.1.now }
{
    let (here, below) = rects.split_at(count_until(rects, Edge::Top, top));
    match here {
        [first, ..] if first.bottom <= *bottom => (here, below),
        _ => (here, rects),
    }
}

/// The points of either of the lists of two regions.
pub fn united(alloc: Global, left: &[Rect], right: &[Rect]) -> Result<RegionBuilder, AllocError>
    requires left { IsInOrder left.now }
    requires right { IsInOrder right.now }
    ensures { IfOk result (HasPointsOf (λ p. is_in_some p left.now || is_in_some p right.now)) }
{
    let mut builder = RegionBuilder::new(alloc);
    builder.reserve((2 * (left.len() + right.len())).min(MOST_RECTS as usize))?;
    let mut row = first_top(left).min(first_top(right));
    let mut a = left;
    let mut b = right;
    while let Some((top, bottom)) = next_rows(a, b, &row) {
        let (here_a, below_a) = turn(a, &top, &bottom);
        let (here_b, below_b) = turn(b, &top, &bottom);
        builder.push_either(top, bottom, here_a, here_b)?;
        row = bottom;
        a = below_a;
        b = below_b;
    }
    Ok(builder)
}
