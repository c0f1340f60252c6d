//! Lists of rectangles.

ghost use Rattle.std.specs.Prelude.{◌≡◌, ◌↔◌, ◌+ℤ◌, map, IfOk, IsTrue};
ghost use Rattle.std.specs.List.{All};
ghost use Rattle.geom_base.specs.Points.{is_in_some, moved_rect, RectMoves};
ghost use Rattle.region.specs.Window.{IsEdge, HasEdges};

use geom_base::{Point, Rect};
use std::alloc::{AllocError, Global};

/// The least coordinate of an edge.
const LEAST_EDGE: i64 = -32768;

/// The greatest coordinate of an edge.
const GREATEST_EDGE: i64 = 32767;

/// Whether a coordinate moved is one of an edge.
fn is_edge(from: i32, by: i32) -> bool
    ensures { IsTrue result ↔ IsEdge (from +ℤ by) }
{
    let moved = i64::from(from) + i64::from(by);
    LEAST_EDGE <= moved && moved <= GREATEST_EDGE
}

/// Whether all edges of a rectangle moved are coordinates of edges.
pub fn has_edges(rect: &Rect, by: &Point) -> bool
    ensures { IsTrue result ↔ HasEdges (moved_rect rect.now by.now) }
{
    if !is_edge(rect.left, by.x) {
        return false;
    }
    if !is_edge(rect.top, by.y) {
        return false;
    }
    if !is_edge(rect.right, by.x) {
        return false;
    }
    is_edge(rect.bottom, by.y)
}

/// Each rectangle moved.
pub fn moved_rects(alloc: Global, rects: &[Rect], by: &Point) -> Result<Vec<Rect>, AllocError>
    requires { All (RectMoves by.now) rects.now }
    ensures { IfOk result (λ r. r.items ≡ map (λ rect. moved_rect rect by.now) rects.now) }
{
    let mut moved = Vec::from_slice(alloc, rects)?;
    for rect in moved.as_mut_slice() {
        *rect = rect.shifted(*by);
    }
    Ok(moved)
}

/// Whether a point is in one of the rectangles.
pub fn any_holds(rects: &[Rect], p: &Point) -> bool
    ensures { result ≡ is_in_some p.now rects.now }
{
    for rect in rects {
        if rect.holds(*p) {
            return true;
        }
    }
    false
}
