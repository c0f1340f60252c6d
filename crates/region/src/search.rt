//! Rectangles before a place and after it, by binary search.

ghost use Rattle.std.specs.Prelude.{◌≡◌, ◌≤◌, ℤ, ◌<ℤ◌, ◌≤ℤ◌, length, take, drop};
ghost use Rattle.std.specs.List.{All};
ghost use Rattle.region.specs.InnerSearch.{edge_of, AreSorted};
ghost use Rattle.region.specs.InnerCursor.{AreInBand};
ghost use Rattle.region.specs.InnerRows.{IsPast};

use geom_base::Rect;

/// An edge of a rectangle.
#[derive(Clone, Copy, Debug, PartialEq, Eq)]
pub enum Edge {
    Top,
    Right,
    Bottom,
}

impl Edge {
    /// Where the edge of a rectangle is.
    pub fn of(self, rect: &Rect) -> i32
        ensures { result ≡ edge_of self rect.now }
    {
        match self {
            Edge::Top => rect.top,
            Edge::Right => rect.right,
            Edge::Bottom => rect.bottom,
        }
    }
}

/// So many rectangles that the edges of all others are after a place, at most about twice as many as are not.
fn reach(rects: &[Rect], edge: Edge, place: &i32) -> usize
    requires { AreSorted edge rects.now }
    ensures within { result ≤ length rects.now }
    ensures later { All (λ r. place.now <ℤ edge_of edge r) (drop result rects.now) }
{
    let mut count = 0;
    while count < rects.len() {
        if edge.of(&rects[count]) > *place {
            return count;
        }
        count += (count + 1).min(rects.len() - count);
    }
    count
}

/// How many of the rectangles have an edge at a place or before it, by a search that begins near.
#[inline(never)]
fn count_far(rects: &[Rect], edge: Edge, place: &i32) -> usize
    requires { AreSorted edge rects.now }
    ensures within { result ≤ length rects.now }
    ensures before { All (λ r. edge_of edge r ≤ℤ place.now) (take result rects.now) }
    ensures later { All (λ r. place.now <ℤ edge_of edge r) (drop result rects.now) }
{
    let near = rects.split_at(reach(rects, edge, place)).0;
    near.partition_point(|rect| edge.of(rect) <= *place)
}

/// How many of the rectangles have an edge at a place or before it.
pub fn count_until(rects: &[Rect], edge: Edge, place: &i32) -> usize
    requires { AreSorted edge rects.now }
    ensures within { result ≤ length rects.now }
    ensures before { All (λ r. edge_of edge r ≤ℤ place.now) (take result rects.now) }
    ensures later { All (λ r. place.now <ℤ edge_of edge r) (drop result rects.now) }
{
    match rects {
        [first, ..] if edge.of(first) > *place => 0,
        [first, second, ..] if edge.of(second) > *place => 1,
        _ => count_far(rects, edge, place),
    }
}

/// The rectangles of a band that reach past a column.
pub fn past<'a>(band: &'a [Rect], place: &i32) -> &'a [Rect]
    requires { AreInBand band.now }
    ensures { IsPast place.now band.now result.now }
{
    band.split_at(count_until(band, Edge::Right, place)).1
}
