//! Points of a source or a mask that belong to points of a target.

ghost use Rattle.std.specs.Prelude.{◌≡◌, ◌≤◌, ◌<◌, ◌↔◌, ◌&&◌, ℕ, ◌≤ℤ◌, ◌<ℤ◌, ◌-ℤ◌, ◌+ℤ◌, pos};
ghost use Rattle.std.specs.Int.{int_max, int_min};
ghost use Rattle.blt_kernel.specs.InnerShift.{place_shifted};
ghost use Rattle.blt_kernel.specs.InnerBoxes.{box_from, ArePart, HasPoint, BoxReaches};
ghost use Rattle.blt_kernel.specs.InnerOrder.{IsAhead};
ghost use Rattle.blt_kernel.specs.InnerReadable.{is_readable};
ghost use Rattle.geom_base.specs.Points.{is_in, point_at, most_side};

use crate::edges::Edges;
use geom_base::{Point, Rect, Size};

/// Which points of a source or a mask belong to those of a target: `at` to the corner of `rect`, and so on.
#[derive(Clone, Copy)]
pub struct Shift {
    pub rect: Rect,
    pub at: Point,
}

impl Shift {
    /// The column that belongs to one of the target.
    pub fn column(&self, x: u32) -> u32
        requires from { pos 0 ≤ℤ place_shifted self.now.rect.left self.now.at.x (pos x) }
        requires to { place_shifted self.now.rect.left self.now.at.x (pos x) ≤ℤ pos most_side }
        ensures value { pos result ≡ place_shifted self.now.rect.left self.now.at.x (pos x) }
        ensures small { result ≤ most_side }
    {
        placed(self.rect.left, self.at.x, x)
    }

    /// The row that belongs to one of the target.
    pub fn row(&self, y: u32) -> u32
        requires from { pos 0 ≤ℤ place_shifted self.now.rect.top self.now.at.y (pos y) }
        requires to { place_shifted self.now.rect.top self.now.at.y (pos y) ≤ℤ pos most_side }
        ensures value { pos result ≡ place_shifted self.now.rect.top self.now.at.y (pos y) }
        ensures small { result ≤ most_side }
    {
        placed(self.rect.top, self.at.y, y)
    }

    /// The part of a box to which points of a surface of a size belong.
    pub fn cut(&self, size: Size, edges: &Edges) -> Edges
        requires width { size.w ≤ most_side }
        requires height { size.h ≤ most_side }
        requires across { edges.now.left ≤ edges.now.right }
        requires right { edges.now.right ≤ most_side }
        requires down { edges.now.top ≤ edges.now.bottom }
        requires bottom { edges.now.bottom ≤ most_side }
        ensures part { ArePart edges.now result }
        ensures points { (x y : ℕ) → is_in (point_at x y) (box_from result) ≡
            (is_in (point_at x y) (box_from edges.now) && is_readable self.now size (point_at x y)) }
        ensures there { HasPoint result → BoxReaches self.now size result }
    {
        let columns = Span {
            from: edges.left,
            to: edges.right,
        };
        let columns = cut_span(columns, self.rect.left, self.at.x, size.w);
        let rows = Span {
            from: edges.top,
            to: edges.bottom,
        };
        let rows = cut_span(rows, self.rect.top, self.at.y, size.h);
        Edges {
            left: columns.from,
            top: rows.from,
            right: columns.to,
            bottom: rows.to,
        }
    }

    /// Whether no point of a surface that is drawn on itself is read after it was drawn, if its rows are drawn from the top and
    /// from the left. If not, they may be drawn from the bottom and from the right.
    pub fn is_ahead(&self) -> bool
        ensures { IsAhead self.now result }
    {
        if self.at.y == self.rect.top {
            return self.at.x >= self.rect.left;
        }
        self.at.y > self.rect.top
    }
}

/// A part of a row or a column: from one coordinate to before another.
#[derive(Clone, Copy)]
struct Span {
    from: u32,
    to: u32,
}

/// The part of a span whose coordinates belong to some of a surface that has `len` of them.
fn cut_span(span: Span, corner: i32, at: i32, len: u32) -> Span
    requires order { span.from ≤ span.to }
    requires within { span.to ≤ most_side }
    requires len { len ≤ most_side }
    ensures order { result.from ≤ result.to }
    ensures part { (span.from ≤ result.from) × (result.to ≤ span.to) }
    ensures points { (x : ℕ) → ((result.from ≤ x) × (x < result.to)) ↔
        ((span.from ≤ x) × (x < span.to) × (pos 0 ≤ℤ place_shifted corner at (pos x)) × (place_shifted corner at (pos x) <ℤ pos len)) }
    ensures there { result.from < result.to → (pos 0 ≤ℤ place_shifted corner at (pos result.from)) × (place_shifted corner at (pos result.to) ≤ℤ pos len) }
{
    let from = first_there(span.from, corner, at);
    let to = last_there(span.to, corner, at, len);
    if to <= from {
        return Span {
            from: span.from,
            to: span.from,
        };
    }
    Span {
        from: from as u32,
        to: to as u32,
    }
}

/// The first coordinate from one on, to which none below 0 belongs.
fn first_there(from: u32, corner: i32, at: i32) -> i64
    requires { from ≤ most_side }
    ensures { result ≡ int_max (pos from) (corner -ℤ at) }
{
    i64::from(from).max(i64::from(corner) - i64::from(at))
}

/// The end of the coordinates before another, to which none from `len` on belongs.
fn last_there(to: u32, corner: i32, at: i32, len: u32) -> i64
    requires to { to ≤ most_side }
    requires len { len ≤ most_side }
    ensures { result ≡ int_min (pos to) ((pos len -ℤ at) +ℤ corner) }
{
    i64::from(to).min(i64::from(len) - i64::from(at) + i64::from(corner))
}

/// The coordinate that belongs to one of the target.
fn placed(corner: i32, at: i32, x: u32) -> u32
    requires from { pos 0 ≤ℤ place_shifted corner at (pos x) }
    requires to { place_shifted corner at (pos x) ≤ℤ pos most_side }
    ensures value { pos result ≡ place_shifted corner at (pos x) }
    ensures small { result ≤ most_side }
{
    (i64::from(x) - i64::from(corner) + i64::from(at)) as u32
}
