ghost use Rattle.std.specs.Prelude.{◌≡◌, ◌≤◌, pos, ◌+ℤ◌, ◌-ℤ◌, ◌≤ℤ◌, ◌<ℤ◌, ◌↔◌, IsTrue, FitsSigned};
ghost use Rattle.std.specs.Int.{w32};
ghost use Rattle.geom_base.specs.Points.{HasPoints, IsIn, LiesIn, Meet, has_points, moved, no_rect, moved_rect, most_side, whole, sides_of, corner_of};
ghost use Rattle.geom_base.specs.declared.point.Point.{Point};

use crate::point::Point;
use crate::size::Size;

/// A rectangle by its edges; its right and its lower edge are not part of it.
#[derive(Clone, Copy, Debug, PartialEq, Eq)]
pub struct Rect {
    pub left: i32,
    pub top: i32,
    pub right: i32,
    pub bottom: i32,
}

/// The rectangle that stands for no point.
pub const NO_RECT: Rect = Rect {
    left: 0,
    top: 0,
    right: 0,
    bottom: 0,
};

impl Rect {
    /// The common points; a rectangle of zeros where there are none.
    pub fn intersect(self, other: Rect) -> Rect
        ensures common { (p : Point) → IsIn p result ↔ (IsIn p self × IsIn p other) }
        ensures zeros { ((p : Point) → ¬ IsIn p result) → result ≡ no_rect }
    {
        let left = self.left.max(other.left);
        let top = self.top.max(other.top);
        let right = self.right.min(other.right);
        let bottom = self.bottom.min(other.bottom);
        if right <= left {
            return NO_RECT;
        }
        if bottom <= top {
            return NO_RECT;
        }
        Rect {
            left,
            top,
            right,
            bottom,
        }
    }

    /// What lies of it on a surface of a size.
    pub fn cut_to(self, size: Size) -> Rect
        requires width { size.w ≤ most_side }
        requires height { size.h ≤ most_side }
        ensures common { (p : Point) → IsIn p result ↔ (IsIn p self × IsIn p (whole size)) }
        ensures inside { LiesIn result size }
    {
        self.intersect(size.whole())
    }

    /// Whether it has a point in common with another.
    pub fn meets(self, other: Rect) -> bool
        ensures { IsTrue result ↔ Meet self other }
    {
        self.intersect(other).has_points()
    }

    /// Whether it has points.
    pub fn has_points(self) -> bool
        ensures value { result ≡ has_points self }
        ensures points { IsTrue result ↔ HasPoints self }
    {
        self.left < self.right && self.top < self.bottom
    }

    /// The rectangle with each edge moved: its points are those of this one, moved.
    pub fn shifted(self, by: Point) -> Rect
        requires left { FitsSigned w32 (self.left +ℤ by.x) }
        requires top { FitsSigned w32 (self.top +ℤ by.y) }
        requires right { FitsSigned w32 (self.right +ℤ by.x) }
        requires bottom { FitsSigned w32 (self.bottom +ℤ by.y) }
        ensures edges { result ≡ moved_rect self by }
        ensures points { (p : Point) → IsIn (moved p by) result ↔ IsIn p self }
    {
        Rect {
            left: self.left + by.x,
            top: self.top + by.y,
            right: self.right + by.x,
            bottom: self.bottom + by.y,
        }
    }

    /// How many columns and rows it has.
    pub fn size(self) -> Size
        requires across { self.left ≤ℤ self.right }
        requires down { self.top ≤ℤ self.bottom }
        ensures { result ≡ sides_of self }
    {
        Size {
            w: distance(self.left, self.right),
            h: distance(self.top, self.bottom),
        }
    }

    /// Its first point.
    pub fn corner(self) -> Point
        ensures { result ≡ corner_of self }
    {
        Point {
            x: self.left,
            y: self.top,
        }
    }

    /// Whether a point is in the rectangle.
    pub fn holds(self, p: Point) -> bool
        ensures { IsTrue result ↔ IsIn p self }
    {
        is_within(self.left, p.x, self.right) && is_within(self.top, p.y, self.bottom)
    }
}

/// How many columns, or rows, lie from one to before another.
pub fn distance(from: i32, to: i32) -> u32
    requires { from ≤ℤ to }
    ensures { pos result ≡ to -ℤ from }
{
    (i64::from(to) - i64::from(from)) as u32
}

/// Whether a coordinate lies from one edge to before another.
fn is_within(from: i32, at: i32, to: i32) -> bool
    ensures { IsTrue result ↔ ((from ≤ℤ at) × (at <ℤ to)) }
{
    from <= at && at < to
}

#[cfg(test)]
mod tests {
    use super::*;

    fn rect(left: i32, top: i32, right: i32, bottom: i32) -> Rect {
        Rect {
            left,
            top,
            right,
            bottom,
        }
    }

    #[test]
    fn intersections(rt: HostRuntime) {
        let cases = [
            (rect(0, 0, 4, 4), rect(2, -1, 9, 3), rect(2, 0, 4, 3)),
            (rect(0, 0, 4, 4), rect(4, 0, 8, 4), rect(0, 0, 0, 0)),
            (rect(5, 5, 5, 9), rect(0, 0, 9, 9), rect(0, 0, 0, 0)),
        ];
        for (a, b, want) in cases {
            assert_eq!(rt; a.intersect(b), want, "{a:?} and {b:?}");
            assert_eq!(rt; a.meets(b), want.has_points(), "{a:?} and {b:?}");
        }
    }

    #[test]
    fn rectangles_with_points(rt: HostRuntime) {
        for (r, want) in [
            (rect(0, 0, 1, 1), true),
            (rect(0, 0, 0, 1), false),
            (rect(0, 2, 1, 1), false),
        ] {
            assert_eq!(rt; r.has_points(), want, "{r:?}");
        }
        assert_eq!(rt; Point::at(3, 4), Point { x: 3, y: 4 });
    }

    #[test]
    fn cuts(rt: HostRuntime) {
        let size = Size { w: 5, h: 3 };
        assert_eq!(rt; size.whole(), rect(0, 0, 5, 3));
        for (r, want) in [
            (rect(-2, 1, 3, 9), rect(0, 1, 3, 3)),
            (rect(5, 0, 9, 2), rect(0, 0, 0, 0)),
        ] {
            assert_eq!(rt; r.cut_to(size), want, "{r:?}");
        }
    }

    #[test]
    fn edges_and_shifts(rt: HostRuntime) {
        let start = Rect {
            left: 1,
            top: 2,
            right: 3,
            bottom: 4,
        };
        let moved = start.shifted(Point { x: -3, y: 5 });
        assert_eq!(rt; moved, rect(-2, 7, 0, 9));
        for (x, y, want) in [(-2, 7, true), (0, 8, false), (-1, 9, false), (-1, 8, true)] {
            assert_eq!(rt; moved.holds(Point { x, y }), want, "{x} {y}");
        }
    }
}
