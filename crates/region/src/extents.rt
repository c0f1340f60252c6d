//! The smallest rectangle around others.

ghost use Rattle.std.specs.Prelude.{◌≡◌, List, map};
ghost use Rattle.std.specs.Int.{int_min, int_max};
ghost use Rattle.std.specs.List.{All};
ghost use Rattle.geom_base.specs.declared.rect.Rect.{Rect};
ghost use Rattle.geom_base.specs.Points.{HasPoints, moved_rect, RectMoves};
ghost use Rattle.region.specs.Extents.{AreExtents};

use geom_base::{NO_RECT, Point, Rect};

/// The smallest rectangle around two.
fn around(a: Rect, b: Rect) -> Rect
    ensures left { result.left ≡ int_min a.left b.left }
    ensures top { result.top ≡ int_min a.top b.top }
    ensures right { result.right ≡ int_max a.right b.right }
    ensures bottom { result.bottom ≡ int_max a.bottom b.bottom }
{
    Rect {
        left: a.left.min(b.left),
        top: a.top.min(b.top),
        right: a.right.max(b.right),
        bottom: a.bottom.max(b.bottom),
    }
}

/// The smallest rectangle around all.
pub fn extents_of(rects: &[Rect]) -> Rect
    requires { All HasPoints rects.now }
    ensures { AreExtents rects.now result }
{
    match rects {
        [] => NO_RECT,
        [first, ..] => {
            let mut extents = *first;
            for rect in rects {
                extents = around(extents, *rect);
            }
            extents
        }
    }
}

/// The smallest rectangle around rectangles moved, by that around them.
pub fn moved_extents(extents: Rect, by: Point) -> Rect
    requires { (rects : List Rect) × AreExtents rects extents × All (RectMoves by) rects }
    ensures { (rects : List Rect) → AreExtents rects extents → AreExtents (map (λ r. moved_rect r by) rects) result }
{
    if !extents.has_points() {
        return extents;
    }
    extents.shifted(by)
}
