//! Rectangles seen from a point.

ghost use Rattle.std.specs.Prelude.{◌≡◌, ◌-ℤ◌, FitsSigned, map, pos};
ghost use Rattle.std.specs.Int.{w32};
ghost use Rattle.std.specs.List.{All};
ghost use Rattle.geom_base.specs.Points.{moved_rect, RectMoves};
ghost use Rattle.clip_obj.specs.Clip.{to_origin};

use geom_base::{Point, Rect};

/// Where 0 0 is, seen from a point.
pub fn origin_from(at: &Point) -> Point
    requires column { FitsSigned w32 (pos 0 -ℤ at.now.x) }
    requires row { FitsSigned w32 (pos 0 -ℤ at.now.y) }
    ensures { result ≡ to_origin at.now }
{
    Point {
        x: 0 - at.x,
        y: 0 - at.y,
    }
}

/// The rectangle moved so that a point becomes 0 0.
pub fn seen_from(at: &Point, rect: &Rect) -> Rect
    requires { RectMoves (to_origin at.now) rect.now }
    ensures { result ≡ moved_rect rect.now (to_origin at.now) }
{
    Rect {
        left: rect.left - at.x,
        top: rect.top - at.y,
        right: rect.right - at.x,
        bottom: rect.bottom - at.y,
    }
}

/// Moves rectangles so that a point becomes 0 0.
fn move_to_origin(rects: &mut [Rect], at: &Point)
    requires { All (RectMoves (to_origin at.now)) rects.old }
    ensures { rects.new ≡ map (λ r. moved_rect r (to_origin at.now)) rects.old }
{
    for i in 0..rects.len() {
        rects[i] = seen_from(at, &rects[i]);
    }
}

/// The rectangles moved so that a point becomes 0 0.
pub fn all_seen_from(at: &Point, rects: Vec<Rect>) -> Vec<Rect>
    requires { All (RectMoves (to_origin at.now)) rects.items }
    ensures { result.items ≡ map (λ r. moved_rect r (to_origin at.now)) rects.items }
{
    let mut moved = rects;
    move_to_origin(&mut moved, at);
    moved
}
