//! Points that are moved.

ghost use Rattle.std.specs.Prelude.{◌≡◌};
ghost use Rattle.geom_base.specs.Points.{moved, moved_back};
ghost use Rattle.brush_obj.specs.Calls.{PointMoves, PointMovesBack};

use geom_base::Point;

/// A point moved by the coordinates of another.
pub fn shifted(p: Point, by: Point) -> Point
    requires { PointMoves p by }
    ensures { result ≡ moved p by }
{
    Point {
        x: p.x + by.x,
        y: p.y + by.y,
    }
}

/// A point moved by the coordinates of another, the other way.
pub fn shifted_back(p: Point, by: Point) -> Point
    requires { PointMovesBack p by }
    ensures { result ≡ moved_back by p }
{
    Point {
        x: p.x - by.x,
        y: p.y - by.y,
    }
}
