ghost use Rattle.std.specs.Prelude.{◌≡◌, ◌<◌, ◌≤ℤ◌, ◌^◌, pos};
ghost use Rattle.geom_base.specs.Points.{point_at};

/// A pixel's place: columns to the right, rows downwards.
#[derive(Clone, Copy, Debug, PartialEq, Eq)]
pub struct Point {
    pub x: i32,
    pub y: i32,
}

impl Point {
    /// The point at a column of a row.
    pub fn at(x: u32, y: u32) -> Point
        requires column { x < 2 ^ 31 }
        requires row { y < 2 ^ 31 }
        ensures { result ≡ point_at x y }
    {
        Point {
            x: x as i32,
            y: y as i32,
        }
    }
}

/// A coordinate that isn't negative, as a column or a row.
pub fn coordinate(at: i32) -> u32
    requires { pos 0 ≤ℤ at }
    ensures { pos result ≡ at }
{
    at.unsigned_abs()
}
