//! The order that a shift asks for.

ghost use Rattle.std.specs.Prelude.{◌≡◌};
ghost use Rattle.eng_calls.specs.Order.{direction_of, sideways_of, ShiftsAreInOrder};

use clip_obj::Direction;
use geom_base::{Point, Rect};

/// The direction in which a source that is the target itself is read before it is drawn over, where `src` is the source's point
/// for the corner of a rectangle: upwards where the source lies above, and to the left where it lies to the left.
pub fn direction_for(rect: &Rect, src: &Point) -> Direction
    ensures { result ≡ direction_of rect.now src.now }
{
    if src.y < rect.top {
        return sideways(rect, src, Direction::LeftUp, Direction::RightUp);
    }
    sideways(rect, src, Direction::LeftDown, Direction::RightDown)
}

/// The first direction where the source lies to the left, else the second.
fn sideways(rect: &Rect, src: &Point, left: Direction, right: Direction) -> Direction
    ensures { result ≡ sideways_of rect.now src.now left right }
{
    if src.x < rect.left {
        return left;
    }
    right
}

/// In the order that a shift asks for, no rectangle's source points lie in an earlier rectangle.
pub fn shifts_are_in_order()
    ensures { ShiftsAreInOrder }
{}
