//! Batches of rectangles in an order.

ghost use Rattle.std.specs.Prelude.{◌≡◌, ◌≤◌, ◌<◌, ◌+◌, ◌++◌, length, take, drop, get_or};
ghost use Rattle.geom_base.specs.Points.{no_rect};
ghost use Rattle.region.specs.Order.{IsInOrder};
ghost use Rattle.clip_obj.specs.InnerBand.{IsBand};
ghost use Rattle.clip_obj.specs.Order.{ordered};

use crate::band::{Band, turned_at};
use crate::direction::Direction;
use geom_base::Rect;

/// The rectangle at a place in an order, given the band of an earlier one.
fn rect_at(rects: &[Rect], band: &mut Band, direction: Direction, place: usize) -> Rect
    requires in_order { IsInOrder rects.now }
    requires band { IsBand rects.now band.old }
    requires place { place < length rects.now }
    ensures rect { result ≡ get_or (ordered direction rects.now) place no_rect }
    ensures band { IsBand rects.now band.new }
{
    match direction {
        Direction::RightDown | Direction::Any => rects[place],
        Direction::LeftDown => turned_at(rects, band, place),
        Direction::LeftUp => rects[rects.len() - 1 - place],
        Direction::RightUp => turned_at(rects, band, rects.len() - 1 - place),
    }
}

/// Puts so many rectangles of an order into the first places, from one on, given the band of an earlier one.
pub fn fill_batch(
    out: &mut [Rect],
    len: usize,
    rects: &[Rect],
    band: &mut Band,
    direction: Direction,
    from: usize,
)
    requires in_order { IsInOrder rects.now }
    requires band { IsBand rects.now band.old }
    requires places { len ≤ length out.old }
    requires left { from + len ≤ length rects.now }
    ensures batch { out.new ≡ take len (drop from (ordered direction rects.now)) ++ drop len out.old }
    ensures band { IsBand rects.now band.new }
{
    for i in 0..len {
        out[i] = rect_at(rects, band, direction, from + i);
    }
}
