//! What is left of a region from a row on.

ghost use Rattle.std.specs.Prelude.{◌≡◌, ◌≤◌, ℤ, length, take};
ghost use Rattle.geom_base.specs.Points.{is_in_some};
ghost use Rattle.region.specs.Order.{IsInOrder};
ghost use Rattle.region.specs.Canonical.{point_from};
ghost use Rattle.region.specs.InnerCursor.{Begins, IsAtRow, in_columns, row_next, rows_left};

use crate::cursor::Cursor;
use crate::search::{Edge, count_until};
use geom_base::Rect;

/// The rectangles of a region that are left from a row on.
#[derive(Clone, Copy, Debug)]
pub struct BandCursor<'a> {
    rects: &'a [Rect],
    /// How many of them have the row.
    here: usize,
}

impl<'a> BandCursor<'a> {
    /// Before all rows.
    pub fn new(rects: &'a [Rect]) -> BandCursor<'a>
        requires { IsInOrder rects.now }
        ensures rects { result.rects.now ≡ rects.now }
        ensures begins { Begins (λ (c : BandCursor) y x. is_in_some (point_from x y) c.rects.now) (λ c x. in_columns x (take c.here c.rects.now))
            (λ y c. IsAtRow y c.rects.now c.here) result }
    {
        BandCursor { rects, here: 0 }
    }

    /// The rectangles that have the row.
    pub fn band(&self) -> &'a [Rect]
        requires { self.now.here ≤ length self.now.rects.now }
        ensures { result.now ≡ take self.now.here self.now.rects.now }
    {
        self.rects.split_at(self.here).0
    }
}

impl Cursor for BandCursor<'_> {
    ghost set = { λ c y x. is_in_some (point_from x y) c.rects.now };

    ghost now = { λ c x. in_columns x (take c.here c.rects.now) };

    ghost is_at = { λ y c. IsAtRow y c.rects.now c.here };

    ghost next_of = { λ c. row_next c.rects.now c.here };

    ghost left = { λ c. rows_left c.rects.now c.here };

    fn uniform(&self) -> Option<bool> {
        if self.here == 0 { Some(false) } else { None }
    }

    fn next(&self) -> Option<i32> {
        match self.rects {
            [] => None,
            [first, ..] if self.here == 0 => Some(first.top),
            [first, ..] => Some(first.bottom),
        }
    }

    fn go_to(&mut self, place: &i32) {
        let ended = count_until(self.rects, Edge::Bottom, place);
        if ended == 0 && self.here > 0 {
            return;
        }
        self.rects = self.rects.split_at(ended).1;
        self.here = count_until(self.rects, Edge::Top, place);
    }
}
