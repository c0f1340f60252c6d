//! What is left of a band from a column on.

ghost use Rattle.std.specs.Prelude.{◌≡◌, ℤ};
ghost use Rattle.region.specs.InnerCursor.{AreInBand, Begins, IsAtColumn, in_columns, column_next, columns_left};

use crate::cursor::Cursor;
use crate::search::{Edge, count_until};
use geom_base::Rect;

/// The rectangles of a band that are left from a column on.
#[derive(Clone, Copy, Debug)]
pub struct SpanCursor<'a> {
    rects: &'a [Rect],
    /// Whether the first of them has the column.
    pub inside: bool,
}

impl<'a> SpanCursor<'a> {
    /// Before all columns.
    pub fn new(rects: &'a [Rect]) -> SpanCursor<'a>
        requires { AreInBand rects.now }
        ensures rects { result.rects.now ≡ rects.now }
        ensures begins { Begins (λ (c : SpanCursor) y x. in_columns y c.rects.now) (λ c x. c.inside) (λ y c. IsAtColumn y c.rects.now c.inside) result }
    {
        SpanCursor {
            rects,
            inside: false,
        }
    }
}

impl Cursor for SpanCursor<'_> {
    ghost set = { λ c y x. in_columns y c.rects.now };

    ghost now = { λ c x. c.inside };

    ghost is_at = { λ y c. IsAtColumn y c.rects.now c.inside };

    ghost next_of = { λ c. column_next c.rects.now c.inside };

    ghost left = { λ c. columns_left c.rects.now c.inside };

    fn uniform(&self) -> Option<bool> {
        Some(self.inside)
    }

    fn next(&self) -> Option<i32> {
        match self.rects {
            [] => None,
            [first, ..] if self.inside => Some(first.right),
            [first, ..] => Some(first.left),
        }
    }

    fn go_to(&mut self, place: &i32) {
        let ended = count_until(self.rects, Edge::Right, place);
        self.rects = self.rects.split_at(ended).1;
        self.inside = match self.rects {
            [] => false,
            [first, ..] => first.left <= *place,
        };
    }
}
