//! Columns side by side, and what stands in a row of them.

ghost use Rattle.std.specs.Prelude.{◌≡◌, ◌+◌, ◌^◌, ◌<◌, ◌≤ℤ◌, ◌<ℤ◌, ◌&&◌, int_lt, int_le, pos, negsuc};
ghost use Rattle.std.specs.Int.{int_min};
ghost use Rattle.region.specs.InnerRow.{empty_row, beside, IsSound};
ghost use Rattle.region.specs.InnerStrip.{seen_at, covered_until};

use crate::row::{EMPTY, Row};
use geom_base::Rect;

/// The columns from one edge to before another.
#[derive(Clone, Copy, Debug, PartialEq, Eq)]
pub struct Strip {
    pub from: i32,
    pub to: i32,
    /// How many cells they are.
    pub size: u64,
    /// In the rows before this one all columns are covered.
    pub until: i32,
    /// What stands in the present row.
    pub row: Row,
    /// The last row in which it stands.
    pub steady: i32,
}

impl Strip {
    /// A cell that nothing covers.
    pub fn cell(from: &i32, to: &i32) -> Strip
        ensures { result ≡ record { from = from.now; to = to.now; size = 1; until = negsuc 2147483647; row = empty_row; steady = pos 2147483647 } }
    {
        Strip {
            from: *from,
            to: *to,
            size: 1,
            until: i32::MIN,
            row: EMPTY,
            steady: i32::MAX,
        }
    }

    /// Two strips side by side that nothing covers.
    pub fn pair(left: &Strip, right: &Strip) -> Strip
        requires { left.now.size + right.now.size < 2 ^ 64 }
        ensures { result ≡ record {
          from = left.now.from;
          to = right.now.to;
          size = left.now.size + right.now.size;
          until = negsuc 2147483647;
          row = empty_row;
          steady = pos 2147483647;
        } }
    {
        Strip {
            from: left.from,
            to: right.to,
            size: left.size + right.size,
            until: i32::MIN,
            row: EMPTY,
            steady: i32::MAX,
        }
    }

    /// Whether a rectangle has all of the columns.
    pub fn is_in(&self, rect: &Rect) -> bool
        ensures { result ≡ (int_le rect.now.left self.now.from && int_le self.now.to rect.now.right) }
    {
        rect.left <= self.from && self.to <= rect.right
    }

    /// Whether a rectangle has some of the columns.
    pub fn meets(&self, rect: &Rect) -> bool
        ensures { result ≡ (int_lt rect.now.left self.now.to && int_lt self.now.from rect.now.right) }
    {
        rect.left < self.to && self.from < rect.right
    }

    /// Covers all columns in the rows before one.
    pub fn cover(&mut self, bottom: &i32)
        requires { negsuc 2147483647 <ℤ bottom.now }
        ensures { self.new ≡ covered_until bottom.now self.old }
    {
        self.until = self.until.max(*bottom);
        self.row = Row::full(self.size);
        self.steady = self.until - 1;
    }

    /// Sees what stands in a row of a cell.
    pub fn see_cell(&mut self, row: &i32)
        ensures { self.new ≡ seen_at row.now empty_row (pos 2147483647) self.old }
    {
        if *row < self.until {
            self.row = Row::full(self.size);
            self.steady = self.until - 1;
        } else {
            self.row = EMPTY;
            self.steady = i32::MAX;
        }
    }

    /// Sees what stands in a row of two strips side by side.
    pub fn see_pair(&mut self, row: &i32, left: &Strip, right: &Strip)
        requires size { left.now.size + right.now.size ≡ self.old.size }
        requires left { self.old.until ≤ℤ row.now → IsSound left.now.row left.now.size }
        requires right { self.old.until ≤ℤ row.now → IsSound right.now.row right.now.size }
        ensures { self.new ≡ seen_at row.now (beside left.now.row right.now.row) (int_min left.now.steady right.now.steady) self.old }
    {
        let size = self.size;
        if *row < self.until {
            self.row = Row::full(size);
            self.steady = self.until - 1;
        } else {
            self.row = left.row.beside(right.row);
            self.steady = left.steady.min(right.steady);
        }
    }
}
