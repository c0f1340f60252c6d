//! What stands in a row of some columns.

ghost use Rattle.std.specs.Prelude.{◌≡◌, ◌+◌, ◌^◌, ◌<◌};
ghost use Rattle.region.specs.InnerRow.{full_row, beside, IsSound};

/// What stands in a row of some columns.
#[derive(Clone, Copy, Debug, PartialEq, Eq)]
pub struct Row {
    /// How many of the cells are covered.
    pub filled: u64,
    /// How many runs of covered columns there are.
    pub runs: u64,
    /// Whether the first column is covered.
    pub first: bool,
    /// Whether the last column is covered.
    pub last: bool,
}

/// A row without a covered column.
pub const EMPTY: Row = Row {
    filled: 0,
    runs: 0,
    first: false,
    last: false,
};

impl Row {
    /// A row in which all of so many cells are covered.
    pub fn full(size: u64) -> Row
        ensures { result ≡ full_row size }
    {
        Row {
            filled: size,
            runs: 1,
            first: true,
            last: true,
        }
    }

    /// Two rows side by side.
    pub fn beside(self, right: Row) -> Row
        requires filled { self.filled + right.filled < 2 ^ 64 }
        requires left { IsSound self self.filled }
        requires right { IsSound right right.filled }
        ensures { result ≡ beside self right }
    {
        let joined = if self.last && right.first { 1 } else { 0 };
        Row {
            filled: self.filled + right.filled,
            runs: self.runs + right.runs - joined,
            first: self.first,
            last: right.last,
        }
    }
}
