//! Where a sweep over regions puts its bands.

ghost use Rattle.std.specs.Prelude.{◌≡◌, []};
ghost use Rattle.region.specs.Columns.{Columns, has_column};
ghost use Rattle.region.specs.InnerColumns.{IsColumns};
ghost use Rattle.region.specs.InnerBandList.{IsKept};

use crate::band_cursor::BandCursor;
use crate::band_list::BandList;
use crate::operation::Operation;
use crate::span_list::SpanList;
use crate::sweep::Output;
use std::alloc::{AllocError, Global};

/// Bands, and room for the spans of a row.
#[derive(Drop)]
pub struct BandOutput {
    pub list: BandList,
    row: SpanList,
}

impl BandOutput {
    /// No bands, of which so many rectangles are kept.
    pub fn new(alloc: Global, most: u64) -> BandOutput
        ensures kept { IsKept result.list [] }
        ensures most { result.list.most ≡ most }
    {
        BandOutput {
            list: BandList::new(alloc, most),
            row: SpanList::new(alloc),
        }
    }
}

impl Output<BandCursor<'_>> for BandOutput {
    ghost Value = { Columns };

    ghost holds = { has_column };

    ghost is_valid = { IsColumns };

    ghost empty = { [] };

    ghost has = { λ out bands. IsKept out.list bands };

    ghost limit = { λ out. out.list.most };

    fn put(
        &mut self,
        operation: Operation,
        place: i32,
        a: &BandCursor<'_>,
        b: &BandCursor<'_>,
    ) -> Result<(), AllocError> {
        self.row.combine(operation, a.band(), b.band())?;
        self.list.put_row(place, self.row.spans())
    }
}
