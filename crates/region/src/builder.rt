//! Regions built row by row.

ghost use Rattle.std.specs.Prelude.{◌≡◌, ◌<ℤ◌, ◌≤ℤ◌, ℤ, List, [], ◌++◌, map, OnOk};
ghost use Rattle.geom_base.specs.declared.rect.Rect.{Rect};
ghost use Rattle.geom_base.specs.Points.{is_in_some};
ghost use Rattle.region.specs.declared.span.Span.{Span};
ghost use Rattle.region.specs.Refusal.{IsAnswer};
ghost use Rattle.region.specs.Window.{Within};
ghost use Rattle.region.specs.Canonical.{canonical_rects, Gives};
ghost use Rattle.region.specs.Columns.{has_column};
ghost use Rattle.region.specs.InnerColumns.{IsColumns};
ghost use Rattle.region.specs.InnerCursor.{AreInBand};
ghost use Rattle.region.specs.InnerSpanList.{span_of, span_steps};
ghost use Rattle.region.specs.Spans.{in_spans, AreSpans, rects_of_spans};
ghost use Rattle.region.specs.Builder.{first_row, AreRows, HasRows};

use crate::band_list::{BandList, MOST_RECTS};
use crate::operation::Operation;
use crate::refusal::RegionRefusal;
use crate::region::{Region, region_of_list};
use crate::span::{Span, join_spans};
use crate::span_list::SpanList;
use geom_base::Rect;
use std::alloc::{AllocError, Global};

/// A region that is built row by row, from top to bottom.
#[derive(Drop)]
pub struct RegionBuilder {
    list: BandList,
    bottom: i32,
    /// Room for the spans of a row.
    row: SpanList,
}

impl RegionBuilder {
    /// No rows yet.
    pub fn new(alloc: Global) -> RegionBuilder
        ensures { HasRows [] first_row result }
    {
        RegionBuilder {
            list: BandList::new(alloc, MOST_RECTS),
            bottom: i32::MIN,
            row: SpanList::new(alloc),
        }
    }

    /// Makes room for so many rectangles more.
    pub(crate) fn reserve(&mut self, more: usize) -> Result<(), AllocError>
        ensures { (pushed : List Rect) (end : ℤ) → HasRows pushed end self.old → HasRows pushed end self.new }
    {
        self.list.reserve(more)
    }

    /// Adds the spans to all rows from one to before another, below all rows so far.
    /// After want of memory nothing is known of the builder.
    pub fn push_row(&mut self, top: i32, bottom: i32, spans: &[Span]) -> Result<(), AllocError>
        requires rows { top <ℤ bottom }
        requires spans { AreSpans spans.now }
        requires below { (pushed : List Rect) × (end : ℤ) × HasRows pushed end self.old × (end ≤ℤ top) }
        ensures { OnOk result ((pushed : List Rect) (end : ℤ) → HasRows pushed end self.old → end ≤ℤ top →
            HasRows (pushed ++ rects_of_spans top bottom spans.now) bottom self.new) }
    {
        if spans.is_empty() {
            return Ok(());
        }
        self.end_before(&top)?;
        join_spans(&mut self.row, spans)?;
        self.put(top, bottom)
    }

    /// Adds the columns of two bands to all rows from one to before another, below all rows so far.
    pub(crate) fn push_either(
        &mut self,
        top: i32,
        bottom: i32,
        left: &[Rect],
        right: &[Rect],
    ) -> Result<(), AllocError>
        requires rows { top <ℤ bottom }
        requires left { AreInBand left.now }
        requires right { AreInBand right.now }
        requires below { (pushed : List Rect) × (end : ℤ) × HasRows pushed end self.old × (end ≤ℤ top) }
        ensures { OnOk result ((pushed : List Rect) (end : ℤ) → HasRows pushed end self.old → end ≤ℤ top →
            HasRows (pushed ++ rects_of_spans top bottom (map span_of (left.now ++ right.now))) bottom self.new) }
    {
        self.end_before(&top)?;
        self.row.combine(Operation::Union, left, right)?;
        self.put(top, bottom)
    }

    /// Adds the columns of the row to all rows from one to before another, where the last row has ended or touches them.
    #[inline(always)]
    fn put(&mut self, top: i32, bottom: i32) -> Result<(), AllocError>
        requires rows { top <ℤ bottom }
        requires columns { IsColumns (span_steps self.old.row.spans.items) }
        requires above { (pushed : List Rect) × AreRows pushed top self.old.list }
        ensures { OnOk result ((pushed : List Rect) (spans : List Span) → AreRows pushed top self.old.list →
            ((x : ℤ) → has_column (span_steps self.old.row.spans.items) x ≡ in_spans x spans) →
            HasRows (pushed ++ rects_of_spans top bottom spans) bottom self.new) }
    {
        self.list.put_row(top, self.row.spans())?;
        self.bottom = bottom;
        Ok(())
    }

    /// Ends the last row, where the next one does not touch it.
    fn end_before(&mut self, top: &i32) -> Result<(), AllocError>
        requires { (pushed : List Rect) × HasRows pushed top.now self.old }
        ensures { OnOk result ((pushed : List Rect) → HasRows pushed top.now self.old → AreRows pushed top.now self.new.list) }
    {
        if self.bottom < *top {
            self.list.put_row(self.bottom, &[])?;
        }
        Ok(())
    }

    /// The region of all spans.
    pub fn finish(self) -> Result<Region, RegionRefusal>
        requires { (pushed : List Rect) × (end : ℤ) × HasRows pushed end self }
        ensures answer { (pushed : List Rect) (end : ℤ) → HasRows pushed end self → IsAnswer (λ p. is_in_some p pushed) result }
        ensures canonical { (pushed : List Rect) (end : ℤ) → HasRows pushed end self → Within pushed →
            Gives (canonical_rects (λ p. is_in_some p pushed)) result }
    {
        let mut list = self.list;
        list.put_row(self.bottom, &[])?;
        region_of_list(list)
    }
}
