//! The spans of a row, column after column.

ghost use Rattle.std.specs.Prelude.{◌≡◌, ◌++◌, ◌||◌, ◌&&◌, ◌<ℤ◌, ◌≤ℤ◌, [], ℤ, Bool, OnOk, false, int_lt, int_le};
ghost use Rattle.region.specs.Operation.{holds_after};
ghost use Rattle.region.specs.Columns.{has_column};
ghost use Rattle.region.specs.InnerColumns.{IsColumns};
ghost use Rattle.region.specs.InnerCursor.{AreInBand, in_columns};
ghost use Rattle.region.specs.InnerSpanList.{change, span_steps, steps_of};
ghost use Rattle.region.specs.InnerRows.{IsRow};

use crate::operation::Operation;
use crate::span::Span;
use crate::span_cursor::SpanCursor;
use crate::sweep::{Output, sweep};
use crate::two_bands::{add_common, add_either, add_others};
use geom_base::Rect;
use std::alloc::{AllocError, Global};

/// Spans that do not touch, and one that has begun, if the columns are inside.
#[derive(Drop)]
pub struct SpanList {
    spans: Vec<Span>,
    left: i32,
    inside: bool,
}

impl SpanList {
    /// No spans.
    pub fn new(alloc: Global) -> SpanList
        ensures steps { steps_of result ≡ [] }
        ensures inside { result.inside ≡ false }
    {
        SpanList {
            spans: Vec::new(alloc),
            left: 0,
            inside: false,
        }
    }

    /// The spans that have ended.
    pub fn spans(&self) -> &[Span]
        ensures { result.now ≡ self.now.spans.items }
    {
        &self.spans
    }

    /// Takes all spans away.
    pub fn clear(&mut self)
        ensures steps { steps_of self.new ≡ [] }
        ensures spans { self.new.spans.items ≡ [] }
        ensures inside { self.new.inside ≡ false }
    {
        self.spans.clear();
        self.inside = false;
    }

    /// From a column on, they are inside or they are not.
    pub fn turn(&mut self, place: i32, inside: bool) -> Result<(), AllocError>
        ensures steps { OnOk result (steps_of self.new ≡ steps_of self.old ++ change self.old.inside inside place) }
        ensures inside { OnOk result (self.new.inside ≡ inside) }
    {
        if inside == self.inside {
            return Ok(());
        }
        if inside {
            self.left = place;
        } else {
            self.spans.push(Span {
                left: self.left,
                right: place,
            })?;
        }
        self.inside = inside;
        Ok(())
    }

    /// Adds columns to the right of all others, which they do not touch.
    pub fn add(&mut self, left: i32, right: i32) -> Result<(), AllocError>
        requires { IsRow left self.old.spans.items }
        ensures row { OnOk result ((z : ℤ) → left ≤ℤ z → (left <ℤ right → right <ℤ z) → IsRow z self.new.spans.items) }
        ensures points { OnOk result ((x : ℤ) → has_column (span_steps self.new.spans.items) x ≡
            (has_column (span_steps self.old.spans.items) x || (int_le left x && int_lt x right))) }
    {
        if left < right {
            self.spans.push(Span { left, right })?;
        }
        Ok(())
    }

    /// Adds the spans of a band to no others.
    fn copy(&mut self, band: &[Rect]) -> Result<(), AllocError>
        requires band { AreInBand band.now }
        requires nothing { self.old.spans.items ≡ [] }
        ensures columns { OnOk result (IsColumns (span_steps self.new.spans.items)) }
        ensures points { OnOk result ((x : ℤ) → has_column (span_steps self.new.spans.items) x ≡ in_columns x band.now) }
    {
        for rect in band {
            self.spans.push(Span {
                left: rect.left,
                right: rect.right,
            })?;
        }
        Ok(())
    }

    /// The spans of an operation on two bands, in the place of all others.
    #[inline(always)]
    pub fn combine(
        &mut self,
        operation: Operation,
        left: &[Rect],
        right: &[Rect],
    ) -> Result<(), AllocError>
        requires left { AreInBand left.now }
        requires right { AreInBand right.now }
        ensures columns { OnOk result (IsColumns (span_steps self.new.spans.items)) }
        ensures points { OnOk result ((x : ℤ) → has_column (span_steps self.new.spans.items) x ≡
            holds_after operation (in_columns x left.now) (in_columns x right.now)) }
    {
        self.clear();
        match (left, right) {
            (_, []) if operation.holds(true, false) => self.copy(left),
            ([], _) if operation.holds(false, true) => self.copy(right),
            (_, []) => Ok(()),
            ([], _) => Ok(()),
            _ => match operation {
                Operation::Union => add_either(self, left, right),
                Operation::Intersect => add_common(self, left, right),
                Operation::Subtract => add_others(self, left, right),
                Operation::Xor => sweep(
                    operation,
                    SpanCursor::new(left),
                    SpanCursor::new(right),
                    self,
                ),
            },
        }
    }
}

impl Output<SpanCursor<'_>> for SpanList {
    ghost Value = { Bool };

    ghost holds = { λ b x. b };

    ghost is_valid = { λ b. Unit {0} };

    ghost empty = { false };

    ghost has = { λ list steps. steps_of list ≡ steps };

    ghost limit = { λ list. 0 };

    fn put(
        &mut self,
        operation: Operation,
        place: i32,
        a: &SpanCursor<'_>,
        b: &SpanCursor<'_>,
    ) -> Result<(), AllocError> {
        self.turn(place, operation.holds(a.inside, b.inside))
    }
}
