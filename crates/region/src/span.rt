//! The spans of a row.

ghost use Rattle.std.specs.Prelude.{◌≡◌, ℤ, OnOk};
ghost use Rattle.region.specs.Columns.{has_column};
ghost use Rattle.region.specs.InnerColumns.{IsColumns};
ghost use Rattle.region.specs.Spans.{in_spans, AreSpans};
ghost use Rattle.region.specs.InnerSpanList.{span_steps};

use crate::span_list::SpanList;
use std::alloc::AllocError;

/// Columns of a row, from the left one to before the right one.
#[derive(Clone, Copy, Debug, PartialEq, Eq)]
pub struct Span {
    pub left: i32,
    pub right: i32,
}

/// Puts spans that do not touch in the place of those of a row, with the same columns as these.
pub fn join_spans(row: &mut SpanList, spans: &[Span]) -> Result<(), AllocError>
    requires { AreSpans spans.now }
    ensures columns { OnOk result (IsColumns (span_steps row.new.spans.items)) }
    ensures points { OnOk result ((x : ℤ) → has_column (span_steps row.new.spans.items) x ≡ in_spans x spans.now) }
{
    row.clear();
    let mut end = i32::MIN;
    for span in spans {
        if end < span.left {
            row.turn(end, false)?;
        }
        row.turn(span.left, true)?;
        end = span.right;
    }
    row.turn(end, false)
}
