//! Rectangles that lie in rows already.

ghost use Rattle.std.specs.Prelude.{◌≡◌, ◌≤ℤ◌, ◌<ℤ◌, ◌++◌, ℤ, IfOk, IfSome, OnOk, IsTrue};
ghost use Rattle.region.specs.Spans.{AreSpans, rects_of_spans};
ghost use Rattle.region.specs.Builder.{HasRows};
ghost use Rattle.region.specs.InnerRectRows.{IsNext};

use crate::builder::RegionBuilder;
use crate::span::Span;
use geom_base::Rect;
use std::alloc::{AllocError, Global};

/// Whether a rectangle has rows, at the end of others or below.
fn is_below(rect: &Rect, end: &i32) -> bool
    ensures { IsTrue result → (end.now ≤ℤ rect.now.top) × (rect.now.top <ℤ rect.now.bottom) }
{
    *end <= rect.top && rect.top < rect.bottom
}

/// Whether a rectangle has columns, at the end of others or to the right, and the rows of another.
fn is_next(rect: &Rect, row: &Rect, end: &i32) -> bool
    ensures { IsTrue result → IsNext row.now end.now rect.now }
{
    if rect.top != row.top {
        return false;
    }
    if rect.bottom != row.bottom {
        return false;
    }
    *end <= rect.left && rect.left < rect.right
}

/// Reads the spans of as many rectangles as have the rows of one and lie from left to right; answers the others.
fn read_row<'a>(
    spans: &mut Vec<Span>,
    row: &Rect,
    rects: &'a [Rect],
) -> Result<&'a [Rect], AllocError>
    ensures spans { OnOk result (AreSpans spans.new.items) }
    ensures rects { IfOk result (λ r. rects_of_spans row.now.top row.now.bottom spans.new.items ++ r.now ≡ rects.now) }
{
    spans.clear();
    let mut end = i32::MIN;
    let mut rest = rects;
    while let [rect, ..] = rest {
        if !is_next(rect, row, &end) {
            break;
        }
        spans.push(Span {
            left: rect.left,
            right: rect.right,
        })?;
        end = rect.right;
        rest = rest.split_at(1).1;
    }
    Ok(rest)
}

/// A builder with all the rectangles, where they lie in rows from top to bottom and in a row from left to right; none where
/// they do not.
pub fn built_by_rows(alloc: Global, rects: &[Rect]) -> Result<Option<RegionBuilder>, AllocError>
    ensures { IfOk result (λ r. IfSome r (λ b. (end : ℤ) × HasRows rects.now end b)) }
{
    let mut builder = RegionBuilder::new(alloc);
    let mut spans = Vec::new(alloc);
    let mut end = i32::MIN;
    let mut rest = rects;
    while let [first, ..] = rest {
        let below = read_row(&mut spans, first, rest)?;
        if spans.is_empty() || !is_below(first, &end) {
            return Ok(None);
        }
        builder.push_row(first.top, first.bottom, &spans)?;
        end = first.bottom;
        rest = below;
    }
    Ok(Some(builder))
}
