//! The columns of two bands, from left to right.

ghost use Rattle.std.specs.Prelude.{◌≡◌, ◌<ℤ◌, ◌&&◌, ◌||◌, not, [], ◌∷◌, ℤ, OnOk, MatchOption};
ghost use Rattle.region.specs.Columns.{has_column};
ghost use Rattle.region.specs.InnerColumns.{IsColumns};
ghost use Rattle.region.specs.InnerCursor.{AreInBand, in_columns};
ghost use Rattle.region.specs.InnerSpanList.{span_steps};
ghost use Rattle.region.specs.InnerRows.{IsFree, IsTaken};

use crate::search::past;
use crate::span_list::SpanList;
use geom_base::Rect;
use std::alloc::AllocError;

/// Adds the columns of a band that a rectangle has.
#[inline(never)]
pub fn add_within(row: &mut SpanList, band: &[Rect], bounds: &Rect) -> Result<(), AllocError>
    requires band { AreInBand band.now }
    requires across { bounds.now.left <ℤ bounds.now.right }
    requires nothing { row.old.spans.items ≡ [] }
    ensures columns { OnOk result (IsColumns (span_steps row.new.spans.items)) }
    ensures points { OnOk result ((x : ℤ) → has_column (span_steps row.new.spans.items) x ≡ (in_columns x band.now && in_columns x (bounds.now ∷ []))) }
{
    let mut rest = past(band, &bounds.left);
    while let [rect, ..] = rest {
        if bounds.right <= rect.left {
            break;
        }
        row.add(rect.left.max(bounds.left), rect.right.min(bounds.right))?;
        rest = rest.split_at(1).1;
    }
    Ok(())
}

/// Adds the columns that both bands have.
#[inline(never)]
pub fn add_common(row: &mut SpanList, left: &[Rect], right: &[Rect]) -> Result<(), AllocError>
    requires left { AreInBand left.now }
    requires right { AreInBand right.now }
    requires nothing { row.old.spans.items ≡ [] }
    ensures columns { OnOk result (IsColumns (span_steps row.new.spans.items)) }
    ensures points { OnOk result ((x : ℤ) → has_column (span_steps row.new.spans.items) x ≡ (in_columns x left.now && in_columns x right.now)) }
{
    if let [only] = right {
        return add_within(row, left, only);
    }
    let mut a = left;
    let mut b = right;
    while let ([first, ..], [second, ..]) = (a, b) {
        let from = first.left.max(second.left);
        let to = first.right.min(second.right);
        row.add(from, to)?;
        let place = from.max(to);
        a = past(a, &place);
        b = past(b, &place);
    }
    Ok(())
}

/// Where a rectangle ends for now, before the first of a band or at its own end, and from where on it has to be looked at again.
fn end_before(rect: &Rect, band: &[Rect]) -> (i32, i32)
    ensures { IsFree rect.now band.now result.0 result.1 }
{
    match band {
        [hole, ..] if hole.left < rect.right => (hole.left, hole.right),
        _ => (rect.right, rect.right),
    }
}

/// Adds the columns of one band that another does not have.
#[inline(never)]
pub fn add_others(row: &mut SpanList, left: &[Rect], right: &[Rect]) -> Result<(), AllocError>
    requires left { AreInBand left.now }
    requires right { AreInBand right.now }
    requires nothing { row.old.spans.items ≡ [] }
    ensures columns { OnOk result (IsColumns (span_steps row.new.spans.items)) }
    ensures points { OnOk result ((x : ℤ) → has_column (span_steps row.new.spans.items) x ≡ (in_columns x left.now && not (in_columns x right.now))) }
{
    let [first, ..] = left else {
        return Ok(());
    };
    let mut place = first.left;
    let mut a = left;
    let mut b = right;
    while let [rect, ..] = a {
        let from = rect.left.max(place);
        let (to, end) = end_before(rect, b);
        row.add(from, to)?;
        place = end.max(from);
        a = past(a, &place);
        b = past(b, &place);
    }
    Ok(())
}

/// The rectangle of two bands that begins first, and what is left of both.
#[inline(always)]
fn leftmost<'a>(a: &'a [Rect], b: &'a [Rect]) -> Option<(&'a Rect, &'a [Rect], &'a [Rect])>
    ensures { MatchOption result ((a.now ≡ []) × (b.now ≡ [])) (λ r. IsTaken r.0.now a.now b.now r.1.now r.2.now) }
{
    match (a, b) {
        ([first, ..], [second, ..]) if second.left < first.left => {
            Some((second, a, b.split_at(1).1))
        }
        ([first, ..], _) => Some((first, a.split_at(1).1, b)),
        ([], [second, ..]) => Some((second, a, b.split_at(1).1)),
        ([], []) => None,
    }
}

/// Adds the columns that either band has.
#[inline(never)]
pub fn add_either(row: &mut SpanList, left: &[Rect], right: &[Rect]) -> Result<(), AllocError>
    requires left { AreInBand left.now }
    requires right { AreInBand right.now }
    requires nothing { row.old.spans.items ≡ [] }
    ensures columns { OnOk result (IsColumns (span_steps row.new.spans.items)) }
    ensures points { OnOk result ((x : ℤ) → has_column (span_steps row.new.spans.items) x ≡ (in_columns x left.now || in_columns x right.now)) }
{
    let Some((first, rest_left, rest_right)) = leftmost(left, right) else {
        return Ok(());
    };
    let mut from = first.left;
    let mut to = first.right;
    let mut a = rest_left;
    let mut b = rest_right;
    while let Some((next, rest_a, rest_b)) = leftmost(a, b) {
        if to < next.left {
            row.add(from, to)?;
            from = next.left;
        }
        to = to.max(next.right);
        a = rest_a;
        b = rest_b;
    }
    row.add(from, to)
}
