//! The bands of rectangles, row after row.

ghost use Rattle.std.specs.Prelude.{◌≡◌, ◌<◌, ◌+◌, ◌^◌, ◌≤◌, ◌≤ℤ◌, ◌↔◌, ◌∷◌, ◌++◌, [], pos, IfOk, OnOk, MatchOption, IsTrue};
ghost use Rattle.std.specs.List.{All, filter};
ghost use Rattle.geom_base.specs.Points.{is_in_some, has_points};
ghost use Rattle.geom_base.specs.declared.point.Point.{Point};
ghost use Rattle.region.specs.Limits.{most_rects};
ghost use Rattle.region.specs.InnerColumns.{IsColumns};
ghost use Rattle.region.specs.Band.{Bands};
ghost use Rattle.region.specs.InnerSweep.{CanTake};
ghost use Rattle.region.specs.InnerBandList.{IsBuilt, IsCounted};
ghost use Rattle.region.specs.InnerCover.{strip_of, columns_in, IsCover};
ghost use Rattle.region.specs.InnerEdges.{IsRising};
ghost use Rattle.region.specs.InnerScan.{HasBothEdges, IsSolid, IsArranged, AreReady, BeginBelow, HaveBegun, IsNextRow};

use crate::band_list::{BandList, MOST_RECTS};
use crate::cover::Cover;
use geom_base::Rect;
use std::alloc::{AllocError, Global};

/// Whether a rectangle has points, between coordinates that its edges can have.
fn is_solid(rect: Rect) -> bool
    ensures points { result ≡ has_points rect }
    ensures solid { IsTrue result → IsSolid rect }
{
    rect.has_points()
}

/// Those of the rectangles that have points.
fn solid_rects(alloc: Global, rects: &[Rect]) -> Result<Vec<Rect>, AllocError>
    ensures rects { IfOk result (λ r. r.items ≡ filter has_points rects.now) }
    ensures solid { IfOk result (λ r. All IsSolid r.items) }
{
    let mut solid = Vec::new(alloc);
    for rect in rects {
        if is_solid(*rect) {
            solid.push(*rect)?;
        }
    }
    Ok(solid)
}

/// The same points, by rectangles from top to bottom.
fn sorted_rects(alloc: Global, rects: &[Rect]) -> Result<Vec<Rect>, AllocError>
    ensures { IfOk result (λ r. IsArranged rects.now r.items) }
{
    let mut sorted = solid_rects(alloc, rects)?;
    sorted.sort_unstable_by_key(|rect| rect.top);
    Ok(sorted)
}

/// The left and right edges, from left to right.
fn edges_of(alloc: Global, rects: &[Rect]) -> Result<Vec<i32>, AllocError>
    ensures rising { IfOk result (λ r. IsRising r.items) }
    ensures edges { IfOk result (λ r. All (HasBothEdges r.items) rects.now) }
{
    let mut edges = Vec::new(alloc);
    for rect in rects {
        edges.push(rect.left)?;
        edges.push(rect.right)?;
    }
    edges.sort_unstable();
    edges.dedup();
    Ok(edges)
}

/// The row in which something changes next.
fn next_row(rest: &[Rect], steady: &i32) -> Option<i32>
    ensures { MatchOption result ((rest.now ≡ []) × (steady.now ≡ pos 2147483647)) (IsNextRow steady.now rest.now) }
{
    if let [first, ..] = rest {
        if first.top <= *steady {
            return Some(first.top);
        }
    }
    if *steady == i32::MAX {
        return None;
    }
    Some(*steady + 1)
}

/// Covers the columns of the rectangles that begin in a row; answers the others.
fn add_first<'a>(cover: &mut Cover, rects: &'a [Rect], row: &i32, place: &i32) -> &'a [Rect]
    requires cover { IsCover row.now cover.old }
    requires ready { AreReady cover.old rects.now }
    requires below { BeginBelow place.now rects.now }
    requires order { row.now ≤ℤ place.now }
    ensures { HaveBegun row.now place.now rects.now cover.old result.now cover.new }
{
    let mut rest = rects;
    while let [first, ..] = rest {
        if *place < first.top {
            break;
        }
        cover.add(first, row);
        rest = rest.split_at(1).1;
    }
    rest
}

/// Adds the band that begins in a row.
fn push_band(
    alloc: Global,
    bands: &mut BandList,
    cover: &Cover,
    row: &i32,
) -> Result<(), AllocError>
    requires cover { IsCover row.now cover.now }
    requires steady { row.now ≤ℤ (strip_of cover.now).steady }
    requires columns { IsColumns (columns_in cover.now row.now) }
    requires room { bands.old.count + (strip_of cover.now).row.runs < 2 ^ 64 }
    requires counted { (lists : Bands) × IsCounted bands.old lists × CanTake IsColumns row.now lists }
    ensures counted { OnOk result ((lists : Bands) → IsCounted bands.old lists → CanTake IsColumns row.now lists →
        IsCounted bands.new (lists ++ record { from = row.now; value = columns_in cover.now row.now } ∷ [])) }
    ensures most { OnOk result (bands.new.most ≡ bands.old.most) }
{
    let runs = cover.strip().row.runs;
    if bands.is_past(runs) {
        bands.add(runs);
        return Ok(());
    }
    let columns = cover.columns(alloc, row)?;
    bands.begin(*row, columns.spans())
}

/// Whether three numbers are equal.
fn are_equal(a: u64, b: u64, c: u64) -> bool
    ensures { IsTrue result ↔ ((a ≡ b) × (b ≡ c)) }
{
    a == b && b == c
}

/// The bands of the rectangles, counted.
pub fn scanned_bands(alloc: Global, rects: &[Rect]) -> Result<BandList, AllocError>
    ensures { IfOk result (IsBuilt most_rects (λ p. is_in_some p rects.now)) }
{
    let mut bands = BandList::new(alloc, MOST_RECTS);
    let sorted = sorted_rects(alloc, rects)?;
    let [first, ..] = sorted.as_slice() else {
        return Ok(bands);
    };
    let edges = edges_of(alloc, &sorted)?;
    let mut cover = Cover::over(alloc, &edges)?;
    let mut row = first.top;
    let mut rest = sorted.as_slice();
    while let Some(next) = next_row(rest, &cover.strip().steady) {
        let above = cover.strip().row.filled;
        rest = add_first(&mut cover, rest, &row, &next);
        let with = cover.strip().row.filled;
        cover.go_to(&next);
        row = next;
        if are_equal(above, with, cover.strip().row.filled) {
            continue;
        }
        push_band(alloc, &mut bands, &cover, &row)?;
    }
    Ok(bands)
}
