//! Sets of points.

ghost use Rattle.std.specs.Prelude.{◌≡◌, ◌≤◌, ◌↔◌, Bool, ◌||◌, ◌&&◌, not, false, length, map, IfOk, IfErr, IsTrue, if◌then◌else◌};
ghost use Rattle.std.specs.List.{All, AllPairs};
ghost use Rattle.geom_base.specs.declared.point.Point.{Point};
ghost use Rattle.geom_base.specs.Points.{is_in, is_in_some, moved_rect, AreApart, RectMoves, moved_back};
ghost use Rattle.region.specs.Limits.{most_rects};
ghost use Rattle.region.specs.InnerBandList.{IsBuilt};
ghost use Rattle.region.specs.Moved.{RegionMoves};
ghost use Rattle.region.specs.Operation.{holds_after};
ghost use Rattle.region.specs.Extents.{AreExtents};
ghost use Rattle.region.specs.Region.{IsRegion, RegionIsUnique, IsRegionOf, SharesPoint};
ghost use Rattle.region.specs.Order.{IsInOrder, RegionIsInOrder};
ghost use Rattle.region.specs.Refusal.{IsAnswer};
ghost use Rattle.region.specs.Lengths.{RectIsRegion, MadeOfIsFew, DifferenceIsFew};
ghost use Rattle.region.specs.Window.{Within};
ghost use Rattle.region.specs.Canonical.{canonical_rects, CanonicalIsOfSet, Gives, AnswersAreCanonical};

use crate::band_cursor::BandCursor;
use crate::band_list::{BandList, MOST_RECTS};
use crate::band_output::BandOutput;
use crate::bounds::rects_of_bounds;
use crate::extents::{extents_of, moved_extents};
use crate::meets::rects_meet;
use crate::operation::Operation;
use crate::rect_list::{any_holds, has_edges, moved_rects};
use crate::rect_rows::built_by_rows;
use crate::refusal::RegionRefusal;
use crate::scan::scanned_bands;
use crate::sweep::sweep;
use crate::union::united;
use geom_base::{Point, Rect};
use std::alloc::{AllocError, Global};
use std::marker::Model;

/// A set of points.
#[derive(Drop)]
pub struct Region {
    rects: Vec<Rect>,
    extents: Rect,
}

impl Model for Region {
    ghost use Rattle.std.specs.Prelude.{List};
    ghost use Rattle.geom_base.specs.declared.rect.Rect.{Rect};
    ghost use Rattle.region.specs.InnerExtents.{IsKeptRegion};

    ghost Value = { List Rect };

    ghost view = { λ r. r.rects.items };

    ghost invariant = { λ r. IsKeptRegion r.rects.items r.extents };
}

/// The region of a list that is one.
fn region_of_rects(rects: Vec<Rect>) -> Region
    requires region { IsRegion rects.items }
    requires few { length rects.items ≤ most_rects }
    ensures { result ≡ rects.items }
{
    let extents = extents_of(&rects);
    Region { rects, extents }
}

/// The region of counted bands.
pub fn region_of_list(list: BandList) -> Result<Region, RegionRefusal>
    requires { (set : Point → Bool) × IsBuilt most_rects set list }
    ensures { (set : Point → Bool) → IsBuilt most_rects set list → IsAnswer set result }
{
    if list.count > MOST_RECTS {
        return Err(RegionRefusal::TooMany(list.count));
    }
    let mut rects = list.rects;
    rects.shrink_to_fit();
    Ok(region_of_rects(rects))
}

/// The bands after an operation on the lists of two regions, of which so many rectangles are kept.
fn combined_bands(
    alloc: Global,
    operation: Operation,
    a: &[Rect],
    b: &[Rect],
    most: u64,
) -> Result<BandList, AllocError>
    requires left { IsRegion a.now }
    requires right { IsRegion b.now }
    ensures { IfOk result (IsBuilt most (λ p. holds_after operation (is_in_some p a.now) (is_in_some p b.now))) }
{
    let mut out = BandOutput::new(alloc, most);
    sweep(operation, BandCursor::new(a), BandCursor::new(b), &mut out)?;
    Ok(out.list)
}

impl Region {
    /// The points of any of the rectangles.
    pub fn from_rects(alloc: Global, rects: &[Rect]) -> Result<Region, RegionRefusal>
        ensures answer { IsAnswer (λ p. is_in_some p rects.now) result }
        ensures canonical { Within rects.now → Gives (canonical_rects (λ p. is_in_some p rects.now)) result }
    {
        if let Some(builder) = built_by_rows(alloc, rects)? {
            return builder.finish();
        }
        let bands = scanned_bands(alloc, rects)?;
        region_of_list(bands)
    }

    /// The rectangles, from top to bottom and in a band from left to right.
    pub fn rects(&self) -> &[Rect]
        ensures rects { result.now ≡ self.now }
        ensures canonical { IsRegion self.now }
        ensures apart { AllPairs AreApart self.now }
        ensures in_order { IsInOrder self.now }
        ensures few { length self.now ≤ most_rects }
    {
        self.rects.as_slice()
    }

    /// The points of an operation on this one and another.
    pub fn combined(
        &self,
        alloc: Global,
        operation: Operation,
        other: &Region,
    ) -> Result<Region, RegionRefusal>
        ensures answer { IsAnswer (λ p. holds_after operation (is_in_some p self.now) (is_in_some p other.now)) result }
        ensures canonical { Within self.now → Within other.now →
            Gives (canonical_rects (λ p. holds_after operation (is_in_some p self.now) (is_in_some p other.now))) result }
    {
        match operation {
            Operation::Intersect if self.is_apart(other) => Ok(region_of_rects(Vec::new(alloc))),
            Operation::Subtract if self.is_apart(other) => Ok(self.copied(alloc)?),
            Operation::Union => united(alloc, &self.rects, &other.rects)?.finish(),
            _ => {
                let bands = combined_bands(
                    alloc,
                    operation,
                    &self.rects,
                    &other.rects,
                    MOST_RECTS,
                )?;
                region_of_list(bands)
            }
        }
    }

    /// Whether the extents of the two share no point.
    fn is_apart(&self, other: &Region) -> bool
        ensures { IsTrue result → (p : Point) → (is_in_some p self.now && is_in_some p other.now) ≡ false }
    {
        !self.extents.meets(other.extents)
    }

    /// The same points once more.
    fn copied(&self, alloc: Global) -> Result<Region, AllocError>
        ensures same { IfOk result (λ r. r ≡ self.now) }
        ensures region { IfOk result IsRegion }
        ensures few { IfOk result (λ r. length r ≤ most_rects) }
    {
        Ok(Region {
            rects: Vec::from_slice(alloc, &self.rects)?,
            extents: self.extents,
        })
    }

    /// The smallest rectangle that has all points; one without points where there are none.
    pub fn extents(&self) -> Rect
        ensures { AreExtents self.now result }
    {
        self.extents
    }

    /// Whether the point is in the set.
    pub fn holds(&self, p: Point) -> bool
        ensures { result ≡ is_in_some p self.now }
    {
        any_holds(&self.rects, &p)
    }

    /// Whether a point of a rectangle is in the set.
    pub fn meets(&self, rect: &Rect) -> bool
        ensures { IsTrue result ↔ SharesPoint (λ p. is_in_some p self.now) rect.now }
    {
        rects_meet(&self.rects, rect)
    }

    /// Whether all edges moved are from -32768 to 32767.
    pub fn can_offset(&self, by: Point) -> bool
        ensures within { IsTrue result ↔ Within (map (λ rect. moved_rect rect by) self.now) }
        ensures can_move { IsTrue result → All (RectMoves by) self.now }
    {
        if !self.extents.has_points() {
            return true;
        }
        has_edges(&self.extents, &by)
    }

    /// The points moved.
    pub fn offset(&self, alloc: Global, by: Point) -> Result<Region, RegionRefusal>
        requires { All (RectMoves by) self.now }
        ensures answer { IsAnswer (λ p. is_in_some (moved_back by p) self.now) result }
        ensures canonical { Within (map (λ rect. moved_rect rect by) self.now) →
            Gives (canonical_rects (λ p. is_in_some (moved_back by p) self.now)) result }
        ensures moved { IfOk result (λ r. r ≡ map (λ rect. moved_rect rect by) self.now) }
        ensures few { IfErr result (λ refusal. refusal ≡ RegionRefusal.NoMemory) }
    {
        Ok(Region {
            rects: moved_rects(alloc, &self.rects, &by)?,
            extents: moved_extents(self.extents, by),
        })
    }

    /// The rectangles of the points in a rectangle, however many.
    pub fn clipped(&self, alloc: Global, bounds: &Rect) -> Result<Vec<Rect>, AllocError>
        ensures region { IfOk result (λ r. IsRegionOf (λ p. is_in_some p self.now && is_in p bounds.now) r.items) }
        ensures in_order { IfOk result (λ r. IsInOrder r.items) }
    {
        if self.extents.intersect(*bounds) == self.extents {
            return Vec::from_slice(alloc, &self.rects);
        }
        self.cut(alloc, bounds)
    }

    /// The same by a sweep.
    fn cut(&self, alloc: Global, bounds: &Rect) -> Result<Vec<Rect>, AllocError>
        ensures region { IfOk result (λ r. IsRegionOf (λ p. is_in_some p self.now && is_in p bounds.now) r.items) }
        ensures in_order { IfOk result (λ r. IsInOrder r.items) }
    {
        let frame = rects_of_bounds(alloc, bounds)?;
        let bands = combined_bands(alloc, Operation::Intersect, &self.rects, &frame, u64::MAX)?;
        Ok(bands.rects)
    }

    /// The points of either.
    pub fn union(&self, alloc: Global, other: &Region) -> Result<Region, RegionRefusal>
        ensures { IsAnswer (λ p. is_in_some p self.now || is_in_some p other.now) result }
    {
        self.combined(alloc, Operation::Union, other)
    }

    /// The points of both.
    pub fn intersect(&self, alloc: Global, other: &Region) -> Result<Region, RegionRefusal>
        ensures { IsAnswer (λ p. is_in_some p self.now && is_in_some p other.now) result }
    {
        self.combined(alloc, Operation::Intersect, other)
    }

    /// The points of this one that are not in the other.
    pub fn subtract(&self, alloc: Global, other: &Region) -> Result<Region, RegionRefusal>
        ensures { IsAnswer (λ p. is_in_some p self.now && not (is_in_some p other.now)) result }
    {
        self.combined(alloc, Operation::Subtract, other)
    }

    /// The points of exactly one.
    pub fn xor(&self, alloc: Global, other: &Region) -> Result<Region, RegionRefusal>
        ensures { IsAnswer (λ p. if is_in_some p self.now then not (is_in_some p other.now) else is_in_some p other.now) result }
    {
        self.combined(alloc, Operation::Xor, other)
    }
}

/// Equal sets of points have equal rectangles, which are apart and in order, and are those of the canonical list of the set;
/// a set that is made of few rectangles has few, and the list of a set that is moved is moved.
pub fn regions_are_canonical()
    ensures unique { RegionIsUnique }
    ensures in_order { RegionIsInOrder }
    ensures canonical { CanonicalIsOfSet }
    ensures answers { AnswersAreCanonical }
    ensures single { RectIsRegion }
    ensures made { MadeOfIsFew }
    ensures difference { DifferenceIsFew }
    ensures moved { RegionMoves }
{}
