//! The clip of a call.

ghost use Rattle.std.specs.Prelude.{◌≡◌, ◌<◌, ◌++◌, ◌↔◌, IsTrue, IfOk, length, map, min, take, drop, All};
ghost use Rattle.std.specs.List.{AllPairs};
ghost use Rattle.std.specs.List.Sorted.{IsPermutation};
ghost use Rattle.geom_base.specs.Points.{AreApart, HasPoints, moved_rect, RectMoves};
ghost use Rattle.region.specs.Region.{IsRegion};
ghost use Rattle.region.specs.Order.{IsInOrder};
ghost use Rattle.clip_obj.specs.Clip.{IsClipOf, IsClipAt, LiesWithin, to_origin};
ghost use Rattle.clip_obj.specs.Complexity.{IsComplexity};
ghost use Rattle.clip_obj.specs.Order.{ordered, ComesBefore};

use crate::band::{Band, NO_BAND};
use crate::batch::fill_batch;
use crate::clipped::clipped_rects;
use crate::complexity::Complexity;
use crate::direction::Direction;
use crate::moved::{all_seen_from, seen_from};
use geom_base::{Point, Rect};
use region::{Region, fills_bounds, regions_are_canonical};
use std::alloc::{AllocError, Global};
use std::marker::Model;

/// The rectangles in which a call may draw, and how far they were handed out.
#[derive(Drop)]
pub struct ClipObj {
    bounds: Rect,
    rects: Vec<Rect>,
    direction: Direction,
    done: usize,
    band: Band,
    ghost inside: { All (LiesWithin bounds) rects.items },
    ghost apart: { AllPairs AreApart rects.items },
}

impl Model for ClipObj {
    ghost use Rattle.std.specs.Prelude.{◌≡◌, ◌≤◌, length, drop, All};
    ghost use Rattle.region.specs.Region.{IsRegion};
    ghost use Rattle.region.specs.Order.{IsInOrder};
    ghost use Rattle.clip_obj.specs.Clip.{Clip, LiesWithin};
    ghost use Rattle.clip_obj.specs.Order.{ordered};
    ghost use Rattle.clip_obj.specs.InnerBand.{IsBand};

    ghost Value = { Clip };

    ghost view = { λ c. record {
      bounds = c.bounds;
      rects = c.rects.items;
      left = drop c.done (ordered c.direction c.rects.items);
      inside = c.inside;
      apart = c.apart;
    } };

    ghost invariant = { λ c. IsRegion c.rects.items × IsInOrder c.rects.items × (c.done ≤ length c.rects.items) × IsBand c.rects.items c.band };
}

impl ClipObj {
    /// The part of a region in bounds, or all of the bounds where there is no region.
    ///
    /// # Errors
    ///
    /// `AllocError` for want of memory.
    pub fn build(
        alloc: Global,
        region: Option<&Region>,
        bounds: Rect,
    ) -> Result<ClipObj, AllocError>
        ensures clip { IfOk result (IsClipOf region.entry bounds) }
        ensures inside { IfOk result (λ c. All (LiesWithin bounds) c.rects) }
    {
        let rects = clipped_rects(alloc, region, &bounds)?;
        Ok(ClipObj::begun(bounds, rects))
    }

    /// The part of a region in bounds, or all of the bounds where there is no region, moved so that a point becomes 0 0.
    ///
    /// # Errors
    ///
    /// `AllocError` for want of memory.
    pub fn build_at(
        alloc: Global,
        region: Option<&Region>,
        bounds: Rect,
        at: Point,
    ) -> Result<ClipObj, AllocError>
        requires { RectMoves (to_origin at) bounds }
        ensures clip { IfOk result (IsClipAt region.entry bounds at) }
        ensures inside { IfOk result (λ c. All (LiesWithin (moved_rect bounds (to_origin at))) c.rects) }
    {
        let clipped = clipped_rects(alloc, region, &bounds)?;
        regions_are_canonical();
        let rects = all_seen_from(&at, clipped);
        Ok(ClipObj::begun(seen_from(&at, &bounds), rects))
    }

    /// The same rectangles in other bounds that have them all, seen from a point, which is 0 0 there; nothing was handed out.
    ///
    /// # Errors
    ///
    /// `AllocError` for want of memory.
    pub fn seen_from(&self, alloc: Global, bounds: Rect, at: Point) -> Result<ClipObj, AllocError>
        requires within { All (LiesWithin bounds) self.now.rects }
        requires moves { RectMoves (to_origin at) bounds }
        ensures bounds { IfOk result (λ c. c.bounds ≡ moved_rect bounds (to_origin at)) }
        ensures rects { IfOk result (λ c. c.rects ≡ map (λ r. moved_rect r (to_origin at)) self.now.rects) }
    {
        let rects = Vec::from_slice(alloc, &self.rects)?;
        regions_are_canonical();
        let rects = all_seen_from(&at, rects);
        Ok(ClipObj::begun(seen_from(&at, &bounds), rects))
    }

    /// The clip of bounds and a region's rectangles within them, of which nothing was handed out.
    fn begun(bounds: Rect, rects: Vec<Rect>) -> ClipObj
        requires canonical { IsRegion rects.items }
        requires in_order { IsInOrder rects.items }
        requires inside { All (LiesWithin bounds) rects.items }
        ensures bounds { result.bounds ≡ bounds }
        ensures rects { result.rects ≡ rects.items }
        ensures left { result.left ≡ rects.items }
    {
        ClipObj {
            bounds,
            rects,
            direction: Direction::Any,
            done: 0,
            band: NO_BAND,
        }
    }

    /// Whether it is all of its bounds, one rectangle, or anything else.
    pub fn complexity(&self) -> Complexity
        ensures { IsComplexity self.now result }
    {
        if fills_bounds(&self.rects, &self.bounds) {
            return Complexity::Trivial;
        }
        if self.rects.len() == 1 {
            return Complexity::Rect;
        }
        Complexity::Complex
    }

    /// Its rectangles, from top to bottom and in a band from left to right.
    pub fn rects(&self) -> &[Rect]
        ensures rects { result.now ≡ self.now.rects }
        ensures points { All HasPoints result.now }
    {
        self.rects.as_slice()
    }

    /// The number of its rectangles.
    pub fn count(&self) -> usize
        ensures count { result ≡ length self.now.rects }
        ensures canonical { IsRegion self.now.rects }
        ensures apart { AllPairs AreApart self.now.rects }
        ensures in_order { IsInOrder self.now.rects }
        ensures inside { All (LiesWithin self.now.bounds) self.now.rects }
    {
        self.rects.len()
    }

    /// Begins to hand out the rectangles anew, in the order of a direction.
    pub fn enum_start(&mut self, direction: Direction)
        ensures start { self.new ≡ record self.old { left = ordered direction self.old.rects } }
        ensures all { IsPermutation self.old.rects self.new.left }
        ensures order { AllPairs (ComesBefore direction) self.new.left }
        ensures apart { AllPairs AreApart self.new.left }
    {
        self.direction = direction;
        self.done = 0;
    }

    /// Puts the next rectangles into the first places: as many as there are places, or all that are left. Answers their number,
    /// and whether more are left.
    pub fn next_batch(&mut self, out: &mut [Rect]) -> (usize, bool)
        requires { 0 < length out.old }
        ensures number { result.0 ≡ min (length out.old) (length self.old.left) }
        ensures batch { out.new ≡ take result.0 self.old.left ++ drop result.0 out.old }
        ensures rest { self.new ≡ record self.old { left = drop result.0 self.old.left } }
        ensures more { IsTrue result.1 ↔ (0 < length self.new.left) }
    {
        let left = self.rects.len() - self.done;
        let len = out.len().min(left);
        fill_batch(
            out,
            len,
            &self.rects,
            &mut self.band,
            self.direction,
            self.done,
        );
        self.done += len;
        (len, len < left)
    }
}
