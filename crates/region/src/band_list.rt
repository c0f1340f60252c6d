//! Bands from top to bottom, and the number of their rectangles.

ghost use Rattle.std.specs.Prelude.{◌≡◌, ◌<◌, ◌≤◌, ◌+◌, ◌^◌, ◌∷◌, ◌++◌, ◌↔◌, [], OnOk, IsTrue, length, map, nat_lt, take, drop};
ghost use Rattle.region.specs.Columns.{has_column};
ghost use Rattle.region.specs.Band.{Bands};
ghost use Rattle.region.specs.InnerColumns.{IsColumns};
ghost use Rattle.region.specs.InnerSweep.{CanTake, IsPut};
ghost use Rattle.region.specs.InnerSpanList.{span_steps};
ghost use Rattle.region.specs.InnerBandList.{ended_at, IsKept, IsCounted};
ghost use Rattle.region.specs.InnerSpanList.{span_of};

use crate::span::Span;
use geom_base::Rect;
use std::alloc::{AllocError, Global};

/// The most rectangles of a region.
pub const MOST_RECTS: u64 = 4_096;

/// The rectangles of bands from top to bottom, and their number; where they are too many only those of the last band are kept.
#[derive(Drop)]
pub struct BandList {
    /// Those of the last band end where they begin: it is not known yet where it ends.
    pub rects: Vec<Rect>,
    /// How many of them are of bands before the last.
    ended: usize,
    pub count: u64,
    most: u64,
}

impl BandList {
    /// No bands, of which so many rectangles are kept.
    pub fn new(alloc: Global, most: u64) -> BandList
        ensures kept { IsKept result [] }
        ensures most { result.most ≡ most }
    {
        BandList {
            rects: Vec::new(alloc),
            ended: 0,
            count: 0,
            most,
        }
    }

    /// Makes room for so many rectangles more.
    pub fn reserve(&mut self, more: usize) -> Result<(), AllocError>
        ensures kept { (bands : Bands) → IsKept self.old bands → IsKept self.new bands }
        ensures most { self.new.most ≡ self.old.most }
    {
        self.rects.reserve(more)
    }

    /// From a row on, the columns are those of these spans.
    #[inline(always)]
    pub fn put_row(&mut self, place: i32, spans: &[Span]) -> Result<(), AllocError>
        requires columns { IsColumns (span_steps spans.now) }
        requires bands { (bands : Bands) × IsKept self.old bands × CanTake IsColumns place bands }
        ensures put { OnOk result ((bands : Bands) → IsKept self.old bands → CanTake IsColumns place bands →
            (more : Bands) × IsKept self.new more × IsPut has_column IsColumns [] (has_column (span_steps spans.now)) place bands more) }
        ensures most { OnOk result (self.new.most ≡ self.old.most) }
    {
        if have_spans(self.rects.split_at(self.ended).1, spans) {
            return Ok(());
        }
        self.begin(place, spans)
    }

    /// Begins a band, whose columns are not those of the last one.
    pub fn begin(&mut self, place: i32, spans: &[Span]) -> Result<(), AllocError>
        requires columns { IsColumns (span_steps spans.now) }
        requires bands { (bands : Bands) × IsCounted self.old bands × CanTake IsColumns place bands }
        ensures kept { OnOk result ((bands : Bands) → IsKept self.old bands → CanTake IsColumns place bands →
            IsKept self.new (bands ++ record { from = place; value = span_steps spans.now } ∷ [])) }
        ensures counted { OnOk result ((bands : Bands) → IsCounted self.old bands → CanTake IsColumns place bands →
            IsCounted self.new (bands ++ record { from = place; value = span_steps spans.now } ∷ [])) }
        ensures most { OnOk result (self.new.most ≡ self.old.most) }
    {
        self.end(place);
        self.add(spans.len() as u64);
        for span in spans {
            self.rects.push(Rect {
                left: span.left,
                top: place,
                right: span.right,
                bottom: place,
            })?;
        }
        Ok(())
    }

    /// Whether this and so many rectangles more are too many.
    pub fn is_past(&self, more: u64) -> bool
        requires { self.now.count + more < 2 ^ 64 }
        ensures { result ≡ nat_lt self.now.most (self.now.count + more) }
    {
        self.count + more > self.most
    }

    /// Ends the last band before a row.
    fn end(&mut self, place: i32)
        requires { self.old.ended ≤ length self.old.rects.items }
        ensures rects { self.new.rects.items ≡ take self.old.ended self.old.rects.items ++
            map (ended_at place) (drop self.old.ended self.old.rects.items) }
        ensures ended { self.new.ended ≡ length self.old.rects.items }
        ensures count { self.new.count ≡ self.old.count }
        ensures most { self.new.most ≡ self.old.most }
    {
        end_rects(&mut self.rects[self.ended..], &place);
        self.ended = self.rects.len();
    }

    /// Counts so many rectangles more.
    pub fn add(&mut self, more: u64)
        requires { self.old.count + more < 2 ^ 64 }
        ensures count { self.new.count ≡ self.old.count + more }
        ensures few { self.old.count + more ≤ self.old.most → (self.new.rects.items ≡ self.old.rects.items) × (self.new.ended ≡ self.old.ended) }
        ensures many { self.old.most < self.old.count + more → (self.new.rects.items ≡ []) × (self.new.ended ≡ 0) }
        ensures most { self.new.most ≡ self.old.most }
    {
        self.count += more;
        if self.count > self.most {
            self.rects.clear();
            self.ended = 0;
        }
    }
}

/// Ends rectangles before a row.
fn end_rects(rects: &mut [Rect], place: &i32)
    ensures { rects.new ≡ map (ended_at place.now) rects.old }
{
    for rect in rects {
        rect.bottom = *place;
    }
}

/// Whether rectangles of a band have these spans.
fn have_spans(band: &[Rect], spans: &[Span]) -> bool
    ensures { IsTrue result ↔ (map span_of band.now ≡ spans.now) }
{
    let mut rects = band;
    let mut rest = spans;
    while let ([rect, ..], [span, ..]) = (rects, rest) {
        if rect.left != span.left || rect.right != span.right {
            return false;
        }
        rects = rects.split_at(1).1;
        rest = rest.split_at(1).1;
    }
    rects.is_empty() && rest.is_empty()
}
