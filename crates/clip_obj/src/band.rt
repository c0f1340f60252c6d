//! Bands in a list of rectangles.

ghost use Rattle.std.specs.Prelude.{◌≡◌, ◌<◌, ◌≤◌, length, get_or, ◌+◌};
ghost use Rattle.std.specs.List.{AllWithin};
ghost use Rattle.geom_base.specs.Points.{no_rect};
ghost use Rattle.region.specs.Order.{IsInOrder};
ghost use Rattle.clip_obj.specs.InnerBand.{BeginsWith, BeginsOff, IsBandAt, IsBand};
ghost use Rattle.clip_obj.specs.Order.{turned};

use geom_base::Rect;

/// The places of a band, from the first to before the last; or no places.
#[derive(Clone, Copy, Debug, PartialEq, Eq)]
pub struct Band {
    pub start: usize,
    pub end: usize,
}

/// No places.
pub const NO_BAND: Band = Band { start: 0, end: 0 };

/// Where the band of the rectangle at a place starts.
fn band_start(rects: &[Rect], place: usize) -> usize
    requires in_order { IsInOrder rects.now }
    requires place { place < length rects.now }
    ensures from { result ≤ place }
    ensures inside { AllWithin (BeginsWith rects.now place) rects.now result (place + 1) }
    ensures before { AllWithin (BeginsOff rects.now place) rects.now 0 result }
{
    let mut start = place;
    while start > 0 {
        if rects[start - 1].top != rects[place].top {
            return start;
        }
        start -= 1;
    }
    0
}

/// Where the band of the rectangle at a place has ended.
fn band_end(rects: &[Rect], place: usize) -> usize
    requires in_order { IsInOrder rects.now }
    requires place { place < length rects.now }
    ensures to { place < result }
    ensures within { result ≤ length rects.now }
    ensures inside { AllWithin (BeginsWith rects.now place) rects.now place result }
    ensures after { AllWithin (BeginsOff rects.now place) rects.now result (length rects.now) }
{
    for end in place + 1..rects.len() {
        if rects[end].top != rects[place].top {
            return end;
        }
    }
    rects.len()
}

/// The band of the rectangle at a place: the one at hand if it lies there.
fn band_at(rects: &[Rect], band: Band, place: usize) -> Band
    requires in_order { IsInOrder rects.now }
    requires band { IsBand rects.now band }
    requires place { place < length rects.now }
    ensures { IsBandAt rects.now result place }
{
    if band.start <= place && place < band.end {
        return band;
    }
    Band {
        start: band_start(rects, place),
        end: band_end(rects, place),
    }
}

/// The rectangle at a place where each band stands from the right, and the band of that place.
pub fn turned_at(rects: &[Rect], band: &mut Band, place: usize) -> Rect
    requires in_order { IsInOrder rects.now }
    requires band { IsBand rects.now band.old }
    requires place { place < length rects.now }
    ensures rect { result ≡ get_or (turned rects.now) place no_rect }
    ensures band { IsBand rects.now band.new }
{
    *band = band_at(rects, *band, place);
    rects[band.start + (band.end - 1 - place)]
}
