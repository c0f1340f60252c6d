//! Whether a set has a point of a rectangle.

ghost use Rattle.std.specs.Prelude.{◌↔◌, ◌<ℤ◌, ◌≤ℤ◌, ℤ, IsTrue};
ghost use Rattle.geom_base.specs.Points.{is_in_some};
ghost use Rattle.region.specs.Order.{IsInOrder};
ghost use Rattle.region.specs.Region.{SharesPoint};
ghost use Rattle.region.specs.InnerCursor.{AreInBand};
ghost use Rattle.region.specs.InnerMeets.{HasColumnIn};

use crate::search::{Edge, count_until, past};
use geom_base::Rect;

/// Whether a band has a column from one on to before another.
fn has_column_in(band: &[Rect], left: &i32, right: &i32) -> bool
    requires band { AreInBand band.now }
    requires across { left.now <ℤ right.now }
    ensures { IsTrue result ↔ HasColumnIn band.now left.now right.now }
{
    match past(band, left) {
        [] => false,
        [first, ..] => first.left < *right,
    }
}

/// Whether the rectangles of a region have a point of a rectangle.
pub fn rects_meet(rects: &[Rect], rect: &Rect) -> bool
    requires { IsInOrder rects.now }
    ensures { IsTrue result ↔ SharesPoint (λ p. is_in_some p rects.now) rect.now }
{
    if !rect.has_points() {
        return false;
    }
    let mut rest = rects
        .split_at(count_until(rects, Edge::Bottom, &rect.top))
        .1;
    while let [first, ..] = rest {
        if rect.bottom <= first.top {
            return false;
        }
        let (band, below) = rest.split_at(count_until(rest, Edge::Top, &first.top));
        if has_column_in(band, &rect.left, &rect.right) {
            return true;
        }
        rest = below;
    }
    false
}
