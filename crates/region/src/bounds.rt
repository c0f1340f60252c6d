//! The regions of single rectangles.

ghost use Rattle.std.specs.Prelude.{◌≡◌, ◌↔◌, IsTrue, IfOk};
ghost use Rattle.geom_base.specs.Points.{is_in, is_in_some};
ghost use Rattle.geom_base.specs.declared.point.Point.{Point};
ghost use Rattle.region.specs.Region.{IsRegion, IsRegionOf};
ghost use Rattle.region.specs.Order.{IsInOrder};

use geom_base::Rect;
use std::alloc::{AllocError, Global};

/// The rectangles of the points in bounds: the bounds themselves, or none where they have no points.
pub fn rects_of_bounds(alloc: Global, bounds: &Rect) -> Result<Vec<Rect>, AllocError>
    ensures region { IfOk result (λ r. IsRegionOf (λ p. is_in p bounds.now) r.items) }
    ensures in_order { IfOk result (λ r. IsInOrder r.items) }
{
    let mut rects = Vec::new(alloc);
    if !bounds.has_points() {
        return Ok(rects);
    }
    rects.push(*bounds)?;
    Ok(rects)
}

/// Whether the rectangles of a region have the points of bounds, all of them and no others.
pub fn fills_bounds(rects: &[Rect], bounds: &Rect) -> bool
    requires { IsRegion rects.now }
    ensures { IsTrue result ↔ ((p : Point) → is_in_some p rects.now ≡ is_in p bounds.now) }
{
    if !bounds.has_points() {
        return rects.is_empty();
    }
    match rects {
        [rect] => rect == bounds,
        _ => false,
    }
}
