//! The rectangles that bounds leave of a region.

ghost use Rattle.std.specs.Prelude.{◌≡◌, ◌&&◌, IfOk};
ghost use Rattle.geom_base.specs.Points.{is_in};
ghost use Rattle.region.specs.Region.{IsRegionOf};
ghost use Rattle.region.specs.Order.{IsInOrder};
ghost use Rattle.clip_obj.specs.Clip.{allows};

use geom_base::Rect;
use region::{Region, rects_of_bounds};
use std::alloc::{AllocError, Global};

/// The rectangles of a region's points in bounds, or of all points in them where there is no region.
pub fn clipped_rects(
    alloc: Global,
    region: Option<&Region>,
    bounds: &Rect,
) -> Result<Vec<Rect>, AllocError>
    ensures region { IfOk result (λ r. IsRegionOf (λ p. allows region.entry p && is_in p bounds.now) r.items) }
    ensures in_order { IfOk result (λ r. IsInOrder r.items) }
{
    match region {
        Some(region) => region.clipped(alloc, bounds),
        None => rects_of_bounds(alloc, bounds),
    }
}
