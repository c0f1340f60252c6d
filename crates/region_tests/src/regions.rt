//! Regions that are moved, cut, asked and built.

use super::*;
use geom_base::Point;
use region::{Region, fills_bounds, rects_of_bounds};
use std::test::Fail;

#[test]
fn moved_tested_and_clipped(rt: HostRuntime) -> Result<(), Fail> {
    let alloc = rt.alloc();
    let region = Region::from_rects(alloc, &[rect(0, 0, 4, 2), rect(0, 2, 2, 4)])?;
    for (x, y, want) in [
        (0, 0, true),
        (3, 1, true),
        (4, 1, false),
        (2, 2, false),
        (1, 4, false),
    ] {
        assert_eq!(rt; region.holds(Point { x, y }), want, "{x} {y}");
    }
    let by = Point { x: -3, y: 5 };
    assert!(rt; region.can_offset(by));
    assert_eq!(rt;
        region.offset(alloc, by)?.rects(),
        [rect(-3, 5, 1, 7), rect(-3, 7, -1, 9)].as_slice()
    );
    assert_eq!(rt;
        region.clipped(alloc, &rect(1, 1, 9, 3))?.as_slice(),
        [rect(1, 1, 4, 2), rect(1, 2, 2, 3)].as_slice()
    );
    Ok(())
}

#[test]
fn meets_rectangles(rt: HostRuntime) -> Result<(), Fail> {
    let rects = [rect(0, 0, 4, 2), rect(6, 0, 8, 2), rect(0, 4, 2, 6)];
    let region = Region::from_rects(rt.alloc(), &rects)?;
    for (met, want) in [
        (rect(4, 0, 6, 2), false),
        (rect(3, 1, 4, 2), true),
        (rect(4, 1, 7, 2), true),
        (rect(4, -9, 7, 1), true),
        (rect(0, 2, 9, 4), false),
        (rect(0, 2, 1, 5), true),
        (rect(2, 3, 9, 9), false),
        (rect(-5, -5, 0, 0), false),
        (rect(-5, -5, 1, 1), true),
        (rect(0, 6, 2, 9), false),
        (rect(1, 5, 2, 6), true),
        (rect(3, 1, 3, 2), false),
        (rect(0, 1, 4, 1), false),
        (rect(3, 0, 1, 2), false),
        (rect(i32::MIN, i32::MIN, i32::MAX, i32::MAX), true),
    ] {
        assert_eq!(rt; region.meets(&met), want, "{met:?}");
    }
    Ok(())
}

#[test]
fn the_extents_of_regions(rt: HostRuntime) -> Result<(), Fail> {
    let alloc = rt.alloc();
    let corner = Region::from_rects(alloc, &[rect(0, 0, 4, 2), rect(0, 2, 2, 4)])?;
    assert_eq!(rt; corner.extents(), rect(0, 0, 4, 4));
    let far = Region::from_rects(alloc, &[rect(6, -3, 7, -1)])?;
    assert_eq!(rt; corner.union(alloc, &far)?.extents(), rect(0, -3, 7, 4));
    assert_eq!(rt; corner.subtract(alloc, &far)?.extents(), rect(0, 0, 4, 4));
    let none = corner.intersect(alloc, &far)?;
    assert!(rt; none.rects().is_empty());
    assert!(rt; !none.extents().has_points());
    Ok(())
}

#[test]
fn moved_to_the_last_edges(rt: HostRuntime) -> Result<(), Fail> {
    let region = Region::from_rects(rt.alloc(), &[rect(0, 0, 4, 2), rect(0, 2, 2, 4)])?;
    for (x, y, want) in [
        (0, 0, true),
        (32763, 32763, true),
        (32764, 0, false),
        (0, 32764, false),
        (-32768, -32768, true),
        (-32769, 0, false),
        (0, -32769, false),
        (i32::MAX, 0, false),
        (0, i32::MIN, false),
    ] {
        assert_eq!(rt; region.can_offset(Point { x, y }), want, "{x} {y}");
    }
    Ok(())
}

#[test]
fn the_rectangles_of_bounds(rt: HostRuntime) -> Result<(), AllocError> {
    let bounds = rect(1, 2, 5, 9);
    let rects = rects_of_bounds(rt.alloc(), &bounds)?;
    assert_eq!(rt; rects.as_slice(), [bounds].as_slice());
    assert!(rt; fills_bounds(&rects, &bounds));
    assert!(rt; !fills_bounds(&rects, &rect(1, 2, 5, 10)));
    let none = rects_of_bounds(rt.alloc(), &rect(1, 2, 1, 9))?;
    assert!(rt; none.is_empty());
    Ok(())
}

#[test]
fn built_row_by_row(rt: HostRuntime) -> Result<(), Fail> {
    let mut builder = RegionBuilder::new(rt.alloc());
    builder.push_row(
        0,
        2,
        &[
            Span { left: 0, right: 3 },
            Span { left: 3, right: 5 },
            Span { left: 7, right: 9 },
        ],
    )?;
    builder.push_row(
        2,
        4,
        &[Span { left: 0, right: 5 }, Span { left: 7, right: 9 }],
    )?;
    builder.push_row(6, 7, &[Span { left: 1, right: 2 }])?;
    let want = [rect(0, 0, 5, 4), rect(7, 0, 9, 4), rect(1, 6, 2, 7)];
    assert_eq!(rt; builder.finish()?.rects(), want.as_slice());
    Ok(())
}
