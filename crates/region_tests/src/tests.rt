//! The four operations on small regions, and at the limit.

use super::*;
use region::{Region, RegionRefusal};
use std::process::Abort;
use std::test::Fail;

#[derive(Drop)]
struct Case<'a> {
    a: &'a [Rect],
    b: &'a [Rect],
    union: &'a [Rect],
    intersect: &'a [Rect],
    subtract: &'a [Rect],
    xor: &'a [Rect],
}

/// The operations on the regions of a case.
fn compare(rt: &impl Abort, alloc: Global, case: &Case<'_>) -> Result<(), Fail> {
    let a = Region::from_rects(alloc, case.a)?;
    let b = Region::from_rects(alloc, case.b)?;
    assert_eq!(rt; a.union(alloc, &b)?.rects(), case.union);
    assert_eq!(rt; a.intersect(alloc, &b)?.rects(), case.intersect);
    assert_eq!(rt; a.subtract(alloc, &b)?.rects(), case.subtract);
    assert_eq!(rt; a.xor(alloc, &b)?.rects(), case.xor);
    Ok(())
}

#[test]
fn apart(rt: HostRuntime) -> Result<(), Fail> {
    let case = Case {
        a: &[rect(0, 0, 2, 2)],
        b: &[rect(4, 0, 6, 2)],
        union: &[rect(0, 0, 2, 2), rect(4, 0, 6, 2)],
        intersect: &[],
        subtract: &[rect(0, 0, 2, 2)],
        xor: &[rect(0, 0, 2, 2), rect(4, 0, 6, 2)],
    };
    compare(&rt, rt.alloc(), &case)
}

#[test]
fn touching(rt: HostRuntime) -> Result<(), Fail> {
    let case = Case {
        a: &[rect(0, 0, 2, 2), rect(0, 2, 2, 4)],
        b: &[rect(2, 0, 4, 4)],
        union: &[rect(0, 0, 4, 4)],
        intersect: &[],
        subtract: &[rect(0, 0, 2, 4)],
        xor: &[rect(0, 0, 4, 4)],
    };
    compare(&rt, rt.alloc(), &case)
}

#[test]
fn overlapping(rt: HostRuntime) -> Result<(), Fail> {
    let case = Case {
        a: &[rect(0, 0, 4, 4)],
        b: &[rect(2, 2, 6, 6)],
        union: &[rect(0, 0, 4, 2), rect(0, 2, 6, 4), rect(2, 4, 6, 6)],
        intersect: &[rect(2, 2, 4, 4)],
        subtract: &[rect(0, 0, 4, 2), rect(0, 2, 2, 4)],
        xor: &[
            rect(0, 0, 4, 2),
            rect(0, 2, 2, 4),
            rect(4, 2, 6, 4),
            rect(2, 4, 6, 6),
        ],
    };
    compare(&rt, rt.alloc(), &case)
}

#[test]
fn inside_with_a_rectangle_without_points(rt: HostRuntime) -> Result<(), Fail> {
    let around = [
        rect(0, 0, 6, 2),
        rect(0, 2, 2, 4),
        rect(4, 2, 6, 4),
        rect(0, 4, 6, 6),
    ];
    let case = Case {
        a: &[rect(0, 0, 6, 6), rect(3, 3, 3, 9)],
        b: &[rect(2, 2, 4, 4)],
        union: &[rect(0, 0, 6, 6)],
        intersect: &[rect(2, 2, 4, 4)],
        subtract: &around,
        xor: &around,
    };
    compare(&rt, rt.alloc(), &case)
}

#[test]
fn the_same_in_another_order(rt: HostRuntime) -> Result<(), Fail> {
    let case = Case {
        a: &[rect(0, 0, 3, 1), rect(1, 1, 2, 2)],
        b: &[rect(1, 1, 2, 2), rect(0, 0, 3, 1)],
        union: &[rect(0, 0, 3, 1), rect(1, 1, 2, 2)],
        intersect: &[rect(0, 0, 3, 1), rect(1, 1, 2, 2)],
        subtract: &[],
        xor: &[],
    };
    compare(&rt, rt.alloc(), &case)
}

#[test]
fn one_line_past_the_limit(rt: HostRuntime) -> Result<(), Fail> {
    let alloc = rt.alloc();
    let mut rects = Vec::new(alloc);
    for i in 0..4097u32 {
        let x = 2 * i as i32;
        rects.push(rect(x, 0, x + 1, 1))?;
    }
    let many = Region::from_rects(alloc, &rects).err();
    assert_eq!(rt; many, Some(RegionRefusal::TooMany(4097)));
    let _ = rects.pop();
    assert_eq!(rt; Region::from_rects(alloc, &rects)?.rects().len(), 4096);
    Ok(())
}

#[test]
fn stripes_across_stripes(rt: HostRuntime) -> Result<(), Fail> {
    let alloc = rt.alloc();
    let (mut rects, columns) = stripes(alloc, 70)?;
    let across = Region::from_rects(alloc, &rects)?;
    let down = Region::from_rects(alloc, &columns)?;
    let answers = [
        (across.union(alloc, &down).err(), 4970),
        (across.intersect(alloc, &down).err(), 4900),
        (across.subtract(alloc, &down).err(), 4900),
        (across.xor(alloc, &down).err(), 9800),
    ];
    for (answer, want) in answers {
        assert_eq!(rt; answer, Some(RegionRefusal::TooMany(want)));
    }
    for column in &columns {
        rects.push(*column)?;
    }
    let many = Region::from_rects(alloc, &rects).err();
    assert_eq!(rt; many, Some(RegionRefusal::TooMany(4970)));
    rects.push(rect(0, 0, 140, 140))?;
    let whole = Region::from_rects(alloc, &rects)?;
    assert_eq!(rt; whole.rects(), [rect(0, 0, 140, 140)].as_slice());
    Ok(())
}

#[test]
fn rows_and_the_same_in_reverse(rt: HostRuntime) -> Result<(), Fail> {
    let alloc = rt.alloc();
    let cases: [(&[Rect], &[Rect]); 6] = [
        (&[], &[]),
        (
            &[rect(0, 0, 2, 1), rect(2, 0, 3, 1), rect(5, 0, 6, 1)],
            &[rect(0, 0, 3, 1), rect(5, 0, 6, 1)],
        ),
        (
            &[
                rect(0, 0, 2, 1),
                rect(4, 0, 6, 1),
                rect(0, 1, 2, 3),
                rect(4, 1, 6, 3),
                rect(0, 4, 2, 5),
            ],
            &[rect(0, 0, 2, 3), rect(4, 0, 6, 3), rect(0, 4, 2, 5)],
        ),
        (
            &[rect(0, 0, 2, 1), rect(3, 0, 3, 1), rect(4, 0, 3, 1)],
            &[rect(0, 0, 2, 1)],
        ),
        (
            &[rect(0, 0, 4, 2), rect(2, 0, 6, 2), rect(0, 1, 6, 3)],
            &[rect(0, 0, 6, 3)],
        ),
        (
            &[rect(0, 0, 2, 2), rect(3, 0, 5, 3)],
            &[rect(0, 0, 2, 2), rect(3, 0, 5, 2), rect(3, 2, 5, 3)],
        ),
    ];
    for (rects, want) in cases {
        let mut reversed = Vec::from_slice(alloc, rects)?;
        reversed.reverse();
        assert_eq!(rt; Region::from_rects(alloc, rects)?.rects(), want);
        assert_eq!(rt; Region::from_rects(alloc, &reversed)?.rects(), want);
    }
    Ok(())
}

#[test]
fn built_past_the_limit(rt: HostRuntime) -> Result<(), Fail> {
    let alloc = rt.alloc();
    let region = rows_in_pairs(alloc, 8192)?.finish()?;
    assert_eq!(rt; region.rects().len(), 4096);
    let many = rows_in_pairs(alloc, 8193)?.finish().err();
    assert_eq!(rt; many, Some(RegionRefusal::TooMany(4097)));
    let more = rows_in_pairs(alloc, 8194)?.finish().err();
    assert_eq!(rt; more, Some(RegionRefusal::TooMany(4097)));
    Ok(())
}
