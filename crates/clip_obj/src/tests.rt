//! Batches of clips, and what clips leave of their bounds.

ghost use Rattle.std.specs.Prelude.{◌≡◌};
ghost use Rattle.geom_base.specs.Points.{RectMoves};
ghost use Rattle.clip_obj.specs.Clip.{to_origin};

use super::*;
use geom_base::{Point, Rect};
use region::{Region, RegionRefusal};
use std::alloc::Global;
use std::process::Abort;
use std::test::Fail;

fn rect(left: i32, top: i32, right: i32, bottom: i32) -> Rect
    ensures { result ≡ record { left = left; top = top; right = right; bottom = bottom } }
{
    Rect {
        left,
        top,
        right,
        bottom,
    }
}

const NOTHING: Rect = Rect {
    left: 0,
    top: 0,
    right: 0,
    bottom: 0,
};

const BOUNDS: Rect = Rect {
    left: 0,
    top: 0,
    right: 9,
    bottom: 9,
};

/// Two rectangles, three and one in three bands, the last two of which touch.
fn parts() -> [Rect; 6] {
    [
        rect(1, 0, 3, 2),
        rect(5, 0, 7, 2),
        rect(0, 3, 1, 6),
        rect(2, 3, 4, 6),
        rect(6, 3, 9, 6),
        rect(3, 6, 8, 7),
    ]
}

/// The numbers of the parts in the order of each direction.
const ORDERS: [(Direction, [usize; 6]); 5] = [
    (Direction::RightDown, [0, 1, 2, 3, 4, 5]),
    (Direction::LeftDown, [1, 0, 4, 3, 2, 5]),
    (Direction::RightUp, [5, 2, 3, 4, 0, 1]),
    (Direction::LeftUp, [5, 4, 3, 2, 1, 0]),
    (Direction::Any, [0, 1, 2, 3, 4, 5]),
];

fn clip_of(alloc: Global, rects: &[Rect], bounds: Rect) -> Result<ClipObj, Fail> {
    let region = Region::from_rects(alloc, rects)?;
    Ok(ClipObj::build(alloc, Some(&region), bounds)?)
}

/// Whether the next batches, of so many places, hold the parts of these numbers.
fn hands_out(clip: &mut ClipObj, places: &mut [Rect], numbers: &[usize]) -> bool {
    let parts = parts();
    let mut rest = numbers;
    for _ in 0..numbers.len() {
        if places.is_empty() {
            return false;
        }
        let (len, more) = clip.next_batch(places);
        let due = places.len().min(rest.len());
        if len != due {
            return false;
        }
        for i in 0..due {
            if parts.get(rest[i]) != Some(&places[i]) {
                return false;
            }
        }
        rest = rest.split_at(due).1;
        if more == rest.is_empty() {
            return false;
        }
    }
    rest.is_empty()
}

#[test]
fn batches_in_every_direction(rt: HostRuntime) -> Result<(), Fail> {
    let mut clip = clip_of(rt.alloc(), &parts(), BOUNDS)?;
    let mut places = [NOTHING; 16];
    assert_eq!(rt; clip.count(), 6);
    assert!(rt; hands_out(&mut clip, &mut places[..4], &ORDERS[0].1));
    for len in [1, 2, 3, 16] {
        for (direction, numbers) in ORDERS {
            clip.enum_start(direction);
            assert!(rt;
                hands_out(&mut clip, &mut places[..len], &numbers),
                "{direction:?} by {len}"
            );
        }
    }
    Ok(())
}

#[test]
fn starts_anew_in_the_middle(rt: HostRuntime) -> Result<(), Fail> {
    let mut clip = clip_of(rt.alloc(), &parts(), BOUNDS)?;
    let mut places = [NOTHING; 4];
    assert_eq!(rt; clip.next_batch(&mut places), (4, true));
    clip.enum_start(Direction::LeftUp);
    assert!(rt; hands_out(&mut clip, &mut places, &ORDERS[3].1));
    clip.enum_start(Direction::LeftUp);
    assert!(rt; hands_out(&mut clip, &mut places, &ORDERS[3].1));
    Ok(())
}

/// The rectangles of a clip of at most 6, from left to right and top to bottom.
fn all_of(clip: &mut ClipObj) -> ([Rect; 6], usize) {
    let mut places = [NOTHING; 6];
    clip.enum_start(Direction::RightDown);
    let (len, _) = clip.next_batch(&mut places);
    (places, len)
}

#[test]
fn seen_from_a_point(rt: HostRuntime) -> Result<(), Fail> {
    let alloc = rt.alloc();
    let region = Region::from_rects(alloc, &parts())?;
    let at = Point { x: 2, y: 3 };
    let mut clip = ClipObj::build_at(alloc, Some(&region), rect(1, 1, 7, 9), at)?;
    let want = [
        rect(-1, -2, 1, -1),
        rect(3, -2, 5, -1),
        rect(0, 0, 2, 3),
        rect(4, 0, 5, 3),
        rect(1, 3, 5, 4),
        NOTHING,
    ];
    assert_eq!(rt; all_of(&mut clip), (want, 5));
    Ok(())
}

/// The one rectangle of a clip as seen from a point.
fn seen(alloc: Global, of: Rect, bounds: Rect, at: Point) -> Result<Option<Rect>, Fail>
    requires { RectMoves (to_origin at) bounds }
{
    let region = Region::from_rects(alloc, &[of])?;
    let mut clip = ClipObj::build_at(alloc, Some(&region), bounds, at)?;
    let (places, len) = all_of(&mut clip);
    Ok(if len == 1 { Some(places[0]) } else { None })
}

#[test]
fn seen_from_far_points(rt: HostRuntime) -> Result<(), Fail> {
    let alloc = rt.alloc();
    let all = rect(-32768, -32768, 32767, 32767);
    let screen = rect(1024, 0, 2048, 768);
    let right = seen(alloc, all, screen, Point { x: 1024, y: 0 })?;
    assert_eq!(rt; right, Some(rect(0, 0, 1024, 768)));
    let edge = rect(32000, -9, 33024, 759);
    let cut = seen(alloc, all, edge, Point { x: 32000, y: -9 })?;
    assert_eq!(rt; cut, Some(rect(0, 0, 767, 768)));
    let strip = rect(30000, 10, 32767, 20);
    let part = seen(alloc, strip, edge, Point { x: 32000, y: 5 })?;
    assert_eq!(rt; part, Some(rect(0, 5, 767, 15)));
    let least = Point {
        x: i32::MIN,
        y: i32::MIN,
    };
    let far = seen(alloc, all, rect(-5, -5, -1, -1), least)?;
    let most = rect(2147483643, 2147483643, 2147483647, 2147483647);
    assert_eq!(rt; far, Some(most));
    let free = ClipObj::build_at(alloc, None, BOUNDS, Point { x: 9, y: 0 })?;
    assert_eq!(rt; free.complexity(), Complexity::Trivial);
    Ok(())
}

#[test]
fn complexities(rt: HostRuntime) -> Result<(), Fail> {
    let alloc = rt.alloc();
    let cases = [
        (
            [rect(-1, -1, 10, 10), NOTHING],
            BOUNDS,
            Complexity::Trivial,
            1,
        ),
        (
            [rect(0, 0, 5, 9), rect(5, 0, 9, 9)],
            BOUNDS,
            Complexity::Trivial,
            1,
        ),
        ([rect(0, 0, 5, 9), NOTHING], BOUNDS, Complexity::Rect, 1),
        (
            [rect(0, 0, 5, 9), rect(6, 0, 9, 9)],
            BOUNDS,
            Complexity::Complex,
            2,
        ),
        ([rect(9, 0, 12, 9), NOTHING], BOUNDS, Complexity::Complex, 0),
        (
            [rect(0, 0, 5, 9), NOTHING],
            rect(2, 2, 2, 5),
            Complexity::Trivial,
            0,
        ),
    ];
    for (rects, bounds, complexity, count) in cases {
        let clip = clip_of(alloc, &rects, bounds)?;
        assert_eq!(rt; clip.complexity(), complexity, "{rects:?} in {bounds:?}");
        assert_eq!(rt; clip.count(), count, "{rects:?} in {bounds:?}");
    }
    let free = ClipObj::build(alloc, None, BOUNDS)?;
    assert_eq!(rt; free.complexity(), Complexity::Trivial);
    Ok(())
}
