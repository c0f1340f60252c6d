//! Each call of the device failing in turn.

ghost use Rattle.std.specs.Prelude.{◌<◌, IfOk};
ghost use Rattle.geom_base.specs.Points.{HasSides};

use crate::calls::{FROM, Kind, MASKED, MIXED, blt_call, copy_call};
use crate::expected::{Case, Outcome, check_pixels, check_wide};
use crate::stage::Stage;
use crate::tools::Tools;
use copy_port::{Class, class_of_blt};
use geom_base::{Counts, PortAnswer, Rect, Size, Target};
use pix_format::Format;
use region::Region;
use rop_mix::Rop4;
use std::alloc::{AllocError, Global};
use std::process::Abort;
use std::test::Fail;

const KINDS: [Kind; 8] = [
    Kind::Paint,
    Kind::Hatch,
    Kind::Copy,
    Kind::Whole,
    Kind::Overlap,
    Kind::Across,
    Kind::Masked,
    Kind::Mixed,
];

/// The formats of the source that is lent and of the targets.
const FORMATS: [(Format, Format); 8] = [
    (Format::B1, Format::B1),
    (Format::B4, Format::B4),
    (Format::B8, Format::B8),
    (Format::B555, Format::B555),
    (Format::B565, Format::B565),
    (Format::B24, Format::B24),
    (Format::B32, Format::B32),
    (Format::B8, Format::B32),
];

const SIZE: Size = Size { w: 8, h: 8 };

/// A size with rows of which two are too long to be written at once.
const WIDE: Size = Size { w: 2_052, h: 5 };

/// A rectangle by its edges.
fn rect(left: i32, top: i32, right: i32, bottom: i32) -> Rect {
    Rect {
        left,
        top,
        right,
        bottom,
    }
}

/// The rectangles of the clip: two in a band, and one below them.
fn parts() -> [Rect; 3] {
    [rect(1, 1, 3, 4), rect(4, 1, 8, 4), rect(0, 5, 6, 8)]
}

/// The first row of each.
fn rows() -> [Rect; 3] {
    [rect(1, 1, 3, 2), rect(4, 1, 8, 2), rect(0, 5, 6, 6)]
}

fn no_numbers(alloc: Global) -> Counts {
    Counts::of(Vec::new(alloc))
}

fn one_number(alloc: Global, number: u64) -> Result<Counts, AllocError> {
    let mut numbers = Vec::new(alloc);
    numbers.push(number)?;
    Ok(Counts::of(numbers))
}

/// A new stage of a size with a clip of these rectangles; the calls of the one list fail, and the writes of the other after a row.
fn stage_of(
    alloc: Global,
    case: Case,
    size: Size,
    rects: &[Rect],
    fails: Counts,
    breaks: Counts,
) -> Result<Stage, Fail>
    requires { HasSides size }
{
    let tools = Tools::new(alloc, size, case.from, case.format)?;
    let region = Region::from_rects(alloc, rects)?;
    Ok(Stage::new(alloc, tools, Some(&region), fails, breaks)?)
}

/// Draws a call on such a stage.
fn drawn(
    alloc: Global,
    case: Case,
    size: Size,
    rects: &[Rect],
    fails: Counts,
    breaks: Counts,
) -> Result<Outcome, Fail>
    requires { HasSides size }
{
    let mut stage = stage_of(alloc, case, size, rects, fails, breaks)?;
    let drawing = stage.draw(alloc, case.kind)?;
    Ok(Outcome {
        port: stage.port,
        drawn: drawing.drawn,
        answer: drawing.answer,
    })
}

/// Draws a call with no failing call, and gives how many calls of the device there were.
fn draws(rt: &impl Abort, alloc: Global, case: Case) -> Result<u64, Fail>
    ensures { IfOk result (λ n. (2 < n) × (n < 64)) }
{
    let none = no_numbers(alloc);
    let outcome = drawn(alloc, case, SIZE, &parts(), none, no_numbers(alloc))?;
    let port = &outcome.port;
    assert_eq!(rt; outcome.answer, PortAnswer::Done, "{case:?}");
    assert_eq!(rt; port.faults(), 0, "{case:?}");
    assert_eq!(rt; port.written(), 3, "{case:?}");
    check_pixels(rt, case, &outcome, 0);
    assert_eq!(rt; outcome.drawn.rects(), parts().as_slice(), "{case:?}");
    let calls = port.calls();
    assert!(rt; calls > 2 && calls < 64, "{case:?}");
    Ok(calls)
}

/// The rectangles that were written before the failing call were pushed, and no others.
fn fails_in_turn(rt: &impl Abort, alloc: Global, case: Case) -> Result<(), Fail> {
    let calls = draws(rt, alloc, case)?;
    for turn in 1..calls + 1 {
        let fails = one_number(alloc, turn)?;
        let outcome = drawn(alloc, case, SIZE, &parts(), fails, no_numbers(alloc))?;
        assert_eq!(rt; outcome.answer, PortAnswer::Fault, "{case:?} {turn}");
        assert_eq!(rt; outcome.port.faults(), 1, "{case:?} {turn}");
        assert_eq!(rt; outcome.port.calls(), turn, "{case:?}");
        let done = (turn + 2).saturating_sub(calls) as usize;
        let parts = parts();
        assert_eq!(rt; outcome.drawn.rects(), &parts[..done], "{case:?} {turn}");
        check_pixels(rt, case, &outcome, turn);
    }
    Ok(())
}

/// A rectangle whose write breaks after its first row: that row was pushed as well.
fn breaks_in_turn(rt: &impl Abort, alloc: Global, case: Case) -> Result<(), Fail> {
    let calls = draws(rt, alloc, case)?;
    for done in 0..3 {
        let turn = calls - 2 + done as u64;
        let breaks = one_number(alloc, turn)?;
        let outcome = drawn(alloc, case, SIZE, &parts(), no_numbers(alloc), breaks)?;
        assert_eq!(rt; outcome.answer, PortAnswer::Fault, "{case:?} {turn}");
        assert_eq!(rt; outcome.port.faults(), 1, "{case:?} {turn}");
        let mut want = parts();
        want[done] = rows()[done];
        assert_eq!(rt; outcome.drawn.rects(), &want[..done + 1], "{case:?} {done}");
        check_pixels(rt, case, &outcome, turn);
    }
    Ok(())
}

/// No call of the device is made, and nothing is pushed.
fn draws_nothing(rt: &impl Abort, alloc: Global, case: Case) -> Result<(), Fail> {
    let none = no_numbers(alloc);
    let outcome = drawn(alloc, case, SIZE, &[], none, no_numbers(alloc))?;
    assert_eq!(rt; outcome.answer, PortAnswer::Done, "{case:?}");
    assert_eq!(rt; outcome.port.calls(), 0, "{case:?}");
    assert!(rt; outcome.drawn.rects().is_empty(), "{case:?}");
    check_pixels(rt, case, &outcome, 0);
    Ok(())
}

/// One call of the device fails.
#[test]
fn each_call_fails(rt: HostRuntime) -> Result<(), Fail> {
    for kind in KINDS {
        for (from, format) in FORMATS {
            fails_in_turn(&rt, rt.alloc(), Case { kind, from, format })?;
        }
    }
    Ok(())
}

/// A write breaks after its first row.
#[test]
fn each_write_breaks(rt: HostRuntime) -> Result<(), Fail> {
    for kind in KINDS {
        for (from, format) in FORMATS {
            breaks_in_turn(&rt, rt.alloc(), Case { kind, from, format })?;
        }
    }
    Ok(())
}

/// A clip with no points.
#[test]
fn an_empty_clip(rt: HostRuntime) -> Result<(), Fail> {
    for kind in KINDS {
        for (from, format) in FORMATS {
            draws_nothing(&rt, rt.alloc(), Case { kind, from, format })?;
        }
    }
    Ok(())
}

/// The raster operations and copies are of the classes that their kinds are named for.
#[test]
fn classes(rt: HostRuntime) {
    let masked = blt_call(SIZE, FROM, MASKED);
    assert_eq!(rt; class_of_blt(&masked, true), Class::Mask);
    let mixed = blt_call(SIZE, FROM, MIXED);
    assert_eq!(rt; class_of_blt(&mixed, false), Class::Other);
    let copy = copy_call(SIZE, None, FROM).as_blt();
    assert_eq!(rt; class_of_blt(&copy, true), Class::Copy);
    let shift = copy_call(SIZE, Some(Target::Bitmap(1)), FROM).as_blt();
    assert_eq!(rt; class_of_blt(&shift, true), Class::Shift);
}

const WHITE_PAINT: Case = Case {
    kind: Kind::Paint,
    from: Format::B8,
    format: Format::B8,
};

/// The calls of the device for a call in one rectangle.
fn calls_for(rt: &impl Abort, alloc: Global, case: Case) -> Result<u64, Fail> {
    let none = no_numbers(alloc);
    let rects = [rect(1, 1, 3, 4)];
    let outcome = drawn(alloc, case, SIZE, &rects, none, no_numbers(alloc))?;
    assert_eq!(rt; outcome.answer, PortAnswer::Done, "{case:?}");
    assert_eq!(rt; outcome.port.written(), 1, "{case:?}");
    assert_eq!(rt; outcome.drawn.rects(), rects.as_slice(), "{case:?}");
    check_pixels(rt, case, &outcome, 0);
    Ok(outcome.port.calls())
}

/// A paint in one colour, and a copy whose source has all points, read nothing: the one call of the device is a write.
#[test]
fn reads_only_what_counts(rt: HostRuntime) -> Result<(), Fail> {
    for kind in KINDS {
        let reads = match kind {
            Kind::Paint | Kind::Whole => 0,
            Kind::Hatch | Kind::Copy | Kind::Masked | Kind::Mixed => 1,
            Kind::Overlap | Kind::Across => 2,
        };
        for (from, format) in FORMATS {
            let case = Case { kind, from, format };
            assert_eq!(rt; calls_for(&rt, rt.alloc(), case)?, reads + 1, "{case:?}");
        }
    }
    Ok(())
}

/// A rectangle that is written in three parts is one entry, and so are those of its parts that were written before a failing call.
#[test]
fn a_rectangle_in_parts(rt: HostRuntime) -> Result<(), Fail> {
    let alloc = rt.alloc();
    let whole = [rect(1, 1, 2051, 4)];
    let none = no_numbers(alloc);
    let outcome = drawn(alloc, WHITE_PAINT, WIDE, &whole, none, no_numbers(alloc))?;
    assert_eq!(rt; outcome.answer, PortAnswer::Done);
    assert_eq!(rt; outcome.port.written(), 3);
    assert_eq!(rt; outcome.port.calls(), 3);
    assert_eq!(rt; outcome.drawn.rects(), whole.as_slice());
    check_wide(&rt, &outcome);
    for turn in 2u32..4 {
        let fails = one_number(alloc, u64::from(turn))?;
        let outcome = drawn(alloc, WHITE_PAINT, WIDE, &whole, fails, no_numbers(alloc))?;
        assert_eq!(rt; outcome.answer, PortAnswer::Fault, "{turn}");
        let want = [rect(1, 1, 2051, turn as i32)];
        assert_eq!(rt; outcome.drawn.rects(), want.as_slice(), "{turn}");
        check_wide(&rt, &outcome);
    }
    Ok(())
}
