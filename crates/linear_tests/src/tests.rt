//! Calls on a driver on the shelf: what is shown, what is reported and what is counted.

ghost use Rattle.std.specs.Prelude.{◌≤◌, IfOk, IfSome, OnOk};
ghost use Rattle.ddi_driver.specs.Modes.{AreModeNumbers};
ghost use Rattle.linear_tests.specs.Stage.{IsStage};

use crate::calls::{Answer, Drawing, Kind, Way, draw};
use crate::expected::drawn_in;
use crate::stage::{enable_anew, pixels};
use bitflags::Flags;
use copy_port::{Classes, Hooks, Pictured};
use ddi_driver::{DriverPort, EnableRefusal, HookAnswer, disable, is_enabled, stats};
use dev_ports::MemLinear;
use drv_linear::LinearDriver;
use geom_base::{Counts, PortAnswer, Rect};
use hook_route::{Cause, Outcome};
use region::Region;
use std::alloc::{AllocError, Global};
use std::process::Abort;
use std::test::Fail;

const KINDS: [Kind; 5] = [Kind::Paint, Kind::Hatch, Kind::Blt, Kind::Copy, Kind::Shift];

/// What a driver does with a call.
#[derive(Clone, Copy, Debug, PartialEq, Eq)]
enum Case {
    /// It draws.
    Draws,
    /// It hooks nothing.
    Unhooked,
    /// It takes nothing.
    Untaken,
    /// It declines every second call.
    Declined,
}

impl Case {
    fn hooks(self) -> Hooks {
        match self {
            Case::Unhooked => Hooks::empty(),
            Case::Draws | Case::Untaken | Case::Declined => Hooks::all(),
        }
    }

    fn takes(self) -> Classes {
        match self {
            Case::Untaken => Classes::empty(),
            Case::Draws | Case::Unhooked | Case::Declined => Classes::all(),
        }
    }

    fn decline(self) -> u32
        ensures { result ≤ 2 }
    {
        match self {
            Case::Declined => 2,
            Case::Draws | Case::Unhooked | Case::Untaken => 0,
        }
    }

    /// How many reads the second of two calls makes of the device, and how many writes, or one call where its hook draws.
    fn device_calls(self, kind: Kind) -> (u64, u64)
        ensures { (result.0 ≤ 2) × (result.1 ≤ 3) }
    {
        let reads = match kind {
            Kind::Before | Kind::Paint => 0,
            Kind::Hatch | Kind::Blt | Kind::Copy => 1,
            Kind::Shift => 2,
        };
        match self {
            Case::Draws => (0, 1),
            Case::Unhooked | Case::Untaken | Case::Declined => (reads, 3),
        }
    }
}

/// The rectangles of the clip: two in a band, and one below them.
fn parts() -> [Rect; 3] {
    [rect(1, 0, 3, 2), rect(4, 0, 6, 2), rect(0, 3, 5, 4)]
}

/// A rectangle by its edges.
fn rect(left: i32, top: i32, right: i32, bottom: i32) -> Rect {
    Rect {
        left,
        top,
        right,
        bottom,
    }
}

/// The numbers of the calls of the device that fail: one, or none.
fn numbers(alloc: Global, number: Option<u64>) -> Result<Counts, AllocError>
    requires { IfSome number (λ n. n ≤ 1000000) }
    ensures { IfOk result AreModeNumbers }
{
    let mut numbers = Vec::new(alloc);
    if let Some(number) = number {
        numbers.push(number)?;
    }
    Ok(Counts::of(numbers))
}

/// Has a driver show what the screen is to show before a call; that is the first call, and makes the first call of the device.
fn begin(
    rt: &impl Abort,
    alloc: Global,
    driver: &mut DriverPort,
    case: Case,
    fails: Option<u64>,
) -> Result<(), Fail>
    requires { IfSome fails (λ n. n ≤ 1000000) }
    ensures { OnOk result (IsStage (⟦<DriverPort as Pictured>⟧.state driver.new)) }
{
    let fails = numbers(alloc, fails)?;
    let (hooks, takes) = (case.hooks(), case.takes());
    enable_anew(alloc, driver, hooks, takes, case.decline(), fails)?;
    let first = draw(alloc, driver, Way::Route, Kind::Before, None)?;
    assert_eq!(rt; first.answer, Answer::Routed(Outcome::All), "{case:?}");
    Ok(())
}

/// Draws the second call, in the clip.
fn second(alloc: Global, driver: &mut DriverPort, way: Way, kind: Kind) -> Result<Drawing, Fail>
    requires { IsStage (⟦<DriverPort as Pictured>⟧.state driver.old) }
    ensures { IsStage (⟦<DriverPort as Pictured>⟧.state driver.new) }
{
    let region = Region::from_rects(alloc, &parts())?;
    Ok(draw(alloc, driver, way, kind, Some(&region))?)
}

/// The screen shows a call drawn in these rectangles alone.
fn check_pixels(rt: &impl Abort, driver: &mut DriverPort, case: Case, kind: Kind, rects: &[Rect])
    requires { IsStage (⟦<DriverPort as Pictured>⟧.state driver.old) }
    ensures { IsStage (⟦<DriverPort as Pictured>⟧.state driver.new) }
{
    let want = (PortAnswer::Done, drawn_in(kind, rects));
    assert_eq!(rt; pixels(driver), want, "{case:?} {kind:?}");
}

/// How many calls were offered and declined, and how many rectangles were written.
fn check_counts(rt: &impl Abort, driver: &DriverPort, case: Case, want: (u64, u64, u64)) {
    let stats = stats(driver);
    let counts = (stats.offered, stats.declined, stats.written);
    assert_eq!(rt; counts, want, "{case:?}");
    assert_eq!(rt; stats.faults, 0, "{case:?}");
}

/// A routed call gives the same pixels whoever draws, and is counted.
#[test]
fn same_pixels(rt: HostRuntime) -> Result<(), Fail> {
    let alloc = rt.alloc();
    let mut driver = DriverPort::new(Box::new(
        alloc,
        LinearDriver::new(alloc, MemLinear::new(alloc)),
    )?);
    for kind in KINDS {
        for (case, counts) in [
            (Case::Draws, (2, 0, 0)),
            (Case::Unhooked, (0, 0, 4)),
            (Case::Untaken, (2, 2, 4)),
            (Case::Declined, (2, 1, 3)),
        ] {
            begin(&rt, alloc, &mut driver, case, None)?;
            let drawing = second(alloc, &mut driver, Way::Route, kind)?;
            assert_eq!(rt;
                drawing.answer,
                Answer::Routed(Outcome::All),
                "{case:?} {kind:?}"
            );
            check_pixels(&rt, &mut driver, case, kind, &parts());
            check_counts(&rt, &driver, case, counts);
        }
    }
    Ok(())
}

/// A hook declines what isn't taken, and every second call; the screen stays, and nothing is reported. The third call is drawn where it is taken.
#[test]
fn declined(rt: HostRuntime) -> Result<(), Fail> {
    let alloc = rt.alloc();
    let mut driver = DriverPort::new(Box::new(
        alloc,
        LinearDriver::new(alloc, MemLinear::new(alloc)),
    )?);
    for kind in KINDS {
        for (case, third, rects, counts) in [
            (Case::Untaken, HookAnswer::Declined, &[][..], (3, 3, 1)),
            (Case::Declined, HookAnswer::Done, &parts()[..], (3, 1, 0)),
        ] {
            begin(&rt, alloc, &mut driver, case, None)?;
            let drawing = second(alloc, &mut driver, Way::Ask, kind)?;
            assert_eq!(rt;
                drawing.answer,
                Answer::Asked(HookAnswer::Declined),
                "{case:?} {kind:?}"
            );
            assert!(rt; drawing.drawn.rects().is_empty(), "{case:?} {kind:?}");
            check_pixels(&rt, &mut driver, case, kind, &[]);
            let drawing = second(alloc, &mut driver, Way::Ask, kind)?;
            assert_eq!(rt; drawing.answer, Answer::Asked(third), "{case:?} {kind:?}");
            check_pixels(&rt, &mut driver, case, kind, rects);
            check_counts(&rt, &driver, case, counts);
        }
    }
    Ok(())
}

/// The answer where all was drawn, and where a call of the device failed.
fn answers(way: Way) -> (Answer, Answer) {
    match way {
        Way::Ask => (
            Answer::Asked(HookAnswer::Done),
            Answer::Asked(HookAnswer::Fault),
        ),
        Way::Route => (
            Answer::Routed(Outcome::All),
            Answer::Routed(Outcome::Part(Cause::Fault)),
        ),
    }
}

/// The rectangles that were written before the failing call are reported, and were drawn, and no others.
fn fails_in_turn(
    rt: &impl Abort,
    alloc: Global,
    driver: &mut DriverPort,
    way: Way,
    case: Case,
    kind: Kind,
) -> Result<(), Fail> {
    let (reads, writes) = case.device_calls(kind);
    for turn in 0..reads + writes {
        begin(rt, alloc, driver, case, Some(2 + turn))?;
        let more = stats(driver).faults.wrapping_add(1);
        let drawing = second(alloc, driver, way, kind)?;
        assert_eq!(rt; drawing.answer, answers(way).1, "{case:?} {kind:?} {turn}");
        assert_eq!(rt; stats(driver).faults, more, "{case:?} {kind:?} {turn}");
        let parts = parts();
        let done = turn.saturating_sub(reads) as usize;
        let rects = drawing.drawn.rects();
        assert_eq!(rt; rects, &parts[..done], "{case:?} {kind:?} {turn}");
        check_pixels(rt, driver, case, kind, &parts[..done]);
    }
    Ok(())
}

/// The call of the device after those of the drawing fails: a read of the screen.
fn read_fails(
    rt: &impl Abort,
    alloc: Global,
    driver: &mut DriverPort,
    way: Way,
    case: Case,
    kind: Kind,
) -> Result<(), Fail> {
    let (reads, writes) = case.device_calls(kind);
    begin(rt, alloc, driver, case, Some(2 + reads + writes))?;
    let faults = stats(driver).faults;
    let drawing = second(alloc, driver, way, kind)?;
    assert_eq!(rt; drawing.answer, answers(way).0, "{case:?} {kind:?}");
    assert_eq!(rt; stats(driver).faults, faults, "{case:?} {kind:?}");
    assert_eq!(rt; pixels(driver).0, PortAnswer::Fault, "{case:?} {kind:?}");
    let more = faults.wrapping_add(1);
    assert_eq!(rt; stats(driver).faults, more, "{case:?} {kind:?}");
    check_pixels(rt, driver, case, kind, &parts());
    Ok(())
}

/// One call of the device fails: in a hook that is asked, in a hook of a routed call, or where the engine draws that.
#[test]
fn each_call_fails(rt: HostRuntime) -> Result<(), Fail> {
    let alloc = rt.alloc();
    let mut driver = DriverPort::new(Box::new(
        alloc,
        LinearDriver::new(alloc, MemLinear::new(alloc)),
    )?);
    for kind in KINDS {
        for (way, case) in [
            (Way::Ask, Case::Draws),
            (Way::Route, Case::Draws),
            (Way::Route, Case::Unhooked),
            (Way::Route, Case::Untaken),
            (Way::Route, Case::Declined),
        ] {
            fails_in_turn(&rt, alloc, &mut driver, way, case, kind)?;
            read_fails(&rt, alloc, &mut driver, way, case, kind)?;
        }
    }
    Ok(())
}

/// The device fails when it is powered on.
#[test]
fn enabling_fails(rt: HostRuntime) -> Result<(), Fail> {
    let alloc = rt.alloc();
    let mut driver = DriverPort::new(Box::new(
        alloc,
        LinearDriver::new(alloc, MemLinear::new(alloc)),
    )?);
    let fails = numbers(alloc, Some(0))?;
    let refused = enable_anew(alloc, &mut driver, Hooks::all(), Classes::all(), 0, fails);
    assert_eq!(rt; refused, Err(EnableRefusal::Fault));
    assert!(rt; !is_enabled(&driver));
    Ok(())
}

/// A driver that is enabled anew shows a blank screen and counts from 0.
#[test]
fn enabled_anew(rt: HostRuntime) -> Result<(), Fail> {
    let alloc = rt.alloc();
    let mut driver = DriverPort::new(Box::new(
        alloc,
        LinearDriver::new(alloc, MemLinear::new(alloc)),
    )?);
    begin(&rt, alloc, &mut driver, Case::Untaken, None)?;
    check_counts(&rt, &driver, Case::Untaken, (1, 1, 1));
    disable(&mut driver);
    assert!(rt; !is_enabled(&driver));
    let none = numbers(alloc, None)?;
    enable_anew(alloc, &mut driver, Hooks::all(), Classes::all(), 0, none)?;
    assert_eq!(rt; pixels(&mut driver), (PortAnswer::Done, [0; 24]));
    check_counts(&rt, &driver, Case::Draws, (0, 0, 0));
    Ok(())
}
