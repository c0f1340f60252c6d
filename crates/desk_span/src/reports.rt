//! Reports of drawings that were not done whole.

ghost use Rattle.std.specs.Prelude.{◌≡◌, ◌<◌, ◌++◌, ◌∷◌, [], length, IfOk};
ghost use Rattle.desk_span.specs.declared.reports.TheConstants.{MOST_REPORTS};
ghost use Rattle.desk_span.specs.Reports.{is_fault, tells_fault};

use geom_base::{DrawnList, Rect};
use hook_route::Cause;
use script_orders::Named;
use std::alloc::{AllocError, Global};
use std::marker::Model;

/// How a drawing went.
#[derive(Clone, Copy, Debug, PartialEq, Eq)]
pub enum DeskOutcome {
    /// It was done whole.
    All,
    /// There are reports of it.
    Parted,
}

/// What was done of a drawing on a target.
#[derive(Drop)]
pub struct Report {
    target: Named,
    cause: Cause,
    drawn: DrawnList,
}

impl Model for Report {
    ghost use Rattle.desk_span.specs.Reports.{Told};

    ghost Value = { Told };

    ghost view = { λ r. record { target = r.target; cause = r.cause; rects = r.drawn.rects } };
}

impl Report {
    /// Of a target only these rectangles were done.
    pub fn of(target: Named, cause: Cause, drawn: DrawnList) -> Report
        ensures { result ≡ record { target = target; cause = cause; rects = drawn.rects } }
    {
        Report {
            target,
            cause,
            drawn,
        }
    }

    /// What is drawn on.
    pub fn target(&self) -> Named
        ensures { result ≡ self.now.target }
    {
        self.target
    }

    /// Why it was not done whole.
    pub fn cause(&self) -> Cause
        ensures { result ≡ self.now.cause }
    {
        self.cause
    }

    /// The rectangles that were done, in the target's own coordinates.
    pub fn rects(&self) -> &[Rect]
        ensures { result.now ≡ self.now.rects }
    {
        self.drawn.rects()
    }
}

/// Whether a cause is a fault.
pub fn is_fault(cause: Cause) -> bool
    ensures { result ≡ is_fault cause }
{
    match cause {
        Cause::Fault => true,
        Cause::Memory => false,
    }
}

/// The most reports of a command: one for each screen.
pub const MOST_REPORTS: usize = 8;

/// The reports of a command, in the order of the screens. There is room for all of them, so a report takes no memory.
#[derive(Drop)]
pub struct Reports {
    items: Vec<Report>,
}

impl Model for Reports {
    ghost use Rattle.std.specs.Prelude.{◌≤◌, List, vec_capacity, vec_len};
    ghost use Rattle.desk_span.specs.Reports.{Told};
    ghost use Rattle.desk_span.specs.declared.reports.TheConstants.{MOST_REPORTS};

    ghost Value = { List Told };

    ghost view = { λ r. r.items.items };

    ghost invariant = { λ r. (vec_len r.items ≤ MOST_REPORTS) × (MOST_REPORTS ≤ vec_capacity r.items) };
}

impl Reports {
    /// No reports, and room for as many as a command may have.
    pub fn new(alloc: Global) -> Result<Reports, AllocError>
        ensures { IfOk result (λ r. r ≡ []) }
    {
        Ok(Reports {
            items: Vec::with_capacity(alloc, MOST_REPORTS)?,
        })
    }

    /// The reports.
    pub fn items(&self) -> &[Report]
        ensures { result.now ≡ self.now }
    {
        self.items.as_slice()
    }

    /// Whether one of them tells of a fault.
    pub fn tell_fault(&self) -> bool
        ensures { result ≡ tells_fault self.now }
    {
        self.items().iter().any(|report| is_fault(report.cause()))
    }

    /// Takes all reports away.
    pub(crate) fn clear(&mut self)
        ensures { self.new ≡ [] }
    {
        self.items.clear();
    }

    /// Adds a report.
    pub(crate) fn add(&mut self, report: Report)
        requires { length self.old < MOST_REPORTS }
        ensures { self.new ≡ self.old ++ report ∷ [] }
    {
        self.items.push_reserved(report);
    }
}
