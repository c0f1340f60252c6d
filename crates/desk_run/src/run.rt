//! Commands in order, with what is written of them.

ghost use Rattle.std.specs.Prelude.{◌≡◌, ◌<◌, ◌≤◌, ℕ, List, length, map};
ghost use Rattle.script_orders.specs.Live.{CanDo, CanDraw, CanRun, NamedIsThere};
ghost use Rattle.script_orders.specs.declared.script_command.ScriptCommand.TheVariants as asked;
ghost use Rattle.desk_shelf.specs.Shelf.{OthersStay, state_at};
ghost use Rattle.desk_span.specs.Kept.{Serves, live_in};
ghost use Rattle.desk_run.specs.Entries.{Entry};
ghost use Rattle.desk_run.specs.Run.{Ran};
ghost use Rattle.desk_run.specs.InnerRun.{CameOut, MadeAs, ReportedAs, WrittenAs, cause_of, ended_of};

use crate::dump::put_dump;
use crate::report::{put_reports, put_unread};
use crate::room::ReadRoom;
use crate::sum::put_sum;
use crate::text::end_line;
use copy_port::Pictured;
use ddi_driver::DriverPort;
use desk_io::{Sink, WriteFault, write_all};
use desk_span::{Desk, DeskOutcome, Reports, is_fault};
use geom_base::PortAnswer;
use hook_route::Cause;
use script_orders::{DeskCommand, Named, Script, ScriptCommand};
use std::alloc::{AllocError, Global};

/// How the commands ended.
#[derive(Clone, Copy, Debug, PartialEq, Eq)]
pub enum Ended {
    Done,
    /// All was carried out, and a fault was reported.
    FaultSeen,
    /// All was carried out, and want of memory was reported, but no fault.
    MemorySeen,
    /// There was no memory for what a command makes.
    NoMemory,
    WriteFault,
}

/// What carrying out a command gave.
#[derive(Clone, Copy, Debug, PartialEq, Eq)]
pub enum Outcome {
    /// It is done, and its lines are written.
    Whole,
    /// It is reported that memory was wanting, and that is written.
    Wanting,
    /// A fault is reported, and that is written.
    Faulted,
    /// There was no memory for what it makes.
    Lacking,
    /// The sink failed.
    Broken,
}

/// What carrying out a script takes, and what it changes.
#[derive(Drop)]
pub struct Run<'a> {
    pub alloc: Global,
    pub script: &'a Script<'a>,
    pub desk: Desk,
    /// Those of the last drawing.
    pub reports: Reports,
    pub room: ReadRoom,
}

/// What making something gave.
fn outcome_of_making(made: Result<(), AllocError>) -> Outcome
    ensures { MadeAs made result }
{
    match made {
        Ok(()) => Outcome::Whole,
        Err(_) => Outcome::Lacking,
    }
}

/// What writing reports gave, of which one may tell of a fault.
fn outcome_of_reporting(fault: bool, written: Result<(), WriteFault>) -> Outcome
    ensures { ReportedAs fault written result }
{
    match written {
        Ok(()) if fault => Outcome::Faulted,
        Ok(()) => Outcome::Wanting,
        Err(_) => Outcome::Broken,
    }
}

/// What writing gave.
fn outcome_of_writing(written: Result<(), WriteFault>) -> Outcome
    ensures { WrittenAs written result }
{
    match written {
        Ok(()) => Outcome::Whole,
        Err(_) => Outcome::Broken,
    }
}

/// Why a surface was not read.
fn cause_of(answer: PortAnswer) -> Option<Cause>
    ensures { result ≡ cause_of answer }
{
    match answer {
        PortAnswer::Done => None,
        PortAnswer::Fault => Some(Cause::Fault),
        PortAnswer::NoMemory => Some(Cause::Memory),
    }
}

/// Reads a surface whole, and writes its dump; or the one line with the cause, where it could not be read.
fn dump<K: Sink>(
    sink: &mut K,
    script: &Script<'_>,
    desk: &Desk,
    shelf: &mut Vec<DriverPort>,
    name: Named,
    room: &mut ReadRoom,
) -> Outcome
    requires place { desk.now.screen.place < length shelf.old.items }
    requires serves { Serves desk.now.screen (state_at (map (λ d. ⟦<DriverPort as Pictured>⟧.state d) shelf.old.items) desk.now.screen.place) }
    requires there { NamedIsThere (live_in desk.now) name }
    ensures came { (number : ℕ) → CameOut script.now.names number (asked.Dump name) desk.now desk.now
        (state_at (map (λ d. ⟦<DriverPort as Pictured>⟧.state d) shelf.old.items) desk.now.screen.place) (state_at (map (λ d. ⟦<DriverPort as Pictured>⟧.state d) shelf.new.items) desk.now.screen.place)
        (K.written sink.old) (K.written sink.new) (K.faults sink.old) (K.faults sink.new) result }
    ensures others { OthersStay desk.now.screen.place shelf.old.items shelf.new.items }
{
    match cause_of(desk.read(shelf, name, &mut room.values)) {
        None => {
            let look = desk.look(name);
            let values = room.values.as_slice();
            let line = room.line.as_mut_slice();
            outcome_of_writing(put_dump(sink, script, name, look, values, line))
        }
        Some(cause) => {
            let written = put_unread(sink, script, b"dump ", name, cause);
            outcome_of_reporting(is_fault(cause), written)
        }
    }
}

/// Reads a surface whole, and writes its sum; or the one line with the cause, where it could not be read.
fn sum<K: Sink>(
    sink: &mut K,
    script: &Script<'_>,
    desk: &Desk,
    shelf: &mut Vec<DriverPort>,
    name: Named,
    room: &mut ReadRoom,
) -> Outcome
    requires place { desk.now.screen.place < length shelf.old.items }
    requires serves { Serves desk.now.screen (state_at (map (λ d. ⟦<DriverPort as Pictured>⟧.state d) shelf.old.items) desk.now.screen.place) }
    requires there { NamedIsThere (live_in desk.now) name }
    ensures came { (number : ℕ) → CameOut script.now.names number (asked.Sum name) desk.now desk.now
        (state_at (map (λ d. ⟦<DriverPort as Pictured>⟧.state d) shelf.old.items) desk.now.screen.place) (state_at (map (λ d. ⟦<DriverPort as Pictured>⟧.state d) shelf.new.items) desk.now.screen.place)
        (K.written sink.old) (K.written sink.new) (K.faults sink.old) (K.faults sink.new) result }
    ensures others { OthersStay desk.now.screen.place shelf.old.items shelf.new.items }
{
    match cause_of(desk.read(shelf, name, &mut room.values)) {
        None => outcome_of_writing(put_sum(sink, script, name, room.values.as_slice())),
        Some(cause) => {
            let written = put_unread(sink, script, b"sum ", name, cause);
            outcome_of_reporting(is_fault(cause), written)
        }
    }
}

/// Carries out a drawing, and writes its reports.
fn draw<K: Sink>(
    run: &mut Run<'_>,
    shelf: &mut Vec<DriverPort>,
    number: u64,
    command: &DeskCommand,
    sink: &mut K,
) -> Outcome
    requires place { run.old.desk.screen.place < length shelf.old.items }
    requires serves { Serves run.old.desk.screen (state_at (map (λ d. ⟦<DriverPort as Pictured>⟧.state d) shelf.old.items) run.old.desk.screen.place) }
    requires can { CanDraw (live_in run.old.desk) command.now }
    ensures script { run.new.script ≡ run.old.script }
    ensures came { let names = run.old.script.now.names in
        CameOut names number (asked.Draw command.now) run.old.desk run.new.desk
        (state_at (map (λ d. ⟦<DriverPort as Pictured>⟧.state d) shelf.old.items) run.old.desk.screen.place) (state_at (map (λ d. ⟦<DriverPort as Pictured>⟧.state d) shelf.new.items) run.old.desk.screen.place)
        (K.written sink.old) (K.written sink.new) (K.faults sink.old) (K.faults sink.new) result }
    ensures others { OthersStay run.old.desk.screen.place shelf.old.items shelf.new.items }
{
    match run.desk.draw(run.alloc, shelf, command, &mut run.reports) {
        DeskOutcome::All => Outcome::Whole,
        DeskOutcome::Parted => {
            let fault = run.reports.tell_fault();
            let reports = run.reports.items();
            outcome_of_reporting(fault, put_reports(sink, run.script, number, reports))
        }
    }
}

/// Carries out a command, and writes its lines.
fn carry_out<K: Sink>(
    run: &mut Run<'_>,
    shelf: &mut Vec<DriverPort>,
    number: u64,
    command: &ScriptCommand,
    sink: &mut K,
) -> Outcome
    requires place { run.old.desk.screen.place < length shelf.old.items }
    requires serves { Serves run.old.desk.screen (state_at (map (λ d. ⟦<DriverPort as Pictured>⟧.state d) shelf.old.items) run.old.desk.screen.place) }
    requires can { CanDo (live_in run.old.desk) command.now }
    ensures script { run.new.script ≡ run.old.script }
    ensures came { let names = run.old.script.now.names in
        CameOut names number command.now run.old.desk run.new.desk
        (state_at (map (λ d. ⟦<DriverPort as Pictured>⟧.state d) shelf.old.items) run.old.desk.screen.place) (state_at (map (λ d. ⟦<DriverPort as Pictured>⟧.state d) shelf.new.items) run.old.desk.screen.place)
        (K.written sink.old) (K.written sink.new) (K.faults sink.old) (K.faults sink.new) result }
    ensures others { OthersStay run.old.desk.screen.place shelf.old.items shelf.new.items }
{
    match command {
        ScriptCommand::Create(order) => outcome_of_making(run.desk.create(run.alloc, order)),
        ScriptCommand::Delete(number) => {
            run.desk.delete(*number);
            Outcome::Whole
        }
        ScriptCommand::Brush(order) => outcome_of_making(run.desk.make_brush(run.alloc, order)),
        ScriptCommand::Draw(command) => draw(run, shelf, number, command, sink),
        ScriptCommand::Dump(name) => {
            dump(sink, run.script, &run.desk, shelf, *name, &mut run.room)
        }
        ScriptCommand::Sum(name) => sum(sink, run.script, &run.desk, shelf, *name, &mut run.room),
        ScriptCommand::Nothing => Outcome::Whole,
    }
}

/// How a run ends that wrote all.
fn ended_of(whole: bool, fault: bool) -> Ended
    ensures { result ≡ ended_of whole fault }
{
    if fault {
        return Ended::FaultSeen;
    }
    if whole {
        Ended::Done
    } else {
        Ended::MemorySeen
    }
}

/// Carries out the commands of a script in order, and writes their lines. After a fault of the sink, and where there is no memory for
/// what a command makes, no further command is carried out.
pub fn run_all<K: Sink>(run: &mut Run<'_>, shelf: &mut Vec<DriverPort>, sink: &mut K) -> Ended
    requires place { run.old.desk.screen.place < length shelf.old.items }
    requires serves { Serves run.old.desk.screen (state_at (map (λ d. ⟦<DriverPort as Pictured>⟧.state d) shelf.old.items) run.old.desk.screen.place) }
    requires can { CanRun (live_in run.old.desk) run.old.script.now.commands }
    requires few { length run.old.script.now.commands ≤ 100000 }
    ensures ran { let asked_for = run.old.script.now in
        (h : List Entry) × Ran asked_for.names asked_for.commands run.old.desk run.new.desk
        (state_at (map (λ d. ⟦<DriverPort as Pictured>⟧.state d) shelf.old.items) run.old.desk.screen.place) (state_at (map (λ d. ⟦<DriverPort as Pictured>⟧.state d) shelf.new.items) run.old.desk.screen.place)
        (K.written sink.old) (K.written sink.new) (K.faults sink.old) (K.faults sink.new) result h }
    ensures others { OthersStay run.old.desk.screen.place shelf.old.items shelf.new.items }
{
    let commands = run.script.commands();
    let mut whole = true;
    let mut fault = false;
    for i in 0..commands.len() {
        match carry_out(run, shelf, i as u64 + 1, &commands[i], sink) {
            Outcome::Whole => {}
            Outcome::Wanting => whole = false,
            Outcome::Faulted => {
                whole = false;
                fault = true;
            }
            Outcome::Lacking => return Ended::NoMemory,
            Outcome::Broken => return Ended::WriteFault,
        }
    }
    let last = end_line(commands.len() as u64);
    match write_all(sink, last.as_slice()) {
        Ok(()) => ended_of(whole, fault),
        Err(_) => Ended::WriteFault,
    }
}
