//! The top call.

ghost use Rattle.std.specs.Prelude.{◌≡◌, ◌<◌, ◌≤◌, ◌*◌, ◌+◌, ◌⊎◌, ℕ, List, Some, None, Ok, map, length, string_bytes, false, is_some, IfOk};
ghost use Rattle.desk_io.specs.Counts.{Counted};
ghost use Rattle.desk_io.specs.Sources.{most_bytes};
ghost use Rattle.copy_port.specs.declared.words.Kind.TheVariants.{Linear};
ghost use Rattle.ddi_driver.specs.Modes.{IsMode};
ghost use Rattle.desk_shelf.specs.Free.{first_free};
ghost use Rattle.desk_shelf.specs.Shelf.{OthersStay, state_at};
ghost use Rattle.desk_run.specs.Answers.{Answered, OthersKept, form_of, input_of};
ghost use Rattle.desk_run.specs.Config.{mode_of};
ghost use Rattle.desk_run.specs.InnerAnswers.{Ends, RanAs, Says, WasRun, shelf_short, status_of};
ghost use Rattle.desk_span.specs.Kept.{Serves, first_kept, live_in};
ghost use Rattle.script_orders.specs.Asked.{IsSurfaceSize};
ghost use Rattle.script_orders.specs.Live.{CanRun, first_live};
ghost use Rattle.desk_run.specs.Input.{checked, checked_of};
ghost use Rattle.desk_run.specs.Status.{is_read_fault, is_write_fault};
ghost use Rattle.desk_run.specs.declared.status.Status.TheVariants as status;

use crate::config::mode_of;
use crate::input::{Input, InputError, read_input};
use crate::room::ReadRoom;
use crate::run::{Ended, Run, run_all};
use crate::status::{InputRefusal, Status};
use crate::text::plain_line;
use copy_port::{Kind, Mode, Pictured};
use ddi_driver::{DriverPort, EnableRefusal};
use desk_io::{ReadRefusal, Sink, Source, read_all, write_all};
use desk_shelf::{enable_at, first_free};
use desk_span::{Desk, Reports};
use std::alloc::{AllocError, Global};

/// Whether the words are those of the form `run`.
fn is_run(words: &Vec<String>) -> bool
    ensures { result ≡ is_some (form_of (map (λ w. string_bytes w) words.now.items)) }
{
    match words.as_slice() {
        [word] => word.as_str() == "run",
        _ => false,
    }
}

/// Writes the text of a status, and answers the status.
fn say<K: Sink>(sink: &mut K, status: Status) -> Status
    ensures { Says status (K.written sink.old) (K.written sink.new) (K.faults sink.old) (K.faults sink.new) result }
{
    let line = plain_line(status);
    if write_all(sink, line.as_slice()).is_err() {
        return Status::WriteFault;
    }
    status
}

/// What it takes to run an input, and the mode of its screen.
#[derive(Drop)]
struct Ready<'a> {
    mode: Mode,
    run: Run<'a>,
}

/// What it takes to run an input on the driver at a place of the shelf.
fn make_ready<'a>(
    alloc: Global,
    input: &'a Input<'a>,
    place: usize,
) -> Result<Ready<'a>, AllocError>
    requires { IsSurfaceSize input.now.config.size }
    ensures mode { IfOk result (λ r. r.mode ≡ mode_of input.now.config) }
    ensures fits { IfOk result (λ r. IsMode r.mode) }
    ensures script { IfOk result (λ r. r.run.script.now ≡ input.now.script) }
    ensures desk { IfOk result (λ r. r.run.desk ≡ first_kept place input.now.config.size) }
{
    let config = &input.config;
    Ok(Ready {
        mode: mode_of(alloc, config)?,
        run: Run {
            alloc,
            script: &input.script,
            desk: Desk::new(alloc, place, config.size)?,
            reports: Reports::new(alloc)?,
            room: ReadRoom::new(alloc)?,
        },
    })
}

/// Carries out the commands on the desk that stands, and answers how that ended.
fn run_on<K: Sink>(run: &mut Run<'_>, shelf: &mut Vec<DriverPort>, sink: &mut K) -> Status
    requires place { run.old.desk.screen.place < length shelf.old.items }
    requires serves { Serves run.old.desk.screen (state_at (map (λ d. ⟦<DriverPort as Pictured>⟧.state d) shelf.old.items) run.old.desk.screen.place) }
    requires can { CanRun (live_in run.old.desk) run.old.script.now.commands }
    requires few { length run.old.script.now.commands ≤ 100000 }
    ensures ran { RanAs run.old.script.now run.old.desk (state_at (map (λ d. ⟦<DriverPort as Pictured>⟧.state d) shelf.old.items) run.old.desk.screen.place) (state_at (map (λ d. ⟦<DriverPort as Pictured>⟧.state d) shelf.new.items) run.old.desk.screen.place)
        (K.written sink.old) (K.written sink.new) (K.faults sink.old) (K.faults sink.new) result }
    ensures others { OthersStay run.old.desk.screen.place shelf.old.items shelf.new.items }
{
    let ended = run_all(run, shelf, sink);
    status_of(ended)
}

/// Enables the driver at a place of the shelf for the screen of an input, and runs the input on it.
fn run_at<K: Sink>(
    alloc: Global,
    input: &Input<'_>,
    shelf: &mut Vec<DriverPort>,
    place: usize,
    sink: &mut K,
) -> Status
    requires place { place < length shelf.old.items }
    requires disabled { (state_at (map (λ d. ⟦<DriverPort as Pictured>⟧.state d) shelf.old.items) place).rest.enabled ≡ false }
    requires size { IsSurfaceSize input.now.config.size }
    requires can { CanRun first_live input.now.script.commands }
    requires few { length input.now.script.commands ≤ 100000 }
    ensures run { WasRun (checked_of input.now) place (state_at (map (λ d. ⟦<DriverPort as Pictured>⟧.state d) shelf.old.items) place) (state_at (map (λ d. ⟦<DriverPort as Pictured>⟧.state d) shelf.new.items) place)
        (K.written sink.old) (K.written sink.new) (K.faults sink.old) (K.faults sink.new) result }
    ensures others { OthersStay place shelf.old.items shelf.new.items }
{
    let mut ready = match make_ready(alloc, input, place) {
        Ok(ready) => ready,
        Err(_) => return Status::NoMemory,
    };
    match enable_at(alloc, shelf, place, &ready.mode) {
        Ok(()) => run_on(&mut ready.run, shelf, sink),
        Err(EnableRefusal::ModeOut(limit)) => say(sink, Status::ModeRefused { screen: 0, limit }),
        Err(EnableRefusal::Fault) => say(sink, Status::EnableFault { screen: 0 }),
        Err(EnableRefusal::NoMemory) => Status::NoMemory,
    }
}

/// The status of a shelf on which no linear driver is disabled.
fn short_of_one() -> Status
    ensures { result ≡ shelf_short }
{
    Status::ShelfShort {
        kind: Kind::Linear,
        wanted: 1,
        held: 0,
    }
}

/// Runs what an input asks for, on the first linear driver of the shelf that is disabled.
fn run_input<K: Sink>(
    alloc: Global,
    input: &Input<'_>,
    shelf: &mut Vec<DriverPort>,
    sink: &mut K,
) -> Status
    requires size { IsSurfaceSize input.now.config.size }
    requires can { CanRun first_live input.now.script.commands }
    requires few { length input.now.script.commands ≤ 100000 }
    ensures ends { Ends (Some (Ok (checked_of input.now))) (map (λ d. ⟦<DriverPort as Pictured>⟧.state d) shelf.old.items) (map (λ d. ⟦<DriverPort as Pictured>⟧.state d) shelf.new.items)
        (K.written sink.old) (K.written sink.new) (K.faults sink.old) (K.faults sink.new) result }
    ensures others { OthersKept (first_free Linear (map (λ d. ⟦<DriverPort as Pictured>⟧.state d) shelf.old.items)) shelf.old.items shelf.new.items }
{
    match first_free(shelf, Kind::Linear) {
        Some(place) => run_at(alloc, input, shelf, place, sink),
        None => say(sink, short_of_one()),
    }
}

/// The status of a run that ended so.
fn status_of(ended: Ended) -> Status
    ensures { result ≡ status_of ended }
{
    match ended {
        Ended::Done => Status::Done,
        Ended::FaultSeen => Status::FaultSeen,
        Ended::MemorySeen => Status::MemorySeen,
        Ended::NoMemory => Status::NoMemory,
        Ended::WriteFault => Status::WriteFault,
    }
}

/// Checks the bytes of an input, and runs it.
fn run_bytes<K: Sink>(
    alloc: Global,
    bytes: &[u8],
    shelf: &mut Vec<DriverPort>,
    sink: &mut K,
) -> Status
    requires { length bytes.now ≤ most_bytes }
    ensures ends { Ends (Some (checked bytes.now)) (map (λ d. ⟦<DriverPort as Pictured>⟧.state d) shelf.old.items) (map (λ d. ⟦<DriverPort as Pictured>⟧.state d) shelf.new.items)
        (K.written sink.old) (K.written sink.new) (K.faults sink.old) (K.faults sink.new) result }
    ensures others { OthersKept (first_free Linear (map (λ d. ⟦<DriverPort as Pictured>⟧.state d) shelf.old.items)) shelf.old.items shelf.new.items }
{
    match read_input(alloc, bytes) {
        Ok(input) => run_input(alloc, &input, shelf, sink),
        Err(InputError::Refused(refusal)) => say(sink, Status::InputRefused(refusal)),
        Err(InputError::NoMemory) => Status::NoMemory,
    }
}

/// Reads an input from the source, runs it on drivers of the shelf, and writes to the sink what it asks for. `words` are the words after the
/// program's name. The screen takes the first linear driver that is disabled; it stays enabled after a run.
///
/// A source that tells what it has left, and a sink that tells what it was given, show the whole of the answer; of
/// the others only the causes of faults are known.
pub fn run_desktop<S: Source, K: Sink>(
    alloc: Global,
    words: &Vec<String>,
    source: &mut S,
    shelf: &mut Vec<DriverPort>,
    sink: &mut K,
) -> Status
    ensures read_fault { Counted (is_read_fault result) (S.faults source.old) (S.faults source.new) }
    ensures write_fault { Counted (is_write_fault result) (K.faults sink.old) (K.faults sink.new) }
    ensures usage { form_of (map (λ w. string_bytes w) words.now.items) ≡ None → (result ≡ Status.Usage) ⊎ (result ≡ Status.WriteFault) }
    ensures form { result ≡ Status.Usage → form_of (map (λ w. string_bytes w) words.now.items) ≡ None }

    // The drivers that no screen takes stay as they are, in their places.
    ensures others { OthersKept (first_free Linear (map (λ d. ⟦<DriverPort as Pictured>⟧.state d) shelf.old.items)) shelf.old.items shelf.new.items }

    // The text that is due, and what the drivers show, by the bytes that the source gives up to its end.
    ensures answered { (bytes : List ℕ) → S.left source.old ≡ Some bytes → Answered (record {
      words = map (λ w. string_bytes w) words.now.items;
      left = S.left source.old;
      left_after = S.left source.new;
      read_faults = S.faults source.old;
      read_faults_after = S.faults source.new;
      drivers = (map (λ d. ⟦<DriverPort as Pictured>⟧.state d) shelf.old.items);
      drivers_after = (map (λ d. ⟦<DriverPort as Pictured>⟧.state d) shelf.new.items);
      written = K.written sink.old;
      written_after = K.written sink.new;
      write_faults = K.faults sink.old;
      write_faults_after = K.faults sink.new;
    }) (input_of (form_of (map (λ w. string_bytes w) words.now.items)) bytes) result }
{
    if !is_run(words) {
        return say(sink, Status::Usage);
    }
    match read_all(alloc, source) {
        Ok(bytes) => run_bytes(alloc, &bytes, shelf, sink),
        Err(ReadRefusal::Fault) => Status::ReadFault,
        Err(ReadRefusal::Size) => say(sink, Status::InputRefused(InputRefusal::Size)),
        Err(ReadRefusal::NoMemory) => Status::NoMemory,
    }
}
