//! The lines of reports.

ghost use Rattle.std.specs.Prelude.{◌≤◌, length, is_err};
ghost use Rattle.std.specs.List.{flat_map};
ghost use Rattle.desk_io.specs.Sinks.{Puts};
ghost use Rattle.desk_run.specs.Texts.{report_text, unread_text};

use crate::text::{drawn_line, report_head_line, unread_line};
use desk_io::{Sink, WriteFault, write_all};
use desk_span::Report;
use hook_route::Cause;
use script_orders::{Named, Script};

/// Writes the lines of a report of a command: its head, and a line for each rectangle that was done.
fn put_report<K: Sink>(
    sink: &mut K,
    script: &Script<'_>,
    number: u64,
    report: &Report,
) -> Result<(), WriteFault>
    ensures { let text = report_text script.now.names number report.now in
        Puts text (K.written sink.old) (K.written sink.new) (K.faults sink.old) (K.faults sink.new) (is_err result) }
{
    let head = report_head_line(script, number, report);
    write_all(sink, head.as_slice())?;
    for rect in report.rects() {
        let line = drawn_line(script, report.target(), rect);
        write_all(sink, line.as_slice())?;
    }
    Ok(())
}

/// Writes the lines of a command's reports, one report after the other.
pub fn put_reports<K: Sink>(
    sink: &mut K,
    script: &Script<'_>,
    number: u64,
    reports: &[Report],
) -> Result<(), WriteFault>
    ensures { let text = flat_map (report_text script.now.names number) reports.now in
        Puts text (K.written sink.old) (K.written sink.new) (K.faults sink.old) (K.faults sink.new) (is_err result) }
{
    for report in reports {
        put_report(sink, script, number, report)?;
    }
    Ok(())
}

/// Writes the one line of a surface that could not be read, for a command with this word.
pub fn put_unread<K: Sink>(
    sink: &mut K,
    script: &Script<'_>,
    word: &[u8],
    name: Named,
    cause: Cause,
) -> Result<(), WriteFault>
    requires { length word.now ≤ 10 }
    ensures { let text = unread_text word.now script.now.names name cause in
        Puts text (K.written sink.old) (K.written sink.new) (K.faults sink.old) (K.faults sink.new) (is_err result) }
{
    let line = unread_line(script, word, name, cause);
    write_all(sink, line.as_slice())
}

#[cfg(test)]
mod tests {
    use super::*;
    use desk_io::MemSink;
    use geom_base::{DrawnList, Rect};
    use std::test::Fail;

    #[test]
    fn rectangles_have_lines(rt: HostRuntime) -> Result<(), Fail> {
        let script = Script::of(
            Vec::new(rt.alloc()),
            vec![in rt.alloc(); b"wall".as_slice()]?,
        );
        let mut drawn = DrawnList::new(rt.alloc());
        drawn.reserve(2)?;
        drawn.push(Rect {
            left: 0,
            top: 0,
            right: 4,
            bottom: 1,
        });
        drawn.push(Rect {
            left: -3,
            top: 2,
            right: 4096,
            bottom: 17,
        });
        let mut reports = Vec::new(rt.alloc());
        reports.push(Report::of(Named::Screen(0), Cause::Fault, drawn))?;
        let none = DrawnList::new(rt.alloc());
        reports.push(Report::of(Named::Bitmap(0), Cause::Memory, none))?;
        let mut sink = MemSink::new(rt.alloc(), 4096, 65_536, vec![in rt.alloc(); 0]?)?;
        put_reports(&mut sink, &script, 12, &reports)?;
        assert_eq!(rt;
            sink.written(),
            b"command 12 fault 0 2\ndrawn 0 0 0 4 1\ndrawn 0 -3 2 4096 17\ncommand 12 memory wall 0\n".as_slice()
        );
        Ok(())
    }

    #[test]
    fn what_is_not_read_has_one_line(rt: HostRuntime) -> Result<(), Fail> {
        let script = Script::of(
            Vec::new(rt.alloc()),
            vec![in rt.alloc(); b"wall".as_slice()]?,
        );
        let mut sink = MemSink::new(rt.alloc(), 4096, 65_536, vec![in rt.alloc(); 0]?)?;
        put_unread(
            &mut sink,
            &script,
            b"dump ",
            Named::Bitmap(0),
            Cause::Memory,
        )?;
        put_unread(&mut sink, &script, b"sum ", Named::Screen(3), Cause::Fault)?;
        assert_eq!(rt;
            sink.written(),
            b"dump wall memory\nsum 3 fault\n".as_slice()
        );
        Ok(())
    }
}
