//! Lines, made in a place of fixed size.

ghost use Rattle.std.specs.Prelude.{◌≡◌, ◌≤◌, ◌+◌, ◌*◌, ◌<◌, ◌++◌, length, decimal, codes};
ghost use Rattle.std.specs.Fmt.{signed_decimal};
ghost use Rattle.arrayvec.specs.ArrayVec.{array_vec_len};
ghost use Rattle.desk_run.specs.Texts as spec;

use crate::dump::put_hex;
use crate::status::{InputRefusal, Status};
use arrayvec::ArrayVec;
use copy_port::{Kind, Limit};
use desk_span::Report;
use geom_base::{Rect, Size};
use hook_route::Cause;
use itoa::Buffer;
use pix_format::Format;
use script_orders::{Named, Script};

pub type Line = ArrayVec<u8, 200>;

fn add(line: &mut Line, piece: &[u8])
    requires { array_vec_len line.old + length piece.now ≤ 200 }
    ensures items { line.new.items ≡ line.old.items ++ piece.now }
    ensures len { array_vec_len line.new ≡ array_vec_len line.old + length piece.now }
{
    for byte in piece {
        line.push(*byte);
    }
}

fn add_number(line: &mut Line, n: u64)
    requires { array_vec_len line.old + 20 ≤ 200 }
    ensures items { line.new.items ≡ line.old.items ++ decimal n }
    ensures len { array_vec_len line.new ≤ array_vec_len line.old + 20 }
{
    let mut buffer = Buffer::new();
    add(line, buffer.format(n).as_bytes());
}

fn add_signed(line: &mut Line, n: &i32)
    requires { array_vec_len line.old + 20 ≤ 200 }
    ensures items { line.new.items ≡ line.old.items ++ signed_decimal n.now }
    ensures len { array_vec_len line.new ≤ array_vec_len line.old + 20 }
{
    let mut buffer = Buffer::new();
    add(line, buffer.format(*n).as_bytes());
}

fn add_cause(line: &mut Line, cause: Cause)
    requires { array_vec_len line.old + 6 ≤ 200 }
    ensures items { line.new.items ≡ line.old.items ++ spec.cause_text cause }
    ensures len { array_vec_len line.new ≤ array_vec_len line.old + 6 }
{
    match cause {
        Cause::Fault => add(line, b"fault"),
        Cause::Memory => add(line, b"memory"),
    }
}

fn add_name(line: &mut Line, script: &Script<'_>, name: Named)
    requires { array_vec_len line.old + 32 ≤ 200 }
    ensures items { line.new.items ≡ line.old.items ++ spec.name_text script.now.names name }
    ensures len { array_vec_len line.new ≤ array_vec_len line.old + 32 }
{
    match name {
        Named::Screen(number) => add_number(line, number as u64),
        Named::Bitmap(number) => add(line, script.name(number)),
    }
}

fn add_format(line: &mut Line, format: Format)
    requires { array_vec_len line.old + 3 ≤ 200 }
    ensures items { line.new.items ≡ line.old.items ++ spec.format_text format }
    ensures len { array_vec_len line.new ≤ array_vec_len line.old + 3 }
{
    match format {
        Format::B1 => add(line, b"1"),
        Format::B4 => add(line, b"4"),
        Format::B8 => add(line, b"8"),
        Format::B555 => add(line, b"555"),
        Format::B565 => add(line, b"565"),
        Format::B24 => add(line, b"24"),
        Format::B32 => add(line, b"32"),
    }
}

/// The last line of a run.
pub fn end_line(count: u64) -> Line
    ensures { result.items ≡ spec.end_text count }
{
    let mut line = Line::new();
    add(&mut line, b"end ");
    add_number(&mut line, count);
    add(&mut line, b"\n");
    line
}

/// The first line of a dump.
pub fn head_line(script: &Script<'_>, name: Named, size: Size, format: Format) -> Line
    ensures { result.items ≡ spec.head_text script.now.names name size format }
{
    let mut line = Line::new();
    add(&mut line, b"dump ");
    add_name(&mut line, script, name);
    add(&mut line, b" ");
    add_number(&mut line, size.w as u64);
    add(&mut line, b" ");
    add_number(&mut line, size.h as u64);
    add(&mut line, b" ");
    add_format(&mut line, format);
    add(&mut line, b"\n");
    line
}

/// The line of a sum.
pub fn sum_line(script: &Script<'_>, name: Named, sum: u64) -> Line
    ensures { result.items ≡ spec.sum_line_text script.now.names name sum }
{
    let mut digits = [0u8; 16];
    put_hex(&mut digits, sum);
    let mut line = Line::new();
    add(&mut line, b"sum ");
    add_name(&mut line, script, name);
    add(&mut line, b" ");
    add(&mut line, &digits);
    add(&mut line, b"\n");
    line
}

/// The line of a surface that could not be read, for a command with this word.
pub fn unread_line(script: &Script<'_>, word: &[u8], name: Named, cause: Cause) -> Line
    requires { length word.now ≤ 10 }
    ensures { result.items ≡ spec.unread_text word.now script.now.names name cause }
{
    let mut line = Line::new();
    add(&mut line, word);
    add_name(&mut line, script, name);
    add(&mut line, b" ");
    add_cause(&mut line, cause);
    add(&mut line, b"\n");
    line
}

/// The first line of a report of a command.
pub fn report_head_line(script: &Script<'_>, number: u64, report: &Report) -> Line
    ensures { let r = report.now in
        result.items ≡ spec.report_head_text script.now.names number r.cause r.target (length r.rects) }
{
    let mut line = Line::new();
    add(&mut line, b"command ");
    add_number(&mut line, number);
    add(&mut line, b" ");
    add_cause(&mut line, report.cause());
    add(&mut line, b" ");
    add_name(&mut line, script, report.target());
    add(&mut line, b" ");
    add_number(&mut line, report.rects().len() as u64);
    add(&mut line, b"\n");
    line
}

/// The line of a rectangle of a target that was done.
pub fn drawn_line(script: &Script<'_>, target: Named, rect: &Rect) -> Line
    ensures { result.items ≡ spec.drawn_text script.now.names target rect.now }
{
    let mut line = Line::new();
    add(&mut line, b"drawn ");
    add_name(&mut line, script, target);
    add(&mut line, b" ");
    add_signed(&mut line, &rect.left);
    add(&mut line, b" ");
    add_signed(&mut line, &rect.top);
    add(&mut line, b" ");
    add_signed(&mut line, &rect.right);
    add(&mut line, b" ");
    add_signed(&mut line, &rect.bottom);
    add(&mut line, b"\n");
    line
}

fn refusal_line(refusal: InputRefusal) -> Line
    ensures { result.items ≡ spec.refusal_text refusal }
{
    let mut line = Line::new();
    add(&mut line, b"refused ");
    match refusal {
        InputRefusal::Size => add(&mut line, b"input size"),
        InputRefusal::Config { number } => {
            add(&mut line, b"config ");
            add_number(&mut line, number as u64);
        }
        InputRefusal::Script {
            line: place,
            number,
        } => {
            add(&mut line, b"script ");
            add_number(&mut line, place);
            add(&mut line, b" ");
            add_number(&mut line, number as u64);
        }
    }
    add(&mut line, b"\n");
    line
}

/// The line of a shelf that is short of drivers of a kind.
fn shelf_line(kind: Kind, wanted: u32, held: u32) -> Line
    ensures { result.items ≡ spec.shelf_text kind wanted held }
{
    let mut line = Line::new();
    add(&mut line, b"shelf ");
    match kind {
        Kind::Linear => add(&mut line, b"linear"),
        Kind::Banked => add(&mut line, b"banked"),
        Kind::Accel => add(&mut line, b"accel"),
        Kind::Mirror => add(&mut line, b"mirror"),
    }
    add(&mut line, b" ");
    add_number(&mut line, wanted as u64);
    add(&mut line, b" ");
    add_number(&mut line, held as u64);
    add(&mut line, b"\n");
    line
}

/// The line of a screen whose driver was not enabled, and why.
fn enable_line(screen: u32, why: &[u8]) -> Line
    requires { length why.now ≤ 20 }
    ensures { result.items ≡ spec.enable_text screen why.now }
{
    let mut line = Line::new();
    add(&mut line, b"enable ");
    add_number(&mut line, screen as u64);
    add(&mut line, b" ");
    add(&mut line, why);
    add(&mut line, b"\n");
    line
}

/// The line of a screen whose driver can't do its mode.
fn mode_line(screen: u32, limit: Limit) -> Line
    ensures { result.items ≡ spec.enable_text screen (codes "mode " ++ spec.limit_text limit) }
{
    match limit {
        Limit::Width => enable_line(screen, b"mode width"),
        Limit::Height => enable_line(screen, b"mode height"),
        Limit::Format => enable_line(screen, b"mode format"),
        Limit::Extra => enable_line(screen, b"mode extra"),
    }
}

/// The line of a status under which nothing is drawn; empty for the others.
pub fn plain_line(status: Status) -> Line
    ensures { result.items ≡ spec.plain_text status }
{
    match status {
        Status::Usage => usage_line(),
        Status::InputRefused(refusal) => refusal_line(refusal),
        Status::ShelfShort { kind, wanted, held } => shelf_line(kind, wanted, held),
        Status::EnableFault { screen } => enable_line(screen, b"fault"),
        Status::ModeRefused { screen, limit } => mode_line(screen, limit),
        _ => Line::new(),
    }
}

fn usage_line() -> Line
    ensures { result.items ≡ codes "usage\n" }
{
    let mut line = Line::new();
    add(&mut line, b"usage\n");
    line
}
