//! The pixel values of a surface as text.

ghost use Rattle.std.specs.Prelude.{◌≡◌, ◌<◌, ◌+◌, ◌*◌, length, is_err};
ghost use Rattle.desk_io.specs.Sinks.{Puts};
ghost use Rattle.script_orders.specs.Asked.{IsSurfaceSize};
ghost use Rattle.desk_run.specs.InnerRows.{longest_line};
ghost use Rattle.desk_run.specs.Texts.{hex_digit, hex_digits, row_text, rows_text, dump_text};

use crate::text::head_line;
use desk_io::{Sink, WriteFault, write_all};
use desk_span::SurfaceLook;
use geom_base::Size;
use script_orders::{Named, Script};

/// The hexadecimal digit of a number below 16.
fn digit(n: u64) -> u8
    requires { n < 16 }
    ensures { result ≡ hex_digit n }
{
    if n < 10 {
        b'0' + n as u8
    } else {
        b'a' + (n as u8 - 10)
    }
}

/// Puts the last digits of a value into a cell, as many as it has places.
#[tactic(auto, unfolding(crate::specs::Texts::hex_digits))]
pub fn put_hex(cell: &mut [u8], value: u64)
    ensures { cell.new ≡ hex_digits (length cell.old) value }
{
    let mut rest = value;
    for k in (0..cell.len()).rev() {
        cell[k] = digit(rest % 16);
        rest /= 16;
    }
}

/// Puts the line of a row, with so many digits for each value.
fn put_row(line: &mut [u8], values: &[u32], digits: usize)
    requires room { length line.old ≡ digits * length values.now + 1 }
    ensures { line.new ≡ row_text digits values.now }
{
    for i in 0..values.len() {
        let start = digits * i;
        put_hex(&mut line[start..start + digits], values[i] as u64);
    }
    line[digits * values.len()] = b'\n';
}

/// Writes the lines of the rows, each in one piece. A row is written from `line`.
fn put_rows<K: Sink>(
    sink: &mut K,
    size: Size,
    values: &[u32],
    digits: usize,
    line: &mut [u8],
) -> Result<(), WriteFault>
    requires places { length values.now ≡ size.w * size.h }
    requires room { length line.old ≡ digits * size.w + 1 }
    ensures { let text = rows_text digits size.w size.h values.now in
        Puts text (K.written sink.old) (K.written sink.new) (K.faults sink.old) (K.faults sink.new) (is_err result) }
{
    let width = size.w as usize;
    for y in 0..size.h as usize {
        put_row(line, &values[y * width..y * width + width], digits);
        write_all(sink, line)?;
    }
    Ok(())
}

/// Writes the lines of a dump of a surface with these values: its head, and a line for each row. `line` is room for a row's line.
pub fn put_dump<K: Sink>(
    sink: &mut K,
    script: &Script<'_>,
    name: Named,
    look: SurfaceLook,
    values: &[u32],
    line: &mut [u8],
) -> Result<(), WriteFault>
    requires size { IsSurfaceSize look.size }
    requires places { length values.now ≡ look.size.w * look.size.h }
    requires line { length line.old ≡ longest_line }
    ensures { let text = dump_text script.now.names name look.size look.format values.now in
        Puts text (K.written sink.old) (K.written sink.new) (K.faults sink.old) (K.faults sink.new) (is_err result) }
{
    let head = head_line(script, name, look.size, look.format);
    write_all(sink, head.as_slice())?;
    let digits = look.format.digits() as usize;
    let room = digits * look.size.w as usize + 1;
    put_rows(sink, look.size, values, digits, &mut line[..room])
}
