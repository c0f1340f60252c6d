//! The sum of the pixel values of a surface.

ghost use Rattle.std.specs.Prelude.{◌≡◌, is_err};
ghost use Rattle.desk_io.specs.Sinks.{Puts};
ghost use Rattle.desk_run.specs.Texts.{sum_of, sum_text};

use crate::text::sum_line;
use desk_io::{Sink, WriteFault, write_all};
use script_orders::{Named, Script};

/// The sum of values: for each 31 times the sum so far and the value, within 64 bits.
fn sum(values: &[u32]) -> u64
    ensures { result ≡ sum_of values.now }
{
    let mut sum = 0u64;
    for value in values {
        sum = sum.wrapping_mul(31).wrapping_add(*value as u64);
    }
    sum
}

/// Writes the line of a sum of a surface with these values, in one piece.
pub fn put_sum<K: Sink>(
    sink: &mut K,
    script: &Script<'_>,
    name: Named,
    values: &[u32],
) -> Result<(), WriteFault>
    ensures { let text = sum_text script.now.names name values.now in
        Puts text (K.written sink.old) (K.written sink.new) (K.faults sink.old) (K.faults sink.new) (is_err result) }
{
    let line = sum_line(script, name, sum(values));
    write_all(sink, line.as_slice())
}
