//! A row that repeats its first values.

ghost use Rattle.std.specs.Prelude.{◌≡◌, ◌≤◌, ◌<◌, ◌+◌, ◌%◌, EachIndex, length, slice_index};

use crate::wrapping::turned;

/// Repeats the first values of a row, of the number of the period, over all of it.
pub fn repeat(row: &mut [u32], period: usize)
    requires { 1 ≤ period }
    ensures { EachIndex row.new (λ k. slice_index row.new k ≡ slice_index row.old (k % period)) }
{
    let mut filled = period;
    while filled < row.len() {
        let count = filled.min(row.len() - filled);
        row.copy_within(0..count, filled);
        filled += count;
    }
}

/// Values of a row from one place on, and round to its first one again.
pub fn copy_round(row: &[u32], from: usize, out: &mut [u32])
    requires from { from < length row.now }
    requires short { length out.old ≤ length row.now }
    ensures { EachIndex out.new (λ k. slice_index out.new k ≡ slice_index row.now ((from + k) % length row.now)) }
{
    for k in 0..out.len() {
        out[k] = row[turned(from + k, row.len())];
    }
}
