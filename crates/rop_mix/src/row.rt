//! Ternary raster operations on rows of values.

ghost use Rattle.std.specs.Prelude.{◌≡◌, ◌≤◌, ◌<◌, ℕ, length, slice_index, EachIndex};
ghost use Rattle.rop_mix.specs.Rop.{rop3_of};

use crate::lanes::combine_lanes;
use crate::operand::{Listed, Operand, Solid};
use crate::ternary::rop3;

/// What `rop3` gives for each value of a row, with a pattern value and a source value for each: three rows of one
/// length, and at most 32 bits a value.
pub fn apply_row(code: u8, p: &[u32], s: &[u32], d: &mut [u32], bits: u32)
    requires bits { bits ≤ 32 }
    requires pattern { length p.now ≡ length d.old }
    requires source { length s.now ≡ length d.old }
    ensures { EachIndex d.new (λ k. slice_index d.new k ≡ rop3_of code (slice_index p.now k) (slice_index s.now k) (slice_index d.old k) bits) }
{
    combine(code, &Listed(p), &Listed(s), d, bits);
}

/// What `rop3` gives for each value of a row, with one pattern value for all and a source value for each. A code that
/// needs no source may be given any row of that length.
pub fn apply_solid(code: u8, p: u32, s: &[u32], d: &mut [u32], bits: u32)
    requires bits { bits ≤ 32 }
    requires source { length s.now ≡ length d.old }
    ensures { EachIndex d.new (λ k. slice_index d.new k ≡ rop3_of code p (slice_index s.now k) (slice_index d.old k) bits) }
{
    combine(code, &Solid(p), &Listed(s), d, bits);
}

/// What `rop3` gives for each value of a row, with one pattern value for all and the source 0: what a mix does, and each
/// code that needs no source.
pub fn apply_fill(code: u8, p: u32, d: &mut [u32], bits: u32)
    requires { bits ≤ 32 }
    ensures { EachIndex d.new (λ k. slice_index d.new k ≡ rop3_of code p 0 (slice_index d.old k) bits) }
{
    combine(code, &Solid(p), &Solid(0), d, bits);
}

/// The operation of a code on each value of a row: a loop of its own for each code that is often used.
fn combine<P: Operand, S: Operand>(code: u8, p: &P, s: &S, d: &mut [u32], bits: u32)
    requires bits { bits ≤ 32 }
    requires pattern { (k : ℕ) → k < length d.old → P.reaches p.now k }
    requires source { (k : ℕ) → k < length d.old → S.reaches s.now k }
    ensures { EachIndex d.new (λ k. slice_index d.new k ≡ rop3_of code (P.at p.now k) (S.at s.now k) (slice_index d.old k) bits) }
{
    match code {
        0x00 => combine_by::<0x00, P, S>(p, s, d, bits),
        0x0f => combine_by::<0x0f, P, S>(p, s, d, bits),
        0x33 => combine_by::<0x33, P, S>(p, s, d, bits),
        0x55 => combine_by::<0x55, P, S>(p, s, d, bits),
        0x5a => combine_by::<0x5a, P, S>(p, s, d, bits),
        0x66 => combine_by::<0x66, P, S>(p, s, d, bits),
        0x88 => combine_by::<0x88, P, S>(p, s, d, bits),
        0xaa => combine_by::<0xaa, P, S>(p, s, d, bits),
        0xb8 => combine_by::<0xb8, P, S>(p, s, d, bits),
        0xcc => combine_by::<0xcc, P, S>(p, s, d, bits),
        0xe2 => combine_by::<0xe2, P, S>(p, s, d, bits),
        0xee => combine_by::<0xee, P, S>(p, s, d, bits),
        0xf0 => combine_by::<0xf0, P, S>(p, s, d, bits),
        0xff => combine_by::<0xff, P, S>(p, s, d, bits),
        _ => combine_lanes(code, p, s, d, bits),
    }
}

/// The operation of a code that the compiler knows, so that each value takes the few steps of that code alone.
fn combine_by<const CODE: u8, P: Operand, S: Operand>(p: &P, s: &S, d: &mut [u32], bits: u32)
    requires bits { bits ≤ 32 }
    requires pattern { (k : ℕ) → k < length d.old → P.reaches p.now k }
    requires source { (k : ℕ) → k < length d.old → S.reaches s.now k }
    ensures { EachIndex d.new (λ k. slice_index d.new k ≡ rop3_of CODE (P.at p.now k) (S.at s.now k) (slice_index d.old k) bits) }
{
    for i in 0..d.len() {
        d[i] = rop3(CODE, p.value(i), s.value(i), d[i], bits);
    }
}
