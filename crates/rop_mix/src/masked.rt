//! Quaternary raster operations on rows of values.

ghost use Rattle.std.specs.Prelude.{◌≡◌, ◌≤◌, ◌==◌, length, slice_index, EachIndex};
ghost use Rattle.rop_mix.specs.Rop.{rop4_of};

use crate::rop4::{Rop4, rop4_bits};

/// What `rop4_bits` gives for each value of a row, with a mask value, a pattern value and a source value for each. The
/// mask is set where its value is 1.
pub fn apply_masked(rop: Rop4, m: &[u32], p: &[u32], s: &[u32], d: &mut [u32], bits: u32)
    requires bits { bits ≤ 32 }
    requires mask { length m.now ≡ length d.old }
    requires pattern { length p.now ≡ length d.old }
    requires source { length s.now ≡ length d.old }
    ensures { EachIndex d.new (λ k. slice_index d.new k ≡
        rop4_of rop.code (slice_index m.now k == 1) (slice_index p.now k) (slice_index s.now k) (slice_index d.old k) bits) }
{
    match rop.code {
        0xaacc => combine_masked::<0xaacc>(m, p, s, d, bits),
        0xccaa => combine_masked::<0xccaa>(m, p, s, d, bits),
        0xaaf0 => combine_masked::<0xaaf0>(m, p, s, d, bits),
        0xf0aa => combine_masked::<0xf0aa>(m, p, s, d, bits),
        0xccf0 => combine_masked::<0xccf0>(m, p, s, d, bits),
        0xf0cc => combine_masked::<0xf0cc>(m, p, s, d, bits),
        _ => combine_any(rop, m, p, s, d, bits),
    }
}

/// The operation of a code that the compiler knows.
fn combine_masked<const CODE: u16>(m: &[u32], p: &[u32], s: &[u32], d: &mut [u32], bits: u32)
    requires bits { bits ≤ 32 }
    requires mask { length m.now ≡ length d.old }
    requires pattern { length p.now ≡ length d.old }
    requires source { length s.now ≡ length d.old }
    ensures { EachIndex d.new (λ k. slice_index d.new k ≡
        rop4_of CODE (slice_index m.now k == 1) (slice_index p.now k) (slice_index s.now k) (slice_index d.old k) bits) }
{
    combine_any(Rop4::of(CODE), m, p, s, d, bits);
}

/// The operation of any code. Inlined, so that a code that the compiler knows takes only its own steps.
#[inline(always)]
fn combine_any(rop: Rop4, m: &[u32], p: &[u32], s: &[u32], d: &mut [u32], bits: u32)
    requires bits { bits ≤ 32 }
    requires mask { length m.now ≡ length d.old }
    requires pattern { length p.now ≡ length d.old }
    requires source { length s.now ≡ length d.old }
    ensures { EachIndex d.new (λ k. slice_index d.new k ≡
        rop4_of rop.code (slice_index m.now k == 1) (slice_index p.now k) (slice_index s.now k) (slice_index d.old k) bits) }
{
    for i in 0..d.len() {
        d[i] = rop4_bits(rop, m[i] == 1, p[i], s[i], d[i], bits);
    }
}
