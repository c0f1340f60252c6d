//! Ternary raster operations on one value of each operand.

ghost use Rattle.std.specs.Prelude.{◌≡◌, ◌≤◌, ◌<◌, ◌^◌, ◌-◌};
ghost use Rattle.rop_mix.specs.Rop.{rop3_of};
ghost use Rattle.rop_mix.specs.InnerChoice.{chosen, spread_of};

/// What a ternary code gives of the low bits of a pattern, a source and an old value, at most 32; the other bits are 0.
#[inline]
pub fn rop3(code: u8, p: u32, s: u32, d: u32, bits: u32) -> u32
    requires { bits ≤ 32 }
    ensures value { result ≡ rop3_of code p s d bits }
    ensures fits { result < 2 ^ bits }
{
    let with_pattern = choose(
        s,
        choose(d, spread(code, 7), spread(code, 6)),
        choose(d, spread(code, 5), spread(code, 4)),
    );
    let without_pattern = choose(
        s,
        choose(d, spread(code, 3), spread(code, 2)),
        choose(d, spread(code, 1), spread(code, 0)),
    );
    choose(p, with_pattern, without_pattern) & low_mask(bits)
}

/// Where the mask has a one the bit of one value, else that of the other.
#[inline]
fn choose(mask: u32, one: u32, zero: u32) -> u32
    ensures { result ≡ chosen mask one zero }
{
    (mask & one) | (!mask & zero)
}

/// A bit of the code in all places.
#[inline]
pub fn spread(code: u8, at: u32) -> u32
    requires { at < 8 }
    ensures { result ≡ spread_of code at }
{
    if (code >> at) & 1 == 1 { u32::MAX } else { 0 }
}

/// Ones in the low bits.
#[inline]
pub fn low_mask(bits: u32) -> u32
    requires { bits ≤ 32 }
    ensures { result ≡ 2 ^ bits - 1 }
{
    if bits == 32 {
        u32::MAX
    } else {
        (1 << bits) - 1
    }
}
