//! Quaternary raster operations.

ghost use Rattle.std.specs.Prelude.{◌≡◌, ◌≤◌, ◌<◌, ◌^◌, ◌%◌, ◌/◌};
ghost use Rattle.rop_mix.specs.Rop.{rop4_of};

use crate::ternary::rop3;

/// Two ternary codes: the low byte acts where a mask is 1, the high byte where it is 0.
#[derive(Clone, Copy, Debug, PartialEq, Eq)]
pub struct Rop4 {
    /// Both codes.
    pub code: u16,
}

impl Rop4 {
    /// The raster operation of two codes in one number.
    pub fn of(code: u16) -> Rop4
        ensures { result.code ≡ code }
    {
        Rop4 { code }
    }

    /// The ternary code that acts where the mask is 1.
    #[inline]
    pub fn code_where_set(self) -> u8
        ensures { result ≡ self.code % 256 }
    {
        (self.code & 0xff) as u8
    }

    /// The ternary code that acts where the mask is 0.
    #[inline]
    pub fn code_where_clear(self) -> u8
        ensures { result ≡ self.code / 256 }
    {
        (self.code >> 8) as u8
    }
}

/// What the code for this bit of the mask gives of the low bits of three values; the other bits are 0.
///
/// Both codes are worked out, so that a row of masks takes no branches.
#[inline]
pub fn rop4_bits(rop: Rop4, m: bool, p: u32, s: u32, d: u32, bits: u32) -> u32
    requires { bits ≤ 32 }
    ensures value { result ≡ rop4_of rop.code m p s d bits }
    ensures fits { result < 2 ^ bits }
{
    let set = rop3(rop.code_where_set(), p, s, d, bits);
    let clear = rop3(rop.code_where_clear(), p, s, d, bits);
    if m { set } else { clear }
}
