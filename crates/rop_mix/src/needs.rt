//! Which operands a raster operation depends on.

ghost use Rattle.std.specs.Prelude.{◌≡◌, ◌≢◌, ◌↔◌, ◌%◌, ◌/◌, IsTrue, Bool, false, ℕ};
ghost use Rattle.rop_mix.specs.Rop.{rop4_of};
ghost use Rattle.rop_mix.specs.Needs.{NeedsSource, NeedsPattern, EitherByte, source_changes, pattern_changes, target_changes, source_needed, pattern_needed, target_needed, mask_needed};

use crate::rop4::Rop4;

/// Whether some result of one of the bytes changes with the source alone.
pub fn needs_source(rop: Rop4) -> bool
    ensures need { IsTrue result ↔ EitherByte NeedsSource rop.code }
    ensures value { result ≡ source_needed rop.code }
    ensures spared { result ≡ false → (m : Bool) (p s t d bits : ℕ) → rop4_of rop.code m p s d bits ≡ rop4_of rop.code m p t d bits }
{
    byte_needs_source(rop.code_where_set()) || byte_needs_source(rop.code_where_clear())
}

/// Whether some result of one of the bytes changes with the pattern alone.
pub fn needs_pattern(rop: Rop4) -> bool
    ensures need { IsTrue result ↔ EitherByte NeedsPattern rop.code }
    ensures value { result ≡ pattern_needed rop.code }
    ensures spared { result ≡ false → (m : Bool) (p q s d bits : ℕ) → rop4_of rop.code m p s d bits ≡ rop4_of rop.code m q s d bits }
{
    byte_needs_pattern(rop.code_where_set()) || byte_needs_pattern(rop.code_where_clear())
}

/// Whether some result of one of the bytes changes with the old value alone.
pub fn needs_target(rop: Rop4) -> bool
    ensures value { result ≡ target_needed rop.code }
    ensures spared { result ≡ false → (m : Bool) (p s d e bits : ℕ) → rop4_of rop.code m p s d bits ≡ rop4_of rop.code m p s e bits }
{
    byte_needs_target(rop.code_where_set()) || byte_needs_target(rop.code_where_clear())
}

/// Whether the bytes differ.
pub fn needs_mask(rop: Rop4) -> bool
    ensures need { IsTrue result ↔ (rop.code % 256 ≢ rop.code / 256) }
    ensures value { result ≡ mask_needed rop.code }
    ensures spared { result ≡ false → (m n : Bool) (p s d bits : ℕ) → rop4_of rop.code m p s d bits ≡ rop4_of rop.code n p s d bits }
{
    rop.code_where_set() != rop.code_where_clear()
}

/// Whether the results for source 0 and source 1 differ, two places apart in the code.
fn byte_needs_source(code: u8) -> bool
    ensures { result ≡ source_changes code }
{
    (code ^ (code >> 2)) & 0x33 != 0
}

/// Whether the results for pattern 0 and pattern 1 differ, four places apart in the code.
fn byte_needs_pattern(code: u8) -> bool
    ensures { result ≡ pattern_changes code }
{
    (code ^ (code >> 4)) & 0x0f != 0
}

/// Whether the results for old value 0 and old value 1 differ, one place apart in the code.
fn byte_needs_target(code: u8) -> bool
    ensures { result ≡ target_changes code }
{
    (code ^ (code >> 1)) & 0x55 != 0
}
