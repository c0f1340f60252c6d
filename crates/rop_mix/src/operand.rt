//! Operands of a row: a value for each place, or one for all.

ghost use Rattle.std.specs.Prelude.{◌≡◌, ◌<◌, ◌+◌, ℕ, length, slice_index};
ghost use Rattle.std.specs.Simd.Lanes.{Each1};

use std::simd::u32x8;

/// An operand's values along a row.
pub trait Operand {
    // what stands at a place
    ghost at: { Self → ℕ → ℕ };

    // the places that the operand has a value for
    ghost reaches: { Self → ℕ → Type 0 };

    /// The value at a place.
    fn value(&self, place: usize) -> u32
        requires { reaches self.now place }
        ensures { result ≡ at self.now place };

    /// The eight values from a place on.
    fn lanes(&self, place: usize) -> u32x8
        requires { (j : ℕ) → j < 8 → reaches self.now (place + j) }
        ensures lanes { length result ≡ 8 }
        ensures values { (j : ℕ) → j < 8 → slice_index result j ≡ at self.now (place + j) };
}

/// A value for each place.
#[derive(Clone, Copy)]
pub struct Listed<'a>(pub &'a [u32]);

impl<'a> Operand for Listed<'a> {
    ghost at = { λ row k. slice_index row.0.now k };

    ghost reaches = { λ row k. k < length row.0.now };

    #[inline]
    fn value(&self, place: usize) -> u32 {
        self.0[place]
    }

    #[inline]
    fn lanes(&self, place: usize) -> u32x8 {
        let row = self.0;
        u32x8::from_slice(&row[place..])
    }
}

/// One value for all places.
#[derive(Clone, Copy)]
pub struct Solid(pub u32);

impl Operand for Solid {
    ghost at = { λ solid _. solid.0 };

    ghost reaches = { λ _ _. Unit {0} };

    #[inline]
    fn value(&self, _place: usize) -> u32 {
        self.0
    }

    #[inline]
    fn lanes(&self, _place: usize) -> u32x8 {
        u32x8::splat(self.0)
    }
}
