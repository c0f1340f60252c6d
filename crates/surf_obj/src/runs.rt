//! What the pixels of a run are given.

ghost use Rattle.std.specs.Prelude.{◌≡◌, ◌≤◌, ◌<◌, ◌+◌, ◌-◌, ◌*◌, ◌%◌, ◌^◌, ℕ, All, length, slice_index};
ghost use Rattle.pix_format.specs.Value.{bits_of};
ghost use Rattle.pix_format.specs.declared.format.Format.{Format};
ghost use Rattle.geom_base.specs.Grid.{value_at};
ghost use Rattle.surf_obj.specs.Layout.{row_bytes, pixel_in};
ghost use Rattle.surf_obj.specs.InnerBytes.{ChangesOnly};
ghost use Rattle.surf_obj.specs.View.{view_size, view_format, view_values};

use crate::rows::{fill_values, write_values};
use crate::view::LentView;
use pix_format::Format;

/// A value for each pixel of a run.
pub trait Run {
    /// The format of its values.
    ghost format: { Self → Format };

    /// How many pixels it has values for.
    ghost count: { Self → ℕ };

    /// The value of its pixel k.
    ghost gives: { Self → ℕ → ℕ };

    /// Whole bytes may begin with its pixel k.
    ghost may_begin: { Self → ℕ → Type 0 };

    /// The value of a pixel.
    fn value(&self, k: usize) -> u32
        requires { k < count self.now }
        ensures value { result ≡ gives self.now k }
        ensures fits { result < 2 ^ bits_of (format self.now) };

    /// Writes pixels that are whole bytes to those that begin at a byte.
    fn put(&self, bits: &mut [u8], at: usize, from: usize, to: usize)
        requires order { from ≤ to }
        requires within { to ≤ count self.now }
        requires start { may_begin self.now from }
        requires whole { (to - from) * bits_of (format self.now) % 8 ≡ 0 }
        requires room { at + row_bytes (format self.now) (to - from) ≤ length bits.old }
        ensures values { (k : ℕ) → from ≤ k → k < to → pixel_in (format self.now) bits.new at (k - from) ≡ gives self.now k }
        ensures bytes { ChangesOnly at (at + row_bytes (format self.now) (to - from)) bits.old bits.new };
}

/// Values side by side.
#[derive(Drop)]
pub struct Listed<'a> {
    pub values: &'a [u32],
    pub format: Format,
    ghost fits: { All (λ v. v < 2 ^ bits_of format) values.now },
}

impl Run for Listed<'_> {
    ghost format = { λ run. run.format };

    ghost count = { λ run. length run.values.now };

    ghost gives = { λ run k. slice_index run.values.now k };

    ghost may_begin = { λ _ _. Unit {0} };

    fn value(&self, k: usize) -> u32 {
        self.values[k]
    }

    fn put(&self, bits: &mut [u8], at: usize, from: usize, to: usize) {
        write_values(bits, at, self.format, &self.values[from..to]);
    }
}

/// One value for so many pixels.
#[derive(Drop)]
pub struct Solid {
    pub value: u32,
    pub format: Format,
    pub len: usize,
    ghost fits: { value < 2 ^ bits_of format },
}

impl Run for Solid {
    ghost format = { λ run. run.format };

    ghost count = { λ run. run.len };

    ghost gives = { λ run _. run.value };

    ghost may_begin = { λ _ _. Unit {0} };

    fn value(&self, _k: usize) -> u32 {
        self.value
    }

    fn put(&self, bits: &mut [u8], at: usize, from: usize, to: usize) {
        fill_values(bits, at, self.format, to - from, self.value);
    }
}

/// So many pixels of a surface, from a column of a row on.
#[derive(Drop)]
pub struct Copied<'a> {
    pub source: &'a LentView<'a>,
    pub x: u32,
    pub y: u32,
    pub len: usize,
    ghost columns: { x + len ≤ (view_size source.now).w },
    ghost row: { y < (view_size source.now).h },
}

impl Run for Copied<'_> {
    ghost format = { λ run. view_format run.source.now };

    ghost count = { λ run. run.len };

    ghost gives = { λ run k. value_at (view_size run.source.now) (view_values run.source.now) (run.x + k) run.y };

    ghost may_begin = { λ run k. (run.x + k) * bits_of (view_format run.source.now) % 8 ≡ 0 };

    fn value(&self, k: usize) -> u32 {
        self.source.pixel(self.x + k as u32, self.y)
    }

    fn put(&self, bits: &mut [u8], at: usize, from: usize, to: usize) {
        self.source
            .copy_part(self.x as usize + from, self.y, to - from, bits, at);
    }
}
