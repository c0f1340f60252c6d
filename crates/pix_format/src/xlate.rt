//! The translation of pixel values between two surfaces.

ghost use Rattle.std.specs.Prelude.{◌≡◌, ◌<◌, ◌^◌, ◌↔◌, All, EachIndex, IfOk, length, slice_index};
ghost use Rattle.pix_format.specs.Value.{bits_of, colours_of};
ghost use Rattle.pix_format.specs.Xlate.{kind_of, translated};

use crate::colour_table::ColourTable;
use crate::format::Format;
use crate::ready::Ready;
use crate::rgb::Rgb;
use crate::row::{look_up, mark, recolour};
use crate::value::{colour_of, value_of};
use std::alloc::{AllocError, Global};
use std::marker::Model;

/// What a translation does with a value.
#[derive(Clone, Copy, Debug, PartialEq, Eq)]
pub enum XlateKind {
    /// Nothing: both surfaces keep pixels alike.
    Trivial,
    /// The background becomes 1, all else 0.
    ToMono,
    /// The new value stands in a table.
    Table,
    /// The new value is computed.
    Computed,
}

/// The translation of pixel values from one surface to another, with the background colour in
/// force.
#[derive(Drop)]
pub struct XlateObj {
    from: Format,
    from_table: ColourTable,
    to: Format,
    to_table: ColourTable,
    back: Rgb,
    ready: Ready,
}

impl Model for XlateObj {
    ghost use Rattle.std.specs.Prelude.{length, ◌≡◌};
    ghost use Rattle.pix_format.specs.Value.{colours_of};
    ghost use Rattle.pix_format.specs.Xlate.{Translation};
    ghost use Rattle.pix_format.specs.InnerReady.{IsReady};

    ghost Value = { Translation };

    ghost view = { λ x. record { from = x.from; from_table = x.from_table; to = x.to; to_table = x.to_table; back = x.back } };

    ghost invariant = { λ x. (length x.from_table ≡ colours_of x.from) × (length x.to_table ≡ colours_of x.to) ×
        IsReady (record { from = x.from; from_table = x.from_table; to = x.to; to_table = x.to_table; back = x.back }) x.ready };
}

impl XlateObj {
    /// The translation from one surface to another.
    ///
    /// # Errors
    ///
    /// `AllocError` for want of memory.
    pub fn build(
        alloc: Global,
        from: Format,
        from_table: &ColourTable,
        to: Format,
        to_table: &ColourTable,
        back: Rgb,
    ) -> Result<XlateObj, AllocError>
        requires from { length from_table.now ≡ colours_of from }
        requires to { length to_table.now ≡ colours_of to }
        ensures { IfOk result (λ x. x ≡ record { from = from; from_table = from_table.now; to = to; to_table = to_table.now; back = back }) }
    {
        let ready = Ready::new(alloc, from, from_table, to, to_table, back)?;
        let from_table = ColourTable::of(alloc, from_table.colours())?;
        let to_table = ColourTable::of(alloc, to_table.colours())?;
        Ok(XlateObj {
            from,
            from_table,
            to,
            to_table,
            back,
            ready,
        })
    }

    /// What it does with a value.
    pub fn kind(&self) -> XlateKind
        ensures kind { result ≡ kind_of self.now }
        ensures trivial { (result ≡ XlateKind.Trivial) ↔ ((self.now.from ≡ self.now.to) × (self.now.from_table ≡ self.now.to_table)) }
    {
        match &self.ready {
            Ready::Same => XlateKind::Trivial,
            Ready::Background(_) => XlateKind::ToMono,
            Ready::Values(_) => XlateKind::Table,
            Ready::PerPixel => XlateKind::Computed,
        }
    }

    /// The value on the other surface.
    pub fn xlate(&self, value: u32) -> u32
        requires { value < 2 ^ bits_of self.now.from }
        ensures value { result ≡ translated self.now value }
        ensures fits { result < 2 ^ bits_of self.now.to }
    {
        match &self.ready {
            Ready::Same => value,
            Ready::Background(background) => u32::from(value == *background),
            Ready::Values(values) => values[value as usize],
            Ready::PerPixel => value_of(
                self.to,
                &self.to_table,
                colour_of(self.from, &self.from_table, value),
            ),
        }
    }

    /// The values of a row on the other surface, in place.
    pub fn xlate_row(&self, values: &mut [u32])
        requires { All (λ v. v < 2 ^ bits_of self.now.from) values.old }
        ensures values { EachIndex values.new (λ k. slice_index values.new k ≡ translated self.now (slice_index values.old k)) }
        ensures fits { All (λ v. v < 2 ^ bits_of self.now.to) values.new }
    {
        match &self.ready {
            Ready::Same => {}
            Ready::Background(background) => mark(values, *background),
            Ready::Values(table) => look_up(values, table.as_slice()),
            Ready::PerPixel => recolour(
                values,
                self.from,
                &self.from_table,
                self.to,
                &self.to_table,
            ),
        }
    }
}
