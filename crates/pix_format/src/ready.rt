//! What a translation keeps ready for its pixels.

ghost use Rattle.std.specs.Prelude.{◌≡◌, ◌<◌, ◌^◌, All, IfOk, length, map};
ghost use Rattle.pix_format.specs.Translate as spec;
ghost use Rattle.pix_format.specs.Translate.{same_kind};
ghost use Rattle.pix_format.specs.Value.{bits_of, colours_of, value_of};
ghost use Rattle.pix_format.specs.InnerReady.{IsReady};

use crate::colour_table::ColourTable;
use crate::format::Format;
use crate::rgb::Rgb;
use crate::row::values_of_row;
use crate::value::value_of;
use std::alloc::{AllocError, Global};

/// What a translation keeps ready, by its kind.
#[derive(Drop)]
pub enum Ready {
    /// Nothing: values stay.
    Same,
    /// The value that becomes 1; all others become 0.
    Background(u32),
    /// The new value of each old one.
    Values(Vec<u32>),
    /// Nothing: there are too many values for a table.
    PerPixel,
}

impl Ready {
    /// What the translation from one surface to another keeps ready.
    pub fn new(
        alloc: Global,
        from: Format,
        from_table: &ColourTable,
        to: Format,
        to_table: &ColourTable,
        back: Rgb,
    ) -> Result<Ready, AllocError>
        requires from { length from_table.now ≡ colours_of from }
        requires to { length to_table.now ≡ colours_of to }
        ensures { IfOk result (λ r. IsReady (record { from = from; from_table = from_table.now; to = to; to_table = to_table.now; back = back }) r) }
    {
        if is_same_kind(from, from_table, to, to_table) {
            return Ok(Ready::Same);
        }
        if is_to_mono(from, to) {
            return Ok(Ready::Background(value_of(from, from_table, back)));
        }
        if from.bits() > 8 {
            return Ok(Ready::PerPixel);
        }
        let values = new_values(alloc, from_table.colours(), to, to_table)?;
        Ok(Ready::Values(values))
    }
}

/// Whether two surfaces keep pixels alike.
pub fn is_same_kind(
    from: Format,
    from_table: &ColourTable,
    to: Format,
    to_table: &ColourTable,
) -> bool
    ensures { result ≡ same_kind from from_table.now to to_table.now }
{
    from == to && from_table.colours() == to_table.colours()
}

/// Whether only the background becomes 1.
pub fn is_to_mono(from: Format, to: Format) -> bool
    ensures { result ≡ spec.is_to_mono from to }
{
    to == Format::B1 && from != Format::B1
}

/// The values on another surface of the colours of a table.
fn new_values(
    alloc: Global,
    colours: &[Rgb],
    to: Format,
    to_table: &ColourTable,
) -> Result<Vec<u32>, AllocError>
    requires { length to_table.now ≡ colours_of to }
    ensures values { IfOk result (λ t. t.items ≡ map (value_of to to_table.now) colours.now) }
    ensures fits { IfOk result (λ t. All (λ v. v < 2 ^ bits_of to) t.items) }
{
    let mut values = vec![in alloc; 0; colours.len()]?;
    values_of_row(to, to_table, colours, values.as_mut_slice());
    Ok(values)
}
