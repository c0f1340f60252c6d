//! The colours of a table format.

ghost use Rattle.std.specs.Prelude.{◌≡◌, ◌<◌, IfOk, length};
ghost use Rattle.pix_format.specs.Value.{colours_of};
ghost use Rattle.pix_format.specs.Standard as spec;
ghost use Rattle.pix_format.specs.Standard.{standard_colours};

use crate::format::Format;
use crate::rgb::Rgb;
use std::alloc::{AllocError, Global};
use std::marker::Model;

/// The colours of a table format in the order of their values.
#[derive(Drop)]
pub struct ColourTable {
    colours: Vec<Rgb>,
}

impl Model for ColourTable {
    ghost use Rattle.std.specs.Prelude.{List};
    ghost use Rattle.pix_format.specs.declared.rgb.Rgb.{Rgb};

    ghost Value = { List Rgb };

    ghost view = { λ t. t.colours.items };
}

impl ColourTable {
    /// A table of these colours.
    ///
    /// # Errors
    ///
    /// `AllocError` for want of memory.
    pub fn of(alloc: Global, colours: &[Rgb]) -> Result<ColourTable, AllocError>
        ensures { IfOk result (λ t. t ≡ colours.now) }
    {
        let colours = Vec::from_slice(alloc, colours)?;
        Ok(ColourTable { colours })
    }

    /// The table that a format has where none is given; without colours where it has no table.
    ///
    /// # Errors
    ///
    /// `AllocError` for want of memory.
    pub fn standard(alloc: Global, format: Format) -> Result<ColourTable, AllocError>
        ensures colours { IfOk result (λ t. t ≡ standard_colours format) }
        ensures fits { IfOk result (λ t. length t ≡ colours_of format) }
    {
        let mut colours = Vec::with_capacity(alloc, format.colours())?;
        for index in 0..format.colours() {
            colours.push(standard_colour(format, index as u32))?;
        }
        Ok(ColourTable { colours })
    }

    /// Its colours in order.
    pub fn colours(&self) -> &[Rgb]
        ensures { result.now ≡ self.now }
    {
        self.colours.as_slice()
    }
}

/// The colour of an index in the standard table of a format.
fn standard_colour(format: Format, index: u32) -> Rgb
    requires { index < colours_of format }
    ensures { result ≡ spec.standard_colour format index }
{
    match format {
        Format::B1 => grey(index * 255),
        Format::B4 => grey(index * 17),
        _ => Rgb {
            r: widened3(index / 32),
            g: widened3(index / 4 % 8),
            b: widened2(index % 4),
        },
    }
}

fn grey(level: u32) -> Rgb
    requires { level < 256 }
    ensures { result ≡ spec.grey level }
{
    let level = level as u8;
    Rgb {
        r: level,
        g: level,
        b: level,
    }
}

fn widened3(channel: u32) -> u8
    requires { channel < 8 }
    ensures { result ≡ spec.widened3 channel }
{
    (channel * 32 + channel * 4 + channel / 2) as u8
}

fn widened2(channel: u32) -> u8
    requires { channel < 4 }
    ensures { result ≡ spec.widened2 channel }
{
    (channel * 85) as u8
}
