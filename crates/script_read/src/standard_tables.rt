//! The tables that formats have where a line names none.

ghost use Rattle.std.specs.Prelude.{◌≡◌, IfOk};
ghost use Rattle.pix_format.specs.Standard.{standard_colours};
ghost use Rattle.pix_format.specs.declared.format.Format.TheVariants.{B1, B4, B8, B24};

use pix_format::{ColourTable, Format};
use script_orders::SharedTable;
use std::alloc::{AllocError, Global};

/// The table of each format, made once and shared by all bitmaps that are made with it.
#[derive(Drop)]
pub struct StandardTables {
    two: SharedTable,
    sixteen: SharedTable,
    all: SharedTable,
    none: SharedTable,
    ghost black_and_white: { two ≡ standard_colours B1 },
    ghost greys: { sixteen ≡ standard_colours B4 },
    ghost bytes: { all ≡ standard_colours B8 },
    ghost without: { none ≡ standard_colours B24 },
}

/// The table of a format, to be shared.
fn table_of(alloc: Global, format: Format) -> Result<SharedTable, AllocError>
    ensures { IfOk result (λ t. t ≡ standard_colours format) }
{
    let table = ColourTable::standard(alloc, format)?;
    SharedTable::of(alloc, table)
}

impl StandardTables {
    /// The tables of all formats.
    pub fn new(alloc: Global) -> Result<StandardTables, AllocError> {
        Ok(StandardTables {
            two: table_of(alloc, Format::B1)?,
            sixteen: table_of(alloc, Format::B4)?,
            all: table_of(alloc, Format::B8)?,
            none: table_of(alloc, Format::B24)?,
        })
    }

    /// The table of a format; without colours where it has none.
    #[tactic(auto, unfolding(pix_format::specs::Standard::standard_colours))]
    pub fn of(&self, format: Format) -> &SharedTable
        ensures { result.now ≡ standard_colours format }
    {
        match format {
            Format::B1 => &self.two,
            Format::B4 => &self.sixteen,
            Format::B8 => &self.all,
            Format::B555 | Format::B565 | Format::B24 | Format::B32 => &self.none,
        }
    }
}
