//! Colour tables that names and commands share.

ghost use Rattle.std.specs.Prelude.{◌≡◌, IfOk};

use pix_format::{ColourTable, Rgb};
use std::alloc::{AllocError, Global};
use std::marker::Model;
use std::rc::Rc;

/// A colour table with any number of owners.
#[derive(Drop)]
pub struct SharedTable {
    table: Rc<ColourTable>,
}

impl Model for SharedTable {
    ghost use Rattle.std.specs.Prelude.{List};
    ghost use Rattle.pix_format.specs.declared.rgb.Rgb.{Rgb};

    ghost Value = { List Rgb };

    ghost view = { λ t. t.table.value };
}

impl SharedTable {
    /// The table.
    pub fn of(alloc: Global, table: ColourTable) -> Result<SharedTable, AllocError>
        ensures { IfOk result (λ t. t ≡ table) }
    {
        let table = match Rc::new(alloc, table) {
            Ok(table) => table,
            Err(_) => return Err(AllocError),
        };
        Ok(SharedTable { table })
    }

    /// Another owner of the same table. No memory is taken: it fails only where the count of owners is at its end.
    pub fn shared(&self) -> Result<SharedTable, AllocError>
        ensures { IfOk result (λ t. t ≡ self.now) }
    {
        let table = self.table.clone()?;
        Ok(SharedTable { table })
    }

    /// Its colours in order.
    pub fn colours(&self) -> &[Rgb]
        ensures { result.now ≡ self.now }
    {
        self.table.colours()
    }
}
