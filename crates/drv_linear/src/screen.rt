//! The screen.

ghost use Rattle.std.specs.Prelude.{◌≡◌, length};
ghost use Rattle.pix_format.specs.Value.{colours_of};

use copy_port::Mode;
use pix_format::ColourTable;
use std::alloc::{AllocError, Global};
use surf_obj::Layout;

/// A screen in the memory of a device: where its pixels lie there, and the colours that their values stand for.
#[derive(Drop)]
pub(crate) struct Screen {
    pub(crate) layout: Layout,
    pub(crate) table: ColourTable,
    ghost colours: { length table ≡ colours_of layout.format },
}

impl Screen {
    ghost use Rattle.std.specs.Prelude.{IfOk};
    ghost use Rattle.ddi_driver.specs.Modes.{IsMode};
    ghost use Rattle.drv_linear.specs.State.{IsScreenOf};

    /// The screen of a mode, at the first byte.
    ///
    /// # Errors
    ///
    /// `AllocError` for want of memory.
    pub(crate) fn of(alloc: Global, mode: &Mode) -> Result<Screen, AllocError>
        requires { IsMode mode.now }
        ensures { IfOk result (IsScreenOf mode.now) }
    {
        let table = ColourTable::of(alloc, mode.table.colours())?;
        Ok(Screen {
            layout: Layout::padded(mode.size, mode.format),
            table,
        })
    }
}
