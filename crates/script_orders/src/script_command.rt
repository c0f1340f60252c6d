//! The commands of a script.

use crate::desk_command::DeskCommand;
use crate::named::Named;
use crate::orders::{BrushOrder, CreateOrder};

/// One command of a script.
#[derive(Drop)]
pub enum ScriptCommand {
    Create(CreateOrder),
    /// The bitmap of this number goes.
    Delete(u32),
    Brush(BrushOrder),
    Draw(DeskCommand),
    /// The pixel values of a surface, as text.
    Dump(Named),
    /// The sum of the pixel values of a surface, as text.
    Sum(Named),
    /// A command that only changes what later lines mean.
    Nothing,
}
