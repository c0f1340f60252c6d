//! What a script asks for: its commands in order, and the names of the bitmaps that it makes.
//!
//! `Asked` of `specs/Asked.antt` is the whole as a list, and `CanRun` of `specs/Live.antt` what the commands of an accepted script keep
//! to: each names only what is there when its turn comes. A script's limits stand in `specs/Limits.antt`, the coordinates of its drawings
//! in `specs/Places.antt`: they stay in range wherever a screen stands (`specs/PlaceLaws.antt`). A row of pixel values is drawn on the
//! rectangle that `row_rect` of `specs/Rows.antt` gives.
#![tactic(auto)]

mod desk_command;
mod limits;
mod named;
mod named_region;
mod orders;
mod script;
mod script_command;
mod shared_table;
mod values;

pub use desk_command::{BrushUse, DeskCommand, Feed, Spot};
pub use limits::{
    MOST_BITMAP_PIXELS, MOST_BITMAPS, MOST_BRUSHES, MOST_COMMANDS, MOST_NAMES, MOST_PIXELS,
    MOST_REGION_RECTS, MOST_TABLES,
};
pub use named::Named;
pub use named_region::NamedRegion;
pub use orders::{BrushOrder, CreateOrder, FaceOrder};
pub use script::Script;
pub use script_command::ScriptCommand;
pub use shared_table::SharedTable;
pub use values::Values;
