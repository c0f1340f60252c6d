//! What a name may stand for.

use geom_base::Size;
use pix_format::Format;
use script_orders::{NamedRegion, SharedTable};

/// A bitmap as later lines need it.
#[derive(Clone, Copy, Debug, PartialEq, Eq)]
pub struct Bitmap {
    pub number: u32,
    pub size: Size,
    pub format: Format,
}

/// What a name stands for.
#[derive(Drop)]
pub enum Entry {
    /// The desk.
    Screen,
    /// No clip.
    NoClip,
    Table(SharedTable),
    /// The brush of this number.
    Brush(u32),
    Bitmap(Bitmap),
    Region(NamedRegion),
}
