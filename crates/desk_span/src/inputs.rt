//! What a drawing draws with.

ghost use Rattle.std.specs.Prelude.{◌≡◌};

use crate::pane::Pane;
use brush_obj::BrushObj;
use pix_format::Rgb;

/// What a drawing on pixels is handed: the surfaces that are its source and its mask, its brush, and the background
/// colour in force.
#[derive(Clone, Copy)]
pub struct PaneInputs<'a> {
    pub source: Option<&'a Pane>,
    pub mask: Option<&'a Pane>,
    pub brush: &'a BrushObj,
    pub back: Rgb,
}
