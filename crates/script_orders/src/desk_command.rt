//! A drawing on the desk or on a bitmap.

use crate::named_region::NamedRegion;
use crate::values::Values;
use brush_obj::DrawCall;
use pix_format::Rgb;

/// What is drawn on.
#[derive(Clone, Copy, Debug, PartialEq, Eq)]
pub enum Spot {
    /// All screens, in the desk's coordinates.
    Desk,
    Bitmap(u32),
}

/// Where a drawing takes its source from.
#[derive(Drop)]
pub enum Feed {
    Nothing,
    Desk,
    Bitmap(u32),
    /// One row of values in the target's own format.
    Row(Values),
}

/// The brush that a drawing uses.
#[derive(Clone, Copy, Debug, PartialEq, Eq)]
pub enum BrushUse {
    Nothing,
    Colour(Rgb),
    Made(u32),
}

/// A drawing, with the clip and the background colour in force. Source and mask are those that the call needs. The call has the command's own
/// coordinates; its `target` and `held` aren't read.
#[derive(Drop)]
pub struct DeskCommand {
    pub target: Spot,
    pub call: DrawCall,
    pub source: Feed,
    pub mask: Option<u32>,
    pub brush: BrushUse,
    /// The clip in force, in the target's own coordinates; none where there is no clip.
    pub clip: Option<NamedRegion>,
    pub back: Rgb,
}
