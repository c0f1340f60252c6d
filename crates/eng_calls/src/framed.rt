//! A clip with a frame.

use clip_obj::ClipObj;
use geom_base::Rect;

/// A clip, and a rectangle of its target around the clip's rectangles.
#[derive(Clone, Copy)]
pub struct Framed<'a> {
    pub clip: &'a ClipObj,
    pub frame: Rect,
}
