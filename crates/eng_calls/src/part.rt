//! Bits that stand for a rectangle of a target.

use geom_base::{Rect, Target};
use surf_obj::Layout;

/// A rectangle beside or on a target, and how its pixels lie in bits of their own.
#[derive(Clone, Copy)]
pub struct Part {
    pub target: Target,
    pub rect: Rect,
    pub layout: Layout,
}
