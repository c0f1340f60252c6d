//! Brushes, and the records of the calls that draw with them.
//!
//! A brush is one colour, a hatch or a pattern. It fills the plane with a tile that repeats from an origin on in all
//! directions; `brush_value` of `specs/Brush.antt` says which value it has at a point of a surface. `BrushFace` is what a brush
//! looks like, and gives the value at a point. `BrushObj` is a brush with slots, in which each driver that asked for it keeps an
//! `RBrush`: the values of the tile on the driver's surfaces, worked out once. An `Ink` is what a call draws with: the values of a
//! brush on its target, made once a call.
//!
//! `BltCall`, `CopyCall` and `PaintCall` are calls on one surface, `DrawCall` is any of them. `new_of_blt`, `new_of_copy` and `new_of_paint` of
//! `specs/Calls.antt` say what each of them gives a point, from the values before the call alone. Whoever draws a call meets
//! them.
#![tactic(auto)]

mod blt_call;
mod brush;
mod copy_call;
mod draw_call;
mod face;
mod hatch;
mod hatch_values;
mod ink;
mod paint_call;
mod pattern;
mod rbrush;
mod refusal;
mod repeating;
mod shifting;
mod slot;
#[cfg(test)]
mod tests;
mod tile;
mod wrapping;

pub use blt_call::BltCall;
pub use brush::{BrushObj, MOST_PATTERN_SIDE};
pub use copy_call::CopyCall;
pub use draw_call::{DrawCall, calls_move};
pub use face::BrushFace;
pub use hatch::Hatch;
pub use hatch_values::HatchValues;
pub use ink::Ink;
pub use paint_call::PaintCall;
pub use pattern::Pattern;
pub use rbrush::RBrush;
pub use refusal::BrushRefusal;
pub use shifting::shifted_back;
pub use tile::{MOST_VALUES, Tile};
