//! Blits, copies and paints of one rectangle, on bits.
//!
//! Each of the three kernels draws the part of one call in a rectangle of a target. Its contract is the step `redrawn` over that
//! rectangle with the new values that the call's record has in `brush_obj`, and `OnlyPixels`. All three make a `Drawing`, cut the
//! rectangle to the points for which source and mask are there, and draw it row by row, a row in runs of at most 512 pixels, or as
//! whole bytes where all pixels get one value or those of a source that is kept alike. Where
//! the target itself is the source, rows and runs go in the order in which no point is read after it was drawn. None takes memory.
//! What a brush gives on a target is an `Ink` of `brush_obj`, which is made once a call.
#![tactic(auto)]

mod blt;
mod copy;
mod drawing;
mod edges;
mod mask;
mod paint;
mod readable;
mod rows;
mod shift;
mod source;
mod way;

pub use blt::{bit_blt_inked, bit_blt_rect};
pub use copy::copy_rect;
pub use paint::{paint_inked, paint_rect};

#[cfg(test)]
mod tests;
