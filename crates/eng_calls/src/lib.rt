//! The engine's drawing calls, on bits: a call's part in each rectangle of a clip.
//!
//! A call is drawn by its kernel, rectangle by rectangle, in the order that its shift asks for: where the target itself is the
//! source, each point is read before it is drawn over. `StepsAreOne` of `specs/Steps.antt` says of any rectangles in such an order
//! that drawing one after the other, each from the values that it finds, is one step over all of them from the values before the
//! call. A trait `DrawsRect` stands for the calls, so that this is said and proved once.
#![tactic(auto)]

mod bands;
mod blt;
mod copies;
mod copy;
mod draw;
mod draws;
mod framed;
mod inputs;
mod managed;
mod on_copy;
mod order;
mod paint;
mod part;
mod storing;
mod straight;
mod transfer;

pub use blt::eng_bit_blt;
pub use copies::{PartCopy, held_part};
pub use copy::eng_copy_bits;
pub use draw::eng_draw;
pub use draws::steps_are_one;
pub use inputs::Inputs;
pub use managed::{
    eng_bit_blt_managed, eng_copy_bits_managed, eng_draw_managed, eng_paint_managed,
};
pub use order::shifts_are_in_order;
pub use paint::eng_paint;

#[cfg(test)]
mod tests;
