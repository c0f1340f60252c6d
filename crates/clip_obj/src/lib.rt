//! Clips: the rectangles in which a call may draw, handed out in an order that the caller chooses.
//!
//! A clip is the part of a region in bounds, as the region's own list of rectangles. `ordered` of `specs/Order.antt` says in which
//! order a direction takes them; `enum_start` begins an enumeration, and `next_batch` hands out the next ones. Every order is read
//! from the one list, where the ends of the present band are kept, so that neither call takes memory, and all batches together
//! look at each rectangle a few times at most.
#![tactic(auto)]

mod band;
mod batch;
mod clip;
mod clipped;
mod complexity;
mod direction;
mod moved;

pub use clip::ClipObj;
pub use complexity::Complexity;
pub use direction::Direction;
pub use moved::{origin_from, seen_from};

#[cfg(test)]
mod tests;
