//! Points, sizes, rectangles, the names of what is drawn on, and lists of what was drawn.
//!
//! A rectangle is the set of its points: those from its left and its upper edge on, before its right and its
//! lower edge. All that is said of rectangles is said of these points.
#![tactic(auto)]

mod counts;
mod drawn_list;
mod point;
mod port_answer;
mod rect;
mod size;
mod target;

pub use counts::Counts;
pub use drawn_list::DrawnList;
pub use point::{Point, coordinate};
pub use port_answer::PortAnswer;
pub use rect::{NO_RECT, Rect, distance};
pub use size::{MOST_SIDE, Size};
pub use target::Target;
