//! What each name of a script stands for, and the words of a line where names count.
//!
//! `names_of` of `specs/Names.antt` gives what each word stands for where it is a name in use; `specs/` also says what one word
//! gives (`Fields`) and what the words of a line's end give (`Tails`): a value, or the first refusal.
#![tactic(auto)]

mod entry;
mod faces;
mod fields;
mod names;
mod operation;
mod tails;

pub use entry::{Bitmap, Entry};
pub use faces::{FaceAsked, face};
pub use fields::{
    bitmap_or_none, brush, brush_or_none, clip, format, mix, named, new_name, spot, spot_or_none,
};
pub use names::Names;
pub use operation::operation_named;
pub use tails::{colours, rects, values};
