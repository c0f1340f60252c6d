//! What the output names.

/// What a dump or a sum names: a screen by its number, or a bitmap by the number under which it was made.
#[derive(Clone, Copy, Debug, PartialEq, Eq)]
pub enum Named {
    Screen(u32),
    Bitmap(u32),
}
