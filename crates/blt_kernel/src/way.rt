//! Ways to draw rows.

use crate::source::SourcePixels;

/// How the pixels of a row get their new values.
#[derive(Clone, Copy)]
pub enum Way<'a> {
    /// They all get one value.
    Fill(u32),
    /// The bytes of this source are copied.
    Copy(SourcePixels<'a>),
    /// Values are combined, run by run.
    Combine,
}
