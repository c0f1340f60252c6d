//! Room for what is read and written.

ghost use Rattle.std.specs.Prelude.{◌≡◌, vec_len};
ghost use Rattle.desk_run.specs.InnerRows.{longest_line};

use geom_base::MOST_SIDE;
use std::alloc::{AllocError, Global};

/// The most bytes of a row's line: eight digits for each pixel, and the end of the line.
const LONGEST: usize = 8 * MOST_SIDE as usize + 1;

/// Room for the values of a surface and for the line of its widest row.
#[derive(Drop)]
pub struct ReadRoom {
    /// The values that were read last. It grows to the largest surface that is read.
    pub values: Vec<u32>,
    /// For the line of a row.
    pub line: Vec<u8>,
    ghost longest: { vec_len line ≡ longest_line },
}

impl ReadRoom {
    pub fn new(alloc: Global) -> Result<ReadRoom, AllocError> {
        Ok(ReadRoom {
            values: Vec::new(alloc),
            line: vec![in alloc; 0u8; LONGEST]?,
        })
    }
}
