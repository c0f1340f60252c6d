//! Lines of a text, found by what they say or by their number.

ghost use Rattle.std.specs.Prelude.{◌≡◌, IfOk, map, take};
ghost use Rattle.script_words.specs.Lines.{lines_of, FindsLine};

use crate::splitting::first_line;
use std::alloc::{AllocError, Global};

/// A line that was found.
#[derive(Clone, Copy)]
pub struct FoundLine<'a> {
    /// How many lines stand before it.
    pub before: usize,
    /// What stands after its LF, where it has one.
    pub after: Option<&'a [u8]>,
}

/// The first line that is exactly these bytes.
pub fn find_line<'a>(text: &'a [u8], wanted: &[u8]) -> Option<FoundLine<'a>>
    ensures { FindsLine result wanted.now (lines_of text.now) }
{
    let mut before = 0;
    let mut more = Some(text);
    while let Some(left) = more {
        let (line, after) = first_line(left);
        if line == wanted {
            return Some(FoundLine { before, after });
        }
        before += 1;
        more = after;
    }
    None
}

/// The first lines of a text, at most so many.
pub fn first_lines<'a>(
    alloc: Global,
    text: &'a [u8],
    most: usize,
) -> Result<Vec<&'a [u8]>, AllocError>
    ensures { IfOk result (λ v. map (λ w. w.now) v.items ≡ take most (lines_of text.now)) }
{
    let mut lines = Vec::new(alloc);
    let mut more = Some(text);
    while let Some(left) = more {
        if lines.len() == most {
            break;
        }
        let (line, after) = first_line(left);
        lines.push(line)?;
        more = after;
    }
    Ok(lines)
}
