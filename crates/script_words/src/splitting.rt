//! The words of a line.

ghost use Rattle.std.specs.Prelude.{◌≡◌, ◌∷◌, ◌==◌, ◌<◌, IfSome, length, map, position, IfOk};
ghost use Rattle.std.specs.Option.{option_copied};
ghost use Rattle.std.specs.Str.Lines.{strip_carriage_return};
ghost use Rattle.script_words.specs.Lines.{lines_of, lines_after, words_of, word_at};

use std::alloc::{AllocError, Global};

/// A line without a CR at its end.
fn without_return(line: &[u8]) -> &[u8]
    ensures { result.now ≡ strip_carriage_return line.now }
{
    match line {
        [front @ .., b'\r'] => front,
        _ => line,
    }
}

/// Where the first LF stands.
fn line_end(text: &[u8]) -> Option<usize>
    ensures { result ≡ position (λ b. b == 10) text.now }
{
    text.iter().position(|b| *b == b'\n')
}

/// The first line of a text, and what stands after its LF, where it has one.
pub fn first_line(text: &[u8]) -> (&[u8], Option<&[u8]>)
    ensures lines { lines_of text.now ≡ result.0.now ∷ lines_after (option_copied result.1) }
    ensures shorter { IfSome result.1 (λ rest. length rest.now < length text.now) }
{
    match line_end(text) {
        Some(end) => (without_return(&text[..end]), Some(&text[end + 1..])),
        None => (text, None),
    }
}

/// The words of a line, with spaces between them.
pub fn words<'a>(alloc: Global, line: &'a [u8]) -> Result<Vec<&'a [u8]>, AllocError>
    ensures { IfOk result (λ v. map (λ w. w.now) v.items ≡ words_of line.now) }
{
    let mut words = Vec::new(alloc);
    for part in line.split(|b| *b == b' ') {
        if !part.is_empty() {
            words.push(part)?;
        }
    }
    Ok(words)
}

/// Word number i of a line, or no bytes past its end.
pub fn word<'a>(words: &[&'a [u8]], i: usize) -> &'a [u8]
    ensures { result.now ≡ word_at (map (λ w. w.now) words.now) i }
{
    match words.get(i) {
        Some(w) => *w,
        None => &[],
    }
}
