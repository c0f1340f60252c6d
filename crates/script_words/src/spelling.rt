//! One word read by its kind.

ghost use Rattle.std.specs.Prelude.{◌≡◌, ◌<◌, ◌≤◌, ◌≤ℤ◌, ◌^◌, pos, ◌-ℤ◌, if◌then◌else◌, IfSome, IfOk};
ghost use Rattle.std.specs.List.{list_all};
ghost use Rattle.script_words.specs.Bounds.{greatest_number, most_digits};
ghost use Rattle.script_words.specs.Spelling.{count_in, hexadecimal_in, plain_number_in, number_in, is_name_byte, is_new_name, digits_in};

use crate::bounds::{MOST_DIGITS, MOST_NAME_BYTES};
use crate::refusal::Refusal;

/// The number that digits spell in a base, or None if there is another byte, no digit, or too many.
fn digits(word: &[u8], base: u32, most: usize) -> Option<u64>
    requires low { 2 ≤ base }
    requires high { base ≤ 16 }
    requires short { most ≤ 12 }
    ensures { result ≡ digits_in base most word.now }
{
    if word.is_empty() || word.len() > most {
        return None;
    }
    let mut value: u64 = 0;
    for b in word {
        match (*b as char).to_digit(base) {
            Some(d) => value = value * u64::from(base) + u64::from(d),
            None => return None,
        }
    }
    Some(value)
}

/// So many hexadecimal digits, in either case.
pub fn hexadecimal(word: &[u8], count: usize) -> Result<u64, Refusal>
    requires { count ≤ 12 }
    ensures value { result ≡ hexadecimal_in count word.now }
    ensures small { IfOk result (λ n. n < 16 ^ count) }
{
    if word.len() != count {
        return Err(Refusal::Spelling);
    }
    match digits(word, 16, count) {
        Some(value) => Ok(value),
        None => Err(Refusal::Spelling),
    }
}

/// The number with its sign.
fn signed(negative: bool, size: u32) -> i32
    requires { size ≤ greatest_number }
    ensures { result ≡ (if negative then (pos 0 -ℤ pos size) else pos size) }
{
    if negative {
        -(size as i32)
    } else {
        size as i32
    }
}

/// One to `MOST_DIGITS` decimal digits.
pub fn decimal(word: &[u8]) -> Option<u32>
    ensures value { result ≡ digits_in 10 most_digits word.now }
    ensures small { IfSome result (λ n. n ≤ greatest_number) }
{
    match digits(word, 10, MOST_DIGITS) {
        Some(size) => Some(size as u32),
        None => None,
    }
}

/// A minus or none, and decimal digits.
fn plain_number(word: &[u8]) -> Option<i32>
    ensures { result ≡ plain_number_in word.now }
{
    let (negative, spelled) = match word {
        [b'-', rest @ ..] => (true, rest),
        _ => (false, word),
    };
    match decimal(spelled) {
        Some(size) => Some(signed(negative, size)),
        None => None,
    }
}

/// A number in a range: a minus or none, and one to `MOST_DIGITS` decimal digits.
pub fn number(word: &[u8], low: i32, high: i32) -> Result<i32, Refusal>
    ensures value { result ≡ number_in low high word.now }
    ensures range { IfOk result (λ z. (low ≤ℤ z) × (z ≤ℤ high)) }
{
    match plain_number(word) {
        Some(value) => {
            if low <= value && value <= high {
                Ok(value)
            } else {
                Err(Refusal::Range)
            }
        }
        None => Err(Refusal::Spelling),
    }
}

/// A number in a range that isn't negative.
pub fn count(word: &[u8], low: u32, high: u32) -> Result<u32, Refusal>
    requires low { low < 2 ^ 31 }
    requires high { high < 2 ^ 31 }
    ensures value { result ≡ count_in low high word.now }
    ensures least { IfOk result (λ n. low ≤ n) }
    ensures most { IfOk result (λ n. n ≤ high) }
{
    let value = number(word, low as i32, high as i32)?;
    Ok(value.unsigned_abs())
}

/// Letters, digits and underscores.
fn are_name_bytes(word: &[u8]) -> bool
    ensures { result ≡ list_all is_name_byte word.now }
{
    word.iter().all(|b| b.is_ascii_alphanumeric() || *b == b'_')
}

/// A letter, and then letters, digits or underscores, at most `MOST_NAME_BYTES` in all.
pub fn is_name(word: &[u8]) -> bool
    ensures { result ≡ is_new_name word.now }
{
    match word {
        [] => false,
        [first, ..] => first.is_ascii_alphabetic()
            && word.len() <= MOST_NAME_BYTES
            && are_name_bytes(word),
    }
}
