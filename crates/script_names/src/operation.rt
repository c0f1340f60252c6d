//! The words of the operations on two regions.

ghost use Rattle.std.specs.Prelude.{◌≡◌};
ghost use Rattle.script_names.specs.Fields.{operation_of};

use region::Operation;

/// The operation of a word.
pub fn operation_named(word: &[u8]) -> Option<Operation>
    ensures { result ≡ operation_of word.now }
{
    if word == b"union".as_slice() {
        Some(Operation::Union)
    } else if word == b"intersect".as_slice() {
        Some(Operation::Intersect)
    } else if word == b"subtract".as_slice() {
        Some(Operation::Subtract)
    } else if word == b"xor".as_slice() {
        Some(Operation::Xor)
    } else {
        None
    }
}
