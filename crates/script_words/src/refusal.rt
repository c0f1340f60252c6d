//! Why a line is refused.

ghost use Rattle.std.specs.Prelude.{◌≡◌};
ghost use Rattle.script_words.specs.declared.refusal.ReadError.TheVariants.{NoMemory, Refused};

use std::alloc::{AllocError, AllocFailed};

/// Why a line is refused: the first reason in the order in which a line is asked.
#[derive(Clone, Copy, Debug, PartialEq, Eq)]
pub enum Refusal {
    /// The first word is no command.
    UnknownCommand,
    /// The command has another number of words.
    WordCount,
    /// A number, a colour or a fixed word isn't spelled as one.
    Spelling,
    /// A number is out of its range.
    Range,
    /// No such name, or a name of another kind.
    UnknownName,
    /// A new name is in use.
    NameInUse,
    /// A new name isn't a letter with letters, digits or underscores behind it, or it is too long.
    BadName,
    /// A rectangle's left is right of its right, or its top below its bottom.
    NotOrdered,
    /// The raster operation needs a source, a mask or a brush that isn't given.
    OperandMissing,
    /// A mask has other than one bit per pixel.
    MaskNotMono,
    /// The mask is the target.
    MaskIsTarget,
    /// A size or a total is past its limit.
    PastLimit,
    /// A region has too many rectangles.
    RegionTooLarge,
    /// One command too many.
    TooManyCommands,
    /// A table has another number of colours than the format.
    TableMisfit,
}

/// Why nothing was read.
#[derive(Debug, Drop)]
pub enum ReadError {
    NoMemory,
    Refused(Refusal),
}

impl From<AllocError> for ReadError {
    ghost from_gives = { λ _ e. e ≡ NoMemory };

    fn from(_e: AllocError) -> ReadError {
        ReadError::NoMemory
    }
}

impl<T: Drop> From<AllocFailed<T>> for ReadError {
    ghost from_gives = { λ _ e. e ≡ NoMemory };

    fn from(_e: AllocFailed<T>) -> ReadError {
        ReadError::NoMemory
    }
}

impl From<Refusal> for ReadError {
    ghost from_gives = { λ refusal e. e ≡ Refused refusal };

    fn from(refusal: Refusal) -> ReadError {
        ReadError::Refused(refusal)
    }
}
