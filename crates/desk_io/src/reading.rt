//! Reading a source to its end.

ghost use Rattle.std.specs.Prelude.{◌≡◌, ◌<◌, length, IfOk};
ghost use Rattle.desk_io.specs.Sources.{ReadsAll};

use crate::source::{ReadFault, Source};
use std::alloc::{AllocError, Global};

/// The most bytes that an input may have.
pub const MOST_BYTES: usize = 16_777_216;

/// The bytes of the buffer through which a source is read.
const PIECE_BYTES: usize = 65_536;

/// Why a source was not read to its end.
#[derive(Clone, Copy, Debug, PartialEq, Eq)]
pub enum ReadRefusal {
    /// A read failed.
    Fault,
    /// More bytes came than an input may have.
    Size,
    /// There is no memory for the bytes.
    NoMemory,
}

impl From<ReadFault> for ReadRefusal {
    ghost use Rattle.std.specs.Prelude.{◌≡◌};
    ghost use Rattle.desk_io.specs.declared.reading.ReadRefusal.TheVariants.{Fault};

    ghost from_gives = { λ _ refusal. refusal ≡ Fault };

    fn from(_fault: ReadFault) -> ReadRefusal {
        ReadRefusal::Fault
    }
}

impl From<AllocError> for ReadRefusal {
    ghost use Rattle.std.specs.Prelude.{◌≡◌};
    ghost use Rattle.desk_io.specs.declared.reading.ReadRefusal.TheVariants.{NoMemory};

    ghost from_gives = { λ _ refusal. refusal ≡ NoMemory };

    fn from(_error: AllocError) -> ReadRefusal {
        ReadRefusal::NoMemory
    }
}

/// Reads a source to its end, or until one byte more came than an input may have.
///
/// The source's count of faults rises where the answer is `Fault`, and stays with each other answer. `Size` is the
/// answer where byte 16,777,217 came, after which nothing more is read.
pub fn read_all<S: Source>(alloc: Global, source: &mut S) -> Result<Vec<u8>, ReadRefusal>
    ensures { ReadsAll (S.left source.old) (S.left source.new)
        (S.faults source.old) (S.faults source.new) result }
{
    let mut piece = zeros(alloc, PIECE_BYTES)?;
    read_by_pieces(alloc, source, &mut piece)
}

/// So many zeros on the heap.
fn zeros(alloc: Global, count: usize) -> Result<Vec<u8>, AllocError>
    ensures { IfOk result (λ zeros. length zeros.items ≡ count) }
{
    vec![in alloc; 0; count]
}

/// Reads a source through a buffer. A read is cut to what may still come, and one byte more.
fn read_by_pieces<S: Source>(
    alloc: Global,
    source: &mut S,
    piece: &mut [u8],
) -> Result<Vec<u8>, ReadRefusal>
    requires { 0 < length piece.old }
    ensures { ReadsAll (S.left source.old) (S.left source.new)
        (S.faults source.old) (S.faults source.new) result }
{
    let mut bytes = Vec::new(alloc);
    loop {
        let room = MOST_BYTES - bytes.len();
        let most = piece.len().min(room + 1);
        let count = source.read(&mut piece[..most])?;
        if count == 0 {
            return Ok(bytes);
        }
        if count > room {
            return Err(ReadRefusal::Size);
        }
        bytes.extend_from_slice(&piece[..count])?;
    }
}

#[cfg(test)]
mod tests {
    use super::*;
    use crate::mem_source::MemSource;
    use std::test::Fail;

    #[test]
    fn reads_what_comes_by_any_step(rt: HostRuntime) -> Result<(), Fail> {
        let text = b"%%\npaint screen 0 0 4 2 #FF0000 13\ndump 0\n";
        for step in [1, 2, 5, 42, 1_000] {
            let bytes = Vec::from_slice(rt.alloc(), text)?;
            let mut source = MemSource::new(rt.alloc(), bytes, step, Vec::new(rt.alloc()));
            let read = read_all(rt.alloc(), &mut source)?;
            assert_eq!(rt; read.as_slice(), text.as_slice(), "by {step}");
        }
        Ok(())
    }

    #[test]
    fn stops_at_a_fault(rt: HostRuntime) -> Result<(), Fail> {
        // Two bytes a read: the third read gives the last byte, and the fourth comes to the end.
        for fails in 1..5 {
            let bytes = Vec::from_slice(rt.alloc(), b"abcde")?;
            let mut source = MemSource::new(rt.alloc(), bytes, 2, vec![in rt.alloc(); fails]?);
            let read = read_all(rt.alloc(), &mut source);
            assert_eq!(rt; read, Err(ReadRefusal::Fault), "at {fails}");
            assert_eq!(rt; source.faults(), 1, "at {fails}");
        }
        Ok(())
    }

    #[test]
    fn refuses_one_byte_too_many(rt: HostRuntime) -> Result<(), Fail> {
        let cases = [
            (16_777_216, Ok(16_777_216)),
            (16_777_217, Err(ReadRefusal::Size)),
            (16_800_000, Err(ReadRefusal::Size)),
        ];
        for (count, want) in cases {
            let bytes = zeros(rt.alloc(), count)?;
            let mut source = MemSource::new(rt.alloc(), bytes, count, Vec::new(rt.alloc()));
            let read = read_all(rt.alloc(), &mut source).map(|bytes| bytes.len());
            assert_eq!(rt; read, want, "of {count}");
        }
        Ok(())
    }
}
