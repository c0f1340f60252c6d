//! A writer of the outside as a sink: the trusted edge.

ghost use Rattle.std.specs.Prelude.{◌≡◌, None, is_err, if◌then◌else◌};
ghost use Rattle.std.specs.Io.KnownBytes.{WriteAppends};
ghost use Rattle.desk_io.specs.Counts.{one_more};
ghost use Rattle.desk_io.specs.Sinks.{Appends as AppendsTold};

use crate::sink::{Sink, WriteFault};
use std::io::{ErrorKind, Write};

/// How often a write is made, at most, where each is interrupted.
const MOST_TRIES: u32 = 1_000;

/// A sink over a writer. What the writer was given isn't told.
///
/// A write that is interrupted is made again. Any other error of the writer is a fault, and so is a
/// write that takes nothing of a piece that isn't empty. Nothing is flushed.
#[derive(Drop)]
pub struct StdSink<W> {
    writer: W,
    faults: u64,
}

impl<W: Write> StdSink<W> {
    ghost use Rattle.desk_io.specs.StdSinks.{writer_of, write_faults};

    /// A sink whose bytes go to the writer.
    pub fn new(writer: W) -> StdSink<W>
        ensures writer { writer_of result ≡ writer }
        ensures faults { write_faults result ≡ 0 }
    {
        StdSink { writer, faults: 0 }
    }
}

impl<W: Write> Sink for StdSink<W> {
    ghost use Rattle.desk_io.specs.StdSinks.{writer_of, write_faults};

    ghost written = { λ _. None };

    ghost faults = { write_faults };

    fn write(&mut self, piece: &[u8]) -> Result<usize, WriteFault>
        ensures appends { AppendsTold piece.now None None
            (write_faults self.old) (write_faults self.new) result }
        ensures writes { WriteAppends (W.contents (writer_of self.old))
            (W.contents (writer_of self.new)) result piece.now }
        ensures counts { write_faults self.new ≡
            (if is_err result then one_more (write_faults self.old) else write_faults self.old) }
    {
        for _ in 0..MOST_TRIES {
            match self.writer.write(piece) {
                Ok(0) if !piece.is_empty() => break,
                Ok(count) => return Ok(count),
                Err(error) if error.kind() == ErrorKind::Interrupted => {}
                Err(_) => break,
            }
        }
        self.faults = self.faults.saturating_add(1);
        Err(WriteFault)
    }
}

#[cfg(test)]
mod tests {
    use super::*;
    use crate::writing::write_all;
    use std::io;
    use std::test::Fail;

    /// Takes all, after an interruption.
    #[derive(Drop)]
    struct Interrupted {
        is_over: bool,
    }

    impl Write for Interrupted {
        fn write(&mut self, buf: &[u8]) -> io::Result<usize> {
            if self.is_over {
                return Ok(buf.len());
            }
            self.is_over = true;
            Err(io::Error::from(ErrorKind::Interrupted))
        }

        fn flush(&mut self) -> io::Result<()> {
            Ok(())
        }
    }

    #[test]
    fn puts_into_the_writer(rt: HostRuntime) -> Result<(), Fail> {
        let mut bytes = Vec::new(rt.alloc());
        write_all(&mut StdSink::new(&mut bytes), b"end 0\n")?;
        assert_eq!(rt; bytes.as_slice(), b"end 0\n".as_slice());

        let mut sink = StdSink::new(Interrupted { is_over: false });
        assert_eq!(rt; write_all(&mut sink, b"end 0\n"), Ok(()));

        // A writer that is full takes nothing of a piece.
        let mut room = [0; 4];
        let mut sink = StdSink::new(room.as_mut_slice());
        assert_eq!(rt; write_all(&mut sink, b"end 0\n"), Err(WriteFault));
        assert_eq!(rt; room.as_slice(), b"end ".as_slice());
        Ok(())
    }
}
