//! A reader of the outside as a source: the trusted edge.

ghost use Rattle.std.specs.Prelude.{◌≡◌, ◌<◌, length, None, is_err, if◌then◌else◌};
ghost use Rattle.std.specs.Io.KnownBytes.{ReadConsumes};
ghost use Rattle.desk_io.specs.Counts.{one_more};
ghost use Rattle.desk_io.specs.Sources.{Takes};

use crate::source::{ReadFault, Source};
use std::io::{ErrorKind, Read};

/// How often a read is made, at most, where each is interrupted.
const MOST_TRIES: u32 = 1_000;

/// A source over a reader. What the reader gives isn't told.
///
/// A read that is interrupted is made again, and any other error of the reader is a fault.
#[derive(Drop)]
pub struct StdSource<R> {
    reader: R,
    faults: u64,
}

impl<R: Read> StdSource<R> {
    ghost use Rattle.desk_io.specs.StdSources.{reader_of, read_faults};

    /// A source of the bytes that the reader gives from here on.
    pub fn new(reader: R) -> StdSource<R>
        ensures reader { reader_of result ≡ reader }
        ensures faults { read_faults result ≡ 0 }
    {
        StdSource { reader, faults: 0 }
    }
}

impl<R: Read> Source for StdSource<R> {
    ghost use Rattle.desk_io.specs.StdSources.{reader_of, read_faults};

    ghost left = { λ _. None };

    ghost faults = { read_faults };

    fn read(&mut self, buf: &mut [u8]) -> Result<usize, ReadFault>
        requires { 0 < length buf.old }
        ensures takes { Takes None None (read_faults self.old) (read_faults self.new)
            buf.new result }
        ensures reads { ReadConsumes (R.remaining (reader_of self.old))
            (R.remaining (reader_of self.new)) result buf.new }
        ensures counts { read_faults self.new ≡
            (if is_err result then one_more (read_faults self.old) else read_faults self.old) }
    {
        for _ in 0..MOST_TRIES {
            match self.reader.read(buf) {
                Ok(count) => return Ok(count),
                Err(error) if error.kind() == ErrorKind::Interrupted => {}
                Err(_) => break,
            }
        }
        self.faults = self.faults.saturating_add(1);
        Err(ReadFault)
    }
}

#[cfg(test)]
mod tests {
    use super::*;
    use crate::reading::read_all;
    use std::io;
    use std::test::Fail;

    /// At its end, after an interruption.
    #[derive(Drop)]
    struct Interrupted {
        is_over: bool,
    }

    impl Read for Interrupted {
        fn read(&mut self, _buf: &mut [u8]) -> io::Result<usize> {
            if self.is_over {
                return Ok(0);
            }
            self.is_over = true;
            Err(io::Error::from(ErrorKind::Interrupted))
        }
    }

    #[test]
    fn gives_what_the_reader_gives(rt: HostRuntime) -> Result<(), Fail> {
        let mut source = StdSource::new(b"version 1\n".as_slice());
        let read = read_all(rt.alloc(), &mut source)?;
        assert_eq!(rt; read.as_slice(), b"version 1\n".as_slice());

        let mut source = StdSource::new(Interrupted { is_over: false });
        assert!(rt; read_all(rt.alloc(), &mut source)?.is_empty());
        Ok(())
    }
}
