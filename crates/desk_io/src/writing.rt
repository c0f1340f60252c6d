//! Writing all of a piece.

ghost use Rattle.std.specs.Prelude.{is_err};
ghost use Rattle.desk_io.specs.Sinks.{Puts};

use crate::sink::{Sink, WriteFault};

/// Writes all the bytes. After a fault a prefix of them was written.
pub fn write_all<K: Sink>(sink: &mut K, bytes: &[u8]) -> Result<(), WriteFault>
    ensures { Puts bytes.now (K.written sink.old) (K.written sink.new) (K.faults sink.old) (K.faults sink.new) (is_err result) }
{
    let mut done = 0;
    while done < bytes.len() {
        done += sink.write(&bytes[done..])?;
    }
    Ok(())
}

#[cfg(test)]
mod tests {
    use super::*;
    use crate::mem_sink::MemSink;
    use std::test::Fail;

    #[test]
    fn writes_all_or_a_prefix(rt: HostRuntime) -> Result<(), Fail> {
        // Room, step, the write that fails, and what is written of the line.
        let cases = [
            (64, 1, 0, "dump 0 4 2 8\n"),
            (13, 13, 0, "dump 0 4 2 8\n"),
            (64, 5, 2, "dump "),
            (64, 5, 3, "dump 0 4 2"),
            (12, 7, 0, "dump 0 4 2 8"),
            (0, 7, 0, ""),
        ];
        for (room, step, fails, want) in cases {
            let mut sink = MemSink::new(rt.alloc(), room, step, vec![in rt.alloc(); fails]?)?;
            let is_whole = write_all(&mut sink, b"dump 0 4 2 8\n").is_ok();
            assert_eq!(rt; is_whole, want.len() == 13, "{want:?}");
            assert_eq!(rt; sink.written(), want.as_bytes());
        }
        Ok(())
    }
}
