//! A sink in memory, some of whose writes fail.

ghost use Rattle.std.specs.Prelude.{◌≡◌, ◌≤◌, ◌↔◌, Some, IsErr, IfOk, Contains};
ghost use Rattle.desk_io.specs.Counts.{one_more};
ghost use Rattle.desk_io.specs.Sinks.{Appends};
ghost use Rattle.desk_io.specs.MemSinks.{FailsAt, taken_count, after_write, empty_sink};

use crate::sink::{Sink, WriteFault};
use std::alloc::{AllocError, Global};
use std::marker::Model;

/// A sink of bytes in memory, which has room for so many and no more.
///
/// Its writes are numbered from 1, and those whose numbers it was given fail. So does a write of a
/// piece that isn't empty where the room is full.
#[derive(Drop)]
pub struct MemSink {
    bytes: Vec<u8>,
    filled: usize,
    step: usize,
    fails: Vec<u64>,
    calls: u64,
    faults: u64,
}

impl Model for MemSink {
    ghost use Rattle.std.specs.Prelude.{◌≤◌, take, length};
    ghost use Rattle.desk_io.specs.MemSinks.{MemSinkState};

    ghost Value = { MemSinkState };

    ghost view = { λ s. record {
      written = take s.filled s.bytes.items;
      room = length s.bytes.items;
      step = s.step;
      fails = s.fails.items;
      calls = s.calls;
      faults = s.faults;
    } };

    ghost invariant = { λ s. (s.filled ≤ length s.bytes.items) × (1 ≤ s.step) };
}

impl MemSink {
    /// A sink with room for so many bytes, of which a write takes at most `step`. The writes whose
    /// numbers stand in `fails` fail. It takes all its memory here, and none later.
    pub fn new(
        alloc: Global,
        room: usize,
        step: usize,
        fails: Vec<u64>,
    ) -> Result<MemSink, AllocError>
        requires { 1 ≤ step }
        ensures { IfOk result (λ sink. sink ≡ empty_sink room step fails.items) }
    {
        Ok(MemSink {
            bytes: vec![in alloc; 0; room]?,
            filled: 0,
            step,
            fails,
            calls: 0,
            faults: 0,
        })
    }

    /// The bytes written so far.
    pub fn written(&self) -> &[u8]
        ensures { result.now ≡ self.now.written }
    {
        &self.bytes[..self.filled]
    }

    /// How many writes have failed.
    pub fn faults(&self) -> u64
        ensures { result ≡ self.now.faults }
    {
        self.faults
    }
}

impl Sink for MemSink {
    ghost written = { λ s. Some s.written };

    ghost faults = { λ s. s.faults };

    fn write(&mut self, piece: &[u8]) -> Result<usize, WriteFault>
        ensures appends { Appends piece.now (Some self.old.written) (Some self.new.written)
            self.old.faults self.new.faults result }
        ensures fails { IsErr result ↔ FailsAt self.old piece.now }
        ensures count { IfOk result (λ n. n ≡ taken_count self.old piece.now) }
        ensures state { self.new ≡ after_write self.old piece.now result }
    {
        let room = self.bytes.len() - self.filled;
        let count = self.step.min(piece.len()).min(room);
        let is_full = count == 0 && !piece.is_empty();
        self.calls = self.calls.saturating_add(1);
        if is_full || self.fails.contains(&self.calls) {
            self.faults = self.faults.saturating_add(1);
            return Err(WriteFault);
        }
        let end = self.filled + count;
        self.bytes[self.filled..end].copy_from_slice(&piece[..count]);
        self.filled = end;
        Ok(count)
    }
}

#[cfg(test)]
mod tests {
    use super::*;
    use std::test::Fail;

    #[test]
    fn takes_and_fails_by_its_list_and_room(rt: HostRuntime) -> Result<(), Fail> {
        let mut sink = MemSink::new(rt.alloc(), 6, 4, vec![in rt.alloc(); 2]?)?;
        // The piece, how many bytes are taken, and the faults so far.
        let writes = [
            ("abcde", Ok(4), 0),
            ("f", Err(WriteFault), 1),
            ("", Ok(0), 1),
            ("efg", Ok(2), 1),
            ("g", Err(WriteFault), 2),
            ("", Ok(0), 2),
        ];
        for (piece, want, faults) in writes {
            assert_eq!(rt; sink.write(piece.as_bytes()), want, "{piece:?}");
            assert_eq!(rt; sink.faults(), faults, "{piece:?}");
        }
        assert_eq!(rt; sink.written(), b"abcdef".as_slice());
        Ok(())
    }
}
