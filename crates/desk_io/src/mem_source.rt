//! A source in memory, some of whose reads fail.

ghost use Rattle.std.specs.Prelude.{◌≡◌, ◌≤◌, ◌<◌, ◌↔◌, ◌++◌, take, drop, length, min, Some, IsErr, IfOk, OnErr, Contains};
ghost use Rattle.desk_io.specs.Counts.{one_more};
ghost use Rattle.desk_io.specs.Sources.{Takes};
ghost use Rattle.desk_io.specs.MemSources.{given_count, after_read, unread_source};

use crate::source::{ReadFault, Source};
use std::alloc::Global;
use std::marker::Model;

/// A source of bytes in memory.
///
/// Its reads are numbered from 1, and those whose numbers it was given fail.
#[derive(Drop)]
pub struct MemSource {
    bytes: Vec<u8>,
    given: usize,
    step: usize,
    fails: Vec<u64>,
    calls: u64,
    faults: u64,
}

impl Model for MemSource {
    ghost use Rattle.std.specs.Prelude.{◌≤◌, drop, length};
    ghost use Rattle.desk_io.specs.MemSources.{MemSourceState};

    ghost Value = { MemSourceState };

    ghost view = { λ s. record {
      left = drop s.given s.bytes.items;
      step = s.step;
      fails = s.fails.items;
      calls = s.calls;
      faults = s.faults;
    } };

    ghost invariant = { λ s. (s.given ≤ length s.bytes.items) × (1 ≤ s.step) };
}

impl MemSource {
    /// A source of these bytes, of which a read gives at most `step`. The reads whose numbers stand
    /// in `fails` fail. It takes no memory.
    pub fn new(_alloc: Global, bytes: Vec<u8>, step: usize, fails: Vec<u64>) -> MemSource
        requires { 1 ≤ step }
        ensures { result ≡ unread_source bytes.items step fails.items }
    {
        MemSource {
            bytes,
            given: 0,
            step,
            fails,
            calls: 0,
            faults: 0,
        }
    }

    /// How many reads have failed.
    pub fn faults(&self) -> u64
        ensures { result ≡ self.now.faults }
    {
        self.faults
    }
}

impl Source for MemSource {
    ghost left = { λ s. Some s.left };

    ghost faults = { λ s. s.faults };

    fn read(&mut self, buf: &mut [u8]) -> Result<usize, ReadFault>
        requires { 0 < length buf.old }
        ensures takes { Takes (Some self.old.left) (Some self.new.left)
            self.old.faults self.new.faults buf.new result }
        ensures fails { IsErr result ↔ Contains self.old.fails (one_more self.old.calls) }
        ensures count { IfOk result (λ n. n ≡ given_count self.old (length buf.old)) }
        ensures given { IfOk result (λ n. buf.new ≡ take n self.old.left ++ drop n buf.old) }
        ensures kept { OnErr result (buf.new ≡ buf.old) }
        ensures state { self.new ≡ after_read self.old result }
    {
        self.calls = self.calls.saturating_add(1);
        if self.fails.contains(&self.calls) {
            self.faults = self.faults.saturating_add(1);
            return Err(ReadFault);
        }
        let left = &self.bytes[self.given..];
        let count = self.step.min(buf.len()).min(left.len());
        buf[..count].copy_from_slice(&left[..count]);
        self.given += count;
        Ok(count)
    }
}

#[cfg(test)]
mod tests {
    use super::*;
    use std::test::Fail;

    #[test]
    fn gives_and_fails_by_its_list(rt: HostRuntime) -> Result<(), Fail> {
        let bytes = Vec::from_slice(rt.alloc(), b"abcdefg")?;
        let mut source = MemSource::new(rt.alloc(), bytes, 3, vec![in rt.alloc(); 2, 6]?);
        // The room in the buffer, what is given, and the faults so far.
        let reads = [
            (8, Some("abc"), 0),
            (8, None, 1),
            (2, Some("de"), 1),
            (3, Some("fg"), 1),
            (1, Some(""), 1),
            (1, None, 2),
            (1, Some(""), 2),
        ];
        for (room, want, faults) in reads {
            let mut buf = vec![in rt.alloc(); 0; room]?;
            match source.read(&mut buf) {
                Ok(count) => assert_eq!(rt; Some(&buf[..count]), want.map(|text| text.as_bytes())),
                Err(ReadFault) => assert!(rt; want.is_none()),
            }
            assert_eq!(rt; source.faults(), faults);
        }
        Ok(())
    }
}
