//! Where bytes come from.

ghost use Rattle.std.specs.Prelude.{ℕ, List, Option, ◌<◌, length};
ghost use Rattle.desk_io.specs.Sources.{Takes};

/// A read failed. The source's count of faults rose.
#[derive(Clone, Copy, Debug, PartialEq, Eq)]
pub struct ReadFault;

/// A source of bytes, of which some reads may fail.
pub trait Source {
    /// The bytes that are left, where it tells them.
    ghost left: { Self → Option (List ℕ) };

    /// How many reads have failed. It never falls.
    ghost faults: { Self → ℕ };

    /// Gives the next bytes, at most as many as the buffer holds, and none only at the end.
    fn read(&mut self, buf: &mut [u8]) -> Result<usize, ReadFault>
        requires { 0 < length buf.old }
        ensures { Takes (left self.old) (left self.new) (faults self.old) (faults self.new) buf.new result };
}
