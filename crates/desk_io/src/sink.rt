//! Where bytes go.

ghost use Rattle.std.specs.Prelude.{ℕ, List, Option};
ghost use Rattle.desk_io.specs.Sinks.{Appends};

/// A write failed. The sink's count of faults rose.
#[derive(Clone, Copy, Debug, PartialEq, Eq)]
pub struct WriteFault;

/// A sink of bytes, of which some writes may fail.
pub trait Sink {
    /// The bytes written so far, where it tells them.
    ghost written: { Self → Option (List ℕ) };

    /// How many writes have failed. It never falls.
    ghost faults: { Self → ℕ };

    /// Takes the first bytes of a piece: at least one, where it has any.
    fn write(&mut self, piece: &[u8]) -> Result<usize, WriteFault>
        ensures { Appends piece.now (written self.old) (written self.new) (faults self.old) (faults self.new) result };
}
