//! How a run ends.

ghost use Rattle.std.specs.Prelude.{◌≡◌};
ghost use Rattle.desk_run.specs.Status.{exit_of};

use copy_port::{Kind, Limit};

/// Why an input is refused.
#[derive(Clone, Copy, Debug, PartialEq, Eq)]
pub enum InputRefusal {
    /// It has more bytes than an input may have.
    Size,
    /// Its configuration is refused.
    Config { number: u32 },
    /// A line of its script is refused. Lines are numbered from 1 over the whole input.
    Script { line: u64, number: u32 },
}

/// How a run ended.
#[derive(Clone, Copy, Debug, PartialEq, Eq)]
pub enum Status {
    /// All was carried out and written.
    Done,
    /// The words are in no form.
    Usage,
    /// The input is refused.
    InputRefused(InputRefusal),
    /// All was carried out and written, and a fault was reported for some drawing, dump or sum.
    FaultSeen,
    /// There is no memory.
    NoMemory,
    /// The source failed.
    ReadFault,
    /// The sink failed.
    WriteFault,
    /// More drivers of a kind are wanted than are there and disabled.
    ShelfShort { kind: Kind, wanted: u32, held: u32 },
    /// The device of a screen's driver failed when that was enabled.
    EnableFault { screen: u32 },
    /// All was carried out and written, and memory was wanting for some drawing, dump or sum, but no fault was reported.
    MemorySeen,
    /// The driver of a screen can't do its mode.
    ModeRefused { screen: u32, limit: Limit },
}

impl Status {
    /// The number that the program ends with.
    pub fn exit(self) -> u8
        ensures { result ≡ exit_of self }
    {
        match self {
            Status::Done => 0,
            Status::Usage => 1,
            Status::InputRefused(_) => 2,
            Status::FaultSeen => 3,
            Status::NoMemory => 4,
            Status::ReadFault => 5,
            Status::WriteFault => 6,
            Status::ShelfShort { .. } => 7,
            Status::EnableFault { .. } => 8,
            Status::MemorySeen => 9,
            Status::ModeRefused { .. } => 10,
        }
    }
}
