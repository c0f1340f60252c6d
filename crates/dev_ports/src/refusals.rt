//! Why a device refuses.

use std::alloc::AllocError;

/// A call of the device failed, which it counted.
#[derive(Clone, Copy, Debug, PartialEq, Eq)]
pub struct PortFault;

/// Why a device isn't powered on.
#[derive(Clone, Copy, Debug, PartialEq, Eq)]
pub enum PowerRefusal {
    /// The device failed, which it counted.
    Fault,
    /// Memory was wanting.
    NoMemory,
}

impl From<AllocError> for PowerRefusal {
    ghost use Rattle.std.specs.Prelude.{◌≡◌};
    ghost use Rattle.dev_ports.specs.declared.refusals.PowerRefusal.TheVariants.{NoMemory};

    ghost from_gives = { λ _ refusal. refusal ≡ NoMemory };

    fn from(_error: AllocError) -> PowerRefusal {
        PowerRefusal::NoMemory
    }
}
