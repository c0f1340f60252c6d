//! What a driver answers.

ghost use Rattle.std.specs.Prelude.{◌≡◌};
ghost use Rattle.ddi_driver.specs.Hook.{punted};

use copy_port::Limit;
use geom_base::PortAnswer;
use std::alloc::AllocError;

/// What a drawing hook answers.
#[derive(Clone, Copy, Debug, PartialEq, Eq)]
pub enum HookAnswer {
    /// All is drawn.
    Done,
    /// Nothing is drawn, and the engine is to draw the call.
    Declined,
    /// A call of the device failed; what was pushed is drawn.
    Fault,
    /// Memory was wanting; what was pushed is drawn.
    NoMemory,
}

impl HookAnswer {
    /// The answer of a hook that handed its call back to the engine, by what that answered.
    pub fn punted(answer: PortAnswer) -> HookAnswer
        ensures { result ≡ punted answer }
    {
        match answer {
            PortAnswer::Done => HookAnswer::Done,
            PortAnswer::Fault => HookAnswer::Fault,
            PortAnswer::NoMemory => HookAnswer::NoMemory,
        }
    }
}

/// Why a driver isn't enabled.
#[derive(Clone, Copy, Debug, PartialEq, Eq)]
pub enum EnableRefusal {
    /// What of the mode it can't do.
    ModeOut(Limit),
    /// A call of the device failed.
    Fault,
    /// Memory was wanting.
    NoMemory,
}

impl From<AllocError> for EnableRefusal {
    ghost use Rattle.std.specs.Prelude.{◌≡◌};
    ghost use Rattle.ddi_driver.specs.declared.answers.EnableRefusal.TheVariants.{NoMemory};

    ghost from_gives = { λ _ refusal. refusal ≡ NoMemory };

    fn from(_error: AllocError) -> EnableRefusal {
        EnableRefusal::NoMemory
    }
}

/// What a driver answers that is asked to keep a bitmap.
#[derive(Clone, Copy, Debug, PartialEq, Eq)]
pub enum CreateAnswer {
    /// It keeps it, as the target of this number.
    Made(u32),
    /// It doesn't, and the engine is to keep it.
    Declined,
    /// Memory was wanting.
    NoMemory,
}
