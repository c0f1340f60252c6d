//! What was drawn of a call.

ghost use Rattle.std.specs.Prelude.{◌≡◌};
ghost use Rattle.hook_route.specs.Routes.{managed_outcome};

use geom_base::PortAnswer;

/// Why a call was drawn in part.
#[derive(Clone, Copy, Debug, PartialEq, Eq)]
pub enum Cause {
    /// A call of a device failed.
    Fault,
    /// Memory was wanting.
    Memory,
}

/// What was drawn of a call.
#[derive(Clone, Copy, Debug, PartialEq, Eq)]
pub enum Outcome {
    /// All of it.
    All,
    /// What was pushed.
    Part(Cause),
}

impl Outcome {
    /// What the answer of a managed call means.
    pub(crate) fn managed(answer: PortAnswer) -> Outcome
        ensures { result ≡ managed_outcome answer }
    {
        match answer {
            PortAnswer::Done => Outcome::All,
            PortAnswer::Fault => Outcome::Part(Cause::Fault),
            PortAnswer::NoMemory => Outcome::Part(Cause::Memory),
        }
    }
}
