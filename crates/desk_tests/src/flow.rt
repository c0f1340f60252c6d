//! How streams go.

ghost use Rattle.std.specs.Prelude.{◌≤◌};

/// How a stream goes: the most bytes that a call takes, and the number of the call that fails, or 0.
#[derive(Clone, Copy)]
pub struct Flow {
    pub step: usize,
    pub fails: u64,
    ghost moves: { 1 ≤ step },
}

/// A stream that takes all and never fails.
pub const SMOOTH: Flow = Flow {
    step: 65_536,
    fails: 0,
};

impl Flow {
    /// So many bytes a call, and the call that fails.
    pub fn new(step: usize, fails: u64) -> Flow
        requires { 1 ≤ step }
    {
        Flow { step, fails }
    }
}
