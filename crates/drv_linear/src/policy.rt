//! Which calls are declined.

ghost use Rattle.std.specs.Prelude.{◌≡◌};

use copy_port::{Class, Classes, Hooks, Mode};

/// Which calls a driver hooks, the classes of them that it takes, and every how many hook calls it declines, or 0 for never.
#[derive(Clone, Copy, Debug, PartialEq, Eq)]
pub(crate) struct Policy {
    pub(crate) hooks: Hooks,
    pub(crate) takes: Classes,
    pub(crate) decline: u32,
}

impl Policy {
    ghost use Rattle.drv_linear.specs.Policies.{declines, policy_of};

    /// What a mode says.
    pub(crate) fn of(mode: &Mode) -> Policy
        ensures { result ≡ policy_of mode.now }
    {
        Policy {
            hooks: mode.hooks,
            takes: mode.takes,
            decline: mode.decline,
        }
    }

    /// Whether the hook call of a number is declined.
    pub(crate) fn declines(self, number: u64, class: Class) -> bool
        ensures { result ≡ declines self number class }
    {
        !self.takes.has(class) || self.decline != 0 && number % u64::from(self.decline) == 0
    }
}
