//! Why there is no script.

/// Why there is no script.
#[derive(Clone, Copy, Debug, PartialEq, Eq)]
pub enum ScriptRefusal {
    /// A line is refused, the first that is. Lines are numbered from the number that was given.
    Refused { line: u64, number: u32 },
    NoMemory,
}
