//! How a call on a port ends.

/// A call on a port is done; or its device failed; or memory was wanting.
#[derive(Clone, Copy, Debug, PartialEq, Eq)]
pub enum PortAnswer {
    Done,
    Fault,
    NoMemory,
}
