//! What a world answers, whether it is a server's or a monitor's.

use thiserror::Error;

/// The outcome of a write.
#[derive(Clone, Copy, PartialEq, Eq)]
pub enum Written {
    /// This many bytes from the front were taken, at least one.
    Took(usize),
    /// No byte was taken. Some may be taken after the next arrival.
    Later,
    /// The connection accepts no bytes any more.
    Failed,
}

/// A call of the world failed: its stream or socket failed, or memory could not be allocated.
#[derive(Clone, Copy, Debug, PartialEq, Eq, Error)]
#[error("a device failed")]
pub struct Fault;

/// Why the loop of a server or of a monitor stopped.
#[derive(Clone, Copy, Debug, PartialEq, Eq, Error)]
pub enum ServeFault {
    /// A call of the world returned a fault.
    #[error("I/O failed")]
    World,
}

impl From<Fault> for ServeFault {
    fn from(_: Fault) -> Self {
        ServeFault::World
    }
}
