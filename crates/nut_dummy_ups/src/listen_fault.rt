//! Why a driver can't listen at a socket.

use std::fs::TryLockError;
use std::{fmt, io};

/// Why a driver can't listen at a socket. It is displayed as in `the file exists and is not a socket`.
#[derive(Drop)]
pub enum ListenFault {
    /// Another driver listens there.
    InUse,
    /// Another driver has the lock: it looks whether it can listen there.
    Locked,
    /// A file of this name is there that isn't a socket and may be of value, so it stays.
    NotASocket,
    /// The system's error.
    System(io::Error),
}

impl From<io::Error> for ListenFault {
    fn from(error: io::Error) -> Self {
        ListenFault::System(error)
    }
}

impl From<TryLockError> for ListenFault {
    fn from(error: TryLockError) -> Self {
        match error {
            TryLockError::WouldBlock => ListenFault::Locked,
            TryLockError::Error(error) => ListenFault::System(error),
        }
    }
}

impl fmt::Display for ListenFault {
    fn fmt<W: fmt::Write>(&self, f: &mut fmt::Formatter<W>) -> fmt::Result {
        match self {
            ListenFault::InUse => write!(f, "another driver listens there"),
            ListenFault::Locked => write!(f, "another driver is about to listen there"),
            ListenFault::NotASocket => write!(f, "the file exists and is not a socket"),
            ListenFault::System(error) => write!(f, "{error}"),
        }
    }
}
