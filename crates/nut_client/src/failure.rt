//! Why a tool ends without its output, or with only a part of it.
ghost use Rattle.std.specs.Prelude.{◌≡◌};
ghost use Rattle.nut_client.specs.Tool.{failure_of, reason, status_of};
ghost use Rattle.nut_client.specs.declared.failure.ToolFailure.TheVariants.{Memory};

use nut_link::{LinkFault, Text};
use nut_proto::TrackingStatus;
use std::alloc::AllocError;

/// Why a tool ends without its output, or with only a part of it.
#[derive(Drop)]
pub enum ToolFailure {
    /// The command line can be read, but is no combination that the tool knows.
    BadArguments,
    /// The name of the UPS, its host or its port isn't valid.
    BadName,
    /// No connection was made.
    NoConnection,
    /// The connection ended before the last answer, or a read or a write failed, as when the server takes too long.
    ConnectionLost,
    /// The server refused a query, with an error of this name.
    Refused(Text),
    /// The server sent a line that doesn't answer the query, or more than [`LINE_MAX`](nut_words::LINE_MAX) bytes of one.
    BadAnswer,
    /// The server accepted a request that was to be tracked, but gave it no number.
    Untracked,
    /// The driver hasn't confirmed that the request succeeded: it is pending, has failed, or is forgotten.
    Unconfirmed(TrackingStatus),
    /// A query isn't writable: it has a byte outside 0x20 to 0x7E or is too long.
    BadQuery,
    /// Memory could not be allocated.
    Memory,
    /// The output failed. It took a beginning of the text: perhaps none of it, perhaps all.
    OutputFailed,
}

impl From<AllocError> for ToolFailure {
    ghost from_gives = { λ _ failure. failure ≡ Memory };

    fn from(_: AllocError) -> Self {
        ToolFailure::Memory
    }
}

impl From<LinkFault> for ToolFailure {
    ghost from_gives = { λ fault failure. failure ≡ failure_of fault };

    fn from(fault: LinkFault) -> Self {
        match fault {
            LinkFault::NotMine
            | LinkFault::BadLine
            | LinkFault::OutOfOrder
            | LinkFault::TooMuchTaken => ToolFailure::BadAnswer,
            LinkFault::Memory => ToolFailure::Memory,
            LinkFault::BadQuery => ToolFailure::BadQuery,
        }
    }
}

impl ToolFailure {
    /// Returns what is written of it to standard error: a tool writes it after `Error: `.
    pub fn reason(&self) -> &[u8]
        ensures { result.now ≡ reason self.now }
    {
        match self {
            ToolFailure::BadArguments => b"bad arguments",
            ToolFailure::BadName => b"bad UPS name",
            ToolFailure::NoConnection => b"connection failed",
            ToolFailure::ConnectionLost => b"connection lost",
            ToolFailure::Refused(name) => name.as_bytes(),
            ToolFailure::BadAnswer => b"bad answer",
            ToolFailure::Untracked => b"not tracked",
            ToolFailure::Unconfirmed(status) => status.word(),
            ToolFailure::BadQuery => b"bad query",
            ToolFailure::Memory => b"out of memory",
            ToolFailure::OutputFailed => b"output failed",
        }
    }

    /// Returns the exit status: 2 for `BadArguments`, else 1.
    pub(crate) fn status(&self) -> u8
        ensures { result ≡ status_of self.now }
    {
        match self {
            ToolFailure::BadArguments => 2,
            ToolFailure::BadName
            | ToolFailure::NoConnection
            | ToolFailure::ConnectionLost
            | ToolFailure::Refused(_)
            | ToolFailure::BadAnswer
            | ToolFailure::Untracked
            | ToolFailure::Unconfirmed(_)
            | ToolFailure::BadQuery
            | ToolFailure::Memory
            | ToolFailure::OutputFailed => 1,
        }
    }
}
