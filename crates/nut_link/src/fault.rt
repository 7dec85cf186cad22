//! Why a link fails, or refuses a call.
ghost use Rattle.std.specs.Prelude.{◌≡◌};
ghost use Rattle.nut_link.specs.declared.fault.LinkFault.TheVariants.{Memory};

use std::alloc::AllocError;
use thiserror::Error;

/// Why a link fails, or refuses a call.
#[derive(Clone, Copy, Debug, PartialEq, Eq, Error)]
pub enum LinkFault {
    /// The line can be read, but doesn't match the query.
    #[error("the line does not answer the query")]
    NotMine,
    /// The line doesn't read as words, has none, or is longer than [`LINE_MAX`](nut_words::LINE_MAX) bytes, or the list has
    /// more than [`ROWS_MAX`](nut_proto::ROWS_MAX) rows.
    #[error("the line does not read")]
    BadLine,
    /// A line came while no query was outstanding, or before the server had accepted all bytes of the query. Or a
    /// query was asked while another one, or its answer, was still there.
    #[error("out of order")]
    OutOfOrder,
    /// Memory could not be allocated.
    #[error("out of memory")]
    Memory,
    /// The query has a byte outside 0x20 to 0x7E, or its line is longer than
    /// [`LINE_MAX`](nut_words::LINE_MAX) bytes.
    #[error("the query can not be written")]
    BadQuery,
    /// The server is said to have taken more bytes than wait.
    #[error("more was taken than waits")]
    TooMuchTaken,
}

impl From<AllocError> for LinkFault {
    ghost from_gives = { λ _ e. e ≡ Memory };

    fn from(_error: AllocError) -> LinkFault {
        LinkFault::Memory
    }
}
