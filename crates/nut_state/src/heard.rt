//! What the table answers to a line.
use std::alloc::AllocError;

/// The result of a line of the driver.
#[derive(Clone, Copy, Debug, PartialEq, Eq)]
pub enum Heard {
    /// It reads as words, its first word is known, and it has as many words as that word takes. It may or may not have
    /// changed the table: in either case the driver is alive.
    Heard,
    /// It is heard, and it says how a request ended: `TRACKING number status`, both numbers of one to nine digits (NUT's
    /// developer guide, driver/server socket protocol). The table is as it was.
    Tracked {
        /// The number that the server gave the request.
        number: u32,
        /// 0 if the request succeeded; any other number is a failure.
        status: u32,
    },
    /// Any other line. It changes nothing.
    Ignored,
}

/// Why a line could not be applied. The table is then as it was.
#[derive(Debug, Drop, PartialEq, Eq, thiserror::Error)]
pub enum StateFault {
    /// Memory cannot be allocated for a word with a backslash, or for what the line would add.
    #[error("out of memory")]
    Memory,
}

impl From<AllocError> for StateFault {
    ghost use Rattle.std.specs.Prelude.{◌≡◌};
    ghost use Rattle.nut_state.specs.declared.heard.StateFault.TheVariants.{Memory};

    ghost from_gives = { λ _ fault. fault ≡ Memory };

    fn from(_error: AllocError) -> Self {
        StateFault::Memory
    }
}
