//! Why a script cannot be read.
ghost use Rattle.std.specs.Prelude.{◌≡◌};
ghost use Rattle.nut_dummy.specs.declared.fault.ScriptFaultKind.TheVariants.{Memory};

use std::alloc::{AllocError, AllocFailed};
use thiserror::Error;

/// What is wrong with a line of a script, or with the script as a whole. It is displayed by its name.
#[derive(Clone, Copy, Debug, PartialEq, Eq, Error)]
pub enum ScriptFaultKind {
    /// A byte that isn't allowed in its place, or a line that is neither a timer nor `name: value`.
    #[error("BadLine")]
    BadLine,
    /// The name is empty or has a byte that isn't a letter, a digit, `.`, `_` or `-`.
    #[error("BadName")]
    BadName,
    /// The time of a timer isn't a number of 1 to 86,400 seconds.
    #[error("BadTimer")]
    BadTimer,
    /// A timer in a `.dev` script, which is played only once.
    #[error("TimerInDev")]
    TimerInDev,
    /// A line, a name or a value is too long, or there are too many variables or values.
    #[error("PastLimit")]
    PastLimit,
    /// A `.seq` script, which is repeated, has no timer.
    #[error("NoTimer")]
    NoTimer,
    /// Memory could not be allocated.
    #[error("Memory")]
    Memory,
}

impl From<AllocError> for ScriptFaultKind {
    ghost from_gives = { λ _ e. e ≡ Memory };

    fn from(_error: AllocError) -> ScriptFaultKind {
        ScriptFaultKind::Memory
    }
}

impl<T: Drop> From<AllocFailed<T>> for ScriptFaultKind {
    ghost from_gives = { λ _ e. e ≡ Memory };

    fn from(_error: AllocFailed<T>) -> ScriptFaultKind {
        ScriptFaultKind::Memory
    }
}

/// The first fault of a script, with its line. It is displayed as in `2: BadName`.
#[derive(Clone, Copy, Debug, PartialEq, Eq, Error)]
#[error("{line}: {kind}")]
pub struct ScriptFault {
    /// The number of the line, counted from 1; 0 for the script as a whole.
    pub line: usize,
    /// The kind of the fault.
    pub kind: ScriptFaultKind,
}
