//! Why a configuration file can't be read.
ghost use Rattle.std.specs.Prelude.{◌≡◌, codes};
ghost use Rattle.nut_conf.specs.declared.fault.FaultKind.TheVariants.{Memory};

use crate::hint::{Expected, Hint};
use std::alloc::{AllocError, AllocFailed};
use thiserror::Error;

/// What is wrong with a line, or with a file as a whole. Its text is its name.
#[derive(Clone, Copy, Debug, PartialEq, Eq, Error)]
pub enum FaultKind {
    /// The line can't be read as words: [`WordFault`](nut_words::WordFault) says why. Of `UpsConf::add`: the
    /// description has a byte outside 0x20 to 0x7E.
    #[error("Unreadable")]
    Unreadable,
    /// A directive before the first section.
    #[error("OutsideSection")]
    OutsideSection,
    /// The first word is no directive of the file.
    #[error("UnknownDirective")]
    UnknownDirective,
    /// A `=` or a value is missing, or there are too many values.
    #[error("BadForm")]
    BadForm,
    /// It came before: the name of a section, a directive that is allowed once, a target, a type of notice, or a name
    /// that has a description.
    #[error("Repeated")]
    Repeated,
    /// A number that isn't one to nine digits, or is out of range.
    #[error("BadNumber")]
    BadNumber,
    /// An empty name, a name with a byte that isn't allowed, a bad address or a bad target.
    #[error("BadName")]
    BadName,
    /// A file, a line, a name or a text is too long; a text is too short; or there are too many entries. At line 0, the
    /// file is too long, or the power values sum to less than MINSUPPLIES.
    #[error("PastLimit")]
    PastLimit,
    /// An unknown role, action, type of notice or flag.
    #[error("UnknownWord")]
    UnknownWord,
    /// Memory cannot be allocated.
    #[error("Memory")]
    Memory,
}

impl From<AllocError> for FaultKind {
    ghost from_gives = { λ _ e. e ≡ Memory };

    fn from(_error: AllocError) -> FaultKind {
        FaultKind::Memory
    }
}

impl<T: Drop> From<AllocFailed<T>> for FaultKind {
    ghost from_gives = { λ _ e. e ≡ Memory };

    fn from(_error: AllocFailed<T>) -> FaultKind {
        FaultKind::Memory
    }
}

/// Why a line can't be read: what is wrong with it, and where.
#[derive(Clone, Copy)]
pub struct Misread {
    pub kind: FaultKind,
    pub hint: Hint,
}

impl Misread {
    /// Returns a fault of the line as a whole.
    pub fn of_line(kind: FaultKind, expected: Expected) -> Self
        ensures { result.kind ≡ kind }
    {
        Misread {
            kind,
            hint: Hint::of_line(expected),
        }
    }

    /// Returns a fault at the word in this place, counted from 0.
    pub fn of_word(word: usize, kind: FaultKind, expected: Expected) -> Self
        ensures { result.kind ≡ kind }
    {
        let hint = Hint {
            word: Some(word),
            ..Hint::of_line(expected)
        };
        Misread { kind, hint }
    }
}

impl<T: Drop> From<AllocFailed<T>> for Misread {
    ghost from_gives = { λ _ m. m.kind ≡ Memory };

    fn from(_error: AllocFailed<T>) -> Misread {
        Misread::of_line(FaultKind::Memory, Expected::Nothing)
    }
}

/// The first fault of a file, and its line. Its text is, for example, `2: Repeated`.
#[derive(Clone, Copy, Debug, PartialEq, Eq, Error)]
#[error("{line}: {kind}")]
pub struct ConfFault {
    /// The number of the line, counted from 1, or 0 for the file as a whole.
    pub line: u32,
    /// What is wrong with the line.
    pub kind: FaultKind,
    pub(crate) hint: Hint,
}

impl ConfFault {
    /// Returns where in the line the fault lies, and what is expected there.
    pub fn hint(&self) -> Hint {
        self.hint
    }
}
