//! The faults that only upsmon has.

use crate::halt::HaltFault;
use nut_program::{Failure, FileFault, OwnFault};
use std::fmt;

/// The faults that only upsmon has.
#[derive(Drop)]
pub enum UpsmonFault {
    /// upsmon.conf gives no configuration.
    File(FileFault<'static>),
    /// This word isn't `FOLDER=SECONDS`, or names a folder that isn't checked.
    BadDelay(String),
    /// No MONITOR line of upsmon.conf is primary, so this machine may force no shutdown.
    NoPrimary,
    /// The machine wasn't halted.
    Halt(HaltFault),
    /// The process that watches has ended without an order to halt.
    NoWatch,
}

impl fmt::Display for UpsmonFault {
    fn fmt<W: fmt::Write>(&self, f: &mut fmt::Formatter<W>) -> fmt::Result {
        match self {
            UpsmonFault::File(fault) => write!(f, "{fault}"),
            UpsmonFault::BadDelay(word) => write!(
                f,
                "--delay {word}: expected DIR=SECONDS, with a DIR that is checked"
            ),
            UpsmonFault::NoPrimary => write!(f, "upsmon.conf: no MONITOR line is primary"),
            UpsmonFault::Halt(fault) => write!(f, "{fault}"),
            UpsmonFault::NoWatch => write!(f, "the process that watches has ended"),
        }
    }
}

impl OwnFault for UpsmonFault {
    fn remark(&self) -> Option<&str> {
        match self {
            UpsmonFault::File(fault) => fault.remark(),
            UpsmonFault::BadDelay(_)
            | UpsmonFault::NoPrimary
            | UpsmonFault::Halt(_)
            | UpsmonFault::NoWatch => None,
        }
    }
}

impl From<FileFault<'static>> for UpsmonFault {
    fn from(fault: FileFault<'static>) -> Self {
        UpsmonFault::File(fault)
    }
}

impl From<HaltFault> for Failure<UpsmonFault> {
    fn from(fault: HaltFault) -> Self {
        Failure::Own(UpsmonFault::Halt(fault))
    }
}
