//! Why a schedule isn't played to its end.

use nut_program::{FileFault, OwnFault};
use std::fmt;

/// The faults that only nutsim has.
#[derive(Drop)]
pub enum NutsimFault<'a> {
    /// A configuration file, of the server or of a monitor, gives no configuration, or the schedule cannot be read.
    File(FileFault<'a>),
    /// This line of a schedule, counted from 1, isn't a step, or names a monitor, a link or a UPS that isn't in the room.
    BadStep(&'a str, u64),
}

impl<'a> fmt::Display for NutsimFault<'a> {
    fn fmt<W: fmt::Write>(&self, f: &mut fmt::Formatter<W>) -> fmt::Result {
        match self {
            NutsimFault::File(fault) => write!(f, "{fault}"),
            NutsimFault::BadStep(schedule, number) => write!(f, "{schedule}:{number}: BadStep"),
        }
    }
}

impl<'a> OwnFault for NutsimFault<'a> {
    fn remark(&self) -> Option<&str> {
        match self {
            NutsimFault::File(fault) => fault.remark(),
            NutsimFault::BadStep(..) => None,
        }
    }
}

impl<'a> From<FileFault<'a>> for NutsimFault<'a> {
    fn from(fault: FileFault<'a>) -> Self {
        NutsimFault::File(fault)
    }
}
