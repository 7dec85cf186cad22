//! The faults that only upsd has.

use crate::nuts_options::NUTS_OPTIONS;
use nut_conf::FaultKind;
use nut_log::Lines;
use nut_program::{Failure, FileFault, OwnFault, way_of};
use std::alloc::Global;
use std::convert::AsStr;
use std::fmt;
use std::io::Write;

/// The faults that only upsd has: before it serves anybody, or over standard streams.
#[derive(Drop)]
pub enum UpsdFault {
    /// A value of `--ups` has this fault.
    Ups(FaultKind),
    /// A file gives no configuration.
    File(FileFault<'static>),
    /// It is impossible to listen at this address and port. The remark says why, unless memory for it cannot be allocated.
    Listen(String, u16, Option<String>),
    /// A read of standard input failed.
    Input,
    /// A write to standard output failed.
    Output,
}

impl fmt::Display for UpsdFault {
    fn fmt<W: fmt::Write>(&self, f: &mut fmt::Formatter<W>) -> fmt::Result {
        match self {
            UpsdFault::Ups(fault) => write!(f, "--ups: {fault}"),
            UpsdFault::File(fault) => write!(f, "{fault}"),
            UpsdFault::Listen(address, port, _) => {
                write!(f, "cannot listen on {address}:{port}")
            }
            UpsdFault::Input => write!(f, "input failed"),
            UpsdFault::Output => write!(f, "output failed"),
        }
    }
}

impl OwnFault for UpsdFault {
    fn remark(&self) -> Option<&str> {
        match self {
            UpsdFault::File(fault) => fault.remark(),
            UpsdFault::Listen(_, _, Some(remark)) => Some(remark.as_str()),
            UpsdFault::Ups(_)
            | UpsdFault::Listen(_, _, None)
            | UpsdFault::Input
            | UpsdFault::Output => None,
        }
    }
}

impl From<FileFault<'static>> for UpsdFault {
    fn from(fault: FileFault<'static>) -> Self {
        UpsdFault::File(fault)
    }
}

/// Returns the exit status of an upsd that was started with these words: 0, or that of a failure, which is reported.
pub fn exit_status<S: AsStr, O: Write, E: Lines>(
    alloc: Global,
    words: &[S],
    served: Result<(), Failure<UpsdFault>>,
    out: &mut O,
    err: &mut E,
) -> u8 {
    match served {
        Ok(()) => 0,
        Err(failure) => failure.tell_of_nuts(alloc, way_of(&NUTS_OPTIONS, words), out, err),
    }
}
