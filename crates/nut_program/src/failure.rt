//! Why a program ends before its work is done.

use crate::command_line::UNKNOWN_OPTION;
use crate::conf_file::FileFault;
use crate::without_tip::clap_text;
use nut_io::ServeFault;
use nut_log::{Level, Lines};
use std::alloc::{AllocError, AllocFailed, Global};
use std::fmt::Display;
use std::io;
use std::io::{ErrorKind, Write};

/// Why a program ends before its work is done. `F` is the type of the faults that only this program has.
#[derive(Drop)]
pub enum Failure<F> {
    /// clap refuses the command line, or it asks for the help or the version. clap has the text to print.
    CommandLine(clap::Error),
    /// A fault that only this program has.
    Own(F),
    /// Memory could not be allocated.
    Memory,
    /// A read, a write or a wait failed.
    Io,
}

impl<F> From<clap::Error> for Failure<F> {
    fn from(error: clap::Error) -> Self {
        if error.kind() == clap::error::ErrorKind::OutOfMemory {
            Failure::Memory
        } else {
            Failure::CommandLine(error)
        }
    }
}

impl<F> From<AllocError> for Failure<F> {
    fn from(_: AllocError) -> Self {
        Failure::Memory
    }
}

impl<T: Drop, F> From<AllocFailed<T>> for Failure<F> {
    fn from(_: AllocFailed<T>) -> Self {
        Failure::Memory
    }
}

impl<F> From<io::Error> for Failure<F> {
    fn from(error: io::Error) -> Self {
        if error.kind() == ErrorKind::OutOfMemory {
            Failure::Memory
        } else {
            Failure::Io
        }
    }
}

impl<F> From<ServeFault> for Failure<F> {
    fn from(_: ServeFault) -> Self {
        Failure::Io
    }
}

impl<'a, F: From<FileFault<'a>>> From<FileFault<'a>> for Failure<F> {
    fn from(fault: FileFault<'a>) -> Self {
        match fault {
            FileFault::Memory => Failure::Memory,
            fault => Failure::Own(F::from(fault)),
        }
    }
}

/// A fault that only one program has.
pub trait OwnFault: Display {
    /// Returns what a line of its own is to say besides, if there is something.
    fn remark(&self) -> Option<&str>;
}

/// Writes a fault, and its remark on a line of its own, if there is one.
fn tell_fault<T: Display, E: Lines>(
    fault: &T,
    remark: Option<&str>,
    err: &mut E,
) -> io::Result<()> {
    writeln!(err.begin(Level::Error), "{fault}")?;
    match remark {
        Some(remark) => writeln!(err.begin(Level::Error), "{remark}"),
        None => Ok(()),
    }
}

/// Writes why a program doesn't take up a changed configuration: the fault and its remark, as if the program ended by it,
/// and a last line which says that the earlier configuration stays in force. What can't be written is dropped.
pub fn tell_not_reloaded<T: Display, E: Lines>(fault: &T, remark: Option<&str>, err: &mut E) {
    let _ = tell_fault(fault, remark, err);
    let _ = writeln!(
        err.begin(Level::Error),
        "not reloaded: the earlier configuration stays in force"
    );
}

impl<F: OwnFault> Failure<F> {
    /// Writes why the program ends to the right stream. clap's texts don't have the program's name before them. Returns
    /// the exit status: 2 if clap refuses the command line, 0 for the help or the version if it could be written, else 1.
    pub fn tell<O: Write, E: Lines>(&self, out: &mut O, err: &mut E) -> u8 {
        let told = match self {
            Failure::CommandLine(error) if error.use_stderr() => {
                write!(err.mark(Level::Error), "{error}")
            }
            Failure::CommandLine(error) => write!(out, "{error}"),
            Failure::Own(fault) => tell_fault(fault, fault.remark(), err),
            Failure::Memory => writeln!(err.begin(Level::Error), "out of memory"),
            Failure::Io => writeln!(err.begin(Level::Error), "I/O failed"),
        };
        match self {
            Failure::CommandLine(error) if error.use_stderr() => 2,
            Failure::CommandLine(_) => u8::from(told.is_err()),
            Failure::Own(_) | Failure::Memory | Failure::Io => 1,
        }
    }

    /// Does what [`Failure::tell`] does, for a program with options of NUT. If a word of the command line is unknown, clap's
    /// text has no tip to pass it as an argument. Below it comes `way`, which says what to do in place of an option of NUT, and
    /// where to read about those that are not supported. If there is a `way`, that is so too of an option that is given twice.
    pub fn tell_of_nuts<O: Write, E: Lines>(
        &self,
        alloc: Global,
        way: Option<&str>,
        out: &mut O,
        err: &mut E,
    ) -> u8 {
        let Failure::CommandLine(error) = self else {
            return self.tell(out, err);
        };
        let is_of_nut = match error.kind() {
            clap::error::ErrorKind::UnknownArgument => true,
            clap::error::ErrorKind::ArgumentConflict => way.is_some(),
            _ => false,
        };
        if !is_of_nut {
            return self.tell(out, err);
        }
        let _ = match clap_text(alloc, error) {
            Ok(text) => write!(err.mark(Level::Error), "{text}"),
            Err(AllocError) => writeln!(err.begin(Level::Error), "out of memory"),
        };
        if let Some(way) = way {
            let _ = writeln!(err.begin(Level::Error), "{way}");
        }
        let _ = writeln!(err.begin(Level::Error), "{UNKNOWN_OPTION}");
        2
    }
}
