//! The words of a command line, and a program that fails before it has read them.

use nut_log::{Level, Lines};
use std::alloc::AllocGlobal;
use std::env::Env;
use std::io::{ErrorKind, Write};
use std::{env, io};

/// Returns the words of the command line, the program's name first.
///
/// # Errors
///
/// `InvalidData` if a word isn't UTF-8, or a lack of memory.
pub fn words_of<R: Env + AllocGlobal>(rt: &R) -> io::Result<Vec<String>> {
    let words = env::args(rt)?.collect(rt.alloc())?;
    Ok(words)
}

/// Writes to `err` why the words of a program's command line, or its standard streams, are not available. Returns the
/// exit status: 2 if a word isn't UTF-8, as for any command line that clap refuses, else 1.
pub fn refuse_start<E: Lines>(error: &io::Error, err: &mut E) -> u8 {
    match error.kind() {
        ErrorKind::InvalidData => {
            let _ = writeln!(
                err.mark(Level::Error),
                "error: invalid UTF-8 was detected in one or more arguments"
            );
            return 2;
        }
        ErrorKind::OutOfMemory => {
            let _ = writeln!(err.begin(Level::Error), "out of memory");
        }
        _ => {
            let _ = writeln!(err.begin(Level::Error), "I/O failed");
        }
    }
    1
}
