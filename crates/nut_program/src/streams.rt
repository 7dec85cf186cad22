//! The standard streams, and their descriptors.

use nut_log::LogStream;
use std::alloc::{AllocError, Global};
use std::fs::File;
use std::io::{Stderr, Stdout};
use std::rt::Files;

/// The standard streams that a program writes to.
#[derive(Clone, Copy)]
pub struct Streams {
    /// Standard output.
    pub out: LogStream<Stdout>,
    /// Standard error.
    pub err: LogStream<Stderr>,
}

/// The number of standard streams, whose descriptors come before all others.
const STREAMS: usize = 3;

/// Opens the root directory as often as there are standard streams. While these files are kept, they hold the descriptors
/// of streams that are closed. Otherwise the next socket would get one of these, and its peer would be sent what is meant
/// for an operator. A directory can be neither read nor written, so a closed stream fails as a broken one does.
pub fn hold_closed_streams<F: Files>(files: &F, alloc: Global) -> Result<Vec<F::File>, AllocError> {
    let mut held = Vec::new(alloc);
    for _ in 0..STREAMS {
        if let Ok(file) = File::open(files, "/") {
            held.push(file)?;
        }
    }
    Ok(held)
}
