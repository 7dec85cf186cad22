//! What a program can be started with but shouldn't be.

ghost use Rattle.std.specs.Prelude.{◌↔◌, ◌≡◌, ◌≢◌, IsSome, bit_and};

use crate::conf_file::ConfFile;
use crate::conf_files::ConfFiles;
use nut_log::{Level, Lines};
use std::alloc::{AllocError, Global};
use std::fmt;
use std::fmt::Display;
use std::io::Write;
use std::path::Path;

/// The bit of a file's mode that lets users read it who are neither its owner nor in its group.
const OTHERS_READ: u32 = 0o004;

/// The bits of a file's mode that say who may do what.
const PERMISSIONS: u32 = 0o777;

/// A file with passwords, by its name in its folder. Its mode lets everybody read it.
#[derive(Clone, Copy)]
pub struct Readable {
    file: &'static str,
    mode: u32,
}

impl fmt::Display for Readable {
    fn fmt<W: fmt::Write>(&self, f: &mut fmt::Formatter<W>) -> fmt::Result {
        let Readable { file, mode } = self;
        write!(
            f,
            "{file} holds passwords, and everybody can read it (mode {mode:03o})"
        )
    }
}

impl Readable {
    /// Warns if the mode of a file with passwords lets everybody read it.
    pub fn of_mode(file: &'static str, mode: u32) -> Option<Readable>
        ensures { IsSome result ↔ (bit_and mode 4 ≢ 0) }
    {
        if mode & OTHERS_READ == 0 {
            return None;
        }
        Some(Readable {
            file,
            mode: mode & PERMISSIONS,
        })
    }
}

/// Warns if the file of a configuration, which holds passwords, can be read by everybody. If there is no such file, it
/// doesn't warn.
pub fn readable_file<C: ConfFile>(
    files: &impl ConfFiles,
    alloc: Global,
    folder: &str,
) -> Result<Option<Readable>, AllocError> {
    let name = C::file_name();
    let path = Path::new(folder).join(alloc, name)?;
    match files.mode(path.as_str()) {
        Ok(mode) => Ok(Readable::of_mode(name, mode)),
        Err(_) => Ok(None),
    }
}

/// Writes a warning, if there is one. A warning that can't be written is dropped.
pub fn warn<T: Display + Drop, E: Lines>(warning: Option<T>, err: &mut E) {
    if let Some(warning) = warning {
        let _ = writeln!(err.begin(Level::Warning), "{warning}");
    }
}
