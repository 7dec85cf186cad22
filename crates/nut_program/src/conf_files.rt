//! Whoever reads configuration files.

ghost use Rattle.std.specs.Prelude.{◌≡◌, ◌≢◌, ℕ, List, Option, Some, None, IfOk, IfErr};
ghost use Rattle.std.specs.IoError.{error_kind};
ghost use Rattle.nut_program.specs.Reading.{telling};

use nut_conf::FILE_MAX;
use std::alloc::Global;
use std::fs::File;
use std::io::{ErrorKind, Read};
use std::os::unix::fs::PermissionsExt;
use std::path::AsPath;
use std::rt::Files;
use std::{fs, io};

/// Whoever reads configuration files, and may tell what they were.
pub trait ConfFiles: Drop {
    /// The files that were read, the newest first: the path of each, and its bytes, or None if there was no such file. None if
    /// nothing is told. A read that fails in any other way isn't told.
    ghost told: { Self → Option (List (List ℕ × Option (List ℕ))) };

    /// Returns the bytes of a plain file; of one that is too long for a configuration no more than show that.
    ///
    /// # Errors
    ///
    /// `NotFound` if the file doesn't exist, `InvalidInput` if it isn't a plain file, `OutOfMemory` if memory cannot be
    /// allocated; else the error of the system, if the file cannot be opened or read.
    fn read(&mut self, alloc: Global, path: &str) -> io::Result<Vec<u8>>
        ensures bytes { IfOk result (λ bytes. told self.new ≡ telling path.now (Some bytes.items) (told self.old)) }
        ensures absent { IfErr result (λ error. error_kind error ≡ ErrorKind.NotFound
            → told self.new ≡ telling path.now None (told self.old)) }
        ensures unread { IfErr result (λ error. error_kind error ≢ ErrorKind.NotFound → told self.new ≡ told self.old) };

    /// Returns the mode of a file, which says who may do what with it.
    ///
    /// # Errors
    ///
    /// The error of the system if the file doesn't exist, or its mode can't be read.
    fn mode(&self, path: &str) -> io::Result<u32>;
}

/// The files of the system. They tell nothing.
#[derive(Drop)]
pub struct SystemFiles<'r, F> {
    files: &'r F,
}

impl<'r, F: Files> SystemFiles<'r, F> {
    /// Returns the files that this runtime reaches.
    pub fn new(files: &'r F) -> SystemFiles<'r, F> {
        SystemFiles { files }
    }
}

impl<'r, F: Files> ConfFiles for SystemFiles<'r, F> {
    ghost told = { λ _. None };

    fn read(&mut self, alloc: Global, path: &str) -> io::Result<Vec<u8>> {
        read_file(self.files, alloc, path, READ_MAX)
    }

    fn mode(&self, path: &str) -> io::Result<u32> {
        Ok(fs::metadata(self.files, path)?.permissions().mode())
    }
}

/// Of a file that is too long no more bytes are read than show that.
const READ_MAX: u64 = FILE_MAX as u64 + 1;

/// Returns the bytes of a plain file, of a longer one the first `most`. No other file is opened: a pipe could block the
/// program for ever, and a device may have no end.
///
/// # Errors
///
/// That of the system if the file doesn't exist, or cannot be opened or read; of the kind `InvalidInput` if it isn't a
/// plain file; of the kind `OutOfMemory` if memory cannot be allocated.
pub fn read_file<P: AsPath>(
    files: &impl Files,
    alloc: Global,
    path: P,
    most: u64,
) -> io::Result<Vec<u8>> {
    if !fs::metadata(files, &path)?.is_file() {
        return Err(io::Error::from(ErrorKind::InvalidInput));
    }
    let file = File::open(files, path)?;
    let mut bytes = Vec::new(alloc);
    file.take(most).read_to_end(&mut bytes)?;
    Ok(bytes)
}
