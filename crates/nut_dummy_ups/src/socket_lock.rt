//! The lock that a driver holds while it makes its socket.

use crate::listen_fault::ListenFault;
use std::fs;
use std::fs::{File, OpenOptions};
use std::os::unix::fs::{MetadataExt, OpenOptionsExt};
use std::rt::Files;

/// The mode of a lock file. Another user who could open it could lock it, and so keep drivers from starting.
const MODE: u32 = 0o600;

/// How many lock files may be removed by others before the lock counts as theirs.
const TRIES: u32 = 100;

/// Opens and locks a lock file, which is made if it isn't there. The lock lasts until the file is closed, also by the end of
/// the process, so a driver that is killed holds up no other.
///
/// # Errors
///
/// `Locked` if another process holds the lock. `System` if the file can't be opened or locked.
pub fn lock(files: &impl Files<File = File>, path: &str) -> Result<File, ListenFault> {
    for _ in 0..TRIES {
        let file = OpenOptions::new()
            .write(true)
            .create(true)
            .mode(MODE)
            .open(files, path)?;
        file.try_lock()?;
        // Whoever held the lock before may have removed this file. Then others lock the next one of that name.
        if file.metadata()?.nlink() > 0 {
            return Ok(file);
        }
    }
    Err(ListenFault::Locked)
}

/// Removes a lock file, and only then gives up the lock. A file that holds something isn't a driver's, and stays.
pub fn unlock(files: &impl Files, path: &str, file: File) {
    if matches!(file.metadata(), Ok(found) if found.is_file() && found.len() == 0) {
        let _ = fs::remove_file(files, path);
    }
}
