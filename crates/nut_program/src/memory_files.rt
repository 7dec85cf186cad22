//! Configuration files in memory.

ghost use Rattle.std.specs.Prelude.{◌≡◌, ◌∷◌, map, Some, OnOk, OnErr};
ghost use Rattle.std.specs.Option.{option_map};
ghost use Rattle.nut_program.specs.Memory.{told_of};

use crate::conf_files::ConfFiles;
use std::alloc::{AllocError, Global};
use std::io;
use std::io::ErrorKind;

/// The mode of a file in memory: only its owner may read it.
const MODE: u32 = 0o600;

/// Files in memory, which tell what was read of them.
#[derive(Drop)]
pub struct MemoryFiles {
    alloc: Global,
    /// The path and the bytes of each file. Of two with the same path the first one counts.
    pub files: Vec<(String, Vec<u8>)>,
    read: Vec<(String, Option<Vec<u8>>)>,
}

impl MemoryFiles {
    /// Returns these files, of which none has been read.
    pub fn new(alloc: Global, files: Vec<(String, Vec<u8>)>) -> MemoryFiles {
        MemoryFiles {
            alloc,
            files,
            read: Vec::new(alloc),
        }
    }

    /// Returns what was read, the newest first: the path of each file, and its bytes, or None if there was no such file.
    pub fn read_so_far(&self) -> &[(String, Option<Vec<u8>>)] {
        &self.read
    }
}

impl ConfFiles for MemoryFiles {
    ghost told = { λ m. Some (map told_of m.read.items) };

    fn read(&mut self, alloc: Global, path: &str) -> io::Result<Vec<u8>> {
        match self.files.iter().find(|(known, _)| known.as_str() == path) {
            Some((_, bytes)) => {
                let copy = bytes.to_vec(alloc)?;
                note(self.alloc, &mut self.read, path, Some(bytes))?;
                Ok(copy)
            }
            None => {
                note(self.alloc, &mut self.read, path, None)?;
                Err(io::Error::from(ErrorKind::NotFound))
            }
        }
    }

    fn mode(&self, path: &str) -> io::Result<u32> {
        if self.files.iter().any(|(known, _)| known.as_str() == path) {
            Ok(MODE)
        } else {
            Err(io::Error::from(ErrorKind::NotFound))
        }
    }
}

/// Notes what was read of a file. Changes nothing on an error.
fn note(
    alloc: Global,
    read: &mut Vec<(String, Option<Vec<u8>>)>,
    path: &str,
    bytes: Option<&Vec<u8>>,
) -> Result<(), AllocError>
    ensures ok { OnOk result (map told_of read.new.items
        ≡ (path.now, option_map (λ v. v.now.items) bytes.entry) ∷ map told_of read.old.items) }
    ensures err { OnErr result (read.new.items ≡ read.old.items) }
{
    let path = String::from_str(alloc, path)?;
    let bytes = match bytes {
        Some(bytes) => Some(bytes.to_vec(alloc)?),
        None => None,
    };
    read.insert(0, (path, bytes))?;
    Ok(())
}
