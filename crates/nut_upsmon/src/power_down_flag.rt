//! POWERDOWNFLAG: the file that tells the system's scripts to have the UPS cut its power.

ghost use Rattle.std.specs.Prelude.{◌≡◌, ◌↔◌, ◌⊎◌, []};

use nut_conf::MonConfig;
use nut_log::{Level, Lines};
use nut_monitor::has_primary;
use nut_poll::{ErrorLines, text_of};
use std::alloc::{AllocError, Global};
use std::fs::{File, OpenFile, OpenOptions};
use std::io::{ErrorKind, Read, Write};
use std::os::unix::fs::OpenOptionsExt;
use std::rt::Files;
use std::{fmt, fs, io};

/// The contents of the file.
const LINE: &[u8] = b"upsmon-shutdown-file\n";

/// The contents of the file if NUT's upsmon wrote it.
const WORD: &[u8] = b"upsmon-shutdown-file";

/// The length of the contents.
const LENGTH: usize = 21;

/// The file's mode: its owner may read and write it.
const MODE: u32 = 0o600;

/// What is found under the flag's name.
#[derive(Clone, Copy, PartialEq, Eq)]
pub enum FlagState {
    /// Nothing has its name.
    Absent,
    /// The flag: a file with the right contents.
    Set,
    /// An empty file, whose place the flag may take: nothing is lost with it.
    Empty,
    /// Anything else, which is left unchanged: a file with other contents, a directory, a link, a pipe.
    Foreign,
}

/// Why a flag isn't set, or not removed.
#[derive(Drop)]
pub enum FlagFault {
    /// Something else has its name.
    Foreign,
    /// It cannot be written.
    NotWritten(io::Error),
    /// It cannot be removed, or what has its name cannot be found out.
    NotRemoved(io::Error),
}

impl fmt::Display for FlagFault {
    fn fmt<W: fmt::Write>(&self, f: &mut fmt::Formatter<W>) -> fmt::Result {
        match self {
            FlagFault::Foreign => write!(f, "was not written by upsmon; left unchanged"),
            FlagFault::NotWritten(error) => write!(f, "cannot be written: {error}"),
            FlagFault::NotRemoved(error) => write!(f, "cannot be removed: {error}"),
        }
    }
}

impl From<io::Error> for FlagFault {
    fn from(error: io::Error) -> FlagFault {
        FlagFault::NotWritten(error)
    }
}

/// The flag, with the names of its file and of the new one that is to replace it.
#[derive(Drop)]
pub struct PowerDownFlag {
    path: String,
    fresh: String,
}

impl PowerDownFlag {
    /// Returns the flag that upsmon.conf names, if it names one.
    ///
    /// # Errors
    ///
    /// [`AllocError`] if memory cannot be allocated.
    pub fn of(alloc: Global, config: &MonConfig) -> Result<Option<PowerDownFlag>, AllocError> {
        let Some(path) = &config.power_down_flag else {
            return Ok(None);
        };
        let path = text_of(path.as_bytes());
        Ok(Some(PowerDownFlag {
            path: String::from_str(alloc, path)?,
            fresh: format!(in alloc; "{path}.new")?,
        }))
    }

    /// Returns what is found under its name.
    ///
    /// # Errors
    ///
    /// If that cannot be found out, for example in a folder that may not be searched.
    pub fn state(&self, files: &impl Files) -> io::Result<FlagState> {
        state_of(files, self.path.as_str())
    }

    /// Removes the file if an earlier shutdown left it set: otherwise the scripts of the next ordinary shutdown would have the
    /// UPS cut its power. That it was removed is written to `err`. Anything else of that name is reported and left unchanged.
    pub fn clear(&self, files: &impl Files, err: &mut ErrorLines) {
        let path = self.path.as_str();
        match self.state(files) {
            Ok(FlagState::Absent | FlagState::Empty) => {}
            Ok(FlagState::Foreign) => self.tell(&FlagFault::Foreign, err),
            Ok(FlagState::Set) => match fs::remove_file(files, path) {
                Ok(()) => {
                    let _ = writeln!(
                        err.begin(Level::Notice),
                        "POWERDOWNFLAG {path} of an earlier shutdown is removed"
                    );
                }
                Err(error) => self.tell(&FlagFault::NotRemoved(error), err),
            },
            Err(error) => self.tell(&FlagFault::NotRemoved(error), err),
        }
    }

    /// Writes the new file that is to become the flag, beside it, if this configuration, which names the flag, has a primary
    /// line. Why it can't is written to `err`: there is time to mend it. Nothing is done, or told, if the flag or something that
    /// it may not replace has its name already, or that cannot be found out: [`PowerDownFlag::clear`] has told it.
    pub fn make_ready(&self, files: &impl Files, config: &MonConfig, err: &mut ErrorLines) {
        if !has_primary(config) {
            return;
        }
        if let Ok(FlagState::Absent | FlagState::Empty) = self.state(files)
            && let Err(error) = self.write_fresh(files)
        {
            self.tell(&FlagFault::NotWritten(error), err);
        }
    }

    /// Reports why the flag isn't set, couldn't be if the machine were to be halted now, or isn't removed.
    pub fn tell(&self, fault: &FlagFault, err: &mut ErrorLines) {
        let path = self.path.as_str();
        let _ = writeln!(err.begin(Level::Warning), "POWERDOWNFLAG {path} {fault}");
    }

    /// Sets the flag: the new file beside it, whose name ends in `.new`, takes its name, also from an empty file. If the new
    /// file isn't ready, it is written first. It allocates nothing, and doesn't wait until the file is on the disk.
    ///
    /// # Errors
    ///
    /// `Foreign` if something else has its name, `NotWritten` if it cannot be written, or what is there cannot be found
    /// out. What was there is then unchanged.
    pub fn set(&self, files: &impl Files) -> Result<(), FlagFault> {
        if self.state(files)? == FlagState::Foreign {
            return Err(FlagFault::Foreign);
        }
        if !self.is_ready(files) {
            self.write_fresh(files)?;
        }
        fs::rename(files, self.fresh.as_str(), self.path.as_str())?;
        Ok(())
    }

    /// Whether the new file is complete.
    fn is_ready(&self, files: &impl Files) -> bool {
        matches!(state_of(files, self.fresh.as_str()), Ok(FlagState::Set))
    }

    /// Writes the new file. A file of its name is removed first.
    fn write_fresh(&self, files: &impl Files) -> io::Result<()> {
        let _ = fs::remove_file(files, self.fresh.as_str());
        let mut file = OpenOptions::new()
            .write(true)
            .create_new(true)
            .mode(MODE)
            .open(files, self.fresh.as_str())?;
        file.write_all(LINE)
    }
}

/// Reports what a start tells of the POWERDOWNFLAG of a configuration, except that it removes one. No flag is removed, and no
/// new file is left.
///
/// # Errors
///
/// [`AllocError`] if memory cannot be allocated.
pub fn check_flag(
    files: &impl Files,
    alloc: Global,
    config: &MonConfig,
    err: &mut ErrorLines,
) -> Result<(), AllocError> {
    let Some(flag) = PowerDownFlag::of(alloc, config)? else {
        return Ok(());
    };
    match flag.state(files) {
        Ok(FlagState::Foreign) => flag.tell(&FlagFault::Foreign, err),
        // A new file that is there and complete stays: it may be that of an upsmon that watches.
        Ok(FlagState::Absent | FlagState::Empty) if has_primary(config) && !flag.is_ready(files) =>
            {
                let written = flag.write_fresh(files);
                let _ = fs::remove_file(files, flag.fresh.as_str());
                if let Err(error) = written {
                    flag.tell(&FlagFault::NotWritten(error), err);
                }
            }
        Ok(FlagState::Absent | FlagState::Empty | FlagState::Set) => {}
        Err(error) => flag.tell(&FlagFault::NotRemoved(error), err),
    }
    Ok(())
}

/// Removes the POWERDOWNFLAG of a configuration as [`PowerDownFlag::clear`] does. This comes before there is a halt: if upsmon
/// can't begin to watch, a flag that was left is gone all the same.
///
/// # Errors
///
/// [`AllocError`] if memory cannot be allocated. Then nothing is removed.
pub fn clear_left_flag(
    files: &impl Files,
    alloc: Global,
    config: &MonConfig,
    err: &mut ErrorLines,
) -> Result<(), AllocError> {
    if let Some(flag) = PowerDownFlag::of(alloc, config)? {
        flag.clear(files, err);
    }
    Ok(())
}

/// Returns what is found under a name. Only a plain file is opened, so that no pipe blocks and no link is followed.
fn state_of(files: &impl Files, path: &str) -> io::Result<FlagState> {
    let found = match fs::symlink_metadata(files, path) {
        Ok(found) => found,
        Err(error) if error.kind() == ErrorKind::NotFound => return Ok(FlagState::Absent),
        Err(error) => return Err(error),
    };
    if found.is_file() {
        state_of_file(files, path, found.len())
    } else {
        Ok(FlagState::Foreign)
    }
}

/// Returns what the plain file of this name and length is. An empty one isn't opened: upsmon may not be allowed to read it.
fn state_of_file(files: &impl Files, path: &str, length: u64) -> io::Result<FlagState> {
    if length > LENGTH as u64 {
        return Ok(FlagState::Foreign);
    }
    let mut bytes = [0; LENGTH];
    let bytes = &mut bytes[..length as usize];
    if !bytes.is_empty() {
        File::open(files, path)?.read_exact(bytes)?;
    }
    Ok(state_with(bytes))
}

/// Returns what a plain file with these bytes is.
fn state_with(bytes: &[u8]) -> FlagState
    ensures set { (result ≡ FlagState.Set) ↔ ((bytes.now ≡ LINE.now) ⊎ (bytes.now ≡ WORD.now)) }
    ensures empty { (result ≡ FlagState.Empty) ↔ (bytes.now ≡ []) }
{
    if bytes == LINE || bytes == WORD {
        FlagState::Set
    } else if bytes.is_empty() {
        FlagState::Empty
    } else {
        FlagState::Foreign
    }
}
