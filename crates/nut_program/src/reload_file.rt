//! The file by which an operator has a program read its files again.

ghost use Rattle.std.specs.Prelude.{◌≡◌, ◌≢◌, ◌↔◌, IsTrue, IsSome};
ghost use Rattle.nut_program.specs.Turns.{answers_now, waits_on};

use std::alloc::{AllocError, Global};
use std::os::unix::fs::MetadataExt;
use std::path::{Path, PathBuf};
use std::rt::Files;
use std::{fs, io};

/// The name of the file in the folder of the configuration files.
const NAME: &str = "reload";

/// For how many looks the file is left to other programs. Each looks once a second, but not at the same time.
const LOOKS: u8 = 2;

/// What tells one request from the next: the file, and when it was last changed.
#[derive(Clone, Copy, PartialEq, Eq)]
struct Stamp {
    node: u64,
    seconds: i64,
    nanoseconds: i64,
}

/// When a program answers a request that another program of the folder sees, too.
#[derive(Clone, Copy, PartialEq, Eq)]
pub enum Turn {
    /// At the look that sees it.
    First,
    /// At the next look. Each program looks once a second, so the one whose turn is first has answered by then.
    Second,
}

/// What a look at the file finds.
#[derive(Drop)]
pub enum Look {
    /// There is no request to answer now.
    Nothing,
    /// The program is to read its files.
    Asked,
    /// The program is to read its files, and the file can't be removed. That is reported at the first such request only,
    /// and never if another program reads files of the folder.
    Stuck(io::Error),
}

/// The file `reload` in the folder of a program's configuration files. An operator who makes it, or touches it, asks for
/// a reload. The program looks for it each second. The folder has to be on a local disk: the look waits for the file
/// system.
///
/// The program removes the file and then reads the others, so that no change after a request is missed. There are two
/// exceptions. If the program can't remove the file, for example because only root can write to the folder, each change
/// of the file's time is one request. And if another program reads the same folder, the file is left to it for two
/// looks, so that one file is a request to both, and they answer it in turn.
#[derive(Drop)]
pub struct ReloadFile {
    path: PathBuf,
    /// A file that the folder has if another program reads it.
    beside: PathBuf,
    /// When a request to both is answered.
    turn: Turn,
    /// The file as it was when it was last looked at.
    seen: Option<Stamp>,
    /// For how many more looks it is left.
    looks: u8,
    /// Whether a request that was seen at the last look is to be answered at the next one.
    waits: bool,
    is_told: bool,
}

impl ReloadFile {
    /// Returns the file in this folder. `beside` is the name of a file that the folder has if another program reads it,
    /// and `turn` says which of the two answers first. Call it before the configuration is read: a file that is there
    /// already is no request, and goes after two looks.
    pub fn new(
        files: &impl Files,
        alloc: Global,
        folder: &str,
        beside: &str,
        turn: Turn,
    ) -> Result<ReloadFile, AllocError> {
        let path = Path::new(folder).join(alloc, NAME)?;
        let beside = Path::new(folder).join(alloc, beside)?;
        let seen = stamp_of(files, path.as_path());
        Ok(ReloadFile {
            path,
            beside,
            turn,
            seen,
            looks: LOOKS,
            waits: false,
            is_told: false,
        })
    }

    /// The path of the file.
    pub fn path(&self) -> &str {
        self.path.as_path().as_str()
    }

    /// Looks whether there is a request that was not there at the last look, and removes the file. In a folder that
    /// another program reads, too, the file is left to that for two looks first, and a program whose turn is second answers
    /// at the next look, whether or not the file is still there then. A file that is changed in between is a new request.
    pub fn look(&mut self, files: &impl Files) -> Look {
        let found = stamp_of(files, self.path.as_path());
        let is_request = self.is_request(found);
        if is_request && fs::metadata(files, self.beside.as_path()).is_err() {
            return self.take(files);
        }
        if is_request {
            self.looks = LOOKS;
        } else if found.is_some() {
            if self.looks == 1 {
                let _ = fs::remove_file(files, self.path.as_path());
            }
            self.looks = self.looks.saturating_sub(1);
        }
        if self.is_turn(is_request) {
            Look::Asked
        } else {
            Look::Nothing
        }
    }

    /// Whether what was found is a request: a file that is not the one that was there at the last look, or has been
    /// changed since.
    fn is_request(&mut self, found: Option<Stamp>) -> bool
        ensures new { IsTrue result ↔ IsSome found × (found ≢ self.old.seen) }
        ensures seen { self.new.seen ≡ found }
    {
        let is_new = found.is_some() && found != self.seen;
        self.seen = found;
        is_new
    }

    /// Whether a request is answered at this look: one that this look is the first to see, if the turn is first, and one
    /// that the last look was the first to see, if it is second and nothing has come since.
    fn is_turn(&mut self, is_request: bool) -> bool
        ensures now { result ≡ answers_now self.old.turn self.old.waits is_request }
        ensures next { self.new.waits ≡ waits_on self.old.turn is_request }
    {
        let is_turn = match self.turn {
            Turn::First => is_request,
            Turn::Second => self.waits && !is_request,
        };
        self.waits = is_request && self.turn == Turn::Second;
        is_turn
    }

    /// Removes the file of a request to this program alone, which is answered at once.
    fn take(&mut self, files: &impl Files) -> Look {
        self.looks = 0;
        self.waits = false;
        match fs::remove_file(files, self.path.as_path()) {
            Err(error) if !self.is_told => {
                self.is_told = true;
                Look::Stuck(error)
            }
            _ => Look::Asked,
        }
    }
}

/// Returns the stamp of a file, if it is there.
fn stamp_of(files: &impl Files, path: Path<'_>) -> Option<Stamp> {
    let Ok(found) = fs::metadata(files, path) else {
        return None;
    };
    Some(Stamp {
        node: found.ino(),
        seconds: found.ctime(),
        nanoseconds: found.ctime_nsec(),
    })
}
