//! Configuration files in their folder.

ghost use Rattle.std.specs.Prelude.{◌≡◌, ◌≢◌, ℕ, List, Result, Ok, Err, Some, None, IfOk, IfSome, IfNone};
ghost use Rattle.std.specs.Path.{path_join};
ghost use Rattle.nut_conf.specs.Files.{IsFaultOf, Means};
ghost use Rattle.nut_program.specs.Reading.{WasRead, telling};

use crate::conf_files::ConfFiles;
use crate::remark::remark_on;
use nut_conf::{
    ConfFault, Descriptions, FaultKind, MonConfig, UpsConf, UpsdConf, UsersConf, read_descriptions,
    read_ups, read_upsd, read_upsmon, read_users,
};
use std::alloc::{AllocError, Global};
use std::io::ErrorKind;
use std::path::Path;
use std::{fmt, io};

/// A configuration that is read from a file.
pub trait ConfFile: Drop + Sized {
    ghost use Rattle.nut_conf.specs.declared.fault.FaultKind.{FaultKind};

    /// The file's name in its folder.
    ghost name: { List ℕ };

    /// The lines that the bytes of a file spell, or the first fault.
    ghost reading: { List ℕ → Result (List (List (List ℕ))) (ℕ × FaultKind) };

    /// The configuration holds what these lines set.
    ghost Holds: { Self → List (List (List ℕ)) → Type 0 };

    /// Whether passwords stand in the file.
    const HAS_PASSWORDS: bool;

    /// Returns the file's name in its folder.
    fn file_name() -> &'static str
        ensures { result.now ≡ name };

    /// Reads the bytes of the file.
    ///
    /// # Errors
    ///
    /// The first fault of the file; `FaultKind::Memory` if memory cannot be allocated.
    fn read(alloc: Global, bytes: &[u8]) -> Result<Self, ConfFault>
        ensures { Means (reading bytes.now) Holds result };
}

impl ConfFile for UpsConf {
    ghost use Rattle.std.specs.Prelude.{codes};
    ghost use Rattle.nut_conf.specs.Files.{read_file};
    ghost use Rattle.nut_conf.specs.Ups.{UpsConfHolds, ups_fault};

    ghost name = { codes "ups.conf" };

    ghost reading = { read_file ups_fault };

    ghost Holds = { UpsConfHolds };

    const HAS_PASSWORDS: bool = false;

    fn file_name() -> &'static str {
        "ups.conf"
    }

    fn read(alloc: Global, bytes: &[u8]) -> Result<Self, ConfFault> {
        read_ups(alloc, bytes)
    }
}

impl ConfFile for UsersConf {
    ghost use Rattle.std.specs.Prelude.{codes};
    ghost use Rattle.nut_conf.specs.Files.{read_file};
    ghost use Rattle.nut_conf.specs.Users.{UsersConfHolds, users_fault};

    ghost name = { codes "upsd.users" };

    ghost reading = { read_file users_fault };

    ghost Holds = { UsersConfHolds };

    const HAS_PASSWORDS: bool = true;

    fn file_name() -> &'static str {
        "upsd.users"
    }

    fn read(alloc: Global, bytes: &[u8]) -> Result<Self, ConfFault> {
        read_users(alloc, bytes)
    }
}

impl ConfFile for UpsdConf {
    ghost use Rattle.std.specs.Prelude.{codes};
    ghost use Rattle.nut_conf.specs.Files.{read_file};
    ghost use Rattle.nut_conf.specs.Upsd.{UpsdHolds, upsd_fault};

    ghost name = { codes "upsd.conf" };

    ghost reading = { read_file upsd_fault };

    ghost Holds = { UpsdHolds };

    const HAS_PASSWORDS: bool = false;

    fn file_name() -> &'static str {
        "upsd.conf"
    }

    fn read(alloc: Global, bytes: &[u8]) -> Result<Self, ConfFault> {
        read_upsd(alloc, bytes)
    }
}

impl ConfFile for MonConfig {
    ghost use Rattle.std.specs.Prelude.{codes};
    ghost use Rattle.nut_conf.specs.Upsmon.{UpsmonHolds, upsmon_reading};

    ghost name = { codes "upsmon.conf" };

    ghost reading = { upsmon_reading };

    ghost Holds = { UpsmonHolds };

    const HAS_PASSWORDS: bool = true;

    fn file_name() -> &'static str {
        "upsmon.conf"
    }

    fn read(alloc: Global, bytes: &[u8]) -> Result<Self, ConfFault> {
        read_upsmon(alloc, bytes)
    }
}

impl ConfFile for Descriptions {
    ghost use Rattle.std.specs.Prelude.{codes};
    ghost use Rattle.nut_conf.specs.Files.{read_file};
    ghost use Rattle.nut_conf.specs.Descriptions.{DescriptionsHold, descriptions_fault};

    ghost name = { codes "cmdvartab" };

    ghost reading = { read_file descriptions_fault };

    ghost Holds = { DescriptionsHold };

    const HAS_PASSWORDS: bool = false;

    fn file_name() -> &'static str {
        "cmdvartab"
    }

    fn read(alloc: Global, bytes: &[u8]) -> Result<Self, ConfFault> {
        read_descriptions(alloc, bytes)
    }
}

/// Why a file gives no configuration. It is displayed as in `ups.conf: cannot read` or `ups.conf:2: Repeated`. What
/// more there is to say is a remark, unless memory for it cannot be allocated.
#[derive(Drop)]
pub enum FileFault<'a> {
    /// The file doesn't exist, isn't a plain file, may not be read, or a read failed. The remark has its path, and why.
    CannotRead(&'a str, Option<String>),
    /// The file has this fault in this line, counted from 1, or 0 for the file as a whole. The remark says what is meant, or
    /// that no line of the file may have the word of the directive.
    Conf(&'a str, u32, FaultKind, Option<String>),
    /// Memory could not be allocated.
    Memory,
}

impl<'a> fmt::Display for FileFault<'a> {
    fn fmt<W: fmt::Write>(&self, f: &mut fmt::Formatter<W>) -> fmt::Result {
        match self {
            FileFault::CannotRead(file, _) => write!(f, "{file}: cannot read"),
            FileFault::Conf(file, line, kind, _) => write!(f, "{file}:{line}: {kind}"),
            FileFault::Memory => write!(f, "out of memory"),
        }
    }
}

impl<'a> From<AllocError> for FileFault<'a> {
    fn from(_: AllocError) -> Self {
        FileFault::Memory
    }
}

impl<'a> FileFault<'a> {
    /// Returns why the file with this path, which the fault calls by this name, couldn't be read.
    pub fn unread(alloc: Global, path: &str, error: &io::Error, name: &'a str) -> FileFault<'a>
        ensures { (file : _) (line : ℕ) (kind : FaultKind) (remark : _) → result ≢ FileFault.Conf file line kind remark }
    {
        let remark = match error.kind() {
            ErrorKind::OutOfMemory => return FileFault::Memory,
            ErrorKind::InvalidInput => format!(in alloc; "{path}: not a plain file"),
            _ => format!(in alloc; "{path}: {error}"),
        };
        FileFault::CannotRead(name, remark.ok())
    }

    /// Returns what a line of its own is to say besides, such as `/etc/nut/ups.conf: No such file or directory (os
    /// error 2)`, `vendorid isn't taken here: see from-nut(7)`, or `master: 'primary' or 'secondary' is meant`.
    pub fn remark(&self) -> Option<&str> {
        match self {
            FileFault::CannotRead(_, Some(remark)) | FileFault::Conf(_, _, _, Some(remark)) => Some(
                remark.as_str(),
            ),
            FileFault::CannotRead(_, None) | FileFault::Conf(_, _, _, None) | FileFault::Memory =>
                None,
        }
    }
}

/// Reads a configuration from its file in a folder.
///
/// # Errors
///
/// `CannotRead` if the file isn't a plain one or cannot be opened or read, `Conf` with its first fault, `Memory` if
/// memory cannot be allocated.
pub fn read_conf<C: ConfFile, F: ConfFiles>(
    files: &mut F,
    alloc: Global,
    folder: &str,
) -> Result<C, FileFault<'static>>
    ensures conf { IfOk result (λ conf. WasRead C.reading C.Holds (path_join folder.now C.name) (F.told files.old) conf
        (F.told files.new)) }
    ensures fault { (name : _) (line : ℕ) (kind : FaultKind) (remark : _) → result ≡ Err (FileFault.Conf name line kind remark)
        → (bytes : List ℕ) × (F.told files.new ≡ telling (path_join folder.now C.name) (Some bytes) (F.told files.old))
        × IsFaultOf line kind (C.reading bytes) }
{
    let name = C::file_name();
    let Ok(path) = Path::new(folder).join(alloc, name) else {
        return Err(FileFault::Memory);
    };
    read_conf_at(files, alloc, path.as_str(), name)
}

/// Reads a configuration from its file in a folder, if the file is there: `None` if it isn't.
///
/// # Errors
///
/// Those of [`read_conf`], but none for a file that doesn't exist.
pub fn read_conf_if_there<C: ConfFile, F: ConfFiles>(
    files: &mut F,
    alloc: Global,
    folder: &str,
) -> Result<Option<C>, FileFault<'static>>
    ensures conf { IfOk result (λ found. IfSome found (λ conf. WasRead C.reading C.Holds (path_join folder.now C.name) (F.told files.old)
        conf (F.told files.new))) }
    ensures absent { IfOk result (λ found. IfNone found (F.told files.new
        ≡ telling (path_join folder.now C.name) None (F.told files.old))) }
    ensures fault { (name : _) (line : ℕ) (kind : FaultKind) (remark : _) → result ≡ Err (FileFault.Conf name line kind remark)
        → (bytes : List ℕ) × (F.told files.new ≡ telling (path_join folder.now C.name) (Some bytes) (F.told files.old))
        × IsFaultOf line kind (C.reading bytes) }
{
    let name = C::file_name();
    let Ok(path) = Path::new(folder).join(alloc, name) else {
        return Err(FileFault::Memory);
    };
    match files.read(alloc, path.as_str()) {
        Ok(bytes) => conf_of(alloc, bytes.as_slice(), name).map(Some),
        Err(error) if error.kind() == ErrorKind::NotFound => Ok(None),
        Err(error) => Err(FileFault::unread(alloc, path.as_str(), &error, name)),
    }
}

/// Reads a configuration from a file that a fault calls by this name.
///
/// # Errors
///
/// Those of [`read_conf`].
pub fn read_conf_at<'a, C: ConfFile, F: ConfFiles>(
    files: &mut F,
    alloc: Global,
    path: &str,
    name: &'a str,
) -> Result<C, FileFault<'a>>
    ensures conf { IfOk result (λ conf. WasRead C.reading C.Holds path.now (F.told files.old) conf (F.told files.new)) }
    ensures fault { (name : _) (line : ℕ) (kind : FaultKind) (remark : _) → result ≡ Err (FileFault.Conf name line kind remark)
        → (bytes : List ℕ) × (F.told files.new ≡ telling path.now (Some bytes) (F.told files.old))
        × IsFaultOf line kind (C.reading bytes) }
{
    match files.read(alloc, path) {
        Ok(bytes) => conf_of(alloc, bytes.as_slice(), name),
        Err(error) => Err(FileFault::unread(alloc, path, &error, name)),
    }
}

/// Reads a configuration from the bytes of its file.
fn conf_of<'a, C: ConfFile>(alloc: Global, bytes: &[u8], name: &'a str) -> Result<C, FileFault<'a>>
    ensures conf { IfOk result (λ conf. Means (C.reading bytes.now) C.Holds (Ok conf)) }
    ensures fault { (name : _) (line : ℕ) (kind : FaultKind) (remark : _) → result ≡ Err (FileFault.Conf name line kind remark)
        → IsFaultOf line kind (C.reading bytes.now) }
{
    match C::read(alloc, bytes) {
        Ok(conf) => Ok(conf),
        Err(fault) if fault.kind == FaultKind::Memory => Err(FileFault::Memory),
        Err(fault) => {
            let remark = remark_on::<C>(alloc, bytes, fault);
            Err(FileFault::Conf(name, fault.line, fault.kind, remark))
        }
    }
}
