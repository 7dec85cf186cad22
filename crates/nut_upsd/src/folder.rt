//! Reads the files again when the operator asks for that.

ghost use Rattle.std.specs.Prelude.{◌≡◌, IfOk, IfSome};
ghost use Rattle.nut_server.specs.Configured.{configuration_of};
ghost use Rattle.nut_upsd.specs.Reading.{IsRead, WereRead};

use crate::changes::changes;
use crate::configuration::{Settings, read_folder};
use nut_conf::{Endpoint, MonConfig};
use nut_poll::{ErrorLines, Reports};
use nut_program::{
    ConfFile, ConfFiles, FileFault, Look, ReloadFile, ReloadReport, Turn, paired, tell_not_reloaded,
};
use nut_server::{Config, Refused, Server};
use nut_server_sockets::Reloader;
use std::alloc::{AllocError, Global};
use std::mem;
use std::rt::Files;

/// upsd answers a request before upsmon does, whose new logins are then by the new users.
const TURN: Turn = Turn::First;

/// The folder of the files of upsd, which reads them at its start and when a file `reload` asks for it, in that folder or
/// in the one of the drivers' sockets: upsd can remove a file from the second one even where only root may write to the
/// first one, or nobody.
#[derive(Drop)]
pub struct Folder<'r, R, F> {
    rt: &'r R,
    /// Who reads the files of the configuration.
    files: &'r mut F,
    alloc: Global,
    folder: &'r str,
    /// The file in the folder of the files.
    file: ReloadFile,
    /// The file in the folder of the sockets, unless that is the same folder.
    socket_file: Option<ReloadFile>,
    /// The LISTEN lines of the start.
    endpoints: Vec<Endpoint>,
    /// What the configuration that was given last changes, until it is reported what became of that; empty if nothing.
    changes: Option<String>,
}

impl<'r, R: Files, F: ConfFiles> Folder<'r, R, F> {
    /// Returns the folder with this path, beside the folder of the drivers' sockets. A request for a reload counts from now
    /// on.
    pub fn new(
        rt: &'r R,
        files: &'r mut F,
        alloc: Global,
        folder: &'r str,
        sockets: &str,
    ) -> Result<Self, AllocError> {
        let file = file_in(rt, alloc, folder)?;
        let socket_file = if sockets == folder {
            None
        } else {
            Some(file_in(rt, alloc, sockets)?)
        };
        Ok(Folder {
            rt,
            files,
            alloc,
            folder,
            file,
            socket_file,
            endpoints: Vec::new(alloc),
            changes: None,
        })
    }

    /// Reads the files.
    ///
    /// # Errors
    ///
    /// Those of [`read_folder`].
    pub fn read(&mut self, err: &mut ErrorLines) -> Result<Settings, FileFault<'static>>
        ensures read { IfOk result (λ settings. WereRead self.old.folder.now (F.told self.old.files.now) settings
            (F.told self.new.files.now)) }
        ensures stays { (self.new.folder ≡ self.old.folder) × (self.new.endpoints ≡ self.old.endpoints) }
    {
        read_folder(self.files, self.alloc, self.folder, err)
    }

    /// Makes the configuration of the start, whose LISTEN lines stay in force.
    pub fn start(&mut self, mut settings: Settings) -> Config
        ensures { result ≡ configuration_of settings.ups settings.users settings.upsd settings.descriptions }
    {
        self.endpoints = mem::replace(&mut settings.upsd.listen.lines, Vec::new(self.alloc));
        settings.into_config()
    }

    /// Reads the files, and notes what differs from the configuration of a server.
    fn read_again(
        &mut self,
        server: &Server,
        err: &mut ErrorLines,
    ) -> Result<Box<Config>, FileFault<'static>>
        ensures read { IfOk result (λ config. IsRead self.old.folder.now (F.told self.old.files.now) config.value
            (F.told self.new.files.now)) }
        ensures stays { (self.new.folder ≡ self.old.folder) × (self.new.endpoints ≡ self.old.endpoints) }
    {
        let settings = self.read(err)?;
        let listens_elsewhere = settings.upsd.listen.lines != self.endpoints;
        let Ok(config) = Box::new(self.alloc, settings.into_config()) else {
            return Err(FileFault::Memory);
        };
        let differences = changes(self.alloc, server.config(), &config, listens_elsewhere);
        let (differences, config) = paired(differences, config)?;
        self.changes = Some(differences);
        Ok(config)
    }
}

/// Returns the file `reload` of a folder.
fn file_in(files: &impl Files, alloc: Global, folder: &str) -> Result<ReloadFile, AllocError> {
    // upsmon may have the folder, too, if its file is there
    ReloadFile::new(files, alloc, folder, MonConfig::file_name(), TURN)
}

/// Whether a file asks for a reload. That it can't be removed is reported.
fn asks(files: &impl Files, file: &mut ReloadFile, reports: &mut Reports<'_>) -> bool {
    match file.look(files) {
        Look::Nothing => false,
        Look::Asked => true,
        Look::Stuck(error) => {
            reports.tell(ReloadReport::Stuck(file.path(), error));
            true
        }
    }
}

impl<'r, R: Files, F: ConfFiles> Reloader for Folder<'r, R, F> {
    /// What it gives is made of the files of the folder as they were read last. The folder stays, and so do the LISTEN lines of
    /// the start.
    ghost gave = { λ old given new. (new.folder ≡ old.folder) × (new.endpoints ≡ old.endpoints)
        × IfSome given (λ configuration. IsRead old.folder.now (F.told old.files.now) configuration (F.told new.files.now)) };

    /// If one of the files has a fault, nothing is given.
    fn look(&mut self, server: &Server, reports: &mut Reports<'_>) -> Option<Box<Config>> {
        let mut is_asked = asks(self.rt, &mut self.file, reports);
        // both are looked at, so that together they are one request
        if let Some(socket_file) = &mut self.socket_file {
            is_asked |= asks(self.rt, socket_file, reports);
        }
        if !is_asked {
            return None;
        }
        match self.read_again(server, reports.err()) {
            Ok(config) => Some(config),
            Err(fault) => {
                tell_not_reloaded(&fault, fault.remark(), reports.err());
                None
            }
        }
    }

    /// A server refuses a configuration only for a lack of memory.
    fn tell(&mut self, answer: &Result<(), Refused>, reports: &mut Reports<'_>) {
        let Some(changes) = self.changes.take() else {
            return;
        };
        match answer {
            Ok(()) => reports.tell(ReloadReport::Reloaded(changes.as_str())),
            Err(_) => tell_not_reloaded(&FileFault::Memory, None, reports.err()),
        }
    }
}
