//! When a changed upsmon.conf is taken up.

ghost use Rattle.std.specs.Prelude.{◌≡◌, IfOk, IfSome};
ghost use Rattle.nut_monitor_spec.specs.Content.{phase_of};
ghost use Rattle.nut_monitor_spec.specs.declared.Phase.TheVariants.{Watching};
ghost use Rattle.nut_upsmon.specs.Reading.{WasReadLast};
ghost use Rattle.nut_upsmon.specs.Reload.{MayReload};

use crate::beginning::Beginning;
use crate::changes::Changes;
use crate::obstacle::{Obstacle, first_obstacle};
use crate::starting::tell_start;
use crate::warning::read_and_warn;
use nut_conf::{MonConfig, UpsdConf};
use nut_log::{Level, Lines};
use nut_monitor::{Monitor, Phase};
use nut_poll::{ErrorLines, Reports, text_of};
use nut_program::{
    ConfFile, ConfFiles, FileFault, Look, ReloadFile, ReloadReport, Turn, tell_not_reloaded,
};
use std::alloc::{AllocError, Global};
use std::io::Write;
use std::marker::Model;
use std::rt::Files;

/// upsmon answers a request after upsd has, so that the server knows the new users and UPSes when upsmon logs in again. A
/// login that is refused isn't asked for again.
const TURN: Turn = Turn::Second;

/// What the watch of a changed configuration begins with, and what the configuration changes.
#[derive(Drop)]
pub struct Reload {
    beginning: Beginning,
    changes: Changes,
}

impl Reload {
    /// Reads upsmon.conf in this folder, writes what it should set otherwise, makes what its watch begins with, and compares it
    /// with the former configuration.
    ///
    /// # Errors
    ///
    /// Why there is none.
    fn read<F: ConfFiles>(
        files: &mut F,
        alloc: Global,
        folder: &str,
        former: &MonConfig,
        err: &mut ErrorLines,
    ) -> Result<Reload, FileFault<'static>>
        ensures { IfOk result (λ reload.
            WasReadLast (record { folder = folder.now; files = F.told files.new }) reload.beginning.monitor.config) }
    {
        let config = read_and_warn(files, alloc, folder, err)?;
        let beginning = Beginning::of(alloc, config)?;
        let changes = Changes::between(alloc, former, beginning.config())?;
        Ok(Reload { beginning, changes })
    }

    /// Returns the configuration.
    pub fn config(&self) -> &MonConfig
        ensures { result.now ≡ self.now.beginning.monitor.config }
    {
        self.beginning.config()
    }
}

/// Reads upsmon.conf at the start, and looks each second whether it is to be read again.
///
/// A new monitor knows of a UPS only what its server says from then on. So a configuration waits while the last status of
/// a UPS that it continues watching has OB or FSD: if that server then said nothing more, this machine would have to be
/// halted, and a new monitor wouldn't know.
#[derive(Drop)]
pub struct UpsmonReloader<'f, F: ConfFiles> {
    /// Who reads upsmon.conf.
    files: &'f mut F,
    alloc: Global,
    folder: &'f str,
    file: ReloadFile,
    is_quiet: bool,
    /// The configuration that waits to be taken up.
    waiting: Option<Reload>,
    /// Whether it was told that it waits.
    is_wait_told: bool,
}

/// It is seen as its folder and what was read. The configuration that waits was read last.
impl<'f, F: ConfFiles> Model for UpsmonReloader<'f, F> {
    ghost use Rattle.std.specs.Prelude.{IfSome};
    ghost use Rattle.nut_upsmon.specs.Reading.{Readings, WasReadLast};
    ghost use Rattle.nut_upsmon.specs.declared.reloader.Reload.{Reload};

    ghost Value = { Readings };

    ghost view = { λ r. record { folder = r.folder.now; files = F.told r.files.now } };

    ghost invariant = { λ r. IfSome r.waiting (λ (reload : Reload).
        WasReadLast (record { folder = r.folder.now; files = F.told r.files.now }) reload.beginning.monitor.config) };
}

impl<'f, F: ConfFiles> UpsmonReloader<'f, F> {
    /// Returns the reloader of the upsmon.conf in this folder. If it is to be quiet, it says only what the file should set
    /// otherwise, and why nothing is reloaded.
    ///
    /// # Errors
    ///
    /// [`AllocError`] if memory cannot be allocated.
    pub fn new(
        rt: &impl Files,
        files: &'f mut F,
        alloc: Global,
        folder: &'f str,
        is_quiet: bool,
    ) -> Result<Self, AllocError>
        ensures { IfOk result (λ reloader. reloader.folder ≡ folder.now) }
    {
        // upsd may have the folder, too, if its file is there
        let beside = UpsdConf::file_name();
        let file = ReloadFile::new(rt, alloc, folder, beside, TURN)?;
        Ok(UpsmonReloader {
            files,
            alloc,
            folder,
            file,
            is_quiet,
            waiting: None,
            is_wait_told: false,
        })
    }

    /// Reads upsmon.conf for the first watch, and writes what it should set otherwise. Returns what that watch begins with.
    ///
    /// # Errors
    ///
    /// Why upsmon.conf gives no configuration.
    pub fn read_first(&mut self, err: &mut ErrorLines) -> Result<Beginning, FileFault<'static>>
        ensures read { IfOk result (λ first. WasReadLast self.new first.monitor.config) }
        ensures folder { self.new.folder ≡ self.old.folder }
    {
        self.waiting = None;
        let config = read_and_warn(self.files, self.alloc, self.folder, err)?;
        Ok(Beginning::of(self.alloc, config)?)
    }

    /// Whether it is to be quiet.
    pub fn is_quiet(&self) -> bool {
        self.is_quiet
    }

    /// Returns the reports of upsmon, which are written to `err` unless they are to be quiet.
    fn reports<'e>(&self, err: &'e mut ErrorLines) -> Reports<'e> {
        Reports::new(err, !self.is_quiet)
    }

    /// Reads upsmon.conf if that was asked for and it is upsmon's turn. Returns the configuration to continue with, if
    /// there is one now. Why there is none though it was asked for is written to `err`. A shutdown that has begun refuses one
    /// that waits, too.
    pub fn second(
        &mut self,
        rt: &impl Files,
        monitor: &Monitor,
        err: &mut ErrorLines,
    ) -> Option<Reload>
        ensures may { IfSome result (λ reload. MayReload monitor.now reload.beginning.monitor.config) }
        ensures read { IfSome result (λ reload. WasReadLast self.new reload.beginning.monitor.config) }
        ensures folder { self.new.folder ≡ self.old.folder }
    {
        let is_asked = self.is_asked(rt, err);
        if monitor.phase() != Phase::Watching {
            if self.waiting.take().is_some() || is_asked {
                let _ = writeln!(
                    err.begin(Level::Error),
                    "not reloaded: a shutdown has begun"
                );
            }
            return None;
        }
        if is_asked {
            self.read(monitor.config(), err);
        }
        self.take_waiting(monitor, err)
    }

    /// Reports what a configuration changes that was taken up, and what it sets. Returns what its watch begins with.
    pub fn report(&self, reload: Reload, err: &mut ErrorLines) -> Beginning
        ensures { result ≡ reload.beginning }
    {
        let Reload { beginning, changes } = reload;
        self.reports(err)
            .tell(ReloadReport::Reloaded(changes.as_str()));
        tell_start(beginning.config(), self.is_quiet, err);
        beginning
    }

    /// Whether a reload was asked for and it is upsmon's turn to make it.
    fn is_asked(&mut self, rt: &impl Files, err: &mut ErrorLines) -> bool
        ensures { self.new ≡ self.old }
    {
        match self.file.look(rt) {
            Look::Nothing => false,
            Look::Asked => true,
            Look::Stuck(error) => {
                self.reports(err)
                    .tell(ReloadReport::Stuck(self.file.path(), error));
                true
            }
        }
    }

    /// Reads upsmon.conf, compares it, and makes what its watch begins with. If it can't be read, or nothing in it has changed,
    /// that is reported: the links stay.
    fn read(&mut self, former: &MonConfig, err: &mut ErrorLines)
        ensures { self.new.folder ≡ self.old.folder }
    {
        self.is_wait_told = false;
        self.waiting = None;
        match Reload::read(self.files, self.alloc, self.folder, former, err) {
            Ok(reload) if reload.changes.are_none() => {
                self.reports(err).tell(ReloadReport::Reloaded(""));
            }
            Ok(reload) => self.waiting = Some(reload),
            Err(fault) => tell_not_reloaded(&fault, fault.remark(), err),
        }
    }

    /// Returns the configuration that waits, unless it has to continue waiting, which is reported once.
    fn take_waiting(&mut self, monitor: &Monitor, err: &mut ErrorLines) -> Option<Reload>
        requires { phase_of monitor.now.content ≡ Watching }
        ensures may { IfSome result (λ reload. MayReload monitor.now reload.beginning.monitor.config) }
        ensures read { IfSome result (λ reload. WasReadLast self.new reload.beginning.monitor.config) }
        ensures stays { self.new ≡ self.old }
    {
        let Some(Obstacle { line, why }) = first_obstacle(monitor, self.waiting.as_ref()?.config())
        else {
            return self.waiting.take();
        };
        if !self.is_wait_told {
            self.is_wait_told = true;
            let name = text_of(&line.written);
            let _ = writeln!(
                err.begin(Level::Notice),
                "not reloaded yet: UPS {name} {why}"
            );
        }
        None
    }
}
