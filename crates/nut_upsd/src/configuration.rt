//! The configuration that upsd's command line names.

ghost use Rattle.std.specs.Prelude.{◌≡◌, Ok, IfOk, OnOk};
ghost use Rattle.nut_server.specs.Configured.{configuration_of};
ghost use Rattle.nut_upsd.specs.Reading.{WereRead};

use crate::read_ups_options;
use crate::upsd_fault::UpsdFault;
use clap::ArgMatches;
use nut_conf::{Descriptions, FaultKind, UpsConf, UpsdConf, UsersConf};
use nut_poll::ErrorLines;
use nut_program::{
    ConfFiles, Failure, FileFault, paired, read_conf, read_conf_if_there, readable_file, warn,
};
use nut_server::Config;
use std::alloc::Global;

/// What ups.conf, upsd.users and upsd.conf set, and cmdvartab, if it is there.
#[derive(Drop)]
pub struct Settings {
    pub ups: UpsConf,
    pub users: UsersConf,
    pub upsd: UpsdConf,
    pub descriptions: Option<Descriptions>,
}

impl Settings {
    /// Returns settings in which nothing is set.
    fn new(alloc: Global) -> Settings {
        Settings {
            ups: UpsConf::new(alloc),
            users: UsersConf::new(alloc),
            upsd: UpsdConf::new(alloc),
            descriptions: None,
        }
    }

    /// Reads the files of a folder, up to the first that has a fault.
    fn read<F: ConfFiles>(
        &mut self,
        files: &mut F,
        alloc: Global,
        folder: &str,
    ) -> Result<(), FileFault<'static>>
        ensures { OnOk result (WereRead folder.now (F.told files.old) self.new (F.told files.new)) }
    {
        put(&mut self.ups, read_conf(files, alloc, folder))?;
        put(&mut self.users, read_conf(files, alloc, folder))?;
        put(&mut self.upsd, read_conf(files, alloc, folder))?;
        put(
            &mut self.descriptions,
            read_conf_if_there(files, alloc, folder),
        )
    }

    /// Makes the configuration of a server.
    pub fn into_config(self) -> Config
        ensures { result ≡ configuration_of self.ups self.users self.upsd self.descriptions }
    {
        let Settings {
            ups,
            users,
            upsd,
            descriptions,
        } = self;
        let config = Config::new(ups, users, upsd);
        match descriptions {
            Some(descriptions) => config.with_descriptions(descriptions),
            None => config,
        }
    }
}

/// Puts what was read in its place, unless that has a fault. What was read before lies in its place already, so no early
/// return has to drop it.
fn put<T: Drop>(
    place: &mut T,
    read: Result<T, FileFault<'static>>,
) -> Result<(), FileFault<'static>>
    ensures { OnOk result (read.entry ≡ Ok place.new) }
{
    *place = read?;
    Ok(())
}

/// Reads the files of `--conf`, or without it the UPSes of `--ups`.
///
/// # Errors
///
/// The first fault of the files or of `--ups`, or a lack of memory.
pub fn read_options<F: ConfFiles>(
    files: &mut F,
    alloc: Global,
    matches: &ArgMatches<'_>,
) -> Result<Settings, Failure<UpsdFault>> {
    if let Some(folder) = matches.get_str("conf") {
        return Ok(read_settings(files, alloc, folder)?);
    }
    match read_ups_options(alloc, matches.get_strs("ups").unwrap_or(&[])) {
        Ok(ups) => Ok(Settings {
            ups,
            users: UsersConf::new(alloc),
            upsd: UpsdConf::new(alloc),
            descriptions: None,
        }),
        Err(FaultKind::Memory) => Err(Failure::Memory),
        Err(fault) => Err(Failure::Own(UpsdFault::Ups(fault))),
    }
}

/// Reads the files of a folder.
fn read_settings<F: ConfFiles>(
    files: &mut F,
    alloc: Global,
    folder: &str,
) -> Result<Settings, FileFault<'static>>
    ensures { IfOk result (λ settings. WereRead folder.now (F.told files.old) settings (F.told files.new)) }
{
    let mut settings = Settings::new(alloc);
    let read = settings.read(files, alloc, folder);
    // `and` drops the settings if that failed
    read.and(Ok(settings))
}

/// Reads the files of a folder, and warns if everybody can read the passwords of upsd.users.
///
/// # Errors
///
/// The first fault of a file; [`FileFault::Memory`] if memory cannot be allocated.
pub fn read_folder<F: ConfFiles>(
    files: &mut F,
    alloc: Global,
    folder: &str,
    err: &mut ErrorLines,
) -> Result<Settings, FileFault<'static>>
    ensures { IfOk result (λ settings. WereRead folder.now (F.told files.old) settings (F.told files.new)) }
{
    let settings = read_settings(files, alloc, folder)?;
    let (readable, settings) = paired(readable_file::<UsersConf>(files, alloc, folder), settings)?;
    warn(readable, err);
    Ok(settings)
}
