//! What upsmon can be started with but shouldn't be.

ghost use Rattle.std.specs.Prelude.{◌↔◌, ◌≡◌, ◌<◌, ◌+◌, IsSome, None, IfOk};
ghost use Rattle.nut_upsmon.specs.Reading.{WasReadLast};

use crate::stopping::DELAY;
use nut_conf::MonConfig;
use nut_poll::ErrorLines;
use nut_program::{ConfFiles, FileFault, read_conf, readable_file, warn};
use std::alloc::{AllocError, Global};
use std::fmt;
use std::io::Write;

/// What an operator should set otherwise. Times are in seconds.
#[derive(Clone, Copy)]
pub enum Warning {
    /// upsmon has no command to halt the machine with.
    NoShutdownCommand,
    /// A UPS on battery counts as dead before an answer that takes [`DELAY`] seconds comes.
    SlowerThanDeadTime { poll_freq: u32, dead_time: u32 },
    /// The status is asked for less often than the machines of a UPS wait for each other.
    SlowerThanHostSync { poll_freq: u32, host_sync: u32 },
}

impl fmt::Display for Warning {
    fn fmt<W: fmt::Write>(&self, f: &mut fmt::Formatter<W>) -> fmt::Result {
        match self {
            Warning::NoShutdownCommand => {
                write!(
                    f,
                    "SHUTDOWNCMD is not set: nothing will shut down this machine"
                )
            }
            Warning::SlowerThanDeadTime {
                poll_freq,
                dead_time,
            } => write!(
                f,
                "POLLFREQ {poll_freq} and {DELAY} s for an answer are above DEADTIME {dead_time}: on battery a UPS may count as dead between two answers"
            ),
            Warning::SlowerThanHostSync {
                poll_freq,
                host_sync,
            } => write!(
                f,
                "POLLFREQ {poll_freq} is above HOSTSYNC {host_sync}: primary and secondaries will not wait for each other"
            ),
        }
    }
}

impl Warning {
    /// Returns what an operator should set otherwise, in the order in which it is told.
    pub fn all_of(config: &MonConfig) -> [Option<Warning>; 3] {
        [
            Warning::of_shutdown_command(config),
            Warning::of_dead_time(config),
            Warning::of_host_sync(config),
        ]
    }

    /// Warns if no command is set to halt the machine with.
    pub fn of_shutdown_command(config: &MonConfig) -> Option<Warning>
        ensures { IsSome result ↔ (config.now.shutdown_cmd ≡ None) }
    {
        match config.shutdown_cmd {
            Some(_) => None,
            None => Some(Warning::NoShutdownCommand),
        }
    }

    /// Warns if POLLFREQ and the [`DELAY`] of an answer are together greater than DEADTIME.
    pub fn of_dead_time(config: &MonConfig) -> Option<Warning>
        ensures { IsSome result ↔ (config.now.dead_time.value < config.now.poll_freq.value + 2) }
    {
        let poll_freq = config.poll_freq.value;
        let dead_time = config.dead_time.value;
        if u64::from(poll_freq) + u64::from(DELAY) <= u64::from(dead_time) {
            return None;
        }
        Some(Warning::SlowerThanDeadTime {
            poll_freq,
            dead_time,
        })
    }

    /// Warns if POLLFREQ is greater than HOSTSYNC.
    pub fn of_host_sync(config: &MonConfig) -> Option<Warning>
        ensures { IsSome result ↔ (config.now.host_sync.value < config.now.poll_freq.value) }
    {
        let poll_freq = config.poll_freq.value;
        let host_sync = config.host_sync.value;
        if poll_freq <= host_sync {
            return None;
        }
        Some(Warning::SlowerThanHostSync {
            poll_freq,
            host_sync,
        })
    }
}

/// Reads upsmon.conf in this folder, and writes what it should set otherwise, and whether everybody can read it.
///
/// # Errors
///
/// Why the file gives no configuration.
pub fn read_and_warn<F: ConfFiles>(
    files: &mut F,
    alloc: Global,
    folder: &str,
    err: &mut ErrorLines,
) -> Result<MonConfig, FileFault<'static>>
    ensures { IfOk result (λ config. WasReadLast (record { folder = folder.now; files = F.told files.new }) config) }
{
    let config = read_conf(files, alloc, folder)?;
    match readable_file::<MonConfig>(files, alloc, folder) {
        Ok(readable) => warn(readable, err),
        Err(AllocError) => return Err(FileFault::Memory),
    }
    for warning in Warning::all_of(&config) {
        warn(warning, err);
    }
    Ok(config)
}
