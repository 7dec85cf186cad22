//! What the machines of a room have to set so that it stops in time.

ghost use Rattle.std.specs.Prelude.{◌≡◌, ◌+◌, ◌<◌, ◌==◌, ◌^◌, false, length};
ghost use Rattle.nut_monitor_spec.specs.Configuration.{configuration_of};
ghost use Rattle.nut_in_time.specs.InTime.{seen_by};
ghost use Rattle.nut_in_time.specs.Room.{accepted_in, forced_in, host_sync_for, other_halted_in};
ghost use Rattle.nut_upsmon.specs.Stopping.{prompt};

use crate::stopping::{DELAY, Stopping, halts_within, seen_within};
use crate::upsmon_fault::UpsmonFault;
use crate::warning::Warning;
use nut_conf::{MonConfig, Monitored, Role};
use nut_log::{Level, Lines, LogStream};
use nut_monitor::has_primary;
use nut_monitor_sockets::ANSWER_ON_BATTERY;
use nut_poll::ErrorLines;
use nut_program::{Failure, SystemFiles, read_conf};
use std::alloc::Global;
use std::io;
use std::io::{Stdout, Write};
use std::rt::Files;

/// How many seconds the clock of a machine may gain or lose against another's while the room stops.
const DRIFT: u64 = 1;

/// A machine of a room.
#[derive(Drop)]
struct RoomMachine<'a> {
    /// The folder of its upsmon.conf.
    folder: &'a str,
    config: MonConfig,
    /// The longest time for an answer there, in seconds.
    delay: u32,
}

/// Reads upsmon.conf in each of these folders, one for each machine of a room, and says what the room needs: how soon each
/// machine stops, whether the HOSTSYNC of each primary is enough for the others, and how long the battery has to last.
/// Returns the exit status, which is 0. The longest time for an answer is [`DELAY`] on a machine that no word of `delays`
/// names, as `FOLDER=SECONDS`.
///
/// # Errors
///
/// `Own` with the first fault of a file, after a line that names its folder, or with a word of `delays` that has no such
/// form or names no folder; `Memory` if memory cannot be allocated; `Io` if `out` takes no more.
pub fn check_room(
    files: &impl Files,
    alloc: Global,
    folders: &[&str],
    delays: &[&str],
    mut out: LogStream<Stdout>,
    err: &mut ErrorLines,
) -> Result<u8, Failure<UpsmonFault>> {
    let mut machines = Vec::new(alloc);
    for folder in folders {
        let read = read_conf(&mut SystemFiles::new(files), alloc, folder);
        if read.is_err() {
            let _ = writeln!(err.begin(Level::Error), "in {folder}:");
        }
        machines.push(RoomMachine {
            folder,
            config: read?,
            delay: DELAY,
        })?;
    }
    for word in delays {
        set_delay(alloc, machines.as_mut_slice(), word)?;
    }
    tell_room(machines.as_slice(), &mut out, err)?;
    Ok(0)
}

/// Sets the longest time for an answer on the machines that a word names as `FOLDER=SECONDS`.
fn set_delay(
    alloc: Global,
    machines: &mut [RoomMachine<'_>],
    word: &str,
) -> Result<(), Failure<UpsmonFault>> {
    let mut is_named = false;
    if let Some((folder, seconds)) = word.rsplit_once('=')
        && let Ok(seconds) = seconds.parse::<u32>()
    {
        for machine in machines.iter_mut() {
            if machine.folder == folder {
                machine.delay = seconds;
                is_named = true;
            }
        }
    }
    if is_named {
        return Ok(());
    }
    Err(Failure::Own(UpsmonFault::BadDelay(String::from_str(alloc, word)?)))
}

/// The HOSTSYNC that a machine needs.
#[derive(Clone, Copy)]
struct Need<'a> {
    machine: &'a str,
    host_sync: u64,
}

/// Reports what each machine of a room does and should set otherwise, and what each primary needs for the others: what is to
/// be changed on `err`, all else on `out`. A machine is called by its folder.
fn tell_room(
    machines: &[RoomMachine<'_>],
    out: &mut LogStream<Stdout>,
    err: &mut ErrorLines,
) -> io::Result<()> {
    let mut is_known = true;
    for machine in machines {
        is_known &= tell_machine(machine, machines, out, err)?;
    }
    if !is_known {
        return Ok(());
    }
    for primary in machines {
        if has_primary(&primary.config) {
            tell_primary(primary, machines, out, err)?;
        }
    }
    Ok(())
}

/// Reports how soon a machine stops, what it should set otherwise, and why no primary waits for it. Returns whether it is known
/// how soon it stops.
fn tell_machine(
    machine: &RoomMachine<'_>,
    machines: &[RoomMachine<'_>],
    out: &mut LogStream<Stdout>,
    err: &mut ErrorLines,
) -> io::Result<bool> {
    let folder = machine.folder;
    let config = &machine.config;
    let delay = machine.delay;
    let stopping = Stopping::with_delay(config, delay);
    match stopping {
        Some(stopping) => writeln!(out.begin(Level::Info), "{folder}: {stopping}")?,
        None => {
            let _ = writeln!(
                err.begin(Level::Warning),
                "{folder}: {delay} s for an answer are too long: upsmon gives a server up after {ANSWER_ON_BATTERY} s while a UPS is on battery, so nothing is known of this room"
            );
        }
    }
    for warning in Warning::all_of(config) {
        if let Some(warning) = warning {
            let _ = writeln!(err.begin(Level::Warning), "{folder}: {warning}");
        }
    }
    if has_several_servers(config) {
        let _ = writeln!(
            err.begin(Level::Warning),
            "{folder}: its UPSes are at several servers: HOSTSYNC and the battery are reckoned for one"
        );
    }
    if machine.is_alone(machines) {
        let _ = writeln!(
            err.begin(Level::Warning),
            "{folder}: no machine here is the primary of its UPSes: none waits for it"
        );
    }
    Ok(stopping.is_some())
}

/// Reports whether the HOSTSYNC of a primary is enough for the other machines that need its UPSes, and how long their battery
/// has to last: what it needs until all of them are halted, and what a machine takes from then on until it is off.
fn tell_primary(
    primary: &RoomMachine<'_>,
    machines: &[RoomMachine<'_>],
    out: &mut LogStream<Stdout>,
    err: &mut ErrorLines,
) -> io::Result<()> {
    let folder = primary.folder;
    if !needs(&primary.config, &primary.config) {
        let _ = writeln!(
            err.begin(Level::Warning),
            "{folder}: keeps running without the UPSes of which it is the primary: it forces no shutdown while their battery is low"
        );
        return Ok(());
    }
    let host_sync = primary.host_sync();
    match greatest_need(primary, machines) {
        None => writeln!(
            out.begin(Level::Info),
            "{folder}: no other machine here needs its UPSes"
        )?,
        Some(need) if need.host_sync <= host_sync => writeln!(
            out.begin(Level::Info),
            "{folder}: HOSTSYNC {host_sync} is enough: {} needs the most, {}",
            need.machine,
            need.host_sync
        )?,
        Some(need) => {
            let _ = writeln!(
                err.begin(Level::Warning),
                "{folder}: HOSTSYNC {host_sync} is too short: {} needs the most, {}",
                need.machine,
                need.host_sync
            );
        }
    }
    let seconds = all_halted_within(primary, machines);
    writeln!(
        out.begin(Level::Info),
        "{folder}: battery.runtime.low: at least {seconds} s, and what a machine takes from SHUTDOWNCMD until it is off"
    )
}

/// Returns the other machine that needs the longest HOSTSYNC of a primary, if one needs its UPSes.
fn greatest_need<'a>(primary: &RoomMachine<'_>, machines: &[RoomMachine<'a>]) -> Option<Need<'a>> {
    let mut greatest: Option<Need<'a>> = None;
    for machine in machines {
        if machine.follows(primary) {
            let need = Need {
                machine: machine.folder,
                host_sync: host_sync_for(primary, machine),
            };
            if greatest.is_none_or(|it| it.host_sync < need.host_sync) {
                greatest = Some(need);
            }
        }
    }
    greatest
}

/// Returns the most seconds from OB and LB until a primary, and all machines that need its UPSes, are halted.
fn all_halted_within(primary: &RoomMachine<'_>, machines: &[RoomMachine<'_>]) -> u64 {
    let mut last = seen_within(&primary.config, primary.delay) + halts_within(&primary.config);
    for machine in machines {
        if machine.follows(primary) && primary.host_sync() < host_sync_for(primary, machine) {
            last = last.max(other_halted_within(primary, machine));
        }
    }
    last
}

impl<'a> RoomMachine<'a> {
    fn host_sync(&self) -> u64 {
        u64::from(self.config.host_sync.value)
    }

    /// Whether this machine needs UPSes, and no machine of the room is the primary of one of its own.
    fn is_alone(&self, machines: &[RoomMachine<'_>]) -> bool {
        for machine in machines {
            for line in &self.config.monitors.lines {
                if leads(&machine.config, line) {
                    return false;
                }
            }
        }
        self.config.min_supplies.value > 0
    }

    /// Whether this is another machine than the primary and needs its UPSes.
    fn follows(&self, primary: &RoomMachine<'_>) -> bool {
        self.folder != primary.folder && needs(&self.config, &primary.config)
    }
}

/// Returns the HOSTSYNC of a primary from which on another machine is halted before the primary continues, whether or not the
/// primary's last status is so old that it takes the UPS for dead.
fn host_sync_for(primary: &RoomMachine<'_>, other: &RoomMachine<'_>) -> u64
    ensures { result ≡ host_sync_for (configuration_of primary.now.config) (prompt primary.now.delay) false
        (configuration_of other.now.config) (prompt other.now.delay) 1 }
{
    accepts_within(primary) + sees_within(other) + halts_within(&other.config).saturating_sub(1)
}

/// Returns the most seconds from the beginning of a primary's shutdown until FSD is accepted for each of its UPSes.
fn accepts_within(primary: &RoomMachine<'_>) -> u64
    ensures seconds { result ≡ accepted_in (configuration_of primary.now.config) (prompt primary.now.delay) false }
    ensures fits { result < 2 ^ 33 }
{
    let delay = u64::from(primary.delay);
    if has_one_line(&primary.config) {
        delay + delay.saturating_sub(1)
    } else {
        delay + delay
    }
}

/// Returns the most seconds from OB and LB until another machine is halted that needs a primary's UPSes.
fn other_halted_within(primary: &RoomMachine<'_>, other: &RoomMachine<'_>) -> u64
    ensures { result ≡ other_halted_in (configuration_of primary.now.config) (prompt primary.now.delay)
        (configuration_of other.now.config) (prompt other.now.delay) 1 }
{
    forces_within(primary) + sees_within(other) + halts_within(&other.config).max(1)
}

/// Returns the most seconds from OB and LB until a machine knows it, by the clock of another.
fn sees_within(machine: &RoomMachine<'_>) -> u64
    ensures seconds { result ≡ 1 + seen_by (configuration_of machine.now.config) (prompt machine.now.delay) 0 }
    ensures fits { result < 2 ^ 34 }
{
    DRIFT + seen_within(&machine.config, machine.delay)
}

/// Returns the most seconds from OB and LB until FSD is accepted for each UPS of a primary.
fn forces_within(primary: &RoomMachine<'_>) -> u64
    ensures seconds { result ≡ forced_in (configuration_of primary.now.config) (prompt primary.now.delay) }
    ensures fits { result < 2 ^ 35 }
{
    let delay = u64::from(primary.delay);
    let answers = if has_one_line(&primary.config) {
        delay
    } else {
        delay + delay
    };
    seen_within(&primary.config, primary.delay) + answers
}

/// Whether a machine has one MONITOR line.
fn has_one_line(config: &MonConfig) -> bool
    ensures { result ≡ (length (configuration_of config.now).lines == 1) }
{
    config.monitors.lines.len() == 1
}

/// Whether a machine has too little for MINSUPPLIES without the UPSes of which another machine, or itself, is the primary.
fn needs(machine: &MonConfig, primary: &MonConfig) -> bool {
    let mut sum: u64 = 0;
    for line in &machine.monitors.lines {
        if !leads(primary, line) {
            sum = sum.saturating_add(u64::from(line.power.value));
        }
    }
    sum < u64::from(machine.min_supplies.value)
}

/// Whether a machine is the primary of the UPS of a line. All UPSes are at one server, so the name says which one it is.
fn leads(primary: &MonConfig, line: &Monitored) -> bool {
    let mut lines = primary.monitors.lines.iter();
    lines.any(|it| it.role == Role::Primary && it.target.ups == line.target.ups)
}

/// Whether two lines of a machine name different servers.
fn has_several_servers(machine: &MonConfig) -> bool {
    let mut lines = machine.monitors.lines.iter();
    match lines.next() {
        Some(first) => lines.any(|it| it.target.host != first.target.host
            || it.target.port != first.target.port),
        None => false,
    }
}
