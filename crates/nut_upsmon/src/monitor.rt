//! upsmon: a monitor that decides when to halt its machine.

use crate::command_line::{UpsmonTask, read_words};
use crate::faulty_file::last_flag_in;
use crate::forcing::force_shutdowns;
use crate::halt::halt_heap;
use crate::hindrance::warn_of_hindrances;
use crate::low_runtime::check_low_runtimes;
use crate::machine::Machine;
use crate::nuts_options::NUTS_OPTIONS;
use crate::obeying::obey_input;
use crate::power_down_flag::{FlagState, PowerDownFlag, check_flag};
use crate::reloader::UpsmonReloader;
use crate::room::check_room;
use crate::stopping::Stopping;
use crate::upsmon_fault::UpsmonFault;
use crate::warning::read_and_warn;
use crate::watching::watch_over_sockets;
use nut_conf::MonConfig;
use nut_log::LogStream;
use nut_poll::{ErrorLines, LossyLines};
use nut_program::{Failure, FileFault, Streams, SystemFiles, read_conf, way_of};
use std::alloc::{Alloc, Global};
use std::convert::AsStr;
use std::env::Env;
use std::io::{Read, Stdout};
use std::net::Net;
use std::process::Processes;
use std::rt::Files;
use std::sync::Wait;
use std::time::Clock;

/// Runs upsmon, which writes to these streams. Returns its exit status.
///
/// `words` are those of the command line `upsmon [--conf DIR] [-q] [--check]`, `upsmon [--conf DIR] --fsd` or
/// `upsmon [--conf DIR] -K`, the program's name first.
///
/// It watches the UPSes of upsmon.conf until the machine has to be halted. The file is in the
/// folder DIR, or else in that of the variable NUT_CONFPATH, or in `/etc/nut`. If a server isn't linked, upsmon tries
/// to connect again each second, or after longer pauses if links end before the server serves. A notice is printed on
/// `out` as one line if its flags have SYSLOG or WALL, and NOTIFYCMD is run with it if they have EXEC; with IGNORE
/// neither is done. At the halt all links are closed, POWERDOWNFLAG is set if a MONITOR line is primary, and then
/// SHUTDOWNCMD is run. All that this takes is prepared before anything is watched, except a shell that can't be started
/// yet, which is reported. The status is 0 if SHUTDOWNCMD ended with 0 or there is none, else 1. A POWERDOWNFLAG that an
/// earlier shutdown left is removed at the start, or when a reload names it.
///
/// With `-K` nothing is watched: the status is 0 if POWERDOWNFLAG is set, else 1. If the file can be read, but a line
/// has a fault, that is written to `err`, and the last line POWERDOWNFLAG without a fault counts. With `--check`
/// nothing is watched either: upsmon reads upsmon.conf, writes what it should set otherwise, prints on `out` how soon
/// this machine stops, logs in at the servers, and asks them whether their UPSes report LB early enough for that. The
/// status is 0 if the file has no fault, each server lets it log in, and SHUTDOWNCMD and NOTIFYCMD can be run. With
/// `--fsd` nothing is watched either: upsmon sets FSD at the servers of all primary MONITOR lines at once, and writes what
/// became of each, on `out` that it is set and on `err` why it isn't or why no machine hears of it. The status is 0 if it
/// is set on all of them and shown; without such a line that is written to `err`, with status 1.
///
/// With `--obey` nothing is watched either: the halt is prepared, and done once a line of `input` orders it. If `input` ends
/// before, that is written to `err`, with status 1. With `--halter PID` the process PID, `upsmon --obey`, halts the machine:
/// its orders are written to `out`, and notices to `err`.
///
/// When somebody makes the file `reload` in the folder, upsmon reads upsmon.conf again. If the file has a fault, the halt
/// that it sets can't be prepared, or a shutdown has begun, upsmon says so on `err` and watches as before. A UPS that
/// stays watched and is on battery or has a forced shutdown holds the change up until it has neither. Then upsmon writes
/// what has changed, and makes all links anew.
///
/// What upsmon.conf should set otherwise is written to `err`, and so are how soon this machine stops and the UPSes that
/// are watched, a line each; with `-q` only what should be set otherwise is. A line that `out` or `err` doesn't take at
/// once is dropped ([`LossyLines`]), so that no reader of these streams holds up a halt.
///
/// If clap refuses the words, its text is written to `err`, and the status is 2; the help and the version are written
/// to `out`, with status 0. Before anything is watched, the first of these is written to `err`, with status 1:
/// `upsmon: upsmon.conf: cannot read`, and below it the path and the reason; the file's first fault, as
/// `upsmon: upsmon.conf:2: BadName`; `upsmon: out of memory`. If waiting for the sockets or reading the clock fails,
/// upsmon ends with `upsmon: I/O failed` and status 1.
pub fn run_upsmon<R, S: AsStr, I: Read>(
    rt: &R,
    alloc: Global,
    words: &[S],
    input: &mut I,
    mut streams: Streams,
) -> u8
where
    R: Wait + Files + Net + Clock + Processes + Env + Alloc,
{
    let mut err = LossyLines::new(streams.err);
    match run(rt, alloc, words, input, streams, &mut err) {
        Ok(status) => status,
        Err(failure) => {
            let way = way_of(&NUTS_OPTIONS, words);
            failure.tell_of_nuts(alloc, way, &mut streams.out, &mut err)
        }
    }
}

/// Does what the words of the command line ask for. Returns the exit status.
fn run<R, S: AsStr, I: Read>(
    rt: &R,
    alloc: Global,
    words: &[S],
    input: &mut I,
    streams: Streams,
    err: &mut ErrorLines,
) -> Result<u8, Failure<UpsmonFault>>
where
    R: Wait + Files + Net + Clock + Processes + Env + Alloc,
{
    let asked = read_words(rt, alloc, words)?;
    let task = asked.task;
    let folder = asked.folder.as_str();
    match task {
        UpsmonTask::LookForFlag => look_for_flag(rt, alloc, folder, streams.out, err),
        UpsmonTask::Check => check_file(rt, alloc, folder, streams.out, err),
        UpsmonTask::CheckRoom => {
            check_room(
                rt,
                alloc,
                asked.machines.as_slice(),
                asked.delays.as_slice(),
                streams.out,
                err,
            )
        }
        UpsmonTask::Force => force(rt, alloc, folder, streams, err),
        UpsmonTask::Obey => obey_input(rt, alloc, folder, input, streams, err),
        UpsmonTask::Watch { is_quiet, halter } => guard(
            rt, alloc, folder, is_quiet, halter, streams, err,
        ),
    }
}

/// Returns whether the flag that upsmon.conf in this folder names is set, as an exit status: 1 if it names none. If a line
/// of the file has a fault, that is reported, and the last line that names a flag and has none counts.
fn look_for_flag<R: Files>(
    files: &R,
    alloc: Global,
    folder: &str,
    mut out: LogStream<Stdout>,
    err: &mut ErrorLines,
) -> Result<u8, Failure<UpsmonFault>> {
    let flag = match read_config(files, alloc, folder) {
        Ok(config) => PowerDownFlag::of(alloc, &config)?,
        Err(failure @ Failure::Own(UpsmonFault::File(FileFault::Conf(..)))) => {
            failure.tell(&mut out, err);
            last_flag_in(files, alloc, folder)?
        }
        Err(failure) => return Err(failure),
    };
    let is_set = match &flag {
        Some(flag) => matches!(flag.state(files), Ok(FlagState::Set)),
        None => false,
    };
    Ok(u8::from(!is_set))
}

/// Reads upsmon.conf in this folder.
fn read_config(
    files: &impl Files,
    alloc: Global,
    folder: &str,
) -> Result<MonConfig, Failure<UpsmonFault>> {
    Ok(read_conf(&mut SystemFiles::new(files), alloc, folder)?)
}

/// Reads upsmon.conf in this folder, writes what it should set otherwise and how soon its machine stops, reports what is
/// wrong with POWERDOWNFLAG and what would keep the machine from stopping, and asks the servers whether their UPSes report
/// LB early enough. Returns the exit status: 0 if nothing keeps the machine from stopping, else 1.
fn check_file<R>(
    rt: &R,
    alloc: Global,
    folder: &str,
    mut out: LogStream<Stdout>,
    err: &mut ErrorLines,
) -> Result<u8, Failure<UpsmonFault>>
where
    R: Files + Net + Clock + Processes,
{
    let config = read_and_warn(&mut SystemFiles::new(rt), alloc, folder, err)?;
    Stopping::of(&config).tell(&mut out)?;
    check_flag(rt, alloc, &config, err)?;
    let stops = warn_of_hindrances(rt, alloc, &config, &mut LossyLines::new(out), err)?;
    check_low_runtimes(rt, alloc, &config, err)?;
    Ok(u8::from(!stops))
}

/// Forces the shutdown of the UPSes of the primary lines of upsmon.conf in this folder. Returns the exit status: 0 if it
/// is set on all of them and their machines are told, else 1.
fn force<R>(
    rt: &R,
    alloc: Global,
    folder: &str,
    streams: Streams,
    err: &mut ErrorLines,
) -> Result<u8, Failure<UpsmonFault>>
where
    R: Files + Net + Clock + Processes,
{
    let config = read_config(rt, alloc, folder)?;
    let is_forced = force_shutdowns(rt, alloc, &config, streams, err)?;
    Ok(u8::from(!is_forced))
}

/// Watches the UPSes of upsmon.conf in this folder until the machine has to be halted, and halts it. Returns the exit
/// status, which is 0. The memory that the halt takes is reserved meanwhile.
fn guard<R>(
    rt: &R,
    alloc: Global,
    folder: &str,
    is_quiet: bool,
    halter: Option<u32>,
    streams: Streams,
    err: &mut ErrorLines,
) -> Result<u8, Failure<UpsmonFault>>
where
    R: Wait + Files + Net + Clock + Processes,
{
    let mut files = SystemFiles::new(rt);
    let mut reloader = UpsmonReloader::new(rt, &mut files, alloc, folder, is_quiet)?;
    let first = reloader.read_first(err)?;
    let heap = halt_heap(alloc);
    let machine = Machine::new(rt, alloc, &heap, reloader, streams, halter);
    watch_over_sockets(rt, alloc, machine, first, is_quiet, err)??;
    Ok(0)
}
