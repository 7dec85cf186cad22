//! nutsim: a room in memory.

use crate::command::nutsim_command;
use crate::fault::NutsimFault;
use crate::playing::play_schedule;
use crate::room::{read_config, read_monitors};
use nut_play::Fleet;
use nut_program::{Failure, FileFault, NamedLines, SystemFiles, hold_closed_streams, paired};
use std::alloc::Global;
use std::convert::AsStr;
use std::fs::File;
use std::io;
use std::io::{BufRead, BufReader, Write};
use std::rt::Files;

/// Plays a schedule on a server and its monitors, joined by pipes in memory. Returns the exit status.
///
/// `words` are those of the command line `nutsim DIR SCHEDULE MONCONF..`, the program's name first. The server is made
/// from ups.conf, upsd.users and upsd.conf in the directory DIR, and a monitor from each MONCONF, an upsmon.conf whose
/// hosts are ignored. Each line of the file SCHEDULE is a step (`read_step`). The news of steps is printed on `out`, a
/// line each, with the number of the step, counted from 1. `K: skipped` says that the step was impossible.
/// `K: monitor M notice TYPE` is followed by a blank and the UPS of the MONITOR line if the notice is about one. Then
/// comes `K: monitor M phase P` if the monitor has entered another phase. The status is 0 once all was played. Memory
/// doesn't grow with the schedule.
///
/// If clap refuses the words, its text is written to `err`, and the status is 2; the help and the version are written
/// to `out`, with status 0. Files are read in the order of the command line, and the first fault is written to `err`,
/// with status 1. It is `nutsim: FILE: cannot read`, with the reason on a line of its own. Or it is the first fault of
/// a configuration file, which is named without its directory, as in `nutsim: ups.conf:2: BadName`. For a line that
/// isn't a step, or names a monitor, a link or a UPS that doesn't exist, `nutsim: SCHEDULE:K: BadStep` is written,
/// after the news of the steps before it. `nutsim: out of memory` is written if memory cannot be allocated, and
/// `nutsim: I/O failed` if `out` fails.
pub fn run_nutsim<S: AsStr, O: Write, E: Write>(
    files: &impl Files,
    alloc: Global,
    words: &[S],
    out: &mut O,
    err: &mut E,
) -> u8 {
    run_nutsim_showing(files, alloc, words, out, err, false)
}

/// Does what [`run_nutsim`] does. If `err` is a terminal, a line there says how far a schedule of at least 100,000 steps has
/// been played.
pub fn run_nutsim_showing<S: AsStr, O: Write, E: Write>(
    files: &impl Files,
    alloc: Global,
    words: &[S],
    out: &mut O,
    err: &mut E,
    is_terminal: bool,
) -> u8 {
    match run(files, alloc, words, out, err, is_terminal) {
        Ok(()) => 0,
        Err(failure) => failure.tell(out, &mut NamedLines::new("nutsim", err)),
    }
}

fn run<'a, S: AsStr, O: Write, E: Write>(
    files: &impl Files,
    alloc: Global,
    words: &'a [S],
    out: &mut O,
    err: &mut E,
    is_terminal: bool,
) -> Result<(), Failure<NutsimFault<'a>>> {
    // no file takes the place of a standard stream that is closed
    let _held = hold_closed_streams(files, alloc)?;
    let matches = nutsim_command(alloc)?.try_get_matches_from(words)?;
    let names = Names {
        folder: matches.get_str("folder").unwrap_or(""),
        schedule: matches.get_str("schedule").unwrap_or(""),
        monitors: matches.get_strs("monitors").unwrap_or(&[]),
    };
    play_room(files, alloc, names, out, err, is_terminal)
}

/// The names on a command line: the directory of the server's files, the schedule, and the file of each monitor.
#[derive(Clone, Copy)]
struct Names<'a, 'b> {
    folder: &'a str,
    schedule: &'a str,
    monitors: &'b [&'a str],
}

/// Reads the files of a room, and plays its schedule.
fn play_room<'a, O: Write, E: Write>(
    files: &impl Files,
    alloc: Global,
    names: Names<'a, '_>,
    out: &mut O,
    err: &mut E,
    is_terminal: bool,
) -> Result<(), Failure<NutsimFault<'a>>> {
    let config = read_config(&mut SystemFiles::new(files), alloc, names.folder)?;
    let path = names.schedule;
    let schedule = open_schedule(files, alloc, path).map_err(|error| FileFault::unread(
        alloc, path, &error, path,
    ));
    let (schedule, config) = paired(schedule, config)?;
    let monitors = read_monitors(&mut SystemFiles::new(files), alloc, names.monitors);
    let (monitors, (mut schedule, config)) = paired(monitors, (schedule, config))?;
    let Ok(mut fleet) = Fleet::new(alloc, config, monitors) else {
        return Err(Failure::Memory);
    };
    let played = play_schedule(
        alloc,
        &mut fleet,
        path,
        &mut schedule,
        out,
        err,
        is_terminal,
    );
    // dropped by a call, which keeps the proof of this function short
    drop(fleet);
    played
}

/// Opens a schedule, and checks that it can be read.
fn open_schedule<F: Files>(files: &F, alloc: Global, path: &str) -> io::Result<BufReader<F::File>> {
    let mut schedule = BufReader::new(alloc, File::open(files, path)?)?;
    schedule.fill_buf()?;
    Ok(schedule)
}
