//! upsd: a server over sockets, or over standard streams.

ghost use Rattle.std.specs.Prelude.{◌≡◌, []};
ghost use Rattle.nut_server_spec.specs.Content.{content};

use crate::command_line::upsd_command;
use crate::configuration::read_folder;
use crate::folder::Folder;
use crate::listeners::listen;
use crate::report::StartReport;
use crate::stdio::serve_options;
use crate::upsd_fault::{UpsdFault, exit_status};
use clap::ArgMatches;
use libc::geteuid;
use nut_poll::{ErrorLines, Reports};
use nut_program::{ConfFiles, Failure, SystemFiles, conf_folder, hold_closed_streams, paired};
use nut_server::{Config, Server};
use nut_server_loop::serve;
use nut_server_sockets::{Drivers, Listeners, MioWorld, Reloader};
use std::alloc::{Alloc, Global};
use std::convert::AsStr;
use std::env::Env;
use std::io::{Read, Write};
use std::net::Net;
use std::process::Processes;
use std::rt::Files;
use std::sync::Wait;
use std::time::Clock;

/// The number of the user root.
const ROOT: u32 = 0;

/// Runs upsd. Returns its exit status.
///
/// `words` are those of the command line, the program's name first. `upsd --stdio ..` does what [`run_stdio`] does, which
/// says what happens to words that clap refuses and to files with faults. `upsd --conf DIR -s SOCKDIR` serves clients over
/// TCP at each LISTEN address of upsd.conf, and connects to the driver of each UPS at the socket `SOCKDIR/DRIVER-NAME`,
/// trying again each second until that succeeds. It ends if waiting for the sockets or reading the clock fails; then
/// `upsd: I/O failed` is written, and the status is 1.
///
/// Once a second it looks for the file `reload` in the folders of `--conf` and of `-s`. If one is there, it is removed, and
/// the files are read again. What then differs is written as `upsd: reloaded: ..`; listeners stay as they are. If a file has a
/// fault, it is written as at a start, and below it `upsd: not reloaded: the earlier configuration stays in force`.
///
/// `upsd --check` serves nothing: it reads the files of `--conf`, or else those in the folder of the variable
/// NUT_CONFPATH or in `/etc/nut`, as a start does, and writes of them what a start writes. The status is 0 if they have
/// no fault.
///
/// The addresses listened on, the UPSes served, that it runs as root, drivers that connect and disconnect, who logs in and
/// out, and what a reload changes are written to `err`, a line each, but not with `-q`. Who set a variable, gave a command or
/// forced a shutdown, who was refused, which lines of a driver can't be read, why nothing was reloaded, why a client can't be
/// let in, that one is closed for lack of memory, and that everybody can read the passwords of upsd.users, is written even
/// then.
///
/// If this machine doesn't have an address of a LISTEN line, or nobody knows the name of its host, `upsd: cannot listen on
/// ADDRESS:PORT yet: WHY` is written, and it is tried again each second. If that is so of all lines, or it is impossible to
/// listen at one for any other reason, `upsd: cannot listen on ADDRESS:PORT` is written, and below it the reason; the status
/// is 1.
///
/// [`run_stdio`]: crate::run_stdio
pub fn run_upsd<S: AsStr, I: Read, O: Write>(
    rt: &(impl Wait + Files + Net + Clock + Env + Alloc + Processes),
    alloc: Global,
    words: &[S],
    input: &mut I,
    out: &mut O,
    err: &mut ErrorLines,
) -> u8 {
    let served = run(rt, alloc, words, input, out, err);
    exit_status(alloc, words, served, out, err)
}

fn run<S: AsStr, I: Read, O: Write>(
    rt: &(impl Wait + Files + Net + Clock + Env + Alloc + Processes),
    alloc: Global,
    words: &[S],
    input: &mut I,
    out: &mut O,
    err: &mut ErrorLines,
) -> Result<(), Failure<UpsdFault>> {
    let matches = upsd_command(alloc)?.try_get_matches_from(words)?;
    if matches.get_flag("check") {
        let folder = conf_folder(rt, alloc, &matches)?;
        // dropped by a call, which keeps the proof of this function short
        drop(read_folder(&mut SystemFiles::new(rt), alloc, folder.as_str(), err)?);
        return Ok(());
    }
    match matches.get_str("sockets") {
        Some(sockets) => {
            let options = Options::new(&matches, sockets);
            serve_sockets(rt, &mut SystemFiles::new(rt), alloc, &options, err)
        }
        None => serve_options(rt, alloc, &matches, input, out),
    }
}

/// What the command line says of a server over sockets.
#[derive(Drop)]
struct Options<'m> {
    /// The folder of the files.
    conf: &'m str,
    /// The folder of the drivers' sockets.
    sockets: &'m str,
    is_quiet: bool,
}

impl<'m> Options<'m> {
    fn new(matches: &ArgMatches<'m>, sockets: &'m str) -> Options<'m> {
        Options {
            conf: matches.get_str("conf").unwrap_or(""),
            sockets,
            is_quiet: matches.get_flag("quiet"),
        }
    }
}

/// Serves clients over sockets, at the addresses and with the configuration of a folder's files, and reports to the operator
/// on `err` unless that is to be quiet. Returns only with a fault: of the files, of a listener, of memory, or of the world.
fn serve_sockets<R: Wait + Files + Net + Clock + Processes, F: ConfFiles>(
    rt: &R,
    files: &mut F,
    alloc: Global,
    options: &Options<'_>,
    err: &mut ErrorLines,
) -> Result<(), Failure<UpsdFault>> {
    // no file and no socket takes the place of a standard stream that is closed
    let _held = hold_closed_streams(rt, alloc)?;
    let mut folder = Folder::new(rt, files, alloc, options.conf, options.sockets)?;
    let (settings, folder) = paired(folder.read(err), folder)?;
    let listeners = listen(rt, alloc, &settings.upsd);
    let (listeners, (settings, mut folder)) = paired(listeners, (settings, folder))?;
    let config = folder.start(settings);
    serve_config(rt, alloc, config, listeners, folder, options, err)
}

/// Serves all clients that connect to the listeners with this configuration, and then with those of the reloader.
fn serve_config<R: Wait + Net + Clock + Processes, L: Reloader + Drop>(
    rt: &R,
    alloc: Global,
    config: Config,
    listeners: Listeners,
    reloader: L,
    options: &Options<'_>,
    err: &mut ErrorLines,
) -> Result<(), Failure<UpsdFault>> {
    let Ok(mut server) = Server::new(alloc, config) else {
        return Err(Failure::Memory);
    };
    let served = serve_listeners(rt, alloc, &mut server, listeners, reloader, options, err);
    // dropped by a call, which keeps the proof of this function short
    drop(server);
    served
}

/// Serves all clients that connect to the listeners, first with the configuration that the server has.
fn serve_listeners<R: Wait + Net + Clock + Processes, L: Reloader + Drop>(
    rt: &R,
    alloc: Global,
    server: &mut Server,
    listeners: Listeners,
    reloader: L,
    options: &Options<'_>,
    err: &mut ErrorLines,
) -> Result<(), Failure<UpsdFault>>
    requires { server.old ≡ content server.old.configuration [] }
{
    let drivers = Drivers::new(alloc, options.sockets, server)?;
    let mut reports = Reports::new(err, !options.is_quiet);
    tell_start(&listeners, &drivers, &mut reports);
    let mut world = MioWorld::new(rt, alloc, listeners, drivers, reports, reloader)?;
    let served = serve(rt, server, &mut world);
    // dropped by a call, which keeps the proof of this function short
    drop(world);
    served?;
    Ok(())
}

/// Reports the addresses listened on, those that will be tried again, the UPSes served, and whether this process runs as
/// root.
fn tell_start(listeners: &Listeners, drivers: &Drivers, reports: &mut Reports<'_>) {
    listeners.tell(reports);
    for driver in drivers.as_slice() {
        if let Some(driver) = driver {
            reports.tell(StartReport::Serving(driver.name(), driver.path()));
        }
    }
    if geteuid() == ROOT {
        reports.tell(StartReport::AsRoot);
    }
}
