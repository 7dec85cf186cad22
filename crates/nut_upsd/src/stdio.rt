//! `upsd --stdio`: one client over standard streams.

ghost use Rattle.std.specs.Prelude.{◌≡◌, []};
ghost use Rattle.nut_server_spec.specs.Content.{content};

use crate::command_line::stdio_command;
use crate::configuration::read_options;
use crate::upsd_fault::{UpsdFault, exit_status};
use clap::ArgMatches;
use nut_program::{Failure, NamedLines, SystemFiles, hold_closed_streams};
use nut_server::Server;
use nut_server_loop::{StreamWorld, WorldStream, serve};
use std::alloc::Global;
use std::convert::AsStr;
use std::io::{Read, Write};
use std::rt::Files;
use std::sync::Wait;

/// Serves one client, whose address is `stdio`, over a reader and a writer, until its LOGOUT, the end of the input, or
/// a lack of memory at one of its pieces. Returns the exit status: 0, or 1 after a text on `err`.
///
/// `words` are those of the command line `upsd --stdio [--conf DIR | --ups NAME=DESC ..]`, the program's name first. If
/// clap refuses them, its text is written to `err`, and the status is 2; the help and the version are written to `out`,
/// with status 0.
///
/// With `--conf` the files ups.conf, upsd.users and upsd.conf of the folder are read, in this order, and then cmdvartab,
/// if it is there. The first fault is reported as `upsd: ups.conf:2: Repeated`, and a file that can't be read as
/// `upsd: ups.conf: cannot read`, with a line of its own that has the path and the reason. The values of `--ups` are
/// read in the order given, and the first fault is reported as `upsd: --ups: BadName`. Nothing is served then. A failed read
/// is reported as `upsd: input failed`, a failed write as `upsd: output failed`, and a lack of memory as
/// `upsd: out of memory`.
///
/// Replies are written as soon as a piece of the input was read, so `out` should not buffer.
///
/// It is for callers that have no sockets and no clock. The program upsd calls [`run_upsd`](crate::run_upsd), which does
/// the same for these words.
pub fn run_stdio<S: AsStr, I: Read, O: Write, E: Write>(
    rt: &(impl Wait + Files),
    alloc: Global,
    words: &[S],
    input: &mut I,
    out: &mut O,
    err: &mut E,
) -> u8 {
    let served = serve_words(rt, alloc, words, input, out);
    exit_status(alloc, words, served, out, &mut NamedLines::new("upsd", err))
}

/// Serves one client as the words of the command line say.
fn serve_words<S: AsStr, I: Read, O: Write>(
    rt: &(impl Wait + Files),
    alloc: Global,
    words: &[S],
    input: &mut I,
    out: &mut O,
) -> Result<(), Failure<UpsdFault>> {
    let matches = stdio_command(alloc)?.try_get_matches_from(words)?;
    serve_options(rt, alloc, &matches, input, out)
}

/// Serves one client over a reader and a writer, with the configuration that the command line names.
///
/// # Errors
///
/// The first fault of the configuration. `Memory` if memory cannot be allocated, `Input` if a read failed, `Output` if a
/// write failed.
pub fn serve_options<I: Read, O: Write>(
    rt: &(impl Wait + Files),
    alloc: Global,
    matches: &ArgMatches<'_>,
    input: &mut I,
    out: &mut O,
) -> Result<(), Failure<UpsdFault>> {
    // no file takes the place of a standard stream that is closed
    let _held = hold_closed_streams(rt, alloc)?;
    let settings = read_options(&mut SystemFiles::new(rt), alloc, matches)?;
    let Ok(mut server) = Server::new(alloc, settings.into_config()) else {
        return Err(Failure::Memory);
    };
    let served = serve_client(rt, &mut server, input, out);
    // dropped by a call, which keeps the proof of this function short
    drop(server);
    served
}

/// Serves one client to its end.
fn serve_client<I: Read, O: Write>(
    rt: &impl Wait,
    server: &mut Server,
    input: &mut I,
    out: &mut O,
) -> Result<(), Failure<UpsdFault>>
    requires { server.old ≡ content server.old.configuration [] }
{
    let mut world = StreamWorld::new(input, out);
    let served = serve(rt, server, &mut world);
    match world.failed() {
        Some(WorldStream::Input) => Err(Failure::Own(UpsdFault::Input)),
        Some(WorldStream::Output) => Err(Failure::Own(UpsdFault::Output)),
        None => Ok(served?),
    }
}
