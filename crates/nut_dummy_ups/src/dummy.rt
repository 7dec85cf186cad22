//! dummy-ups: a driver without a device.

use crate::driver_socket::listen_at;
use crate::dummy_driver::DummyDriver;
use crate::listen_fault::ListenFault;
use crate::nuts_options::NUTS_OPTIONS;
use clap::{Arg, Command};
use mio::net::UnixListener;
use nut_dummy::{Dummy, Script, ScriptFault, ScriptFaultKind, ScriptKind};
use nut_log::Lines;
use nut_program::{
    Failure, FileFault, OwnFault, VERSION, hold_closed_streams, paired, read_file, way_of,
};
use std::alloc::{AllocError, Global};
use std::convert::AsStr;
use std::fs::File;
use std::io::{ErrorKind, Write};
use std::net::Net;
use std::rt::Files;
use std::sync::Wait;
use std::time::Clock;
use std::{fmt, io};

/// The longest file of a script, in bytes: 16 MiB, many times its 4,096 settings of at most 512 bytes.
const FILE_MAX: u64 = 16_777_216;

/// The faults that only dummy-ups has, before it tells anything.
#[derive(Drop)]
enum DummyUpsFault<'a> {
    /// The file's name doesn't end in `.dev` or `.seq`.
    UnknownKind(&'a str),
    /// The file cannot be read.
    File(FileFault<'a>),
    /// The file is too long.
    TooLong(&'a str),
    /// The file has this fault.
    Script(&'a str, ScriptFault),
    /// The driver can't listen at this socket. The remark says why.
    Listen(&'a str, Option<String>),
}

impl<'a> fmt::Display for DummyUpsFault<'a> {
    fn fmt<W: fmt::Write>(&self, f: &mut fmt::Formatter<W>) -> fmt::Result {
        match self {
            DummyUpsFault::UnknownKind(file) => write!(f, "{file}: unknown kind"),
            DummyUpsFault::File(fault) => write!(f, "{fault}"),
            DummyUpsFault::TooLong(file) => write!(f, "{file}: more than {FILE_MAX} bytes"),
            DummyUpsFault::Script(file, fault) => write!(f, "{file}:{fault}"),
            DummyUpsFault::Listen(socket, _) => write!(f, "cannot listen on {socket}"),
        }
    }
}

impl<'a> OwnFault for DummyUpsFault<'a> {
    fn remark(&self) -> Option<&str> {
        match self {
            DummyUpsFault::File(fault) => fault.remark(),
            DummyUpsFault::Listen(_, Some(remark)) => Some(remark.as_str()),
            DummyUpsFault::Listen(_, None)
            | DummyUpsFault::UnknownKind(_)
            | DummyUpsFault::TooLong(_)
            | DummyUpsFault::Script(..) => None,
        }
    }
}

impl<'a> From<FileFault<'a>> for DummyUpsFault<'a> {
    fn from(fault: FileFault<'a>) -> Self {
        DummyUpsFault::File(fault)
    }
}

/// Runs dummy-ups. Returns its exit status.
///
/// `words` are those of the command line `dummy-ups FILE SOCKET`, the program's name first. The script in FILE is told,
/// from now on, to one server at a time, which connects at SOCKET. A socket of that name is removed if no other driver
/// listens at it, and so is an empty plain file; any other file of that name stays. The end of FILE says what kind the
/// script is: `.dev` is played once, `.seq` round after round. The program ends if waiting for the socket or reading the
/// clock fails; then `dummy-ups: I/O failed` is written, and the status is 1.
///
/// If clap refuses the words, its text is written to `err`, and the status is 2; the help and the version are written
/// to `out`, with status 0. Before anything is told to a server, the first of these is written to `err`, with status 1:
/// `dummy-ups: FILE: unknown kind`; `dummy-ups: FILE: cannot read`, with the reason on a line of its own;
/// `dummy-ups: FILE: more than 16777216 bytes`; the first fault of the script, as `dummy-ups: FILE:2: BadName`;
/// `dummy-ups: cannot listen on SOCKET`, with the reason on a line of its own; or `dummy-ups: out of memory` if memory
/// cannot be allocated before. Later, `dummy-ups: connection of the server closed: out of memory` is written each time that memory for an
/// answer to the server is lacking; the server may connect again.
pub fn run_dummy_ups<S: AsStr, O: Write, E: Lines>(
    rt: &(impl Wait + Files<File = File> + Net + Clock),
    alloc: Global,
    words: &[S],
    out: &mut O,
    err: &mut E,
) -> u8 {
    match run(rt, alloc, words, err) {
        Ok(()) => 0,
        Err(failure) => failure.tell_of_nuts(alloc, way_of(&NUTS_OPTIONS, words), out, err),
    }
}

/// Plays the script that these words name to servers that connect at a socket.
fn run<'a, S: AsStr, E: Lines>(
    rt: &(impl Wait + Files<File = File> + Net + Clock),
    alloc: Global,
    words: &'a [S],
    err: &mut E,
) -> Result<(), Failure<DummyUpsFault<'a>>> {
    let matches = command(alloc)?.try_get_matches_from(words)?;
    let file = matches.get_str("file").unwrap_or("");
    let socket = matches.get_str("socket").unwrap_or("");
    play(rt, alloc, file, socket, err)
}

/// Plays the script of a file to servers that connect at a socket.
fn play<'a, E: Lines>(
    rt: &(impl Wait + Files<File = File> + Net + Clock),
    alloc: Global,
    file: &'a str,
    socket: &'a str,
    err: &mut E,
) -> Result<(), Failure<DummyUpsFault<'a>>> {
    let Ok(dummy) = Dummy::new(alloc, read_script(rt, alloc, file)?, 0) else {
        return Err(Failure::Memory);
    };
    // no socket takes the place of a standard stream that is closed
    let (_held, dummy) = paired(hold_closed_streams(rt, alloc), dummy)?;
    let (listener, dummy) = paired(listen(rt, alloc, socket), dummy)?;
    Ok(tell(rt, alloc, listener, dummy, err)?)
}

/// Runs a dummy driver whose servers connect to this listener, until a wait fails.
fn tell<E: Lines>(
    rt: &(impl Wait + Net + Clock),
    alloc: Global,
    listener: UnixListener,
    dummy: Dummy,
    err: &mut E,
) -> io::Result<()> {
    let mut driver = DummyDriver::new(rt, alloc, listener, dummy)?;
    for _ in rt.forever() {
        driver.turn(rt, err)?;
    }
    unreachable!()
}

/// Reads the script of a file, whose kind the end of its name says.
fn read_script<'a>(
    files: &impl Files,
    alloc: Global,
    file: &'a str,
) -> Result<Script, Failure<DummyUpsFault<'a>>> {
    let kind = if file.ends_with(".dev") {
        ScriptKind::Dev
    } else if file.ends_with(".seq") {
        ScriptKind::Seq
    } else {
        return Err(Failure::Own(DummyUpsFault::UnknownKind(file)));
    };
    // of a file that is too long no more bytes are read than show that
    let bytes = match read_file(files, alloc, file, FILE_MAX + 1) {
        Ok(bytes) if bytes.len() as u64 <= FILE_MAX => bytes,
        Ok(_) => return Err(Failure::Own(DummyUpsFault::TooLong(file))),
        Err(error) => return Err(Failure::from(FileFault::unread(alloc, file, &error, file))),
    };
    match Script::read(alloc, kind, bytes.as_slice()) {
        Ok(script) => Ok(script),
        Err(fault) if fault.kind == ScriptFaultKind::Memory => Err(Failure::Memory),
        Err(fault) => Err(Failure::Own(DummyUpsFault::Script(file, fault))),
    }
}

/// Listens at a socket.
fn listen<'a>(
    rt: &(impl Files<File = File> + Net),
    alloc: Global,
    socket: &'a str,
) -> Result<UnixListener, Failure<DummyUpsFault<'a>>> {
    match listen_at(rt, alloc, socket) {
        Ok(listener) => Ok(listener),
        Err(ListenFault::System(error)) if error.kind() == ErrorKind::OutOfMemory => {
            Err(Failure::Memory)
        }
        Err(fault) => {
            let remark = format!(in alloc; "{fault}").ok();
            Err(Failure::Own(DummyUpsFault::Listen(socket, remark)))
        }
    }
}

/// Returns the command line of dummy-ups.
fn command<'a>(alloc: Global) -> Result<Command<'a>, AllocError> {
    let file = Arg::new(alloc, "file")
        .value_name("FILE")
        .required(true)
        .help("The script: NAME.dev is played once, NAME.seq is repeated");
    let socket = Arg::new(alloc, "socket")
        .value_name("SOCKET")
        .required(true)
        .help("Where a server connects: SOCKDIR/dummy-ups-UPS for upsd's -s SOCKDIR");
    Command::new(alloc, "dummy-ups")
        .version(VERSION)
        .about("A driver that plays a script in place of a device")
        .arg(file)?
        .arg(socket)
}
