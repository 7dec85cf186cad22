//! What would keep a machine from stopping: a server that doesn't let it log in, a command that can't be run.

use crate::errand::{Errand, run_errand};
use nut_conf::{COMMAND_MAX, MonConfig, Text};
use nut_log::{Level, Lines};
use nut_poll::{ErrorLines, OutputLines, text_of};
use nut_program::hold_closed_streams;
use std::alloc::Global;
use std::io::Write;
use std::net::Net;
use std::os::unix::fs::PermissionsExt;
use std::process::Processes;
use std::rt::Files;
use std::time::Clock;
use std::{fs, io};

/// The bits of a file's mode by which somebody may run it.
const RUNNABLE: u32 = 0o111;

/// Warns of what would keep the machine of a configuration from stopping: it logs in at the servers of all lines, at once,
/// and looks whether SHUTDOWNCMD and NOTIFYCMD begin with the path of a program. Returns whether there is nothing. The
/// servers of a machine that needs no UPS aren't asked. The standard streams that are closed are held meanwhile.
///
/// # Errors
///
/// A lack of memory or descriptors, or that of the wait for the servers or of the clock.
pub fn warn_of_hindrances<R>(
    rt: &R,
    alloc: Global,
    config: &MonConfig,
    out: &mut OutputLines,
    err: &mut ErrorLines,
) -> io::Result<bool>
where
    R: Files + Net + Clock + Processes,
{
    let halts = can_run(rt, "SHUTDOWNCMD", command_of(&config.shutdown_cmd), err);
    let tells = can_run(rt, "NOTIFYCMD", command_of(&config.notify_cmd), err);
    if config.min_supplies.value == 0 {
        return Ok(halts && tells);
    }
    let _held = hold_closed_streams(rt, alloc)?;
    let lines = config.monitors.lines.as_slice();
    let talks = run_errand(Errand::LogIn, rt, alloc, lines, out, err)?;
    Ok(halts && tells && talks.iter().all(|talk| talk.is_done))
}

/// Returns the text of a command, which is empty if none is set.
fn command_of(command: &Option<Text<1, COMMAND_MAX>>) -> &[u8] {
    match command {
        Some(command) => command.as_bytes(),
        None => &[],
    }
}

/// Warns if the first word of a command is a path at which there is no program. Returns whether it isn't. A word that the
/// shell changes counts as none.
fn can_run(files: &impl Files, directive: &str, command: &[u8], err: &mut ErrorLines) -> bool {
    let Some(word) = command.split(u8::is_ascii_whitespace).next() else {
        return true;
    };
    let mut bytes = word.iter();
    let is_plain = bytes.all(|byte| byte.is_ascii_alphanumeric() || b"/._-+".contains(byte));
    if !word.starts_with(b"/") || !is_plain {
        return true;
    }
    let path = text_of(word);
    let is_program = match fs::metadata(files, path) {
        Ok(found) => found.is_file() && found.permissions().mode() & RUNNABLE != 0,
        Err(_) => false,
    };
    if !is_program {
        let _ = writeln!(
            err.begin(Level::Warning),
            "{directive}: {path} isn't a program"
        );
    }
    is_program
}
