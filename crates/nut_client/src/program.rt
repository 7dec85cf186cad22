//! The tools as programs.
use crate::command_line::{Options, Refusal};
use crate::dialing::dial_host;
use crate::engine::{fail, put_all, refuse_words, tell_refusal};
use crate::failure::ToolFailure;
use crate::output::{Output, WriterOutput};
use crate::password::with_password;
use crate::tool::{Tool, run_options};
use nut_program::{TOOL_STACK, hold_closed_streams, low_stack, words_of};
use std::alloc::AllocGlobal;
use std::env::Env;
use std::io::{ErrorKind, Input, Print, Write};
use std::net::Net;
use std::process::ExitCode;
use std::rt::Files;
use std::time::Clock;
use std::{io, str};

/// What the name of a UPS looks like on a command line.
const NAME_FORM: &str =
    "expected UPS[@HOST[:PORT]], HOST a name or an IPv4 address (an IPv6 address needs a name in /etc/hosts)";

/// Runs a tool as this program: with the words of its command line, over TCP, with the standard streams, of which this is
/// the error output. Returns the exit status.
///
/// Standard streams that are closed are held first, so that the connection never takes the place of one. A password `-`
/// is read from standard input before the server is dialled. Below the line of a failure, a line of its own says why no
/// connection was made or what the name of a UPS looks like, and the tool's usage if the words are no combination that it
/// knows. If the stack is limited to less than the tool needs, only that is written.
pub fn run_tool<R: Clock + Env + Files + Input + Net + Print + AllocGlobal, E: Print>(
    rt: &R,
    stderr: &E,
    tool: Tool,
) -> ExitCode {
    if let Some(low) = low_stack(TOOL_STACK) {
        let name = tool.name();
        let _ = writeln!(io::writer(stderr), "{name}: {low}");
        return ExitCode::from(1);
    }
    let mut err = WriterOutput::new(io::writer(stderr));
    let status = match run_held(rt, tool, &mut err) {
        Ok(status) => status,
        Err(error) => refuse_words(&error, &mut err),
    };
    ExitCode::from(status)
}

/// Runs a tool with the words of the command line. The standard streams that are closed are held meanwhile. Returns the exit
/// status.
///
/// # Errors
///
/// Why the words are not available, or that memory cannot be allocated.
fn run_held<R, E: Output>(rt: &R, tool: Tool, err: &mut E) -> io::Result<u8>
where
    R: Clock + Env + Files + Input + Net + Print + AllocGlobal,
{
    let _held = hold_closed_streams(rt, rt.alloc())?;
    let words = words_of(rt)?;
    Ok(match tool.read_options(rt.alloc(), words.as_slice()) {
        Ok(options) => run_with_password(rt, tool, options, err),
        Err(refusal) => refuse(rt, tool, words.as_slice(), refusal, err),
    })
}

/// Reads the password if the options ask for that, and runs a tool with them. Returns the exit status.
fn run_with_password<R, E: Output>(rt: &R, tool: Tool, options: Options<'_>, err: &mut E) -> u8
where
    R: Clock + Input + Net + Print + AllocGlobal,
{
    let mut line = String::new(rt.alloc());
    let Options { target, wanted } = options;
    match with_password(wanted, rt, &mut line) {
        Ok(wanted) => run_over_tcp(rt, tool, Options { target, wanted }, err),
        Err(error) if error.kind() == ErrorKind::OutOfMemory => fail(ToolFailure::Memory, err),
        Err(_) => {
            put_line(tool, "no password on standard input", err);
            1
        }
    }
}

/// Connects to the server, and runs a tool with these options. If no connection is made, a line of its own says why; it is
/// dropped if memory for it cannot be allocated. Returns the exit status.
fn run_over_tcp<R, E: Output>(rt: &R, tool: Tool, options: Options<'_>, err: &mut E) -> u8
where
    R: Clock + Net + Print + AllocGlobal,
{
    let (host, port) = (&options.target.host, options.target.port);
    match dial_host(rt, host, port) {
        Ok(mut stream) => {
            let mut out = WriterOutput::new(io::writer(rt));
            run_options(rt, rt.alloc(), options, &mut stream, &mut out, err)
        }
        Err(error) => {
            let status = fail(ToolFailure::NoConnection, err);
            let name = tool.name();
            let host = str::from_utf8(host.as_bytes()).unwrap_or("");
            if let Ok(line) = format!(in rt.alloc(); "{name}: {host}:{}: {error}\n", port.number) {
                put_all(err, line.as_bytes());
            }
            status
        }
    }
}

/// Writes why these words give no options, or the text that they ask for. If a name isn't valid, a second line says what it
/// looks like. If the words are no combination that the tool knows, its usage comes last, below what keeps them from being
/// one, if that is known. Returns the exit status.
fn refuse<R, E: Output>(rt: &R, tool: Tool, words: &[String], refusal: Refusal, err: &mut E) -> u8
where
    R: Print + AllocGlobal,
{
    let (is_bad_name, is_bad_combination) = (refusal.is_bad_name(), refusal.is_bad_combination());
    let mut out = WriterOutput::new(io::writer(rt));
    let status = tell_refusal(rt.alloc(), tool.name(), refusal, &mut out, err);
    if is_bad_name {
        put_line(tool, NAME_FORM, err);
    }
    if is_bad_combination {
        if let Some(misfit) = tool.misfit(rt.alloc(), words) {
            put_line(tool, misfit, err);
        }
        put_all(err, b"Usage: ");
        put_all(err, tool.usage().as_bytes());
        put_all(err, b"\n");
    }
    status
}

/// Writes a line that begins with the name of the tool.
fn put_line<E: Output>(tool: Tool, text: &str, err: &mut E) {
    put_all(err, tool.name().as_bytes());
    put_all(err, b": ");
    put_all(err, text.as_bytes());
    put_all(err, b"\n");
}
