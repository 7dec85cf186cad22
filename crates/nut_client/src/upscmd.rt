//! `upscmd`: the commands of a UPS, and sending it one.
ghost use Rattle.std.specs.Prelude.{◌≡◌, IfOk, map, option_map};
ghost use Rattle.clap.specs.Words.{found_of, rows_of};
ghost use Rattle.nut_client.specs.CommandLine.{dialed, line_of, target_of, upscmd_wanted, wanted_of};
ghost use Rattle.nut_client.specs.Output.{written};
ghost use Rattle.nut_client.specs.Tool.{EndsBy, IsUnused, RunsAs};
ghost use Rattle.nut_client.specs.declared.tool.Tool.TheVariants.{Upscmd};

use crate::command_line::{deed_by, is_given, value};
use crate::destination::Destination;
use crate::output::Output;
use crate::parameter::{NAME, PASSWORD, Parameter, USER, WAIT};
use crate::stream::Stream;
use crate::tool::Tool;
use crate::wanted::{UpsDeed, Wanted};
use clap::ArgMatches;
use nut_proto::Word;
use std::alloc::{AllocError, Global};
use std::convert::AsStr;
use std::time::Clock;

/// Runs `upscmd` with these words of a command line, the program's name first, over a connection to the server, which
/// is `None` if none was made. Returns the exit status, as [`run_upsc`](crate::run_upsc) does.
pub fn run_upscmd<W: AsStr, S: Stream, O: Output, E: Output>(
    rt: &impl Clock,
    alloc: Global,
    words: &[W],
    stream: Option<&mut S>,
    out: &mut O,
    err: &mut E,
) -> u8
    ensures { RunsAs (line_of Upscmd (map W.text words.now))
        (EndsBy S.remaining S.taken S.has_ended stream.entry stream.exit) (IsUnused stream.entry stream.exit)
        result (written O.contents O.has_failed out.old out.new) (written E.contents E.has_failed err.old err.new) }
{
    match stream {
        Some(stream) => Tool::Upscmd.run(rt, alloc, words, stream, out, err),
        None => Tool::Upscmd.run_alone(alloc, words, out, err),
    }
}

/// Returns the host and the port that this command line tells `upscmd` to connect to. `None` if it names none: it
/// cannot be read, is no combination that the tool knows, or has an invalid name. `AllocError` if memory cannot be
/// allocated.
pub fn upscmd_target<W: AsStr>(
    alloc: Global,
    words: &[W],
) -> Result<Option<Destination>, AllocError>
    ensures { IfOk result (λ found. option_map dialed found ≡ target_of (line_of Upscmd (map W.text words.now))) }
{
    Tool::Upscmd.target(alloc, words)
}

/// Returns what the options and arguments ask for.
pub(crate) fn wanted_in<'a>(matches: &ArgMatches<'a>) -> Option<Wanted<'a>>
    ensures { result ≡ wanted_of Upscmd (rows_of (found_of matches.now)) }
{
    wanted_by(
        is_given(matches, "list"),
        is_given(matches, "wait"),
        value(matches, "command"),
        value(matches, "parameter"),
        value(matches, "user"),
        value(matches, "password"),
    )
}

/// Returns what the options ask for. A list takes neither a user nor a command nor the flag to wait. A command, with a
/// parameter or without one, needs a user and a password.
fn wanted_by<'a>(
    list: bool,
    wait: bool,
    command: Option<&'a str>,
    parameter: Option<&'a str>,
    user: Option<&'a str>,
    password: Option<&'a str>,
) -> Option<Wanted<'a>>
    ensures { result ≡ upscmd_wanted list wait (option_map (λ s. s.now) command.entry) (option_map (λ s. s.now) parameter.entry)
        (option_map (λ s. s.now) user.entry) (option_map (λ s. s.now) password.entry) }
{
    match (list, wait, command, parameter, user, password) {
        (true, false, None, None, None, None) => Some(Wanted::Commands),
        (false, wait, Some(command), parameter, Some(user), Some(password)) => {
            let parameter = parameter.map(|text| Word::new(text.as_bytes()));
            let deed = UpsDeed::Command(Word::new(command.as_bytes()), parameter);
            Some(deed_by(user, password, deed, wait))
        }
        _ => None,
    }
}

/// What the tool does.
pub(crate) const ABOUT: &str = "Lists the commands of a UPS, or has it do one";

/// The command lines that the tool knows.
pub(crate) const USAGE: &str =
    "upscmd -l NAME\n       upscmd [-w] -u USER -p PASS NAME CMD [PARAM]";

/// What the command line may hold.
pub(crate) const PARAMETERS: [Parameter; 7] = [
    Parameter::Flag {
        id: "list",
        letter: 'l',
        help: "List the commands of the UPS with their descriptions",
    },
    WAIT,
    USER,
    PASSWORD,
    NAME,
    Parameter::Argument {
        id: "command",
        kind: "CMD",
        help: "The command that the UPS is to do; needs -u and -p",
    },
    Parameter::Argument {
        id: "parameter",
        kind: "PARAM",
        help: "What the command is told, if it takes a parameter",
    },
];
