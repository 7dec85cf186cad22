//! `upsc`: the variables of a UPS, the UPSes of a server, the clients of a UPS.
ghost use Rattle.std.specs.Prelude.{◌≡◌, IfOk, map, option_map};
ghost use Rattle.clap.specs.Words.{found_of, rows_of};
ghost use Rattle.nut_client.specs.CommandLine.{dialed, line_of, target_of, upsc_wanted, wanted_of};
ghost use Rattle.nut_client.specs.Output.{written};
ghost use Rattle.nut_client.specs.Tool.{EndsBy, IsUnused, RunsAs};
ghost use Rattle.nut_client.specs.declared.tool.Tool.TheVariants.{Upsc};

use crate::command_line::{is_given, value};
use crate::destination::Destination;
use crate::output::Output;
use crate::parameter::{NAME, Parameter};
use crate::stream::Stream;
use crate::tool::Tool;
use crate::wanted::Wanted;
use clap::ArgMatches;
use nut_proto::Word;
use std::alloc::{AllocError, Global};
use std::convert::AsStr;
use std::time::Clock;

/// Runs `upsc` with these words of a command line, the program's name first, over a connection to the server, which is
/// `None` if none was made. Returns the exit status.
///
/// The output is written to `out` once the last answer has come, with status 0, and so are the help and the version. If
/// clap cannot read the command line, clap's text is written to `err`, with status 2. Any other failure, also of `out`,
/// is one line on `err`, `Error: ` and the reason, with status 2 if the words are no combination that the tool knows,
/// else 1.
pub fn run_upsc<W: AsStr, S: Stream, O: Output, E: Output>(
    rt: &impl Clock,
    alloc: Global,
    words: &[W],
    stream: Option<&mut S>,
    out: &mut O,
    err: &mut E,
) -> u8
    ensures { RunsAs (line_of Upsc (map W.text words.now))
        (EndsBy S.remaining S.taken S.has_ended stream.entry stream.exit) (IsUnused stream.entry stream.exit)
        result (written O.contents O.has_failed out.old out.new) (written E.contents E.has_failed err.old err.new) }
{
    match stream {
        Some(stream) => Tool::Upsc.run(rt, alloc, words, stream, out, err),
        None => Tool::Upsc.run_alone(alloc, words, out, err),
    }
}

/// Returns the host and the port that this command line tells `upsc` to connect to. `None` if it names none: it cannot
/// be read, is no combination that the tool knows, or has an invalid name. `AllocError` if memory cannot be allocated.
pub fn upsc_target<W: AsStr>(alloc: Global, words: &[W]) -> Result<Option<Destination>, AllocError>
    ensures { IfOk result (λ found. option_map dialed found ≡ target_of (line_of Upsc (map W.text words.now))) }
{
    Tool::Upsc.target(alloc, words)
}

/// Returns what the options and arguments ask for.
pub(crate) fn wanted_in<'a>(matches: &ArgMatches<'a>) -> Option<Wanted<'a>>
    ensures { result ≡ wanted_of Upsc (rows_of (found_of matches.now)) }
{
    wanted_by(
        is_given(matches, "names"),
        is_given(matches, "descriptions"),
        is_given(matches, "clients"),
        is_given(matches, "json"),
        value(matches, "variable"),
    )
}

/// Returns what the flags `-l`, `-L`, `-c` and `-j` ask for, with or without a variable.
fn wanted_by<'a>(
    names: bool,
    descriptions: bool,
    clients: bool,
    json: bool,
    variable: Option<&'a str>,
) -> Option<Wanted<'a>>
    ensures { result ≡ upsc_wanted names descriptions clients json (option_map (λ s. s.now) variable.entry) }
{
    match (names, descriptions, clients, json, variable) {
        (false, false, false, false, None) => Some(Wanted::Variables),
        (false, false, false, false, Some(variable)) => {
            Some(Wanted::Value(Word::new(variable.as_bytes())))
        }
        (true, false, false, false, None) => Some(Wanted::Names),
        (false, true, false, false, None) => Some(Wanted::Descriptions),
        (false, false, true, false, None) => Some(Wanted::Clients),
        (false, false, false, true, None) => Some(Wanted::Object),
        (false, false, false, true, Some(variable)) => {
            Some(Wanted::Member(Word::new(variable.as_bytes())))
        }
        _ => None,
    }
}

/// Returns what keeps options and arguments from being a combination that the tool knows, if that is known.
pub(crate) fn misfit(matches: &ArgMatches<'_>) -> Option<&'static str> {
    let lists = ["names", "descriptions", "clients"];
    if is_given(matches, "json") && lists.iter().any(|id| is_given(matches, id)) {
        return Some("-j does not combine with -l, -L or -c");
    }
    None
}

/// What the tool does.
pub(crate) const ABOUT: &str = "Shows the variables of a UPS, or the UPSes of a server";

/// The command lines that the tool knows.
pub(crate) const USAGE: &str =
    "upsc [-j] NAME [VAR]\n       upsc -l | -L [HOST[:PORT]]\n       upsc -c NAME";

/// What the command line may hold.
pub(crate) const PARAMETERS: [Parameter; 6] = [
    Parameter::Flag {
        id: "names",
        letter: 'l',
        help: "List the names of the server's UPSes; NAME is then HOST[:PORT], and may be left out",
    },
    Parameter::Flag {
        id: "descriptions",
        letter: 'L',
        help: "List the server's UPSes with their descriptions; NAME is then HOST[:PORT], and may be left out",
    },
    Parameter::Flag {
        id: "clients",
        letter: 'c',
        help: "List the addresses of the clients that are logged in to the UPS",
    },
    Parameter::Flag {
        id: "json",
        letter: 'j',
        help: "Print the variables as one JSON object of names and values",
    },
    NAME,
    Parameter::Argument {
        id: "variable",
        kind: "VAR",
        help: "The variable whose value is shown; without it all variables are",
    },
];
