//! `upsrw`: the writable variables of a UPS, and setting one.
ghost use Rattle.std.specs.Prelude.{◌≡◌, IfOk, map, option_map};
ghost use Rattle.clap.specs.Words.{found_of, rows_of};
ghost use Rattle.nut_client.specs.CommandLine.{dialed, line_of, target_of, upsrw_wanted, wanted_of};
ghost use Rattle.nut_client.specs.Output.{written};
ghost use Rattle.nut_client.specs.Tool.{EndsBy, IsUnused, RunsAs};
ghost use Rattle.nut_client.specs.declared.tool.Tool.TheVariants.{Upsrw};

use crate::command_line::{deed_by, is_given, parted_at_equals, value};
use crate::destination::Destination;
use crate::output::Output;
use crate::parameter::{NAME, PASSWORD, Parameter, USER, WAIT};
use crate::stream::Stream;
use crate::tool::Tool;
use crate::wanted::{UpsDeed, Wanted};
use clap::ArgMatches;
use nut_proto::Word;
use std::alloc::{AllocError, Global};
use std::convert::AsStr;
use std::time::Clock;

/// Runs `upsrw` with these words of a command line, the program's name first, over a connection to the server, which is
/// `None` if none was made. Returns the exit status, as [`run_upsc`](crate::run_upsc) does.
pub fn run_upsrw<W: AsStr, S: Stream, O: Output, E: Output>(
    rt: &impl Clock,
    alloc: Global,
    words: &[W],
    stream: Option<&mut S>,
    out: &mut O,
    err: &mut E,
) -> u8
    ensures { RunsAs (line_of Upsrw (map W.text words.now))
        (EndsBy S.remaining S.taken S.has_ended stream.entry stream.exit) (IsUnused stream.entry stream.exit)
        result (written O.contents O.has_failed out.old out.new) (written E.contents E.has_failed err.old err.new) }
{
    match stream {
        Some(stream) => Tool::Upsrw.run(rt, alloc, words, stream, out, err),
        None => Tool::Upsrw.run_alone(alloc, words, out, err),
    }
}

/// Returns the host and the port that this command line tells `upsrw` to connect to. `None` if it names none: it cannot
/// be read, is no combination that the tool knows, or has an invalid name. `AllocError` if memory cannot be allocated.
pub fn upsrw_target<W: AsStr>(alloc: Global, words: &[W]) -> Result<Option<Destination>, AllocError>
    ensures { IfOk result (λ found. option_map dialed found ≡ target_of (line_of Upsrw (map W.text words.now))) }
{
    Tool::Upsrw.target(alloc, words)
}

/// Returns what the options and arguments ask for.
pub(crate) fn wanted_in<'a>(matches: &ArgMatches<'a>) -> Option<Wanted<'a>>
    ensures { result ≡ wanted_of Upsrw (rows_of (found_of matches.now)) }
{
    wanted_by(
        value(matches, "setting"),
        is_given(matches, "wait"),
        value(matches, "user"),
        value(matches, "password"),
    )
}

/// Returns what the options ask for. A setting needs a user and a password, and these and the flag to wait are allowed
/// only with a setting.
fn wanted_by<'a>(
    setting: Option<&'a str>,
    wait: bool,
    user: Option<&'a str>,
    password: Option<&'a str>,
) -> Option<Wanted<'a>>
    ensures { result ≡ upsrw_wanted (option_map (λ s. s.now) setting.entry) wait
        (option_map (λ s. s.now) user.entry) (option_map (λ s. s.now) password.entry) }
{
    match (setting, wait, user, password) {
        (None, false, None, None) => Some(Wanted::Settings),
        (Some(setting), wait, Some(user), Some(password)) => {
            let (variable, value) = parted_at_equals(setting.as_bytes())?;
            let deed = UpsDeed::Set(Word::new(variable), Word::new(value));
            Some(deed_by(user, password, deed, wait))
        }
        _ => None,
    }
}

/// What the tool does.
pub(crate) const ABOUT: &str = "Shows the variables of a UPS that may be set, or sets one";

/// The command lines that the tool knows.
pub(crate) const USAGE: &str = "upsrw NAME\n       upsrw [-w] -s VAR=VALUE -u USER -p PASS NAME";

/// What the command line may hold.
pub(crate) const PARAMETERS: [Parameter; 5] = [
    Parameter::Valued {
        id: "setting",
        letter: 's',
        kind: "VAR=VALUE",
        help: "Set the variable VAR to VALUE, parted at the first '='; needs -u and -p",
    },
    WAIT,
    USER,
    PASSWORD,
    NAME,
];
