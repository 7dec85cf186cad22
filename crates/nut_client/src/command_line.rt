//! What the command lines of the three tools share.
ghost use Rattle.std.specs.Prelude.{◌≡◌, ◌==◌, ◌<◌, IfSome, length, map, option_map, position, true};
ghost use Rattle.clap.specs.Words.{app_of, first_of, found_of, is_simple_and_free, rows_of};
ghost use Rattle.nut_conf.specs.Target.{parted as parted_at};
ghost use Rattle.nut_client.specs.CommandLine.{is_given as given, names_server as server_named, options_of as options_meant, until as until_meant};
ghost use Rattle.nut_client.specs.inside.Reading.{AreOptions, IsReadBy, IsRefusalOf};
ghost use Rattle.nut_client.specs.declared.command_line.Refusal.TheVariants.{Failed};
ghost use Rattle.nut_client.specs.declared.failure.ToolFailure.TheVariants.{BadArguments, BadName, Memory};
ghost use Rattle.nut_client.specs.declared.wanted.Wanted.TheVariants.{Does};

use crate::destination::{read_server, read_target};
use crate::failure::ToolFailure;
use crate::wanted::{Until, UpsDeed, Wanted};
use clap::{ArgMatches, Command};
use nut_conf::Target;
use nut_proto::Word;
use std::alloc::AllocError;
use std::convert::AsStr;

/// The options of a command line that was read.
#[derive(Drop)]
pub(crate) struct Options<'a> {
    pub target: Target,
    pub wanted: Wanted<'a>,
}

/// Why a command line gives no options.
#[derive(Drop)]
pub(crate) enum Refusal {
    /// It cannot be read, or asks for the help or the version. clap has the text to print.
    Usage(clap::Error),
    /// It was read, and this is wrong with it.
    Failed(ToolFailure),
}

impl Refusal {
    /// Whether the words were read, but the name of the UPS, its host or its port isn't valid.
    pub fn is_bad_name(&self) -> bool
        ensures { result ≡ true → self.now ≡ Failed BadName }
    {
        matches!(self, Refusal::Failed(ToolFailure::BadName))
    }

    /// Whether the words were read, but are no combination that the tool knows.
    pub fn is_bad_combination(&self) -> bool
        ensures { result ≡ true → self.now ≡ Failed BadArguments }
    {
        matches!(self, Refusal::Failed(ToolFailure::BadArguments))
    }
}

impl From<clap::Error> for Refusal {
    ghost from_gives = { IsRefusalOf };

    fn from(error: clap::Error) -> Self {
        if error.kind() == clap::error::ErrorKind::OutOfMemory {
            Refusal::Failed(ToolFailure::Memory)
        } else {
            Refusal::Usage(error)
        }
    }
}

impl From<AllocError> for Refusal {
    ghost from_gives = { λ _ refusal. refusal ≡ Failed Memory };

    fn from(_: AllocError) -> Self {
        Refusal::Failed(ToolFailure::Memory)
    }
}

impl From<ToolFailure> for Refusal {
    ghost from_gives = { λ failure refusal. refusal ≡ Failed failure };

    fn from(failure: ToolFailure) -> Self {
        Refusal::Failed(failure)
    }
}

/// Returns clap's matches for the words.
pub(crate) fn parse<'a, W: AsStr>(
    command: Command<'a>,
    words: &'a [W],
) -> Result<ArgMatches<'a>, Refusal>
    ensures { is_simple_and_free (app_of command.entry) ≡ true
        → IsReadBy (app_of command.entry) (map W.text words.entry.now) result }
{
    let matches = command.try_get_matches_from(words)?;
    Ok(matches)
}

/// Returns the value of an option or of an argument.
pub(crate) fn value<'a>(matches: &ArgMatches<'a>, id: &str) -> Option<&'a str>
    ensures { option_map (λ s. s.now) result ≡ first_of id.now (rows_of (found_of matches.now)) }
{
    matches.get_str(id)
}

/// Whether a flag was given.
pub(crate) fn is_given(matches: &ArgMatches<'_>, id: &str) -> bool
    ensures { result ≡ given id.now (rows_of (found_of matches.now)) }
{
    match value(matches, id) {
        Some(text) => text == "true",
        None => false,
    }
}

/// Whether these options name a server and no UPS.
fn names_server(wanted: &Wanted<'_>) -> bool
    ensures { result ≡ server_named wanted.now }
{
    matches!(wanted, Wanted::Names | Wanted::Descriptions)
}

/// Returns the options for what is wanted of the UPS or the server of this name.
#[tactic(auto, using(std::proofs::lemmas::Grind::common_steps))]
pub(crate) fn options_of<'a>(
    wanted: Option<Wanted<'a>>,
    name: Option<&str>,
) -> Result<Options<'a>, Refusal>
    ensures { AreOptions (options_meant wanted.entry (option_map (λ s. s.now) name.entry)) result }
{
    let Some(wanted) = wanted else {
        return Err(Refusal::Failed(ToolFailure::BadArguments));
    };
    let target = if names_server(&wanted) {
        read_server(name)?
    } else if let Some(name) = name {
        read_target(name.as_bytes())?
    } else {
        return Err(Refusal::Failed(ToolFailure::BadArguments));
    };
    Ok(Options { target, wanted })
}

/// Returns the place of the first `=`.
fn place_of_equals(bytes: &[u8]) -> Option<usize>
    ensures place { result ≡ position (λ b. b == 61) bytes.now }
    ensures within { IfSome result (λ at. at < length bytes.now) }
{
    bytes.iter().position(|b| *b == b'=')
}

/// Returns the bytes before and after the first `=`.
pub(crate) fn parted_at_equals(bytes: &[u8]) -> Option<(&[u8], &[u8])>
    ensures { option_map (λ p. (p.0.now, p.1.now)) result ≡ parted_at 61 bytes.now }
{
    match place_of_equals(bytes) {
        Some(at) => Some((&bytes[..at], &bytes[at + 1..])),
        None => None,
    }
}

/// Returns a deed for the user of this name and password, and how long a tool stays, by whether the flag to wait was given.
pub(crate) fn deed_by<'a>(
    user: &'a str,
    password: &'a str,
    deed: UpsDeed<'a>,
    wait: bool,
) -> Wanted<'a>
    ensures { result ≡ Does user.entry.now password.entry.now deed.entry (until_meant wait) }
{
    Wanted::Does(
        Word::new(user.as_bytes()),
        Word::new(password.as_bytes()),
        deed,
        if wait { Until::Ended } else { Until::Accepted },
    )
}
