//! The three tools: how their command lines are read, and how they run.
ghost use Rattle.std.specs.Prelude.{◌≡◌, Err, IfOk, Ok, ⊤, map, option_map};
ghost use Rattle.clap.specs.Words.{app_of, found_of, rows_of};
ghost use Rattle.nut_client.specs.CommandLine.{command_of, dialed, line_of, target_of, wanted_of};
ghost use Rattle.nut_client.specs.Output.{written};
ghost use Rattle.nut_client.specs.inside.Reading.{IsRead, options_view};
ghost use Rattle.nut_client.specs.Tool.{EndsOver, RunsAs};
ghost use Rattle.nut_client.specs.declared.failure.ToolFailure.TheVariants.{NoConnection};

use crate::command_line::{Options, Refusal, options_of, parse, value};
use crate::destination::Destination;
use crate::engine::{ask_server, tell, tell_refusal};
use crate::failure::ToolFailure;
use crate::output::Output;
use crate::parameter::tool_command;
use crate::stream::Stream;
use crate::wanted::Wanted;
use crate::{upsc, upscmd, upsrw};
use clap::{ArgMatches, Command};
use nut_proto::Word;
use std::alloc::{AllocError, Global};
use std::convert::AsStr;
use std::time::Clock;

/// A tool.
#[derive(Clone, Copy)]
pub enum Tool {
    /// `upsc` shows the variables of a UPS, the UPSes of a server, or the clients of a UPS.
    Upsc,
    /// `upsrw` shows the writable variables of a UPS, or sets one.
    Upsrw,
    /// `upscmd` lists the commands of a UPS, or sends it one.
    Upscmd,
}

impl Tool {
    /// Returns the name of the tool.
    pub(crate) fn name(self) -> &'static str {
        match self {
            Tool::Upsc => "upsc",
            Tool::Upsrw => "upsrw",
            Tool::Upscmd => "upscmd",
        }
    }

    /// Returns the command lines that the tool knows, without a line feed at the end.
    pub(crate) fn usage(self) -> &'static str {
        match self {
            Tool::Upsc => upsc::USAGE,
            Tool::Upsrw => upsrw::USAGE,
            Tool::Upscmd => upscmd::USAGE,
        }
    }

    /// Returns the command line that clap reads.
    fn command<'a>(self, alloc: Global) -> Result<Command<'a>, AllocError>
        ensures { IfOk result (λ c. app_of c ≡ command_of self) }
    {
        match self {
            Tool::Upsc => tool_command(alloc, "upsc", upsc::ABOUT, upsc::USAGE, &upsc::PARAMETERS),
            Tool::Upsrw => tool_command(
                alloc,
                "upsrw",
                upsrw::ABOUT,
                upsrw::USAGE,
                &upsrw::PARAMETERS,
            ),
            Tool::Upscmd => tool_command(
                alloc,
                "upscmd",
                upscmd::ABOUT,
                upscmd::USAGE,
                &upscmd::PARAMETERS,
            ),
        }
    }

    /// Returns what the options and arguments ask for. `None` if they are no combination that the tool knows.
    fn wanted_in<'a>(self, matches: &ArgMatches<'a>) -> Option<Wanted<'a>>
        ensures { result ≡ wanted_of self (rows_of (found_of matches.now)) }
    {
        match self {
            Tool::Upsc => upsc::wanted_in(matches),
            Tool::Upsrw => upsrw::wanted_in(matches),
            Tool::Upscmd => upscmd::wanted_in(matches),
        }
    }

    /// Returns what the words of the command line ask for.
    pub(crate) fn read_options<'a, W: AsStr>(
        self,
        alloc: Global,
        words: &'a [W],
    ) -> Result<Options<'a>, Refusal>
        ensures { IsRead (line_of self (map W.text words.entry.now)) result }
    {
        let matches = parse(self.command(alloc)?, words)?;
        options_of(self.wanted_in(&matches), value(&matches, "name"))
    }

    /// Returns what keeps these words, which the tool can read, from being a combination that it knows, if that is known.
    pub(crate) fn misfit<W: AsStr>(self, alloc: Global, words: &[W]) -> Option<&'static str> {
        let matches = parse(self.command(alloc).ok()?, words).ok()?;
        match self {
            Tool::Upsc => upsc::misfit(&matches),
            Tool::Upsrw | Tool::Upscmd => None,
        }
    }

    /// Returns the host and the port that the words of the command line tell the tool to connect to, if they name any.
    pub(crate) fn target<W: AsStr>(
        self,
        alloc: Global,
        words: &[W],
    ) -> Result<Option<Destination>, AllocError>
        ensures { IfOk result (λ found. option_map dialed found ≡ target_of (line_of self (map W.text words.now))) }
    {
        match self.read_options(alloc, words) {
            Ok(Options { target, .. }) => Ok(Some(Destination::of(target))),
            Err(Refusal::Failed(ToolFailure::Memory)) => Err(AllocError),
            Err(Refusal::Failed(_failure)) => Ok(None),
            Err(Refusal::Usage(_error)) => Ok(None),
        }
    }

    /// Runs the tool with the words of a command line over a connection. Returns the exit status.
    pub(crate) fn run<W: AsStr, S: Stream, O: Output, E: Output>(
        self,
        rt: &impl Clock,
        alloc: Global,
        words: &[W],
        stream: &mut S,
        out: &mut O,
        err: &mut E,
    ) -> u8
        ensures { RunsAs (line_of self (map W.text words.now))
            (EndsOver S.remaining S.taken S.has_ended stream.old stream.new) (stream.new ≡ stream.old)
            result (written O.contents O.has_failed out.old out.new) (written E.contents E.has_failed err.old err.new) }
    {
        match self.read_options(alloc, words) {
            Ok(options) => run_options(rt, alloc, options, stream, out, err),
            Err(refusal) => tell_refusal(alloc, self.name(), refusal, out, err),
        }
    }

    /// Runs the tool with the words of a command line if no connection was made. Returns the exit status.
    pub(crate) fn run_alone<W: AsStr, O: Output, E: Output>(
        self,
        alloc: Global,
        words: &[W],
        out: &mut O,
        err: &mut E,
    ) -> u8
        ensures { RunsAs (line_of self (map W.text words.now)) (λ _ printed. printed ≡ Err NoConnection) ⊤
            result (written O.contents O.has_failed out.old out.new) (written E.contents E.has_failed err.old err.new) }
    {
        match self.read_options(alloc, words) {
            Ok(_) => tell(Err(ToolFailure::NoConnection), out, err),
            Err(refusal) => tell_refusal(alloc, self.name(), refusal, out, err),
        }
    }
}

/// Runs a tool with the options of its command line over a connection. Returns the exit status.
pub(crate) fn run_options<S: Stream, O: Output, E: Output>(
    rt: &impl Clock,
    alloc: Global,
    options: Options<'_>,
    stream: &mut S,
    out: &mut O,
    err: &mut E,
) -> u8
    ensures { RunsAs (Ok (Ok (options_view options.entry)))
        (EndsOver S.remaining S.taken S.has_ended stream.old stream.new) (stream.new ≡ stream.old)
        result (written O.contents O.has_failed out.old out.new) (written E.contents E.has_failed err.old err.new) }
{
    let Options { target, wanted } = options;
    let ups = Word::new(target.ups.as_bytes());
    let printed = ask_server(rt, alloc, ups, wanted, stream);
    tell(printed, out, err)
}
