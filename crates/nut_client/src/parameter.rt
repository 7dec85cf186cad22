//! What the command lines of the tools may hold.
ghost use Rattle.std.specs.Prelude.{◌≡◌, [], IfOk, false, fold};
ghost use Rattle.clap.specs.Words.{app_of, rule_of};
ghost use Rattle.nut_client.specs.CommandLine.{command as command_rule};
ghost use Rattle.nut_client.specs.inside.Parameters.{rule_at, with_parameter};

use clap::{Arg, ArgAction, Command};
use nut_program::VERSION;
use std::alloc::{AllocError, Global};

/// Something that a tool's command line may hold. clap's matches have it by its id.
#[derive(Clone, Copy)]
pub(crate) enum Parameter {
    /// A flag of this letter.
    Flag {
        id: &'static str,
        letter: char,
        help: &'static str,
    },
    /// An option of this letter with a value of this kind.
    Valued {
        id: &'static str,
        letter: char,
        kind: &'static str,
        help: &'static str,
    },
    /// An argument of this kind.
    Argument {
        id: &'static str,
        kind: &'static str,
        help: &'static str,
    },
}

/// The option for the user's name.
pub(crate) const USER: Parameter = Parameter::Valued {
    id: "user",
    letter: 'u',
    kind: "USER",
    help: "The name of a user in the server's upsd.users",
};

/// The option for the user's password.
pub(crate) const PASSWORD: Parameter = Parameter::Valued {
    id: "password",
    letter: 'p',
    kind: "PASS",
    help: "The password of that user, or - to read it from standard input; other users of this machine may see what stands here",
};

/// The flag to wait until the request has ended.
pub(crate) const WAIT: Parameter = Parameter::Flag {
    id: "wait",
    letter: 'w',
    help: "Wait at most 10 seconds until the UPS has done it",
};

/// The argument for the name of the UPS.
pub(crate) const NAME: Parameter = Parameter::Argument {
    id: "name",
    kind: "NAME",
    help: "The UPS, as UPS[@HOST[:PORT]]; without a host it is localhost, without a port 3493",
};

impl Parameter {
    /// Returns the argument that clap reads.
    fn arg<'a>(self, alloc: Global) -> Arg<'a>
        ensures rule { rule_of result ≡ rule_at self }
        ensures local { result.global ≡ false }
    {
        match self {
            Parameter::Flag { id, letter, help } => Arg::new(alloc, id)
                .short(letter)
                .action(ArgAction::SetTrue)
                .help(help),
            Parameter::Valued {
                id,
                letter,
                kind,
                help,
            } => Arg::new(alloc, id)
                .short(letter)
                .value_name(kind)
                .help(help),
            Parameter::Argument { id, kind, help } => {
                Arg::new(alloc, id).value_name(kind).help(help)
            }
        }
    }
}

/// Makes the command of the tool of this name, with these parameters. `about` is what its help says of the tool, and
/// `usage` the command lines that the tool knows.
pub(crate) fn tool_command<'a>(
    alloc: Global,
    name: &'a str,
    about: &'a str,
    usage: &'a str,
    parameters: &[Parameter],
) -> Result<Command<'a>, AllocError>
    ensures { IfOk result (λ c. app_of c ≡ fold with_parameter (command_rule name.entry.now []) parameters.now) }
{
    let mut command = begun(alloc, name, about, usage);
    for parameter in parameters {
        command = command.arg(parameter.arg(alloc))?;
    }
    Ok(command)
}

/// Makes the command of the tool of this name, without arguments.
fn begun<'a>(alloc: Global, name: &'a str, about: &'a str, usage: &'a str) -> Command<'a>
    ensures { app_of result ≡ command_rule name.entry.now [] }
{
    Command::new(alloc, name)
        .version(VERSION)
        .about(about)
        .override_usage(usage)
}
