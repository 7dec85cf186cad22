//! Reads what a client's line asks for.
ghost use Rattle.std.specs.Prelude.{◌≡◌};
ghost use Rattle.nut_proto.specs.Forms.{meaning};
ghost use Rattle.nut_proto.specs.Requests.{inst_cmd, request_by};

use crate::cursor::Cursor;
use crate::keyword::Command;
use crate::refusal::Refusal;
use crate::request::{ListQuery, Request};
use nut_words::Words;

/// Reads the request that the words of a client's line make (RFC 9271, section 4; NUT developer guide, 9.4 to 9.15).
/// Allocates no memory.
///
/// Command words are compared without regard to ASCII case, and the number of words must match exactly. Names of UPSes,
/// variables and commands are not looked up here.
///
/// # Errors
///
/// [`Refusal::UnknownCommand`] for an unknown first word. [`Refusal::InvalidArgument`] for a line without words, and if
/// the words fit no form of the command. The same if a user name or password isn't 1 to
/// [`CREDENTIAL_MAX`](nut_words::CREDENTIAL_MAX) bytes, if a tracking number isn't one to nine digits or begins with 0,
/// or if SET TRACKING has another word than ON or OFF.
#[tactic(auto, unfolding(crate::specs::Forms::meaning))]
pub fn read<'a>(words: &'a Words<'_>) -> Result<Request<'a>, Refusal>
    ensures { result ≡ meaning words.now }
{
    let mut rest = Cursor::new(words);
    let Some(first) = rest.next() else {
        return Err(Refusal::InvalidArgument);
    };
    let Some(command) = Command::of(first.as_bytes()) else {
        return Err(Refusal::UnknownCommand);
    };
    request_by(command, rest).ok_or(Refusal::InvalidArgument)
}

/// Returns the request that a command and the words after it make, if they make one.
fn request_by<'a>(command: Command, rest: Cursor<'a, '_>) -> Option<Request<'a>>
    ensures { result ≡ request_by command rest.entry }
{
    match command {
        Command::Get => Request::get(rest),
        Command::List => Some(Request::List(ListQuery::read(rest)?)),
        Command::Set => Request::set(rest),
        Command::InstCmd => inst_cmd(rest),
        Command::Username => Some(Request::Username {
            name: rest.credential()?,
        }),
        Command::Password => Some(Request::Password {
            password: rest.credential()?,
        }),
        Command::Login => Some(Request::Login { ups: rest.one()? }),
        Command::Primary => Some(Request::Primary { ups: rest.one()? }),
        Command::Fsd => Some(Request::Fsd { ups: rest.one()? }),
        Command::Logout => rest.end().and(Some(Request::Logout)),
        Command::Ver => rest.end().and(Some(Request::Ver)),
        Command::NetVer => rest.end().and(Some(Request::NetVer)),
        Command::Help => rest.end().and(Some(Request::Help)),
        Command::StartTls => rest.end().and(Some(Request::StartTls)),
    }
}

fn inst_cmd<'a>(mut rest: Cursor<'a, '_>) -> Option<Request<'a>>
    ensures { result ≡ inst_cmd rest.entry }
{
    let ups = rest.next()?;
    let command = rest.next()?;
    let parameter = rest.optional()?;
    Some(Request::InstCmd {
        ups,
        command,
        parameter,
    })
}
