//! Forcing the shutdown of a UPS by hand.
ghost use Rattle.std.specs.Prelude.{◌≡◌, [], IfErr, IfOk};
ghost use Rattle.std.specs.Io.KnownBytes.{append_known};
ghost use Rattle.nut_client.specs.Forcing.{forcing_queries, in_turn, login_queries, query_lines, user_queries, without_text};
ghost use Rattle.nut_client.specs.Script.{Prints};
ghost use Rattle.nut_client.specs.Tool.{Ends};
ghost use Rattle.nut_client.specs.inside.Between.{Goes, point};
ghost use Rattle.nut_client.specs.declared.failure.ToolFailure.TheVariants.{ConnectionLost};

use crate::conversation::Conversation;
use crate::failure::ToolFailure;
use crate::stream::Stream;
use nut_proto::{Request, Word};
use std::alloc::Global;

/// Forces the shutdown of the UPS of this name, as this user: asks USERNAME, PASSWORD and FSD, each once the query before it
/// was answered `OK`. It doesn't log in, since a primary that waits for other machines would count it.
///
/// # Errors
///
/// `Refused` with the name of the error if the server refuses a query; `BadAnswer` if a line doesn't answer the query, or
/// has more than [`LINE_MAX`](nut_words::LINE_MAX) bytes already; `BadQuery` if a query isn't writable; `ConnectionLost`
/// if the connection ends or fails before the last answer: if FSD was sent, the server may have accepted it; `Memory` if
/// memory cannot be allocated.
pub fn force_shutdown<S: Stream>(
    alloc: Global,
    ups: Word<'_>,
    user: Word<'_>,
    password: Word<'_>,
    stream: &mut S,
) -> Result<(), ToolFailure>
    ensures ends { Ends (in_turn (forcing_queries ups.entry user.entry password.entry)) (without_text result)
        (S.remaining stream.old) (S.remaining stream.new) (S.taken stream.old) (S.taken stream.new) }
    ensures asked { IfOk result (λ _. S.taken stream.new
        ≡ append_known (S.taken stream.old) (query_lines (forcing_queries ups.entry user.entry password.entry))) }
    ensures lost { IfErr result (λ failure. failure ≡ ConnectionLost → S.has_ended stream.new) }
{
    ask_as_user(alloc, user, password, Request::Fsd { ups }, stream)
}

/// Logs in to the UPS of this name, as this user: asks USERNAME, PASSWORD and LOGIN, each once the query before it was
/// answered `OK`. The login lasts until the connection is closed.
///
/// # Errors
///
/// As for [`force_shutdown`].
pub fn log_in<S: Stream>(
    alloc: Global,
    ups: Word<'_>,
    user: Word<'_>,
    password: Word<'_>,
    stream: &mut S,
) -> Result<(), ToolFailure>
    ensures ends { Ends (in_turn (login_queries ups.entry user.entry password.entry)) (without_text result)
        (S.remaining stream.old) (S.remaining stream.new) (S.taken stream.old) (S.taken stream.new) }
    ensures asked { IfOk result (λ _. S.taken stream.new
        ≡ append_known (S.taken stream.old) (query_lines (login_queries ups.entry user.entry password.entry))) }
    ensures lost { IfErr result (λ failure. failure ≡ ConnectionLost → S.has_ended stream.new) }
{
    ask_as_user(alloc, user, password, Request::Login { ups }, stream)
}

/// Asks USERNAME and PASSWORD for this user, and then this query, each once the query before it was answered `OK`.
fn ask_as_user<S: Stream>(
    alloc: Global,
    user: Word<'_>,
    password: Word<'_>,
    last: Request<'_>,
    stream: &mut S,
) -> Result<(), ToolFailure>
    ensures ends { Ends (in_turn (user_queries user.entry password.entry last.entry)) (without_text result)
        (S.remaining stream.old) (S.remaining stream.new) (S.taken stream.old) (S.taken stream.new) }
    ensures asked { IfOk result (λ _. S.taken stream.new
        ≡ append_known (S.taken stream.old) (query_lines (user_queries user.entry password.entry last.entry))) }
    ensures lost { IfErr result (λ failure. failure ≡ ConnectionLost → S.has_ended stream.new) }
{
    let mut conversation = Conversation::new(alloc);
    let queries = [
        Request::Username { name: user },
        Request::Password { password },
        last,
    ];
    ask_in_turn(&mut conversation, stream, &queries)
}

/// Asks these queries in turn, each once the one before it was answered `OK`.
fn ask_in_turn<S: Stream>(
    conversation: &mut Conversation,
    stream: &mut S,
    queries: &[Request<'_>],
) -> Result<(), ToolFailure>
    ensures goes { Goes (in_turn queries.now) (λ _. Prints []) result
        (point S.remaining S.taken S.has_ended conversation.old.unread stream.old)
        (point S.remaining S.taken S.has_ended conversation.new.unread stream.new) }
    ensures asked { IfOk result (λ _. S.taken stream.new ≡ append_known (S.taken stream.old) (query_lines queries.now)) }
{
    for query in queries {
        conversation.done(stream, query)?;
    }
    Ok(())
}
