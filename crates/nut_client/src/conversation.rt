//! Queries over a connection, one after the other.
ghost use Rattle.std.specs.Prelude.{◌≡◌, ◌<◌, ◌+◌, ◌∷◌, [], List, ℕ, IfErr, OnOk, false, min, true};
ghost use Rattle.std.specs.Io.KnownBytes.{append_known};
ghost use Rattle.nut_client.specs.Script.{Asks, Script, on_done, on_number, on_rows, on_words};
ghost use Rattle.nut_client.specs.inside.Between.{Goes, point};
ghost use Rattle.nut_client.specs.inside.Conversation.{Awaits, Hears, Sends};
ghost use Rattle.nut_client.specs.inside.Unread.{steps_left};
ghost use Rattle.nut_link.specs.Link.{fresh};
ghost use Rattle.nut_link.specs.declared.outcome.Outcome.{Outcome as Came};
ghost use Rattle.nut_proto.specs.Requests.{request_line};
ghost use Rattle.nut_proto.specs.declared.request.Request.TheVariants.{List as Lists};
ghost use Rattle.nut_client.specs.declared.failure.ToolFailure.TheVariants.{ConnectionLost};

use crate::answers::{done_of, number_of, rows_of, words_of};
use crate::failure::ToolFailure;
use crate::stream::{Moved, Stream};
use crate::unread::Unread;
use nut_link::{Fields, Link, Outcome, Rows};
use nut_proto::{ListQuery, Request};
use nut_words::LINE_MAX;
use std::alloc::Global;

/// Queries over a connection, one after the other, each over a link of its own. Bytes that were read after an answer are
/// kept, and fed to the link of the next query once that was sent.
#[derive(Drop)]
pub(crate) struct Conversation {
    unread: Unread,
    pub alloc: Global,
}

impl Conversation {
    /// Makes a conversation in which nothing has been said.
    pub(crate) fn new(alloc: Global) -> Self
        ensures { result.unread ≡ [] }
    {
        Conversation {
            unread: Unread::new(),
            alloc,
        }
    }

    /// Sends a query and waits for its answer.
    pub(crate) fn ask<S: Stream>(
        &mut self,
        stream: &mut S,
        request: &Request<'_>,
    ) -> Result<Outcome, ToolFailure>
        ensures goes { (next : Came → Script) → Goes (Asks request.now next) next result
            (point S.remaining S.taken S.has_ended self.old.unread stream.old)
            (point S.remaining S.taken S.has_ended self.new.unread stream.new) }
        ensures asked { OnOk result (S.taken stream.new ≡ append_known (S.taken stream.old) (request_line request.now)) }
    {
        let mut link = Link::new(self.alloc);
        ask_over(stream, &mut link, &mut self.unread, request)
    }

    /// Asks a LIST, and returns its rows.
    pub(crate) fn rows<S: Stream>(
        &mut self,
        stream: &mut S,
        query: ListQuery<'_>,
    ) -> Result<Rows, ToolFailure>
        ensures { (next : List (List (List ℕ)) → Script) → Goes (Asks (Lists query.entry) (on_rows next)) next result
            (point S.remaining S.taken S.has_ended self.old.unread stream.old)
            (point S.remaining S.taken S.has_ended self.new.unread stream.new) }
    {
        let outcome = self.ask(stream, &Request::List(query))?;
        rows_of(outcome)
    }

    /// Asks a GET, and returns the words of its answer.
    pub(crate) fn words<S: Stream>(
        &mut self,
        stream: &mut S,
        request: &Request<'_>,
    ) -> Result<Fields, ToolFailure>
        ensures { (next : List (List ℕ) → Script) → Goes (Asks request.now (on_words next)) next result
            (point S.remaining S.taken S.has_ended self.old.unread stream.old)
            (point S.remaining S.taken S.has_ended self.new.unread stream.new) }
    {
        let outcome = self.ask(stream, request)?;
        words_of(outcome)
    }

    /// Asks what is tracked, and returns its number.
    pub(crate) fn number<S: Stream>(
        &mut self,
        stream: &mut S,
        request: &Request<'_>,
    ) -> Result<u32, ToolFailure>
        ensures { (next : ℕ → Script) → Goes (Asks request.now (on_number next)) next result
            (point S.remaining S.taken S.has_ended self.old.unread stream.old)
            (point S.remaining S.taken S.has_ended self.new.unread stream.new) }
    {
        let outcome = self.ask(stream, request)?;
        number_of(outcome)
    }

    /// Asks what is answered `OK`.
    pub(crate) fn done<S: Stream>(
        &mut self,
        stream: &mut S,
        request: &Request<'_>,
    ) -> Result<(), ToolFailure>
        ensures goes { (next : Script) → Goes (Asks request.now (on_done next)) (λ _. next) result
            (point S.remaining S.taken S.has_ended self.old.unread stream.old)
            (point S.remaining S.taken S.has_ended self.new.unread stream.new) }
        ensures asked { OnOk result (S.taken stream.new ≡ append_known (S.taken stream.old) (request_line request.now)) }
    {
        let outcome = self.ask(stream, request)?;
        done_of(outcome)
    }
}

/// Sends a query over a link on which nothing was said, and waits for its answer. The link is fed no more than a line at a
/// time.
fn ask_over<S: Stream>(
    stream: &mut S,
    link: &mut Link,
    unread: &mut Unread,
    request: &Request<'_>,
) -> Result<Outcome, ToolFailure>
    requires { link.old ≡ fresh }
    ensures goes { (next : Came → Script) → Goes (Asks request.now next) next result
        (point S.remaining S.taken S.has_ended unread.old stream.old)
        (point S.remaining S.taken S.has_ended unread.new stream.new) }
    ensures asked { OnOk result (S.taken stream.new ≡ append_known (S.taken stream.old) (request_line request.now)) }
{
    if let Err(failure) = send(stream, link, request) {
        return Err(failure);
    }
    let mut length = 0usize;
    loop {
        match hear(stream, link, unread, &mut length) {
            Ok(Some(outcome)) => return Ok(outcome),
            Ok(None) => {}
            Err(failure) => return Err(failure),
        }
    }
}

/// Sends all bytes of a query over a link on which nothing was said.
#[tactic(auto, using(std::proofs::lemmas::Grind::common_steps))]
fn send<S: Stream>(
    stream: &mut S,
    link: &mut Link,
    request: &Request<'_>,
) -> Result<(), ToolFailure>
    requires { link.old ≡ fresh }
    ensures sends { Sends request.now result link.new (S.taken stream.old) (S.taken stream.new) (S.has_ended stream.new) }
    ensures remaining { S.remaining stream.new ≡ S.remaining stream.old }
{
    link.ask(request)?;
    loop {
        if link.waiting().is_empty() {
            break;
        }
        match stream.write(link.waiting()) {
            Moved::Bytes(n) => link.took(n).unwrap(),
            Moved::Again => {}
            Moved::Lost => return Err(ToolFailure::ConnectionLost),
        }
    }
    Ok(())
}

/// Feeds the link the next part of a line, and takes out the answer if it is complete. `length` is how many bytes of an
/// unfinished line were fed. A line that is too long is a bad answer at once: it may never end.
fn hear<S: Stream>(
    stream: &mut S,
    link: &mut Link,
    unread: &mut Unread,
    length: &mut usize,
) -> Result<Option<Outcome>, ToolFailure>
    requires { Awaits link.old length.old }
    ensures hears { Hears link.old (point S.remaining S.taken S.has_ended unread.old stream.old) result
        link.new length.new (point S.remaining S.taken S.has_ended unread.new stream.new) }
    ensures lowers { OnOk result (steps_left (S.calls_left stream.new) unread.new < steps_left (S.calls_left stream.old) unread.old) }
{
    if !unread.fill(stream) {
        return Err(ToolFailure::ConnectionLost);
    }
    let (part, is_ended) = unread.line_part();
    let used = part.len();
    let fed = link.feed(part);
    unread.take(used);
    if let Err(fault) = fed {
        return Err(ToolFailure::from(fault));
    }
    *length = length_after(*length, used, is_ended);
    if *length > LINE_MAX {
        return Err(ToolFailure::BadAnswer);
    }
    Ok(link.answer())
}

/// Returns how many bytes of an unfinished line were heard after a part of so many bytes, by whether it ends its line.
fn length_after(length: usize, used: usize, is_ended: bool) -> usize
    ensures ended { is_ended ≡ true → result ≡ 0 }
    ensures unended { is_ended ≡ false → result ≡ min (length + used) usize.MAX }
{
    if is_ended {
        0
    } else {
        length.saturating_add(used)
    }
}
