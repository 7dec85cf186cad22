//! The answer that a query expects.
ghost use Rattle.std.specs.Prelude.{◌≡◌, ◌≤◌, [], IsTrue, false, drop, length};
ghost use Rattle.std.specs.List.{list_any};
ghost use Rattle.nut_words.specs.Quoting.{texts};
ghost use Rattle.nut_proto.specs.Lines.{message_words};
ghost use Rattle.nut_proto.specs.Requests.{query_parts};
ghost use Rattle.nut_proto.specs.declared.answer.Answer.TheVariants as answers;
ghost use Rattle.nut_link.specs.inside.Parts.{Gives};
ghost use Rattle.nut_link.specs.Matching.{expected, first, heading_of, listing, has_more, is_line, is_long, is_numbered};

use crate::copied::Fields;
use crate::fault::LinkFault;
use crate::heading::Heading;
use crate::outcome::Outcome;
use AnswerKind::{Line, Listing};
use nut_proto::{ListQuery, Request, Rest, decimal, tracking_number};
use nut_words::is_natural;
use std::alloc::Global;

/// How many words follow those of the query in the answer to a GET.
#[derive(Clone, Copy)]
pub enum More {
    /// Exactly one.
    One,
    /// Exactly one, of 1 to 9 digits.
    Number,
    /// One or more.
    OneOrMore,
}

/// The kind of answer that a query expects, unless it is refused.
#[derive(Clone, Copy)]
pub enum AnswerKind {
    /// `OK`, whatever follows.
    Success,
    /// `OK`, whatever follows. If `TRACKING` and a number follow, the number is what the server said.
    NumberedSuccess,
    /// A line that begins with the words of the heading and has further words.
    Line(More),
    /// Any line but `OK`, a refusal, and the beginning and the end of a list.
    AnyLine,
    /// A list whose first and last line have the words of the heading; each row begins with them and has this many further
    /// words.
    Listing(u8),
    /// Only a refusal.
    Refusal,
}

/// The answer that a query expects: its kind, and the words that it repeats.
#[derive(Drop)]
pub struct ExpectedAnswer {
    pub kind: AnswerKind,
    pub heading: Heading,
}

impl More {
    /// Whether the words from the place `start` on are as many as there have to be, and of the right kind.
    fn fits(self, words: &Rest<'_>, start: usize) -> bool
        ensures { result ≡ has_more self (drop start words.now) }
    {
        let count = words.len().saturating_sub(start);
        match self {
            More::One => count == 1,
            More::Number => count == 1 && is_natural(words.get(start)),
            More::OneOrMore => 1 <= count,
        }
    }
}

/// Whether a line's words are those of the heading and further ones that fit.
fn is_line(heading: &Heading, more: More, words: &Rest<'_>) -> bool
    ensures { result ≡ is_line heading.now more words.now }
{
    heading.begins(words) && more.fits(words, heading.len())
}

/// Whether the words behind `OK` are `TRACKING` and a number.
fn is_numbered(words: &Rest<'_>) -> bool
    ensures { result ≡ is_numbered words.now }
{
    words.len() == 2
        && words.get(0) == b"TRACKING".as_slice()
        && tracking_number(words.get(1)).is_some()
}

impl ExpectedAnswer {
    /// Returns what nothing is expected by yet.
    pub(crate) fn empty() -> ExpectedAnswer {
        ExpectedAnswer {
            kind: AnswerKind::Refusal,
            heading: Heading::empty(),
        }
    }

    /// Becomes what a request expects. Returns false only if a word of it that an answer repeats is longer than a line may
    /// be. Takes no memory.
    pub(crate) fn set(&mut self, request: &Request<'_>) -> bool
        ensures set { IsTrue result → self.new ≡ expected request.now }
        ensures long { result ≡ false → IsTrue (list_any is_long (heading_of request.now)) }
    {
        match request {
            Request::GetNumLogins { ups } => {
                self.expect(Line(More::Number), &[b"NUMLOGINS", ups.as_bytes()])
            }
            Request::GetUpsDesc { ups } => self.expect(
                Line(More::One),
                &[b"UPSDESC", ups.as_bytes()],
            ),
            Request::GetVar { ups, variable } => {
                self.expect(
                    Line(More::One),
                    &[b"VAR", ups.as_bytes(), variable.as_bytes()],
                )
            }
            Request::GetType { ups, variable } => {
                self.expect(
                    Line(More::OneOrMore),
                    &[b"TYPE", ups.as_bytes(), variable.as_bytes()],
                )
            }
            Request::GetDesc { ups, variable } => {
                self.expect(
                    Line(More::One),
                    &[b"DESC", ups.as_bytes(), variable.as_bytes()],
                )
            }
            Request::GetCmdDesc { ups, command } => {
                self.expect(
                    Line(More::One),
                    &[b"CMDDESC", ups.as_bytes(), command.as_bytes()],
                )
            }
            Request::GetTracking => self.expect(Line(More::One), &[b"TRACKING"]),
            Request::GetTrackingOf { number } => {
                self.expect(Line(More::One), &[b"TRACKING", decimal(*number).as_slice()])
            }
            Request::List(query) => self.list(query),
            Request::SetVar { .. } | Request::InstCmd { .. } => {
                self.expect(AnswerKind::NumberedSuccess, &[])
            }
            Request::SetTracking { .. }
            | Request::Username { .. }
            | Request::Password { .. }
            | Request::Login { .. }
            | Request::Primary { .. }
            | Request::Fsd { .. }
            | Request::Logout => self.expect(AnswerKind::Success, &[]),
            Request::Ver | Request::NetVer | Request::Help => self.expect(AnswerKind::AnyLine, &[]),
            Request::StartTls => self.expect(AnswerKind::Refusal, &[]),
        }
    }

    /// Expects what a LIST does. Returns false only if a word of it is longer than a line may be.
    fn list(&mut self, query: &ListQuery<'_>) -> bool
        ensures set { IsTrue result → self.new ≡ listing query.now }
        ensures long { result ≡ false → IsTrue (list_any is_long (message_words (query_parts query.now))) }
    {
        match query {
            ListQuery::Ups => self.expect(Listing(2), &[b"UPS"]),
            ListQuery::Var { ups } => self.expect(Listing(2), &[b"VAR", ups.as_bytes()]),
            ListQuery::Rw { ups } => self.expect(Listing(2), &[b"RW", ups.as_bytes()]),
            ListQuery::Cmd { ups } => self.expect(Listing(1), &[b"CMD", ups.as_bytes()]),
            ListQuery::Enum { ups, variable } => {
                self.expect(Listing(1), &[b"ENUM", ups.as_bytes(), variable.as_bytes()])
            }
            ListQuery::Range { ups, variable } => {
                self.expect(Listing(2), &[b"RANGE", ups.as_bytes(), variable.as_bytes()])
            }
            ListQuery::Client { ups } => self.expect(Listing(1), &[b"CLIENT", ups.as_bytes()]),
        }
    }

    /// Expects this kind of answer, which repeats these words. Returns false only if one of them is longer than a line may
    /// be.
    fn expect(&mut self, kind: AnswerKind, words: &[&[u8]]) -> bool
        requires { length words.now ≤ 3 }
        ensures set { IsTrue result → self.new ≡ record { kind = kind; heading = texts words.now } }
        ensures long { result ≡ false → IsTrue (list_any is_long (texts words.now)) }
    {
        self.kind = kind;
        self.heading.set(words)
    }

    /// Takes in a line that is neither `OK`, a refusal, nor the beginning or the end of a list, as the first line of
    /// the answer.
    pub(crate) fn say(&self, alloc: Global, words: &Rest<'_>) -> Result<Option<Outcome>, LinkFault>
        ensures { Gives (first self.now.kind self.now.heading (answers.Row words.now)) (answers.Row words.now) result [] }
    {
        match self.kind {
            AnswerKind::Line(more) => {
                if !is_line(&self.heading, more, words) {
                    return Err(LinkFault::NotMine);
                }
                let fields = Fields::copy(alloc, words, self.heading.len())?;
                Ok(Some(Outcome::Said(fields)))
            }
            AnswerKind::AnyLine => {
                let fields = Fields::copy(alloc, words, 0)?;
                Ok(Some(Outcome::Said(fields)))
            }
            AnswerKind::Success
            | AnswerKind::NumberedSuccess
            | AnswerKind::Listing(_)
            | AnswerKind::Refusal => { Err(LinkFault::NotMine) }
        }
    }

    /// Takes in `OK` as the first line.
    pub(crate) fn succeed(
        &self,
        alloc: Global,
        words: &Rest<'_>,
    ) -> Result<Option<Outcome>, LinkFault>
        ensures { Gives (first self.now.kind self.now.heading (answers.Ok words.now)) (answers.Ok words.now) result [] }
    {
        match self.kind {
            AnswerKind::NumberedSuccess if is_numbered(words) => {
                let number = Fields::copy(alloc, words, 1)?;
                Ok(Some(Outcome::Said(number)))
            }
            AnswerKind::Success | AnswerKind::NumberedSuccess => Ok(Some(Outcome::Done)),
            AnswerKind::Line(_)
            | AnswerKind::AnyLine
            | AnswerKind::Listing(_)
            | AnswerKind::Refusal => { Err(LinkFault::NotMine) }
        }
    }

    /// Takes in the beginning of a list as the first line.
    pub(crate) fn begin(&self, words: &Rest<'_>) -> Result<Option<Outcome>, LinkFault>
        ensures { Gives (first self.now.kind self.now.heading (answers.Begin words.now)) (answers.Begin words.now) result [] }
    {
        match self.kind {
            AnswerKind::Listing(_) if self.heading.is_heading(words) => Ok(None),
            AnswerKind::Listing(_)
            | AnswerKind::Success
            | AnswerKind::NumberedSuccess
            | AnswerKind::Line(_)
            | AnswerKind::AnyLine
            | AnswerKind::Refusal => Err(LinkFault::NotMine),
        }
    }
}
