//! A query that was asked and has no complete answer yet.
ghost use Rattle.std.specs.Prelude.{◌≡◌, ◌<◌, ◌≤◌, ◌⊎◌, ◌++◌, ◌∷◌, [], ℕ, List, IfErr, IsTrue, OnOk, OnErr, drop, false, length};
ghost use Rattle.std.specs.List.{list_all};
ghost use Rattle.nut_words.specs.Spelling.{is_printing};
ghost use Rattle.nut_link.specs.Asking.{query_of, is_writable};
ghost use Rattle.nut_link.specs.inside.Parts.{Advances, Gives};
ghost use Rattle.nut_link.specs.Matching.{first, next};
ghost use Rattle.nut_link.specs.declared.fault.LinkFault.TheVariants.{BadLine, Memory};

use crate::copied::{Fields, Rows, Text};
use crate::expected::{AnswerKind, ExpectedAnswer};
use crate::fault::LinkFault;
use crate::limits::QUERY_MAX;
use crate::outcome::Outcome;
use arrayvec::ArrayVec;
use nut_proto::{Answer, ROWS_MAX, Request, Rest};
use nut_words::are_printing;
use std::alloc::Global;
use std::marker::Model;
use std::mem;

/// A query that was asked: what it expects, its line, and how much of that the server has accepted. Once a list has
/// begun, also its rows so far.
#[derive(Drop)]
pub struct AskedQuery {
    expected: ExpectedAnswer,
    line: ArrayVec<u8, QUERY_MAX>,
    taken: usize,
    rows: Option<Rows>,
}

impl Model for AskedQuery {
    ghost use Rattle.std.specs.Prelude.{◌≤◌, drop};
    ghost use Rattle.arrayvec.specs.ArrayVec.{array_vec_len};
    ghost use Rattle.nut_link.specs.Asking.{Asked, HasFewRows};
    ghost use Rattle.nut_link.specs.declared.limits.TheConstants.{QUERY_MAX};

    ghost Value = { Asked };

    ghost view = { λ q. record { expected = q.expected; waits = drop q.taken q.line.items; rows = q.rows } };

    ghost invariant = { λ q. (q.taken ≤ array_vec_len q.line) × (array_vec_len q.line ≤ QUERY_MAX) × HasFewRows q.rows };
}

/// Whether a line has only bytes of 0x20 to 0x7E before its line feed.
fn is_printing_line(line: &[u8]) -> bool
    ensures line { (text : List ℕ) → line.now ≡ text ++ 10 ∷ [] → result ≡ list_all is_printing text }
    ensures empty { line.now ≡ [] → result ≡ false }
{
    match line {
        [text @ .., _] => are_printing(text),
        [] => false,
    }
}

impl AskedQuery {
    /// Returns a place for queries.
    pub(crate) fn empty() -> AskedQuery {
        AskedQuery {
            expected: ExpectedAnswer::empty(),
            line: ArrayVec::new(),
            taken: 0,
            rows: None,
        }
    }

    /// Becomes the query of a request. Returns false exactly if that isn't writable. It allocates nothing.
    pub(crate) fn ask(&mut self, request: &Request<'_>) -> bool
        ensures asked { IsTrue result → self.new ≡ query_of request.now }
        ensures exact { result ≡ is_writable request.now }
    {
        self.taken = 0;
        self.rows = None;
        self.line.clear();
        if !self.expected.set(request) {
            return false;
        }
        if request.put(&mut self.line).is_err() {
            return false;
        }
        is_printing_line(self.line.as_slice())
    }

    /// Drops the rows so far.
    pub(crate) fn end(&mut self) {
        self.rows = None;
    }

    /// Returns the bytes that wait to be sent.
    pub(crate) fn waiting(&self) -> &[u8]
        ensures { result.now ≡ self.now.waits }
    {
        &self.line.as_slice()[self.taken..]
    }

    /// Removes the first `n` of the bytes that wait: the server took them.
    pub(crate) fn took(&mut self, n: usize)
        requires { n ≤ length self.old.waits }
        ensures { self.new ≡ record self.old { waits = drop n self.old.waits } }
    {
        self.taken += n;
    }

    /// Takes in an answer. Returns the outcome of the query, or `None` if its list has more rows.
    pub(crate) fn hear(
        &mut self,
        alloc: Global,
        answer: &Answer<'_>,
    ) -> Result<Option<Outcome>, LinkFault>
        ensures { Advances self.old answer.now result self.new }
    {
        if !self.waiting().is_empty() {
            return Err(LinkFault::OutOfOrder);
        }
        if let Some(rows) = &mut self.rows {
            return hear_next(alloc, &self.expected, rows, answer);
        }
        let outcome = hear_first(alloc, &self.expected, answer)?;
        if outcome.is_none() {
            self.rows = Some(Rows::new(alloc));
        }
        Ok(outcome)
    }
}

/// Takes in the first line. Returns the outcome of the query, or `None` if a list begins.
fn hear_first(
    alloc: Global,
    expected: &ExpectedAnswer,
    answer: &Answer<'_>,
) -> Result<Option<Outcome>, LinkFault>
    ensures { Gives (first expected.now.kind expected.now.heading answer.now) answer.now result [] }
{
    match answer {
        Answer::Err(name) => {
            let name = Text::copy(alloc, name.as_bytes())?;
            Ok(Some(Outcome::Refused(name)))
        }
        Answer::Ok(words) => expected.succeed(alloc, words),
        Answer::Row(words) => expected.say(alloc, words),
        Answer::Begin(words) => expected.begin(words),
        Answer::End(_) => Err(LinkFault::NotMine),
    }
}

/// Takes in a line behind the beginning of a list that has these rows so far.
fn hear_next(
    alloc: Global,
    expected: &ExpectedAnswer,
    rows: &mut Rows,
    answer: &Answer<'_>,
) -> Result<Option<Outcome>, LinkFault>
    ensures gives { Gives (next expected.now.kind expected.now.heading rows.old answer.now) answer.now result rows.new }
    ensures few { length rows.old ≤ ROWS_MAX → length rows.new ≤ ROWS_MAX }
{
    let AnswerKind::Listing(count) = expected.kind else {
        return Err(LinkFault::NotMine);
    };
    let heading = &expected.heading;
    match answer {
        Answer::Row(words) => {
            if !heading.is_row(count, words) {
                return Err(LinkFault::NotMine);
            }
            push_row(alloc, rows, words, heading.len())?;
            Ok(None)
        }
        Answer::End(words) => {
            if !heading.is_heading(words) {
                return Err(LinkFault::NotMine);
            }
            Ok(Some(Outcome::List(mem::replace(rows, Rows::new(alloc)))))
        }
        Answer::Ok(_) | Answer::Err(_) | Answer::Begin(_) => Err(LinkFault::NotMine),
    }
}

/// Appends the words of a row from the place `start` on, unless there are [`ROWS_MAX`] rows already.
fn push_row(alloc: Global, rows: &mut Rows, words: &Rest<'_>, start: usize) -> Result<(), LinkFault>
    ensures ok { OnOk result ((rows.new ≡ rows.old ++ drop start words.now ∷ []) × (length rows.old < ROWS_MAX)) }
    ensures err { IfErr result (λ fault. (fault ≡ Memory) ⊎ ((fault ≡ BadLine) × (ROWS_MAX ≤ length rows.old))) }
    ensures kept { OnErr result (rows.new ≡ rows.old) }
{
    if rows.len() >= ROWS_MAX {
        return Err(LinkFault::BadLine);
    }
    let row = Fields::copy(alloc, words, start)?;
    rows.push(row)?;
    Ok(())
}
