//! A client's link to a server.
ghost use Rattle.std.specs.Prelude.{◌≡◌, ◌≤◌, ℕ, ◌⊎◌, None, false, length};
ghost use Rattle.std.specs.List.{list_any};
ghost use Rattle.nut_words.specs.Lines.{lines_after};
ghost use Rattle.nut_link.specs.Bounds.{IsBounded};
ghost use Rattle.nut_link.specs.Hearing.{Feeds, RunsOut, may_take_memory};
ghost use Rattle.nut_link.specs.Link.{answer_by, ask_fault, asked, fed, fresh, link_with, outcome_of, take_fault, taken, taken_out, waits, with_exchange};

use crate::exchange::Exchange;
use crate::fault::LinkFault;
use crate::limits::QUERY_MAX;
use crate::outcome::Outcome;
use nut_proto::Request;
use nut_words::{LineCutter, hear_lines};
use std::alloc::Global;
use std::marker::Model;

/// A client's link to a server: it asks one query after the other, and takes what the server sends as their answers.
///
/// [`ask`](Link::ask) asks a query. Its bytes then wait to be sent: see [`waiting`](Link::waiting) and
/// [`took`](Link::took). What the server sends is fed in pieces, cut anywhere: [`feed`](Link::feed). Once the answer is
/// complete, [`answer`](Link::answer) takes it out, and the next query can be asked.
///
/// A link takes a line only if it answers the outstanding query, by the words of RFC 9271, and the server took all
/// bytes of the query. At any other line, or if memory cannot be allocated, the link fails. From then on `ask`, `took`
/// and `feed` return the fault, nothing waits, and `answer` still gives an answer that was complete before.
///
/// It keeps one query of at most [`LINE_MAX`](nut_words::LINE_MAX) bytes before its line feed, at most as many bytes of
/// an unfinished line, and at most [`ROWS_MAX`](nut_proto::ROWS_MAX) rows.
pub struct Link {
    cutter: LineCutter,
    exchange: Exchange,
    alloc: Global,
}

// A derived drop would be proved again in each crate that drops a value, with those of its parts.
impl Drop for Link {
    fn drop(self) {
        let Link {
            cutter: _cutter,
            exchange: _exchange,
            alloc: _,
        } = self;
    }
}

impl Model for Link {
    ghost use Rattle.nut_link.specs.Bounds.{IsStageBounded};
    ghost use Rattle.nut_link.specs.Link.{LinkValue, link_with};
    ghost use Rattle.nut_words.specs.Hearing.{IsRest};

    ghost Value = { LinkValue };

    ghost view = { λ l. link_with l.cutter l.exchange };

    ghost invariant = { λ l. IsRest l.cutter × IsStageBounded l.exchange.stage };
}

impl Link {
    /// Makes a link on which nothing was said. It allocates nothing; answers with words are allocated in `alloc`.
    pub fn new(alloc: Global) -> Link
        ensures { result ≡ fresh }
    {
        Link {
            cutter: LineCutter::new(),
            exchange: Exchange::new(),
            alloc,
        }
    }

    /// Asks a query, whose bytes then wait to be sent. It allocates nothing.
    ///
    /// # Errors
    ///
    /// The first of these that applies; nothing changes then. The fault with which the link failed. `OutOfOrder` if a
    /// query or its answer is still there. `BadQuery` if the query has a byte outside 0x20 to 0x7E or more than
    /// [`LINE_MAX`](nut_words::LINE_MAX) bytes before its line feed.
    pub fn ask(&mut self, request: &Request<'_>) -> Result<(), LinkFault>
        ensures answered { result ≡ answer_by (ask_fault request.now self.old.exchange) }
        ensures stands { self.new ≡ with_exchange (asked request.now self.old.exchange) self.old }
    {
        self.exchange.ask(request)
    }

    /// The bytes of the query that wait to be sent, its line feed at their end: at most [`QUERY_MAX`].
    pub fn waiting(&self) -> &[u8]
        ensures value { result.now ≡ waits self.now.exchange }
        ensures few { length result.now ≤ QUERY_MAX }
    {
        self.exchange.waiting()
    }

    /// Removes the first `n` of the bytes that wait: the server took them. It allocates nothing.
    ///
    /// # Errors
    ///
    /// The first of these that applies, and then nothing changed: the fault with which the link failed; `TooMuchTaken`
    /// if fewer than `n` bytes wait.
    pub fn took(&mut self, n: usize) -> Result<(), LinkFault>
        ensures answered { result ≡ answer_by (take_fault n self.old.exchange) }
        ensures stands { self.new ≡ with_exchange (taken n self.old.exchange) self.old }
    {
        self.exchange.took(n)
    }

    /// Takes out the answer to the query if it is complete, also if the link failed after it. It allocates nothing.
    pub fn answer(&mut self) -> Option<Outcome>
        ensures answer { result ≡ outcome_of self.old.exchange }
        ensures stands { self.new ≡ with_exchange (taken_out self.old.exchange) self.old }
    {
        self.exchange.answer()
    }

    /// Takes in the next piece of what the server sends, of any length and cut anywhere. The lines that it completes
    /// are heard in turn, and what follows the last is kept.
    ///
    /// # Errors
    ///
    /// The fault with which the link failed before, or with which it fails at the first line that it refuses. These
    /// are, in this order, `BadLine` for its form, `OutOfOrder`, `NotMine`, and `BadLine` for a row past
    /// [`ROWS_MAX`](nut_proto::ROWS_MAX). An answer that was complete before that line stays available. `Memory` comes
    /// only at these lines: one with a backslash; one that names an error or gives a request its number; a row of a
    /// list; and any other that isn't `OK`, `BEGIN LIST` or `END LIST`.
    pub fn feed(&mut self, piece: &[u8]) -> Result<(), LinkFault>
        ensures feeds { (done : ℕ) × Feeds self.old piece.now done result self.new }

        // If no line may allocate, memory doesn't run out.
        ensures no_memory { list_any may_take_memory (lines_after self.old.rest piece.now) ≡ false
            → (self.new ≡ fed piece.now self.old) × (result ≡ answer_by (fed piece.now self.old).exchange.fault) }

        // It keeps no more than a query, a line and the rows of a list.
        ensures bounded { IsBounded self.new }
    {
        self.feed_lines(piece).1
    }

    /// Does what [`feed`](Link::feed) does. Also returns how many of the lines that the piece completes were heard
    /// before the link failed, or how many there are if it didn't.
    pub fn feed_lines(&mut self, piece: &[u8]) -> (usize, Result<(), LinkFault>)
        ensures feeds { Feeds self.old piece.now result.0 result.1 self.new }
        ensures bounded { IsBounded self.new }
    {
        if let Some(fault) = self.exchange.fault() {
            return (0, Err(fault));
        }
        hear_lines(&mut self.cutter, &mut self.exchange, self.alloc, piece)
    }
}
