//! The exchange of queries and answers on a link.
ghost use Rattle.std.specs.Prelude.{◌≡◌, None, Err};
ghost use Rattle.nut_words.specs.Cutter.{line_of};
ghost use Rattle.nut_link.specs.Hearing.{Hears, keeps_words, may_take_memory};
ghost use Rattle.nut_link.specs.inside.Parts.{Moves, stage_of};
ghost use Rattle.nut_link.specs.Link.{answer_by, ask_fault, asked, failed, heard, on_answer, on_line, outcome_of, take_fault, taken, taken_out, waits};
ghost use Rattle.nut_link.specs.Exchange as stages;

use crate::fault::LinkFault;
use crate::outcome::Outcome;
use crate::query::AskedQuery;
use nut_proto::{Answer, AnswerFault, Request, read_answer};
use nut_words::{HearLine, Line};
use std::alloc::Global;
use std::marker::Model;
use std::mem;

/// Whether a query was asked, and whether it was answered.
#[derive(Drop)]
pub enum QueryState {
    /// No query was asked, or its answer was taken out.
    Idle,
    /// The query has no complete answer.
    Asked,
    /// A complete answer that wasn't taken out yet.
    Answered(Outcome),
}

/// How far an exchange has come, and the fault with which it failed, if it did. A query keeps its place for the next one: it
/// is too long to be moved.
#[derive(Drop)]
pub struct Exchange {
    query: AskedQuery,
    state: QueryState,
    fault: Option<LinkFault>,
}

impl Model for Exchange {
    ghost Value = { stages.Exchange };

    ghost view = { λ e. record { stage = stage_of e.state e.query; fault = e.fault } };
}

impl Exchange {
    /// Returns an exchange in which nothing was asked.
    pub(crate) fn new() -> Exchange
        ensures { result ≡ record { stage = stages.Idle; fault = None } }
    {
        Exchange {
            query: AskedQuery::empty(),
            state: QueryState::Idle,
            fault: None,
        }
    }

    /// Returns the fault with which it failed, if it did.
    pub(crate) fn fault(&self) -> Option<LinkFault>
        ensures { result ≡ self.now.fault }
    {
        self.fault
    }

    /// Asks a query. A query that is refused changes nothing.
    pub(crate) fn ask(&mut self, request: &Request<'_>) -> Result<(), LinkFault>
        ensures answered { result ≡ answer_by (ask_fault request.now self.old) }
        ensures stands { self.new ≡ asked request.now self.old }
    {
        if let Some(fault) = self.fault {
            return Err(fault);
        }
        let QueryState::Idle = self.state else {
            return Err(LinkFault::OutOfOrder);
        };
        if !self.query.ask(request) {
            return Err(LinkFault::BadQuery);
        }
        self.state = QueryState::Asked;
        Ok(())
    }

    /// Returns the bytes of the query that wait to be sent.
    pub(crate) fn waiting(&self) -> &[u8]
        ensures { result.now ≡ waits self.now }
    {
        match self.state {
            QueryState::Asked => self.query.waiting(),
            QueryState::Idle | QueryState::Answered(_) => &[],
        }
    }

    /// Removes the first `n` of the bytes that wait: the server took them.
    pub(crate) fn took(&mut self, n: usize) -> Result<(), LinkFault>
        ensures answered { result ≡ answer_by (take_fault n self.old) }
        ensures stands { self.new ≡ taken n self.old }
    {
        if let Some(fault) = self.fault {
            return Err(fault);
        }
        if n > self.waiting().len() {
            return Err(LinkFault::TooMuchTaken);
        }
        if let QueryState::Asked = self.state {
            self.query.took(n);
        }
        Ok(())
    }

    /// Takes out the answer, if one is complete.
    pub(crate) fn answer(&mut self) -> Option<Outcome>
        ensures answer { result ≡ outcome_of self.old }
        ensures stands { self.new ≡ taken_out self.old }
    {
        if let QueryState::Answered(_) = self.state
            && let QueryState::Answered(outcome) = mem::replace(&mut self.state, QueryState::Idle)
        {
            return Some(outcome);
        }
        None
    }

    /// Fails with this fault. A query is dropped; an answer that is complete can still be taken out.
    fn fail(&mut self, fault: LinkFault)
        ensures { self.new ≡ failed fault self.old }
    {
        if let QueryState::Asked = self.state {
            self.query.end();
            self.state = QueryState::Idle;
        }
        self.fault = Some(fault);
    }

    /// Takes in an answer, and drops it.
    fn hear_answer(&mut self, alloc: Global, answer: Answer<'_>) -> Result<(), LinkFault>
        ensures moves { Moves (on_answer self.old.stage answer.entry) (keeps_words answer.entry) self.old.stage result self.new.stage }
        ensures fault { self.new.fault ≡ self.old.fault }
    {
        let QueryState::Asked = self.state else {
            return Err(LinkFault::OutOfOrder);
        };
        if let Some(outcome) = self.query.hear(alloc, &answer)? {
            self.state = QueryState::Answered(outcome);
        }
        Ok(())
    }

    /// Takes in a line. An `Err` is the fault with which the exchange has to fail at it.
    fn read_line(&mut self, alloc: Global, line: Line<'_>) -> Result<(), LinkFault>
        ensures moves { Moves (on_line self.old.stage (line_of line.entry)) (may_take_memory (line_of line.entry)) self.old.stage result self.new.stage }
        ensures fault { self.new.fault ≡ self.old.fault }
    {
        let Line::Text(text) = line else {
            return Err(LinkFault::BadLine);
        };
        match read_answer(alloc, text) {
            Ok(answer) => self.hear_answer(alloc, answer),
            Err(AnswerFault::Memory) => Err(LinkFault::Memory),
            Err(AnswerFault::Unreadable | AnswerFault::Empty) => Err(LinkFault::BadLine),
        }
    }

    /// Takes in a line. An `Err` is the fault with which the exchange failed at it.
    fn hear(&mut self, alloc: Global, line: Line<'_>) -> Result<(), LinkFault>
        requires { self.old.fault ≡ None }
        ensures { Hears self.old (line_of line.entry) result self.new }
    {
        let heard = self.read_line(alloc, line);
        if let Err(fault) = heard {
            self.fail(fault);
        }
        heard
    }
}

/// Takes in the lines of a server, up to one at which the exchange fails.
impl HearLine for Exchange {
    type With = Global;

    type Stop = LinkFault;

    ghost heard = { λ _ line e. heard line e };

    ghost GoesOn = { λ e. e.fault ≡ None };

    ghost Stops = { λ _ line before fault after. Hears before line (Err fault) after };

    #[tactic(auto, using(crate::proofs::Feeding::heard_on))]
    fn hear_line(&mut self, alloc: Global, line: Line<'_>) -> Result<(), LinkFault> {
        self.hear(alloc, line)
    }
}
