//! Short visits to the servers of MONITOR lines, all at once.

ghost use Rattle.std.specs.Prelude.{length};
ghost use Rattle.nut_io.specs.Writes.{IsWithin};

use crate::dialler::Dialler;
use crate::limits::CALM;
use crate::upstream::Upstream;
use mio::Token;
use nut_conf::Monitored;
use nut_io::{Piece, Written};
use nut_poll::{Found, Heard, LookUps, Rounds, SOCKETS_MAX};
use std::alloc::{AllocError, Global};
use std::io;
use std::io::ErrorKind;
use std::net::Net;
use std::process::Processes;
use std::time::{Clock, Duration};

/// How many whole seconds a server may take to be reached, and then for each answer.
const PATIENCE: u8 = 10;

/// The most milliseconds of one wait while a look-up runs. No event reports its end.
const LOOK_UP_WAIT: u64 = 100;

/// What comes next of the visits.
#[derive(Drop)]
pub enum Visited {
    /// The server of this line was reached, or it sent what is in the piece. The piece is empty about once a second, so that
    /// what the server didn't take at once can be offered again.
    Came(usize),
    /// The visit to the server of this line has ended, for this reason.
    Lost(usize, io::Error),
}

/// A visit to the server of a line.
#[derive(Drop)]
struct Visit {
    upstream: Upstream,
    /// How many seconds the server has owed a connection or an answer.
    waited: u8,
    /// Why its host can't be looked up.
    fault: Option<io::Error>,
    is_over: bool,
}

/// Visits to the servers of MONITOR lines, by the numbers of the lines. Nobody waits for one server while another has
/// something to say. A server is given up that isn't reached, or doesn't answer, within 10 seconds.
pub struct Visits<'r, R: Processes> {
    rt: &'r R,
    rounds: Rounds,
    look_ups: LookUps<'r, R>,
    visits: Vec<Visit>,
}

// A derived drop would be proved again in each crate that drops a value, with those of its parts.
impl<'r, R: Processes> Drop for Visits<'r, R> {
    fn drop(self) {
        let Visits {
            rt: _,
            rounds: _rounds,
            look_ups: _look_ups,
            visits: _visits,
        } = self;
    }
}

impl<'r, R: Net + Clock + Processes> Visits<'r, R> {
    /// Returns the visits to the servers of these lines, which are about to be called.
    ///
    /// # Errors
    ///
    /// The error of the poll or of the clock, or a lack of memory.
    pub fn new(rt: &'r R, alloc: Global, lines: &[Monitored]) -> io::Result<Visits<'r, R>> {
        Ok(Visits {
            rt,
            rounds: Rounds::new(rt, alloc, lines.len())?,
            look_ups: LookUps::none(rt, alloc),
            visits: visits_of(alloc, lines)?,
        })
    }

    /// Returns what comes next, after as many waits as it takes. `None` once all visits are over.
    ///
    /// # Errors
    ///
    /// The error of the wait or of the clock.
    pub fn next(&mut self, piece: &mut Piece) -> io::Result<Option<Visited>> {
        for _ in 0..u64::MAX {
            if let Some(visited) = self.look(piece) {
                return Ok(Some(visited));
            }
            if self.visits.iter().all(|visit| visit.is_over) {
                break;
            }
            self.wait()?;
        }
        self.look_ups.end();
        Ok(None)
    }

    /// Offers bytes to the server of a line.
    pub fn offer(&mut self, i: usize, bytes: &[u8]) -> Written
        ensures { IsWithin result (length bytes.now) }
    {
        match self.visits.get_mut(i) {
            Some(visit) => visit.upstream.offer(bytes),
            None => Written::Failed,
        }
    }

    /// Notes that the server of a line is asked something new: it has its whole time for the answer.
    pub fn renew(&mut self, i: usize) {
        if let Some(visit) = self.visits.get_mut(i) {
            visit.waited = 0;
        }
    }

    /// Ends the visit to the server of a line, if it isn't over. The connection is closed.
    pub fn end(&mut self, i: usize) {
        if let Some(visit) = self.visits.get_mut(i) {
            visit.is_over = true;
            let _ = visit.upstream.close(CALM);
        }
    }

    /// Looks at the servers of this round, until one has something to tell.
    fn look(&mut self, piece: &mut Piece) -> Option<Visited> {
        for _ in 0..SOCKETS_MAX {
            let Token(i) = self.rounds.ready.take()?;
            let visited = self.look_at(i, piece);
            if visited.is_some() {
                return visited;
            }
        }
        None
    }

    /// Reads from a server, or calls it.
    fn look_at(&mut self, i: usize, piece: &mut Piece) -> Option<Visited> {
        let visit = self.visits.get_mut(i)?;
        if visit.is_over {
            return None;
        }
        if let Some(error) = visit.fault.take() {
            return Some(self.lose(i, error));
        }
        if visit.waited > PATIENCE {
            return Some(self.lose(i, io::Error::from(ErrorKind::TimedOut)));
        }
        if visit.upstream.is_up() {
            self.hear(i, piece)
        } else {
            self.reach(i, piece)
        }
    }

    /// Reads from a server, and has it looked at again if there may be more.
    fn hear(&mut self, i: usize, piece: &mut Piece) -> Option<Visited> {
        match self.visits.get_mut(i)?.upstream.hear(piece) {
            Heard::All => {}
            Heard::Part => self.rounds.ready.insert(Token(i)),
            Heard::Nothing => piece.clear(),
            Heard::End => {
                return Some(self.lose(i, io::Error::from(ErrorKind::UnexpectedEof)));
            }
        }
        Some(Visited::Came(i))
    }

    /// Calls a server, or continues the call.
    fn reach(&mut self, i: usize, piece: &mut Piece) -> Option<Visited> {
        let token = Token(i);
        let dialler = Dialler {
            net: self.rt,
            registry: self.rounds.registry(),
            token,
        };
        match self.visits.get_mut(i)?.upstream.reach(&dialler) {
            Ok(false) => None,
            Ok(true) => {
                self.renew(i);
                self.rounds.ready.insert(token);
                piece.clear();
                Some(Visited::Came(i))
            }
            Err(error) => Some(self.lose(i, error)),
        }
    }

    /// Ends a visit, for this reason.
    fn lose(&mut self, i: usize, error: io::Error) -> Visited {
        self.end(i);
        Visited::Lost(i, error)
    }

    /// Waits until an event comes or a second is over, or not at all if there is more to look at, and begins the next
    /// round.
    fn wait(&mut self) -> io::Result<()> {
        self.look_up();
        let ahead = self.rounds.seconds.ahead();
        let patience = if self.look_ups.is_idle() {
            ahead
        } else {
            ahead.min(Duration::from_millis(LOOK_UP_WAIT))
        };
        self.rounds.wait_for(patience)?;
        self.note();
        if let Some(found) = self.look_ups.take() {
            self.take_found(&found);
        }
        if self.rounds.turn(self.rt)?.is_some() {
            self.second();
        }
        Ok(())
    }

    /// Notes the events of the sockets.
    fn note(&mut self) {
        for event in self.rounds.events.iter() {
            let Token(i) = event.token();
            if let Some(visit) = self.visits.get_mut(i) {
                visit.upstream.note(event);
            }
        }
    }

    /// Counts a second that has passed, or several in which this process was stopped.
    fn second(&mut self) {
        for visit in self.visits.iter_mut() {
            visit.waited = visit.waited.saturating_add(1);
            visit.upstream.second(None, CALM);
        }
        self.look_ups.second();
    }

    /// Begins to look up the hosts whose addresses aren't known, as many as may be at a time.
    fn look_up(&mut self) {
        for (i, visit) in self.visits.iter_mut().enumerate() {
            let name = visit.upstream.host_name();
            if visit.is_over
                || visit.upstream.due_look_up().is_none()
                || self.look_ups.is_going(name)
                || !self.look_ups.has_room()
            {
                continue;
            }
            if let Err(error) = self.look_ups.start(name) {
                visit.fault = Some(error);
                self.rounds.ready.insert(Token(i));
            }
        }
    }

    /// Hands the result of a look-up to the visits to its host.
    fn take_found(&mut self, found: &Found) {
        for (i, visit) in self.visits.iter_mut().enumerate() {
            if visit.upstream.host_name() == found.name.as_str() {
                if !visit.upstream.take_addresses(&found.addresses) {
                    visit.fault = Some(io::Error::other(found.reason));
                }
                self.rounds.ready.insert(Token(i));
            }
        }
    }
}

/// Returns a visit for each line.
fn visits_of(alloc: Global, lines: &[Monitored]) -> Result<Vec<Visit>, AllocError> {
    let mut visits = Vec::new(alloc);
    for line in lines {
        visits.push(Visit {
            upstream: Upstream::new(alloc, line)?,
            waited: 0,
            fault: None,
            is_over: false,
        })?;
    }
    Ok(visits)
}
