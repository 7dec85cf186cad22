//! What is asked at the servers of MONITOR lines, at all of them at once.

use nut_client::{MemoryStream, Text, ToolFailure, Wanted, ask_server, force_shutdown, log_in};
use nut_conf::{Monitored, Role};
use nut_io::{Piece, Written};
use nut_log::{Level, Lines};
use nut_monitor_sockets::{Visited, Visits};
use nut_poll::{ErrorLines, OutputLines, text_of};
use nut_proto::Word;
use std::alloc::{AllocError, Global};
use std::io::Write;
use std::net::Net;
use std::process::Processes;
use std::time::Clock;
use std::{fmt, io};

/// The flag of a status that shows a forced shutdown.
const FORCED: &[u8] = b"FSD";

/// What is asked at a server.
#[derive(Clone, Copy, PartialEq, Eq)]
pub enum Errand {
    /// FSD, and then whether the UPS shows it. Only lines of a primary are concerned.
    Force,
    /// A login.
    LogIn,
}

/// Why an errand wasn't done, or not all of it.
#[derive(Drop)]
pub enum Shortfall {
    /// The server wasn't reached.
    Unreached(io::Error),
    /// This query failed.
    Failed(&'static str, ToolFailure),
    /// FSD is set, but no status shows it, for this reason.
    Untold(ToolFailure),
    /// FSD is set, but the status is this one.
    Unshown(Text),
}

impl fmt::Display for Shortfall {
    fn fmt<W: fmt::Write>(&self, f: &mut fmt::Formatter<W>) -> fmt::Result {
        match self {
            Shortfall::Unreached(error) => write!(f, "connection failed: {error}"),
            Shortfall::Failed(query, ToolFailure::Refused(name)) => {
                write!(f, "{query} refused: {}", text_of(name.as_bytes()))
            }
            Shortfall::Failed(_, failure) => write!(f, "{}", text_of(failure.reason())),
            Shortfall::Untold(ToolFailure::Refused(name)) => write!(
                f,
                "its machines don't hear of it: {}; they shut down once the driver is back",
                text_of(name.as_bytes())
            ),
            Shortfall::Untold(failure) => write!(
                f,
                "it is unknown whether its machines hear of it: {}",
                text_of(failure.reason())
            ),
            Shortfall::Unshown(status) => write!(
                f,
                "its machines don't hear of it: its status is {}",
                text_of(status.as_bytes().trim_ascii())
            ),
        }
    }
}

impl Errand {
    /// Does the errand over a connection.
    ///
    /// # Errors
    ///
    /// What is missing. `ConnectionLost` says that the end of the connection was met, and `Memory` that what is said can't be
    /// kept.
    fn carry_out(
        self,
        clock: &impl Clock,
        alloc: Global,
        line: &Monitored,
        stream: &mut MemoryStream<'_>,
    ) -> Result<(), Shortfall> {
        let ups = Word::new(line.target.ups.as_bytes());
        let user = Word::new(line.user.as_bytes());
        let password = Word::new(line.password.as_bytes());
        let asked = match self {
            Errand::Force => force_shutdown(alloc, ups.copy(), user, password, stream),
            Errand::LogIn => log_in(alloc, ups.copy(), user, password, stream),
        };
        match asked {
            Ok(()) if self == Errand::Force => look_at_status(clock, alloc, ups, stream),
            Ok(()) => Ok(()),
            Err(_) if stream.is_lost() => Err(Shortfall::Failed("", ToolFailure::Memory)),
            Err(failure) => {
                let queries = stream.asked().iter().filter(|byte| **byte == b'\n').count();
                let last = match (queries, self) {
                    (1, _) => "USERNAME",
                    (2, _) => "PASSWORD",
                    (_, Errand::Force) => "FSD",
                    (_, Errand::LogIn) => "LOGIN",
                };
                Err(Shortfall::Failed(last, failure))
            }
        }
    }

    /// Reports how the errand at the server of a line ended: on `out` that FSD is set, on `err` what is missing.
    fn tell(
        self,
        line: &Monitored,
        ended: &Result<(), Shortfall>,
        out: &mut OutputLines,
        err: &mut ErrorLines,
    ) {
        let ups = text_of(&line.written);
        let _ = match (self, ended) {
            (Errand::LogIn, Ok(())) => Ok(()),
            (Errand::LogIn, Err(shortfall)) => {
                writeln!(err.begin(Level::Warning), "UPS {ups}: {shortfall}")
            }
            (Errand::Force, Ok(())) => writeln!(out.mark(Level::Notice), "UPS {ups}: FSD set"),
            (Errand::Force, Err(shortfall @ (Shortfall::Untold(_) | Shortfall::Unshown(_)))) => {
                writeln!(
                    err.begin(Level::Error),
                    "UPS {ups}: FSD set, but {shortfall}"
                )
            }
            (Errand::Force, Err(shortfall)) => {
                writeln!(
                    err.begin(Level::Error),
                    "UPS {ups}: FSD failed: {shortfall}"
                )
            }
        };
    }
}

/// Asks whether the status of a UPS shows its forced shutdown.
fn look_at_status(
    clock: &impl Clock,
    alloc: Global,
    ups: Word<'_>,
    stream: &mut MemoryStream<'_>,
) -> Result<(), Shortfall> {
    let status = Wanted::Value(Word::new(b"ups.status"));
    match ask_server(clock, alloc, ups, status, stream) {
        Ok(status) => {
            let mut flags = status.as_bytes().split(|byte| byte.is_ascii_whitespace());
            if flags.any(|flag| flag == FORCED) {
                Ok(())
            } else {
                Err(Shortfall::Unshown(status))
            }
        }
        Err(_) if stream.is_lost() => Err(Shortfall::Failed("", ToolFailure::Memory)),
        Err(failure) => Err(Shortfall::Untold(failure)),
    }
}

/// What was said to a server and by it.
#[derive(Drop)]
pub struct Talk {
    /// What the server sent.
    heard: Vec<u8>,
    /// How many bytes it is to be asked, as far as is known.
    asked: usize,
    /// How many of them it took.
    sent: usize,
    /// Whether it was reached.
    is_up: bool,
    /// Whether all was done.
    pub is_done: bool,
}

impl Talk {
    /// Continues an errand with the next piece of what the server sent. Returns how the errand ended if it has.
    ///
    /// The errand is done anew from its beginning, over all that the server sent so far. If that ends too early, the server
    /// has more to say, once it was sent what it was asked.
    fn go_on<R: Net + Clock + Processes>(
        &mut self,
        errand: Errand,
        rt: &R,
        alloc: Global,
        visits: &mut Visits<'_, R>,
        i: usize,
        line: &Monitored,
        piece: &Piece,
    ) -> Option<Result<(), Shortfall>> {
        self.is_up = true;
        if self.heard.extend_from_slice(piece.as_slice()).is_err() {
            return Some(Err(Shortfall::Failed("", ToolFailure::Memory)));
        }
        let mut stream = MemoryStream::new(alloc, self.heard.as_slice(), 1);
        let ended = errand.carry_out(rt, alloc, line, &mut stream);
        let asked = stream.asked();
        if asked.len() > self.asked {
            self.asked = asked.len();
            visits.renew(i);
        }
        if let Some(left) = asked.get(self.sent..)
            && !left.is_empty()
            && let Written::Took(count) = visits.offer(i, left)
        {
            self.sent = self.sent.saturating_add(count);
        }
        unless_waiting(ended, self.sent >= self.asked)
    }

    /// Returns how an errand ended whose connection did, for this reason.
    fn break_off(
        &self,
        errand: Errand,
        clock: &impl Clock,
        alloc: Global,
        line: &Monitored,
        error: io::Error,
    ) -> Result<(), Shortfall> {
        if !self.is_up {
            return Err(Shortfall::Unreached(error));
        }
        let mut stream = MemoryStream::new(alloc, self.heard.as_slice(), 1);
        match errand.carry_out(clock, alloc, line, &mut stream) {
            Ok(()) => Err(Shortfall::Failed("", ToolFailure::ConnectionLost)),
            Err(shortfall) => Err(shortfall),
        }
    }
}

/// Returns how an errand ended, unless it can be done further once the server has sent more, or taken all that it is asked.
fn unless_waiting(
    ended: Result<(), Shortfall>,
    is_all_taken: bool,
) -> Option<Result<(), Shortfall>> {
    let is_cut_short = matches!(
        ended,
        Err(
            Shortfall::Failed(_, ToolFailure::ConnectionLost)
                | Shortfall::Untold(ToolFailure::ConnectionLost)
        )
    );
    if is_cut_short || (ended.is_ok() && !is_all_taken) {
        return None;
    }
    Some(ended)
}

/// Does an errand at the servers of all lines that it concerns, at once, and reports of each how it ended as soon as it has.
/// A server that isn't reached, or takes longer than 10 seconds for an answer, keeps nobody else waiting. Returns the talk
/// with the server of each line.
///
/// # Errors
///
/// A lack of memory or descriptors before any server was called; later the error of the wait or of the clock.
pub fn run_errand<R: Net + Clock + Processes>(
    errand: Errand,
    rt: &R,
    alloc: Global,
    lines: &[Monitored],
    out: &mut OutputLines,
    err: &mut ErrorLines,
) -> io::Result<Vec<Talk>> {
    let mut talks = talks_of(alloc, lines)?;
    let mut visits = Visits::new(rt, alloc, lines)?;
    for (i, line) in lines.iter().enumerate() {
        if errand == Errand::Force && line.role == Role::Secondary {
            visits.end(i);
        }
    }
    match attend(errand, rt, alloc, lines, &mut visits, &mut talks, out, err) {
        Ok(()) => Ok(talks),
        Err(error) => Err(error),
    }
}

/// Continues these visits, each with its talk, until all are over.
fn attend<R: Net + Clock + Processes>(
    errand: Errand,
    rt: &R,
    alloc: Global,
    lines: &[Monitored],
    visits: &mut Visits<'_, R>,
    talks: &mut [Talk],
    out: &mut OutputLines,
    err: &mut ErrorLines,
) -> io::Result<()> {
    let mut piece = Piece::new();
    for _ in 0..u64::MAX {
        let Some(visited) = visits.next(&mut piece)? else {
            break;
        };
        let i = match &visited {
            Visited::Came(i) | Visited::Lost(i, _) => *i,
        };
        let (Some(talk), Some(line)) = (talks.get_mut(i), lines.get(i)) else {
            continue;
        };
        let ended = match visited {
            Visited::Came(i) => talk.go_on(errand, rt, alloc, visits, i, line, &piece),
            Visited::Lost(_, error) => Some(talk.break_off(errand, rt, alloc, line, error)),
        };
        if let Some(ended) = ended {
            talk.is_done = ended.is_ok();
            leave(visits, i, &ended);
            errand.tell(line, &ended, out, err);
        }
    }
    Ok(())
}

/// Ends a visit: a server where the user is logged in is told so.
fn leave<R: Net + Clock + Processes>(
    visits: &mut Visits<'_, R>,
    i: usize,
    ended: &Result<(), Shortfall>,
) {
    if let Ok(()) | Err(Shortfall::Untold(_) | Shortfall::Unshown(_)) = ended {
        let _ = visits.offer(i, b"LOGOUT\n");
    }
    visits.end(i);
}

/// Returns the talks with the servers of these lines, before anything was said.
fn talks_of(alloc: Global, lines: &[Monitored]) -> Result<Vec<Talk>, AllocError> {
    let mut talks = Vec::new(alloc);
    for _ in lines {
        talks.push(Talk {
            heard: Vec::new(alloc),
            asked: 0,
            sent: 0,
            is_up: false,
            is_done: false,
        })?;
    }
    Ok(talks)
}
