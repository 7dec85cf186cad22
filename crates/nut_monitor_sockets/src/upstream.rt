//! The link to the server of a UPS that is watched.

ghost use Rattle.std.specs.Prelude.{◌≡◌, ◌≢◌, length, is_some, Some, None, Ok, true, false};
ghost use Rattle.nut_io.specs.Writes.{IsWithin};
ghost use Rattle.nut_poll.specs.declared.link.Heard.TheVariants as heard;
ghost use Rattle.nut_monitor_sockets.specs.Turns.{unread};

use crate::dialler::Dialler;
use crate::host::DialledHost;
use crate::limits::{ANSWER_ON_BATTERY, Limits};
use crate::pause::Pause;
use crate::refusals::{ErrorName, Refusals};
use crate::waiting::{Waiting, is_waiting};
use mio::event::Event;
use mio::net::TcpStream;
use nut_conf::Monitored;
use nut_io::{Piece, Written};
use nut_link::Outcome;
use nut_monitor::{LastAnswer, LastQuery, Query};
use nut_poll::{Heard, Link, text_of};
use nut_words::LINE_MAX;
use std::alloc::{AllocError, Global};
use std::io::ErrorKind;
use std::net::{IpAddr, Net};
use std::{io, mem};

/// How many whole seconds an address has to answer a call.
const PATIENCE: u8 = 5;

/// The stage of a link.
#[derive(Drop)]
enum LinkStage {
    /// There is no link.
    Down,
    /// An address is being dialled, and hasn't answered for this many seconds.
    Calling(Link<TcpStream>, u8),
    /// The link is made: its socket, and the query whose answer was noted last.
    Up(Link<TcpStream>, Option<LastQuery>),
}

/// The link to the server of a MONITOR line.
#[derive(Drop)]
pub struct Upstream {
    /// The target as the MONITOR line writes it.
    name: String,
    host: DialledHost,
    stage: LinkStage,
    /// The pause before the host is called again.
    pause: Pause,
    /// Whether the server has answered a query after those that open a link, since this link was made.
    serves: bool,
    /// How many bytes of a line that hasn't ended the server has sent on this link.
    unended: usize,
    refusals: Refusals,
    /// Whether the server waits for its driver. NUT's upsd does so on a new link, once it was started again.
    waiting: Waiting,
    /// Whether a link on which the server served was lost, and none was made since.
    is_gone: bool,
    /// Whether it was noted, since a server was lost that served, that an answer did.
    is_late_noted: bool,
    /// How many seconds the server has owed a status.
    owed: u8,
    /// Whether it was noted, since the server last served, that there is no server.
    is_missed: bool,
}

impl Upstream {
    /// Returns the link of a MONITOR line. Its host is about to be called.
    ///
    /// # Errors
    ///
    /// [`AllocError`] if memory cannot be allocated.
    pub fn new(alloc: Global, line: &Monitored) -> Result<Upstream, AllocError> {
        Ok(Upstream {
            name: String::from_str(alloc, text_of(line.written.as_slice()))?,
            host: DialledHost::new(alloc, &line.target)?,
            stage: LinkStage::Down,
            pause: Pause::none(),
            serves: false,
            unended: 0,
            refusals: Refusals::none(),
            waiting: Waiting::none(),
            is_gone: false,
            is_late_noted: false,
            owed: 0,
            is_missed: false,
        })
    }

    /// Returns the target as the MONITOR line writes it.
    pub fn name(&self) -> &str {
        self.name.as_str()
    }

    /// Returns the name of the host.
    pub fn host_name(&self) -> &str {
        self.host.name()
    }

    /// Whether the link is made.
    pub fn is_up(&self) -> bool
        ensures { result ≡ is_some (unread self.now.stage) }
    {
        matches!(self.stage, LinkStage::Up(_, _))
    }

    /// Whether the server has answered all that it was asked, and didn't refuse the last query for the status. `asked` is
    /// the query that is outstanding.
    fn is_settled(&self, asked: Option<LastQuery>) -> bool {
        self.is_up() && asked.is_none() && !self.refusals.refuses_status()
    }

    /// Whether seconds that were missed should not be told yet. The server was asked something and may still answer in
    /// time, or it may yet be called, or report a status, within the time that it has for an answer.
    pub fn holds_clock(&self, asked: Option<LastQuery>, limits: Limits) -> bool {
        let is_asked = self.is_up() && asked.is_some();
        is_asked || (!self.is_settled(asked) && self.owed < limits.answer)
    }

    /// Counts a second that has passed. `asked` is the query that is outstanding at its end.
    pub fn second(&mut self, asked: Option<LastQuery>, limits: Limits) {
        self.owed = if self.is_settled(asked) {
            0
        } else {
            self.owed.saturating_add(1)
        };
        self.host.second();
        self.pause.second(limits.pause);
        if let LinkStage::Calling(_, waited) = &mut self.stage {
            *waited = waited.saturating_add(1);
        }
    }

    /// Returns the last pause between look-ups of the host, in seconds, if another look-up is due.
    pub fn due_look_up(&self) -> Option<u8> {
        self.host.due_look_up()
    }

    /// Takes the addresses that a look-up of the host found. Returns whether any address is known.
    pub fn take_addresses(&mut self, found: &[IpAddr]) -> bool {
        self.host.take_addresses(found);
        self.host.has_addresses()
    }

    /// Takes over the addresses of the host, in the order in which they are dialled, from the first of these earlier
    /// links that knows some. The host is then looked up only if none of them answers.
    pub fn take_over_addresses(&mut self, former: &[Upstream]) {
        for link in former.iter() {
            if link.host_name() == self.host_name() && link.host.has_addresses() {
                self.host.take_addresses(link.host.addresses());
                return;
            }
        }
    }

    /// Calls the host if that is due and an address is known, or continues the call. Returns whether the link is now
    /// made. If an address refuses or doesn't answer in time, the next one of the round is dialled.
    ///
    /// # Errors
    ///
    /// The error of the last address: the call has failed.
    pub fn reach(&mut self, dialler: &Dialler<'_, impl Net>) -> io::Result<bool>
        ensures { result ≢ Ok true → unread self.new.stage ≡ None }
    {
        match mem::replace(&mut self.stage, LinkStage::Down) {
            LinkStage::Down => {
                if self.pause.is_over() && self.host.has_addresses() {
                    self.pause.wait();
                    self.host.begin();
                    self.call(dialler, io::Error::from(ErrorKind::NotFound))?;
                }
                Ok(false)
            }
            LinkStage::Calling(link, waited) => self.go_on(dialler, link, waited),
            LinkStage::Up(link, answered) => {
                self.stage = LinkStage::Up(link, answered);
                Ok(true)
            }
        }
    }

    /// Dials the next address. Returns `error` if none is left.
    fn call(&mut self, dialler: &Dialler<'_, impl Net>, error: io::Error) -> io::Result<()>
        ensures { unread self.old.stage ≡ None → unread self.new.stage ≡ None }
    {
        let stream = self.host.dial(dialler, error)?;
        self.stage = LinkStage::Calling(Link::new(stream), 0);
        Ok(())
    }

    /// Continues a call, and returns whether the link is now made.
    fn go_on(
        &mut self,
        dialler: &Dialler<'_, impl Net>,
        link: Link<TcpStream>,
        waited: u8,
    ) -> io::Result<bool>
        ensures { unread self.old.stage ≡ None → result ≢ Ok true → unread self.new.stage ≡ None }
    {
        match is_answered(link.stream(), waited) {
            Ok(true) => {
                self.unended = 0;
                self.stage = LinkStage::Up(link, None);
                Ok(true)
            }
            Ok(false) => {
                self.stage = LinkStage::Calling(link, waited);
                Ok(false)
            }
            Err(error) => {
                self.call(dialler, error)?;
                Ok(false)
            }
        }
    }

    /// Notes that a call failed. Returns whether it is the first one since the server last served.
    pub fn misses(&mut self) -> bool
        ensures { self.new.stage ≡ self.old.stage }
    {
        !mem::replace(&mut self.is_missed, true)
    }

    /// Reads from the server.
    pub fn hear(&mut self, piece: &mut Piece) -> Heard
        ensures { unread self.new.stage ≡ Some true → result ≡ heard.Part }
    {
        let heard = match &mut self.stage {
            LinkStage::Up(link, _) => link.hear(piece),
            LinkStage::Down | LinkStage::Calling(_, _) => Heard::Nothing,
        };
        if matches!(heard, Heard::All | Heard::Part) {
            let piece = piece.as_slice();
            self.unended = match piece.iter().rposition(|byte| *byte == b'\n') {
                Some(at) => piece.len().saturating_sub(at).saturating_sub(1),
                None => self.unended.saturating_add(piece.len()),
            };
        }
        heard
    }

    /// Whether the server has sent more than [`LINE_MAX`] bytes of a line that hasn't ended. It is no answer then, however it
    /// ends.
    pub fn is_too_long(&self) -> bool {
        self.unended > LINE_MAX
    }

    /// Notes the last answer on the link. Returns whether it wasn't noted before.
    pub fn note_answer(&mut self, answer: &LastAnswer) -> bool {
        match &mut self.stage {
            LinkStage::Up(_, answered) => {
                // A query and its moment tell it from all others on its link: none is put again within a second.
                answered.replace(answer.asked) != Some(answer.asked)
            }
            LinkStage::Down | LinkStage::Calling(_, _) => false,
        }
    }

    /// Whether an answer that took so many seconds took longer than a server may take while a UPS is on battery, and none did
    /// before, since a server was lost that served.
    pub fn begins_to_be_late(&mut self, took: u64) -> bool {
        took > u64::from(ANSWER_ON_BATTERY) && !mem::replace(&mut self.is_late_noted, true)
    }

    /// Returns the name of the error, if this answer is a refusal that is now to be reported.
    pub fn begins_to_refuse(&mut self, answer: &LastAnswer) -> Option<ErrorName> {
        let error = self.refusals.note(answer);
        if !self.refusals.refuses_status() {
            self.owed = 0;
        }
        error
    }

    /// Whether the server now waits for its driver by this answer, though it told another status before.
    pub fn begins_to_wait(&mut self, answer: &LastAnswer) -> bool {
        match (answer.asked.query, &answer.outcome) {
            (Query::Status, Outcome::Said(value)) => self.waiting.begins(is_waiting(value.get(0))),
            _ => false,
        }
    }

    /// Notes that the link is made. Returns whether it is the first one since a link was lost on which the server served.
    pub fn returns(&mut self) -> bool
        ensures { self.new.stage ≡ self.old.stage }
    {
        mem::take(&mut self.is_gone)
    }

    /// Notes that the server answered a query after those that open a link. Returns whether this is the first on this
    /// link.
    pub fn begins_to_serve(&mut self) -> bool {
        self.is_missed = false;
        let is_first = !mem::replace(&mut self.serves, true);
        if is_first {
            self.host.serve();
        }
        is_first
    }

    /// Offers bytes to the server.
    pub fn offer(&mut self, bytes: &[u8]) -> Written
        ensures { IsWithin result (length bytes.now) }
    {
        match &mut self.stage {
            LinkStage::Up(link, _) => link.offer(bytes),
            LinkStage::Down | LinkStage::Calling(_, _) => Written::Failed,
        }
    }

    /// Notes an event of the socket.
    pub fn note(&mut self, event: &Event)
        ensures { unread self.new.stage ≢ Some false }
    {
        match &mut self.stage {
            LinkStage::Down => {}
            LinkStage::Calling(link, _) => link.note(event),
            LinkStage::Up(link, _) => link.note(event),
        }
    }

    /// Closes the link, and returns whether its server has served on it. If it has, the server is called again in the
    /// next second. Otherwise it is called after a pause, which grows from one loss to the next, at its next address.
    pub fn close(&mut self, limits: Limits) -> bool
        ensures { unread self.new.stage ≡ None }
    {
        self.stage = LinkStage::Down;
        let served = mem::replace(&mut self.serves, false);
        if served {
            self.is_gone = true;
            self.is_late_noted = false;
            self.pause = Pause::none();
            self.refusals = Refusals::none();
        } else {
            self.pause.begin(limits.pause);
            self.host.lose();
        }
        served
    }
}

/// Whether the other end has answered a call.
///
/// # Errors
///
/// Why the call failed, or `TimedOut` if it wasn't answered in time.
fn is_answered(stream: &TcpStream, waited: u8) -> io::Result<bool> {
    if let Some(error) = stream.take_error()? {
        return Err(error);
    }
    if stream.peer_addr().is_ok() {
        return Ok(true);
    }
    if waited < PATIENCE {
        Ok(false)
    } else {
        Err(io::Error::from(ErrorKind::TimedOut))
    }
}
