//! The link to a driver.

ghost use Rattle.std.specs.Prelude.{length};
ghost use Rattle.nut_io.specs.Writes.{IsWithin};

use crate::report::{End, SocketReport};
use mio::event::Event;
use mio::net::UnixStream;
use mio::{Interest, Registry, Token};
use nut_io::{Piece, Written};
use nut_poll::{Heard, Link, Reports, text_of};
use nut_server::Unread;
use std::alloc::{AllocError, Global};
use std::io::ErrorKind;
use std::net::Net;
use std::{io, mem};

/// The driver of a UPS, which listens on a Unix socket.
#[derive(Drop)]
pub struct Driver {
    /// The name of the UPS.
    name: String,
    /// The name of the driver's program.
    program: String,
    path: String,
    link: Option<Link<UnixStream>>,
    /// Why the last dial failed, if one has failed since the driver was last connected.
    missed: Option<ErrorKind>,
    /// Whether clients wait until the driver says something.
    is_awaited: bool,
    /// Whether the data of the UPS were stale when that was last noted since the driver was connected.
    is_stale: bool,
    /// Whether it was noted that a shutdown of the UPS is forced.
    is_forced: bool,
    /// How many variables were reported about which its lines can't be read.
    unread_told: usize,
    /// Whether it was reported that there are more.
    has_told_more: bool,
}

impl Driver {
    /// Returns the driver of a UPS, not yet connected. Its socket is `DRIVER-NAME` in the folder.
    ///
    /// # Errors
    ///
    /// [`AllocError`] if memory cannot be allocated.
    pub fn new(
        alloc: Global,
        folder: &str,
        program: &[u8],
        name: &[u8],
    ) -> Result<Driver, AllocError> {
        let program = text_of(program);
        let name = text_of(name);
        Ok(Driver {
            name: String::from_str(alloc, name)?,
            program: String::from_str(alloc, program)?,
            path: format!(in alloc; "{folder}/{program}-{name}")?,
            link: None,
            missed: None,
            is_awaited: false,
            is_stale: false,
            is_forced: false,
            unread_told: 0,
            has_told_more: false,
        })
    }

    /// Returns the name of the UPS.
    pub fn name(&self) -> &str {
        self.name.as_str()
    }

    /// Whether it is this program, for the UPS with this name.
    pub fn is(&self, program: &[u8], name: &[u8]) -> bool {
        self.program.as_bytes() == program && self.name.as_bytes() == name
    }

    /// Returns the path of the driver's socket.
    pub fn path(&self) -> &str {
        self.path.as_str()
    }

    /// Whether it is connected.
    pub fn is_connected(&self) -> bool {
        self.link.is_some()
    }

    /// Connects to the driver, and registers the socket with the poll.
    ///
    /// # Errors
    ///
    /// The error of the connect or of the registration.
    pub fn dial(&mut self, net: &impl Net, registry: &Registry, token: Token) -> io::Result<()> {
        let mut stream = UnixStream::connect(net, self.path.as_str())?;
        let both = Interest::READABLE | Interest::WRITABLE;
        registry.register(&mut stream, token, both)?;
        self.link = Some(Link::local(stream));
        self.missed = None;
        self.is_stale = false;
        Ok(())
    }

    /// Notes why a dial failed. Returns whether that is new: it is the first failure since the driver was last connected,
    /// or the last one had another cause.
    pub fn misses(&mut self, cause: ErrorKind) -> bool {
        mem::replace(&mut self.missed, Some(cause)) != Some(cause)
    }

    /// Notes whether the data of the UPS are stale, if the driver is connected. Returns whether that has changed: data
    /// aren't stale when the driver connects.
    pub fn note_staleness(&mut self, is_stale: bool) -> bool {
        let has_changed = self.is_connected() && self.is_stale != is_stale;
        if has_changed {
            self.is_stale = is_stale;
        }
        has_changed
    }

    /// Notes that a shutdown of the UPS is forced. Returns whether that is new.
    pub fn note_forced(&mut self) -> bool {
        !mem::replace(&mut self.is_forced, true)
    }

    /// Warns that the machines of the UPS stop now, if a shutdown of it is forced.
    pub fn warn_if_forced(&self, reports: &mut Reports<'_>) {
        if self.is_forced {
            reports.warn(SocketReport::Stops(self.name()));
        }
    }

    /// Whether some of the variables about which its lines can't be read weren't reported.
    pub fn has_untold(&self, unread: &Unread) -> bool {
        self.unread_told != unread.len() || unread.has_more() && !self.has_told_more
    }

    /// Reports the variables about which its lines can't be read, each once. It stands apart, so that a driver without news
    /// doesn't pay for the place of a report.
    #[inline(never)]
    pub fn tell_unread(&mut self, unread: &Unread, reports: &mut Reports<'_>) {
        for place in self.unread_told..unread.len() {
            let variable = text_of(unread.name(place));
            reports.warn(SocketReport::Unread(self.name(), variable));
        }
        self.unread_told = unread.len();
        if unread.has_more() && !mem::replace(&mut self.has_told_more, true) {
            reports.warn(SocketReport::UnreadMore(self.name()));
        }
    }

    /// Makes clients wait until the driver says something and all of that is read, if it is connected.
    pub fn await_word(&mut self) {
        self.is_awaited = self.is_connected();
    }

    /// Whether clients wait until the driver says something and all of that is read.
    pub fn is_awaited(&self) -> bool {
        self.is_awaited || matches!(&self.link, Some(link) if link.has_more())
    }

    /// Reads from the driver.
    pub fn hear(&mut self, piece: &mut Piece) -> Heard {
        let Some(link) = &mut self.link else {
            return Heard::Nothing;
        };
        let heard = link.hear(piece);
        if heard != Heard::Nothing {
            self.is_awaited = false;
        }
        heard
    }

    /// Offers bytes to the driver. If that fails, the link is closed, which is reported.
    pub fn offer(&mut self, bytes: &[u8], reports: &mut Reports<'_>) -> Written
        ensures { IsWithin result (length bytes.now) }
    {
        let written = match &mut self.link {
            Some(link) => link.offer(bytes),
            None => Written::Failed,
        };
        if matches!(written, Written::Failed) {
            self.end(End::Lost, reports);
        }
        written
    }

    /// Notes an event of the socket.
    pub fn note(&mut self, event: &Event) {
        if let Some(link) = &mut self.link {
            link.note(event);
        }
    }

    /// Closes the link for this reason and reports it, unless it is closed already.
    pub fn end(&mut self, end: End, reports: &mut Reports<'_>) {
        if self.link.take().is_some() {
            self.is_awaited = false;
            reports.tell(SocketReport::Ended(self.name(), end));
        }
    }
}
