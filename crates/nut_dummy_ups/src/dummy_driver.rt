//! A dummy driver on a Unix socket.

use mio::net::{UnixListener, UnixStream};
use mio::{Events, Interest, Poll, Token};
use nut_dummy::{Dummy, DummyFault};
use nut_io::{Piece, Written};
use nut_log::{Level, Lines};
use nut_poll::{Heard, Link, Seconds};
use std::alloc::Global;
use std::io;
use std::io::{Read, Write};
use std::net::Net;
use std::time::{Clock, Duration};

const LISTENER: Token = Token(0);

const SERVER: Token = Token(1);

/// Why a link with a server ends.
#[derive(Clone, Copy, PartialEq, Eq)]
enum LinkEnd {
    /// The server closed it, or it failed.
    Lost,
    /// Memory for an answer to the server could not be allocated.
    OutOfMemory,
}

/// What a dummy driver still has to do.
#[derive(Clone, Copy)]
struct Tasks {
    /// The moment that it is to be told, if it hasn't been.
    moment: Option<u64>,
    /// Whether its server may have sent something.
    hear: bool,
}

/// A dummy driver that listens on a Unix socket. It serves one server at a time; others wait until that one is gone.
#[derive(Drop)]
pub struct DummyDriver {
    poll: Poll,
    events: Events,
    seconds: Seconds,
    listener: UnixListener,
    link: Option<Link<UnixStream>>,
    dummy: Dummy,
    tasks: Tasks,
}

impl DummyDriver {
    /// Returns a driver that waits for its first server.
    ///
    /// # Errors
    ///
    /// The error of the poll or of the clock, or a lack of memory.
    pub fn new(
        rt: &(impl Net + Clock),
        alloc: Global,
        mut listener: UnixListener,
        dummy: Dummy,
    ) -> io::Result<DummyDriver> {
        let (poll, events, seconds) = watch(rt, alloc, &mut listener)?;
        Ok(DummyDriver {
            poll,
            events,
            seconds,
            listener,
            link: None,
            dummy,
            tasks: Tasks {
                moment: None,
                hear: false,
            },
        })
    }

    /// Waits until there is something to do, at most until the next second, and does it.
    ///
    /// # Errors
    ///
    /// The error of the wait or of the clock. A failure between the driver and its server only ends their link; that
    /// memory was lacking for an answer is written to `err`.
    pub fn turn<E: Lines>(&mut self, clock: &impl Clock, err: &mut E) -> io::Result<()> {
        self.wait(clock)?;
        self.let_in();
        let Some(link) = &mut self.link else {
            return Ok(());
        };
        if let Err(end) = converse(link, &mut self.dummy, &mut self.tasks) {
            self.link = None;
            if end == LinkEnd::OutOfMemory {
                // what can't be written is dropped
                let _ = writeln!(
                    err.begin(Level::Warning),
                    "connection of the server closed: out of memory"
                );
            }
            self.let_in();
        }
        Ok(())
    }

    /// Waits, and notes the events.
    fn wait(&mut self, clock: &impl Clock) -> io::Result<()> {
        let patience = if self.tasks.hear && self.dummy.waits() == 0 {
            Duration::ZERO
        } else {
            self.seconds.ahead()
        };
        self.poll.poll(&mut self.events, Some(patience))?;
        for event in self.events.iter() {
            if event.token() == SERVER {
                if let Some(link) = &mut self.link {
                    link.note(event);
                }
                self.tasks.hear = true;
            }
        }
        if let Some(moment) = self.seconds.pass(clock)? {
            self.tasks.moment = Some(moment);
        }
        Ok(())
    }

    /// Accepts the next server, if one waits and none is connected.
    fn let_in(&mut self) {
        if self.link.is_some() {
            return;
        }
        self.tasks.hear = false;
        let Ok((mut stream, _)) = self.listener.accept() else {
            return;
        };
        let both = Interest::READABLE | Interest::WRITABLE;
        if self
            .poll
            .registry()
            .register(&mut stream, SERVER, both)
            .is_err()
        {
            return;
        }
        self.link = Some(Link::local(stream));
        self.dummy.linked();
    }
}

/// Gives the dummy driver the moment and what its server sent, each only if nothing waits before it, and offers what
/// then waits.
///
/// # Errors
///
/// Why the link has ended.
fn converse<S: Read + Write>(
    link: &mut Link<S>,
    dummy: &mut Dummy,
    tasks: &mut Tasks,
) -> Result<(), LinkEnd> {
    offer_waiting(link, dummy)?;
    if let Some(moment) = tasks.moment {
        if dummy.moment(moment).is_ok() {
            tasks.moment = None;
        }
        offer_waiting(link, dummy)?;
    }
    if !tasks.hear || dummy.waits() > 0 {
        return Ok(());
    }
    hear(link, dummy, tasks)?;
    offer_waiting(link, dummy)
}

/// Returns a poll of a listener, and what is needed to wait for its events and for seconds.
fn watch(
    rt: &(impl Net + Clock),
    alloc: Global,
    listener: &mut UnixListener,
) -> io::Result<(Poll, Events, Seconds)> {
    let events = Events::with_capacity(alloc, 8)?;
    let seconds = Seconds::start(rt)?;
    let poll = Poll::new(rt)?;
    poll.registry()
        .register(listener, LISTENER, Interest::READABLE)?;
    Ok((poll, events, seconds))
}

/// Reads one piece, and gives it to the dummy driver.
///
/// # Errors
///
/// Why the link has ended.
fn hear<S: Read + Write>(
    link: &mut Link<S>,
    dummy: &mut Dummy,
    tasks: &mut Tasks,
) -> Result<(), LinkEnd> {
    let mut piece = Piece::new();
    let heard = link.hear(&mut piece);
    tasks.hear = heard == Heard::Part;
    match heard {
        Heard::Nothing => Ok(()),
        Heard::End => Err(LinkEnd::Lost),
        Heard::All | Heard::Part => match dummy.server_bytes(piece.as_slice()) {
            Ok(()) => Ok(()),
            Err(DummyFault::Memory(_)) => Err(LinkEnd::OutOfMemory),
            Err(_) => Err(LinkEnd::Lost),
        },
    }
}

/// Offers bytes until nothing waits or no more is taken.
///
/// # Errors
///
/// Why the link has ended.
fn offer_waiting<S: Read + Write>(link: &mut Link<S>, dummy: &mut Dummy) -> Result<(), LinkEnd> {
    for _ in 0..u64::MAX {
        if dummy.waits() == 0 {
            return Ok(());
        }
        match link.offer(dummy.waiting()) {
            Written::Took(n) if dummy.took(n).is_ok() => {}
            Written::Took(_) | Written::Failed => return Err(LinkEnd::Lost),
            Written::Later => return Ok(()),
        }
    }
    Ok(())
}
