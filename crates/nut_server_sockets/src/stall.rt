//! What is done first after the server itself was stopped.

ghost use Rattle.std.specs.Prelude.{◌≡◌, ◌<◌, [], true, nat_lt};
ghost use Rattle.nut_poll.specs.Queue.{Looks, Queue};
ghost use Rattle.nut_poll.specs.declared.ready.TheConstants.{SOCKETS_MAX};
ghost use Rattle.nut_server_sockets.specs.inside.Looking.{KeepsLine, is_in_line};

use mio::Token;
use nut_poll::Ready;
use std::alloc::{AllocError, Global};

/// The most seconds that clients wait for the drivers.
const PATIENCE: u8 = 2;

/// The clients that wait for the drivers.
///
/// A server that was stopped while the clock continued, for example by a signal or for want of memory, hasn't heard from
/// any driver for more than a third of MAXAGE, and might call all data stale. It then sends each driver PING, and most
/// answer at once. So clients are read only after that. A machine that slept isn't noticed, since its clock stood
/// still.
#[derive(Drop)]
pub struct Stall {
    clients: Ready,
    /// How many more seconds they wait.
    seconds: u8,
}

impl Stall {
    /// Returns the state in which no client waits.
    ///
    /// # Errors
    ///
    /// [`AllocError`] if memory cannot be allocated.
    pub fn new(alloc: Global) -> Result<Stall, AllocError> {
        Ok(Stall {
            clients: Ready::new(alloc)?,
            seconds: 0,
        })
    }

    /// Makes clients wait from now on.
    pub fn begin(&mut self)
        ensures { (ready : Queue) → KeepsLine ready self.old ready self.new }
    {
        self.seconds = PATIENCE;
    }

    /// Counts a second that has passed. Ends the wait when its last second is over.
    pub fn second(&mut self, ready: &mut Ready)
        ensures comes { Looks [] ready.old ready.new }
        ensures line { KeepsLine ready.old self.old ready.new self.new }
    {
        if self.seconds == 1 {
            self.end(ready);
        } else {
            self.seconds = self.seconds.saturating_sub(1);
        }
    }

    /// Whether clients have to wait.
    pub fn is_on(&self) -> bool
        ensures { result ≡ nat_lt 0 self.now.seconds }
    {
        self.seconds > 0
    }

    /// Makes a client wait, if clients have to. Returns whether it waits.
    pub fn hold(&mut self, client: Token) -> bool
        ensures line { (ready : Queue) → KeepsLine ready self.old ready self.new }
        ensures held { (ready : Queue) → result ≡ true → client.0 < SOCKETS_MAX → is_in_line ready self.new client.0 ≡ true }
    {
        if !self.is_on() {
            return false;
        }
        self.clients.insert(client);
        true
    }

    /// Ends the wait: each client that waited is to be looked at.
    pub fn end(&mut self, ready: &mut Ready)
        ensures comes { Looks [] ready.old ready.new }
        ensures line { KeepsLine ready.old self.old ready.new self.new }
    {
        self.seconds = 0;
        ready.append(&mut self.clients);
    }
}
