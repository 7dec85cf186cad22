//! What keeps clients out, and what closes their connections: a lack of memory, or clients that call when the server is full.

ghost use Rattle.std.specs.Prelude.{◌≡◌, ◌↔◌, IsTrue, true, false};

use crate::report::SocketReport;
use nut_poll::Reports;
use nut_server::Server;
use nut_server_spec::OPENED_MAX;
use std::io;
use std::io::ErrorKind;
use std::net::IpAddr;

/// Which causes that keep clients out or close their connections were reported since a client was let in: each is reported
/// once until then. At most one report is made in a second, so that clients that come and go don't fill a log.
#[derive(Drop)]
pub struct Hindrances {
    /// Whether it was reported that the server refuses clients.
    has_told_refusal: bool,
    /// Whether a lack of memory was reported.
    has_told_memory: bool,
    /// Whether another error was reported.
    has_told_error: bool,
    /// Whether something was reported in this second.
    has_told: bool,
}

impl Hindrances {
    /// Returns the state before any was reported.
    pub fn none() -> Hindrances {
        Hindrances {
            has_told_refusal: false,
            has_told_memory: false,
            has_told_error: false,
            has_told: false,
        }
    }

    /// Notes that a client was let in.
    pub fn end(&mut self) {
        self.has_told_refusal = false;
        self.has_told_memory = false;
        self.has_told_error = false;
    }

    /// Begins a second.
    pub fn second(&mut self) {
        self.has_told = false;
    }

    /// Reports that the server refused a client.
    pub fn tell_refusal(&mut self, server: &Server, reports: &mut Reports<'_>) {
        if note(&mut self.has_told_refusal, &mut self.has_told) {
            reports.warn(if server.opened() >= OPENED_MAX {
                SocketReport::Spent
            } else {
                SocketReport::Full(server.config().most_connections())
            });
        }
    }

    /// Reports that the connection of a client from this address is closed to let another in.
    pub fn tell_way(&mut self, address: IpAddr, server: &Server, reports: &mut Reports<'_>) {
        if !self.has_told {
            self.has_told = true;
            let most = server.config().most_connections();
            reports.warn(SocketReport::MadeWay(address, most));
        }
    }

    /// Reports that the connection of a client from this address is closed for lack of memory.
    pub fn tell_lack(&mut self, address: IpAddr, reports: &mut Reports<'_>) {
        if note(&mut self.has_told_memory, &mut self.has_told) {
            reports.warn(SocketReport::Unanswered(address));
        }
    }

    /// Reports an error for which no client can be let in.
    pub fn tell_error(&mut self, error: io::Error, reports: &mut Reports<'_>) {
        let is_due = if error.kind() == ErrorKind::OutOfMemory {
            note(&mut self.has_told_memory, &mut self.has_told)
        } else {
            note(&mut self.has_told_error, &mut self.has_told)
        };
        if is_due {
            reports.warn(SocketReport::ShutOut(error));
        }
    }
}

/// Returns whether a cause is to be reported, and notes that it is.
fn note(has_told_it: &mut bool, has_told: &mut bool) -> bool
    ensures due { IsTrue result ↔ (has_told_it.old ≡ false) × (has_told.old ≡ false) }
    ensures told { IsTrue result → (has_told_it.new ≡ true) × (has_told.new ≡ true) }
{
    let is_due = !*has_told_it && !*has_told;
    if is_due {
        *has_told_it = true;
        *has_told = true;
    }
    is_due
}
