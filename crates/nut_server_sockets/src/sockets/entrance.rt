//! Lets clients in.

ghost use Rattle.std.specs.Prelude.{◌≡◌, ℕ, IfSome, None, OnErr};
ghost use Rattle.nut_server_sockets.specs.Seats.{HasBesides, KeepsSeats};
ghost use Rattle.nut_server_sockets.specs.Turns.{IsUnasked, moment_of};
ghost use Rattle.nut_server_sockets.specs.inside.Looking.{IsLook, KeepsHeeded, Stays};

use crate::door::{Guest, concerns_one};
use crate::sockets::Sockets;
use crate::source::Source;
use arrayvec::ArrayVec;
use nut_io::Piece;
use nut_poll::Reports;
use nut_server::{Refused, Server};
use nut_server_loop::Next;
use nut_server_spec::ADDRESS_MAX;
use std::io::{ErrorKind, Write};

impl Sockets {
    /// Keeps the socket of the announced client, if there is one, or reports that the server refused it.
    pub(super) fn seat(
        &mut self,
        server: &Server,
        answer: &Result<(), Refused>,
        reports: &mut Reports<'_>,
    )
        ensures turns { Stays self.old self.new }
        ensures seats { HasBesides server.now.opened self.new.clients.sockets self.old.clients.sockets }
        ensures refused { OnErr answer.now (KeepsSeats self.old.clients.sockets self.new.clients.sockets) }
    {
        if self.door.has_announced() {
            self.seat_announced(server, answer, reports);
        }
    }

    /// Does what [`seat`](Self::seat) does. It stands apart, so that no other arrival pays for the place of a guest.
    #[inline(never)]
    fn seat_announced(
        &mut self,
        server: &Server,
        answer: &Result<(), Refused>,
        reports: &mut Reports<'_>,
    )
        ensures turns { Stays self.old self.new }
        ensures seats { HasBesides server.now.opened self.new.clients.sockets self.old.clients.sockets }
        ensures refused { OnErr answer.now (KeepsSeats self.old.clients.sockets self.new.clients.sockets) }
    {
        let Some(guest) = self.door.take_announced() else {
            return;
        };
        match answer {
            Ok(()) => self.keep(server.opened(), guest, reports),
            Err(_) => self.hindrances.tell_refusal(server, reports),
        }
    }

    /// Keeps the socket of a connection. If that is impossible, the connection is closed next.
    fn keep(&mut self, number: u64, guest: Guest, reports: &mut Reports<'_>)
        ensures turns { Stays self.old self.new }
        ensures seats { HasBesides number self.new.clients.sockets self.old.clients.sockets }
    {
        match self.clients.add(self.rounds.registry(), number, guest) {
            Ok(()) => self.hindrances.end(),
            Err(error) => {
                self.hindrances.tell_error(error, reports);
                self.unkept = Some(number);
            }
        }
    }

    /// Has the server told of a client that was accepted. If the server is full, one that isn't logged in is closed first,
    /// so that nobody locks the monitors out; after a reload that lowered MAXCONN, one after the other is.
    pub(super) fn admit(
        &mut self,
        server: &Server,
        piece: &mut Piece,
        reports: &mut Reports<'_>,
    ) -> Option<Next>
        ensures look { (token : ℕ) → IsLook self.old server.now token result self.new }
        ensures unasked { IfSome result (λ n. (moment_of n ≡ None) × IsUnasked self.old server.now n) }
        ensures none { result ≡ None → self.new.clients ≡ self.old.clients }
        ensures turns { Stays self.old self.new }
    {
        if !self.door.has_guest() {
            return None;
        }
        self.admit_guest(server, piece, reports)
    }

    /// Does what [`admit`](Self::admit) does, if a client was accepted. It stands apart as
    /// [`seat_announced`](Self::seat_announced).
    #[inline(never)]
    fn admit_guest(
        &mut self,
        server: &Server,
        piece: &mut Piece,
        reports: &mut Reports<'_>,
    ) -> Option<Next>
        ensures look { (token : ℕ) → IsLook self.old server.now token result self.new }
        ensures unasked { IfSome result (λ n. (moment_of n ≡ None) × IsUnasked self.old server.now n) }
        ensures none { result ≡ None → self.new.clients ≡ self.old.clients }
        ensures turns { Stays self.old self.new }
    {
        if let Some(number) = self.clients.makes_way(server) {
            self.turn_out(server, number, reports);
            return Some(Next::Close(number));
        }
        // the server is told the address as the piece of the arrival
        let address = self.door.announce()?;
        let mut shown = ArrayVec::<u8, ADDRESS_MAX>::new();
        let _ = write!(shown, "{address}");
        piece.clear();
        let _ = piece.try_extend_from_slice(shown.as_slice());
        Some(Next::Open)
    }

    /// Closes the socket of a connection to let another client in, and reports it.
    fn turn_out(&mut self, server: &Server, number: u64, reports: &mut Reports<'_>)
        ensures turns { Stays self.old self.new }
        ensures others { HasBesides number self.old.clients.sockets self.new.clients.sockets }
    {
        if let Some(address) = self.clients.address(number) {
            self.hindrances.tell_way(address, server, reports);
        }
        self.close(number, reports);
    }

    /// Accepts a client. If there is no descriptor for one, that is reported, and tried again in the next second.
    #[inline(never)]
    pub(super) fn look_at_listener(
        &mut self,
        server: &Server,
        i: usize,
        piece: &mut Piece,
        reports: &mut Reports<'_>,
    ) -> Option<Next>
        ensures look { (token : ℕ) → IsLook self.old server.now token result self.new }
        ensures heeds { KeepsHeeded self.old self.new }
    {
        match self.door.let_in(i) {
            Ok(()) => {
                self.rounds.ready.insert(Source::Listener(i).token());
                self.admit(server, piece, reports)
            }
            Err(error) => {
                if concerns_one(&error) {
                    self.rounds.ready.insert(Source::Listener(i).token());
                } else if error.kind() != ErrorKind::WouldBlock {
                    self.hindrances.tell_error(error, reports);
                }
                None
            }
        }
    }
}
