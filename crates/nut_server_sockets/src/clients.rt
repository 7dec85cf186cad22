//! The sockets of clients.

ghost use Rattle.std.specs.Prelude.{◌≡◌, ◌≢◌, ◌⊎◌, ◌<◌, ℕ, false, true, length, slice_index_or, Some, None, IfOk, IfSome, IsSomeAnd, OnErr};
ghost use Rattle.nut_io.specs.Writes.{IsWithin};
ghost use Rattle.nut_server_spec.specs.Acceptance.{has_login, may_read, session_of};
ghost use Rattle.nut_server_sockets.specs.Seats.{HasBesides, IsSilent, KeepsSeats, MakesWay, TouchesOnly, is_stranger_at, number_at};
ghost use Rattle.nut_server_sockets.specs.inside.Keys.{AreApart, AreNamed};
ghost use Rattle.nut_server_sockets.specs.inside.Due.{ChangesOnly, HasMore, NoMoreAreDue, is_due_at};
ghost use Rattle.nut_server_sockets.specs.inside.Light.{IsHeardLight};
ghost use Rattle.nut_poll.specs.declared.link.Heard.TheVariants.{Part};
ghost use Rattle.slab.specs.Slab.{get};

use crate::client::{Client, PATIENCE};
use crate::door::Guest;
use crate::keepalive::keep_alive;
use crate::leaving::Leaving;
use crate::login::Login;
use crate::source::Source;
use mio::event::Event;
use mio::{Interest, Registry};
use nut_conf::CONNECTIONS_MAX;
use nut_io::{Piece, Written};
use nut_poll::Heard;
use nut_server::Server;
use slab::Slab;
use std::alloc::{AllocError, Global};
use std::io;
use std::io::ErrorKind;
use std::net::IpAddr;

/// The greatest number of clients.
const CLIENTS_MAX: usize = CONNECTIONS_MAX as usize;

/// A client that has been silent for longer than it may.
#[derive(Clone, Copy)]
pub struct Silent {
    /// The number of its connection.
    pub number: u64,
    /// The address that it connected from.
    pub address: IpAddr,
    /// How many seconds of silence it was allowed.
    pub seconds: u64,
}

/// The sockets of the open connections. The token of a socket holds its key, which is used again after the socket is
/// closed. Connections are told apart by their numbers, which are not.
#[derive(Drop)]
pub struct Clients {
    sockets: Slab<Client>,
    /// The number of each connection, and the key of its socket, by rising number: the newest is the last.
    keys: Vec<(u64, usize)>,
    /// The logins of clients. Each client has at most one, and most have none, so a client keeps its key: nothing is written to
    /// the room of all others.
    logins: Slab<Login>,
    /// What was read from clients and the server hasn't been given, kept as the logins are.
    held: Slab<Piece>,
    /// The key of the socket that was read last. Most bytes are offered to that connection.
    last_heard: usize,
    /// The second of those in which the server is awake, from 1 on. Seconds in which it was stopped don't count as silence of a
    /// client.
    second: u64,
    /// The last second in which no client can have been silent for too long.
    patient: u64,
    ghost named: { AreNamed keys.items sockets },
    ghost apart: { AreApart keys.items },
}

impl Clients {
    /// Returns an empty set of sockets, with room for those of all connections that may be open at once. So no client needs
    /// memory to be let in.
    ///
    /// # Errors
    ///
    /// [`AllocError`] if memory cannot be allocated.
    pub fn with_room(alloc: Global) -> Result<Clients, AllocError>
        ensures { IfOk result (λ clients. (key : ℕ) → get clients.sockets key ≡ None) }
    {
        Ok(Clients {
            sockets: Slab::with_capacity(alloc, CLIENTS_MAX)?,
            keys: Vec::with_capacity(alloc, CLIENTS_MAX)?,
            logins: Slab::with_capacity(alloc, CLIENTS_MAX)?,
            held: Slab::with_capacity(alloc, CLIENTS_MAX)?,
            last_heard: 0,
            second: 1,
            patient: u64::MAX,
        })
    }

    /// Keeps the socket of a connection and registers it with the poll. Its number is greater than those of all others.
    ///
    /// # Errors
    ///
    /// The error of the registration. The socket is closed then. Memory isn't lacking: there is room for as many sockets as
    /// connections may be open.
    pub fn add(&mut self, registry: &Registry, number: u64, guest: Guest) -> io::Result<()>
        ensures seats { HasBesides number self.new.sockets self.old.sockets }
        ensures err { OnErr result (KeepsSeats self.old.sockets self.new.sockets) }
        ensures due { NoMoreAreDue self.old.sockets self.new.sockets }
    {
        let Guest {
            mut stream,
            address,
        } = guest;
        let key = self.sockets.vacant_key();
        let all = Interest::READABLE | Interest::WRITABLE | Interest::PRIORITY;
        let token = Source::Client(key).token();
        registry.register(&mut stream, token, all)?;
        keep_alive(&stream);
        let client = Client::new(number, address, stream, self.second);
        self.patient = self.patient.min(client.last_of(PATIENCE));
        self.keys.push((number, key))?;
        if self.sockets.insert(client).is_err() {
            self.keys.pop();
            return Err(io::Error::from(ErrorKind::OutOfMemory));
        }
        Ok(())
    }

    /// Returns the place of a connection in the list of keys.
    fn place(&self, number: u64) -> Option<usize>
        ensures within { IfSome result (λ place. place < length self.now.keys.items) }
        ensures number { IfSome result (λ place. (slice_index_or self.now.keys.items place (0, 0)).0 ≡ number) }
    {
        self.keys
            .as_slice()
            .binary_search_by_key(&number, |key| key.0)
            .ok()
    }

    /// Returns the key of the socket of a connection. That of the socket that was read last is found without a search.
    fn key(&self, number: u64) -> Option<usize>
        ensures { IfSome result (λ key. number_at self.now.sockets key ≡ Some number) }
    {
        if let Some(client) = self.sockets.get(self.last_heard)
            && client.number() == number
        {
            return Some(self.last_heard);
        }
        Some(self.keys[self.place(number)?].1)
    }

    /// Reads from a socket, if the server may read its connection. If not, that is put off until a write to it succeeds.
    /// Returns the number of the connection and what was heard, or `None` if it wasn't read.
    pub fn hear(&mut self, key: usize, server: &Server, piece: &mut Piece) -> Option<(u64, Heard)>
        ensures may { IfSome result (λ heard. may_read (session_of heard.0 server.now.sessions) ≡ true) }
        ensures seat { IfSome result (λ heard. number_at self.new.sockets key ≡ Some heard.0) }
        ensures seats { KeepsSeats self.old.sockets self.new.sockets }
        ensures others { ChangesOnly key self.old.sockets self.new.sockets }
        ensures put_off { result ≡ None → IfSome (number_at self.old.sockets key)
            (λ c. may_read (session_of c server.now.sessions) ≡ false) }
        ensures left { is_due_at self.new.sockets key ≡ true → IsSomeAnd result (λ heard. heard.1 ≡ Part) }
        ensures light { IfSome result (λ heard. IsHeardLight heard.1 server.now heard.0 piece.new.items) }
    {
        let client = self.sockets.get_mut(key)?;
        let number = client.number();
        if !server.may_read(number) {
            client.park();
            return None;
        }
        self.last_heard = key;
        let heard = client.hear(server, piece, &mut self.held, self.second);
        Some((number, heard))
    }

    /// Notes an event of a socket.
    pub fn note(&mut self, key: usize, event: &Event)
        ensures seats { KeepsSeats self.old.sockets self.new.sockets }
        ensures others { ChangesOnly key self.old.sockets self.new.sockets }
        ensures more { HasMore self.new.sockets key }
    {
        if let Some(client) = self.sockets.get_mut(key) {
            client.note(event);
        }
    }

    /// Offers bytes to a connection. Returns the outcome, and the key of its socket if it is then to be read again.
    pub fn offer(&mut self, number: u64, bytes: &[u8]) -> (Written, Option<usize>)
        ensures within { IsWithin result.0 (length bytes.now) }
        ensures others { TouchesOnly number self.old.sockets self.new.sockets }
        ensures due { (key : ℕ) → result.1 ≢ Some key → is_due_at self.new.sockets key ≡ is_due_at self.old.sockets key }
    {
        let Some(key) = self.key(number) else {
            return (Written::Failed, None);
        };
        let Some(client) = self.sockets.get_mut(key) else {
            return (Written::Failed, None);
        };
        match client.offer(bytes, self.second) {
            (written, true) => (written, Some(key)),
            (written, false) => (written, None),
        }
    }

    /// Counts a second that has passed.
    pub fn second(&mut self)
        ensures { self.new.sockets ≡ self.old.sockets }
    {
        self.second = self.second.saturating_add(1);
    }

    /// Whether a client can have been silent for longer than it may. Most calls say no, without a look at any.
    pub fn may_be_silent(&self) -> bool {
        self.second > self.patient
    }

    /// Returns a client that has been silent for longer than it may, if there is one.
    pub fn find_silent(&mut self, server: &Server) -> Option<Silent>
        ensures sockets { self.new.sockets ≡ self.old.sockets }
        ensures silent { IfSome result (λ silent. IsSilent server.now self.old.second self.old.sockets silent.number) }
    {
        let mut patient = u64::MAX;
        for (_, key) in self.keys.iter() {
            let Some(client) = self.sockets.get(*key) else {
                continue;
            };
            let seconds = client.patience(server, self.second);
            let last = client.last_of(seconds);
            if self.second > last {
                return Some(Silent {
                    number: client.number(),
                    address: client.address(),
                    seconds,
                });
            }
            patient = patient.min(last);
        }
        self.patient = patient;
        None
    }

    /// Returns the number of the connection that is closed if a client calls, if one has to be. Clients that gave the name and the
    /// password of a user make way only if there are no others without login.
    pub fn makes_way(&self, server: &Server) -> Option<u64>
        ensures { IfSome result (λ c. MakesWay server.now c) }
    {
        let first = server.makes_way()?;
        let are_strangers = server.is_stranger(first);
        let mut leaving = Leaving::none();
        for (number, key) in self.keys.iter() {
            if may_leave(server, are_strangers, *number)
                && let Some(client) = self.sockets.get(*key)
            {
                leaving.look(*number, client.heard(), client.is_mute());
            }
        }
        let chosen = leaving.chosen(server.config().most_connections());
        Some(chosen.unwrap_or(first))
    }

    /// Returns the address that the client of a connection connected from.
    pub fn address(&self, number: u64) -> Option<IpAddr> {
        Some(self.sockets.get(self.key(number)?)?.address())
    }

    /// Notes that the client of a connection is logged in.
    pub fn note_login(&mut self, number: u64, login: Login)
        ensures seats { KeepsSeats self.old.sockets self.new.sockets }
        ensures due { NoMoreAreDue self.old.sockets self.new.sockets }
    {
        if let Some(key) = self.key(number)
            && let Some(client) = self.sockets.get_mut(key)
            && let Ok(key) = self.logins.insert(login)
        {
            client.note_login(key);
        }
    }

    /// Returns the login of the client of a connection, if it had one, which has ended.
    pub fn end_login(&mut self, number: u64) -> Option<Login>
        ensures seats { KeepsSeats self.old.sockets self.new.sockets }
        ensures due { NoMoreAreDue self.old.sockets self.new.sockets }
    {
        let key = self.key(number)?;
        let login = self.sockets.get_mut(key)?.end_login()?;
        self.logins.try_remove(login)
    }

    /// Closes the socket of a connection, and forgets what is held of its client. Returns the login of that, if it has one.
    pub fn close(&mut self, number: u64) -> Option<Login>
        ensures others { HasBesides number self.old.sockets self.new.sockets }
        ensures due { NoMoreAreDue self.old.sockets self.new.sockets }
    {
        let place = self.place(number)?;
        let (_, key) = self.keys.remove(place);
        let mut client = self.sockets.try_remove(key)?;
        if let Some(held) = client.end_held() {
            self.held.try_remove(held);
        }
        self.logins.try_remove(client.end_login()?)
    }
}

/// Whether the connection with this number may be closed for a client that calls, if only strangers may or any without login.
fn may_leave(server: &Server, are_strangers: bool, number: u64) -> bool
    ensures no_login { result ≡ true → has_login (session_of number server.now.sessions) ≡ false }
    ensures stranger { result ≡ true → are_strangers ≡ true → is_stranger_at server.now number ≡ true }
{
    if are_strangers {
        server.is_stranger(number)
    } else {
        !server.is_logged_in(number)
    }
}
