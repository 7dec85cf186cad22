//! The socket of a client.

ghost use Rattle.std.specs.Prelude.{◌≡◌, ◌≢◌, ◌+◌, ◌-◌, ◌^◌, ◌<◌, ◌≤◌, ◌==◌, false, true, min, length};
ghost use Rattle.nut_io.specs.Writes.{IsWithin};
ghost use Rattle.nut_poll.specs.declared.link.Heard.TheVariants as heard;
ghost use Rattle.nut_poll.specs.declared.link.Heard.TheVariants.{Part};
ghost use Rattle.nut_server_sockets.specs.Seats.{allowed_silence, is_due, last_heard};
ghost use Rattle.nut_server_sockets.specs.inside.Light.{IsHeardLight};

use crate::batches::{cut, is_one_line};
use mio::event::Event;
use mio::net::TcpStream;
use nut_io::{Piece, Written};
use nut_poll::{Heard, Link};
use nut_server::Server;
use slab::Slab;
use std::net::IpAddr;

/// How many seconds a client may be silent.
pub const PATIENCE: u64 = 60;

/// How many seconds a client may be silent if it is logged in.
const PATIENCE_WITH_LOGIN: u64 = 600;

/// A client's socket.
#[derive(Drop)]
pub struct Client {
    /// The number of its connection.
    number: u64,
    address: IpAddr,
    /// The key of its login, if it has one.
    login: Option<usize>,
    link: Link<TcpStream>,
    /// The key of what was read from it and the server hasn't been given, if there is any.
    held: Option<usize>,
    /// Whether there is something to read, which isn't read while an answer waits.
    is_parked: bool,
    /// The second in which it connected.
    since: u64,
    /// The second in which it last sent a whole line, or took some of an answer; 0 if it has sent none.
    spoke: u64,
}

impl Client {
    /// Returns a client that connects in this second, counted from 1.
    pub fn new(number: u64, address: IpAddr, stream: TcpStream, second: u64) -> Client
        ensures number { result.number ≡ number }
        ensures due { is_due result ≡ false }
    {
        Client {
            number,
            address,
            login: None,
            link: Link::new(stream),
            held: None,
            is_parked: false,
            since: second,
            spoke: 0,
        }
    }

    /// Returns the number of its connection.
    pub fn number(&self) -> u64
        ensures { result ≡ self.now.number }
    {
        self.number
    }

    /// Returns the address that it connected from.
    pub fn address(&self) -> IpAddr {
        self.address
    }

    /// Notes that it is logged in: its login has this key.
    pub fn note_login(&mut self, key: usize)
        ensures { self.new ≡ record self.old { login = self.new.login } }
    {
        self.login = Some(key);
    }

    /// Returns the key of its login, if it had one, which has ended.
    pub fn end_login(&mut self) -> Option<usize>
        ensures { self.new ≡ record self.old { login = self.new.login } }
    {
        self.login.take()
    }

    /// Reads up to a piece, and returns as much of it as the server is given at once. The rest is held, and returned
    /// before anything more is read. If there is no room to hold it, that is the end of the connection.
    pub fn hear(
        &mut self,
        server: &Server,
        piece: &mut Piece,
        held: &mut Slab<Piece>,
        second: u64,
    ) -> Heard
        ensures number { self.new.number ≡ self.old.number }
        ensures left { is_due self.new ≡ true → result ≡ Part }
        ensures light { IsHeardLight result server.now self.old.number piece.new.items }
    {
        let heard = self.next_piece(piece, held);
        if heard == Heard::Nothing || heard == Heard::End {
            return heard;
        }
        // most pieces are one line
        if is_one_line(piece.as_slice()) {
            self.spoke = second;
            return heard;
        }
        let is_begun = server.kept(self.number) > 0;
        let end = cut(is_begun, piece.as_slice());
        let (now, later) = piece.as_slice().split_at(end);
        // most end with a line's end, and then take no search
        if matches!(now.last(), Some(b'\n')) || now.contains(&b'\n') {
            self.spoke = second;
        }
        if later.is_empty() {
            return heard;
        }
        self.held = hold(held, later);
        if self.held.is_none() {
            self.park();
            return Heard::End;
        }
        piece.truncate(end);
        Heard::Part
    }

    /// Returns what is held, or reads up to a piece if nothing is.
    fn next_piece(&mut self, piece: &mut Piece, held: &mut Slab<Piece>) -> Heard
        ensures number { self.new.number ≡ self.old.number }
        ensures left { is_due self.new ≡ true → result ≡ Part }
        ensures some { result ≢ heard.Nothing → result ≢ heard.End → 0 < length piece.new.items }
    {
        if let Some(key) = self.held.take()
            && take_held(held, key, piece)
        {
            return Heard::Part;
        }
        self.link.hear(piece)
    }

    /// Returns the key of what was read from it and won't be given to the server, if there is any.
    pub fn end_held(&mut self) -> Option<usize>
        ensures { self.new.number ≡ self.old.number }
    {
        self.held.take()
    }

    /// Puts off reading until a write to the client succeeds.
    pub fn park(&mut self)
        ensures number { self.new.number ≡ self.old.number }
        ensures due { is_due self.new ≡ false }
    {
        self.is_parked = true;
    }

    /// Offers bytes. Returns the outcome, and whether the client is then to be read again.
    pub fn offer(&mut self, bytes: &[u8], second: u64) -> (Written, bool)
        ensures within { IsWithin result.0 (length bytes.now) }
        ensures number { self.new.number ≡ self.old.number }
        ensures due { result.1 ≡ false → is_due self.new ≡ is_due self.old }
    {
        let written = self.link.offer(bytes);
        let Written::Took(_) = written else {
            return (written, false);
        };
        let was_parked = self.is_parked;
        self.is_parked = false;
        self.spoke = second;
        (written, was_parked)
    }

    /// Notes an event of the socket.
    pub fn note(&mut self, event: &Event)
        ensures number { self.new.number ≡ self.old.number }
        ensures more { self.new.link.has_more ≡ true }
    {
        self.link.note(event);
    }

    /// Returns how many seconds of silence the client is allowed. Whether it is logged in matters only after
    /// [`PATIENCE`].
    pub fn patience(&self, server: &Server, second: u64) -> u64
        ensures least { PATIENCE ≤ result }
        ensures value { last_heard self.now + PATIENCE < second → result ≡ allowed_silence server.now self.now.number }
    {
        if second > self.last_of(PATIENCE) && server.is_logged_in(self.number) {
            PATIENCE_WITH_LOGIN
        } else {
            PATIENCE
        }
    }

    /// Returns the last second of as many of silence.
    pub fn last_of(&self, patience: u64) -> u64
        ensures { result ≡ min (last_heard self.now + patience) (2 ^ 64 - 1) }
    {
        self.heard().saturating_add(patience)
    }

    /// Returns the second in which it last sent a whole line or took some of an answer; that in which it connected, if it has
    /// sent no line.
    pub fn heard(&self) -> u64
        ensures { result ≡ last_heard self.now }
    {
        if self.is_mute() {
            self.since
        } else {
            self.spoke
        }
    }

    /// Whether it has sent no whole line.
    pub fn is_mute(&self) -> bool
        ensures { result ≡ (self.now.spoke == 0) }
    {
        self.spoke == 0
    }
}

/// Holds bytes, and returns their key, or `None` if there is no room for them. It stands apart, so that no piece that is handed
/// on whole pays for the place of another.
#[inline(never)]
fn hold(held: &mut Slab<Piece>, bytes: &[u8]) -> Option<usize> {
    let mut piece = Piece::new();
    piece.try_extend_from_slice(bytes).ok()?;
    held.insert(piece).ok()
}

/// Puts the bytes that are held under this key into the piece. Returns whether there are any.
#[inline(never)]
fn take_held(held: &mut Slab<Piece>, key: usize, piece: &mut Piece) -> bool
    ensures { result ≡ true → 0 < length piece.new.items }
{
    piece.clear();
    if let Some(bytes) = held.try_remove(key) {
        let _ = piece.try_extend_from_slice(bytes.as_slice());
    }
    !piece.is_empty()
}
