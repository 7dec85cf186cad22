//! A link with its pipes.

ghost use Rattle.std.specs.Prelude.{◌≡◌, ◌++◌, ◌+◌, ◌≤◌, ◌<◌, IfOk, OnOk, OnErr, IsTrue, [], min, map, length, take, is_some, true};
ghost use Rattle.nut_server_spec.specs.Acceptance.{session_of, waiting_of};
ghost use Rattle.nut_server_spec.specs.Event.{Took};
ghost use Rattle.nut_server_spec.specs.machine.Machine.{advance};
ghost use Rattle.nut_fleet.specs.World.{address_of};
ghost use Rattle.nut_fleet.specs.Log.{logged};
ghost use Rattle.nut_fleet.specs.machine.Going.{put_on};
ghost use Rattle.nut_play.specs.machine.Next.{is_played, reach_by, back_by, out_by, land_by, link_by, told_by, heard_by, told_news, reached_by, landed_by, back_put, out_put, made_by, open_by, waits_by};
ghost use Rattle.nut_play.specs.machine.Lacking.{ServerLacks, MonitorLacks, SendLacks, back_grows};
ghost use Rattle.nut_play.specs.Kept.{no_ends};
ghost use Rattle.nut_play.specs.Steps.{logged_of};

use crate::telling::{inform, is_open, tell};
use crate::types::{Lack, Logged};
use arrayvec::ArrayVec;
use bytes::BytesMut;
use itoa::Buffer;
use nut_monitor::{Event, Monitor};
use nut_server::{Arrival, Server};
use nut_server_spec::ADDRESS_MAX;
use nut_words::PIECE_MAX;
use std::alloc::Global;
use std::marker::Model;

/// The numbers of a monitor, a link of it, and a step.
#[derive(Clone, Copy)]
pub struct Place {
    pub monitor: usize,
    pub link: usize,
    pub step: usize,
}

/// A link: the number of its last connection, 0 if it was never made, and its pipes.
#[derive(Drop)]
pub struct Link {
    pub connection: u64,
    pub to_server: BytesMut<Global>,
    pub to_monitor: BytesMut<Global>,
}

impl Model for Link {
    ghost use Rattle.nut_fleet.specs.Seen.{Ends};

    ghost Value = { Ends };

    ghost view = { λ l. record { connection = l.connection; to_server = l.to_server.items; to_monitor = l.to_monitor.items } };
}

/// Returns how many bytes a step moves that may move `n`, if `there` are there: at most [`PIECE_MAX`].
pub fn count_of(n: usize, there: usize) -> usize
    ensures value { result ≡ min (min n PIECE_MAX) there }
    ensures most { result ≤ PIECE_MAX }
    ensures within { result ≤ there }
{
    n.min(PIECE_MAX).min(there)
}

impl Link {
    /// Makes a link that was never connected.
    pub fn new(alloc: Global) -> Link
        ensures { result ≡ no_ends }
    {
        Link {
            connection: 0,
            to_server: BytesMut::new(alloc),
            to_monitor: BytesMut::new(alloc),
        }
    }

    /// Connects the link, with empty pipes.
    pub fn make(&mut self, connection: u64)
        ensures { self.new ≡ record { connection = connection; to_server = []; to_monitor = [] } }
    {
        self.connection = connection;
        self.to_server.clear();
        self.to_monitor.clear();
    }

    /// Moves bytes from the pipe to the server. Returns whether the step was played.
    pub fn reach(&mut self, server: &mut Server, n: usize) -> Result<bool, Lack>
        ensures played { IfOk result (λ played. played ≡ is_played (reach_by server.old self.old n)) }
        ensures server { OnOk result (server.new ≡ told_by (reach_by server.old self.old n) 0 server.old) }
        ensures link { OnOk result (self.new ≡ reached_by (reach_by server.old self.old n) self.old) }
        ensures lack { OnErr result (ServerLacks server.old (reach_by server.old self.old n)) }
    {
        if !is_open(server, self.connection) {
            return Ok(false);
        }
        let count = count_of(n, self.to_server.len());
        if count == 0 {
            return Ok(true);
        }
        if !tell(
            server,
            Arrival::Bytes(self.connection, &self.to_server.as_slice()[..count]),
        )? {
            return Ok(false);
        }
        self.to_server.advance(count);
        Ok(true)
    }

    /// Moves bytes from the pipe to the monitor, on the link at `place`. Returns whether the step was played.
    pub fn land(
        &mut self,
        monitor: &mut Monitor,
        place: Place,
        n: usize,
        log: &mut Vec<Logged>,
    ) -> Result<bool, Lack>
        ensures played { IfOk result (λ played. played ≡ is_played (land_by place.monitor monitor.old.content place.link self.old n)) }
        ensures monitor { OnOk result (monitor.new ≡ record {
          config = monitor.old.config;
          content = heard_by (land_by place.monitor monitor.old.content place.link self.old n) monitor.old.content;
        }) }
        ensures link { OnOk result (self.new ≡ landed_by (land_by place.monitor monitor.old.content place.link self.old n) place.link self.old) }
        ensures log { OnOk result (map logged_of log.new.items
            ≡ map logged_of log.old.items ++ logged place.step (told_news (land_by place.monitor monitor.old.content place.link self.old n) monitor.old.content)) }
        ensures lack { OnErr result (MonitorLacks place.monitor monitor.old.content (land_by place.monitor monitor.old.content place.link self.old n)) }
    {
        if !monitor.linked(place.link) {
            return Ok(false);
        }
        let count = count_of(n, self.to_monitor.len());
        if count == 0 {
            return Ok(true);
        }
        let event = Event::LinkBytes(place.link, &self.to_monitor.as_slice()[..count]);
        if !inform(monitor, event, place.monitor, place.step, log)? {
            return Ok(false);
        }
        self.to_monitor.advance(count);
        Ok(true)
    }

    /// Moves bytes from the monitor into the pipe of the link at `place`. Returns whether the step was played.
    pub fn send(
        &mut self,
        server: &Server,
        monitor: &mut Monitor,
        place: Place,
        n: usize,
        log: &mut Vec<Logged>,
    ) -> Result<bool, Lack>
        ensures played { IfOk result (λ played. played ≡ is_played (out_by place.monitor monitor.old.content place.link n)) }
        ensures monitor { OnOk result (monitor.new ≡ record {
          config = monitor.old.config;
          content = heard_by (out_by place.monitor monitor.old.content place.link n) monitor.old.content;
        }) }
        ensures link { OnOk result (self.new ≡ out_put (out_by place.monitor monitor.old.content place.link n) place.link (open_by server.now self.old)
            (waits_by monitor.old.content place.link) self.old) }
        ensures log { OnOk result (map logged_of log.new.items
            ≡ map logged_of log.old.items ++ logged place.step (told_news (out_by place.monitor monitor.old.content place.link n) monitor.old.content)) }
        ensures lack { OnErr result (SendLacks (open_by server.now self.old) place.monitor monitor.old.content
            (out_by place.monitor monitor.old.content place.link n)) }
    {
        if !monitor.linked(place.link) {
            return Ok(false);
        }
        let waiting = monitor.waiting(place.link);
        let count = count_of(n, waiting.len());
        if count == 0 {
            return Ok(true);
        }
        if is_open(server, self.connection) {
            put(&mut self.to_server, &waiting[..count])?;
        }
        let event = Event::LinkTook(place.link, count);
        inform(monitor, event, place.monitor, place.step, log)
    }

    /// Moves bytes from the server into the pipe of a link. They are lost if the link isn't up at its monitor. Returns
    /// whether the step was played.
    pub fn back(&mut self, server: &mut Server, linked: bool, n: usize) -> Result<bool, Lack>
        ensures played { IfOk result (λ played. played ≡ is_played (back_by server.old self.old n)) }
        ensures server { OnOk result (server.new ≡ told_by (back_by server.old self.old n) 0 server.old) }
        ensures link { OnOk result (self.new ≡ back_put (back_by server.old self.old n) linked server.old self.old) }
        ensures lack { OnErr result (IsTrue (back_grows linked (back_by server.old self.old n))) }
    {
        if !is_open(server, self.connection) {
            return Ok(false);
        }
        let count = count_of(n, server.waits(self.connection));
        if count == 0 {
            return Ok(true);
        }
        take_some(server, self.connection, &mut self.to_monitor, linked, count)?;
        Ok(true)
    }

    /// Makes the link. Returns whether the step was played.
    pub fn join(
        &mut self,
        server: &mut Server,
        monitor: &mut Monitor,
        place: Place,
        log: &mut Vec<Logged>,
    ) -> Result<bool, Lack>
        requires there { place.link < length monitor.old.content.watches }
        ensures played { IfOk result (λ played. played ≡ is_played (link_by place.monitor server.old monitor.old.content place.link self.old)) }
        ensures server { OnOk result (server.new ≡ told_by (link_by place.monitor server.old monitor.old.content place.link self.old) place.monitor server.old) }
        ensures monitor { OnOk result (monitor.new ≡ record {
          config = monitor.old.config;
          content = heard_by (link_by place.monitor server.old monitor.old.content place.link self.old) monitor.old.content;
        }) }
        ensures link { OnOk result (self.new ≡ made_by (link_by place.monitor server.old monitor.old.content place.link self.old) server.old self.old) }
        ensures log { OnOk result (map logged_of log.new.items
            ≡ map logged_of log.old.items ++ logged place.step (told_news (link_by place.monitor server.old monitor.old.content place.link self.old) monitor.old.content)) }
        ensures lack { OnErr result (0 < length (told_news (link_by place.monitor server.old monitor.old.content place.link self.old) monitor.old.content)) }
    {
        if is_open(server, self.connection) || monitor.linked(place.link) {
            return Ok(false);
        }
        let address = address_of(place.monitor);
        if !tell(server, Arrival::Open(address.as_slice()))? {
            return Ok(false);
        }
        self.make(server.opened());
        inform(
            monitor,
            Event::Linked(place.link),
            place.monitor,
            place.step,
            log,
        )
    }
}

/// Appends bytes to a pipe.
fn put(pipe: &mut BytesMut<Global>, bytes: &[u8]) -> Result<(), Lack>
    ensures { OnOk result (pipe.new.items ≡ pipe.old.items ++ bytes.now) }
{
    match pipe.extend_from_slice(bytes) {
        Ok(()) => Ok(()),
        Err(_) => Err(Lack),
    }
}

/// Takes this many of the bytes that wait for a connection, and puts them into the pipe if the link is up.
fn take_some(
    server: &mut Server,
    c: u64,
    pipe: &mut BytesMut<Global>,
    linked: bool,
    count: usize,
) -> Result<(), Lack>
    requires up { is_some (session_of c server.old.sessions) ≡ true }
    requires within { count ≤ length (waiting_of c server.old.sessions) }
    ensures server { OnOk result (server.new ≡ advance server.old (Took c count)) }
    ensures pipe { OnOk result (pipe.new.items ≡ put_on linked (take count (waiting_of c server.old.sessions)) pipe.old.items) }
    ensures lack { OnErr result (linked ≡ true) }
{
    let mut moved = 0;
    while moved < count {
        moved += take_front(server, c, pipe, linked, count - moved)?;
    }
    Ok(())
}

/// Takes the first bytes that wait for a connection, at most `most` of them, and puts them into the pipe if the link is
/// up. Returns how many they are.
fn take_front(
    server: &mut Server,
    c: u64,
    pipe: &mut BytesMut<Global>,
    linked: bool,
    most: usize,
) -> Result<usize, Lack>
    requires up { is_some (session_of c server.old.sessions) ≡ true }
    requires within { most ≤ length (waiting_of c server.old.sessions) }
    requires some { 0 < most }
    ensures some { IfOk result (λ k. 0 < k) }
    ensures few { IfOk result (λ k. k ≤ most) }
    ensures server { IfOk result (λ k. server.new ≡ advance server.old (Took c k)) }
    ensures pipe { IfOk result (λ k. pipe.new.items ≡ put_on linked (take k (waiting_of c server.old.sessions)) pipe.old.items) }
    ensures lack { OnErr result (linked ≡ true) }
{
    let part = server.waiting(c);
    let count = most.min(part.len());
    if linked {
        put(pipe, &part[..count])?;
    }
    tell(server, Arrival::Took(c, count))?;
    Ok(count)
}

/// Returns the address from which a monitor makes its links.
fn address_of(m: usize) -> ArrayVec<u8, ADDRESS_MAX>
    ensures { result.items ≡ address_of m }
{
    let mut address = ArrayVec::new();
    let mut buffer = Buffer::new();
    address.try_extend_from_slice(b"m").unwrap();
    address
        .try_extend_from_slice(buffer.format(m).as_bytes())
        .unwrap();
    address
}
