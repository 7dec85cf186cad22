//! All sockets of a server, watched by one poll.

ghost use Rattle.std.specs.Prelude.{◌≡◌, ◌≢◌, ℕ, [], ◌∷◌, length, IfOk, IfSome, OnErr};
ghost use Rattle.std.specs.declared.time.Duration.{Duration};
ghost use Rattle.mio.specs.Event.{event_token};
ghost use Rattle.mio.specs.Events.{items};
ghost use Rattle.nut_io.specs.Writes.{IsWithin};
ghost use Rattle.nut_poll.specs.Moments.{Begins, IsTold};
ghost use Rattle.nut_poll.specs.Queue.{all_joined, reported};
ghost use Rattle.nut_poll.specs.Turns.{Heeds};
ghost use Rattle.nut_server_loop.specs.Record.{MayCome};
ghost use Rattle.nut_server_loop.specs.declared.types.Next.TheVariants as next;
ghost use Rattle.nut_server_sockets.specs.declared.source.Source.TheVariants as source;
ghost use Rattle.nut_server_sockets.specs.Reloads.{IsGiven};
ghost use Rattle.nut_server_sockets.specs.Seats.{HasBesides, KeepsSeats, TouchesOnly};
ghost use Rattle.nut_server_sockets.specs.Turns.{Comes, ComesInTurn, GoesOn, IsHeeded, LeavesOthers, token_of};
ghost use Rattle.nut_server_sockets.specs.Waits.{IsPieceLight};
ghost use Rattle.nut_server_sockets.specs.inside.Looking.{HeedsAlso, IsApart, IsLook, IsNoted, KeepsHeeded, LooksInTurn, OnlyQueues, Stays};
ghost use Rattle.nut_server_spec.specs.Content.{Content};

use crate::audit::{left, tell_deed};
use crate::clients::Clients;
use crate::denials::Denials;
use crate::door::Door;
use crate::drivers::Drivers;
use crate::hindrances::Hindrances;
use crate::listeners::Listeners;
use crate::reloader::Reloader;
use crate::report::{End, SocketReport};
use crate::source::Source;
use crate::stall::Stall;
use mio::event::Event;
use mio::{Events, Token};
use nut_io::{Piece, Written};
use nut_poll::{Heard, LookUps, Reports, Rounds, SOCKETS_MAX};
use nut_server::{Place, Refused, Server};
use nut_server_loop::Next;
use std::alloc::Global;
use std::io;
use std::net::Net;
use std::process::Processes;
use std::time::Clock;

mod entrance;
mod seconds;

/// What the sockets are watched with, which the program gives.
#[derive(Drop)]
pub struct Services<'r, 'e, R: Processes, L> {
    /// The system.
    pub rt: &'r R,
    /// The look-ups of hosts that weren't known at the start.
    pub look_ups: LookUps<'r, R>,
    /// Where drivers and clients are reported.
    pub reports: Reports<'e>,
    /// Where new configurations come from.
    pub reloader: L,
}

/// The listeners, the clients and the drivers of a server, and its clock.
#[derive(Drop)]
pub struct Sockets {
    rounds: Rounds,
    door: Door,
    clients: Clients,
    hindrances: Hindrances,
    denials: Denials,
    drivers: Drivers,
    /// Whether the reloader has still to be asked in this second.
    asks: bool,
    /// Whether the reloader gave a configuration that the server hasn't answered.
    has_given: bool,
    /// A connection that the server accepted and whose socket can't be kept.
    unkept: Option<u64>,
    /// The moment that was last given.
    moment: u64,
    stall: Stall,
}

impl Sockets {
    /// Watches these listeners, and will dial these drivers.
    ///
    /// # Errors
    ///
    /// The error of the poll or of the clock, or a lack of memory.
    pub fn new(
        rt: &(impl Net + Clock),
        alloc: Global,
        listeners: Listeners,
        drivers: Drivers,
    ) -> io::Result<Sockets>
        ensures { IfOk result (λ sockets. (key : ℕ) → IsHeeded sockets key) }
    {
        let clients = Clients::with_room(alloc)?;
        let stall = Stall::new(alloc)?;
        let denials = Denials::new(alloc)?;
        let rounds = Rounds::new(rt, alloc, listeners.len())?;
        let door = Door::new(rounds.registry(), listeners)?;
        let mut sockets = Sockets {
            rounds,
            door,
            clients,
            hindrances: Hindrances::none(),
            denials,
            drivers,
            asks: false,
            has_given: false,
            unkept: None,
            moment: 0,
            stall,
        };
        sockets.call_drivers();
        Ok(sockets)
    }

    /// Returns what comes next, after at most one wait. After each second silent clients come first, then a new configuration,
    /// and then the drivers that aren't connected.
    ///
    /// # Errors
    ///
    /// The error of the wait or of the clock.
    pub fn next<R: Net + Clock + Processes, L: Reloader>(
        &mut self,
        services: &mut Services<'_, '_, R, L>,
        server: &Server,
        piece: &mut Piece,
    ) -> io::Result<Next>
        ensures may { IfOk result (λ n. MayCome n server.now) }
        ensures goes_on { IfOk result (λ n. n ≢ next.End) }
        ensures turns { IfOk result (λ n. ComesInTurn self.old server.now n self.new) }
        ensures seats { IfOk result (λ n. LeavesOthers n self.old.clients.sockets self.new.clients.sockets) }
        ensures goes { GoesOn self.old self.new }
        ensures reloads { IfOk result (λ n. IsGiven L.gave services.old.reloader n services.new.reloader) }
        ensures light { IfOk result (λ n. IsPieceLight server.now n piece.new.items) }
    {
        if let Some(number) = self.unkept.take() {
            return Ok(Next::Close(number));
        }
        if let Some(next) = self.admit(server, piece, &mut services.reports) {
            return Ok(next);
        }
        if let Some(number) = self.shed(server, &mut services.reports) {
            return Ok(Next::Close(number));
        }
        if let Some(config) = self.reload(server, &mut services.reloader, &mut services.reports) {
            return Ok(Next::Reload(config));
        }
        if let Some(next) = self.look(server, piece, services.rt, &mut services.reports) {
            return Ok(next);
        }
        if let Some(moment) = self.wait(services.rt)? {
            self.begin_second(server, moment, &mut services.reports);
            let registry = self.rounds.registry();
            self.door.try_again(
                services.rt,
                registry,
                &mut services.look_ups,
                &mut services.reports,
            );
            return Ok(Next::Moment(moment));
        }
        match self.look(server, piece, services.rt, &mut services.reports) {
            Some(next) => Ok(next),
            None => Ok(Next::Again),
        }
    }

    /// Acts on the server's answer to the last arrival: reports a lack of memory, what a client did and what became of a
    /// reload, and keeps the socket of a client or reports why it was refused.
    pub fn told<R: Processes, L: Reloader>(
        &mut self,
        services: &mut Services<'_, '_, R, L>,
        server: &Server,
        answer: &Result<(), Refused>,
    )
        ensures turns { Comes self.old.rounds self.new.rounds }
        ensures goes { GoesOn self.old self.new }
        ensures seats { HasBesides server.now.opened self.new.clients.sockets self.old.clients.sockets }
        ensures refused { OnErr answer.now (KeepsSeats self.old.clients.sockets self.new.clients.sockets) }
    {
        self.tell_lack(answer, &mut services.reports);
        self.audit(server, &mut services.reports);
        self.seat(server, answer, &mut services.reports);
        self.end_reload(
            server,
            answer,
            &mut services.reloader,
            &mut services.reports,
        );
    }

    /// Reports that memory ran out at what a client or a driver sent, if it did, and closes the link to the driver.
    fn tell_lack(&mut self, answer: &Result<(), Refused>, reports: &mut Reports<'_>)
        ensures { IsApart self.old self.new }
    {
        let Err(Refused::Memory(place)) = answer else {
            return;
        };
        match place {
            Place::Line(number, _) => {
                if let Some(address) = self.clients.address(*number) {
                    self.hindrances.tell_lack(address, reports);
                }
            }
            Place::Report(u, _) => self.end_driver(*u, End::OutOfMemory, reports),
            Place::NewUpses => {}
        }
    }

    /// Reports what a client did by the last arrival, if the operator wants to know of it.
    fn audit(&mut self, server: &Server, reports: &mut Reports<'_>)
        ensures turns { Stays self.old self.new }
        ensures seats { KeepsSeats self.old.clients.sockets self.new.clients.sockets }
    {
        if let Some(deed) = server.deed() {
            tell_deed(
                deed,
                server,
                &mut self.clients,
                &mut self.drivers,
                &mut self.denials,
                reports,
            );
        }
    }

    /// Closes the link to the driver of a UPS for this reason, and reports it.
    fn end_driver(&mut self, u: usize, end: End, reports: &mut Reports<'_>)
        ensures { IsApart self.old self.new }
    {
        if let Some(driver) = self.drivers.get_mut(u) {
            driver.end(end, reports);
        }
    }

    /// Offers bytes to a connection.
    pub fn offer(&mut self, number: u64, bytes: &[u8]) -> Written
        ensures within { IsWithin result (length bytes.now) }
        ensures turns { Comes self.old.rounds self.new.rounds }
        ensures goes { GoesOn self.old self.new }
        ensures others { TouchesOnly number self.old.clients.sockets self.new.clients.sockets }
    {
        match self.clients.offer(number, bytes) {
            (written, None) => written,
            (written, Some(key)) => {
                self.rounds.ready.insert(Source::Client(key).token());
                written
            }
        }
    }

    /// Offers bytes to the driver of a UPS. If that fails, the link is closed, which is reported.
    pub fn offer_driver(&mut self, u: usize, bytes: &[u8], reports: &mut Reports<'_>) -> Written
        ensures within { IsWithin result (length bytes.now) }
        ensures apart { IsApart self.old self.new }
    {
        match self.drivers.get_mut(u) {
            Some(driver) => driver.offer(bytes, reports),
            None => Written::Failed,
        }
    }

    /// Closes the socket of a connection, and reports that if its client is still logged in.
    pub fn close(&mut self, number: u64, reports: &mut Reports<'_>)
        ensures turns { Stays self.old self.new }
        ensures others { HasBesides number self.old.clients.sockets self.new.clients.sockets }
    {
        if let Some(login) = self.clients.close(number) {
            reports.tell(left(&login));
        }
    }

    /// Closes the link to the driver of a UPS, and reports that a reload ended it. A link that ended for another reason is
    /// closed already.
    pub fn close_driver(&mut self, u: usize, reports: &mut Reports<'_>)
        ensures { IsApart self.old self.new }
    {
        self.end_driver(u, End::Reloaded, reports);
    }

    /// Looks at the sockets of this round until one has something to tell.
    fn look(
        &mut self,
        server: &Server,
        piece: &mut Piece,
        net: &impl Net,
        reports: &mut Reports<'_>,
    ) -> Option<Next>
        ensures turns { LooksInTurn self.old server.now result self.new }
        ensures light { IfSome result (λ n. IsPieceLight server.now n piece.new.items) }
    {
        if self.rounds.ready.is_round_over() && !self.stall.is_on() {
            return None;
        }
        self.look_in_turn(server, piece, net, reports)
    }

    /// Does what [`look`](Self::look) does. It stands apart, so that a round that is over takes no call.
    #[inline(never)]
    fn look_in_turn(
        &mut self,
        server: &Server,
        piece: &mut Piece,
        net: &impl Net,
        reports: &mut Reports<'_>,
    ) -> Option<Next>
        ensures turns { LooksInTurn self.old server.now result self.new }
        ensures light { IfSome result (λ n. IsPieceLight server.now n piece.new.items) }
    {
        self.end_stall();
        for _ in 0..SOCKETS_MAX {
            let token = self.rounds.ready.take()?;
            if let Some(next) = self.look_at(server, token, piece, net, reports) {
                return Some(next);
            }
        }
        None
    }

    /// Looks at the source with this token.
    fn look_at(
        &mut self,
        server: &Server,
        token: Token,
        piece: &mut Piece,
        net: &impl Net,
        reports: &mut Reports<'_>,
    ) -> Option<Next>
        ensures look { IsLook self.old server.now token.0 result self.new }
        ensures heeds { HeedsAlso token.0 self.old self.new }
        ensures light { IfSome result (λ n. IsPieceLight server.now n piece.new.items) }
    {
        match Source::of(token) {
            Source::Listener(i) => self.look_at_listener(server, i, piece, reports),
            Source::Driver(u) => self.look_at_driver(u, piece, net, reports),
            Source::Client(key) => self.look_at_client(server, key, piece, reports),
        }
    }

    /// Dials a driver that isn't connected, and reads from one that is.
    #[inline(never)]
    fn look_at_driver(
        &mut self,
        u: usize,
        piece: &mut Piece,
        net: &impl Net,
        reports: &mut Reports<'_>,
    ) -> Option<Next>
        ensures look { (s : Content) → IsLook self.old s (token_of (source.Driver u)) result self.new }
        ensures queues { OnlyQueues self.old self.new }
    {
        let driver = self.drivers.get_mut(u)?;
        let source = Source::Driver(u);
        if !driver.is_connected() {
            if let Err(error) = driver.dial(net, self.rounds.registry(), source.token()) {
                if driver.misses(error.kind()) {
                    reports.tell(SocketReport::Missed(driver.name(), error));
                }
                return None;
            }
            reports.tell(SocketReport::Connected(driver.name()));
            driver.warn_if_forced(reports);
            return Some(Next::DriverUp(u));
        }
        match driver.hear(piece) {
            Heard::Nothing => None,
            Heard::All | Heard::Part => {
                self.rounds.ready.insert(source.token());
                Some(Next::DriverBytes(u))
            }
            Heard::End => {
                driver.end(End::Lost, reports);
                Some(Next::DriverDown(u))
            }
        }
    }

    /// Reads from a client that may be read, unless clients have to wait for the drivers.
    fn look_at_client(
        &mut self,
        server: &Server,
        key: usize,
        piece: &mut Piece,
        reports: &mut Reports<'_>,
    ) -> Option<Next>
        ensures look { IsLook self.old server.now (token_of (source.Client key)) result self.new }
        ensures heeds { HeedsAlso (token_of (source.Client key)) self.old self.new }
        ensures light { IfSome result (λ n. IsPieceLight server.now n piece.new.items) }
    {
        let token = Source::Client(key).token();
        if self.stall.hold(token) {
            return None;
        }
        let (number, heard) = self.clients.hear(key, server, piece)?;
        match heard {
            Heard::Nothing => None,
            Heard::All => Some(Next::Bytes(number)),
            Heard::Part => {
                self.rounds.ready.insert(token);
                Some(Next::Bytes(number))
            }
            Heard::End => {
                self.close(number, reports);
                Some(Next::Close(number))
            }
        }
    }

    /// Waits until an event comes or a second is over, or not at all if there is more to look at, and begins the next
    /// round. Returns the number of seconds since the start, if one more is over.
    fn wait(&mut self, clock: &impl Clock) -> io::Result<Option<u64>>
        ensures turns { Heeds [] self.old.rounds self.new.rounds }
        ensures heeds { KeepsHeeded self.old self.new }
        ensures seats { KeepsSeats self.old.clients.sockets self.new.clients.sockets }
        ensures second { IfOk result (λ moment. IsTold moment self.old.rounds.seconds.full self.new.rounds.seconds.full) }
        ensures begins { IfOk result (λ moment. (passed : Duration) × Begins passed self.old.rounds.seconds.full self.old.rounds.fixed
            moment (all_joined (reported (items self.new.rounds.events)) self.old.rounds.ready) self.new.rounds.ready) }
    {
        self.rounds.wait()?;
        note(&self.rounds.events, &mut self.clients, &mut self.drivers);
        self.rounds.turn(clock)
    }

    /// Lets clients be read again, once each driver has said something.
    fn end_stall(&mut self)
        ensures { OnlyQueues self.old self.new }
    {
        if self.stall.is_on() && !self.drivers.are_awaited() {
            self.stall.end(&mut self.rounds.ready);
        }
    }
}

/// Notes the events of the sockets.
fn note(events: &Events, clients: &mut Clients, drivers: &mut Drivers)
    ensures { IsNoted (reported (items events.now)) clients.old.sockets clients.new.sockets }
{
    for event in events.iter() {
        note_one(event, clients, drivers);
    }
}

/// Notes an event at the driver or the client whose socket has it.
fn note_one(event: &Event, clients: &mut Clients, drivers: &mut Drivers)
    ensures { IsNoted ((event_token event.now).0 ∷ []) clients.old.sockets clients.new.sockets }
{
    match Source::of(event.token()) {
        Source::Listener(_) => {}
        Source::Driver(u) => {
            if let Some(driver) = drivers.get_mut(u) {
                driver.note(event);
            }
        }
        Source::Client(key) => clients.note(key, event),
    }
}
