//! The server: its state, its arrivals, and what its loop asks at each arrival of a client. What else it can be asked is in
//! `asking`.

ghost use Rattle.std.specs.Prelude.{◌≡◌, ◌<◌, ◌≤◌, List, [], Some, Err, IfOk, IfSome, map, length};
ghost use Rattle.nut_server_spec.specs.Configuration.{Configuration};
ghost use Rattle.nut_server_spec.specs.Event.{Event};
ghost use Rattle.nut_server_spec.specs.Content.{content, unheard};
ghost use Rattle.nut_server_spec.specs.Numbering.{below};
ghost use Rattle.nut_server_spec.specs.Acceptance.{Tells, refusal, session_of, waiting_of, may_read, leaves};
ghost use Rattle.nut_server_spec.specs.laws.Laws.{HasFewConnections};
ghost use Rattle.nut_server_spec.specs.laws.Limits.{IsWithin, most_waits};
ghost use Rattle.nut_server_spec.specs.Outcome.{IsAnswer, after};
ghost use Rattle.nut_server_spec.specs.machine.MachineOutcome.{Answers, content_after};
ghost use Rattle.nut_server.specs.Arrival.{event_of};
ghost use Rattle.nut_server.specs.Settling.{IsNextUnsettled, IsNextWaiting};

use crate::arrival::Arrival;
use crate::config::Config;
use crate::connections::Connections;
use crate::deeds::Deed;
use crate::device::Device;
use crate::limits::ANSWER_LINE_MAX;
use crate::numbering::{Numbers, first_numbers};
use arrayvec::ArrayVec;
use nut_conf::CONNECTIONS_MAX;
use nut_proto::PlainReader;
use nut_queue::ASKS_MAX;
use nut_server_spec::{OPENED_MAX, Refused, waits_are_bounded};
use std::alloc::{AllocError, Global};
use std::marker::Model;
use thiserror::Error;

mod arriving;
mod asking;
mod hearing;
mod reloading;

pub use reloading::Ended;

/// Why a server can't be made.
#[derive(Clone, Copy, Debug, PartialEq, Eq, Error)]
pub enum ServerFault {
    /// Memory cannot be allocated for all the connections that may be open at once, or for the requests that wait for
    /// the drivers.
    #[error("out of memory")]
    Memory,
}

impl From<AllocError> for ServerFault {
    fn from(_error: AllocError) -> ServerFault {
        ServerFault::Memory
    }
}

/// What a server keeps: its configuration, the time, the UPSes, and the open connections, with room for as many as may be
/// open. Between two lines of a piece it is the content of no history, so it stands apart.
struct Parts {
    config: Config,
    /// The numbers of the UPSes, in the order of ups.conf.
    numbers: Numbers,
    clock: u64,
    opened: u64,
    /// How many numbers were given to tracked requests: the number of the newest.
    given: u32,
    devices: Vec<Device>,
    connections: Connections,
    /// The answer to a request, while it is being handled. From the start it has room for any answer of one line.
    scratch: Vec<u8>,
    /// The request to a driver that a client's request leads to, while it is being handled.
    line: ArrayVec<u8, ASKS_MAX>,
    /// What reads plain queries.
    reader: PlainReader,
    /// The place in ups.conf of the UPS that was found last: the next query probably asks for the same one.
    likely: usize,
    /// The place of the variable that was found last: the next query probably asks for the same one, or for the next.
    likely_variable: usize,
    /// What a client did by the last arrival, if an operator wants to know of it. No answer depends on it.
    deed: Option<Deed>,
    alloc: Global,
}

// A derived drop would be proved again in each crate that drops a value, with those of its parts.
impl Drop for Parts {
    fn drop(self) {
        let Parts {
            config: _config,
            numbers: _numbers,
            clock: _,
            opened: _,
            given: _,
            devices: _devices,
            connections: _connections,
            scratch: _scratch,
            line: _line,
            reader: _reader,
            likely: _,
            likely_variable: _,
            deed: _deed,
            alloc: _,
        } = self;
    }
}

impl Model for Parts {
    ghost use Rattle.nut_server_spec.specs.Content.{Content};
    ghost use Rattle.nut_server.specs.inside.Parts.{IsOrderly};

    ghost Value = { Content };

    ghost view = { λ a. record {
      configuration = a.config;
      numbers = a.numbers.items;
      clock = a.clock;
      opened = a.opened;
      given = a.given;
      sessions = a.connections;
      supplies = a.devices.items;
    } };

    ghost invariant = { IsOrderly };
}

/// A server: it has accepted a history of arrivals, and has the content of this history.
#[derive(Drop)]
pub struct Server {
    parts: Parts,
}

impl Model for Server {
    ghost use Rattle.nut_server_spec.specs.Content.{Content};
    ghost use Rattle.nut_server.specs.inside.Server.{IsTold};

    ghost Value = { Content };

    ghost view = { λ a. a.parts };

    ghost invariant = { λ a. IsTold a.parts };
}

/// Returns `count` UPSes whose drivers were never connected.
#[tactic(auto, using(std::proofs::lemmas::Grind::common_steps))]
fn untold(alloc: Global, count: usize) -> Result<Vec<Device>, AllocError>
    ensures { IfOk result (λ devices. devices.items ≡ map (λ u. unheard) (below count)) }
{
    let mut devices = Vec::new(alloc);
    for _ in 0..count {
        devices.push(Device::new(alloc)?)?;
    }
    Ok(devices)
}

/// Returns `count` UPSes whose drivers were never connected, room for all connections, and room for an answer of one line.
fn room_for(alloc: Global, count: usize) -> Result<(Vec<Device>, Connections, Vec<u8>), AllocError>
    ensures { IfOk result (λ room. (room.0.items ≡ map (λ u. unheard) (below count)) × (room.1 ≡ [])) }
{
    let scratch = Vec::with_capacity(alloc, ANSWER_LINE_MAX)?;
    let devices = untold(alloc, count)?;
    Ok((devices, Connections::with_room(alloc)?, scratch))
}

impl Parts {
    /// Returns what a new server keeps.
    fn new(alloc: Global, config: Config) -> Result<Parts, ServerFault>
        ensures { IfOk result (λ parts. parts ≡ content config []) }
    {
        config.is_within_limits();
        let count = config.number_of_upses();
        match room_for(alloc, count) {
            Ok((devices, connections, scratch)) => Ok(Parts {
                config,
                numbers: first_numbers(count),
                clock: 0,
                opened: 0,
                given: 0,
                devices,
                connections,
                scratch,
                line: ArrayVec::new(),
                reader: PlainReader::new(),
                likely: 0,
                likely_variable: 0,
                deed: None,
                alloc,
            }),
            Err(AllocError) => {
                drop(config);
                Err(ServerFault::Memory)
            }
        }
    }

    /// Takes one arrival, as a server does. It stands in its callers, most of which know the kind of the arrival.
    #[inline(always)]
    fn step(&mut self, arrival: Arrival<'_>) -> Result<(), Refused>
        ensures answered { Answers self.old (event_of arrival.entry) result }
        ensures content { self.new ≡ content_after result self.old (event_of arrival.entry) }
    {
        // to write nothing over nothing would take more instructions than the test
        if self.deed.is_some() {
            self.deed = None;
        }
        match arrival {
            Arrival::Moment(t) => {
                self.moment(t);
                Ok(())
            }
            Arrival::Open(address) => self.open(address),
            Arrival::Bytes(c, piece) => self.bytes(c, piece),
            Arrival::Took(c, n) => self.took(c, n),
            Arrival::Close(c) | Arrival::WriteFailed(c) => self.close(c),
            Arrival::DriverUp(u) => self.driver_up(u),
            Arrival::DriverBytes(u, piece) => self.driver_bytes(u, piece),
            Arrival::DriverTook(u, n) => self.driver_took(u, n),
            Arrival::DriverDown(u) => self.driver_down(u),
            Arrival::Reload(config) => self.reload_boxed(config),
        }
    }
}

impl Server {
    /// Returns a new server. Allocates the memory for as many connections as may be open at once and for the requests
    /// that wait for the drivers. So a client or a driver that connects needs none. Also allocates memory for an answer
    /// of one line: such an answer needs none if it has room behind those that wait for its client.
    ///
    /// # Errors
    ///
    /// `Memory` if that memory cannot be allocated.
    pub fn new(alloc: Global, config: Config) -> Result<Server, ServerFault>
        ensures { IfOk result (λ server. server ≡ content config []) }
    {
        config.is_within_limits();
        let parts = Parts::new(alloc, config)?;
        Ok(Server { parts })
    }

    /// Takes one arrival: `arrive` with its contract in terms of the machine, for proofs that have no history at hand.
    ///
    /// # Errors
    ///
    /// Those of `arrive`.
    #[inline(always)]
    pub fn step(&mut self, arrival: Arrival<'_>) -> Result<(), Refused>
        ensures answered { Answers self.old (event_of arrival.entry) result }
        ensures content { self.new ≡ content_after result self.old (event_of arrival.entry) }
    {
        let answer = self.parts.step(arrival);
        // brings into the proof that the configuration is within the limits of its files
        let _config = &self.parts.config;
        answer
    }

    /// Handles one arrival. After `Ok` the history includes the arrival. After a refusal it is as it was, except for
    /// `Memory` at a line.
    ///
    /// `Reload` closes the connections whose clients are logged in to a UPS that goes, and disconnects the drivers of
    /// those that go or get another driver: [`ended_by`](Self::ended_by) says which. All else of the UPSes and clients
    /// stays as it is.
    ///
    /// Only `Bytes`, `DriverBytes` and `Reload` can allocate memory. A client's line does so only if it isn't blank or
    /// holds a backslash, and never after the client has logged out. A driver's line does so only if it adds a variable,
    /// an enum value, a range or a command, or holds a backslash. A reload does so only if there are more UPSes than there
    /// have been at once so far.
    ///
    /// # Errors
    ///
    /// The first of these tests that fails. Nothing changes then.
    ///
    /// `Open` has the tests `BadAddress`, `Full`. `Bytes`, `Took`, `Close` and `WriteFailed` have `NoSuchConnection`;
    /// then `Bytes` has `PieceTooLong` and `Busy`, and `Took` `TooMuchTaken`. The arrivals of drivers have
    /// `NotConnected`, which at `DriverUp` means an unknown UPS; then `DriverBytes` has `PieceTooLong`, and
    /// `DriverTook` `TooMuchTaken`. A `Reload` has none.
    ///
    /// `Memory` if memory cannot be allocated for a line of a piece. The lines before it stay done, and the connection
    /// is closed, or the driver counts as disconnected. Also if memory cannot be allocated for the UPSes of a reload:
    /// then nothing changes.
    #[inline(always)]
    pub fn arrive(&mut self, arrival: Arrival<'_>) -> Result<(), Refused>
        // The result is that of the first test that fails. Only if none fails may it be `Memory`.
        ensures answered { (first : Configuration) (h : List Event) → Tells first h self.old
            → IsAnswer first h (event_of arrival.entry) result }

        // If the server held what the history says, it holds what the history says after this answer.
        ensures stands { (first : Configuration) (h : List Event) → Tells first h self.old
            → Tells first (after result (event_of arrival.entry) h) self.new }

        // A refusal by a test changes nothing.
        ensures unchanged { (r : Refused) → refusal self.old (event_of arrival.entry) ≡ Some r
            → (result ≡ Err r) × (self.new ≡ self.old) }

        // After any arrivals at most 256 connections are open, and at most 4,294,967,295 were opened.
        ensures few { HasFewConnections CONNECTIONS_MAX self.new }
    {
        let answer = self.step(arrival);
        self.has_few_connections();
        answer
    }

    /// Does nothing when called. Brings into the proof how many connections there can be, after any arrivals.
    fn has_few_connections(&self)
        ensures { HasFewConnections CONNECTIONS_MAX self.now }
    {
        let _connections = &self.parts.connections;
    }

    /// How many connections were opened: the number of the newest, at most [`OPENED_MAX`].
    pub fn opened(&self) -> u64
        ensures value { result ≡ self.now.opened }
        ensures few { result ≤ OPENED_MAX }
    {
        self.parts.opened
    }

    /// Returns the configuration in force.
    pub fn config(&self) -> &Config
        ensures value { result.now ≡ self.now.configuration }
        ensures limits { IsWithin self.now.configuration }
    {
        &self.parts.config
    }

    /// Returns how many bytes wait for a connection: at most 148,005,376, and 0 if it isn't open.
    pub fn waits(&self, c: u64) -> usize
        ensures value { result ≡ length (waiting_of c self.now.sessions) }
        ensures few { result ≤ most_waits }
    {
        // Brings the bound `WaitsAreBounded` into the proof, and does nothing when called.
        waits_are_bounded();
        if self.parts.connections.are_settled() {
            return 0;
        }
        match self.parts.connections.get(c) {
            Some(connection) => connection.waits(),
            None => 0,
        }
    }

    /// Returns all bytes that wait for a connection: none if it isn't open.
    pub fn waiting(&self, c: u64) -> &[u8]
        ensures { result.now ≡ waiting_of c self.now.sessions }
    {
        match self.parts.connections.get(c) {
            Some(connection) => connection.waiting(),
            None => &[],
        }
    }

    /// Whether a connection may be read from: it is open, nothing waits for it, and it hasn't logged out.
    pub fn may_read(&self, c: u64) -> bool
        ensures { result ≡ may_read (session_of c self.now.sessions) }
    {
        match self.parts.connections.get(c) {
            Some(connection) => connection.may_read(),
            None => false,
        }
    }

    /// Whether a connection is to be closed: it has logged out, and nothing waits for it.
    pub fn leaves(&self, c: u64) -> bool
        ensures { result ≡ leaves (session_of c self.now.sessions) }
    {
        if self.parts.connections.are_settled() {
            return false;
        }
        match self.parts.connections.get(c) {
            Some(connection) => connection.leaves(),
            None => false,
        }
    }

    /// Returns the least number, from `least` on, of a connection for which bytes wait or which is to be closed.
    pub fn next_unsettled(&self, least: u64) -> Option<u64>
        ensures next { IsNextUnsettled self.now.sessions least result }
        ensures fits { IfSome result (λ c. c < u64.MAX) }
    {
        self.parts.connections.first_unsettled(least)
    }

    /// Returns the least number, from `least` on, of a UPS for whose driver bytes wait. In its callers its loop would carry their
    /// values along.
    #[inline(never)]
    pub fn next_driver_waiting(&self, least: usize) -> Option<usize>
        ensures next { IsNextWaiting self.now.supplies least result }
        ensures fits { IfSome result (λ u. u < usize.MAX) }
    {
        for u in least..self.parts.devices.len() {
            if self.parts.devices[u].waits() > 0 {
                return Some(u);
            }
        }
        None
    }
}
