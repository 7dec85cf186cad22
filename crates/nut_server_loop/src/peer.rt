//! What the loop asks of a server and of a world for a client as for a driver.

ghost use Rattle.std.specs.Prelude.{◌≡◌, ◌-◌, ◌^◌, ◌<◌, length, IfOk};
ghost use Rattle.nut_io.specs.Writes.{IsWithin};
ghost use Rattle.nut_queue.specs.Front.{IsFrontPart};
ghost use Rattle.nut_server.specs.Arrival.{event_of};
ghost use Rattle.nut_server_loop.specs.Record.{WasClosed, Steps, tells, tells_write, late_after, waits_of};
ghost use Rattle.nut_server_loop.specs.Served.{took, failed};
ghost use Rattle.nut_server_loop.specs.declared.types.Peer.{Peer};

use crate::{Peer, World};
use nut_io::{Fault, Written};
use nut_server::{Arrival, Server};

impl Peer {
    /// Returns a front part of what waits for the peer. It is empty only if nothing waits.
    #[inline(always)]
    pub fn waiting(self, server: &Server) -> &[u8]
        ensures { IsFrontPart result.now (waits_of self server.now) }
    {
        match self {
            Peer::Connection(c) => server.waiting(c),
            Peer::Driver(u) => server.waiting_for_driver(u),
        }
    }

    /// Returns how many bytes wait for the peer.
    #[inline(always)]
    pub(crate) fn waits(self, server: &Server) -> usize
        ensures { result ≡ length (waits_of self server.now) }
    {
        match self {
            Peer::Connection(c) => server.waits(c),
            Peer::Driver(u) => server.waits_for_driver(u),
        }
    }

    /// Returns the arrival that stands for bytes that the peer took.
    #[inline(always)]
    pub fn took(self, n: usize) -> Arrival<'static>
        ensures { event_of result ≡ took self n }
    {
        match self {
            Peer::Connection(c) => Arrival::Took(c, n),
            Peer::Driver(u) => Arrival::DriverTook(u, n),
        }
    }

    /// Returns the arrival that stands for a failed write to the peer.
    pub(crate) fn failed(self) -> Arrival<'static>
        ensures { event_of result ≡ failed self }
    {
        match self {
            Peer::Connection(c) => Arrival::WriteFailed(c),
            Peer::Driver(u) => Arrival::DriverDown(u),
        }
    }

    /// Offers at least one byte to the peer, and returns the outcome.
    #[inline(always)]
    pub(crate) fn write<W: World>(self, world: &mut W, bytes: &[u8]) -> Result<Written, Fault>
        requires few { W.fault_count world.old < 2 ^ 64 - 1 }
        requires some { 0 < length bytes.now }
        ensures step { Steps W.fault_count W.log W.reached (λ w. tells_write w self bytes.now) world.old result world.new }
        ensures within { IfOk result (λ w. IsWithin w (length bytes.now)) }
        ensures late { IfOk result (λ w. (p : Peer) → W.late world.new p ≡ late_after w self (W.late world.old) p) }
    {
        match self {
            Peer::Connection(c) => world.write(c, bytes),
            Peer::Driver(u) => world.write_driver(u, bytes),
        }
    }

    /// Closes the connection, or the link to the driver.
    pub(crate) fn close<W: World>(self, world: &mut W) -> Result<(), Fault>
        requires few { W.fault_count world.old < 2 ^ 64 - 1 }
        ensures step { Steps W.fault_count W.log W.reached (λ _. tells (WasClosed self)) world.old result world.new }
        ensures late { (p : Peer) → W.late world.new p ≡ W.late world.old p }
    {
        match self {
            Peer::Connection(c) => world.close(c),
            Peer::Driver(u) => world.close_driver(u),
        }
    }
}
