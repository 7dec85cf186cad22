//! The world as the loop sees it.

ghost use Rattle.std.specs.Prelude.{◌≡◌, ◌+◌, ◌-◌, ◌^◌, ◌<◌, ℕ, Bool, false, List, length, Option, Ok, IfOk, OnErr, is_ok, if◌then◌else◌};
ghost use Rattle.nut_server_spec.specs.Content.{Content};
ghost use Rattle.nut_io.specs.Writes.{IsWithin};
ghost use Rattle.nut_server_loop.specs.Record.{Entry, WasClosed, Steps, tells, tells_next, tells_write, arrival_of, late_after, LeadsTo, MayCome, NothingIsWithheld, NobodyLeaves};
ghost use Rattle.nut_server_loop.specs.declared.types.Peer.{Peer};
ghost use Rattle.nut_server_loop.specs.declared.types.Peer.TheVariants.{Connection, Driver};

use crate::Next;
use nut_io::{Fault, Piece, Written};
use nut_server::{Refused, Server};

/// Gives arrivals, takes bytes, and closes connections and links to drivers. Connections have the numbers that the
/// server gave them. Drivers have the numbers of their UPSes: the places in ups.conf, counted from 0, until a reload.
///
/// After a reload the numbers are those that the server has given anew: each UPS that stays keeps its number, and each
/// new one gets the least number that is free. Before the world is asked for the next arrival, it is asked to close
/// each link and each connection that the reload ended. If the server lacks memory for the new configuration, all
/// stays as it was.
///
/// Any call except `faults` and `told` may return a fault instead, if its input or output fails. The record is then as it
/// was, and the fault is counted. After `next`, also after its fault, nobody is late.
pub trait World {
    /// What it gave, took and closed, the newest first. `None` for a world without a record.
    ghost log: { Self → Option (List Entry) };

    /// To whom a write was `Later` since the last `next`.
    ghost late: { Self → Peer → Bool };

    /// How many calls returned a fault.
    ghost fault_count: { Self → ℕ };

    /// Nothing more comes as long as the server has this content.
    ghost has_ended: { Self → Content → Type 0 };

    /// Calls may lead from the first state to the second, which has had the answer to each arrival.
    ghost reached: { Self → Self → Type 0 };

    /// Calls may lead from the first state to the second, which waits for the answer to the last arrival.
    ghost awaits: { Self → Self → Type 0 };

    /// Returns how many calls have returned a fault.
    fn faults(&self) -> u64
        ensures { result ≡ fault_count self.now };

    /// Returns the next arrival. The bytes of a `Next::Bytes` or a `Next::DriverBytes`, or the address of a `Next::Open`, are
    /// then in the piece.
    ///
    /// The caller asks only if each connection and each driver with waiting bytes is late, and each connection that is
    /// to be closed has been. The world gives bytes only of connections that may be read. Afterwards nobody is late.
    fn next(&mut self, server: &Server, piece: &mut Piece) -> Result<Next, Fault>
        requires few { fault_count self.old < 2 ^ 64 - 1 }
        requires withheld { NothingIsWithheld (late self.old) server.now }
        requires left { NobodyLeaves server.now }
        ensures ok { IfOk result (λ n. log self.new ≡ tells_next n piece.new.items (log self.old)) }
        ensures err { OnErr result (log self.new ≡ log self.old) }
        ensures read { IfOk result (λ n. MayCome n server.now) }
        ensures ended { result ≡ Ok Next.End → has_ended self.new server.now }
        ensures none_late { (p : Peer) → late self.new p ≡ false }
        ensures counted { fault_count self.new ≡ (if is_ok result then fault_count self.old else fault_count self.old + 1) }
        ensures awaits { IfOk result (λ n. LeadsTo (arrival_of n piece.new.items) (awaits self.old self.new) (reached self.old self.new)) }
        ensures reached { OnErr result (reached self.old self.new) };

    /// Gets the server's answer to the arrival that `next` gave last. An accepted connection has the number
    /// [`Server::opened`]. The world closes a refused one (`BadAddress` or `Full`) by itself.
    ///
    /// The call comes once for each arrival, before anything is written or closed for it. After a reload it comes once
    /// the links and the connections that the reload ended are closed, or a fault has kept one open.
    fn told(&mut self, server: &Server, answer: &Result<(), Refused>)
        ensures log { log self.new ≡ log self.old }
        ensures counted { fault_count self.new ≡ fault_count self.old }
        ensures late { (p : Peer) → late self.new p ≡ late self.old p }
        ensures reached { (w : Self) → awaits w self.old → reached w self.new };

    /// Offers at least one byte to connection `c`, and returns the outcome.
    fn write(&mut self, c: u64, bytes: &[u8]) -> Result<Written, Fault>
        requires few { fault_count self.old < 2 ^ 64 - 1 }
        requires some { 0 < length bytes.now }
        ensures step { Steps fault_count log reached (λ w. tells_write w (Connection c) bytes.now) self.old result self.new }
        ensures within { IfOk result (λ w. IsWithin w (length bytes.now)) }
        ensures late { IfOk result (λ w. (p : Peer) → late self.new p ≡ late_after w (Connection c) (late self.old) p) };

    /// Offers at least one byte to the driver of UPS `u`, and returns the outcome.
    fn write_driver(&mut self, u: usize, bytes: &[u8]) -> Result<Written, Fault>
        requires few { fault_count self.old < 2 ^ 64 - 1 }
        requires some { 0 < length bytes.now }
        ensures step { Steps fault_count log reached (λ w. tells_write w (Driver u) bytes.now) self.old result self.new }
        ensures within { IfOk result (λ w. IsWithin w (length bytes.now)) }
        ensures late { IfOk result (λ w. (p : Peer) → late self.new p ≡ late_after w (Driver u) (late self.old) p) };

    /// Closes connection `c`. Nothing more is offered to it.
    fn close(&mut self, c: u64) -> Result<(), Fault>
        requires few { fault_count self.old < 2 ^ 64 - 1 }
        ensures step { Steps fault_count log reached (λ _. tells (WasClosed (Connection c))) self.old result self.new }
        ensures late { (p : Peer) → late self.new p ≡ late self.old p };

    /// Closes the link to the driver that was connected with the number `u`. Nothing more is offered with this number until
    /// a driver is connected with it anew.
    fn close_driver(&mut self, u: usize) -> Result<(), Fault>
        requires few { fault_count self.old < 2 ^ 64 - 1 }
        ensures step { Steps fault_count log reached (λ _. tells (WasClosed (Driver u))) self.old result self.new }
        ensures late { (p : Peer) → late self.new p ≡ late self.old p };

    /// Each state is reached from itself.
    ghost reached_self: { (w : Self) → reached w w };

    /// What is reached from a reached state is reached.
    ghost reached_on: { (a b c : Self) → reached a b → reached b c → reached a c };

    /// A world that waits for an answer does so until it gets that.
    ghost awaits_on: { (a b c : Self) → awaits a b → reached b c → awaits a c };
}
