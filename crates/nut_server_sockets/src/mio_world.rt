//! The world of a server over sockets.

ghost use Rattle.std.specs.Prelude.{◌≡◌, ◌+◌, ◌-◌, ◌^◌, ◌<◌, ℕ, false, length, IsOk, IfOk, OnErr, is_ok, if◌then◌else◌};
ghost use Rattle.nut_io.specs.Writes.{IsWithin};
ghost use Rattle.nut_server_loop.specs.Record.{LeadsTo, MayCome, WasClosed, Steps, arrival_of, tells, tells_next, tells_write, late_after};
ghost use Rattle.nut_server_loop.specs.declared.types.Peer.{Peer};
ghost use Rattle.nut_server_loop.specs.declared.types.Peer.TheVariants.{Connection, Driver};
ghost use Rattle.nut_poll.specs.inside.TurnLaws.{turns_self};
ghost use Rattle.nut_server_sockets.specs.Reloads.{IsGiven};
ghost use Rattle.nut_server_sockets.specs.Turns.{ComesInTurn, GoesOn, IsHeeded, LeavesOthers};
ghost use Rattle.nut_server_sockets.specs.Untold.{untold, is_late};
ghost use Rattle.nut_server_sockets.specs.Waits.{IsPieceLight};
ghost use Rattle.nut_server_sockets.specs.inside.TurnLaws.{goes_on};

use crate::drivers::Drivers;
use crate::listeners::Listeners;
use crate::reloader::Reloader;
use crate::sockets::{Services, Sockets};
use arrayvec::ArrayVec;
use nut_conf::{CONNECTIONS_MAX, UPSES_MAX};
use nut_io::{Fault, Piece, Written};
use nut_poll::{LookUps, Reports, note_written};
use nut_server::{Refused, Server};
use nut_server_loop::{Next, World};
use std::alloc::Global;
use std::io;
use std::net::Net;
use std::process::Processes;
use std::time::Clock;

/// The greatest number of clients that are noted as late.
const LATE_MAX: usize = CONNECTIONS_MAX as usize;

/// The world of a server whose clients connect over TCP, and whose drivers listen on Unix sockets.
///
/// One thread watches all sockets. A `Moment` comes each second, counted from the start. After it comes a new
/// configuration, if the reloader has one. Then the drivers are looked at, and one that isn't connected is dialled. If the
/// server is full, the connection of [`Server::makes_way`] is closed for a client that calls; if there is none, that client
/// is accepted and closed at once. A client that is silent for too long is closed: after 60 seconds in which it neither
/// sent a line nor took some of an answer, or 600 if it is logged in.
///
/// The world never ends. Only `next` returns a fault, that of the wait for the sockets or of the clock: a failure of
/// one socket concerns no other. The world keeps no record.
pub struct MioWorld<'r, 'e, R: Processes, L> {
    sockets: Sockets,
    services: Services<'r, 'e, R, L>,
    late: ArrayVec<u64, LATE_MAX>,
    late_drivers: ArrayVec<u64, UPSES_MAX>,
    faults: u64,
}

// A derived drop would be proved again in each crate that drops a value, with those of its parts.
impl<'r, 'e, R: Processes, L: Drop> Drop for MioWorld<'r, 'e, R, L> {
    fn drop(self) {
        let MioWorld {
            sockets: _sockets,
            services: _services,
            late: _late,
            late_drivers: _late_drivers,
            faults: _,
        } = self;
    }
}

impl<'r, 'e, R: Net + Clock + Processes, L: Reloader + Drop> MioWorld<'r, 'e, R, L> {
    /// Returns the world of these listeners and these drivers, which asks this reloader for new configurations. Reports
    /// say when drivers come and go, what clients change, who logs in and out and who is refused, what keeps clients out,
    /// and which connections are closed for lack of memory.
    ///
    /// # Errors
    ///
    /// If there is no poll, no clock or no memory.
    pub fn new(
        rt: &'r R,
        alloc: Global,
        listeners: Listeners,
        drivers: Drivers,
        reports: Reports<'e>,
        reloader: L,
    ) -> io::Result<MioWorld<'r, 'e, R, L>>
        ensures faults { IfOk result (λ w. w.faults ≡ 0) }
        ensures heeded { IfOk result (λ w. (key : ℕ) → IsHeeded w.sockets key) }
    {
        let sockets = Sockets::new(rt, alloc, listeners, drivers)?;
        Ok(MioWorld {
            sockets,
            services: Services {
                rt,
                look_ups: LookUps::none(rt, alloc),
                reports,
                reloader,
            },
            late: ArrayVec::new(),
            late_drivers: ArrayVec::new(),
            faults: 0,
        })
    }
}

ghost use Rattle.std.specs.Prelude.{◌≢◌, ◌<◌, ◌≤◌, IfOk, IfSome, Some, Ok};

impl<'r, 'e, R: Net + Clock + Processes, L: Reloader + Drop> World for MioWorld<'r, 'e, R, L> {
    ghost log = { λ w. untold };

    ghost late = { λ w p. is_late w.late.items w.late_drivers.items p };

    ghost fault_count = { λ w. w.faults };

    ghost has_ended = { λ w s. ⊥ };

    ghost reached = { λ a b. GoesOn a.sockets b.sockets };

    ghost awaits = { λ a b. GoesOn a.sockets b.sockets };

    ghost reached_self = { λ w. (turns_self w.sockets.rounds, λ key heeded. heeded) };

    ghost reached_on = { λ a b c first second. goes_on a.sockets b.sockets c.sockets first second };

    ghost awaits_on = { λ a b c first second. goes_on a.sockets b.sockets c.sockets first second };

    fn faults(&self) -> u64 {
        self.faults
    }

    fn next(&mut self, server: &Server, piece: &mut Piece) -> Result<Next, Fault>
        requires { self.old.faults < 2 ^ 64 - 1 }
        ensures ok { IfOk result (λ n. untold ≡ tells_next n piece.new.items untold) }
        ensures err { OnErr result (untold ≡ untold) }
        ensures read { IfOk result (λ n. MayCome n server.now) }
        ensures ended { result ≡ Ok Next.End → ⊥ }
        ensures none_late { (p : Peer) → is_late self.new.late.items self.new.late_drivers.items p ≡ false }
        ensures counted { self.new.faults ≡ (if is_ok result then self.old.faults else self.old.faults + 1) }
        ensures awaits { IfOk result (λ n. LeadsTo (arrival_of n piece.new.items)
            (GoesOn self.old.sockets self.new.sockets) (GoesOn self.old.sockets self.new.sockets)) }
        ensures reached { OnErr result (GoesOn self.old.sockets self.new.sockets) }
        ensures turns { IfOk result (λ n. ComesInTurn self.old.sockets server.now n self.new.sockets) }
        ensures seats { IfOk result (λ n. LeavesOthers n self.old.sockets.clients.sockets self.new.sockets.clients.sockets) }
        ensures reloads { IfOk result (λ n. IsGiven L.gave self.old.services.reloader n self.new.services.reloader) }
        ensures light { IfOk result (λ n. IsPieceLight server.now n piece.new.items) }
    {
        self.late.clear();
        self.late_drivers.clear();
        match self.sockets.next(&mut self.services, server, piece) {
            Ok(next) => Ok(next),
            Err(_) => {
                self.faults += 1;
                Err(Fault)
            }
        }
    }

    fn told(&mut self, server: &Server, answer: &Result<(), Refused>) {
        self.sockets.told(&mut self.services, server, answer);
    }

    fn write(&mut self, c: u64, bytes: &[u8]) -> Result<Written, Fault>
        requires { 0 < length bytes.now }
        ensures no_fault { IsOk result }
        ensures step { Steps (λ w. w.faults) (λ w. untold) (λ a b. GoesOn a.sockets b.sockets)
            (λ w. tells_write w (Connection c) bytes.now) self.old result self.new }
        ensures within { IfOk result (λ w. IsWithin w (length bytes.now)) }
        ensures late { IfOk result (λ w. (p : Peer) → is_late self.new.late.items self.new.late_drivers.items p
            ≡ late_after w (Connection c) (is_late self.old.late.items self.old.late_drivers.items) p) }
    {
        let written = self.sockets.offer(c, bytes);
        Ok(note_written(&mut self.late, c, written))
    }

    fn write_driver(&mut self, u: usize, bytes: &[u8]) -> Result<Written, Fault>
        requires { 0 < length bytes.now }
        ensures no_fault { IsOk result }
        ensures step { Steps (λ w. w.faults) (λ w. untold) (λ a b. GoesOn a.sockets b.sockets)
            (λ w. tells_write w (Driver u) bytes.now) self.old result self.new }
        ensures within { IfOk result (λ w. IsWithin w (length bytes.now)) }
        ensures late { IfOk result (λ w. (p : Peer) → is_late self.new.late.items self.new.late_drivers.items p
            ≡ late_after w (Driver u) (is_late self.old.late.items self.old.late_drivers.items) p) }
    {
        let reports = &mut self.services.reports;
        let written = self.sockets.offer_driver(u, bytes, reports);
        Ok(note_written(&mut self.late_drivers, u as u64, written))
    }

    fn close(&mut self, c: u64) -> Result<(), Fault>
        ensures no_fault { IsOk result }
        ensures step { Steps (λ w. w.faults) (λ w. untold) (λ a b. GoesOn a.sockets b.sockets)
            (λ _. tells (WasClosed (Connection c))) self.old result self.new }
        ensures late { (p : Peer) → is_late self.new.late.items self.new.late_drivers.items p
            ≡ is_late self.old.late.items self.old.late_drivers.items p }
    {
        self.sockets.close(c, &mut self.services.reports);
        Ok(())
    }

    fn close_driver(&mut self, u: usize) -> Result<(), Fault>
        ensures no_fault { IsOk result }
        ensures step { Steps (λ w. w.faults) (λ w. untold) (λ a b. GoesOn a.sockets b.sockets)
            (λ _. tells (WasClosed (Driver u))) self.old result self.new }
        ensures late { (p : Peer) → is_late self.new.late.items self.new.late_drivers.items p
            ≡ is_late self.old.late.items self.old.late_drivers.items p }
    {
        self.sockets.close_driver(u, &mut self.services.reports);
        Ok(())
    }
}
