//! The world of a monitor over sockets.

ghost use Rattle.std.specs.Prelude.{◌≡◌, ◌<◌, ℕ, [], ◌∷◌, ◌+◌, ◌-◌, ◌^◌, length, IsOk, is_ok, if◌then◌else◌, IfOk, OnOk, OnErr};
ghost use Rattle.nut_io.specs.Writes.{IsWithin, late_after};
ghost use Rattle.nut_monitor_loop.specs.Record.{written_by};
ghost use Rattle.nut_monitor_loop.specs.Watched.{handed};
ghost use Rattle.nut_poll.specs.Late.{is_noted};
ghost use Rattle.nut_poll.specs.Turns.{TakesTurns};
ghost use Rattle.nut_poll.specs.inside.TurnLaws.{turns_on, turns_self};
ghost use Rattle.nut_monitor_sockets.specs.Handing.{HandsOn};
ghost use Rattle.nut_monitor_sockets.specs.inside.HandingLaws.{hands_on_twice, none_handed};

use crate::held_losses::HeldLosses;
use crate::herald::Herald;
use crate::links::{LinkServices, Links, NewLinks};
use arrayvec::ArrayVec;
use nut_conf::MONITORS_MAX;
use nut_io::{Fault, Piece, Written};
use nut_monitor::{Event, Monitor, Notice};
use nut_monitor_loop::{MonWorld, Next};
use nut_poll::{LookUps, Reports, note_written};
use std::alloc::Global;
use std::io;
use std::net::Net;
use std::process::Processes;
use std::time::Clock;

/// The world of a monitor whose servers are reached over TCP.
///
/// One thread watches all sockets, and nothing waits for a server or a name. If a link isn't made, its server is called
/// at the start and every second: the addresses of its host are dialled one after the other, and an address that
/// doesn't answer within five seconds is given up. A server that closes its link before it has served is called after
/// pauses that grow. The addresses of a host that is given by name are looked up by a process of its own, at the start
/// and whenever none of the known addresses answers. At most one look-up begins each second, with pauses that grow to
/// 60 seconds, and none begins in a shutdown.
///
/// A server that doesn't answer for ten seconds, or five while a UPS is on battery, is lost.
///
/// A `Moment` comes each second, counted from the start, however much the servers send, after what had arrived by the
/// end of that second was heard. Seconds that were missed, because this process was stopped, follow one at a time, and
/// each only when no server is about to answer: so no server is judged by what it couldn't say. A shutdown that begins
/// then counts its own seconds, and forgets those that are missed while it waits for other machines.
///
/// Notices go to a herald. In the first seconds of the world, while the machine may be booting, it isn't told that a UPS is
/// lost which had no status yet. The herald is also told that a second has passed: once for several missed seconds that
/// follow one another at once. The world ends when the herald says so, and may then begin anew for another monitor. Of the calls of
/// `watch` only `next` returns a fault, that of the wait for the sockets or of the clock: a failure of one link concerns no other. The
/// world keeps no record.
pub struct MioMonWorld<'r, 'e, R: Processes, H> {
    links: Links,
    services: LinkServices<'r, 'e, R>,
    /// Where its notices go.
    pub herald: H,
    held_losses: HeldLosses,
    late: ArrayVec<u64, MONITORS_MAX>,
    faults: u64,
}

// A derived drop would be proved again in each crate that drops a value, with those of its parts.
impl<'r, 'e, R: Processes, H: Drop> Drop for MioMonWorld<'r, 'e, R, H> {
    fn drop(self) {
        let MioMonWorld {
            links: _links,
            services: _services,
            herald: _herald,
            held_losses: _held_losses,
            late: _late,
            faults: _,
        } = self;
    }
}

impl<'r, 'e, R: Net + Clock + Processes, H: Herald> MioMonWorld<'r, 'e, R, H> {
    /// Returns a world that has no links yet. Reports say when servers come and go.
    ///
    /// # Errors
    ///
    /// If there is no poll, no clock or no memory.
    pub fn new(
        rt: &'r R,
        alloc: Global,
        herald: H,
        reports: Reports<'e>,
    ) -> io::Result<MioMonWorld<'r, 'e, R, H>>
        ensures faults { IfOk result (λ w. w.faults ≡ 0) }
        ensures herald { IfOk result (λ w. w.herald ≡ herald) }
    {
        let links = Links::none(rt, alloc)?;
        Ok(MioMonWorld {
            links,
            services: LinkServices {
                rt,
                look_ups: LookUps::none(rt, alloc),
                reports,
            },
            herald,
            held_losses: HeldLosses::new(),
            late: ArrayVec::new(),
            faults: 0,
        })
    }

    /// Begins for a monitor with these links: their servers are called, and all earlier links are closed. The addresses
    /// of hosts stay known, and look-ups that are under way continue. A lack of memory or descriptors is no error here.
    ///
    /// # Errors
    ///
    /// If there is no clock. The fault is counted then, and nothing else has changed.
    pub fn begin(&mut self, links: NewLinks) -> Result<(), Fault>
        requires few { self.old.faults < 2 ^ 64 - 1 }
        ensures counted { self.new.faults ≡ (if is_ok result then self.old.faults else self.old.faults + 1) }
        ensures herald { self.new.herald ≡ self.old.herald }
        ensures held { OnOk result (self.new.held_losses.lines.items ≡ []) }
        ensures turns { TakesTurns self.old.links.rounds self.new.links.rounds }
    {
        if self.links.begin(&mut self.services, links).is_err() {
            self.faults += 1;
            return Err(Fault);
        }
        self.held_losses.clear();
        self.late.clear();
        Ok(())
    }

    /// Closes all links, and ends the look-ups: nothing more is watched. Nothing is reported.
    pub fn leave(&mut self)
        ensures herald { self.new.herald ≡ self.old.herald }
        ensures faults { self.new.faults ≡ self.old.faults }
        ensures turns { TakesTurns self.old.links.rounds self.new.links.rounds }
    {
        self.links.leave(&mut self.services.look_ups);
    }
}

ghost use Rattle.std.specs.Prelude.{◌≢◌, ◌<◌, ◌≤◌, IfOk, IfSome, Some, Ok, true};

impl<'r, 'e, R: Net + Clock + Processes, H: Herald> MonWorld for MioMonWorld<'r, 'e, R, H> {
    ghost did = { λ config a b entries.
        HandsOn (H.told config a.herald b.herald) a.held_losses.lines.items b.held_losses.lines.items (handed entries)
        × TakesTurns a.links.rounds b.links.rounds };

    ghost awaits = { λ config a b entries.
        HandsOn (H.told config a.herald b.herald) a.held_losses.lines.items b.held_losses.lines.items (handed entries)
        × TakesTurns a.links.rounds b.links.rounds };

    ghost late = { λ w i. is_noted w.late.items i };

    ghost fault_count = { λ w. w.faults };

    ghost failed_at_next = { λ w. Unit {0} };

    ghost has_ended = { λ w m. H.wants_end w.herald m };

    ghost did_self = { λ config w. (
      none_handed (H.told config w.herald w.herald) w.held_losses.lines.items (H.told_self config w.herald),
      turns_self w.links.rounds,
    ) };

    ghost did_on = { λ config a b c xs ys first second. (
      hands_on_twice (H.told config a.herald b.herald) (H.told config b.herald c.herald)
          (H.told config a.herald c.herald) (H.told_on config a.herald b.herald c.herald)
          a.held_losses.lines.items b.held_losses.lines.items c.held_losses.lines.items xs ys first.0 second.0,
      turns_on a.links.rounds b.links.rounds c.links.rounds first.1 second.1,
    ) };

    ghost awaits_on = { λ config a b c xs ys first second. (
      hands_on_twice (H.told config a.herald b.herald) (H.told config b.herald c.herald)
          (H.told config a.herald c.herald) (H.told_on config a.herald b.herald c.herald)
          a.held_losses.lines.items b.held_losses.lines.items c.held_losses.lines.items xs ys first.0 second.0,
      turns_on a.links.rounds b.links.rounds c.links.rounds first.1 second.1,
    ) };

    fn faults(&self) -> u64 {
        self.faults
    }

    fn next(&mut self, monitor: &Monitor, piece: &mut Piece) -> Result<Next, Fault> {
        self.late.clear();
        match self.links.next(&mut self.services, monitor, piece) {
            Ok(Next::Moment(moment)) => {
                if self.links.has_moved_on() {
                    self.held_losses.second(&mut self.herald, monitor);
                    if self.herald.second(monitor) {
                        return Ok(Next::End);
                    }
                }
                Ok(Next::Moment(moment))
            }
            Ok(next) => Ok(next),
            Err(_) => {
                self.faults += 1;
                Err(Fault)
            }
        }
    }

    fn told(&mut self, monitor: &Monitor, event: Event<'_>) {
        if let Event::LinkBytes(i, _) = event {
            self.links.told(monitor, i, &mut self.services.reports);
        }
    }

    fn write(&mut self, _monitor: &Monitor, i: usize, bytes: &[u8]) -> Result<Written, Fault>
        requires { 0 < length bytes.now }
        ensures no_fault { IsOk result }
        ensures elsewhere { OnErr result (Unit {0} → ⊥) }
        ensures count { self.new.faults ≡ self.old.faults }
        ensures ok { IfOk result (λ w. HandsOn (H.told _monitor.now.config self.old.herald self.new.herald)
            self.old.held_losses.lines.items self.new.held_losses.lines.items
            (handed (written_by w i bytes.now ∷ [])) × TakesTurns self.old.links.rounds self.new.links.rounds) }
        ensures err { OnErr result (HandsOn (H.told _monitor.now.config self.old.herald self.new.herald)
            self.old.held_losses.lines.items self.new.held_losses.lines.items []
            × TakesTurns self.old.links.rounds self.new.links.rounds) }
        ensures within { IfOk result (λ w. IsWithin w (length bytes.now)) }
        ensures late { IfOk result (λ w. (j : ℕ)
            → is_noted self.new.late.items j ≡ late_after w i (is_noted self.old.late.items) j) }
    {
        let written = self.links.offer(i, bytes);
        Ok(note_written(&mut self.late, i as u64, written))
    }

    fn close(&mut self, _monitor: &Monitor, i: usize) -> Result<(), Fault>
        ensures no_fault { IsOk result }
        ensures elsewhere { OnErr result (Unit {0} → ⊥) }
        ensures count { self.new.faults ≡ self.old.faults }
        ensures ok { OnOk result (HandsOn (H.told _monitor.now.config self.old.herald self.new.herald)
            self.old.held_losses.lines.items self.new.held_losses.lines.items []
            × TakesTurns self.old.links.rounds self.new.links.rounds) }
        ensures err { OnErr result (HandsOn (H.told _monitor.now.config self.old.herald self.new.herald)
            self.old.held_losses.lines.items self.new.held_losses.lines.items []
            × TakesTurns self.old.links.rounds self.new.links.rounds) }
        ensures late { (j : ℕ) → is_noted self.new.late.items j ≡ is_noted self.old.late.items j }
    {
        self.links.close(i, &mut self.services.reports);
        Ok(())
    }

    fn notice(&mut self, monitor: &Monitor, notice: Notice) -> Result<(), Fault>
        ensures no_fault { IsOk result }
        ensures elsewhere { OnErr result (Unit {0} → ⊥) }
        ensures count { self.new.faults ≡ self.old.faults }
        ensures ok { OnOk result (HandsOn (H.told monitor.now.config self.old.herald self.new.herald)
            self.old.held_losses.lines.items self.new.held_losses.lines.items (notice ∷ [])
            × TakesTurns self.old.links.rounds self.new.links.rounds) }
        ensures err { OnErr result (HandsOn (H.told monitor.now.config self.old.herald self.new.herald)
            self.old.held_losses.lines.items self.new.held_losses.lines.items []
            × TakesTurns self.old.links.rounds self.new.links.rounds) }
        ensures late { (j : ℕ) → is_noted self.new.late.items j ≡ is_noted self.old.late.items j }
    {
        self.held_losses.tell(&mut self.herald, monitor, notice);
        Ok(())
    }
}
