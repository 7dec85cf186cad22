//! A world over memory in which one monitor watches after the other.

ghost use Rattle.std.specs.Prelude.{◌≡◌, ◌<◌, ◌+◌, ◌-◌, ◌^◌, true, false, [], ◌∷◌, refl, Some, None, IfSome, IfOk, OnOk, OnErr};
ghost use Rattle.nut_monitor_loop.specs.Memory.{GoesOn};
ghost use Rattle.nut_monitor_loop.specs.Watched.{handed};
ghost use Rattle.nut_monitor_loop.specs.inside.MemoryLaws.{goes_on_self};
ghost use Rattle.nut_upsmon.specs.Acts.{Changed, ClearedFlag, Readied, halt_of};
ghost use Rattle.nut_upsmon.specs.inside.Ready.{IsFollowed};
ghost use Rattle.nut_upsmon.specs.inside.Telling.{Tells, tells_self};
ghost use Rattle.nut_upsmon.specs.inside.Remembering.{all_handed, remembers_on, same_twice};

use crate::actor::Actor;
use crate::beginning::Beginning;
use crate::guard::Guard;
use crate::guarded_world::GuardedWorld;
use crate::halt::HaltFault;
use crate::memory_machine::MemoryMachine;
use nut_conf::MonConfig;
use nut_io::{Fault, Piece, Written};
use nut_monitor::{Event, Monitor, Notice};
use nut_monitor_loop::{Given, MemoryMonWorld, MonWorld, Next};
use nut_monitor_sockets::{Herald, NewLinks};
use std::alloc::{AllocError, Global};

/// A world over memory whose machine notes its acts. The machine looks for a changed upsmon.conf whenever an event is asked
/// for, and then that watch ends. If no event is left, `next` fails.
#[derive(Drop)]
pub struct MemoryGuardedWorld {
    /// What it gives and notes, for all watches.
    pub world: MemoryMonWorld,
    /// Who has its machine act.
    pub guard: Guard<MemoryMachine>,
    /// How often no event was left.
    run_outs: u64,
    /// Whether its last fault was one of `next`.
    failed_at_next: bool,
    ghost few: { world.faults + run_outs < 2 ^ 64 },
}

impl MemoryGuardedWorld {
    /// Makes a world that gives these events, and has a machine that did nothing make ready for the first configuration.
    ///
    /// # Errors
    ///
    /// [`AllocError`] if memory cannot be allocated.
    pub fn new(
        alloc: Global,
        machine: MemoryMachine,
        first: &MonConfig,
        events: Vec<Given>,
    ) -> Result<MemoryGuardedWorld, AllocError>
        requires { machine ≡ Some [] }
        ensures begun { IfOk result (λ w. IfSome w.guard.actor (λ acts. acts
            ≡ Changed ∷ Readied (halt_of first.now) ∷ ClearedFlag (halt_of first.now).flag ∷ [])) }
        ensures upcoming { IfOk result (λ w. w.guard.next ≡ None) }
        ensures world { IfOk result (λ w. w.world ≡ record { left = events.items; log = []; faults = 0 }) }
        ensures few { IfOk result (λ w. w.world.faults + w.run_outs ≡ 0) }
    {
        let mut machine = machine;
        machine.clear_flag(first)?;
        let mut guard = Guard::new(machine);
        guard.begin(first)?;
        Ok(MemoryGuardedWorld {
            world: MemoryMonWorld::new(alloc, events),
            guard,
            run_outs: 0,
            failed_at_next: false,
        })
    }
}

impl MonWorld for MemoryGuardedWorld {
    ghost did = { λ config a b entries. GoesOn a.world b.world entries
        × Tells config a.guard.actor a.guard.next b.guard.actor b.guard.next (handed entries) };

    ghost awaits = { λ config a b entries. GoesOn a.world b.world entries
        × Tells config a.guard.actor a.guard.next b.guard.actor b.guard.next (handed entries) };

    ghost late = { λ w i. false };

    ghost fault_count = { λ w. w.world.faults + w.run_outs };

    ghost failed_at_next = { λ w. w.failed_at_next ≡ true };

    ghost has_ended = { λ w m. IsFollowed w.guard.next m };

    ghost did_self = { λ config w. (goes_on_self w.world, tells_self config w.guard.actor w.guard.next) };

    ghost did_on = { λ config a b c. remembers_on config a.world b.world c.world a.guard.actor b.guard.actor c.guard.actor
        a.guard.next b.guard.next c.guard.next };

    ghost awaits_on = { λ config a b c. remembers_on config a.world b.world c.world a.guard.actor b.guard.actor c.guard.actor
        a.guard.next b.guard.next c.guard.next };

    fn faults(&self) -> u64 {
        self.world.faults() + self.run_outs
    }

    fn next(&mut self, monitor: &Monitor, piece: &mut Piece) -> Result<Next, Fault> {
        if self.guard.second(monitor) {
            return Ok(Next::End);
        }
        match self.world.next(monitor, piece) {
            Ok(Next::End) => {
                self.run_outs += 1;
                self.failed_at_next = true;
                Err(Fault)
            }
            Ok(next) => Ok(next),
            Err(fault) => {
                self.failed_at_next = true;
                Err(fault)
            }
        }
    }

    fn told(&mut self, _monitor: &Monitor, _event: Event<'_>) {}

    fn write(&mut self, monitor: &Monitor, i: usize, bytes: &[u8]) -> Result<Written, Fault> {
        self.failed_at_next = false;
        self.world.write(monitor, i, bytes)
    }

    fn close(&mut self, monitor: &Monitor, i: usize) -> Result<(), Fault> {
        self.failed_at_next = false;
        self.world.close(monitor, i)
    }

    fn notice(&mut self, monitor: &Monitor, notice: Notice) -> Result<(), Fault> {
        self.failed_at_next = false;
        self.world.notice(monitor, notice)?;
        self.guard.announce(monitor, notice);
        Ok(())
    }
}

impl GuardedWorld for MemoryGuardedWorld {
    ghost acts = { λ w. w.guard.actor };

    ghost upcoming = { λ w. w.guard.next };

    ghost held = { λ w. [] };

    ghost turns = { λ a b. b.world ≡ a.world };

    ghost ends = { λ w m ended. ended };

    ghost turns_self = { λ w. refl };

    ghost turns_on = { λ a b c. same_twice a.world b.world c.world };

    ghost tells = { λ config a b entries did. (handed entries, did.1, all_handed (handed entries)) };

    fn begin(&mut self, links: NewLinks) -> Result<(), Fault> {
        drop(links);
        Ok(())
    }

    fn change(&mut self) -> Beginning {
        self.guard.change()
    }

    fn halt(&mut self, is_flagged: bool) -> Result<(), HaltFault> {
        self.guard.halt(is_flagged)
    }
}
