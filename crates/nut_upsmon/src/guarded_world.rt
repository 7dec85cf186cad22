//! The world of one watch after the other.

ghost use Rattle.std.specs.Prelude.{◌≡◌, ◌+◌, ◌-◌, ◌^◌, ◌<◌, ℕ, List, [], Option, Some, None, true, is_ok, is_some, if◌then◌else◌, OnOk};
ghost use Rattle.nut_conf.specs.declared.upsmon.MonConfig.{MonConfig};
ghost use Rattle.nut_monitor.specs.Monitors.{MonitorValue};
ghost use Rattle.nut_monitor_loop.specs.Record.{Entry};
ghost use Rattle.nut_monitor_loop.specs.Watched.{handed};
ghost use Rattle.nut_monitor_sockets.specs.Handing.{HandsOn};
ghost use Rattle.nut_poll.specs.Turns.{TakesTurns};
ghost use Rattle.nut_poll.specs.inside.TurnLaws.{turns_on, turns_self};
ghost use Rattle.nut_upsmon.specs.declared.beginning.Beginning.{Beginning as Begins};
ghost use Rattle.nut_upsmon.specs.Acts.{Act, Changed, TriedFlag, RanShutdown, IfTold, does};
ghost use Rattle.nut_upsmon.specs.inside.Ready.{IsFollowed};
ghost use Rattle.nut_upsmon.specs.inside.Telling.{Tells};

use crate::actor::Actor;
use crate::beginning::Beginning;
use crate::guard::Guard;
use crate::halt::HaltFault;
use nut_io::Fault;
use nut_monitor_loop::MonWorld;
use nut_monitor_sockets::{MioMonWorld, NewLinks};
use std::net::Net;
use std::process::Processes;
use std::time::Clock;

/// A world in which one monitor watches after the other, and whose actor does what they decide.
pub trait GuardedWorld: MonWorld {
    /// What its actor did, the newest first; None if that isn't told, or no longer.
    ghost acts: { Self → Option (List Act) };

    /// What the next watch begins with, if the actor is ready for it.
    ghost upcoming: { Self → Option Begins };

    /// The MONITOR lines whose COMMBAD is held back.
    ghost held: { Self → List ℕ };

    /// By calls between two watches the first state may become the second.
    ghost turns: { Self → Self → Type 0 };

    /// Makes the links of a watch.
    ///
    /// # Errors
    ///
    /// A fault, which is counted, if its input or output fails.
    fn begin(&mut self, links: NewLinks) -> Result<(), Fault>
        requires few { Self.fault_count self.old < 2 ^ 64 - 1 }
        ensures turns { turns self.old self.new }
        ensures acts { acts self.new ≡ acts self.old }
        ensures upcoming { upcoming self.new ≡ upcoming self.old }
        ensures held { OnOk result (held self.new ≡ []) }
        ensures counted { Self.fault_count self.new ≡ (if is_ok result then Self.fault_count self.old else Self.fault_count self.old + 1) };

    /// Has the actor halt and tell by the configuration that it is ready for. Returns what its watch begins with.
    fn change(&mut self) -> Beginning
        requires next { is_some (upcoming self.old) ≡ true }
        ensures turns { turns self.old self.new }
        ensures acts { IfTold (acts self.new) (does Changed (acts self.old)) }
        ensures was { upcoming self.old ≡ Some result }
        ensures upcoming { upcoming self.new ≡ None }
        ensures counted { Self.fault_count self.new ≡ Self.fault_count self.old };

    /// Closes all links, so that no primary waits for this machine, and has the actor halt it. POWERDOWNFLAG is tried first if
    /// `is_flagged`.
    ///
    /// # Errors
    ///
    /// Why the machine wasn't halted.
    fn halt(&mut self, is_flagged: bool) -> Result<(), HaltFault>
        ensures turns { turns self.old self.new }
        ensures acts { IfTold (acts self.new)
            (does RanShutdown (if is_flagged then does TriedFlag (acts self.old) else acts self.old)) };

    /// A watch ends once the next one has its beginning, and may take its place.
    ghost ends: { (w : Self) (m : MonitorValue) → Self.has_ended w m → IsFollowed (upcoming w) m };

    /// Without a call nothing changes.
    ghost turns_self: { (w : Self) → turns w w };

    /// What becomes by calls after calls.
    ghost turns_on: { (a b c : Self) → turns a b → turns b c → turns a c };

    /// What it does in a watch has the actor tell the notices that are handed on.
    ghost tells: { (config : MonConfig) (a b : Self) (entries : List Entry) → Self.did config a b entries
        → HandsOn (Tells config (acts a) (upcoming a) (acts b) (upcoming b)) (held a) (held b) (handed entries) };
}

impl<'r, 'e, R, A> GuardedWorld for MioMonWorld<'r, 'e, R, Guard<A>>
where
    R: Net + Clock + Processes,
    A: Actor,
{
    ghost acts = { λ w. A.log w.herald.actor };

    ghost upcoming = { λ w. w.herald.next };

    ghost held = { λ w. w.held_losses.lines.items };

    ghost turns = { λ a b. TakesTurns a.links.rounds b.links.rounds };

    ghost ends = { λ w m ended. ended };

    ghost turns_self = { λ w. turns_self w.links.rounds };

    ghost turns_on = { λ a b c first second. turns_on a.links.rounds b.links.rounds c.links.rounds first second };

    ghost tells = { λ config a b entries did. did.0 };

    fn begin(&mut self, links: NewLinks) -> Result<(), Fault> {
        self.begin(links)
    }

    fn change(&mut self) -> Beginning {
        self.herald.change()
    }

    fn halt(&mut self, is_flagged: bool) -> Result<(), HaltFault> {
        self.leave();
        self.herald.halt(is_flagged)
    }
}
