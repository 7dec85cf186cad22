//! The world as the loop sees it.

ghost use Rattle.std.specs.Prelude.{◌≡◌, ◌+◌, ◌-◌, ◌^◌, ◌<◌, ℕ, Bool, false, List, [], ◌∷◌, ◌++◌, length, Ok, IfOk, OnOk, OnErr, is_ok, if◌then◌else◌};
ghost use Rattle.nut_conf.specs.declared.upsmon.MonConfig.{MonConfig};
ghost use Rattle.nut_monitor_spec.specs.Content.{phase_of};
ghost use Rattle.nut_monitor_spec.specs.Decision.{is_halted};
ghost use Rattle.nut_io.specs.Writes.{IsWithin, late_after};
ghost use Rattle.nut_monitor.specs.Events.{event_of};
ghost use Rattle.nut_monitor.specs.Monitors.{MonitorValue};
ghost use Rattle.nut_monitor_loop.specs.Record.{Entry, Gave, WasClosed, WasTold, LeadsTo, written_by, NothingIsWithheld};

use crate::Next;
use nut_io::{Fault, Piece, Written};
use nut_monitor::{Event, Monitor, Notice};

/// A world that gives events, takes bytes, closes links and is handed notices. A link has the number of its MONITOR
/// line, from 0 on. Each call is shown the monitor, for example so that the world can report what the monitor has heard.
///
/// Any call except `faults` and `told` may return a fault instead, if its input or output fails. It has then done nothing, and
/// the fault is counted. After `next`, also after its fault, no link is late.
pub trait MonWorld {
    /// Calls that are shown monitors of this configuration may lead from the first state to the second. This, the newest
    /// first, is what the world gave, accepted, closed and was handed by them.
    ghost did: { MonConfig → Self → Self → List Entry → Type 0 };

    /// The same, but the second state waits to hear what became of the last event.
    ghost awaits: { MonConfig → Self → Self → List Entry → Type 0 };

    /// On which links a write was `Later` since the last `next`.
    ghost late: { Self → ℕ → Bool };

    /// How many calls returned a fault.
    ghost fault_count: { Self → ℕ };

    /// It tells that its last fault was one of `next`.
    ghost failed_at_next: { Self → Type 0 };

    /// Nothing more will come for this monitor.
    ghost has_ended: { Self → MonitorValue → Type 0 };

    /// Returns how many calls have returned a fault.
    fn faults(&self) -> u64
        ensures { result ≡ fault_count self.now };

    /// Returns the next event. The bytes of a `Next::LinkBytes` are then in the piece.
    ///
    /// It may be called only if each link with waiting bytes is late, each notice was handed over, and the machine need
    /// not be halted. No link is late afterwards.
    fn next(&mut self, monitor: &Monitor, piece: &mut Piece) -> Result<Next, Fault>
        requires few { fault_count self.old < 2 ^ 64 - 1 }
        requires withheld { NothingIsWithheld (late self.old) monitor.now.content }
        requires told { monitor.now.content.notices ≡ [] }
        requires going { is_halted (phase_of monitor.now.content) ≡ false }
        ensures ok { IfOk result (λ n. LeadsTo n piece.new.items
            (awaits monitor.now.config self.old self.new) (did monitor.now.config self.old self.new) []) }
        ensures err { OnErr result (did monitor.now.config self.old self.new []) }
        ensures ended { result ≡ Ok Next.End → has_ended self.new monitor.now }
        ensures none_late { (i : ℕ) → late self.new i ≡ false }
        ensures counted { fault_count self.new ≡ (if is_ok result then fault_count self.old else fault_count self.old + 1) };

    /// Hears that the monitor was given the event that `next` gave last. The monitor shows what became of it.
    ///
    /// The call comes once for each event, before anything is written, closed or handed over for it.
    fn told(&mut self, monitor: &Monitor, event: Event<'_>)
        ensures did { (a : Self) (before : List Entry) → awaits monitor.now.config a self.old (Gave (event_of event.entry) ∷ before)
            → did monitor.now.config a self.new (Gave (event_of event.entry) ∷ before) }
        ensures counted { fault_count self.new ≡ fault_count self.old };

    /// Offers at least one byte to the server of link i. Returns how many the server took, or that the write was late,
    /// or that it failed.
    fn write(&mut self, monitor: &Monitor, i: usize, bytes: &[u8]) -> Result<Written, Fault>
        requires few { fault_count self.old < 2 ^ 64 - 1 }
        requires some { 0 < length bytes.now }
        ensures ok { IfOk result (λ w. did monitor.now.config self.old self.new (written_by w i bytes.now ∷ [])) }
        ensures err { OnErr result (did monitor.now.config self.old self.new []) }
        ensures elsewhere { OnErr result (failed_at_next self.new → ⊥) }
        ensures within { IfOk result (λ w. IsWithin w (length bytes.now)) }
        ensures late { IfOk result (λ w. (j : ℕ) → late self.new j ≡ late_after w i (late self.old) j) }
        ensures counted { fault_count self.new ≡ (if is_ok result then fault_count self.old else fault_count self.old + 1) };

    /// Closes link i: nothing more is offered on it until it is made anew.
    fn close(&mut self, monitor: &Monitor, i: usize) -> Result<(), Fault>
        requires few { fault_count self.old < 2 ^ 64 - 1 }
        ensures ok { OnOk result (did monitor.now.config self.old self.new (WasClosed i ∷ [])) }
        ensures err { OnErr result (did monitor.now.config self.old self.new []) }
        ensures elsewhere { OnErr result (failed_at_next self.new → ⊥) }
        ensures late { (j : ℕ) → late self.new j ≡ late self.old j }
        ensures counted { fault_count self.new ≡ (if is_ok result then fault_count self.old else fault_count self.old + 1) };

    /// Takes note of a notice of this monitor, for example by printing its text.
    fn notice(&mut self, monitor: &Monitor, notice: Notice) -> Result<(), Fault>
        requires few { fault_count self.old < 2 ^ 64 - 1 }
        ensures ok { OnOk result (did monitor.now.config self.old self.new (WasTold notice ∷ [])) }
        ensures err { OnErr result (did monitor.now.config self.old self.new []) }
        ensures elsewhere { OnErr result (failed_at_next self.new → ⊥) }
        ensures late { (j : ℕ) → late self.new j ≡ late self.old j }
        ensures counted { fault_count self.new ≡ (if is_ok result then fault_count self.old else fault_count self.old + 1) };

    /// An empty list of calls leads from each state to itself.
    ghost did_self: { (config : MonConfig) (w : Self) → did config w w [] };

    /// What is done by calls after calls.
    ghost did_on: { (config : MonConfig) (a b c : Self) (xs ys : List Entry) → did config a b xs → did config b c ys
        → did config a c (ys ++ xs) };

    /// A world that waits to hear of an event does so whatever was done before.
    ghost awaits_on: { (config : MonConfig) (a b c : Self) (xs ys : List Entry) → did config a b xs → awaits config b c ys
        → awaits config a c (ys ++ xs) };
}
