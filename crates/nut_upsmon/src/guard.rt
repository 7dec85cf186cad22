//! Has an actor do what a monitor decides.

ghost use Rattle.std.specs.Prelude.{◌≡◌, Some, None, true, is_some, OnOk, OnErr, if◌then◌else◌};
ghost use Rattle.nut_conf.specs.declared.upsmon.MonConfig.{MonConfig};
ghost use Rattle.nut_upsmon.specs.Acts.{does, is_to_call, is_to_print, told, Readied, Changed, TriedFlag, RanShutdown, IfTold, halt_of};
ghost use Rattle.nut_upsmon.specs.inside.Ready.{IsFollowed};
ghost use Rattle.nut_upsmon.specs.inside.Telling.{Tells, tells_on, tells_self};

use crate::actor::Actor;
use crate::beginning::Beginning;
use crate::halt::HaltFault;
use nut_conf::{MonConfig, NoticeFlags};
use nut_monitor::{Monitor, Notice};
use nut_monitor_sockets::Herald;
use std::alloc::AllocError;

/// Has an actor tell what monitors give, one monitor after the other, and halt the machine in the end.
#[derive(Drop)]
pub struct Guard<A> {
    pub actor: A,
    /// What the next watch begins with, if the actor is ready for it: then this one ends.
    pub next: Option<Beginning>,
}

impl<A: Actor> Guard<A> {
    /// Returns what has this actor act.
    pub fn new(actor: A) -> Guard<A>
        ensures actor { result.actor ≡ actor }
        ensures next { result.next ≡ None }
    {
        Guard { actor, next: None }
    }

    /// Has the actor halt and tell by the first configuration.
    ///
    /// # Errors
    ///
    /// [`AllocError`] if memory cannot be allocated.
    pub fn begin(&mut self, config: &MonConfig) -> Result<(), AllocError>
        ensures ok { OnOk result (IfTold (A.log self.new.actor) (does Changed (does (Readied (halt_of config.now)) (A.log self.old.actor)))) }
        ensures err { OnErr result (A.log self.new.actor ≡ A.log self.old.actor) }
        ensures next { self.new.next ≡ self.old.next }
    {
        self.actor.ready(config)?;
        self.actor.change();
        Ok(())
    }

    /// Has the actor halt and tell by the next configuration. Returns what its watch begins with.
    pub fn change(&mut self) -> Beginning
        requires next { is_some self.old.next ≡ true }
        ensures was { self.old.next ≡ Some result }
        ensures actor { IfTold (A.log self.new.actor) (does Changed (A.log self.old.actor)) }
        ensures next { self.new.next ≡ None }
    {
        match self.next.take() {
            Some(next) => {
                self.actor.change();
                next
            }
            None => unreachable!(),
        }
    }

    /// Has the actor halt the machine, and try to set POWERDOWNFLAG first if `is_flagged`.
    ///
    /// # Errors
    ///
    /// Why the machine wasn't halted.
    pub fn halt(&mut self, is_flagged: bool) -> Result<(), HaltFault>
        ensures { IfTold (A.log self.new.actor)
            (does RanShutdown (if is_flagged then does TriedFlag (A.log self.old.actor) else A.log self.old.actor)) }
    {
        if is_flagged {
            let _ = self.actor.set_flag();
        }
        self.actor.run_shutdown()
    }
}

impl<A: Actor> Herald for Guard<A> {
    ghost told = { λ config a b given. Tells config (A.log a.actor) a.next (A.log b.actor) b.next given };

    ghost wants_end = { λ g m. IsFollowed g.next m };

    ghost told_self = { λ config g. tells_self config (A.log g.actor) g.next };

    ghost told_on = { λ config a b c xs ys. tells_on config (A.log a.actor) (A.log b.actor) (A.log c.actor) a.next b.next c.next xs ys };

    fn announce(&mut self, monitor: &Monitor, notice: Notice) {
        tell(&mut self.actor, monitor, notice);
    }

    fn second(&mut self, monitor: &Monitor) -> bool {
        match self.actor.second(monitor) {
            Some(next) => {
                drop(self.next.replace(next));
                true
            }
            None => false,
        }
    }
}

/// Has an actor tell a notice of this monitor to those that its flags name.
pub fn tell<A: Actor>(actor: &mut A, monitor: &Monitor, notice: Notice)
    ensures { IfTold (A.log actor.new) (told monitor.now.config notice (A.log actor.old)) }
{
    actor.note(monitor, notice);
    let flags = monitor.config().flags(notice.kind);
    if is_to_print(flags) {
        actor.print(monitor, notice);
    }
    if is_to_call(flags) {
        actor.call(monitor, notice);
    }
}

/// Whether a notice with these flags is printed.
fn is_to_print(flags: NoticeFlags) -> bool
    ensures { result ≡ is_to_print flags }
{
    !flags.ignore && (flags.syslog || flags.wall)
}

/// Whether NOTIFYCMD is run with a notice that has these flags.
fn is_to_call(flags: NoticeFlags) -> bool
    ensures { result ≡ is_to_call flags }
{
    !flags.ignore && flags.exec
}
