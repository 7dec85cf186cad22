//! Watches one configuration after the other.

ghost use Rattle.std.specs.Prelude.{◌≡◌, ◌+◌, ◌-◌, ◌^◌, ◌<◌, ◌∷◌, List, [], true, false, None, is_ok, is_some, if◌then◌else◌, IfOk, IfSome, OnOk, OnErr};
ghost use Rattle.std.specs.List.{AllByRecursion};
ghost use Rattle.nut_monitor_spec.specs.Configuration.{configuration_of};
ghost use Rattle.nut_monitor_spec.specs.Content.{content};
ghost use Rattle.nut_monitor_spec.specs.Decision.{is_halted};
ghost use Rattle.nut_monitor_loop.specs.Record.{Entry};
ghost use Rattle.nut_upsmon.specs.Acts.{Changed, ClearedFlag, IsQuiet, Readied, halt_of};
ghost use Rattle.nut_upsmon.specs.Course.{EndsInFault, EndsInHalt};
ghost use Rattle.nut_upsmon.specs.inside.Ready.{IsReady};
ghost use Rattle.nut_upsmon.specs.inside.Running.{Broken, Fails, Leads, Whole};

use crate::actor::Actor;
use crate::beginning::Beginning;
use crate::guard::Guard;
use crate::guarded_world::GuardedWorld;
use crate::halt::HaltFault;
use nut_io::ServeFault;
use nut_monitor::{Monitor, Phase};
use nut_monitor_loop::{MonWorld, watch};
use nut_monitor_sockets::MioMonWorld;
use nut_poll::{ErrorLines, Reports};
use nut_program::hold_closed_streams;
use std::alloc::Global;
use std::io;
use std::io::ErrorKind;
use std::net::Net;
use std::process::Processes;
use std::rt::Files;
use std::sync::Wait;
use std::time::Clock;

/// The lines of standard error. A bound in place of `ErrorLines`, since the borrow checker covers no call that names an
/// actor with a lifetime and, in its signature, what is `'static`.
pub trait ErrorStream {
    /// Returns the lines.
    fn lines(&mut self) -> &mut ErrorLines;
}

impl ErrorStream for ErrorLines {
    fn lines(&mut self) -> &mut ErrorLines {
        self
    }
}

/// Has an actor remove a POWERDOWNFLAG that an earlier shutdown left, before anything else can fail, and then watches as
/// [`watch_in_turn`] does, over a new world of sockets. Reports to the operator on `err`, and if that is to be quiet, only
/// refusals that no notice tells of. The standard streams that are closed are held meanwhile, so that no socket takes the
/// place of one.
///
/// # Errors
///
/// If memory or a poll isn't available, or waiting for the sockets or reading the clock fails.
pub fn watch_over_sockets<'r, R, A, E>(
    rt: &'r R,
    alloc: Global,
    mut actor: A,
    first: Beginning,
    is_quiet: bool,
    err: &mut E,
) -> io::Result<Result<(), HaltFault>>
where
    R: Wait + Files + Net + Clock + Processes,
    A: Actor,
    E: ErrorStream,
    requires { IfSome (A.log actor) (λ acts. acts ≡ []) }
{
    actor.clear_flag(first.config())?;
    let _held = hold_closed_streams(rt, alloc)?;
    let reports = Reports::new(err.lines(), !is_quiet);
    let mut world = MioMonWorld::new(rt, alloc, Guard::new(actor), reports)?;
    begin_and_watch(rt, &mut world, first)
}

/// Has the actor of a world of sockets make ready for the first configuration, and then watches as [`watch_in_turn`] does.
///
/// # Errors
///
/// If memory isn't available, or waiting for the sockets or reading the clock fails.
fn begin_and_watch<'r, 'e, R, A>(
    rt: &'r R,
    world: &mut MioMonWorld<'r, 'e, R, Guard<A>>,
    first: Beginning,
) -> io::Result<Result<(), HaltFault>>
where
    R: Wait + Net + Clock + Processes,
    A: Actor,
    requires cleared { IfSome (A.log world.old.herald.actor) (λ acts. acts ≡ ClearedFlag (halt_of first.monitor.config).flag ∷ []) }
    requires next { world.old.herald.next ≡ None }
    requires faults { world.old.faults ≡ 0 }
{
    world.herald.begin(first.config())?;
    match watch_in_turn(rt, world, first) {
        Ok(halted) => Ok(halted),
        Err(_) => Err(io::Error::from(ErrorKind::Other)),
    }
}

/// Watches the UPSes of one configuration after the other, until the machine has to be halted, and halts it. Returns what
/// came of that. All that the actor did before is that it tried to remove a flag that was left, and made ready to halt and to
/// tell by the first configuration.
///
/// SHUTDOWNCMD is run if and only if the monitor of the configuration in force says that the machine has to be halted:
/// once, as the last act, and it is that of this configuration. POWERDOWNFLAG is tried before, if and only if the
/// monitor says so, and whatever becomes of it. What is told are the notices of one watch after the other.
///
/// # Errors
///
/// If a call of the world returned a fault. No part of a halt was done then. If it was `begin` or `next`, no monitor said that
/// the machine has to be halted.
pub fn watch_in_turn<W: GuardedWorld>(
    rt: &impl Wait,
    world: &mut W,
    first: Beginning,
) -> Result<Result<(), HaltFault>, ServeFault>
    requires begun { IfSome (W.acts world.old) (λ acts. acts
        ≡ Changed ∷ Readied (halt_of first.monitor.config) ∷ ClearedFlag (halt_of first.monitor.config).flag ∷ []) }
    requires upcoming { W.upcoming world.old ≡ None }
    requires few { W.fault_count world.old < 2 ^ 64 - 1 }
    ensures halted { OnOk result (EndsInHalt W.did W.turns W.acts world.old world.new) }
    ensures failed { OnErr result (W.failed_at_next world.new → EndsInFault W.did W.turns world.old world.new) }
    ensures quiet { OnErr result (IfSome (W.acts world.new) (AllByRecursion IsQuiet)) }
    ensures fault { OnErr result (W.fault_count world.new ≡ W.fault_count world.old + 1) }
{
    let mut beginning = first;
    for _ in rt.forever() {
        match watch_once(rt, world, beginning)? {
            Phase::Halted { flag } => return Ok(world.halt(flag)),
            Phase::Watching | Phase::Forcing | Phase::Final => beginning = world.change(),
        }
    }
    unreachable!()
}

/// Makes the links of a watch, and watches until the machine has to be halted, or until another watch has its beginning.
/// Returns what the monitor says then.
fn watch_once<W: GuardedWorld>(
    rt: &impl Wait,
    world: &mut W,
    beginning: Beginning,
) -> Result<Phase, ServeFault>
    requires few { W.fault_count world.old < 2 ^ 64 - 1 }
    ensures ok { IfOk result (λ phase. Leads W.did W.turns W.acts W.upcoming beginning.monitor.config world.old world.new phase) }
    ensures err { OnErr result (W.failed_at_next world.new → Fails W.did W.turns beginning.monitor.config world.old world.new) }
    ensures ready { IsReady (W.acts world.old) (W.upcoming world.old) beginning.monitor.config
        → IsReady (W.acts world.new) (W.upcoming world.new) beginning.monitor.config }
    ensures ended { IfOk result (λ phase. is_halted phase ≡ false → is_some (W.upcoming world.new) ≡ true) }
    ensures counted { W.fault_count world.new ≡ (if is_ok result then W.fault_count world.old else W.fault_count world.old + 1) }
{
    let Beginning { monitor, links } = beginning;
    world.begin(links)?;
    watch_from(rt, monitor, world)
}

/// Watches with a monitor that has heard nothing yet. Returns what it says in the end.
fn watch_from<W: MonWorld>(
    rt: &impl Wait,
    mut monitor: Monitor,
    world: &mut W,
) -> Result<Phase, ServeFault>
    requires untold { monitor.content ≡ content (configuration_of monitor.config) [] }
    requires few { W.fault_count world.old < 2 ^ 64 - 1 }
    ensures ok { IfOk result (Whole monitor.config (W.did monitor.config world.old world.new) (W.has_ended world.new)) }
    ensures err { OnErr result (W.failed_at_next world.new → Broken monitor.config (W.did monitor.config world.old world.new)) }
    ensures did { (entries : List Entry) × W.did monitor.config world.old world.new entries }
    ensures counted { W.fault_count world.new ≡ (if is_ok result then W.fault_count world.old else W.fault_count world.old + 1) }
{
    watch(rt, &mut monitor, world)
}
