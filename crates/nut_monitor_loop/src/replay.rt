//! The loop over a world over memory.

ghost use Rattle.std.specs.Prelude.{◌≡◌, ◌<◌, ◌-◌, ◌^◌, ℕ, [], Option, IfOk, OnErr};
ghost use Rattle.nut_monitor_spec.specs.Content.{content, phase_of};
ghost use Rattle.nut_monitor_loop.specs.Memory.{GoesOn};
ghost use Rattle.nut_monitor_loop.specs.Watched.{Watched};
ghost use Rattle.nut_monitor_loop.specs.WatchedAll.{WatchedAll};

use crate::{MemoryMonWorld, watch};
use nut_io::ServeFault;
use nut_monitor::{Monitor, Phase};
use std::sync::Wait;

/// Watches a list of events until the machine has to be halted or the list ends. Returns the phase.
///
/// # Errors
///
/// `ServeFault::World` if memory for a note cannot be allocated. What was noted before stays noted.
pub fn watch_memory(
    rt: &impl Wait,
    monitor: &mut Monitor,
    world: &mut MemoryMonWorld,
) -> Result<Phase, ServeFault>
    requires fresh { monitor.old.content ≡ content monitor.old.content.configuration [] }
    requires blank { world.old.log ≡ [] }
    requires few { world.old.faults < 2 ^ 64 - 1 }
    ensures all { IfOk result (λ phase. WatchedAll monitor.old.content.configuration world.old world.new monitor.new.content phase) }
    ensures phase { IfOk result (λ phase. phase ≡ phase_of monitor.new.content) }
    ensures err { OnErr result ((owed : Option ℕ)
        × Watched monitor.old.content.configuration (GoesOn world.old world.new) monitor.new.content owed) }
    ensures fault { OnErr result (world.old.faults < world.new.faults) }
{
    watch(rt, monitor, world)
}
