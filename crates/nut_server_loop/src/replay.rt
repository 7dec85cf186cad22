//! The loop over a world in memory.

ghost use Rattle.std.specs.Prelude.{◌≡◌, ◌<◌, ◌-◌, ◌^◌, List, [], Some, OnOk, OnErr};
ghost use Rattle.nut_server_spec.specs.Content.{content};
ghost use Rattle.nut_server_loop.specs.Memory.{GoesOn};
ghost use Rattle.nut_server_loop.specs.Served.{Served};
ghost use Rattle.nut_server_loop.specs.ServedAll.{ServedAll};
ghost use Rattle.nut_server_loop.specs.declared.types.Peer.{Peer};

use crate::{MemoryWorld, serve};
use nut_io::ServeFault;
use nut_server::Server;
use std::sync::Wait;

/// Serves until no arrival that is left may come. What is then left is bytes of connections that may not be read.
///
/// # Errors
///
/// `ServeFault::World` if memory for a note cannot be allocated. What was noted before stays.
pub fn serve_memory(
    rt: &impl Wait,
    server: &mut Server,
    world: &mut MemoryWorld,
) -> Result<(), ServeFault>
    requires fresh { server.old ≡ content server.old.configuration [] }
    requires blank { world.old.log ≡ [] }
    requires few { world.old.faults < 2 ^ 64 - 1 }
    ensures all { OnOk result (ServedAll server.old.configuration world.old world.new server.new) }
    ensures err { OnErr result ((owed : List Peer) × Served server.old.configuration (Some world.new.log) server.new owed) }
    ensures reached { GoesOn world.old world.new }
    ensures fault { OnErr result (world.old.faults < world.new.faults) }
{
    serve(rt, server, world)
}
