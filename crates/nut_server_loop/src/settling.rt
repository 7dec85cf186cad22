//! Settling: writes what waits, and closes who is to be closed.

ghost use Rattle.std.specs.Prelude.{◌≡◌, ◌<◌, true, false, [], length, Ok, OnOk};
ghost use Rattle.nut_server_loop.specs.Record.{IsSettled, NothingIsWithheld, NobodyLeaves, waits_of, leaves_at};
ghost use Rattle.nut_server_loop.specs.inside.Going.{Since, Ready, Goes, OnlyAt};
ghost use Rattle.nut_server_loop.specs.declared.types.Peer.TheVariants.{Connection};

use crate::{Peer, World};
use nut_io::{Fault, Written};
use nut_server::{Arrival, Server};

/// Writes all that waits, as far as the world takes it, and closes each connection that is to be closed.
pub(crate) fn settle_all<W: World>(server: &mut Server, world: &mut W) -> Result<(), Fault>
    ghost since: { Since W }
    requires ready { Ready W.fault_count W.log W.late W.reached since world.old server.old [] }
    ensures goes { Goes W.fault_count W.log W.late W.reached since world.old result world.new server.new }
    ensures withheld { OnOk result (NothingIsWithheld (W.late world.new) server.new) }
    ensures left { OnOk result (NobodyLeaves server.new) }
{
    let mut from = 0;
    while let Some(c) = server.next_unsettled(from) {
        settle(server, world, c)?;
        from = c + 1;
    }
    let mut from = 0;
    while let Some(u) = server.next_driver_waiting(from) {
        flush(server, world, Peer::Driver(u))?;
        from = u + 1;
    }
    Ok(())
}

/// Writes to a connection what waits for it, as far as the world takes it, and closes it if it is to be closed.
pub(crate) fn settle<W: World>(server: &mut Server, world: &mut W, c: u64) -> Result<(), Fault>
    ghost since: { Since W }
    requires ready { Ready W.fault_count W.log W.late W.reached since world.old server.old [] }
    ensures goes { Goes W.fault_count W.log W.late W.reached since world.old result world.new server.new }
    ensures settled { OnOk result (IsSettled (W.late world.new) server.new (Connection c)) }
    ensures left { OnOk result (leaves_at (Connection c) server.new ≡ false) }
    ensures only { OnOk result (OnlyAt (Connection c) (W.late world.old) (W.late world.new) server.old server.new) }
{
    flush(server, world, Peer::Connection(c))?;
    if server.leaves(c) {
        world.close(c)?;
        let _ = server.arrive(Arrival::Close(c));
    }
    Ok(())
}

/// Writes to a peer until all that waits for it is written or the world accepts no more.
#[inline(always)]
fn flush<W: World>(server: &mut Server, world: &mut W, peer: Peer) -> Result<(), Fault>
    ghost since: { Since W }
    requires ready { Ready W.fault_count W.log W.late W.reached since world.old server.old [] }
    ensures goes { Goes W.fault_count W.log W.late W.reached since world.old result world.new server.new }
    ensures settled { OnOk result (IsSettled (W.late world.new) server.new peer) }
    ensures only { OnOk result (OnlyAt peer (W.late world.old) (W.late world.new) server.old server.new) }
{
    while write_once(server, world, peer)? {}
    Ok(())
}

/// Writes to a peer once, if anything waits for it, and passes the outcome to the server. Returns whether another write may
/// follow.
#[inline(always)]
fn write_once<W: World>(server: &mut Server, world: &mut W, peer: Peer) -> Result<bool, Fault>
    ghost since: { Since W }
    requires ready { Ready W.fault_count W.log W.late W.reached since world.old server.old [] }
    ensures goes { Goes W.fault_count W.log W.late W.reached since world.old result world.new server.new }
    ensures less { result ≡ Ok true → length (waits_of peer server.new) < length (waits_of peer server.old) }
    ensures settled { result ≡ Ok false → IsSettled (W.late world.new) server.new peer }
    ensures only { OnOk result (OnlyAt peer (W.late world.old) (W.late world.new) server.old server.new) }
{
    let waiting = peer.waiting(server);
    if waiting.is_empty() {
        return Ok(false);
    }
    match peer.write(world, waiting)? {
        Written::Took(n) => {
            let _ = server.arrive(peer.took(n));
            Ok(peer.waits(server) > 0)
        }
        Written::Later => Ok(false),
        Written::Failed => {
            let _ = server.arrive(peer.failed());
            peer.close(world)?;
            Ok(false)
        }
    }
}
