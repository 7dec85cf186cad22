//! The loop that serves over a world.

ghost use Rattle.std.specs.Prelude.{◌≡◌, ◌-◌, ◌^◌, ◌<◌, false, List, [], Ok, IfSome, OnOk, OnErr, option_map};
ghost use Rattle.nut_server_spec.specs.Configuration.{Configuration};
ghost use Rattle.nut_server_spec.specs.Content.{Content, content};
ghost use Rattle.nut_server.specs.Arrival.{event_of};
ghost use Rattle.nut_server_loop.specs.Record.{is_reload, LeadsTo, NothingIsWithheld, NobodyLeaves};
ghost use Rattle.nut_server_loop.specs.Record as entry;
ghost use Rattle.nut_server_loop.specs.inside.Going.{Since, Offered, OfferedBefore, Ready, Goes, ended_by_lack, listed};
ghost use Rattle.nut_server_loop.specs.Served.{to_close, Served};
ghost use Rattle.nut_server_loop.specs.declared.types.Peer.{Peer};

use crate::settling::{settle, settle_all};
use crate::{Next, Peer, World};
use nut_io::{Fault, Piece, ServeFault};
use nut_server::{Arrival, Config, Place, Refused, Server};
use std::sync::Wait;

/// Serves until the world ends.
///
/// The server gets each arrival of the world and the outcome of each write, and the world gets the server's answer to each
/// arrival. Before the loop asks for the next arrival, it offers each connection and each driver all that waits for it,
/// until that is written or the world accepts no more. It closes each connection that has logged out and accepted
/// everything. It also closes each connection and link to a driver that was ended by a failed write, a lack of memory or
/// a reload. All others stay.
///
/// When it returns, the server holds the content of a history of accepted events that the world's record leads to. The
/// bytes that the world accepted for each connection, and for each driver since it was last connected or a reload cleared
/// its UPS, are those that were sent.
///
/// # Errors
///
/// `ServeFault::World` if a call of the world returns a fault.
pub fn serve<W: World>(rt: &impl Wait, server: &mut Server, world: &mut W) -> Result<(), ServeFault>
    requires fresh { server.old ≡ content server.old.configuration [] }
    requires blank { IfSome (W.log world.old) (λ r. r ≡ []) }
    requires few { W.fault_count world.old < 2 ^ 64 - 1 }
    ensures err { OnErr result ((owed : List Peer) × Served server.old.configuration (W.log world.new) server.new owed) }
    ensures ok { OnOk result (Served server.old.configuration (W.log world.new) server.new []) }
    ensures left { OnOk result (NobodyLeaves server.new) }
    ensures ended { OnOk result (W.has_ended world.new server.new) }
    ensures fault { OnErr result (W.fault_count world.old < W.fault_count world.new) }
    ensures reached { W.reached world.old world.new }
{
    go_on(rt, server, world)
}

/// Serves until the world ends, from any point of a history at which all that waits was offered and nobody is to be closed.
fn go_on<W: World>(rt: &impl Wait, server: &mut Server, world: &mut W) -> Result<(), ServeFault>
    ghost since: { Since W }
    requires few { W.fault_count world.old < 2 ^ 64 - 1 }
    requires offered { Offered since.first (W.log world.old) server.old }
    requires reached { W.reached since.start world.old }
    requires withheld { NothingIsWithheld (W.late world.old) server.old }
    requires left { NobodyLeaves server.old }
    ensures goes { Goes W.fault_count W.log W.late W.reached since world.old result world.new server.new }
    ensures left { OnOk result (NobodyLeaves server.new) }
    ensures ended { OnOk result (W.has_ended world.new server.new) }
{
    let mut piece = Piece::new();
    for _ in rt.forever() {
        if !turn(server, world, &mut piece)? {
            return Ok(());
        }
        settle_all(server, world)?;
    }
    unreachable!()
}

/// Asks for the next arrival, passes it to the server, and closes what that ended. Returns false at the end of
/// the world.
fn turn<W: World>(server: &mut Server, world: &mut W, piece: &mut Piece) -> Result<bool, Fault>
    ghost since: { Since W }
    requires few { W.fault_count world.old < 2 ^ 64 - 1 }
    requires offered { Offered since.first (W.log world.old) server.old }
    requires reached { W.reached since.start world.old }
    requires withheld { NothingIsWithheld (W.late world.old) server.old }
    requires left { NobodyLeaves server.old }
    ensures goes { Goes W.fault_count W.log W.late W.reached since world.old result world.new server.new }
    ensures left { result ≡ Ok false → NobodyLeaves server.new }
    ensures ended { result ≡ Ok false → W.has_ended world.new server.new }
{
    match world.next(server, piece)? {
        Next::End => Ok(false),
        Next::Reload(config) => {
            reload(server, world, config)?;
            Ok(true)
        }
        next => {
            hand_on(server, world, &next, piece)?;
            Ok(true)
        }
    }
}

/// Gives the server a new configuration, and closes what the reload ended. If memory is lacking, the server keeps the
/// configuration that it has, and all stays open.
fn reload<W: World>(server: &mut Server, world: &mut W, config: Box<Config>) -> Result<(), Fault>
    requires few { W.fault_count world.old < 2 ^ 64 - 1 }
    requires none_late { (p : Peer) → W.late world.old p ≡ false }
    ensures goes { (since : Since W) → OfferedBefore since.first (W.log world.old) server.old (Next.Reload config) []
        → W.awaits since.start world.old
        → Goes W.fault_count W.log W.late W.reached since world.old result world.new server.new }
{
    let ended = server.ended_by(&config);
    let reloaded = server.arrive(Arrival::Reload(config));
    if reloaded.is_err() {
        world.told(server, &reloaded);
        return Ok(());
    }
    let closed = close_ended(world, &ended);
    world.told(server, &reloaded);
    closed
}

/// Closes the links to drivers and then the connections that a reload ended.
fn close_ended<W: World>(world: &mut W, ended: &nut_server::Ended) -> Result<(), Fault>
    requires few { W.fault_count world.old < 2 ^ 64 - 1 }
    ensures goes { (since : Since W) (s : Content)
        → Ready W.fault_count W.log W.late W.reached since world.old s (to_close ended.now.drivers.items ended.now.connections.items)
        → Goes W.fault_count W.log W.late W.reached since world.old result world.new s }
{
    for u in ended.drivers.as_slice() {
        world.close_driver(*u)?;
    }
    for c in ended.connections.as_slice() {
        world.close(*c)?;
    }
    Ok(())
}

/// Passes what the world gave to the server, if it is an arrival other than a reload, and closes what that
/// ended.
fn hand_on<W: World>(
    server: &mut Server,
    world: &mut W,
    next: &Next,
    piece: &Piece,
) -> Result<(), Fault>
    ghost first: { Configuration }
    requires few { W.fault_count world.old < 2 ^ 64 - 1 }
    requires plain { is_reload next.now ≡ false }
    requires none_late { (p : Peer) → W.late world.old p ≡ false }
    requires served { OfferedBefore first (W.log world.old) server.old next.now piece.now.items }
    ensures goes { (start : W) → LeadsTo (entry.arrival_of next.now piece.now.items) (W.awaits start world.old) (W.reached start world.old)
        → Goes W.fault_count W.log W.late W.reached (record { first = first; start = start }) world.old result world.new server.new }
{
    let Some(arrival) = arrival_of(next, piece) else {
        return Ok(());
    };
    let answer = server.arrive(arrival);
    world.told(server, &answer);
    match ended_by(answer) {
        None => settle_heard(server, world, next),
        Some(peer) => peer.close(world),
    }
}

/// Settles the connection whose bytes were handled. In most cases no other is unsettled, which saves a search.
fn settle_heard<W: World>(server: &mut Server, world: &mut W, next: &Next) -> Result<(), Fault>
    ghost since: { Since W }
    requires ready { Ready W.fault_count W.log W.late W.reached since world.old server.old [] }
    ensures goes { Goes W.fault_count W.log W.late W.reached since world.old result world.new server.new }
{
    match next {
        Next::Bytes(c) => settle(server, world, *c),
        Next::Moment(_)
        | Next::Open
        | Next::Close(_)
        | Next::DriverUp(_)
        | Next::DriverBytes(_)
        | Next::DriverDown(_)
        | Next::Reload(_)
        | Next::Again
        | Next::End => Ok(()),
    }
}

/// Returns the peer that a lack of memory ended, if the answer reports one.
fn ended_by(answer: Result<(), Refused>) -> Option<Peer>
    ensures { ended_by_lack answer ≡ listed result }
{
    match answer {
        Err(Refused::Memory(Place::Line(c, _))) => Some(Peer::Connection(c)),
        Err(Refused::Memory(Place::Report(u, _))) => Some(Peer::Driver(u)),
        Err(
            Refused::Memory(Place::NewUpses)
            | Refused::NoSuchConnection
            | Refused::NotConnected
            | Refused::PieceTooLong
            | Refused::Busy
            | Refused::TooMuchTaken
            | Refused::BadAddress
            | Refused::Full,
        ) => None,
        Ok(()) => None,
    }
}

/// Returns the arrival that the world gave, if it gave one. It isn't a reload.
fn arrival_of<'a>(next: &'a Next, piece: &'a Piece) -> Option<Arrival<'a>>
    requires { is_reload next.now ≡ false }
    ensures { option_map event_of result ≡ entry.arrival_of next.now piece.now.items }
{
    match next {
        Next::Moment(t) => Some(Arrival::Moment(*t)),
        Next::Open => Some(Arrival::Open(piece.as_slice())),
        Next::Bytes(c) => Some(Arrival::Bytes(*c, piece.as_slice())),
        Next::Close(c) => Some(Arrival::Close(*c)),
        Next::DriverUp(u) => Some(Arrival::DriverUp(*u)),
        Next::DriverBytes(u) => Some(Arrival::DriverBytes(*u, piece.as_slice())),
        Next::DriverDown(u) => Some(Arrival::DriverDown(*u)),
        Next::Reload(_) => unreachable!(),
        Next::Again | Next::End => None,
    }
}
