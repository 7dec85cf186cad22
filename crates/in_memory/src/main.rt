//! A user of the library: a server over memory is asked and answers, and then `upsd --stdio` and `nutsim` do their work over
//! memory.
#![tactic(auto)]

use nut::{
    Config, Given, MemoryWorld, Note, Piece, Server, read_ups, read_upsd, read_users, run_nutsim,
    run_stdio, serve,
};
use std::alloc::Global;
use std::io::{Stdout, Write};
use std::process::ExitCode;
use std::rt::Files;
use std::sync::Wait;

const UPS_CONF: &[u8] = b"[su700]\ndesc = \"Server room\"\n";

const REQUESTS: [&[u8]; 3] = [b"LIST UPS\n", b"GET UPSDESC su700\n", b"LOGOUT\n"];

fn main(rt: HostRuntime) -> ExitCode {
    match show_all(&rt, rt.alloc(), rt.stdout()) {
        Some(()) => ExitCode::SUCCESS,
        None => {
            let _ = writeln!(rt.stderr(), "in_memory: no memory, or a write failed");
            ExitCode::FAILURE
        }
    }
}

/// Shows what a server, `upsd --stdio` and `nutsim` write. Returns `None` if memory cannot be allocated or a write fails.
fn show_all(rt: &(impl Wait + Files), alloc: Global, mut out: Stdout) -> Option<()> {
    show_server(rt, alloc, &mut out)?;

    // from a slice into vectors
    let words = ["upsd", "--stdio", "--ups", "su700=Server room"];
    let (mut told, mut faults) = (Vec::new(alloc), Vec::new(alloc));
    let mut input: &[u8] = b"GET UPSDESC su700\nLOGOUT\n";
    let status = run_stdio(rt, alloc, &words, &mut input, &mut told, &mut faults);
    show(status, &told, &faults, &mut out)?;

    // the news of a room's steps, and the fault of the last one
    let words = ["nutsim", ".", "room.sched", "upsmon.conf"];
    let (mut told, mut faults) = (Vec::new(alloc), Vec::new(alloc));
    let status = run_nutsim(rt, alloc, &words, &mut told, &mut faults);
    show(status, &told, &faults, &mut out)
}

/// Lets a server serve one client, and writes what that took.
fn show_server(rt: &impl Wait, alloc: Global, out: &mut Stdout) -> Option<()> {
    let ups = read_ups(alloc, UPS_CONF).ok()?;
    let users = read_users(alloc, b"").ok()?;
    let config = Config::new(ups, users, read_upsd(alloc, b"").ok()?);
    let mut server = Server::new(alloc, config).ok()?;
    let mut world = MemoryWorld::new(alloc, arrivals(alloc)?);
    serve(rt, &mut server, &mut world).ok()?;
    for note in world.notes() {
        if let Note::Took(_, bytes) = note {
            out.write_all(bytes).ok()?;
        }
    }
    Some(())
}

/// Returns a client that connects and sends requests.
fn arrivals(alloc: Global) -> Option<Vec<Given>> {
    let mut arrivals = Vec::new(alloc);
    arrivals.push(Given::Open(piece(b"127.0.0.1")?)).ok()?;
    for request in REQUESTS {
        arrivals.push(Given::Bytes(1, piece(request)?)).ok()?;
    }
    Some(arrivals)
}

fn piece(bytes: &[u8]) -> Option<Piece> {
    let mut piece = Piece::new();
    piece.try_extend_from_slice(bytes).ok()?;
    Some(piece)
}

/// Writes an exit status, and what a program wrote to its two streams.
fn show(status: u8, told: &[u8], faults: &[u8], out: &mut Stdout) -> Option<()> {
    writeln!(out, "status {status}").ok()?;
    out.write_all(told).ok()?;
    out.write_all(faults).ok()
}
