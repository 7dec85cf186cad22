//! A world over memory.

ghost use Rattle.std.specs.Prelude.{◌≡◌, ◌+◌, ◌-◌, ◌^◌, ◌<◌, false, [], ◌∷◌, length, Some, None, Ok, IfOk, OnOk, OnErr, is_ok, if◌then◌else◌, IfSome, vec_len};
ghost use Rattle.nut_io.specs.Writes.{IsWithin};
ghost use Rattle.nut_server_loop.specs.Record.{Steps, tells, tells_next, tells_write, late_after, LeadsTo, MayCome, arrival_of};
ghost use Rattle.nut_server_loop.specs.declared.types.Peer.{Peer};
ghost use Rattle.nut_server_loop.specs.declared.types.Peer.TheVariants.{Connection, Driver};
ghost use Rattle.nut_server_loop.specs.Record as entry;
ghost use Rattle.nut_server_loop.specs.Memory.{MemoryState, log_of, entry_of, gave_of, event_of_given, may_come, first_coming, GivesAt, GoesOn};
ghost use Rattle.nut_server_loop.specs.inside.MemoryLaws.{goes_on_self, goes_on_twice};

use crate::{Given, Next, Note, Peer, World};
use nut_io::{Fault, Piece, Written};
use nut_server::{Refused, Server};
use std::alloc::Global;
use std::marker::Model;

/// A world that gives a list of arrivals, takes all bytes at once, and notes what happened. It gives the first arrival
/// that may come: bytes of a connection are left until it may be read, and later arrivals are given before them. It
/// gives no reload.
#[derive(Drop)]
pub struct MemoryWorld {
    alloc: Global,
    left: Vec<Given>,
    notes: Vec<Note>,
    faults: u64,
}

impl Model for MemoryWorld {
    ghost use Rattle.nut_server_loop.specs.Memory.{MemoryState, log_of};

    ghost Value = { MemoryState };

    ghost view = { λ w. record { left = w.left.items; log = log_of w.notes.items; faults = w.faults } };
}

impl MemoryWorld {
    /// Returns a world that will give these arrivals and has noted nothing. Its notes are allocated in `alloc`.
    pub fn new(alloc: Global, arrivals: Vec<Given>) -> Self
        ensures { result ≡ record { left = arrivals.items; log = []; faults = 0 } }
    {
        MemoryWorld {
            alloc,
            left: arrivals,
            notes: Vec::new(alloc),
            faults: 0,
        }
    }

    /// Returns what happened so far, the oldest first.
    pub fn notes(&self) -> &[Note]
        ensures { log_of result.now ≡ self.now.log }
    {
        &self.notes
    }

    /// Takes all of the bytes, and notes them.
    fn take(&mut self, peer: Peer, bytes: &[u8]) -> Result<Written, Fault>
        requires few { self.old.faults < 2 ^ 64 - 1 }
        ensures step { Steps (λ w. w.faults) (λ w. Some w.log) GoesOn (λ w. tells_write w peer bytes.now) self.old result self.new }
        ensures all { IfOk result (λ w. w ≡ Written.Took (length bytes.now)) }
        ensures left { self.new.left ≡ self.old.left }
    {
        match bytes.to_vec(self.alloc) {
            Ok(copy) => {
                self.note(Note::Took(peer, copy))?;
                Ok(Written::Took(bytes.len()))
            }
            Err(_) => {
                self.faults += 1;
                Err(Fault)
            }
        }
    }

    /// Notes what happened, other than an arrival.
    fn note(&mut self, one: Note) -> Result<(), Fault>
        requires few { self.old.faults < 2 ^ 64 - 1 }
        requires silent { gave_of (entry_of one ∷ []) ≡ [] }
        ensures step { Steps (λ w. w.faults) (λ w. Some w.log) GoesOn (λ _. tells (entry_of one)) self.old result self.new }
        ensures left { self.new.left ≡ self.old.left }
    {
        match note(&mut self.notes, one) {
            Ok(()) => Ok(()),
            Err(fault) => {
                self.faults += 1;
                Err(fault)
            }
        }
    }
}

impl World for MemoryWorld {
    ghost log = { λ w. Some w.log };

    ghost late = { λ w p. false };

    ghost fault_count = { λ w. w.faults };

    ghost has_ended = { λ w s. first_coming s w.left ≡ None };

    ghost reached = { GoesOn };

    ghost awaits = { GoesOn };

    ghost reached_self = { goes_on_self };

    ghost reached_on = { goes_on_twice };

    ghost awaits_on = { goes_on_twice };

    fn faults(&self) -> u64 {
        self.faults
    }

    fn next(&mut self, server: &Server, piece: &mut Piece) -> Result<Next, Fault>
        requires { self.old.faults < 2 ^ 64 - 1 }
        ensures ok { IfOk result (λ n. Some self.new.log ≡ tells_next n piece.new.items (Some self.old.log)) }
        ensures err { OnErr result (Some self.new.log ≡ Some self.old.log) }
        ensures read { IfOk result (λ n. MayCome n server.now) }
        ensures ended { result ≡ Ok Next.End → first_coming server.now self.new.left ≡ None }
        ensures none_late { (p : Peer) → false ≡ false }
        ensures counted { self.new.faults ≡ (if is_ok result then self.old.faults else self.old.faults + 1) }
        ensures awaits { IfOk result (λ n. LeadsTo (arrival_of n piece.new.items) (GoesOn self.old self.new) (GoesOn self.old self.new)) }
        ensures reached { OnErr result (GoesOn self.old self.new) }
        ensures gives { IfOk result (λ n. GivesAt (first_coming server.now self.old.left) self.old.left self.new.left n piece.new.items) }
        ensures left_err { OnErr result (self.new.left ≡ self.old.left) }
    {
        let Some(i) = find_coming(server, &self.left) else {
            return Ok(Next::End);
        };
        match give(&mut self.left, &mut self.notes, i, piece) {
            Ok(next) => Ok(next),
            Err(fault) => {
                self.faults += 1;
                Err(fault)
            }
        }
    }

    fn told(&mut self, _server: &Server, _answer: &Result<(), Refused>)
        ensures log { Some self.new.log ≡ Some self.old.log }
        ensures counted { self.new.faults ≡ self.old.faults }
        ensures reached { (w : MemoryState) → GoesOn w self.old → GoesOn w self.new }
        ensures left { self.new.left ≡ self.old.left }
    {}

    fn write(&mut self, c: u64, bytes: &[u8]) -> Result<Written, Fault>
        requires few { self.old.faults < 2 ^ 64 - 1 }
        requires some { 0 < length bytes.now }
        ensures step { Steps (λ w. w.faults) (λ w. Some w.log) GoesOn (λ w. tells_write w (Connection c) bytes.now)
            self.old result self.new }
        ensures within { IfOk result (λ w. IsWithin w (length bytes.now)) }
        ensures late { IfOk result (λ w. (p : Peer) → false ≡ late_after w (Connection c) (λ _. false) p) }
        ensures all { IfOk result (λ w. w ≡ Written.Took (length bytes.now)) }
        ensures left { self.new.left ≡ self.old.left }
    {
        self.take(Peer::Connection(c), bytes)
    }

    fn write_driver(&mut self, u: usize, bytes: &[u8]) -> Result<Written, Fault>
        requires few { self.old.faults < 2 ^ 64 - 1 }
        requires some { 0 < length bytes.now }
        ensures step { Steps (λ w. w.faults) (λ w. Some w.log) GoesOn (λ w. tells_write w (Driver u) bytes.now) self.old result self.new }
        ensures within { IfOk result (λ w. IsWithin w (length bytes.now)) }
        ensures late { IfOk result (λ w. (p : Peer) → false ≡ late_after w (Driver u) (λ _. false) p) }
        ensures all { IfOk result (λ w. w ≡ Written.Took (length bytes.now)) }
        ensures left { self.new.left ≡ self.old.left }
    {
        self.take(Peer::Driver(u), bytes)
    }

    fn close(&mut self, c: u64) -> Result<(), Fault>
        requires { self.old.faults < 2 ^ 64 - 1 }
        ensures step { Steps (λ w. w.faults) (λ w. Some w.log) GoesOn (λ _. tells (entry.WasClosed (Connection c)))
            self.old result self.new }
        ensures late { (p : Peer) → false ≡ false }
        ensures left { self.new.left ≡ self.old.left }
    {
        self.note(Note::Closed(Peer::Connection(c)))
    }

    fn close_driver(&mut self, u: usize) -> Result<(), Fault>
        requires { self.old.faults < 2 ^ 64 - 1 }
        ensures step { Steps (λ w. w.faults) (λ w. Some w.log) GoesOn (λ _. tells (entry.WasClosed (Driver u))) self.old result self.new }
        ensures late { (p : Peer) → false ≡ false }
        ensures left { self.new.left ≡ self.old.left }
    {
        self.note(Note::Closed(Peer::Driver(u)))
    }
}

/// Returns the place of the first arrival that may come now, if there is one.
fn find_coming(server: &Server, left: &[Given]) -> Option<usize>
    ensures place { result ≡ first_coming server.now left.now }
    ensures within { IfSome result (λ i. i < length left.now) }
{
    left.iter().position(|given| comes(server, given))
}

fn comes(server: &Server, given: &Given) -> bool
    ensures { result ≡ may_come server.now (event_of_given given.now) }
{
    match given {
        Given::Bytes(c, _) => server.may_read(*c),
        Given::Moment(_)
        | Given::Open(_)
        | Given::Close(_)
        | Given::DriverUp(_)
        | Given::DriverBytes(_, _)
        | Given::DriverDown(_) => true,
    }
}

/// Gives the arrival at a place and notes it. If memory for the note cannot be allocated, nothing changes.
#[tactic(auto, using(crate::proofs::Noted::log_more, crate::proofs::Noted::tells_given))]
fn give(
    left: &mut Vec<Given>,
    notes: &mut Vec<Note>,
    i: usize,
    piece: &mut Piece,
) -> Result<Next, Fault>
    requires { i < vec_len left.old }
    ensures given { IfOk result (λ n. GivesAt (Some i) left.old.items left.new.items n piece.new.items) }
    ensures noted { IfOk result (λ n. Some (log_of notes.new.items) ≡ tells_next n piece.new.items (Some (log_of notes.old.items))) }
    ensures left_err { OnErr result (left.new.items ≡ left.old.items) }
    ensures notes_err { OnErr result (notes.new.items ≡ notes.old.items) }
{
    if notes.try_reserve(1).is_err() {
        return Err(Fault);
    }
    let given = left.remove(i);
    let next = show(&given, piece);
    match notes.push(Note::Gave(given)) {
        Ok(()) => Ok(next),
        Err(_) => unreachable!(),
    }
}

/// Returns the arrival as `next` gives it, and puts its bytes into the piece.
fn show(given: &Given, piece: &mut Piece) -> Next
    ensures { arrival_of result piece.new.items ≡ Some (event_of_given given.now) }
{
    match given {
        Given::Moment(t) => Next::Moment(*t),
        Given::Open(address) => {
            show_bytes(address, piece);
            Next::Open
        }
        Given::Bytes(c, bytes) => {
            show_bytes(bytes, piece);
            Next::Bytes(*c)
        }
        Given::Close(c) => Next::Close(*c),
        Given::DriverUp(u) => Next::DriverUp(*u),
        Given::DriverBytes(u, bytes) => {
            show_bytes(bytes, piece);
            Next::DriverBytes(*u)
        }
        Given::DriverDown(u) => Next::DriverDown(*u),
    }
}

/// Replaces the bytes of the piece by these.
fn show_bytes(bytes: &Piece, piece: &mut Piece)
    ensures { piece.new.items ≡ bytes.now.items }
{
    piece.clear();
    if piece.try_extend_from_slice(bytes.as_slice()).is_err() {
        unreachable!()
    }
}

#[tactic(auto, using(crate::proofs::Noted::log_more))]
fn note(notes: &mut Vec<Note>, one: Note) -> Result<(), Fault>
    ensures ok { OnOk result (log_of notes.new.items ≡ entry_of one ∷ log_of notes.old.items) }
    ensures err { OnErr result (notes.new.items ≡ notes.old.items) }
{
    match notes.push(one) {
        Ok(()) => Ok(()),
        Err(_) => Err(Fault),
    }
}
