//! A world over memory.

ghost use Rattle.std.specs.Prelude.{◌≡◌, ◌+◌, ◌-◌, ◌^◌, ◌<◌, ◌≤◌, ℕ, true, false, List, [], ◌∷◌, ◌++◌, length, map, reverse, Option, Some, None, Ok, IfOk, OnOk, OnErr, is_ok, if◌then◌else◌, vec_capacity, vec_len};
ghost use Rattle.nut_io.specs.Writes.{IsWithin, late_after};
ghost use Rattle.nut_monitor.specs.Events.{event_of as told_as};
ghost use Rattle.nut_monitor_loop.specs.Record.{LeadsTo, event_given, given_by, written_by};
ghost use Rattle.nut_monitor_loop.specs.Record as entry;
ghost use Rattle.nut_monitor_loop.specs.Memory.{MemoryState, log_of, entry_of, event_of, Gives, GoesOn};
ghost use Rattle.nut_monitor_loop.specs.inside.MemoryLaws.{goes_on_self, goes_on_twice};

use crate::{Given, MonWorld, Next, Note};
use nut_io::{Fault, Piece, Written};
use nut_monitor::{Event, Monitor, Notice};
use std::alloc::Global;
use std::marker::Model;

/// A world that gives a list of events, takes all bytes that it is offered, and notes what happened.
#[derive(Drop)]
pub struct MemoryMonWorld {
    alloc: Global,
    left: Vec<Given>,
    notes: Vec<Note>,
    faults: u64,
}

impl Model for MemoryMonWorld {
    ghost use Rattle.nut_monitor_loop.specs.Memory.{MemoryState, log_of};

    ghost Value = { MemoryState };

    ghost view = { λ w. record { left = w.left.items; log = log_of w.notes.items; faults = w.faults } };
}

impl MemoryMonWorld {
    /// Makes a world that gives these events and has noted nothing. Its notes are allocated in `alloc`.
    pub fn new(alloc: Global, events: Vec<Given>) -> Self
        ensures { result ≡ record { left = events.items; log = []; faults = 0 } }
    {
        MemoryMonWorld {
            alloc,
            left: events,
            notes: Vec::new(alloc),
            faults: 0,
        }
    }

    /// Returns what happened so far, the oldest first.
    pub fn notes(&self) -> &[Note]
        ensures { log_of result.now ≡ self.now.log }
    {
        &self.notes
    }
}

impl MonWorld for MemoryMonWorld {
    ghost did = { λ config. GoesOn };

    ghost awaits = { λ config. GoesOn };

    ghost late = { λ w i. false };

    ghost fault_count = { λ w. w.faults };

    ghost failed_at_next = { λ w. ⊥ };

    ghost has_ended = { λ w m. w.left ≡ [] };

    ghost did_self = { λ config. goes_on_self };

    ghost did_on = { λ config. goes_on_twice };

    ghost awaits_on = { λ config. goes_on_twice };

    fn faults(&self) -> u64 {
        self.faults
    }

    fn next(&mut self, monitor: &Monitor, piece: &mut Piece) -> Result<Next, Fault>
        requires { self.old.faults < 2 ^ 64 - 1 }
        ensures ok { IfOk result (λ n. LeadsTo n piece.new.items (GoesOn self.old self.new) (GoesOn self.old self.new) []) }
        ensures err { OnErr result (GoesOn self.old self.new []) }
        ensures ended { result ≡ Ok Next.End → self.new.left ≡ [] }
        ensures none_late { (i : ℕ) → false ≡ false }
        ensures counted { self.new.faults ≡ (if is_ok result then self.old.faults else self.old.faults + 1) }
        ensures gives { IfOk result (λ n. Gives self.old.left self.new.left n piece.new.items) }
        ensures left_err { OnErr result (self.new.left ≡ self.old.left) }

        // The end is given without an allocation.
        ensures at_end { self.old.left ≡ [] → is_ok result ≡ true }
    {
        match give(&mut self.left, &mut self.notes, piece) {
            Ok(next) => Ok(next),
            Err(fault) => {
                self.faults += 1;
                Err(fault)
            }
        }
    }

    fn told(&mut self, _monitor: &Monitor, _event: Event<'_>)
        ensures did { (a : MemoryState) (before : List entry.Entry) → GoesOn a self.old (entry.Gave (told_as _event.entry) ∷ before)
            → GoesOn a self.new (entry.Gave (told_as _event.entry) ∷ before) }
        ensures counted { self.new.faults ≡ self.old.faults }
    {}

    fn write(&mut self, _monitor: &Monitor, i: usize, bytes: &[u8]) -> Result<Written, Fault>
        requires few { self.old.faults < 2 ^ 64 - 1 }
        requires some { 0 < length bytes.now }
        ensures ok { IfOk result (λ w. GoesOn self.old self.new (written_by w i bytes.now ∷ [])) }
        ensures err { OnErr result (GoesOn self.old self.new []) }
        ensures elsewhere { OnErr result (⊥ → ⊥) }
        ensures within { IfOk result (λ w. IsWithin w (length bytes.now)) }
        ensures late { IfOk result (λ w. (j : ℕ) → false ≡ late_after w i (λ _. false) j) }
        ensures counted { self.new.faults ≡ (if is_ok result then self.old.faults else self.old.faults + 1) }
        ensures all { IfOk result (λ w. w ≡ Written.Took (length bytes.now)) }
        ensures left { self.new.left ≡ self.old.left }
    {
        match note_taken(self.alloc, &mut self.notes, i, bytes) {
            Ok(()) => Ok(Written::Took(bytes.len())),
            Err(fault) => {
                self.faults += 1;
                Err(fault)
            }
        }
    }

    fn close(&mut self, _monitor: &Monitor, i: usize) -> Result<(), Fault>
        requires { self.old.faults < 2 ^ 64 - 1 }
        ensures ok { OnOk result (GoesOn self.old self.new (entry.WasClosed i ∷ [])) }
        ensures err { OnErr result (GoesOn self.old self.new []) }
        ensures elsewhere { OnErr result (⊥ → ⊥) }
        ensures late { (j : ℕ) → false ≡ false }
        ensures counted { self.new.faults ≡ (if is_ok result then self.old.faults else self.old.faults + 1) }
        ensures left { self.new.left ≡ self.old.left }
    {
        match note(&mut self.notes, Note::Closed(i)) {
            Ok(()) => Ok(()),
            Err(fault) => {
                self.faults += 1;
                Err(fault)
            }
        }
    }

    fn notice(&mut self, monitor: &Monitor, notice: Notice) -> Result<(), Fault>
        requires { self.old.faults < 2 ^ 64 - 1 }
        ensures ok { OnOk result (GoesOn self.old self.new (entry.WasTold notice ∷ [])) }
        ensures err { OnErr result (GoesOn self.old self.new []) }
        ensures elsewhere { OnErr result (⊥ → ⊥) }
        ensures late { (j : ℕ) → false ≡ false }
        ensures counted { self.new.faults ≡ (if is_ok result then self.old.faults else self.old.faults + 1) }
        ensures left { self.new.left ≡ self.old.left }
    {
        match note(&mut self.notes, Note::Told(notice)) {
            Ok(()) => Ok(()),
            Err(fault) => {
                self.faults += 1;
                Err(fault)
            }
        }
    }
}

/// Gives the first event that is left and notes it, or gives the end if none is left. Changes nothing on a fault.
#[tactic(auto, using(crate::proofs::Noted::log_more))]
fn give(left: &mut Vec<Given>, notes: &mut Vec<Note>, piece: &mut Piece) -> Result<Next, Fault>
    ensures given { IfOk result (λ n. Gives left.old.items left.new.items n piece.new.items) }
    ensures noted { IfOk result (λ n. log_of notes.new.items ≡ given_by n piece.new.items ++ log_of notes.old.items) }
    ensures left_err { OnErr result (left.new.items ≡ left.old.items) }
    ensures notes_err { OnErr result (notes.new.items ≡ notes.old.items) }
    ensures full { OnErr result (vec_capacity notes.old ≤ vec_len notes.old) }
    ensures at_end { left.old.items ≡ [] → is_ok result ≡ true }
{
    if left.is_empty() {
        return Ok(Next::End);
    }
    if notes.try_reserve(1).is_err() {
        return Err(Fault);
    }
    let given = left.remove(0);
    let next = show(&given, piece);
    match notes.push(Note::Gave(given)) {
        Ok(()) => Ok(next),
        Err(_) => unreachable!(),
    }
}

/// Returns the event as `next` gives it.
fn show(given: &Given, piece: &mut Piece) -> Next
    ensures { event_given result piece.new.items ≡ Some (event_of given.now) }
{
    match given {
        Given::Moment(t) => Next::Moment(*t),
        Given::Linked(i) => Next::Linked(*i),
        Given::LinkBytes(i, bytes) => {
            show_bytes(bytes, piece);
            Next::LinkBytes(*i)
        }
        Given::LinkLost(i) => Next::LinkLost(*i),
    }
}

/// Replaces the bytes in the piece by these.
fn show_bytes(bytes: &Piece, piece: &mut Piece)
    ensures { piece.new.items ≡ bytes.now.items }
{
    piece.clear();
    if piece.try_extend_from_slice(bytes.as_slice()).is_err() {
        unreachable!()
    }
}

fn note_taken(alloc: Global, notes: &mut Vec<Note>, i: usize, bytes: &[u8]) -> Result<(), Fault>
    ensures ok { OnOk result (log_of notes.new.items ≡ entry.TookBytes i bytes.now ∷ log_of notes.old.items) }
    ensures err { OnErr result (notes.new.items ≡ notes.old.items) }
{
    match bytes.to_vec(alloc) {
        Ok(copy) => note(notes, Note::Took(i, copy)),
        Err(_) => Err(Fault),
    }
}

#[tactic(auto, using(crate::proofs::Noted::log_more))]
fn note(notes: &mut Vec<Note>, one: Note) -> Result<(), Fault>
    ensures ok { OnOk result (log_of notes.new.items ≡ entry_of one ∷ log_of notes.old.items) }
    ensures err { OnErr result (notes.new.items ≡ notes.old.items) }
    ensures full { OnErr result (vec_capacity notes.old ≤ vec_len notes.old) }
{
    match notes.push(one) {
        Ok(()) => Ok(()),
        Err(_) => Err(Fault),
    }
}
