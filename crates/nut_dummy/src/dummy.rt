//! The dummy driver.
ghost use Rattle.std.specs.Prelude.{◌≡◌, ℕ, List, [], ◌∷◌, MatchResult, OnOk, OnErr, IfErr, IsTrue, Option, Some, Result, Err, length};
ghost use Rattle.nut_dummy.specs.History.{Bytes, Call, LeadsTo, Linked, Moment, Stands, Took, refusal};
ghost use Rattle.nut_dummy.specs.Script.{Script as ScriptValue};
ghost use Rattle.nut_dummy.specs.inside.Machine.{passed, told_bytes, cut, cut_behind, MayStop, tells_more};

use crate::begin::into_variables;
use crate::script::Script;
use crate::teller::Teller;
use crate::variable::{Change, Variable};
use nut_words::{LineCutter, PIECE_MAX, hear_lines};
use std::alloc::{AllocError, Global};
use std::marker::Model;
use thiserror::Error;

/// Why a call of a dummy driver failed. All faults but `Memory` leave the driver unchanged.
#[derive(Clone, Copy, Debug, PartialEq, Eq, Error)]
pub enum DummyFault {
    /// Memory could not be allocated. At a piece of bytes, the number is that of the lines that were done: they took
    /// effect, and the link is cut, with its waiting bytes lost. Elsewhere the number is 0, and nothing changed.
    #[error("out of memory")]
    Memory(usize),
    /// There is no link: none was made yet, or it was cut.
    #[error("there is no link")]
    NotLinked,
    /// Bytes wait and have to be taken first.
    #[error("bytes wait")]
    Busy,
    /// The server is said to have taken more bytes than wait.
    #[error("more was taken than waits")]
    TooMuchTaken,
    /// The piece has more than [`PIECE_MAX`] bytes.
    #[error("the piece is too long")]
    PieceTooLong,
}

/// A dummy driver: it plays a script to one server at a time.
pub struct Dummy {
    alloc: Global,
    start: u64,
    clock: u64,
    round: u128,
    linked: bool,
    cutter: LineCutter,
    teller: Teller,
}

// A derived drop would be proved again in each crate that drops a value, with those of its parts.
impl Drop for Dummy {
    fn drop(self) {
        let Dummy {
            alloc: _,
            start: _,
            clock: _,
            round: _,
            linked: _,
            cutter: _cutter,
            teller: _teller,
        } = self;
    }
}

impl Model for Dummy {
    ghost use Rattle.std.specs.Prelude.{◌≤◌};
    ghost use Rattle.nut_words.specs.Hearing.{IsRest};
    ghost use Rattle.nut_dummy.specs.Dummy.{Content};

    ghost Value = { Content };

    ghost view = { λ d. record {
      start = d.start;
      clock = d.clock;
      round = d.round;
      linked = d.linked;
      rest = d.cutter;
      teller = d.teller;
    } };

    ghost invariant = { λ d. IsRest d.cutter × (d.start ≤ d.clock) };
}

impl Dummy {
    /// Makes a driver that plays this script from `start` on, a moment in whole seconds. It has no link yet.
    ///
    /// # Errors
    ///
    /// `Memory(0)` if memory cannot be allocated.
    pub fn new(alloc: Global, script: Script, start: u64) -> Result<Dummy, DummyFault>
        ensures { MatchResult result (λ d. Stands script start [] d) (λ fault. fault ≡ DummyFault.Memory 0) }
    {
        let round = script.round();
        let Ok(variables) = into_variables(alloc, script) else {
            return Err(DummyFault::Memory(0));
        };
        Ok(Dummy {
            alloc,
            start,
            clock: start,
            round,
            linked: false,
            cutter: LineCutter::new(),
            teller: Teller::new(alloc, variables),
        })
    }

    /// Makes a new link: bytes that wait and an unfinished line are dropped. It allocates nothing.
    pub fn linked(&mut self)
        // If a history of accepted calls led to the driver, this history and this call lead to it now.
        ensures { (script : ScriptValue) (start : ℕ) (h : List Call) → Stands script start h self.old
            → Stands script start (Linked ∷ h) self.new }
    {
        self.linked = true;
        self.cutter = LineCutter::new();
        self.teller.relink();
    }

    /// Sets the clock to a moment in whole seconds; a moment before the greatest so far changes nothing. Values that
    /// became due are reported if DUMPALL was asked on the link. However far ahead the moment is, the cost is that of
    /// the steps of one round.
    ///
    /// # Errors
    ///
    /// `Busy` exactly while bytes wait. `Memory(0)` if memory cannot be allocated, which comes only if something has to
    /// be reported. Nothing changed then.
    pub fn moment(&mut self, t: u64) -> Result<(), DummyFault>
        // What the call leads to, if a history of accepted calls led to the driver.
        ensures leads { (script : ScriptValue) (start : ℕ) (h : List Call) → Stands script start h self.old
            → LeadsTo script start h (Moment t) self.new result }

        // A refusal by a test changes nothing.
        ensures refused { (fault : DummyFault) → refusal (Moment t) self.old ≡ Some fault
            → (result ≡ Err fault) × (self.new ≡ self.old) }
    {
        if self.teller.outbox.len() > 0 {
            return Err(DummyFault::Busy);
        }
        if self.pass(t).is_err() {
            return Err(DummyFault::Memory(0));
        }
        Ok(())
    }

    /// Sets the clock to a moment, unless it is past, and reports what became due. If memory cannot be allocated,
    /// nothing changes; only a report needs any.
    fn pass(&mut self, t: u64) -> Result<(), AllocError>
        ensures ok { OnOk result (self.new ≡ passed t self.old) }
        ensures err { OnErr result ((self.new ≡ self.old) × IsTrue (tells_more self.old.teller (passed t self.old).teller)) }
    {
        let clock = self.clock.max(t);
        let change = Change::Passing {
            round: self.round,
            after: u128::from(self.clock - self.start),
            until: u128::from(clock - self.start),
        };
        self.teller.change(&change, None)?;
        self.clock = clock;
        Ok(())
    }

    /// Takes in a piece. An `Err` has the number of lines that took effect before memory could not be allocated.
    fn hear(&mut self, piece: &[u8]) -> Result<(), usize>
        ensures heard { OnOk result (self.new ≡ told_bytes piece.now self.old) }
        ensures stopped { IfErr result (λ k. MayStop k piece.now self.old × (cut self.new ≡ cut_behind k piece.now self.old)) }
    {
        let alloc = self.alloc;
        match hear_lines(&mut self.cutter, &mut self.teller, alloc, piece) {
            (_, Ok(())) => Ok(()),
            (done, Err(AllocError)) => Err(done),
        }
    }

    /// Cuts the link.
    fn cut(&mut self)
        ensures { self.new ≡ cut self.old }
    {
        self.linked = false;
        self.cutter = LineCutter::new();
        self.teller.relink();
    }

    /// Takes in a piece of the server's bytes and answers each line that it completes. `DUMPALL` is answered by lines that
    /// lead a server from an empty table to the driver's own (`dump_is_the_table`).
    ///
    /// # Errors
    ///
    /// The first of these that applies: `NotLinked`; `Busy`, exactly while bytes wait; `PieceTooLong` past [`PIECE_MAX`]
    /// bytes. These change nothing. `Memory` with the number of lines that were done, which stand; then the link is cut.
    /// It comes only at a line that holds a backslash, or for which something is reported.
    pub fn server_bytes(&mut self, piece: &[u8]) -> Result<(), DummyFault>
        // What the call leads to, if a history of accepted calls led to the driver.
        ensures leads { (script : ScriptValue) (start : ℕ) (h : List Call) → Stands script start h self.old
            → LeadsTo script start h (Bytes piece.now) self.new result }

        // A refusal by a test changes nothing.
        ensures refused { (fault : DummyFault) → refusal (Bytes piece.now) self.old ≡ Some fault
            → (result ≡ Err fault) × (self.new ≡ self.old) }
    {
        if !self.linked {
            return Err(DummyFault::NotLinked);
        }
        if self.teller.outbox.len() > 0 {
            return Err(DummyFault::Busy);
        }
        if piece.len() > PIECE_MAX {
            return Err(DummyFault::PieceTooLong);
        }
        if let Err(done) = self.hear(piece) {
            self.cut();
            return Err(DummyFault::Memory(done));
        }
        Ok(())
    }

    /// Removes the first `n` of the bytes that wait: the server took them. It allocates nothing.
    ///
    /// # Errors
    ///
    /// `TooMuchTaken` if fewer than `n` bytes wait. Nothing changed then.
    pub fn took(&mut self, n: usize) -> Result<(), DummyFault>
        // What the call leads to, if a history of accepted calls led to the driver.
        ensures leads { (script : ScriptValue) (start : ℕ) (h : List Call) → Stands script start h self.old
            → LeadsTo script start h (Took n) self.new result }

        // A refusal by a test changes nothing.
        ensures refused { (fault : DummyFault) → refusal (Took n) self.old ≡ Some fault
            → (result ≡ Err fault) × (self.new ≡ self.old) }
    {
        if !self.teller.outbox.took(n) {
            return Err(DummyFault::TooMuchTaken);
        }
        Ok(())
    }

    /// Returns all bytes that wait.
    pub fn waiting(&self) -> &[u8]
        ensures { result.now ≡ self.now.teller.waits }
    {
        self.teller.outbox.front()
    }

    /// Returns how many bytes wait.
    pub fn waits(&self) -> usize
        ensures { result ≡ length self.now.teller.waits }
    {
        self.teller.outbox.len()
    }

    /// Returns all variables of the driver, ascending by name, also those that have no value yet.
    pub fn table(&self) -> &[Variable]
        ensures { result.now ≡ self.now.teller.variables }
    {
        self.teller.variables()
    }
}
