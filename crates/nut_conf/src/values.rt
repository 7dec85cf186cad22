//! The values on the line of a directive.
ghost use Rattle.std.specs.Prelude.{◌≡◌, ◌<◌, [], IfOk, IsTrue, length, slice_index_or};
ghost use Rattle.std.specs.List.{list_all};
ghost use Rattle.nut_words.specs.Spelling.{is_printing};
ghost use Rattle.nut_conf.specs.Faults.{Reads, Spares};
ghost use Rattle.nut_conf.specs.Values.{one, values_of};
ghost use Rattle.nut_conf.specs.inside.Misreads.{bare};

use crate::fault::{FaultKind, Misread};
use crate::hint::{Expected, Expects};
use crate::line::Line;
use std::marker::Model;

/// How the values follow the directive.
#[derive(Clone, Copy)]
pub enum Form {
    /// `word = value`.
    Assigned,
    /// `WORD value ..`.
    Plain,
}

/// The values of a line: its last words.
#[derive(Drop)]
pub struct Values<'a, 'b> {
    line: &'a Line<'b>,
    first: usize,
}

impl<'a, 'b> Model for Values<'a, 'b> {
    ghost use Rattle.std.specs.Prelude.{List, ℕ, ◌≤◌, drop, length};

    ghost Value = { List (List ℕ) };

    ghost view = { λ v. drop v.first v.line.now.words };

    ghost invariant = { λ v. v.first ≤ length v.line.now.words };
}

impl<'a, 'b> Values<'a, 'b> {
    /// Returns the values of a line of this form, or `BadForm` if an `=` is missing.
    pub fn of(form: Form, line: &'a Line<'b>) -> Result<Self, Misread>
        ensures reads { Reads (λ values. values) (bare result) (values_of form line.now.words) }
        ensures spares { Spares (bare result) }
    {
        match form {
            Form::Plain => Ok(Values { line, first: 1 }),
            Form::Assigned => {
                if line.len() < 2 || line.word(1) != b"=".as_slice() {
                    return Err(Misread::of_line(FaultKind::BadForm, Expected::Form));
                }
                Ok(Values { line, first: 2 })
            }
        }
    }

    /// Returns how many values there are.
    pub fn len(&self) -> usize
        ensures { result ≡ length self.now }
    {
        self.line.len() - self.first
    }

    /// Returns the value at place `index`, counted from 0.
    pub fn get(&self, index: usize) -> &'a [u8]
        requires { index < length self.now }
        ensures value { result.now ≡ slice_index_or self.now index [] }
        ensures printing { IsTrue (list_all is_printing result.now) }
    {
        let behind = self.len() - index;
        self.line.word(self.line.len() - behind)
    }

    /// Returns the only value, or `BadForm` if there isn't exactly one.
    pub fn one(&self) -> Result<&'a [u8], Misread>
        ensures value { Reads (λ value. value.now) (bare result) (one self.now) }
        ensures printing { IfOk result (λ value. IsTrue (list_all is_printing value.now)) }
        ensures spares { Spares (bare result) }
    {
        if self.len() == 1 {
            Ok(self.get(0))
        } else {
            Err(Misread::of_line(FaultKind::BadForm, Expected::Form))
        }
    }

    /// Returns what was read of the value at place `index`. Adds to a fault the value's place in the line, and what is
    /// expected there.
    pub fn told<T: Expects>(&self, index: usize, read: Result<T, FaultKind>) -> Result<T, Misread>
        ensures { bare result ≡ read }
    {
        match read {
            Ok(value) => Ok(value),
            Err(kind) => {
                let word = self.first.saturating_add(index);
                Err(Misread::of_word(word, kind, T::EXPECTED))
            }
        }
    }
}
