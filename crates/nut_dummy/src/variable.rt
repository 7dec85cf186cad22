//! A variable of a dummy driver.
ghost use Rattle.std.specs.Prelude.{◌≡◌, ◌<◌, ◌++◌, [], ◌∷◌, false, true, length, option_map, map, IsTrue, IfSome, OnErr, OnOk};
ghost use Rattle.nut_dummy.specs.Item.{is_value};
ghost use Rattle.nut_dummy.specs.Due.{at_start};
ghost use Rattle.nut_dummy.specs.Telling.{text, limits, variable_messages};
ghost use Rattle.nut_dummy.specs.Teller.{value_after, is_assigned, differ, is_told, lines_of, says};
ghost use Rattle.nut_dummy.specs.History.{seen};
ghost use Rattle.nut_dummy.specs.inside.Changes.{change_of};
ghost use Rattle.nut_dummy.specs.inside.Machine.{followed, dumped, untold};

use crate::due::latest;
use crate::text::{Name, Text};
use crate::timeline::{DueValue, Timeline};
use crate::writable::{Writable, may_be};
use nut_words::{append_quoted, append_word};
use std::alloc::AllocError;
use std::marker::Model;

/// What may change the values of variables.
#[derive(Drop)]
pub enum Change<'a> {
    /// Time passes, from `after` to `until`, in seconds since the start.
    Passing {
        /// How many seconds a round takes.
        round: u128,
        after: u128,
        until: u128,
    },
    /// A client sets a variable.
    Assigning {
        name: &'a [u8],
        value: &'a [u8],
    },
    /// A command sets a variable.
    Doing {
        name: &'a [u8],
        value: Text,
    },
}

/// A variable: the values that it gets in a round, its value, and whether it was reported on this link.
#[derive(Drop)]
pub struct Variable {
    name: Name,
    steps: Vec<DueValue>,
    value: Option<Text>,
    told: bool,
}

impl Model for Variable {
    ghost use Rattle.nut_dummy.specs.Teller.{Variable as VariableValue};

    ghost Value = { VariableValue };

    ghost view = { λ v. record { name = v.name; steps = v.steps.items; value = v.value; told = v.told } };
}

/// Whether two values differ.
fn differ(before: Option<&[u8]>, after: Option<&[u8]>) -> bool
    ensures { result ≡ differ (option_map (λ t. t.now) before.entry) (option_map (λ t. t.now) after.entry) }
{
    match (before, after) {
        (None, None) => false,
        (Some(before), Some(after)) => before != after,
        (None, Some(_)) | (Some(_), None) => true,
    }
}

/// Appends the lines that limit the variable of this name, if clients may set it.
fn put_limits(out: &mut Vec<u8>, name: &[u8]) -> Result<(), AllocError>
    ensures { OnOk result (out.new.items ≡ out.old.items ++ text (limits name.now)) }
{
    if let Some(writable) = Writable::of(name) {
        out.extend_from_slice(writable.limits())?;
    }
    Ok(())
}

/// Appends the line of a value.
fn put_value(out: &mut Vec<u8>, name: &[u8], value: &[u8]) -> Result<(), AllocError>
    ensures { OnOk result (out.new.items ≡ out.old.items ++ text (variable_messages false name.now value.now)) }
{
    out.extend_from_slice(b"SETINFO ")?;
    append_word(out, name)?;
    out.push(b' ')?;
    append_quoted(out, value)?;
    out.push(b'\n')?;
    Ok(())
}

/// Appends the lines of a variable, with or without its limits.
fn put_variable(
    out: &mut Vec<u8>,
    limited: bool,
    name: &[u8],
    value: &[u8],
) -> Result<(), AllocError>
    ensures { OnOk result (out.new.items ≡ out.old.items ++ text (variable_messages limited name.now value.now)) }
{
    put_value(out, name, value)?;
    if limited {
        put_limits(out, name)?;
    }
    Ok(())
}

/// Returns the value that is due at the start.
fn at_start(steps: &[DueValue]) -> Option<Text>
    ensures { result ≡ at_start steps.now }
{
    let mut found = None;
    for step in steps {
        if step.at == 0 {
            found = Some(Text::new(step.value.as_bytes()));
        }
    }
    found
}

impl Variable {
    /// Makes the variable that a driver has at the start.
    pub(crate) fn begin(timeline: Timeline) -> Variable
        ensures { result ≡ seen [] timeline }
    {
        let Timeline { name, steps } = timeline;
        let value = at_start(&steps);
        Variable {
            name,
            steps,
            value,
            told: false,
        }
    }

    /// Returns its name.
    pub fn name(&self) -> &[u8]
        ensures { result.now ≡ self.now.name }
    {
        self.name.as_bytes()
    }

    /// Returns its value, if it has one.
    pub fn value(&self) -> Option<&[u8]>
        ensures value { option_map (λ t. t.now) result ≡ self.now.value }
        ensures valued { IfSome result (λ t. IsTrue (is_value t.now)) }
    {
        match &self.value {
            Some(value) => Some(value.as_bytes()),
            None => None,
        }
    }

    /// Whether a client sets it by this: it has this name and a value, and may be set to the new one.
    pub(crate) fn is_assigned(&self, name: &[u8], value: &[u8]) -> bool
        ensures assigned { result ≡ is_assigned name.now value.now self.now.name self.now.value }
        ensures valued { IsTrue result → IsTrue (is_value value.now) }
    {
        self.name() == name && self.value.is_some() && may_be(self.name(), value)
    }

    /// Returns its value after a change.
    fn value_after<'v>(&'v self, change: &'v Change<'_>) -> Option<&'v [u8]>
        ensures value { option_map (λ t. t.now) result ≡ value_after (change_of change.now) self.now.name self.now.steps self.now.value }
        ensures valued { IfSome result (λ t. IsTrue (is_value t.now)) }
    {
        match change {
            Change::Passing {
                round,
                after,
                until,
            } => match latest(&self.steps, *round, *after, *until) {
                Some(value) => Some(value.as_bytes()),
                None => self.value(),
            },
            Change::Assigning { name, value } => {
                if self.is_assigned(name, value) {
                    Some(*value)
                } else {
                    self.value()
                }
            }
            Change::Doing { name, value } => {
                if self.name() == *name {
                    Some(value.as_bytes())
                } else {
                    self.value()
                }
            }
        }
    }

    /// Whether a change of the variable is reported.
    fn is_told(&self, change: &Change<'_>) -> bool
        ensures { result ≡ is_told (change_of change.now) self.now.name self.now.steps self.now.value }
    {
        match change {
            Change::Assigning { name, value } => self.is_assigned(name, value),
            Change::Passing { .. } | Change::Doing { .. } => {
                differ(self.value(), self.value_after(change))
            }
        }
    }

    /// Appends the lines that report a change of the variable.
    pub(crate) fn say(&self, out: &mut Vec<u8>, change: &Change<'_>) -> Result<(), AllocError>
        ensures ok { OnOk result (out.new.items ≡ out.old.items ++ says (change_of change.now) self.now) }
        ensures err { OnErr result (0 < length (says (change_of change.now) self.now)) }
    {
        if !self.is_told(change) {
            return Ok(());
        }
        match self.value_after(change) {
            Some(value) => put_variable(out, !self.told, self.name(), value),
            None => Ok(()),
        }
    }

    /// Applies a change.
    pub(crate) fn follow(&mut self, change: &Change<'_>, asked: bool)
        ensures { self.new ≡ followed asked (change_of change.now) self.old }
    {
        let told = self.told || (asked && self.is_told(change));
        let value = match self.value_after(change) {
            Some(value) => Some(Text::new(value)),
            None => None,
        };
        self.value = value;
        self.told = told;
    }

    /// Appends its lines in a dump.
    pub(crate) fn dump(&self, out: &mut Vec<u8>) -> Result<(), AllocError>
        ensures { OnOk result (out.new.items ≡ out.old.items ++ lines_of true self.now.name self.now.value) }
    {
        match self.value() {
            Some(value) => put_variable(out, true, self.name(), value),
            None => Ok(()),
        }
    }

    /// Marks the variable as reported if it has a value: a dump reported it.
    pub(crate) fn mark_dumped(&mut self)
        ensures { self.new ≡ dumped self.old }
    {
        self.told = self.told || self.value.is_some();
    }

    /// Marks the variable as not reported on this link.
    pub(crate) fn forget_link(&mut self)
        ensures { self.new ≡ untold self.old }
    {
        self.told = false;
    }
}
