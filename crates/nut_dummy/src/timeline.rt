//! The values that a script gives a variable.
ghost use Rattle.std.specs.Prelude.{◌≡◌, [], ◌∷◌, ◌++◌, map, IsTrue, OnOk, OnErr};
ghost use Rattle.nut_state.specs.Sorted.{IsAscending, IsPlace};

use crate::text::{Name, Text};
use std::alloc::{AllocError, Global};
use std::marker::Model;

/// A value, and how many seconds after the beginning of a round it is due.
#[derive(Drop)]
pub struct DueValue {
    pub at: u128,
    pub value: Text,
}

impl Model for DueValue {
    ghost use Rattle.nut_dummy.specs.Script.{Step as StepValue};

    ghost Value = { StepValue };

    ghost view = { λ s. record { at = s.at; value = s.value } };
}

/// A variable, and the values that it gets in a round, in the order of their lines.
#[derive(Drop)]
pub struct Timeline {
    pub name: Name,
    pub steps: Vec<DueValue>,
}

impl Model for Timeline {
    ghost use Rattle.nut_dummy.specs.Script.{Timeline as TimelineValue};

    ghost Value = { TimelineValue };

    ghost view = { λ t. record { name = t.name; steps = t.steps.items } };
}

impl DueValue {
    /// Makes a value that is due `at` seconds after the beginning of a round.
    pub fn new(at: u128, value: Text) -> DueValue
        ensures { result ≡ record { at = at; value = value } }
    {
        DueValue { at, value }
    }
}

impl Timeline {
    /// Makes a variable that gets no value.
    pub fn new(alloc: Global, name: Name) -> Timeline
        ensures { result ≡ record { name = name; steps = [] } }
    {
        Timeline {
            name,
            steps: Vec::new(alloc),
        }
    }

    /// Returns its name.
    pub fn name(&self) -> &[u8]
        ensures { result.now ≡ self.now.name }
    {
        self.name.as_bytes()
    }

    /// Appends a value.
    pub fn add(&mut self, step: DueValue) -> Result<(), AllocError>
        ensures ok { OnOk result (self.new ≡ record self.old { steps = self.old.steps ++ step ∷ [] }) }
        ensures err { OnErr result (self.new ≡ self.old) }
    {
        self.steps.push(step)?;
        Ok(())
    }
}

/// Returns the place of the variable of this name, or as an `Err` the place where it has to be inserted.
pub fn place_of(variables: &[Timeline], name: &[u8]) -> Result<usize, usize>
    requires { IsAscending (map (λ t. t.name) variables.now) }
    ensures { IsPlace (λ t. t.name) name.now variables.now result }
{
    variables.binary_search_by(|variable| variable.name().cmp(name))
}
