//! Scripts: the values that a dummy driver reports, and when.
ghost use Rattle.std.specs.Prelude.{◌≡◌, ◌⊎◌, ◌+◌, ◌<◌, ◌≤◌, ◌^◌, ◌||◌, [], ◌∷◌, length, map, is_some, nat_lt, if◌then◌else◌, IfErr, OnErr, OnOk, IsTrue, Ok, Err};
ghost use Rattle.std.specs.List.{insert};
ghost use Rattle.nut_state.specs.Sorted.{IsAscending};
ghost use Rattle.nut_dummy.specs.Item as said;
ghost use Rattle.nut_dummy.specs.Item.{item};
ghost use Rattle.nut_dummy.specs.Memory.{grows, IsEscaped, MayRunOut, MayTake};
ghost use Rattle.nut_dummy.specs.Script.{has_room, read_script, no_script, timeline, with_step, taken_in, with_line, whole, IsFaultOf, Means, Fails, Gives};
ghost use Rattle.nut_dummy.specs.inside.Read.{item_of};

use crate::fault::{ScriptFault, ScriptFaultKind};
use crate::item::{Item, ScriptKind, is_skipped, read_item};
use crate::limits::{SCRIPT_VARIABLES_MAX, STEPS_MAX, TIMER_MAX};
use crate::text::{Name, Text};
use crate::timeline::{DueValue, Timeline, place_of};
use nut_words::cut;
use std::alloc::{AllocError, Global};
use std::marker::Model;

/// A script that was read: the values that each variable gets, and when.
#[derive(Drop)]
pub struct Script {
    alloc: Global,
    /// Ascending by name.
    variables: Vec<Timeline>,
    count: usize,
    round: u128,
}

impl Model for Script {
    ghost use Rattle.std.specs.Prelude.{map};
    ghost use Rattle.nut_state.specs.Sorted.{IsAscending};
    ghost use Rattle.nut_dummy.specs.Script.{Script as ScriptValue};

    ghost Value = { ScriptValue };

    ghost view = { λ s. record { variables = s.variables.items; count = s.count; round = s.round } };

    ghost invariant = { λ s. IsAscending (map (λ t. t.name) s.variables.items) };
}

/// Inserts a variable that gets one value.
fn insert_step(
    alloc: Global,
    variables: &mut Vec<Timeline>,
    place: usize,
    name: Name,
    step: DueValue,
) -> Result<(), AllocError>
    requires { place ≤ length variables.old.items }
    ensures ok { OnOk result (variables.new.items ≡ insert variables.old.items place (record { name = name; steps = step ∷ [] })) }
    ensures err { OnErr result (variables.new.items ≡ variables.old.items) }
{
    let mut timeline = Timeline::new(alloc, name);
    timeline.add(step)?;
    variables.insert(place, timeline)?;
    Ok(())
}

/// Adds one more value for this variable.
fn add_step(
    alloc: Global,
    variables: &mut Vec<Timeline>,
    name: Name,
    step: DueValue,
) -> Result<(), ScriptFaultKind>
    requires { IsAscending (map (λ t. t.name) variables.old.items) }
    ensures step { Gives (λ u. variables.new.items) result (if is_some (timeline name variables.old.items) || nat_lt (length variables.old.items) SCRIPT_VARIABLES_MAX
        then Ok (with_step name step variables.old.items) else Err ScriptFaultKind.PastLimit) }
    ensures ascending { IsAscending (map (λ t. t.name) variables.new.items) }
    ensures memory { result ≡ Err ScriptFaultKind.Memory
        → IsTrue (is_some (timeline name variables.old.items) || nat_lt (length variables.old.items) SCRIPT_VARIABLES_MAX) }
{
    match place_of(variables, name.as_bytes()) {
        Ok(place) => {
            variables[place].add(step)?;
            Ok(())
        }
        Err(place) => {
            if variables.len() >= SCRIPT_VARIABLES_MAX {
                return Err(ScriptFaultKind::PastLimit);
            }
            insert_step(alloc, variables, place, name, step)?;
            Ok(())
        }
    }
}

impl Script {
    /// Returns the script of no lines.
    fn new(alloc: Global) -> Script
        ensures { result ≡ no_script }
    {
        Script {
            alloc,
            variables: Vec::new(alloc),
            count: 0,
            round: 0,
        }
    }

    /// Returns how many seconds a round takes.
    pub(crate) fn round(&self) -> u128
        ensures { result ≡ self.now.round }
    {
        self.round
    }

    /// Returns its variables, ascending by name.
    pub(crate) fn into_timelines(self) -> Vec<Timeline>
        ensures variables { result.items ≡ self.variables }
        ensures ascending { IsAscending (map (λ t. t.name) result.items) }
    {
        let Script { variables, .. } = self;
        variables
    }

    /// Adds one more value.
    fn add_setting(&mut self, name: Name, value: Text) -> Result<(), ScriptFaultKind>
        ensures setting { Gives (λ u. self.new) result (taken_in self.old (Ok (said.Setting name value))) }
        ensures memory { result ≡ Err ScriptFaultKind.Memory → IsTrue (has_room self.old (said.Setting name value)) }
    {
        if self.count >= STEPS_MAX {
            return Err(ScriptFaultKind::PastLimit);
        }
        let step = DueValue::new(self.round, value);
        add_step(self.alloc, &mut self.variables, name, step)?;
        self.count += 1;
        Ok(())
    }

    /// Adds one more timer.
    fn add_timer(&mut self, seconds: u32)
        requires { self.old.round < 2 ^ 120 }
        ensures { Ok self.new ≡ taken_in self.old (Ok (said.Timer seconds)) }
    {
        self.round += u128::from(seconds);
    }

    /// Adds one more line.
    fn add_line(&mut self, kind: ScriptKind, line: &[u8]) -> Result<(), ScriptFaultKind>
        requires { self.old.round < 2 ^ 120 }
        ensures line { Gives (λ u. self.new) result (with_line kind self.old line.now) }
        ensures round { OnOk result (self.new.round ≤ self.old.round + TIMER_MAX) }
        ensures memory { result ≡ Err ScriptFaultKind.Memory → MayTake kind self.old line.now }
    {
        if is_skipped(line) {
            return Ok(());
        }
        match read_item(self.alloc, kind, line)? {
            Item::Timer(seconds) => {
                self.add_timer(seconds);
                Ok(())
            }
            Item::Setting(name, value) => self.add_setting(name, value),
        }
    }

    /// Adds the lines of a text, up to the first faulty one.
    fn add_lines(&mut self, kind: ScriptKind, bytes: &[u8]) -> Result<(), ScriptFault>
        requires { self.old ≡ no_script }
        ensures lines { OnOk result (read_script kind bytes.now ≡ whole kind self.new) }
        ensures fault { IfErr result (λ fault. IsFaultOf fault.line fault.kind (read_script kind bytes.now)) }
        ensures memory { IfErr result (λ fault. fault.kind ≡ ScriptFaultKind.Memory → MayRunOut kind bytes.now fault.line) }
    {
        let mut rest = Some(bytes);
        let mut number = 0usize;
        while let Some(text) = rest {
            let (line, behind) = cut(b'\n', text);
            rest = behind;
            number += 1;
            match self.add_line(kind, line) {
                Ok(()) => {}
                Err(kind) => return Err(ScriptFault { line: number, kind }),
            }
        }
        Ok(())
    }

    /// Refuses a script that is repeated but has no timer.
    fn check_round(&self, kind: ScriptKind) -> Result<(), ScriptFault>
        ensures whole { OnOk result (whole kind self.now ≡ Ok self.now) }
        ensures fault { IfErr result (λ fault. IsFaultOf fault.line fault.kind (whole kind self.now)) }
        ensures memory { IfErr result (λ fault. fault.kind ≡ ScriptFaultKind.Memory → ⊥) }
    {
        if kind == ScriptKind::Seq && self.round == 0 {
            return Err(ScriptFault {
                line: 0,
                kind: ScriptFaultKind::NoTimer,
            });
        }
        Ok(())
    }

    /// Reads a script (NUT manual page dummy-ups(8)).
    ///
    /// A blank line is skipped, and so is a line whose first byte after blanks is `#`. A skipped line may hold any
    /// bytes and have any length. Every other line is a timer or `name: value`. A timer has no colon, and its words are
    /// `TIMER` and a number of one to nine digits.
    ///
    /// # Errors
    ///
    /// The fault of the first faulty line. For any line, in this order: `PastLimit` if it has more than
    /// [`SCRIPT_LINE_MAX`](crate::limits::SCRIPT_LINE_MAX) bytes; `BadLine` if a byte isn't 0x20 to 0x7E, tab or
    /// carriage return.
    ///
    /// Then, without a colon: `BadLine` if its words aren't `TIMER` and one more; `BadTimer` if the time isn't 1 to
    /// [`TIMER_MAX`](crate::limits::TIMER_MAX) seconds; `TimerInDev` in a `.dev` script.
    ///
    /// Then, with a colon: `BadName`; `PastLimit` if the name has more than [`NAME_MAX`](nut_words::NAME_MAX) bytes;
    /// `BadLine` if the value has a tab or a carriage return inside; `PastLimit` if the value has more than
    /// [`VALUE_MAX`](nut_words::VALUE_MAX) bytes, or there are more than [`STEPS_MAX`] values or
    /// [`SCRIPT_VARIABLES_MAX`] variables.
    ///
    /// If no line is faulty, `NoTimer` at line 0 for a `.seq` script without a timer. `Memory` at the line at which
    /// memory ran out: one that sets a value, or has a backslash and no colon.
    pub fn read(alloc: Global, kind: ScriptKind, bytes: &[u8]) -> Result<Script, ScriptFault>
        ensures means { Means result (read_script kind bytes.now) }
        ensures memory { IfErr result (λ fault. fault.kind ≡ ScriptFaultKind.Memory → MayRunOut kind bytes.now fault.line) }
    {
        let mut script = Script::new(alloc);
        script.add_lines(kind, bytes)?;
        script.check_round(kind)?;
        Ok(script)
    }
}
