//! The table of one UPS.
ghost use Rattle.std.specs.Prelude.{◌≡◌, ◌≤◌, ◌∷◌, [], List, ℕ, true, false, length, map, IsOk, OnOk, OnErr, IfOk, MatchOption, Some, None, option_map, is_some, if◌then◌else◌};
ghost use Rattle.nut_state.specs.Table.{empty, variable, has_command, value_of, flags_of, aux_of, enums_of, ranges_of};
ghost use Rattle.nut_state.specs.Step.{after, adds, applied, fresh, line_adds};
ghost use Rattle.nut_state.specs.Answer.{answer, answer_to};
ghost use Rattle.nut_state.specs.Change.{set_info, del_info, add_enum, del_enum, add_range, del_range, set_aux, set_flags, add_command, del_command, asked, asked_by, heard};
ghost use Rattle.nut_state.specs.inside.Adding.{may_add};
ghost use Rattle.std.specs.Option.{option_map_or};
ghost use Rattle.nut_state.specs.laws.Holds.{Holds, IsWithinLimits};
ghost use Rattle.nut_state.specs.Sorted.{IsAscending, IsFree};
ghost use Rattle.nut_state.specs.Text.{is_name};
ghost use Rattle.std.specs.List.{All, insert};
ghost use Rattle.std.specs.Result.{is_ok};
ghost use Rattle.nut_words.specs.Reader.{has_backslash};

use crate::heard::{Heard, StateFault};
use crate::limits::{COMMANDS_MAX, VARIABLES_MAX};
use crate::number::Range;
use crate::plain::{is_plain_pong, plain_setting};
use crate::sorted::{place_of_command, place_of_likely, place_of_variable};
use crate::text::{Name, Text, is_name};
use crate::variable::{Flags, Variable};
use crate::verb::Verb;
use nut_words::{NAME_MAX, VALUE_MAX, WordFault, Words, natural, split};
use std::alloc::{AllocError, Global};
use std::marker::Model;

/// The table of one UPS, as the lines of its driver report it.
pub struct UpsState {
    alloc: Global,
    /// The variables, ascending by name.
    variables: Vec<Variable>,
    /// The commands, ascending.
    commands: Vec<Name>,
    dump_done: bool,
    data_ok: bool,
}

// A derived drop would be proved again in each crate that drops a value, with those of its parts.
impl Drop for UpsState {
    fn drop(self) {
        let UpsState {
            alloc: _,
            variables: _variables,
            commands: _commands,
            dump_done: _,
            data_ok: _,
        } = self;
    }
}

impl Model for UpsState {
    ghost use Rattle.nut_state.specs.Table.{Table};
    ghost use Rattle.nut_state.specs.laws.Holds.{IsTable};

    ghost Value = { Table };

    ghost view = { λ s. record { variables = s.variables.items; commands = s.commands.items; dump_done = s.dump_done; data_ok = s.data_ok } };

    ghost invariant = { λ s. IsTable (record { variables = s.variables.items; commands = s.commands.items; dump_done = s.dump_done; data_ok = s.data_ok }) };
}

/// Inserts a new variable at a place, with a value and nothing else.
fn insert_variable(
    variables: &mut Vec<Variable>,
    alloc: Global,
    place: usize,
    name: &[u8],
    value: &[u8],
) -> Result<(), AllocError>
    requires place { place ≤ length variables.old.items }
    requires name { is_name name.now ≡ true }
    requires value { length value.now ≤ VALUE_MAX }
    ensures { variables.new.items ≡ (if is_ok result then insert variables.old.items place (fresh name.now value.now) else variables.old.items) }
{
    variables.insert(place, Variable::new(alloc, name, value))?;
    Ok(())
}

/// Inserts a command at a place.
fn insert_command(commands: &mut Vec<Name>, place: usize, name: &[u8]) -> Result<(), AllocError>
    requires place { place ≤ length commands.old.items }
    requires name { length name.now ≤ NAME_MAX }
    ensures { commands.new.items ≡ (if is_ok result then insert commands.old.items place name.now else commands.old.items) }
{
    commands.insert(place, Name::new(name))?;
    Ok(())
}

/// Each function here does what one kind of line asks for, if the table accepts it. Otherwise it changes nothing.
impl UpsState {
    /// SETINFO of a variable that isn't there, but would be at this place.
    fn add_variable(&mut self, place: usize, name: &[u8], value: &[u8]) -> Result<(), AllocError>
        requires free { IsFree (λ v. v.name) name.now self.old.variables place }
        requires value { length value.now ≤ VALUE_MAX }
        ensures ok { OnOk result (self.new ≡ after self.old (set_info name.now value.now)) }
        ensures err { OnErr result (self.new ≡ self.old) }
        ensures succeeds { adds self.old (set_info name.now value.now) ≡ false → IsOk result }
    {
        if !is_name(name) {
            return Ok(());
        }
        if self.variables.len() >= VARIABLES_MAX {
            return Ok(());
        }
        insert_variable(&mut self.variables, self.alloc, place, name, value)
    }

    /// SETINFO: gives a variable a value. Adds the variable if there is none with this name.
    fn set_info(&mut self, name: &[u8], value: &[u8]) -> Result<(), AllocError>
        ensures ok { OnOk result (self.new ≡ after self.old (set_info name.now value.now)) }
        ensures err { OnErr result (self.new ≡ self.old) }
        ensures succeeds { adds self.old (set_info name.now value.now) ≡ false → IsOk result }
    {
        if value.len() > VALUE_MAX {
            return Ok(());
        }
        match place_of_variable(&self.variables, name) {
            // a name that is listed is a name
            Ok(place) => {
                self.variables[place].set_value(value);
                Ok(())
            }
            Err(place) => self.add_variable(place, name, value),
        }
    }

    /// DELINFO: removes a variable, with its value, flags, aux, enum values and ranges.
    fn delete_info(&mut self, name: &[u8])
        ensures { self.new ≡ after self.old (del_info name.now) }
    {
        if let Ok(place) = place_of_variable(&self.variables, name) {
            self.variables.remove(place);
        }
    }

    /// ADDENUM: adds an enum value to a variable.
    fn add_enum(&mut self, name: &[u8], value: &[u8]) -> Result<(), AllocError>
        ensures ok { OnOk result (self.new ≡ after self.old (add_enum name.now value.now)) }
        ensures err { OnErr result (self.new ≡ self.old) }
        ensures succeeds { adds self.old (add_enum name.now value.now) ≡ false → IsOk result }
    {
        let Ok(place) = place_of_variable(&self.variables, name) else {
            return Ok(());
        };
        let variable = &mut self.variables[place];
        if !variable.takes_enum(value) {
            return Ok(());
        }
        variable.add_enum(value)?;
        Ok(())
    }

    /// DELENUM: removes an enum value of a variable.
    fn delete_enum(&mut self, name: &[u8], value: &[u8])
        ensures { self.new ≡ after self.old (del_enum name.now value.now) }
    {
        if let Ok(place) = place_of_variable(&self.variables, name) {
            self.variables[place].remove_enum(value);
        }
    }

    /// ADDRANGE: adds a range to a variable.
    fn add_range(&mut self, name: &[u8], range: Option<Range>) -> Result<(), AllocError>
        ensures ok { OnOk result (self.new ≡ after self.old (add_range name.now range)) }
        ensures err { OnErr result (self.new ≡ self.old) }
        ensures succeeds { adds self.old (add_range name.now range) ≡ false → IsOk result }
    {
        let Some(range) = range else {
            return Ok(());
        };
        let Ok(place) = place_of_variable(&self.variables, name) else {
            return Ok(());
        };
        let variable = &mut self.variables[place];
        if !variable.takes_range(range) {
            return Ok(());
        }
        variable.add_range(range)?;
        Ok(())
    }

    /// DELRANGE: removes a range of a variable.
    fn delete_range(&mut self, name: &[u8], range: Option<Range>)
        ensures { self.new ≡ after self.old (del_range name.now range) }
    {
        let Some(range) = range else {
            return;
        };
        if let Ok(place) = place_of_variable(&self.variables, name) {
            self.variables[place].remove_range(range);
        }
    }

    /// SETAUX: sets the greatest length, in bytes, of a variable's string value.
    fn set_aux(&mut self, name: &[u8], aux: Option<u32>)
        ensures { self.new ≡ after self.old (set_aux name.now aux) }
    {
        let Some(aux) = aux else {
            return;
        };
        if aux > VALUE_MAX as u32 {
            return;
        }
        if let Ok(place) = place_of_variable(&self.variables, name) {
            self.variables[place].set_aux(aux as u16);
        }
    }

    /// SETFLAGS: gives a variable these flags and no others.
    fn set_flags(&mut self, name: &[u8], flags: Flags)
        ensures { self.new ≡ after self.old (set_flags name.now flags) }
    {
        if let Ok(place) = place_of_variable(&self.variables, name) {
            self.variables[place].set_flags(flags);
        }
    }

    /// ADDCMD: adds a command.
    fn add_command(&mut self, name: &[u8]) -> Result<(), AllocError>
        ensures ok { OnOk result (self.new ≡ after self.old (add_command name.now)) }
        ensures err { OnErr result (self.new ≡ self.old) }
        ensures succeeds { adds self.old (add_command name.now) ≡ false → IsOk result }
    {
        if !is_name(name) || self.commands.len() >= COMMANDS_MAX {
            return Ok(());
        }
        match place_of_command(&self.commands, name) {
            Ok(_) => Ok(()),
            Err(place) => insert_command(&mut self.commands, place, name),
        }
    }

    /// DELCMD: removes a command.
    fn delete_command(&mut self, name: &[u8])
        ensures { self.new ≡ after self.old (del_command name.now) }
    {
        if let Ok(place) = place_of_command(&self.commands, name) {
            self.commands.remove(place);
        }
    }

    /// Does what a line with this verb and these words asks for, if the table accepts it.
    fn follow(&mut self, verb: Verb, words: &Words) -> Result<(), AllocError>
        ensures ok { OnOk result (self.new ≡ after self.old (asked_by verb words.now)) }
        ensures err { OnErr result (self.new ≡ self.old) }
        ensures succeeds { adds self.old (asked_by verb words.now) ≡ false → IsOk result }
    {
        match verb {
            Verb::SetInfo => self.set_info(words.get(1), words.get(2)),
            Verb::AddEnum => self.add_enum(words.get(1), words.get(2)),
            Verb::AddRange => self.add_range(words.get(1), Range::read(words.get(2), words.get(3))),
            Verb::AddCommand => self.add_command(words.get(1)),
            Verb::DelInfo
            | Verb::DelEnum
            | Verb::DelRange
            | Verb::SetAux
            | Verb::SetFlags
            | Verb::DelCommand
            | Verb::DumpDone
            | Verb::DataOk
            | Verb::DataStale
            | Verb::Pong
            | Verb::Tracking => {
                self.follow_in_place(verb, words);
                Ok(())
            }
        }
    }

    /// Does what a line with this verb and these words asks for, if the table accepts it and the verb never adds to
    /// the table. Other verbs do nothing here.
    #[tactic(auto, unfolding(crate::specs::Step::after, crate::specs::Step::accepts, crate::specs::Step::changed))]
    fn follow_in_place(&mut self, verb: Verb, words: &Words)
        ensures { self.new ≡ (if may_add verb then self.old else after self.old (asked_by verb words.now)) }
    {
        match verb {
            Verb::DelInfo => self.delete_info(words.get(1)),
            Verb::DelEnum => self.delete_enum(words.get(1), words.get(2)),
            Verb::DelRange => self.delete_range(
                words.get(1),
                Range::read(words.get(2), words.get(3)),
            ),
            Verb::SetAux => self.set_aux(words.get(1), natural(words.get(2))),
            Verb::SetFlags => self.set_flags(words.get(1), Flags::read(words)),
            Verb::DelCommand => self.delete_command(words.get(1)),
            Verb::DumpDone => self.dump_done = true,
            Verb::DataOk => self.data_ok = true,
            Verb::DataStale => self.data_ok = false,
            Verb::SetInfo
            | Verb::AddEnum
            | Verb::AddRange
            | Verb::AddCommand
            | Verb::Pong
            | Verb::Tracking => {}
        }
    }
}

/// Returns what the table answers to a line with this verb and these words.
fn answer_to(verb: Verb, words: &Words) -> Heard
    ensures { result ≡ answer_to (asked_by verb words.now) }
{
    if verb != Verb::Tracking {
        return Heard::Heard;
    }
    match (natural(words.get(1)), natural(words.get(2))) {
        (Some(number), Some(status)) => Heard::Tracked { number, status },
        _ => Heard::Heard,
    }
}

impl UpsState {
    /// Returns an empty table. Allocates no memory.
    pub fn new(alloc: Global) -> UpsState
        ensures table { result ≡ empty }
        ensures looks_back { Holds result [] }
    {
        UpsState {
            alloc,
            variables: Vec::new(alloc),
            commands: Vec::new(alloc),
            dump_done: false,
            data_ok: false,
        }
    }

    /// Empties the table, as when a driver connects anew. Allocates no memory.
    pub fn clear(&mut self)
        ensures table { self.new ≡ empty }
        ensures looks_back { Holds self.new [] }
    {
        self.variables.clear();
        self.commands.clear();
        (self.dump_done, self.data_ok) = (false, false);
    }

    /// Changes the table as a line of the driver says. The line comes without its line feed.
    ///
    /// Only a line that has a backslash, or adds a variable, enum value, range or command, allocates memory; any other
    /// succeeds. The table ignores a line if a name isn't a name, a value is too long, or a number or range can't be
    /// read. It also does if the variable or entry doesn't exist, the entry is there already, or a limit is reached.
    /// PONG and TRACKING never change the table.
    ///
    /// # Errors
    ///
    /// [`StateFault::Memory`] if memory cannot be allocated. The table is then as it was.
    #[tactic(auto, unfolding(crate::specs::Step::applied, crate::specs::Change::heard, crate::specs::Step::line_adds))]
    pub fn apply(&mut self, line: &[u8]) -> Result<Heard, StateFault>
        ensures table { OnOk result (self.new ≡ applied self.old line.now) }
        ensures answer { IfOk result (λ told. told ≡ answer (heard line.now)) }
        ensures refused { OnErr result (self.new ≡ self.old) }

        // If the table holds what these lines say, the newest first, it then holds what they and this line say.
        ensures looks_back { (lines : List (List ℕ)) → Holds self.old lines → OnOk result (Holds self.new (line.now ∷ lines)) }

        // A line that allocates no memory succeeds. `Holds` says that `adds` agrees with looking back over the lines.
        ensures succeeds { has_backslash line.now ≡ false → line_adds self.old line.now ≡ false → IsOk result }
    {
        if let Some((name, value)) = plain_setting(line) {
            self.set_info(name, value)?;
            return Ok(Heard::Heard);
        }
        if is_plain_pong(line) {
            return Ok(Heard::Heard);
        }
        self.apply_any(line)
    }

    /// Does what [`apply`](Self::apply) does, whatever the line is. It stands apart, so that a plain SETINFO or PONG doesn't pay for
    /// the place of all words.
    #[inline(never)]
    #[tactic(auto, unfolding(crate::specs::Step::applied, crate::specs::Change::heard, crate::specs::Step::line_adds))]
    fn apply_any(&mut self, line: &[u8]) -> Result<Heard, StateFault>
        ensures table { OnOk result (self.new ≡ applied self.old line.now) }
        ensures answer { IfOk result (λ told. told ≡ answer (heard line.now)) }
        ensures refused { OnErr result (self.new ≡ self.old) }
        ensures succeeds { has_backslash line.now ≡ false → line_adds self.old line.now ≡ false → IsOk result }
    {
        match split(self.alloc, line) {
            Ok(words) => self.hear(&words),
            Err(WordFault::Memory) => Err(StateFault::Memory),
            Err(_) => Ok(Heard::Ignored),
        }
    }

    /// Changes the table as a line of these words says, as [`UpsState::apply`] does.
    #[tactic(auto, unfolding(crate::specs::Change::asked))]
    fn hear(&mut self, words: &Words) -> Result<Heard, StateFault>
        ensures table { OnOk result (self.new ≡ option_map_or (after self.old) (asked words.now) self.old) }
        ensures answer { IfOk result (λ told. told ≡ answer (asked words.now)) }
        ensures refused { OnErr result (self.new ≡ self.old) }
        ensures succeeds { option_map_or (adds self.old) (asked words.now) false ≡ false → IsOk result }
    {
        let Some(verb) = Verb::of_line(words) else {
            return Ok(Heard::Ignored);
        };
        self.follow(verb, words)?;
        Ok(answer_to(verb, words))
    }

    /// Returns the variable with this name, if there is one. It saves searches if more than one of the look-ups below
    /// is needed: each of them searches anew.
    pub fn variable(&self, name: &[u8]) -> Option<&Variable>
        ensures { MatchOption result (variable self.now name.now ≡ None) (λ v. variable self.now name.now ≡ Some v.now) }
    {
        match place_of_variable(&self.variables, name) {
            Ok(place) => Some(&self.variables[place]),
            Err(_) => None,
        }
    }

    /// Returns the variable with this name and its place, if there is one. If it is at the place `likely` or behind it, that takes
    /// no search.
    pub fn find_variable(&self, likely: usize, name: &[u8]) -> Option<(usize, &Variable)>
        ensures { MatchOption result (variable self.now name.now ≡ None) (λ found. variable self.now name.now ≡ Some found.1.now) }
    {
        match place_of_likely(&self.variables, likely, name) {
            Ok(place) => Some((place, &self.variables[place])),
            Err(_) => None,
        }
    }

    /// Returns the value of a variable, or `None` for an unknown one.
    pub fn value(&self, name: &[u8]) -> Option<&[u8]>
        ensures { MatchOption result (value_of self.now name.now ≡ None) (λ text. value_of self.now name.now ≡ Some text.now) }
    {
        Some(self.variable(name)?.value())
    }

    /// Returns the flags of a variable. An unknown variable has none.
    pub fn flags(&self, name: &[u8]) -> Flags
        ensures { result ≡ flags_of self.now name.now }
    {
        match self.variable(name) {
            Some(variable) => variable.flags(),
            None => Flags::NONE,
        }
    }

    /// Returns the greatest length of a variable's string value in bytes: 0 if none was set.
    pub fn aux(&self, name: &[u8]) -> u16
        ensures { result ≡ aux_of self.now name.now }
    {
        match self.variable(name) {
            Some(variable) => variable.aux(),
            None => 0,
        }
    }

    /// Returns the enum values of a variable, in order of addition. An unknown variable has none.
    pub fn enums(&self, name: &[u8]) -> &[Text]
        ensures { result.now ≡ enums_of self.now name.now }
    {
        match self.variable(name) {
            Some(variable) => variable.enums(),
            None => &[],
        }
    }

    /// Returns the ranges of a variable, in order of addition. An unknown variable has none.
    pub fn ranges(&self, name: &[u8]) -> &[Range]
        ensures { result.now ≡ ranges_of self.now name.now }
    {
        match self.variable(name) {
            Some(variable) => variable.ranges(),
            None => &[],
        }
    }

    /// Whether there is a command with this name.
    pub fn has_cmd(&self, name: &[u8]) -> bool
        ensures { result ≡ has_command self.now name.now }
    {
        match place_of_command(&self.commands, name) {
            Ok(_) => true,
            Err(_) => false,
        }
    }

    /// The variables, ascending by name in byte order: at most [`VARIABLES_MAX`]. A list of the table walks it once.
    pub fn variables(&self) -> &[Variable]
        ensures value { result.now ≡ self.now.variables }
        ensures ascending { IsAscending (map (λ v. v.name) result.now) }
        ensures within { length result.now ≤ VARIABLES_MAX }
        ensures each_within { All IsWithinLimits result.now }
    {
        &self.variables
    }

    /// The commands, ascending in byte order: at most [`COMMANDS_MAX`].
    pub fn commands(&self) -> &[Name]
        ensures value { result.now ≡ self.now.commands }
        ensures ascending { IsAscending (map (λ command. command) result.now) }
        ensures within { length result.now ≤ COMMANDS_MAX }
        ensures each_named { All (λ command. is_name command ≡ true) result.now }
    {
        &self.commands
    }

    /// Whether a DUMPDONE came since the table was made or last cleared: the driver has then reported all that it
    /// knew.
    pub fn dump_done(&self) -> bool
        ensures { result ≡ self.now.dump_done }
    {
        self.dump_done
    }

    /// Whether the driver says that its data are current: since the table was made or last cleared, the last DATAOK or
    /// DATASTALE was DATAOK. False if none came.
    pub fn data_ok(&self) -> bool
        ensures { result ≡ self.now.data_ok }
    {
        self.data_ok
    }
}
