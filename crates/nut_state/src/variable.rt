//! One variable of the table.
ghost use Rattle.std.specs.Prelude.{◌≡◌, ◌<◌, ◌≤◌, [], ◌∷◌, ◌++◌, List, ℕ, true, false, length, drop, is_some, IfSome, IsOk, OnOk, OnErr};
ghost use Rattle.nut_state.specs.Step.{fresh, without_enum, without_range};
ghost use Rattle.nut_state.specs.Attribute.{takes_enum, takes_range, lists_enum, lists_range};
ghost use Rattle.nut_state.specs.Row.{is_unescaped, row_end};
ghost use Rattle.nut_state.specs.Text.{is_name};
ghost use Rattle.nut_state.specs.Verb.{says};
ghost use Rattle.nut_state.specs.Change.{flags_named};
ghost use Rattle.std.specs.List.{list_any};

use crate::limits::{ENUMS_MAX, RANGES_MAX};
use crate::number::Range;
use crate::row_end::RowEnd;
use crate::text::Text;
use crate::verb::says;
use nut_words::{VALUE_MAX, Words};
use std::alloc::{AllocError, Global};
use std::marker::Model;

/// The flags that SETFLAGS sets on a variable.
#[derive(Clone, Copy, PartialEq, Eq)]
pub struct Flags {
    /// `RW`: a client may set the variable.
    pub writable: bool,
    /// `STRING`: the value is a text of at most `aux` bytes.
    pub string: bool,
    /// `NUMBER`: the value is a number.
    pub number: bool,
}

impl Flags {
    /// No flags. A variable has none before a SETFLAGS.
    pub const NONE: Flags = Flags {
        writable: false,
        string: false,
        number: false,
    };

    /// Returns the flags named by the words after the variable's name, in upper or lower case.
    pub(crate) fn read(words: &Words) -> Flags
        ensures { result ≡ flags_named (drop 2 words.now) }
    {
        Flags {
            writable: names(words, b"RW"),
            string: names(words, b"STRING"),
            number: names(words, b"NUMBER"),
        }
    }
}

/// Whether one of the words after the variable's name is this text, in upper or lower case.
fn names(words: &Words, text: &[u8]) -> bool
    ensures { result ≡ list_any (says text.now) (drop 2 words.now) }
{
    for place in 2..words.len() {
        if says(text, words.get(place)) {
            return true;
        }
    }
    false
}

/// A variable of the table: its value, and what a client may set it to.
#[derive(Drop)]
pub struct Variable {
    row_end: RowEnd,
    flags: Flags,
    aux: u16,
    enums: Vec<Text>,
    ranges: Vec<Range>,
}

impl Model for Variable {
    ghost use Rattle.std.specs.Prelude.{List};
    ghost use Rattle.nut_state.specs.Table.{Entry};

    ghost Value = { Entry };

    ghost view = { λ v. record { name = v.row_end.name; value = v.row_end.value; flags = v.flags; aux = v.aux; enums = v.enums.items; ranges = v.ranges.items } };
}

impl Variable {
    /// Returns a variable with a value, without flags, aux, enum values and ranges.
    pub(crate) fn new(alloc: Global, name: &[u8], value: &[u8]) -> Variable
        requires name { is_name name.now ≡ true }
        requires value { length value.now ≤ VALUE_MAX }
        ensures { result ≡ fresh name.now value.now }
    {
        Variable {
            row_end: RowEnd::new(name, value),
            flags: Flags::NONE,
            aux: 0,
            enums: Vec::new(alloc),
            ranges: Vec::new(alloc),
        }
    }

    /// Returns the variable's name.
    pub fn name(&self) -> &[u8]
        ensures { result.now ≡ self.now.name }
    {
        self.row_end.name()
    }

    /// Its value: at most [`VALUE_MAX`] bytes.
    pub fn value(&self) -> &[u8]
        ensures value { result.now ≡ self.now.value }
        ensures fits { length result.now ≤ VALUE_MAX }
    {
        self.row_end.value()
    }

    /// Returns the end of the row that lists the variable: its name as a word, a blank, its value in quotes and a line
    /// feed. Returns `None` if a backslash has to precede a byte of the value there. The text is kept with the variable,
    /// so nothing is written anew.
    pub fn row_end(&self) -> Option<&[u8]>
        ensures text { IfSome result (λ text. text.now ≡ row_end self.now.name self.now.value) }
        ensures unescaped { is_some result ≡ is_unescaped self.now.value }
    {
        self.row_end.text()
    }

    /// Returns the flags of the last SETFLAGS.
    pub fn flags(&self) -> Flags
        ensures { result ≡ self.now.flags }
    {
        self.flags
    }

    /// Returns the number of the last SETAUX: the greatest length of a string value in bytes. It is 0 before any
    /// SETAUX.
    pub fn aux(&self) -> u16
        ensures { result ≡ self.now.aux }
    {
        self.aux
    }

    /// Returns the enum values, in order of addition.
    pub fn enums(&self) -> &[Text]
        ensures { result.now ≡ self.now.enums }
    {
        &self.enums
    }

    /// Returns the ranges, in order of addition.
    pub fn ranges(&self) -> &[Range]
        ensures { result.now ≡ self.now.ranges }
    {
        &self.ranges
    }

    pub(crate) fn set_value(&mut self, value: &[u8])
        requires { length value.now ≤ VALUE_MAX }
        ensures { self.new ≡ record self.old { value = value.now } }
    {
        self.row_end.set_value(value);
    }

    pub(crate) fn set_flags(&mut self, flags: Flags)
        ensures { self.new ≡ record self.old { flags = flags } }
    {
        self.flags = flags;
    }

    pub(crate) fn set_aux(&mut self, aux: u16)
        ensures { self.new ≡ record self.old { aux = aux } }
    {
        self.aux = aux;
    }

    fn has_enum(&self, value: &[u8]) -> bool
        ensures { result ≡ lists_enum value.now self.now.enums }
    {
        self.enums.iter().any(|text| text.as_bytes() == value)
    }

    /// Whether the enum value may be added: it is short enough, there is room, and it isn't listed.
    pub(crate) fn takes_enum(&self, value: &[u8]) -> bool
        ensures { result ≡ takes_enum value.now self.now.enums }
    {
        value.len() <= VALUE_MAX && self.enums.len() < ENUMS_MAX && !self.has_enum(value)
    }

    pub(crate) fn add_enum(&mut self, value: &[u8]) -> Result<(), AllocError>
        requires { length value.now ≤ VALUE_MAX }
        ensures ok { OnOk result (self.new ≡ record self.old { enums = self.old.enums ++ value.now ∷ [] }) }
        ensures err { OnErr result (self.new ≡ self.old) }
    {
        self.enums.push(Text::new(value))?;
        Ok(())
    }

    pub(crate) fn remove_enum(&mut self, value: &[u8])
        ensures { self.new ≡ without_enum value.now self.old }
    {
        self.enums.retain(|text| text.as_bytes() != value);
    }

    fn has_range(&self, range: Range) -> bool
        ensures { result ≡ lists_range range self.now.ranges }
    {
        self.ranges.iter().any(|listed| *listed == range)
    }

    /// Whether the range may be added: there is room, and it isn't listed.
    pub(crate) fn takes_range(&self, range: Range) -> bool
        ensures { result ≡ takes_range range self.now.ranges }
    {
        self.ranges.len() < RANGES_MAX && !self.has_range(range)
    }

    pub(crate) fn add_range(&mut self, range: Range) -> Result<(), AllocError>
        ensures ok { OnOk result (self.new ≡ record self.old { ranges = self.old.ranges ++ range ∷ [] }) }
        ensures err { OnErr result (self.new ≡ self.old) }
    {
        self.ranges.push(range)?;
        Ok(())
    }

    pub(crate) fn remove_range(&mut self, range: Range)
        ensures { self.new ≡ without_range range self.old }
    {
        self.ranges.retain(|listed| *listed != range);
    }
}
