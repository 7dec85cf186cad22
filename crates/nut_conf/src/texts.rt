//! Texts by name.
ghost use Rattle.std.specs.Prelude.{◌≤◌, length};
ghost use Rattle.nut_conf.specs.declared.limits.TheConstants.{DESCRIPTIONS_MAX};

use crate::fault::{FaultKind, Misread};
use crate::hint::Expected;
use crate::limits::{DESCRIPTION_MAX, DESCRIPTIONS_MAX};
use crate::line::Line;
use crate::slot::{FromValues, setting_of};
use crate::tables::check_new;
use crate::text::{Name, Text};
use crate::values::{Form, Values};
use indexmap::IndexMap;
use nut_words::NAME_MAX;
use std::alloc::Global;

/// At most [`DESCRIPTIONS_MAX`] names with a text each, in the order of the file.
#[derive(Drop)]
pub struct Texts {
    pub by_name: IndexMap<Name<NAME_MAX>, Text<0, DESCRIPTION_MAX>>,
    pub ghost few: { length by_name.entries ≤ DESCRIPTIONS_MAX },
}

/// A name and its text.
#[derive(Drop)]
struct Described {
    name: Name<NAME_MAX>,
    text: Text<0, DESCRIPTION_MAX>,
}

impl FromValues for Described {
    ghost use Rattle.nut_conf.specs.Settings.{Description};
    ghost use Rattle.nut_conf.specs.Descriptions.{description_value};

    ghost setting = { λ d. Description d.name.bytes.items d.text.bytes.items };

    ghost reads = { description_value };

    fn from_values(values: &Values<'_, '_>) -> Result<Self, Misread> {
        if values.len() != 2 {
            return Err(Misread::of_line(FaultKind::BadForm, Expected::Form));
        }
        let name = values.told(0, Name::read(values.get(0)))?;
        let text = values.told(1, Text::read(values.get(1)))?;
        Ok(Described { name, text })
    }
}

impl Texts {
    ghost use Rattle.std.specs.Prelude.{◌≡◌, [], IfSome, IsTrue, map};
    ghost use Rattle.std.specs.Map.{lookup};
    ghost use Rattle.std.specs.Option.{option_copied, option_map};
    ghost use Rattle.std.specs.Str.{bytes_eq};
    ghost use Rattle.nut_words.specs.Quoting.{IsPrintable};
    ghost use Rattle.nut_conf.specs.Settings.{Puts};
    ghost use Rattle.nut_conf.specs.inside.Misreads.{bare};
    ghost use Rattle.nut_conf.specs.Values.{is_text};
    ghost use Rattle.nut_conf.specs.Descriptions.{described, description_rule, rows_of};

    /// No names.
    pub(crate) fn new(alloc: Global) -> Self
        ensures { rows_of result ≡ [] }
    {
        Texts {
            by_name: IndexMap::new(alloc),
        }
    }

    /// Adds a line's name and text at the end. Returns the line's first fault.
    pub(crate) fn put(&mut self, line: &Line<'_>) -> Result<(), Misread>
        ensures { Puts description_rule (map described (rows_of self.old)) line.now.words (bare result) (map described (rows_of self.new)) }
    {
        let described: Described = setting_of(Form::Plain, line)?;
        let Described { name, text } = described;
        check_new(&self.by_name, &name, 1, DESCRIPTIONS_MAX)?;
        self.by_name.insert(name, text)?;
        Ok(())
    }

    fn entry(&self, name: &[u8]) -> Option<&Text<0, DESCRIPTION_MAX>>
        ensures { option_copied result ≡ lookup (λ n. bytes_eq name.now n.bytes.items) self.now.by_name.entries }
    {
        match Name::read(name) {
            Ok(name) => self.by_name.get(&name),
            Err(_) => None,
        }
    }

    /// Returns the text of this name: 0 to [`DESCRIPTION_MAX`] printing bytes. `None` for a name without a
    /// text. Allocates no memory. The time doesn't grow with the number of names.
    pub fn find(&self, name: &[u8]) -> Option<&[u8]>
        ensures text { option_map (λ t. t.now) result ≡ lookup (bytes_eq name.now) (rows_of self.now) }
        ensures bounded { IfSome result (λ t. IsTrue (is_text 0 DESCRIPTION_MAX t.now)) }
        ensures printable { IfSome result (λ t. IsPrintable t.now) }
    {
        match self.entry(name) {
            Some(text) => Some(text.as_bytes()),
            None => None,
        }
    }
}
