//! Names, texts and numbers.
ghost use Rattle.std.specs.Prelude.{◌≡◌, ◌≤◌, false, IsTrue};
ghost use Rattle.std.specs.List.{list_all};
ghost use Rattle.nut_words.specs.Quoting.{IsPrintable};
ghost use Rattle.nut_words.specs.Spelling.{is_printing};
ghost use Rattle.nut_conf.specs.Faults.{Reads, Spares};
ghost use Rattle.nut_words.specs.Name.{is_name};
ghost use Rattle.nut_conf.specs.Values.{is_text, name, number, text as bounded_text};

use crate::fault::{FaultKind, Misread};
use crate::hint::{Expected, Expects};
use crate::line::Line;
use crate::slot::{FromValues, setting_of};
use crate::values::{Form, Values};
use arrayvec::ArrayVec;
use nut_words::{are_name_bytes, natural};

/// A name of 1 to `MOST` bytes: letters, digits, `.`, `_` and `-`.
#[derive(PartialEq, Eq, Hash, Drop)]
pub struct Name<const MOST: usize> {
    pub bytes: ArrayVec<u8, MOST>,
    pub ghost named: { IsTrue (is_name MOST bytes.items) },
}

/// A text of `LEAST` to `MOST` printing bytes.
#[derive(PartialEq, Eq, Drop)]
pub struct Text<const LEAST: usize, const MOST: usize> {
    pub bytes: ArrayVec<u8, MOST>,
    pub ghost bounded: { IsTrue (is_text LEAST MOST bytes.items) },
}

/// A number from `LEAST` to `MOST`.
#[derive(Clone, Copy, PartialEq, Eq)]
pub struct Number<const LEAST: u32, const MOST: u32> {
    pub value: u32,
    pub ghost least: { LEAST ≤ value },
    pub ghost most: { value ≤ MOST },
}

/// A number from `LEAST` to `MOST`: the one that a line sets, or else `DEFAULT`.
#[derive(Clone, Copy)]
pub struct NumberOr<const LEAST: u32, const MOST: u32, const DEFAULT: u32> {
    pub value: u32,
    /// Whether a line has set it.
    pub is_set: bool,
    pub ghost least: { LEAST ≤ value },
    pub ghost most: { value ≤ MOST },
    pub ghost unset: { is_set ≡ false → value ≡ DEFAULT },
}

/// A TCP port, 1 to 65,535.
#[derive(Clone, Copy, PartialEq, Eq)]
pub struct Port {
    pub number: u16,
    pub ghost least: { 1 ≤ number },
}

impl<const MOST: usize> Name<MOST> {
    /// Reads a name.
    ///
    /// # Errors
    ///
    /// `BadName` if it is empty or has a byte that names can't have; else `PastLimit` if it is longer than `MOST`
    /// bytes.
    pub fn read(bytes: &[u8]) -> Result<Self, FaultKind>
        ensures reads { Reads (λ n. n.bytes.items) result (name MOST bytes.now) }
        ensures spares { Spares result }
    {
        if bytes.is_empty() || !are_name_bytes(bytes) {
            return Err(FaultKind::BadName);
        }
        match ArrayVec::try_from(bytes) {
            Ok(bytes) => Ok(Name { bytes }),
            Err(_) => Err(FaultKind::PastLimit),
        }
    }

    /// Returns the bytes of the name.
    pub fn as_bytes(&self) -> &[u8]
        ensures value { result.now ≡ self.now.bytes.items }
        ensures named { IsTrue (is_name MOST result.now) }
        ensures printable { IsPrintable result.now }
    {
        self.bytes.as_slice()
    }
}

impl<const LEAST: usize, const MOST: usize> Text<LEAST, MOST> {
    /// Reads a text of printing bytes.
    ///
    /// # Errors
    ///
    /// `PastLimit` if there are fewer bytes than `LEAST` or more than `MOST`.
    pub fn read(bytes: &[u8]) -> Result<Self, FaultKind>
        requires { IsTrue (list_all is_printing bytes.now) }
        ensures reads { Reads (λ t. t.bytes.items) result (bounded_text LEAST MOST bytes.now) }
        ensures spares { Spares result }
    {
        if bytes.len() < LEAST {
            return Err(FaultKind::PastLimit);
        }
        match ArrayVec::try_from(bytes) {
            Ok(bytes) => Ok(Text { bytes }),
            Err(_) => Err(FaultKind::PastLimit),
        }
    }

    /// Returns the bytes of the text.
    pub fn as_bytes(&self) -> &[u8]
        ensures value { result.now ≡ self.now.bytes.items }
        ensures bounded { IsTrue (is_text LEAST MOST result.now) }
        ensures printable { IsPrintable result.now }
    {
        self.bytes.as_slice()
    }
}

impl<const LEAST: u32, const MOST: u32> Number<LEAST, MOST> {
    /// Reads one to nine digits.
    ///
    /// # Errors
    ///
    /// `BadNumber` for anything else, or if the number isn't `LEAST` to `MOST`.
    pub fn read(bytes: &[u8]) -> Result<Self, FaultKind>
        ensures reads { Reads (λ n. n.value) result (number LEAST MOST bytes.now) }
        ensures spares { Spares result }
    {
        let Some(value) = natural(bytes) else {
            return Err(FaultKind::BadNumber);
        };
        if LEAST <= value && value <= MOST {
            Ok(Number { value })
        } else {
            Err(FaultKind::BadNumber)
        }
    }
}

impl<const LEAST: u32, const MOST: u32, const DEFAULT: u32> NumberOr<LEAST, MOST, DEFAULT> {
    ghost use Rattle.std.specs.Prelude.{[]};
    ghost use Rattle.nut_conf.specs.Rows.{number_set};
    ghost use Rattle.nut_conf.specs.inside.Misreads.{bare};
    ghost use Rattle.nut_conf.specs.Settings.{Puts, once, number_value};
    ghost use Rattle.nut_conf.specs.declared.values.Form.TheVariants.{Plain};

    /// Returns the default.
    pub(crate) fn new() -> Self
        requires least { LEAST ≤ DEFAULT }
        requires most { DEFAULT ≤ MOST }
        ensures { number_set result ≡ [] }
    {
        NumberOr {
            value: DEFAULT,
            is_set: false,
        }
    }

    /// Takes the number on a line. Returns `Repeated` if one is set. Allocates no memory.
    pub(crate) fn put(&mut self, line: &Line<'_>) -> Result<(), Misread>
        ensures puts { Puts (once Plain (number_value LEAST MOST)) (number_set self.old)
            line.now.words (bare result) (number_set self.new) }
        ensures spares { Spares (bare result) }
    {
        let number: Number<LEAST, MOST> = setting_of(Form::Plain, line)?;
        if self.is_set {
            return Err(Misread::of_word(0, FaultKind::Repeated, Expected::Another));
        }
        *self = NumberOr {
            value: number.value,
            is_set: true,
        };
        Ok(())
    }
}

impl Port {
    /// Reads a port.
    ///
    /// # Errors
    ///
    /// `BadNumber` if it isn't one to nine digits, or not a number from 1 to 65,535.
    pub fn read(bytes: &[u8]) -> Result<Self, FaultKind>
        ensures reads { Reads (λ p. p.number) result (number 1 65535 bytes.now) }
        ensures spares { Spares result }
    {
        let number: Number<1, 65535> = Number::read(bytes)?;
        Ok(Port {
            number: number.value as u16,
        })
    }
}

impl<const MOST: usize> Expects for Name<MOST> {
    const EXPECTED: Expected = Expected::Name(MOST);
}

impl<const LEAST: usize, const MOST: usize> Expects for Text<LEAST, MOST> {
    const EXPECTED: Expected = Expected::Text(LEAST, MOST);
}

impl<const LEAST: u32, const MOST: u32> Expects for Number<LEAST, MOST> {
    const EXPECTED: Expected = Expected::Number(LEAST, MOST);
}

impl Expects for Port {
    const EXPECTED: Expected = Expected::Number(1, 65_535);
}

impl<const MOST: usize> FromValues for Name<MOST> {
    ghost use Rattle.nut_conf.specs.Settings.{Text, name_value};

    ghost setting = { λ n. Text n.bytes.items };

    ghost reads = { name_value MOST };

    fn from_values(values: &Values<'_, '_>) -> Result<Self, Misread> {
        values.told(0, Name::read(values.one()?))
    }
}

impl<const LEAST: usize, const MOST: usize> FromValues for Text<LEAST, MOST> {
    ghost use Rattle.nut_conf.specs.Settings.{Text as TextSetting, text_value};

    ghost setting = { λ t. TextSetting t.bytes.items };

    ghost reads = { text_value LEAST MOST };

    fn from_values(values: &Values<'_, '_>) -> Result<Self, Misread> {
        values.told(0, Text::read(values.one()?))
    }
}

impl<const LEAST: u32, const MOST: u32> FromValues for Number<LEAST, MOST> {
    ghost use Rattle.nut_conf.specs.Settings.{Number as NumberSetting, number_value};

    ghost setting = { λ n. NumberSetting n.value };

    ghost reads = { number_value LEAST MOST };

    fn from_values(values: &Values<'_, '_>) -> Result<Self, Misread> {
        values.told(0, Number::read(values.one()?))
    }
}
