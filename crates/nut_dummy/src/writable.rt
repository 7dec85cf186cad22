//! The variables that clients may set: this project's own.
ghost use Rattle.std.specs.Prelude.{◌≡◌, pos, ◌≤◌, [], ◌∷◌, codes, length, IsTrue};
ghost use Rattle.nut_dummy.specs.Item.{is_value};
ghost use Rattle.std.specs.List.{list_any};
ghost use Rattle.nut_state.specs.Attribute.{lists_enum};
ghost use Rattle.nut_state.specs.Number.{whole_number};
ghost use Rattle.nut_dummy.specs.Writable.{name_of, attributes, is_within, fits, may_be, writable_of};
ghost use Rattle.nut_dummy.specs.Telling.{limits_of, text};

use crate::text::is_value;
use nut_state::whole_number;

/// A variable that clients may set.
#[derive(Clone, Copy, PartialEq, Eq)]
pub enum Writable {
    ChargeLow,
    RuntimeLow,
    Sensitivity,
    ShutdownDelay,
    Id,
}

const ALL: [Writable; 5] = [
    Writable::ChargeLow,
    Writable::RuntimeLow,
    Writable::Sensitivity,
    Writable::ShutdownDelay,
    Writable::Id,
];

/// Whether the value is a whole number from 0 to `most`.
fn is_up_to(most: i32, value: &[u8]) -> bool
    ensures { result ≡ is_within (whole_number value.now) (record { minimum = pos 0; maximum = most }) }
{
    match whole_number(value) {
        Some(number) => 0 <= number && number <= most,
        None => false,
    }
}

/// Whether the value is one of the sensitivities: `low`, `medium` or `high`.
fn is_sensitivity(value: &[u8]) -> bool
    ensures { result ≡ lists_enum value.now (codes "low" ∷ codes "medium" ∷ codes "high" ∷ []) }
{
    value == b"low".as_slice() || value == b"medium".as_slice() || value == b"high".as_slice()
}

impl Writable {
    fn name(self) -> &'static [u8]
        ensures { result.now ≡ name_of self }
    {
        match self {
            Writable::ChargeLow => b"battery.charge.low",
            Writable::RuntimeLow => b"battery.runtime.low",
            Writable::Sensitivity => b"input.sensitivity",
            Writable::ShutdownDelay => b"ups.delay.shutdown",
            Writable::Id => b"ups.id",
        }
    }

    /// Returns the writable variable of this name, if there is one.
    #[tactic(auto, unfolding(crate::specs::Writable::writable_of))]
    pub fn of(name: &[u8]) -> Option<Writable>
        ensures { result ≡ writable_of name.now }
    {
        ALL.iter().copied().find(|w| w.name() == name)
    }

    /// Returns the lines that limit it.
    pub fn limits(self) -> &'static [u8]
        ensures { result.now ≡ text (limits_of self) }
    {
        match self {
            Writable::ChargeLow => {
                b"SETFLAGS battery.charge.low RW NUMBER\nADDRANGE battery.charge.low 0 100\n"
            }
            Writable::RuntimeLow => {
                b"SETFLAGS battery.runtime.low RW NUMBER\nADDRANGE battery.runtime.low 0 86400\n"
            }
            Writable::Sensitivity => {
                b"SETFLAGS input.sensitivity RW STRING\nSETAUX input.sensitivity 8\nADDENUM input.sensitivity \"low\"\nADDENUM input.sensitivity \"medium\"\nADDENUM input.sensitivity \"high\"\n"
            }
            Writable::ShutdownDelay => {
                b"SETFLAGS ups.delay.shutdown RW NUMBER\nADDRANGE ups.delay.shutdown 0 600\n"
            }
            Writable::Id => b"SETFLAGS ups.id RW STRING\nSETAUX ups.id 16\n",
        }
    }

    /// Whether it may be set to this value.
    pub fn takes(self, value: &[u8]) -> bool
        ensures fits { result ≡ fits (attributes self) value.now }
        ensures valued { IsTrue result → IsTrue (is_value value.now) }
    {
        if !is_value(value) {
            return false;
        }
        match self {
            Writable::ChargeLow => is_up_to(100, value),
            Writable::RuntimeLow => is_up_to(86400, value),
            Writable::Sensitivity => is_sensitivity(value),
            Writable::ShutdownDelay => is_up_to(600, value),
            Writable::Id => value.len() <= 16,
        }
    }
}

/// Whether a client may set the variable of this name to this value.
pub fn may_be(name: &[u8], value: &[u8]) -> bool
    ensures may_be { result ≡ may_be name.now value.now }
    ensures valued { IsTrue result → IsTrue (is_value value.now) }
{
    match Writable::of(name) {
        Some(writable) => writable.takes(value),
        None => false,
    }
}
