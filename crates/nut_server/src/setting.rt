//! Which values a variable allows, and requests to drivers.

ghost use Rattle.std.specs.Prelude.{◌≡◌, false};
ghost use Rattle.std.specs.Bool.{OnTrue};
ghost use Rattle.std.specs.List.{list_any};
ghost use Rattle.std.specs.Option.{option_map_or};
ghost use Rattle.nut_proto.specs.DriverAsks.{ask_line};
ghost use Rattle.nut_state.specs.Attribute.{lists_enum};
ghost use Rattle.nut_server_spec.specs.Answer.{is_in_range, kind_of, misfit, misfit_by, parameter_misfit};
ghost use Rattle.nut_server_spec.specs.Device.{fits};

use crate::device::Device;
use arrayvec::ArrayVec;
use nut_proto::{DriverAsk, Refusal, VariableKind, Word};
use nut_queue::ASKS_MAX;
use nut_state::{Range, Text, Variable, whole_number};
use nut_words::VALUE_MAX;

/// Returns the kind of a variable.
pub fn kind_of(variable: &Variable) -> VariableKind
    ensures { result ≡ kind_of variable.now }
{
    if !variable.enums().is_empty() {
        return VariableKind::Enum;
    }
    if !variable.ranges().is_empty() {
        return VariableKind::Range;
    }
    if variable.flags().string {
        return VariableKind::String(u32::from(variable.aux()));
    }
    VariableKind::Number
}

fn lists_enum(value: &[u8], listed: &[Text]) -> bool
    ensures { result ≡ lists_enum value.now listed.now }
{
    listed.iter().any(|text| text.as_bytes() == value)
}

fn is_in_range(number: i32, range: Range) -> bool
    ensures { result ≡ is_in_range number range }
{
    range.minimum <= number && number <= range.maximum
}

fn lists_number(number: i32, ranges: &[Range]) -> bool
    ensures { result ≡ list_any (is_in_range number) ranges.now }
{
    ranges.iter().any(|range| is_in_range(number, *range))
}

fn is_in_ranges(number: Option<i32>, ranges: &[Range]) -> bool
    ensures { result ≡ option_map_or (λ n. list_any (is_in_range n) ranges.now) number false }
{
    number.is_some_and(|number| lists_number(number, ranges))
}

/// Returns why a variable doesn't allow a value that isn't too long, by the kind of the variable.
fn misfit_by(kind: VariableKind, variable: &Variable, value: &[u8]) -> Option<Refusal>
    ensures { result ≡ misfit_by kind variable.now value.now }
{
    match kind {
        VariableKind::Enum if lists_enum(value, variable.enums()) => None,
        VariableKind::Enum => Some(Refusal::InvalidValue),
        VariableKind::Range if is_in_ranges(whole_number(value), variable.ranges()) => None,
        VariableKind::Range => Some(Refusal::InvalidValue),
        VariableKind::String(most) if value.len() > most as usize => Some(Refusal::TooLong),
        VariableKind::String(_) | VariableKind::Number => None,
    }
}

/// Returns why a variable can't be set to a value: clients may not set it, the value has more than [`VALUE_MAX`]
/// bytes, or the variable's kind doesn't allow it.
pub fn misfit(variable: &Variable, value: &[u8]) -> Option<Refusal>
    ensures { result ≡ misfit variable.now value.now }
{
    if !variable.flags().writable {
        return Some(Refusal::ReadOnly);
    }
    if value.len() > VALUE_MAX {
        return Some(Refusal::TooLong);
    }
    misfit_by(kind_of(variable), variable, value)
}

/// Returns why a command can't be given a parameter: it has more than [`VALUE_MAX`] bytes.
pub fn parameter_misfit(parameter: &Option<Word<'_>>) -> Option<Refusal>
    ensures { result ≡ parameter_misfit parameter.now }
{
    match parameter {
        Some(text) if text.as_bytes().len() > VALUE_MAX => Some(Refusal::TooLong),
        Some(_) | None => None,
    }
}

/// Writes a request to a driver into `line`. Returns whether it fits behind what waits for the driver. Allocates no
/// memory.
pub fn put_ask(line: &mut ArrayVec<u8, ASKS_MAX>, ask: &DriverAsk<'_>, device: &Device) -> bool
    ensures value { result ≡ fits (ask_line ask.now) device.now.device }
    ensures put { OnTrue result (line.new.items ≡ ask_line ask.now) }
{
    line.clear();
    ask.put(line).is_ok() && device.fits(line.as_slice())
}
