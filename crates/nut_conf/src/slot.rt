//! Stores what the lines of a directive set.
ghost use Rattle.std.specs.Prelude.{◌≡◌, ◌≤◌, ℕ, List, Bool, Option, Some, Result, length, map};
ghost use Rattle.std.specs.List.{list_any};
ghost use Rattle.std.specs.Option.{option_map, option_to_list};
ghost use Rattle.nut_conf.specs.Faults.{Reads, Spares};
ghost use Rattle.nut_conf.specs.inside.Misreads.{bare};
ghost use Rattle.nut_conf.specs.inside.Slots.{Pushes, set_by_line};
ghost use Rattle.nut_conf.specs.Settings.{Setting, Puts};
ghost use Rattle.nut_conf.specs.Settings as rules;
ghost use Rattle.nut_conf.specs.declared.fault.FaultKind.{FaultKind};

use crate::fault::{FaultKind, Misread};
use crate::hint::Expected;
use crate::line::Line;
use crate::values::{Form, Values};

/// A value that a line of a directive sets.
pub trait FromValues: Drop + Sized {
    /// The setting that the value represents, whatever its place in memory.
    ghost setting: { Self → Setting };

    /// What the values of a line set, or their first fault, read from left to right.
    ghost reads: { List (List ℕ) → Result Setting FaultKind };

    /// Reads the values of a line. Returns their first fault, if they have one.
    fn from_values(values: &Values<'_, '_>) -> Result<Self, Misread>
        ensures reads { Reads setting (bare result) (reads values.now) }
        ensures spares { Spares (bare result) };
}

/// Reads the setting of a line. Returns its first fault, if it has one.
pub fn setting_of<T: FromValues>(form: Form, line: &Line<'_>) -> Result<T, Misread>
    ensures reads { Reads T.setting (bare result) (set_by_line form T.reads line.now.words) }
    ensures spares { Spares (bare result) }
{
    let values = Values::of(form, line)?;
    T::from_values(&values)
}

/// Stores the setting of a directive that is allowed once. Returns `Repeated` if it is set. Allocates no memory.
pub fn once<T: FromValues>(slot: &mut Option<T>, form: Form, line: &Line<'_>) -> Result<(), Misread>
    ensures puts { Puts (rules.once form T.reads) (option_to_list (option_map T.setting slot.old))
        line.now.words (bare result) (option_to_list (option_map T.setting slot.new)) }
    ensures spares { Spares (bare result) }
{
    let value: T = setting_of(form, line)?;
    if slot.is_some() {
        return Err(Misread::of_word(0, FaultKind::Repeated, Expected::Another));
    }
    *slot = Some(value);
    Ok(())
}

/// Adds a value to the list. Returns `PastLimit` if the list has `most` values already.
fn push_within<T: Drop>(list: &mut Vec<T>, value: T, most: Option<usize>) -> Result<(), Misread>
    ensures pushed { Pushes most list.old.items value (bare result) list.new.items }
    ensures bounded { (n : ℕ) → most ≡ Some n → length list.old.items ≤ n → length list.new.items ≤ n }
{
    if let Some(most) = most {
        if list.len() >= most {
            return Err(Misread::of_line(FaultKind::PastLimit, Expected::Fewer(most)));
        }
    }
    list.push(value)?;
    Ok(())
}

/// Adds the setting of a line to the list. Returns `PastLimit` if the list has `most` settings already.
pub fn listed<T: FromValues>(
    slot: &mut Vec<T>,
    form: Form,
    line: &Line<'_>,
    most: Option<usize>,
) -> Result<(), Misread>
    ensures puts { Puts (rules.listed most form T.reads) (map T.setting slot.old.items)
        line.now.words (bare result) (map T.setting slot.new.items) }
    ensures bounded { (n : ℕ) → most ≡ Some n → length slot.old.items ≤ n → length slot.new.items ≤ n }
{
    let value: T = setting_of(form, line)?;
    push_within(slot, value, most)
}

/// A setting that can clash with another: both can't be in one list.
pub trait Clashes: FromValues {
    /// Whether two settings clash.
    ghost clashes: { Setting → Setting → Bool };

    /// Whether the two settings clash.
    fn clashes(&self, other: &Self) -> bool
        ensures { result ≡ clashes (Self.setting self.now) (Self.setting other.now) };
}

fn clashes_with_any<T: Clashes>(value: &T, others: &[T]) -> bool
    ensures { result ≡ list_any (λ other. T.clashes (T.setting value.now) (T.setting other)) others.now }
{
    others.iter().any(|other| value.clashes(other))
}

/// Adds the setting of a line to the list. Returns `Repeated` if it clashes with one in the list, and `PastLimit` if
/// the list has `most` settings already.
pub fn listed_apart<T: Clashes>(
    slot: &mut Vec<T>,
    form: Form,
    line: &Line<'_>,
    most: Option<usize>,
) -> Result<(), Misread>
    ensures puts { Puts (rules.distinct T.clashes most form T.reads) (map T.setting slot.old.items)
        line.now.words (bare result) (map T.setting slot.new.items) }
    ensures bounded { (n : ℕ) → most ≡ Some n → length slot.old.items ≤ n → length slot.new.items ≤ n }
{
    let value: T = setting_of(form, line)?;
    if clashes_with_any(&value, slot.as_slice()) {
        return Err(Misread::of_word(1, FaultKind::Repeated, Expected::Another));
    }
    push_within(slot, value, most)
}
