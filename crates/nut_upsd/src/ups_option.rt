//! The values of the option `--ups`: `NAME=DESC`.

ghost use Rattle.std.specs.Prelude.{◌≡◌, ◌==◌, ◌<◌, position, length, map, [], IfSome};
ghost use Rattle.nut_conf.specs.Faults.{Gives};
ghost use Rattle.nut_conf.specs.Ups.{shown_in};
ghost use Rattle.nut_upsd.specs.UpsOption.{ups_option, ups_options};

use nut_conf::{FaultKind, UpsConf};
use std::alloc::Global;

/// Reads values in turn, and appends the UPS of each to those before.
///
/// # Errors
///
/// The fault of the first value that has one, as [`add_ups_option`] returns it.
pub fn read_ups_options(alloc: Global, values: &[&str]) -> Result<UpsConf, FaultKind>
    ensures { Gives shown_in result (ups_options [] (map (λ v. v.now) values.now)) }
{
    let mut ups = UpsConf::new(alloc);
    for value in values {
        add_ups_option(&mut ups, value.as_bytes())?;
    }
    Ok(ups)
}

/// Appends the UPS that a value names. Its name is before the first `=`, its description after it.
///
/// # Errors
///
/// The first test that the value fails: `BadForm` if it has no `=`, then those of [`UpsConf::add`], in their order.
/// Nothing changes then.
pub fn add_ups_option(ups: &mut UpsConf, value: &[u8]) -> Result<(), FaultKind>
    ensures { Gives (λ _. shown_in ups.new) result (ups_option (shown_in ups.old) value.now) }
{
    match place_of_equals(value) {
        Some(at) => ups.add(&value[..at], &value[at + 1..]),
        None => Err(FaultKind::BadForm),
    }
}

/// Returns the place of the first `=`.
fn place_of_equals(value: &[u8]) -> Option<usize>
    ensures place { result ≡ position (λ b. b == 61) value.now }
    ensures within { IfSome result (λ i. i < length value.now) }
{
    value.iter().position(|byte| *byte == b'=')
}
