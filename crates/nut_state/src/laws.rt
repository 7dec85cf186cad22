//! Laws of the table: what holds after any lines, and how much it holds at most.
ghost use Rattle.std.specs.Prelude.{◌≡◌};
ghost use Rattle.nut_state.specs.laws.Holds.{EveryTableHolds};

use crate::limits::{COMMANDS_MAX, ENUMS_MAX, RANGES_MAX, VARIABLES_MAX};

/// States a law and does nothing when called: after any lines, a table that began empty holds what looking back over
/// them says.
pub fn every_table_holds()
    ensures { EveryTableHolds }
{}

/// States a law and does nothing when called: the values of the limits that the definitions name.
pub fn table_limits()
    ensures variables { VARIABLES_MAX ≡ 512 }
    ensures commands { COMMANDS_MAX ≡ 128 }
    ensures enums { ENUMS_MAX ≡ 64 }
    ensures ranges { RANGES_MAX ≡ 16 }
{}
