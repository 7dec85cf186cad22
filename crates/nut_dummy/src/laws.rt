//! What holds of a driver after any calls, and the limits of a script.
ghost use Rattle.std.specs.Prelude.{◌≡◌};
ghost use Rattle.nut_dummy.specs.Dump.{DumpIsTheTable};
ghost use Rattle.nut_dummy.specs.Heard.{ToldLinesAreHeard};
ghost use Rattle.nut_dummy.specs.History.{LooksBack};

use crate::limits::{SCRIPT_LINE_MAX, SCRIPT_VARIABLES_MAX, STEPS_MAX, TIMER_MAX};

/// States a law and does nothing when called: after any history of accepted calls, the bytes taken on the last link,
/// followed by those that wait, are the lines owed to it; after a cut, the bytes taken are a beginning of these.
pub fn looks_back()
    ensures { LooksBack }
{}

/// States a law and does nothing when called: each line that the driver sends is read as what it says. Values, flags,
/// aux, enum values and ranges are heard exactly. So are commands, current data, the end of a dump, the answer to PING,
/// and how a tracked request ended, with its number.
pub fn told_lines_are_heard()
    ensures { ToldLinesAreHeard }
{}

/// States a law and does nothing when called: after any calls to a driver whose script was read, `DUMPALL` is answered by
/// its table. First come the lines of each variable that has a value, then `ADDCMD` for each command, both ascending,
/// then `DATAOK` and `DUMPDONE`. In whatever pieces a server gets them, they lead it from an empty table to the driver's
/// own.
pub fn dump_is_the_table()
    ensures { DumpIsTheTable }
{}

/// States a law and does nothing when called: the values of the limits that the definitions name.
pub fn script_limits()
    ensures line { SCRIPT_LINE_MAX ≡ 2048 }
    ensures timer { TIMER_MAX ≡ 86400 }
    ensures variables { SCRIPT_VARIABLES_MAX ≡ 509 }
    ensures steps { STEPS_MAX ≡ 4096 }
{}
