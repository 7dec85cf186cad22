//! The table of one UPS: its variables and commands, as the lines of its driver report them.
//!
//! A driver reports what it knows to its server in lines of words. NUT's developer guide has them in the chapter
//! "Network UPS Tools: driver/server socket protocol". [`UpsState::apply`] changes the table as one such line says.
//! After any lines the table holds what looking back over all of them says. A variable has the value, flags and aux
//! that were set last since it was last deleted. Its enum values and ranges are those that were added since then
//! and not removed. The table itself doesn't keep the lines.
//!
//! Variables and commands are kept in vectors sorted by name, and names and values in arrays of fixed size. So only a
//! line that adds a variable, enum value, range or command, or has a backslash, allocates memory.
#![tactic(auto)]

mod heard;
mod laws;
mod limits;
mod number;
mod plain;
mod row_end;
mod sorted;
mod state;
mod text;
mod variable;
mod verb;

pub use heard::{Heard, StateFault};
pub use laws::{every_table_holds, table_limits};
pub use limits::{COMMANDS_MAX, ENUMS_MAX, RANGES_MAX, VARIABLES_MAX};
pub use number::{Range, whole_number};
pub use state::UpsState;
pub use text::{Name, Text};
pub use variable::{Flags, Variable};
