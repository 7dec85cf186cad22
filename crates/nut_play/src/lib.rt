//! A fleet: one server and its monitors over pipes in memory, played step by step.
#![tactic(auto)]

mod fleet;
mod laws;
mod limits;
mod link;
mod reading;
mod seat;
mod telling;
mod types;
mod verb;

pub use fleet::Fleet;
pub use laws::rooms_hold;
pub use limits::{STEP_LINE_MAX, step_limits};
pub use reading::{StepFault, read_step};
pub use types::{FleetFault, FleetLog, Logged, News, Step};
