//! The world of a monitor over sockets: links over TCP to the servers of its MONITOR lines; and short visits to them.
#![tactic(auto)]

mod dialler;
mod held_losses;
mod herald;
mod host;
mod inquiry;
mod limits;
mod links;
mod mio_mon_world;
mod pause;
mod refusals;
mod report;
mod upstream;
mod visits;
mod waiting;

pub use herald::Herald;
pub use limits::{ANSWER_ON_BATTERY, LATE_ANSWERS};
pub use links::NewLinks;
pub use mio_mon_world::MioMonWorld;
pub use visits::{Visited, Visits};
