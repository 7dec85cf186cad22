//! What `nutsim` runs: it reads a schedule from its file, plays it on a real server and real monitors, and prints the
//! news of its steps.
#![tactic(auto)]

mod command;
mod fault;
mod news;
mod playing;
mod progress;
mod room;
mod run;

pub use run::{run_nutsim, run_nutsim_showing};
