//! A monitor of UPSes (upsmon(8)): it handles one event at a time, and decides what it asks, which notices it gives,
//! and when its machine shuts down.
#![tactic(auto)]

mod answer;
mod event;
mod flags;
mod line;
mod message;
mod monitor;
mod notices;
mod query;
mod shutdown;
mod state;
mod time;

pub use event::Event;
pub use monitor::Monitor;
pub use nut_monitor_spec::{
    Known, LastAnswer, LastQuery, MonitorFault, Notice, Phase, Query, StatusFlags,
};
pub use shutdown::has_primary;
