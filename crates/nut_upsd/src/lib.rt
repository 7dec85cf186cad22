//! What upsd runs: a server over sockets, or over standard streams.
#![tactic(auto)]

mod changes;
mod command_line;
mod configuration;
mod daemon;
mod folder;
mod listeners;
mod nuts_options;
mod report;
mod stdio;
mod ups_option;
mod upsd_fault;

pub use configuration::{Settings, read_folder};
pub use daemon::run_upsd;
pub use folder::Folder;
pub use stdio::run_stdio;
pub use ups_option::{add_ups_option, read_ups_options};
