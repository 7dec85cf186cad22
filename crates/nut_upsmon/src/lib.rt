//! What upsmon runs: a monitor over sockets, the people and commands that it tells, and the halt of its machine.
#![tactic(auto)]

mod actor;
mod beginning;
mod changes;
mod command_line;
mod errand;
mod faulty_file;
mod forcing;
mod guard;
mod guarded_world;
mod halt;
mod hindrance;
mod low_runtime;
mod machine;
mod memory_guarded_world;
mod memory_machine;
mod monitor;
mod notifier;
mod nuts_options;
mod obeying;
mod obstacle;
mod order_sender;
mod power_down_flag;
mod process_state;
mod reloader;
mod room;
mod shutdown_command;
mod shutdown_report;
mod starting;
mod stopping;
mod upsmon_fault;
mod warning;
mod watching;

pub use actor::Actor;
pub use beginning::Beginning;
pub use guard::{Guard, tell};
pub use guarded_world::GuardedWorld;
pub use halt::HaltFault;
pub use memory_guarded_world::MemoryGuardedWorld;
pub use memory_machine::{MemoryMachine, MemoryReload, NotedAct};
pub use monitor::run_upsmon;
pub use power_down_flag::FlagFault;
pub use stopping::{Stopping, machines_stop_within, stops_within};
pub use watching::watch_in_turn;
