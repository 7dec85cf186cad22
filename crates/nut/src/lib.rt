//! The library of Mulgefa: a server of UPSes, its monitors, the loops that run them, and rooms of both in memory.
//!
//! A [`Config`] is made from the files of a server, which [`read_ups`], [`read_users`] and [`read_upsd`] read, and a
//! [`Server`] from it. [`serve`] runs the server over a [`World`], which brings what clients and drivers send and carries
//! what they are sent. [`MemoryWorld`] has a list of arrivals and notes all that happens, [`StreamWorld`] has one client
//! over a reader and a writer, and [`MioWorld`] has sockets. A [`Monitor`] is made from the [`MonConfig`] that
//! [`read_upsmon`] reads, and [`watch`] runs it over a [`MonWorld`]: [`MemoryMonWorld`] or [`MioMonWorld`]. A [`Fleet`]
//! joins a server and monitors by pipes in memory, and plays steps. [`run_stdio`] and [`run_nutsim`] are two of the
//! programs, over any streams.
//!
//! Nothing is defined here. Each item comes from a crate below, and its promise stands there beside its code. A caller whose own
//! clauses cite definitions names the crates that have these, too.
#![tactic(auto)]

/// Reads ups.conf, upsd.users, upsd.conf and upsmon.conf.
pub use nut_conf::{read_ups, read_upsd, read_upsmon, read_users};

/// What these files set, and the first fault of a file.
pub use nut_conf::{ConfFault, FaultKind, MonConfig, UpsConf, UpsdConf, UsersConf};

/// A server, which handles arrivals one by one.
pub use nut_server::{Arrival, Config, Place, Refused, Server, ServerFault};

/// What the worlds of a server and of a monitor share.
pub use nut_io::{Fault, Piece, ServeFault, Written};

/// The loop of a server, and what a world is to it.
pub use nut_server_loop::{Next, World, serve};

/// A server's world over memory, and its loop.
pub use nut_server_loop::{Given, MemoryWorld, Note, Peer, serve_memory};

/// A server's world of one client over a reader and a writer.
pub use nut_server_loop::{StreamWorld, WorldStream};

/// A server's world over sockets.
pub use nut_server_sockets::{Drivers, Listeners, MioWorld, Reloader};

/// A monitor, which handles events one by one.
pub use nut_monitor::{Event, Monitor, MonitorFault, Notice, Phase};

/// Which notice a [`Notice`] is.
pub use nut_conf::Notice as NoticeKind;

/// The loop of a monitor, and what a world is to it.
pub use nut_monitor_loop::{MonWorld, Next as MonNext, watch};

/// A monitor's world over memory, and its loop.
pub use nut_monitor_loop::{Given as MonGiven, MemoryMonWorld, Note as MonNote, watch_memory};

/// A monitor's world over sockets.
pub use nut_monitor_sockets::{Herald, MioMonWorld, NewLinks};

/// What the worlds over sockets report to an operator, and the stream for that.
pub use nut_log::LogStream;
pub use nut_poll::{ErrorLines, Reports};

/// A server and monitors, joined by pipes in memory.
pub use nut_play::{Fleet, FleetFault, FleetLog, Logged, News};

/// A step of a fleet, and its reader.
pub use nut_play::{Step, StepFault, read_step};

/// `upsd --stdio`, over any reader and writers.
pub use nut_upsd::run_stdio;

/// `nutsim`, over any writers.
pub use nut_simulator::run_nutsim;
