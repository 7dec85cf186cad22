//! The world of a server over sockets: clients over TCP, and drivers on Unix sockets.
#![tactic(auto)]

mod audit;
mod batches;
mod client;
mod clients;
mod deed_report;
mod denials;
mod door;
mod driver;
mod drivers;
mod dual_stack;
mod hindrances;
mod keepalive;
mod laws;
mod leaving;
mod listeners;
mod login;
mod mio_world;
mod reloader;
mod report;
mod sockets;
mod source;
mod stall;

pub use driver::Driver;
pub use drivers::Drivers;
pub use laws::one_list_waits;
pub use listeners::{Listeners, Missing};
pub use mio_world::MioWorld;
pub use reloader::Reloader;
