//! What dummy-ups runs: the dummy driver on its socket.
#![tactic(auto)]

mod driver_socket;
mod dummy;
mod dummy_driver;
mod listen_fault;
mod nuts_options;
mod socket_lock;

pub use dummy::run_dummy_ups;
