//! A server of UPSes: it handles one arrival at a time, and answers its clients and asks its drivers.
#![tactic(auto)]

mod access;
mod address;
mod answer;
mod arrival;
mod changes;
mod config;
mod connection;
mod connections;
mod credential;
mod decision;
mod deeds;
mod device;
mod effect;
mod limits;
mod lists;
mod numbering;
mod plain;
mod queries;
mod reloading;
mod row;
mod scene;
mod server;
mod setting;
mod text;
mod tracked;
mod unread;

pub use arrival::Arrival;
pub use config::{Config, Ups};
pub use deeds::{Act, Deed};
pub use device::silence_before_ping;
pub use nut_server_spec::{Place, Refused};
pub use server::{Ended, Server, ServerFault};
pub use unread::{UNREAD_MAX, Unread};
