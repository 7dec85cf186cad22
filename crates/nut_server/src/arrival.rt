//! The arrivals: the inputs of a server.

use crate::config::Config;

/// One input of a server. Connections are numbered from 1 in the order in which they are opened. The number of a UPS,
/// and of its driver, is its place in the first ups.conf, counted from 0. A reload keeps it, and gives a new UPS the
/// least number that no UPS has.
#[derive(Drop)]
pub enum Arrival<'a> {
    /// This many seconds have passed since the start. A time before the latest one leaves the clock as it is.
    Moment(u64),
    /// A client connects from this address, of 1 to [`ADDRESS_MAX`](nut_server_spec::ADDRESS_MAX) bytes that may stand in a
    /// bare word.
    Open(&'a [u8]),
    /// A piece of the bytes that a connection sends, of at most [`PIECE_MAX`](nut_words::PIECE_MAX) bytes.
    Bytes(u64, &'a [u8]),
    /// A connection took this many of the bytes that waited for it.
    Took(u64, usize),
    /// A connection was closed.
    Close(u64),
    /// A write to a connection failed, which closes it.
    WriteFailed(u64),
    /// The driver of a UPS was connected, or connected anew.
    DriverUp(usize),
    /// A piece of the bytes that a driver sends, of at most [`PIECE_MAX`](nut_words::PIECE_MAX) bytes.
    DriverBytes(usize, &'a [u8]),
    /// A driver took this many of the bytes that waited for it.
    DriverTook(usize, usize),
    /// A driver was disconnected.
    DriverDown(usize),
    /// This configuration replaces the one in force.
    Reload(Box<Config>),
}
