//! The answers of a world.

use nut_io::Piece;
use nut_server::Config;

/// What comes next. Connections and UPSes have the numbers that the server gave them. The number of a UPS is its place in
/// ups.conf, counted from 0, until a reload.
#[derive(Drop)]
pub enum Next {
    /// This many seconds have passed since the start. A time before the latest one leaves the clock as it is.
    Moment(u64),
    /// A client connects from the address in the piece.
    Open,
    /// The connection with this number sent the bytes in the piece.
    Bytes(u64),
    /// The connection with this number was closed, by its client or by the world.
    Close(u64),
    /// The driver of the UPS with this number was connected, or connected anew.
    DriverUp(usize),
    /// The driver of the UPS with this number sent the bytes in the piece.
    DriverBytes(usize),
    /// The driver of the UPS with this number disconnected.
    DriverDown(usize),
    /// This configuration is to take the place of the one in force.
    Reload(Box<Config>),
    /// Nothing came. Writes that were to come later may be tried again.
    Again,
    /// Nothing more will come.
    End,
}

/// One that a server writes to, with its number.
#[derive(Clone, Copy)]
pub enum Peer {
    /// The client of a connection.
    Connection(u64),
    /// The driver of a UPS.
    Driver(usize),
}

/// An arrival as the world over memory keeps it. That world gives no reload: it would have to give the configuration away
/// and to note it as well, and a configuration can't be copied.
#[derive(Drop)]
pub enum Given {
    /// This many seconds have passed since the start.
    Moment(u64),
    /// A client connects from this address.
    Open(Piece),
    /// The connection with this number sends these bytes.
    Bytes(u64, Piece),
    /// The connection with this number is closed.
    Close(u64),
    /// The driver of the UPS with this number is connected.
    DriverUp(usize),
    /// The driver of the UPS with this number sends these bytes.
    DriverBytes(usize, Piece),
    /// The driver of the UPS with this number disconnects.
    DriverDown(usize),
}

/// What the world over memory notes.
#[derive(Drop)]
pub enum Note {
    /// It gave this arrival.
    Gave(Given),
    /// It took these bytes for a client or a driver.
    Took(Peer, Vec<u8>),
    /// It closed a connection, or the link to a driver.
    Closed(Peer),
}
