//! The events of a monitor: its inputs.

/// An event: one input of a monitor. A link has the number of its MONITOR line, from 0 on.
#[derive(Clone, Copy, Drop)]
pub enum Event<'a> {
    /// This many seconds have passed since the start. A time before the latest one leaves the clock as it is.
    Moment(u64),
    /// A link was made: its server accepted the connection.
    Linked(usize),
    /// A piece of the bytes that the server of a link sends, of at most [`PIECE_MAX`](nut_words::PIECE_MAX) bytes.
    LinkBytes(usize, &'a [u8]),
    /// A link was lost.
    LinkLost(usize),
    /// The server of a link took this many of the bytes that wait for it.
    LinkTook(usize, usize),
}
