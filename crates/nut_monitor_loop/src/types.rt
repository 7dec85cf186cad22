//! What a world gives, and what a world over memory notes.

use nut_io::Piece;
use nut_monitor::Notice;

/// What a world gives next. A link has the number of its MONITOR line, from 0 on.
#[derive(Clone, Copy)]
pub enum Next {
    /// This many seconds have passed since the start.
    Moment(u64),
    /// The link with this number was made.
    Linked(usize),
    /// The server of the link with this number sent the bytes that are now in the piece.
    LinkBytes(usize),
    /// The link with this number was lost.
    LinkLost(usize),
    /// Nothing came. Links on which a write was late may be written to again.
    Again,
    /// Nothing more will come.
    End,
}

/// An event, with its bytes, that a world over memory will give or has given.
#[derive(Drop)]
pub enum Given {
    /// This many seconds have passed since the start.
    Moment(u64),
    /// The link with this number was made.
    Linked(usize),
    /// The server of the link with this number sent these bytes.
    LinkBytes(usize, Piece),
    /// The link with this number was lost.
    LinkLost(usize),
}

/// What a world over memory notes.
#[derive(Drop)]
pub enum Note {
    /// It gave this event.
    Gave(Given),
    /// It took these bytes, offered on this link.
    Took(usize, Vec<u8>),
    /// It closed this link.
    Closed(usize),
    /// It was handed this notice.
    Told(Notice),
}
