//! One end of a connection, whose reads and writes don't block.

ghost use Rattle.std.specs.Prelude.{◌≡◌, ◌≢◌, length, true, false};
ghost use Rattle.nut_io.specs.Writes.{IsWithin, Takes};
ghost use Rattle.nut_poll.specs.Hearing.{IsHeard};
ghost use Rattle.nut_poll.specs.declared.link.Heard.TheVariants as heard;
ghost use Rattle.nut_words.specs.declared.limits.TheConstants.{PIECE_MAX};

use mio::event::Event;
use nut_io::{Piece, Written, read_piece, write_some};
use std::io::{ErrorKind, Read, Write};

/// What a read found.
#[derive(Clone, Copy, Debug, PartialEq, Eq)]
pub enum Heard {
    /// Bytes, and no more are there now.
    All,
    /// Bytes, and there may be more.
    Part,
    /// Nothing is there now.
    Nothing,
    /// The other end closed the connection, or it failed.
    End,
}

/// One end of a connection, and what is known of its readiness. The stream returns `WouldBlock` if it would have to
/// wait, and the poll reports once when that changes.
#[derive(Drop)]
pub struct Link<S> {
    stream: S,
    /// Whether the stream may take a write.
    takes: bool,
    /// Whether a read that is short may have left something, of which no further event comes.
    reads_on: bool,
    /// Whether the other end sent urgent data. A read stops before it, and no event comes of what follows it.
    is_urgent: bool,
    /// Whether a read may find something: an event came, or a read left something, and no read has found since that no more is
    /// there.
    has_more: bool,
}

impl<S: Read + Write> Link<S> {
    /// Returns one end of a connection that was just made.
    pub fn new(stream: S) -> Link<S>
        ensures { result.has_more ≡ false }
    {
        Link {
            stream,
            takes: true,
            reads_on: false,
            is_urgent: false,
            has_more: false,
        }
    }

    /// Returns one end of a connection over a Unix socket that was just made. Linux ends a read there behind a message with
    /// descriptors or credentials, so it is read until nothing is left.
    pub fn local(stream: S) -> Link<S>
        ensures reads_on { result.reads_on ≡ true }
        ensures more { result.has_more ≡ false }
    {
        Link {
            stream,
            takes: true,
            reads_on: true,
            is_urgent: false,
            has_more: false,
        }
    }

    /// Returns the stream.
    pub fn stream(&self) -> &S {
        &self.stream
    }

    /// Whether a read may find something, if only that the other end has ended: an event came, or a read left something, and
    /// no read has found since that no more is there.
    pub fn has_more(&self) -> bool
        ensures { result ≡ self.now.has_more }
    {
        self.has_more
    }

    /// Reads what is there, up to a piece. Less than a piece means that all was read, except on a Unix socket, or if the
    /// other end has ended or sent urgent data. Urgent data itself is skipped.
    pub fn hear(&mut self, piece: &mut Piece) -> Heard
        ensures heard { IsHeard result piece.new.items (S.remaining self.old.stream) (S.remaining self.new.stream) }
        ensures left { self.old.reads_on ≡ true → result ≢ heard.All }
        ensures short { result ≡ heard.All → (length piece.new.items ≢ PIECE_MAX) × (self.old.is_urgent ≡ false) }
        ensures part { result ≡ heard.Part → self.new.has_more ≡ true }
        ensures rest { result ≢ heard.Part → self.new.has_more ≡ false }
        ensures goes_on { self.new.reads_on ≡ self.old.reads_on }
    {
        let heard = match read_piece(&mut self.stream, piece) {
            Ok(0) => Heard::End,
            Ok(n) if n == piece.capacity() || self.reads_on || self.is_urgent => Heard::Part,
            Ok(_) => Heard::All,
            Err(error) if error.kind() == ErrorKind::WouldBlock => {
                self.is_urgent = false;
                Heard::Nothing
            }
            Err(_) => Heard::End,
        };
        self.has_more = heard == Heard::Part;
        heard
    }

    /// Offers at least one byte, and returns the outcome.
    pub fn offer(&mut self, bytes: &[u8]) -> Written
        ensures within { IsWithin result (length bytes.now) }
        ensures takes { Takes result bytes.now (S.contents self.old.stream) (S.contents self.new.stream) }
        ensures goes_on { (self.new.reads_on ≡ self.old.reads_on) × (self.new.has_more ≡ self.old.has_more) }
    {
        if !self.takes {
            return Written::Later;
        }
        match write_some(&mut self.stream, bytes) {
            Ok(0) => Written::Failed,
            Ok(n) => Written::Took(n),
            Err(error) if error.kind() == ErrorKind::WouldBlock => {
                self.takes = false;
                Written::Later
            }
            Err(_) => Written::Failed,
        }
    }

    /// Notes an event of the stream.
    pub fn note(&mut self, event: &Event)
        ensures goes_on { self.old.reads_on ≡ true → self.new.reads_on ≡ true }
        ensures more { self.new.has_more ≡ true }
    {
        self.has_more = true;
        if event.is_writable() || event.is_write_closed() || event.is_error() {
            self.takes = true;
        }
        if event.is_read_closed() || event.is_error() {
            self.reads_on = true;
        }
        if event.is_priority() {
            self.is_urgent = true;
        }
    }
}
