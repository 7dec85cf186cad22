//! The bytes of one arrival.

ghost use Rattle.std.specs.Prelude.{◌≡◌, ◌≤◌, ◌+◌, ◌↔◌, ◌==◌, [], ◌++◌, length, take, IsOk, OnOk, OnErr};

use nut_words::{Full, PIECE_MAX};
use std::marker::Model;

/// The bytes of one arrival: at most [`PIECE_MAX`]. They lie in the value itself, and what lies behind them is left as it is.
/// So a read into a piece, and clearing it, needn't write over its room.
#[derive(Drop)]
pub struct Piece {
    pub(crate) room: [u8; PIECE_MAX],
    pub(crate) len: usize,
}

impl Model for Piece {
    ghost use Rattle.std.specs.Prelude.{◌≤◌, take};
    ghost use Rattle.nut_io.specs.Pieces.{Bytes};
    ghost use Rattle.nut_words.specs.declared.limits.TheConstants.{PIECE_MAX};

    ghost Value = { Bytes };

    ghost view = { λ p. record { items = take p.len p.room } };

    ghost invariant = { λ p. p.len ≤ PIECE_MAX };
}

impl Piece {
    /// Returns a piece without bytes.
    pub fn new() -> Piece
        ensures { result.items ≡ [] }
    {
        Piece {
            room: [0; PIECE_MAX],
            len: 0,
        }
    }

    /// Returns how many bytes a piece has room for: [`PIECE_MAX`].
    pub fn capacity(&self) -> usize
        ensures { result ≡ PIECE_MAX }
    {
        PIECE_MAX
    }

    /// Returns how many bytes it has.
    pub fn len(&self) -> usize
        ensures value { result ≡ length self.now.items }
        ensures fits { result ≤ PIECE_MAX }
    {
        self.len
    }

    /// Whether it has no byte.
    pub fn is_empty(&self) -> bool
        ensures { result ≡ (length self.now.items == 0) }
    {
        self.len == 0
    }

    /// Returns its bytes.
    pub fn as_slice(&self) -> &[u8]
        ensures value { result.now ≡ self.now.items }
        ensures fits { length result.now ≤ PIECE_MAX }
    {
        &self.room[..self.len]
    }

    /// Removes all bytes.
    pub fn clear(&mut self)
        ensures { self.new.items ≡ [] }
    {
        self.len = 0;
    }

    /// Keeps the first bytes, at most this many.
    pub fn truncate(&mut self, len: usize)
        ensures { self.new.items ≡ take len self.old.items }
    {
        self.len = self.len.min(len);
    }

    /// Appends bytes. If they don't fit, the piece stays as it is.
    pub fn try_extend_from_slice(&mut self, bytes: &[u8]) -> Result<(), Full>
        ensures fits { IsOk result ↔ (length self.old.items + length bytes.now ≤ PIECE_MAX) }
        ensures ok { OnOk result (self.new.items ≡ self.old.items ++ bytes.now) }
        ensures err { OnErr result (self.new ≡ self.old) }
    {
        if bytes.len() > PIECE_MAX - self.len {
            return Err(Full);
        }
        let end = self.len + bytes.len();
        self.room[self.len..end].copy_from_slice(bytes);
        self.len = end;
        Ok(())
    }
}
