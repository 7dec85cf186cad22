//! Bytes that were read from a connection and haven't been used yet.
ghost use Rattle.std.specs.Prelude.{◌≡◌, ◌⊎◌, ◌<◌, ◌≤◌, [], IfSome, None, drop, false, length, true};
ghost use Rattle.std.specs.Io.KnownBytes.{prepend_known};
ghost use Rattle.nut_client.specs.inside.Unread.{IsEnded, steps_left};
ghost use Rattle.nut_words.specs.Quoting.{Begins};

use crate::stream::{Moved, Stream};
use arrayvec::ArrayVec;
use memchr::memchr;
use nut_words::PIECE_MAX;
use std::marker::Model;

/// Bytes that were read from a connection and haven't been used yet.
#[derive(Drop)]
pub(crate) struct Unread {
    bytes: ArrayVec<u8, PIECE_MAX>,
    used: usize,
}

impl Model for Unread {
    ghost use Rattle.std.specs.Prelude.{◌≤◌, List, ℕ, drop};
    ghost use Rattle.arrayvec.specs.ArrayVec.{array_vec_len};

    ghost Value = { List ℕ };

    ghost view = { λ u. drop u.used u.bytes.items };

    ghost invariant = { λ u. u.used ≤ array_vec_len u.bytes };
}

impl Unread {
    pub(crate) fn new() -> Unread
        ensures { result ≡ [] }
    {
        Unread {
            bytes: ArrayVec::new(),
            used: 0,
        }
    }

    fn as_slice(&self) -> &[u8]
        ensures { result.now ≡ self.now }
    {
        &self.bytes.as_slice()[self.used..]
    }

    /// Returns the bytes through the first line feed, or all of them if there is none, and whether there is one.
    pub(crate) fn line_part(&self) -> (&[u8], bool)
        ensures part { Begins result.0.now self.now }
        ensures ended { IsEnded result.1 result.0.now }
        ensures some { 0 < length self.now → 0 < length result.0.now }
    {
        let bytes = self.as_slice();
        match memchr(b'\n', bytes) {
            Some(at) => (&bytes[..at + 1], true),
            None => (bytes, false),
        }
    }

    /// Drops the first `n` bytes, or all if there are fewer.
    pub(crate) fn take(&mut self, n: usize)
        ensures { self.new ≡ drop n self.old }
    {
        self.used = self.used.saturating_add(n).min(self.bytes.len());
    }

    /// Reads from the connection if nothing is unread. It waits for at least one byte. Returns whether there is one; if
    /// not, the connection is lost.
    #[tactic(auto, using(std::proofs::lemmas::Grind::common_steps))]
    pub(crate) fn fill<S: Stream>(&mut self, stream: &mut S) -> bool
        ensures same { prepend_known self.old (S.remaining stream.old) ≡ prepend_known self.new (S.remaining stream.new) }
        ensures some { result ≡ true → 0 < length self.new }
        ensures none { result ≡ false → self.new ≡ [] }
        ensures reads { (self.new ≡ self.old) ⊎ ((self.old ≡ []) × (length self.new ≤ PIECE_MAX)) }
        ensures taken { S.taken stream.new ≡ S.taken stream.old }
        ensures lost { result ≡ false → S.has_ended stream.new }
        ensures lowers { result ≡ true → steps_left (S.calls_left stream.new) self.new ≤ steps_left (S.calls_left stream.old) self.old }
    {
        if self.used < self.bytes.len() {
            return true;
        }
        match read_some(stream) {
            Some(bytes) => {
                *self = Unread { bytes, used: 0 };
                true
            }
            None => false,
        }
    }
}

/// Reads from the connection. It waits for at least one byte. `None` if the connection is lost.
#[tactic(auto, using(std::proofs::lemmas::Grind::common_steps))]
fn read_some<S: Stream>(stream: &mut S) -> Option<ArrayVec<u8, PIECE_MAX>>
    ensures some { IfSome result (λ bytes. S.remaining stream.old ≡ prepend_known bytes.items (S.remaining stream.new)) }
    ensures full { IfSome result (λ bytes. 0 < length bytes.items) }
    ensures none { result ≡ None → S.remaining stream.new ≡ S.remaining stream.old }
    ensures taken { S.taken stream.new ≡ S.taken stream.old }
    ensures lost { result ≡ None → S.has_ended stream.new }
    ensures lowers { IfSome result (λ _. S.calls_left stream.new < S.calls_left stream.old) }
{
    loop {
        let mut bytes = ArrayVec::from([0; PIECE_MAX]);
        match stream.read(bytes.as_mut_slice()) {
            Moved::Bytes(n) => {
                bytes.truncate(n);
                return Some(bytes);
            }
            Moved::Again => {}
            Moved::Lost => return None,
        }
    }
}
