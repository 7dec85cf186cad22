//! The connection to a server, as a tool sees it.
ghost use Rattle.std.specs.Prelude.{◌≡◌, ◌⊎◌, ◌<◌, length, ⊤, ℕ, List, [], Option, Some, None, false, true};
ghost use Rattle.nut_client.specs.Stream.{Gave, IsWithin, LowersByRead, LowersByWrite, Took, moved_of};
ghost use Rattle.nut_client.specs.declared.stream.Moved.TheVariants.{Again, Lost};

use std::alloc::Global;
use std::io;
use std::io::{ErrorKind, Read, Write};

/// The result of a read or a write.
#[derive(Clone, Copy)]
pub enum Moved {
    /// This many bytes were moved, from the front: at least one, if any were offered.
    Bytes(usize),
    /// No byte was moved, and it can be tried again.
    Again,
    /// The connection or the output has ended or failed, and the call isn't tried again. No byte counts as moved,
    /// though a [`ByteStream`] whose flush failed may have passed some on.
    Lost,
}

/// The connection to a server.
pub trait Stream {
    /// The bytes that the server will still send, if they are known.
    ghost remaining: { Self → Option (List ℕ) };

    /// The bytes that the server took so far, if they are known.
    ghost taken: { Self → Option (List ℕ) };

    /// It has ended or failed.
    ghost has_ended: { Self → Type 0 };

    /// How many more reads can move bytes, and how many more calls can be tried again, at most. So whoever reads until it
    /// ends, or tries again for as long as it may, returns.
    ghost calls_left: { Self → ℕ };

    /// Reads some of the bytes that the server sent. The place for them has room for at least one. It may wait.
    fn read(&mut self, place: &mut [u8]) -> Moved
        requires room { 0 < length place.old }
        ensures gave { Gave result place.new (remaining self.old) (remaining self.new) }
        ensures kept { taken self.new ≡ taken self.old }
        ensures lost { result ≡ Lost → has_ended self.new }
        ensures lowers { LowersByRead result (calls_left self.old) (calls_left self.new) };

    /// Sends some of these bytes. It may wait.
    fn write(&mut self, bytes: &[u8]) -> Moved
        ensures took { Took result bytes.now (taken self.old) (taken self.new) }
        ensures kept { remaining self.new ≡ remaining self.old }
        ensures lost { result ≡ Lost → has_ended self.new }
        ensures lowers { LowersByWrite result (calls_left self.old) (calls_left self.new) };
}

/// A connection over a socket, a pipe or the like. Which bytes it carries isn't known to the definitions. It takes
/// `u64::MAX` calls, which no run makes, and then counts as lost.
#[derive(Drop)]
pub struct ByteStream<T> {
    pub(crate) inner: T,
    calls_left: u64,
}

impl<T> ByteStream<T> {
    /// Makes a connection over this.
    pub fn new(inner: T) -> Self
        ensures { result.inner ≡ inner }
    {
        ByteStream {
            inner,
            calls_left: u64::MAX,
        }
    }

    /// Counts a call. Returns whether it may be made.
    fn count_call(&mut self) -> bool
        ensures { result ≡ true → self.new.calls_left < self.old.calls_left }
    {
        match self.calls_left.checked_sub(1) {
            Some(left) => {
                self.calls_left = left;
                true
            }
            None => false,
        }
    }
}

/// Returns what a read or a write of at most `most` bytes has moved if this is its result.
fn what_moved(count: io::Result<usize>, most: usize) -> Moved
    ensures exact { result ≡ moved_of count most }
    ensures within { IsWithin result most }
{
    match count {
        Ok(0) => Moved::Lost,
        Ok(n) => Moved::Bytes(n.min(most)),
        Err(error) => match error.kind() {
            ErrorKind::Interrupted => Moved::Again,
            // A read or a write that a limit of time ends gives `WouldBlock`: the server is given up.
            _ => Moved::Lost,
        },
    }
}

impl<T: Read + Write> Stream for ByteStream<T> {
    ghost remaining = { λ s. None };

    ghost taken = { λ s. None };

    ghost has_ended = { λ s. ⊤ };

    ghost calls_left = { λ s. s.calls_left };

    fn read(&mut self, place: &mut [u8]) -> Moved {
        if !self.count_call() {
            return Moved::Lost;
        }
        let count = self.inner.read(place);
        what_moved(count, place.len())
    }

    fn write(&mut self, bytes: &[u8]) -> Moved {
        if !self.count_call() {
            return Moved::Lost;
        }
        let moved = what_moved(self.inner.write(bytes), bytes.len());
        match self.inner.flush() {
            Ok(()) => moved,
            Err(_) => Moved::Lost,
        }
    }
}

/// A connection in memory to a server that sends these bytes, in pieces of at most the given length, and then ends. It
/// takes what is sent to it in pieces of the same length.
#[derive(Drop)]
pub struct MemoryStream<'a> {
    rest: &'a [u8],
    most: usize,
    asked: Vec<u8>,
    is_lost: bool,
}

impl<'a> MemoryStream<'a> {
    /// Makes a connection to a server that sends these bytes, in pieces of at most `most`, or of 1 if that is 0.
    pub fn new(alloc: Global, bytes: &'a [u8], most: usize) -> Self
        ensures remaining { result.rest.now ≡ bytes.now }
        ensures pieces { result.most ≡ most }
        ensures taken { result.asked.items ≡ [] }
        ensures whole { result.is_lost ≡ false }
    {
        MemoryStream {
            rest: bytes,
            most,
            asked: Vec::new(alloc),
            is_lost: false,
        }
    }

    /// Whether memory for what was sent couldn't be allocated. The connection is lost then.
    pub fn is_lost(&self) -> bool
        ensures { result ≡ self.now.is_lost }
    {
        self.is_lost
    }

    /// Returns what was sent to the server.
    pub fn asked(&self) -> &[u8]
        ensures { result.now ≡ self.now.asked.items }
    {
        self.asked.as_slice()
    }
}

impl<'a> Stream for MemoryStream<'a> {
    ghost remaining = { λ s. Some s.rest.now };

    ghost taken = { λ s. Some s.asked.items };

    // It ends after the last byte, or when memory cannot be allocated.
    ghost has_ended = { λ s. (s.rest.now ≡ []) ⊎ (s.is_lost ≡ true) };

    ghost calls_left = { λ s. length s.rest.now };

    #[tactic(auto, using(std::proofs::lemmas::Grind::common_steps))]
    fn read(&mut self, place: &mut [u8]) -> Moved
        requires room { 0 < length place.old }
        ensures gave { Gave result place.new (Some self.old.rest.now) (Some self.new.rest.now) }
        ensures kept { Some self.new.asked.items ≡ Some self.old.asked.items }
        ensures lost { result ≡ Lost → (self.new.rest.now ≡ []) ⊎ (self.new.is_lost ≡ true) }
        ensures lowers { LowersByRead result (length self.old.rest.now) (length self.new.rest.now) }
        ensures surely { result ≡ Again → ⊥ }
    {
        let [_, ..] = self.rest else {
            return Moved::Lost;
        };
        let n = self.rest.len().min(place.len()).min(self.most.max(1));
        let (part, rest) = self.rest.split_at(n);
        place[..n].copy_from_slice(part);
        self.rest = rest;
        Moved::Bytes(n)
    }

    fn write(&mut self, bytes: &[u8]) -> Moved
        ensures took { Took result bytes.now (Some self.old.asked.items) (Some self.new.asked.items) }
        ensures kept { Some self.new.rest.now ≡ Some self.old.rest.now }
        ensures lost { result ≡ Lost → (self.new.rest.now ≡ []) ⊎ (self.new.is_lost ≡ true) }
        ensures lowers { LowersByWrite result (length self.old.rest.now) (length self.new.rest.now) }
        ensures surely { result ≡ Again → ⊥ }
    {
        let n = bytes.len().min(self.most.max(1));
        if self.asked.extend_from_slice(&bytes[..n]).is_err() {
            self.is_lost = true;
            return Moved::Lost;
        }
        Moved::Bytes(n)
    }
}
