//! A world over a reader and a writer, with one client.

ghost use Rattle.std.specs.Prelude.{◌≡◌, ◌+◌, ◌-◌, ◌^◌, ◌<◌, ◌≤◌, ◌⊎◌, true, false, length, take, None, Ok, IfOk, OnErr, is_ok, if◌then◌else◌};
ghost use Rattle.std.specs.Io.KnownBytes.{Appends, Consumes, IsAtEnd, Keeps};
ghost use Rattle.nut_server_spec.specs.Acceptance.{may_read, session_of};
ghost use Rattle.nut_io.specs.Writes.{IsWithin, Takes};
ghost use Rattle.nut_server_loop.specs.Record.{Steps, tells_next, tells_write, arrival_of, late_after, LeadsTo, MayCome};
ghost use Rattle.nut_server_loop.specs.declared.types.Peer.{Peer};
ghost use Rattle.nut_server_loop.specs.declared.types.Peer.TheVariants.{Connection};
ghost use Rattle.nut_server_loop.specs.Streams.{IsRead, no_record};
ghost use Rattle.nut_server_loop.specs.declared.streams.ClientStage.TheVariants.{Ended};

use crate::{Next, World};
use nut_io::{Fault, Piece, Written, read_piece, write_some};
use nut_server::{Refused, Server};
use std::io::{Read, Write};

/// The number of the one connection, the first that a server opens.
const CLIENT: u64 = 1;

/// The address of the one client.
const ADDRESS: &[u8] = b"stdio";

/// The stage of the one client: about to connect, connected, or gone.
#[derive(Clone, Copy, PartialEq, Eq)]
enum ClientStage {
    Arriving,
    Present,
    Ended,
}

/// One of the two streams of the world.
#[derive(Clone, Copy, Debug, PartialEq, Eq)]
pub enum WorldStream {
    /// The reader that the client's bytes come from.
    Input,
    /// The writer that replies go to.
    Output,
}

/// A world with one client and no drivers. The client's bytes come from a reader, and replies are written at once.
///
/// It ends when the client may not be read any more, or at the end of the input. A failed read or write is a fault.
/// The writer isn't flushed, so it should be one without a buffer. The world keeps no record.
#[derive(Drop)]
pub struct StreamWorld<'a, R, T> {
    input: &'a mut R,
    output: &'a mut T,
    stage: ClientStage,
    faults: u64,
    failed: Option<WorldStream>,
}

impl<'a, R: Read, T: Write> StreamWorld<'a, R, T> {
    /// Returns a world whose client is about to connect.
    pub fn new(input: &'a mut R, output: &'a mut T) -> Self
        ensures faults { result.faults ≡ 0 }
        ensures failed { result.failed ≡ None }
    {
        StreamWorld {
            input,
            output,
            stage: ClientStage::Arriving,
            faults: 0,
            failed: None,
        }
    }

    /// Returns the stream that failed last, if one did.
    pub fn failed(&self) -> Option<WorldStream>
        ensures { result ≡ self.now.failed }
    {
        self.failed
    }

    /// Whether nothing more can come of the client: it is gone, or may not be read any more.
    fn is_over(&self, server: &Server) -> bool
        ensures over { result ≡ true → (self.now.stage ≡ Ended) ⊎ (may_read (session_of 1 server.now.sessions) ≡ false) }
        ensures on { result ≡ false → may_read (session_of 1 server.now.sessions) ≡ true }
    {
        self.stage == ClientStage::Ended || !server.may_read(CLIENT)
    }
}

impl<'a, R: Read, T: Write> World for StreamWorld<'a, R, T> {
    ghost log = { λ w. None };

    ghost late = { λ w p. false };

    ghost fault_count = { λ w. w.faults };

    ghost has_ended = { λ w s. w.stage ≡ Ended };

    ghost reached = { λ a b. Unit {0} };

    ghost awaits = { λ a b. Unit {0} };

    ghost reached_self = { λ w. tt };

    ghost reached_on = { λ a b c first second. tt };

    ghost awaits_on = { λ a b c first second. tt };

    fn faults(&self) -> u64 {
        self.faults
    }

    fn next(&mut self, server: &Server, piece: &mut Piece) -> Result<Next, Fault>
        requires { self.old.faults < 2 ^ 64 - 1 }
        ensures ok { IfOk result (λ n. no_record ≡ tells_next n piece.new.items no_record) }
        ensures err { OnErr result (no_record ≡ no_record) }
        ensures read { IfOk result (λ n. MayCome n server.now) }
        ensures ended { result ≡ Ok Next.End → self.new.stage ≡ Ended }
        ensures none_late { (p : Peer) → false ≡ false }
        ensures counted { self.new.faults ≡ (if is_ok result then self.old.faults else self.old.faults + 1) }
        ensures awaits { IfOk result (λ n. LeadsTo (arrival_of n piece.new.items) (Unit {0}) (Unit {0})) }
        ensures reached { OnErr result (Unit {0}) }
        ensures gives { IfOk result (λ n. IsRead n piece.new.items (R.remaining self.old.input.now) (R.remaining self.new.input.now)) }
        ensures gives_none { OnErr result (Keeps (R.remaining self.old.input.now) (R.remaining self.new.input.now)) }
        ensures at_end { result ≡ Ok Next.End → (self.old.stage ≡ Ended) ⊎ (may_read (session_of 1 server.now.sessions) ≡ false)
            ⊎ IsAtEnd (R.remaining self.new.input.now) }
    {
        if self.stage == ClientStage::Arriving {
            self.stage = ClientStage::Present;
            piece.clear();
            let _ = piece.try_extend_from_slice(ADDRESS);
            return Ok(Next::Open);
        }
        if self.is_over(server) {
            self.stage = ClientStage::Ended;
            return Ok(Next::End);
        }
        match hear(self.input, piece) {
            Ok(true) => Ok(Next::Bytes(CLIENT)),
            Ok(false) => {
                self.stage = ClientStage::Ended;
                Ok(Next::End)
            }
            Err(_) => {
                self.failed = Some(WorldStream::Input);
                self.faults += 1;
                Err(Fault)
            }
        }
    }

    fn told(&mut self, _server: &Server, _answer: &Result<(), Refused>) {}

    fn write(&mut self, _c: u64, bytes: &[u8]) -> Result<Written, Fault>
        requires few { self.old.faults < 2 ^ 64 - 1 }
        requires some { 0 < length bytes.now }
        ensures step { Steps (λ w. w.faults) (λ w. no_record) (λ a b. Unit {0}) (λ w. tells_write w (Connection _c) bytes.now)
            self.old result self.new }
        ensures within { IfOk result (λ w. IsWithin w (length bytes.now)) }
        ensures late { IfOk result (λ w. (p : Peer) → false ≡ late_after w (Connection _c) (λ _. false) p) }
        ensures took { IfOk result (λ w. Takes w bytes.now (T.contents self.old.output.now) (T.contents self.new.output.now)) }
        ensures took_none { OnErr result (Keeps (T.contents self.old.output.now) (T.contents self.new.output.now)) }
    {
        match offer(self.output, bytes) {
            Ok(n) => Ok(Written::Took(n)),
            Err(_) => {
                self.failed = Some(WorldStream::Output);
                self.faults += 1;
                Err(Fault)
            }
        }
    }

    fn write_driver(&mut self, _u: usize, _bytes: &[u8]) -> Result<Written, Fault> {
        self.faults += 1;
        Err(Fault)
    }

    fn close(&mut self, _c: u64) -> Result<(), Fault> {
        self.stage = ClientStage::Ended;
        Ok(())
    }

    fn close_driver(&mut self, _u: usize) -> Result<(), Fault> {
        Ok(())
    }
}

/// Reads a piece, and returns whether bytes came: none come at the end of the input.
fn hear<R: Read>(input: &mut R, piece: &mut Piece) -> Result<bool, Fault>
    ensures came { result ≡ Ok true → Consumes (R.remaining input.old) (R.remaining input.new) piece.new.items }
    ensures none { result ≡ Ok false → Keeps (R.remaining input.old) (R.remaining input.new) }
    ensures end { result ≡ Ok false → IsAtEnd (R.remaining input.new) }
    ensures err { OnErr result (Keeps (R.remaining input.old) (R.remaining input.new)) }
{
    match read_piece(input, piece) {
        Ok(n) => Ok(n > 0),
        Err(_) => Err(Fault),
    }
}

/// Writes at least one byte, and returns how many.
fn offer<T: Write>(output: &mut T, bytes: &[u8]) -> Result<usize, Fault>
    ensures some { IfOk result (λ n. 0 < n) }
    ensures bound { IfOk result (λ n. n ≤ length bytes.now) }
    ensures ok { IfOk result (λ n. Appends (T.contents output.old) (T.contents output.new) (take n bytes.now)) }
    ensures err { OnErr result (Keeps (T.contents output.old) (T.contents output.new)) }
{
    match write_some(output, bytes) {
        Ok(n) if n > 0 => Ok(n),
        _ => Err(Fault),
    }
}
