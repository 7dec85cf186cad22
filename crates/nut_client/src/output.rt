//! What a tool prints to.
ghost use Rattle.std.specs.Prelude.{◌≡◌, ℕ, List, Option, false, true};
ghost use Rattle.std.specs.Io.KnownBytes.{Keeps};
ghost use Rattle.nut_client.specs.Output.{Advances, MovedNone, Wrote};
ghost use Rattle.nut_client.specs.declared.stream.Moved.TheVariants.{Lost};

use crate::stream::Moved;
use std::io::{ErrorKind, Write};

/// What a tool prints to: its output or its error output.
pub trait Output {
    /// The bytes that it took so far, if they are known.
    ghost contents: { Self → Option (List ℕ) };

    /// It has failed: not all that was written to it so far arrived.
    ghost has_failed: { Self → Type 0 };

    /// How many more writes can be tried again, at most. So whoever tries again for as long as it may returns.
    ghost tries_left: { Self → ℕ };

    /// Writes some of these bytes. Returns how many, or why it wrote none.
    fn write(&mut self, bytes: &[u8]) -> Moved
        ensures wrote { Wrote result bytes.now (contents self.old) (contents self.new) }
        ensures lost { result ≡ Lost → has_failed self.new }
        ensures lowers { Advances result (tries_left self.old) (tries_left self.new) };

    /// Passes on what was written. Returns whether all of it arrived.
    fn flush(&mut self) -> bool
        ensures kept { Keeps (contents self.old) (contents self.new) }
        ensures well { result ≡ true → ¬ has_failed self.new }
        ensures lost { result ≡ false → has_failed self.new };
}

/// An output over a writer, such as a standard stream, or a `Vec` in a test. It has failed once a write or a flush of
/// the writer failed, or once it was to be tried again more than `u64::MAX` times, which no run does.
#[derive(Drop)]
pub struct WriterOutput<W> {
    writer: W,
    has_failed: bool,
    tries_left: u64,
}

impl<W> WriterOutput<W> {
    /// Makes an output over this writer.
    pub fn new(writer: W) -> Self
        ensures writer { result.writer ≡ writer }
        ensures whole { result.has_failed ≡ false }
    {
        WriterOutput {
            writer,
            has_failed: false,
            tries_left: u64::MAX,
        }
    }

    /// Notes that a write failed.
    fn fail(&mut self) -> Moved
        ensures lost { result ≡ Lost }
        ensures failed { self.new ≡ record self.old { has_failed = true } }
    {
        self.has_failed = true;
        Moved::Lost
    }

    /// Notes that a write wrote nothing, and may be tried again.
    fn retry(&mut self) -> Moved
        ensures lowers { Advances result self.old.tries_left self.new.tries_left }
        ensures kept { self.new.writer ≡ self.old.writer }
        ensures lost { result ≡ Lost → self.new.has_failed ≡ true }
        ensures none { MovedNone result }
    {
        match self.tries_left.checked_sub(1) {
            Some(left) => {
                self.tries_left = left;
                Moved::Again
            }
            None => self.fail(),
        }
    }
}

impl<W: Write> Output for WriterOutput<W> {
    ghost contents = { λ o. W.contents o.writer };

    ghost has_failed = { λ o. o.has_failed ≡ true };

    ghost tries_left = { λ o. o.tries_left };

    #[tactic(auto, using(crate::proofs::Writing::keeps_none))]
    fn write(&mut self, bytes: &[u8]) -> Moved {
        match self.writer.write(bytes) {
            Ok(0) => self.fail(),
            Ok(n) => Moved::Bytes(n),
            Err(error) if error.kind() == ErrorKind::Interrupted => self.retry(),
            Err(_) => self.fail(),
        }
    }

    fn flush(&mut self) -> bool {
        if self.writer.flush().is_err() {
            self.has_failed = true;
        }
        !self.has_failed
    }
}
