//! A connection over TCP whose server has a limited time for each answer.
ghost use Rattle.std.specs.Prelude.{◌≡◌, ⊤, None, true};

use crate::stream::{ByteStream, Moved, Stream};
use std::io;
use std::io::ErrorKind;
use std::net::{Net, OpenStream};
use std::time::{Clock, Duration, Instant};

/// For how many seconds a server may take a query and send a line that answers it.
const ANSWER_SECONDS: u64 = 10;

/// A connection over TCP. It is lost if the server takes more than 10 seconds to take a query and to send the line that
/// answers it, or the next line of a list, however it spreads its bytes over them.
#[derive(Drop)]
pub struct TimedStream<'r, R: Net> {
    bytes: ByteStream<R::Stream>,
    clock: &'r R,
    /// When the next line has to be there. `None` before the first call after a line.
    due: Option<Instant>,
}

impl<'r, R: Net + Clock> TimedStream<'r, R> {
    /// Makes a connection over this stream, with TCP_NODELAY, so that what is sent goes out at once.
    ///
    /// # Errors
    ///
    /// That of the system if it doesn't let this option be set.
    pub fn new(clock: &'r R, stream: R::Stream) -> io::Result<TimedStream<'r, R>> {
        stream.set_nodelay(true)?;
        Ok(TimedStream {
            bytes: ByteStream::new(stream),
            clock,
            due: None,
        })
    }

    /// Limits the next call to the time that the server has left. Returns whether it has any.
    fn limit_call(&mut self) -> bool
        ensures { self.new.bytes ≡ self.old.bytes }
    {
        match self.time_left() {
            Ok(left) => limit(&self.bytes.inner, left).is_ok(),
            Err(_) => false,
        }
    }

    /// Returns how much time the server has left, which begins now if it hasn't begun.
    fn time_left(&mut self) -> io::Result<Duration>
        ensures { self.new.bytes ≡ self.old.bytes }
    {
        let now = Instant::now(self.clock)?;
        let Some(due) = self
            .due
            .or(now.checked_add(Duration::from_secs(ANSWER_SECONDS)))
        else {
            return Err(io::Error::from(ErrorKind::InvalidData));
        };
        self.due = Some(due);
        Ok(due.duration_since(now))
    }
}

/// Limits how long a read or a write may wait.
fn limit(stream: &impl OpenStream, left: Duration) -> io::Result<()> {
    if left.is_zero() {
        return Err(io::Error::from(ErrorKind::TimedOut));
    }
    stream.set_read_timeout(Some(left))?;
    stream.set_write_timeout(Some(left))
}

impl<'r, R: Net + Clock> Stream for TimedStream<'r, R> {
    ghost remaining = { λ s. None };

    ghost taken = { λ s. None };

    ghost has_ended = { λ s. ⊤ };

    ghost calls_left = { λ s. s.bytes.calls_left };

    fn read(&mut self, place: &mut [u8]) -> Moved {
        if !self.limit_call() {
            return Moved::Lost;
        }
        let moved = self.bytes.read(place);
        if let Moved::Bytes(n) = moved
            && place[..n].contains(&b'\n')
        {
            self.due = None;
        }
        moved
    }

    fn write(&mut self, bytes: &[u8]) -> Moved {
        if !self.limit_call() {
            return Moved::Lost;
        }
        self.bytes.write(bytes)
    }
}
