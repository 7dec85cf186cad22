//! Lines on a standard stream, whether or not anybody reads it.

ghost use Rattle.std.specs.Prelude.{IsTrue};
ghost use Rattle.std.specs.Io.KnownBytes.{Appends};

use arrayvec::ArrayVec;
use libc::net::{POLLOUT, poll};
use libc::types::pollfd;
use nut_log::{Level, Lines, LogStream, Style};
use std::io;
use std::io::{Stderr, Stdout, Write};
use std::os::fd::AsRawFd;

/// The most bytes of a line that are written, with the line feed. A longer line loses its end.
const LOG_LINE_MAX: usize = 2048;

/// The most bytes that are written at a time: a line, and before it the count of dropped lines. Linux takes up to 4,096
/// bytes for a pipe whole, and without waiting if the pipe is reported as ready.
const TEXT_MAX: usize = LOG_LINE_MAX + 128;

/// A stream that may take nothing, for example a pipe that is full because its reader has stopped, or whose reader is gone.
pub trait Outlet: Write {
    /// Whether the stream accepts a line at once, as far as the system knows. Nothing is allocated for the answer.
    fn takes_line(&mut self) -> bool;
}

/// A stream of lines that doesn't wait for its reader. A line that the stream doesn't accept at once is dropped. Before
/// the next accepted line the stream says how many were dropped, as in `upsd: 3 log lines dropped (output blocked)`.
///
/// What is written is kept until a line is whole. A write never fails.
///
/// The stream keeps its mode, because other processes may share it. Instead the system is asked, before each line,
/// whether the stream takes one; of a file it always says yes. A write may still wait in four cases. Another process
/// fills a shared pipe between the question and the write. A terminal has room for only a part of the line. A file is
/// on a disk or server that doesn't answer. Or the system can't be asked; a line is then written all the same.
pub struct LossyLines<S> {
    stream: S,
    style: Style,
    /// What was written of the unfinished line.
    line: ArrayVec<u8, LOG_LINE_MAX>,
    /// How many lines were dropped since one was taken.
    lost: u64,
}

// A derived drop would be proved again in each crate that drops a value, with those of its parts.
impl<S: Drop> Drop for LossyLines<S> {
    fn drop(self) {
        let LossyLines {
            stream: _stream,
            style: _,
            line: _line,
            lost: _,
        } = self;
    }
}

/// Standard output, line by line. A line that isn't accepted at once is dropped.
pub type OutputLines = LossyLines<Stdout>;

/// Standard error, line by line. A line that isn't accepted at once is dropped.
pub type ErrorLines = LossyLines<Stderr>;

impl<S: Write + AsRawFd + Copy> LossyLines<S> {
    /// Returns the lines on a stream.
    pub fn new(log: LogStream<S>) -> LossyLines<S> {
        let style = log.style();
        LossyLines {
            stream: log.stream(),
            style,
            line: ArrayVec::new(),
            lost: 0,
        }
    }
}

impl<S: Write + AsRawFd + Drop> LossyLines<S> {
    /// Ends the line: it is written or dropped.
    fn end_line(&mut self) {
        if self.line.is_full() {
            self.line.pop();
        }
        self.line.push(b'\n');
        if self.has_room() != Some(false) && self.offer() {
            self.lost = 0;
        } else {
            self.lost = self.lost.saturating_add(1);
        }
        self.line.clear();
    }

    /// Whether the stream takes bytes, and somebody may read them. `None` if the system can't be asked.
    fn has_room(&self) -> Option<bool> {
        let mut asked = [pollfd {
            fd: self.stream.as_raw_fd(),
            events: POLLOUT,
            revents: 0,
        }];
        // An error or the end of the reader is reported beside the room.
        match poll(&mut asked, 0) {
            0 => Some(false),
            1 => Some(asked[0].revents == POLLOUT),
            _ => None,
        }
    }

    /// Writes the line, and before it the count of dropped lines, with one write. Returns whether all of it was taken.
    fn offer(&mut self) -> bool {
        let mut text: ArrayVec<u8, TEXT_MAX> = ArrayVec::new();
        let lost = self.lost;
        if lost > 0 {
            let head = self.style.head(Level::Warning);
            let lines = if lost == 1 { "line" } else { "lines" };
            let _ = writeln!(
                &mut text,
                "{head}{lost} log {lines} dropped (output blocked)"
            );
        }
        let _ = text.write(&self.line);
        write_whole(&mut self.stream, &text)
    }
}

impl<S: Write + AsRawFd + Drop> Write for LossyLines<S> {
    /// Keeps the bytes up to the end of the line. Bytes beyond the limit of a line are dropped.
    fn write(&mut self, bytes: &[u8]) -> io::Result<usize> {
        let Some(end) = bytes.iter().position(|byte| *byte == b'\n') else {
            let _ = self.line.write(bytes);
            return Ok(bytes.len());
        };
        let _ = self.line.write(&bytes[..end]);
        self.end_line();
        Ok(end + 1)
    }

    fn flush(&mut self) -> io::Result<()> {
        Ok(())
    }
}

impl<S: Write + AsRawFd + Drop> Lines for LossyLines<S> {
    fn style(&self) -> Style {
        self.style
    }
}

impl<S: Write + AsRawFd + Drop> Outlet for LossyLines<S> {
    /// If the system can't be asked, the answer is no.
    fn takes_line(&mut self) -> bool {
        self.has_room() == Some(true)
    }
}

/// Writes a text with one call, and returns whether all of it was taken.
fn write_whole<S: Write>(stream: &mut S, text: &[u8]) -> bool
    ensures { IsTrue result → Appends (S.Write.contents stream.old) (S.Write.contents stream.new) text.now }
{
    matches!(stream.write(text), Ok(taken) if taken == text.len())
}
