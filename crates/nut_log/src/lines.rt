//! Streams with lines to an operator.

use crate::level::Level;
use crate::style::Style;
use std::env::Env;
use std::io;
use std::io::Write;
use std::os::fd::AsRawFd;
use std::rt::Files;

/// A stream on which a program writes lines to its operator.
pub trait Lines: Write {
    /// Returns what lines begin with here.
    fn style(&self) -> Style;

    /// Begins a line with the program's name or, in systemd's journal, with this level's priority. The caller writes the
    /// text and ends the line. A write that fails is ignored: the text then fails, too.
    fn begin(&mut self, level: Level) -> &mut Self {
        let head = self.style().head(level);
        let _ = write!(self, "{head}");
        self
    }

    /// Begins a line that doesn't have the program's name: in systemd's journal with this level's priority, elsewhere
    /// with nothing.
    fn mark(&mut self, level: Level) -> &mut Self {
        let mark = self.style().mark(level);
        let _ = self.write_all(mark.as_bytes());
        self
    }
}

/// A standard stream, and what lines begin with there.
#[derive(Clone, Copy)]
pub struct LogStream<S> {
    stream: S,
    style: Style,
}

impl<S: Copy> LogStream<S> {
    /// Returns a stream on which lines begin with the program's name.
    pub fn named(program: &'static str, stream: S) -> LogStream<S> {
        LogStream {
            stream,
            style: Style::named(program),
        }
    }

    /// Returns the stream.
    pub fn stream(self) -> S {
        self.stream
    }
}

impl<S: AsRawFd + Copy> LogStream<S> {
    /// Returns a stream on which lines begin with their priority if it is that of systemd's journal, else with the
    /// program's name.
    pub fn of<R: Env + Files>(rt: &R, program: &'static str, stream: S) -> LogStream<S> {
        let style = Style::on(rt, program, &stream);
        LogStream { stream, style }
    }
}

impl<S: Write> Write for LogStream<S> {
    fn write(&mut self, bytes: &[u8]) -> io::Result<usize> {
        self.stream.write(bytes)
    }

    fn flush(&mut self) -> io::Result<()> {
        self.stream.flush()
    }
}

impl<S: Write> Lines for LogStream<S> {
    fn style(&self) -> Style {
        self.style
    }
}
