//! Lines to an operator on any writer.

use nut_log::{Lines, Style};
use std::io;
use std::io::Write;

/// Any writer, on which lines begin with the program's name.
#[derive(Drop)]
pub struct NamedLines<'a, W> {
    writer: &'a mut W,
    program: &'static str,
}

impl<'a, W> NamedLines<'a, W> {
    /// Returns the lines of this program on a writer.
    pub fn new(program: &'static str, writer: &'a mut W) -> NamedLines<'a, W> {
        NamedLines { writer, program }
    }
}

impl<'a, W: Write> Write for NamedLines<'a, W> {
    fn write(&mut self, bytes: &[u8]) -> io::Result<usize> {
        self.writer.write(bytes)
    }

    fn flush(&mut self) -> io::Result<()> {
        self.writer.flush()
    }
}

impl<'a, W: Write> Lines for NamedLines<'a, W> {
    fn style(&self) -> Style {
        Style::named(self.program)
    }
}
