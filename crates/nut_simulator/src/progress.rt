//! How far a long schedule has been played, for a person at a terminal.

use std::io::Write;

/// The number of steps after which the line is written anew. A schedule with fewer steps is played without it.
const STEPS_BETWEEN: u64 = 100_000;

/// A line on a terminal that says how far a schedule has been played. On another stream nothing is written. A failed
/// write is ignored: the line is only there to be looked at.
#[derive(Drop)]
pub struct Progress<'a, E> {
    stream: &'a mut E,
    is_terminal: bool,
    is_shown: bool,
}

impl<'a, E: Write> Progress<'a, E> {
    /// Makes a progress that has written no line yet.
    pub fn new(stream: &'a mut E, is_terminal: bool) -> Self {
        Progress {
            stream,
            is_terminal,
            is_shown: false,
        }
    }

    /// Whether the line has to be written anew after this many steps.
    pub fn is_due(&self, steps: u64) -> bool {
        self.is_terminal && steps % STEPS_BETWEEN == 0
    }

    /// Writes the line anew.
    pub fn show(&mut self, steps: u64) {
        let _ = write!(self.stream, "\rnutsim: {steps} steps");
        self.is_shown = true;
    }

    /// Clears the line, so that other text can be written in its place.
    pub fn clear(&mut self) {
        if self.is_shown {
            let _ = self.stream.write_all(b"\r\x1b[K");
            self.is_shown = false;
        }
    }
}
