//! The lines by which a daemon reports to its operator.

use crate::lossy_lines::ErrorLines;
use nut_log::{Leveled, Lines};
use std::io::Write;

/// The reports of a daemon, each of one line, if they are wanted.
#[derive(Drop)]
pub struct Reports<'a> {
    err: &'a mut ErrorLines,
    are_wanted: bool,
}

impl<'a> Reports<'a> {
    /// Returns the reports of a daemon, which are written to `err` if they are wanted.
    pub fn new(err: &'a mut ErrorLines, are_wanted: bool) -> Reports<'a> {
        Reports { err, are_wanted }
    }

    /// Writes a report as a line of its level, if reports are wanted. One that can't be written is dropped.
    pub fn tell<T: Leveled + Drop>(&mut self, report: T) {
        if self.are_wanted {
            self.warn(report);
        }
    }

    /// Writes a report as a line of its level, whether or not reports are wanted. One that can't be written is dropped.
    pub fn warn<T: Leveled + Drop>(&mut self, report: T) {
        let _ = writeln!(self.err.begin(report.level()), "{report}");
    }

    /// Returns where reports are written, for lines that are written whether or not reports are wanted.
    pub fn err(&mut self) -> &mut ErrorLines {
        self.err
    }
}
