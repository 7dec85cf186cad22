//! What the lines on a stream begin with.

use crate::journal::is_journal;
use crate::level::Level;
use std::env::Env;
use std::fmt;
use std::os::fd::AsRawFd;
use std::rt::Files;

/// What the lines of a program on a stream begin with.
#[derive(Clone, Copy)]
pub struct Style {
    program: &'static str,
    /// Whether the stream is that of systemd's journal, which shows the program's name itself.
    is_journal: bool,
}

impl Style {
    /// Lines begin with the program's name.
    pub fn named(program: &'static str) -> Style {
        Style {
            program,
            is_journal: false,
        }
    }

    /// Lines begin with their priority if the stream is that of systemd's journal, else with the program's name.
    pub fn on<R: Env + Files>(rt: &R, program: &'static str, stream: &impl AsRawFd) -> Style {
        Style {
            program,
            is_journal: is_journal(rt, stream.as_raw_fd()),
        }
    }

    /// Returns what stands before the program's name: the priority in the journal, else nothing.
    pub fn mark(self, level: Level) -> &'static str {
        if self.is_journal { level.mark() } else { "" }
    }

    /// Returns what a line of this level begins with.
    pub fn head(self, level: Level) -> Head {
        Head { style: self, level }
    }
}

/// What a line begins with: `<4>` in systemd's journal, elsewhere `upsmon: `.
#[derive(Clone, Copy)]
pub struct Head {
    style: Style,
    level: Level,
}

impl fmt::Display for Head {
    fn fmt<W: fmt::Write>(&self, f: &mut fmt::Formatter<W>) -> fmt::Result {
        let Style {
            program,
            is_journal,
        } = self.style;
        if is_journal {
            write!(f, "{}", self.level.mark())
        } else {
            write!(f, "{program}: ")
        }
    }
}
