//! How much a line matters.

use std::fmt::Display;

/// How much a line matters to an operator: the priorities of syslog (RFC 5424, section 6.2.1) that the programs use.
#[derive(Clone, Copy, PartialEq, Eq)]
pub enum Level {
    /// Why a program ends, the fault of a file, or a reload that is refused: 3, Error.
    Error,
    /// What may keep a machine from being warned or shut down in time: 4, Warning.
    Warning,
    /// What is normal and matters, such as a notice or the beginning of a shutdown: 5, Notice.
    Notice,
    /// What is normal: 6, Informational.
    Info,
}

impl Level {
    /// Returns what a line begins with by which systemd's journal knows its priority (sd-daemon(3)).
    pub fn mark(self) -> &'static str {
        match self {
            Level::Error => "<3>",
            Level::Warning => "<4>",
            Level::Notice => "<5>",
            Level::Info => "<6>",
        }
    }
}

/// A text of one line that knows how much it matters.
pub trait Leveled: Display {
    /// Returns how much it matters.
    fn level(&self) -> Level;
}
