//! What a daemon reports of a reload.

use nut_log::{Level, Leveled};
use std::{fmt, io};

/// An event of a reload.
#[derive(Drop)]
pub enum ReloadReport<'a> {
    /// The files were read again: what that changed. The text is empty if nothing changed.
    Reloaded(&'a str),
    /// The file with this path, which asks for a reload, can't be removed.
    Stuck(&'a str, io::Error),
}

impl<'a> fmt::Display for ReloadReport<'a> {
    fn fmt<W: fmt::Write>(&self, f: &mut fmt::Formatter<W>) -> fmt::Result {
        match self {
            ReloadReport::Reloaded(changes) if changes.is_empty() => {
                write!(f, "reloaded: nothing changed")
            }
            ReloadReport::Reloaded(changes) => write!(f, "reloaded: {changes}"),
            ReloadReport::Stuck(path, error) => write!(f, "cannot remove {path}: {error}"),
        }
    }
}

impl<'a> Leveled for ReloadReport<'a> {
    fn level(&self) -> Level {
        match self {
            ReloadReport::Reloaded(_) => Level::Notice,
            ReloadReport::Stuck(..) => Level::Warning,
        }
    }
}
