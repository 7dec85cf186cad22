//! What upsd reports at its start.

use nut_log::{Level, Leveled};
use std::fmt;

/// A service that upsd has begun, or how it runs.
#[derive(Drop)]
pub enum StartReport<'a> {
    /// A UPS is served: its name, and the path of its driver's socket.
    Serving(&'a str, &'a str),
    /// This process runs as root. The unit names another user.
    AsRoot,
}

impl<'a> fmt::Display for StartReport<'a> {
    fn fmt<W: fmt::Write>(&self, f: &mut fmt::Formatter<W>) -> fmt::Result {
        match self {
            StartReport::Serving(name, path) => write!(f, "UPS {name}, driver at {path}"),
            StartReport::AsRoot => write!(f, "running as root, which only a port below 1024 needs"),
        }
    }
}

impl<'a> Leveled for StartReport<'a> {
    fn level(&self) -> Level {
        match self {
            StartReport::Serving(..) => Level::Info,
            StartReport::AsRoot => Level::Warning,
        }
    }
}
