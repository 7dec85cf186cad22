//! What a server that has told a status says while it waits for the driver of its UPS.

ghost use Rattle.std.specs.Prelude.{◌≡◌, ◌&&◌, not};

/// The word of a status that NUT's upsd shows from its start on until it has heard the driver. What it showed before is
/// then no longer known: neither OB nor anything else.
const WAIT: &[u8] = b"WAIT";

/// Whether the last status of a UPS was one without WAIT.
#[derive(Clone, Copy)]
pub struct Waiting {
    was_heard: bool,
}

impl Waiting {
    /// Returns the state before any status.
    pub fn none() -> Waiting {
        Waiting { was_heard: false }
    }

    /// Notes a status, with or without WAIT. Returns whether it is the first one with WAIT after another.
    pub fn begins(&mut self, waits: bool) -> bool
        ensures begins { result ≡ (waits && self.old.was_heard) }
        ensures last { self.new.was_heard ≡ not waits }
    {
        let begins = waits && self.was_heard;
        self.was_heard = !waits;
        begins
    }
}

/// Whether WAIT is among the words of a status.
pub fn is_waiting(status: &[u8]) -> bool {
    for word in status.split(|byte| *byte == b' ') {
        if word == WAIT {
            return true;
        }
    }
    false
}
