//! Look-ups of hosts, which nobody waits for.

use crate::questions::{Program, Question, Questions};
use std::alloc::Global;
use std::net::IpAddr;
use std::process::{OpenProcess, Processes};
use std::{io, str};

/// The greatest number of addresses of a host that are kept.
pub const ADDRESSES_MAX: usize = 16;

/// How many seconds a look-up may take.
const PATIENCE: u8 = 5;

/// The greatest number of bytes that are read of what a look-up prints. An address has less than 150 bytes there, in
/// three lines, without the host's name, which only the first line of all has.
const OUTPUT_MAX: usize = 4096;

/// The reason if the look-up can't begin, or the shell doesn't find `getent`.
const NOT_STARTED: &str = "getent, which looks its name up, cannot be started";

/// The reason if the resolver answered that it has no address.
pub const HOST_UNKNOWN: &str = "its name is not known";

/// The result of a look-up.
#[derive(Drop)]
pub struct Found {
    /// The host that was looked up.
    pub name: String,
    /// Its addresses, at most [`ADDRESSES_MAX`].
    pub addresses: Vec<IpAddr>,
    /// Why addresses are missing, if they are.
    pub reason: &'static str,
}

/// The look-ups that are running. Each is the question `getent ahosts HOST`, which asks the system's resolver as any
/// program here does.
#[derive(Drop)]
pub struct LookUps<'r, R: Processes> {
    alloc: Global,
    questions: Questions<'r, R, String>,
}

impl<'r, R: Processes> LookUps<'r, R> {
    /// Returns an empty set of look-ups.
    pub fn none(processes: &'r R, alloc: Global) -> LookUps<'r, R> {
        LookUps {
            alloc,
            questions: Questions::none(processes, alloc, PATIENCE),
        }
    }

    /// Whether no look-up is running.
    pub fn is_idle(&self) -> bool {
        self.questions.going().is_empty()
    }

    /// Whether this host is being looked up.
    pub fn is_going(&self, name: &str) -> bool {
        let mut going = self.questions.going().iter();
        going.any(|look_up| look_up.about.as_str() == name)
    }

    /// Whether another look-up may begin.
    pub fn has_room(&self) -> bool {
        self.questions.has_room()
    }

    /// Begins to look a host up.
    ///
    /// # Errors
    ///
    /// If no other look-up may begin, the process can't be started or memory cannot be allocated.
    pub fn start(&mut self, name: &str) -> io::Result<()> {
        let about = String::from_str(self.alloc, name)?;
        let getent = Program::new(self.alloc, "getent", &["ahosts", name])?;
        match self.questions.start(getent, about) {
            Ok(()) => Ok(()),
            Err(_) => Err(io::Error::other(NOT_STARTED)),
        }
    }

    /// Counts a second that has passed, and kills look-ups that take too long.
    pub fn second(&mut self) {
        self.questions.step();
    }

    /// Kills all look-ups.
    pub fn end(&mut self) {
        self.questions.end();
    }

    /// Takes the result of a look-up that has ended, if one has.
    pub fn take(&mut self) -> Option<Found> {
        let mut look_up = self.questions.take()?;
        let addresses = addresses_of(self.alloc, &mut look_up);
        let reason = if look_up.is_late {
            "its name is not looked up in time"
        } else if look_up.is_unasked() {
            NOT_STARTED
        } else {
            HOST_UNKNOWN
        };
        Some(Found {
            name: look_up.about,
            addresses,
            reason,
        })
    }
}

/// Returns the addresses that an ended look-up printed.
fn addresses_of<P: OpenProcess>(alloc: Global, look_up: &mut Question<P, String>) -> Vec<IpAddr> {
    let mut addresses = Vec::new(alloc);
    let mut output = [0; OUTPUT_MAX];
    let printed = look_up.answer(&mut output).unwrap_or(&[]);
    for line in printed.split(|byte| *byte == b'\n') {
        if let Some(address) = address_in(line)
            && addresses.len() < ADDRESSES_MAX
        {
            let _ = addresses.push(address);
        }
    }
    addresses
}

/// Returns the address in a line of `getent ahosts`, which prints each once for each type of socket: the one of type
/// `STREAM` counts.
fn address_in(line: &[u8]) -> Option<IpAddr> {
    let text = str::from_utf8(line).ok()?;
    let mut words = text.split_ascii_whitespace();
    let address = words.next()?;
    if words.next()? != "STREAM" {
        return None;
    }
    address.parse().ok()
}
