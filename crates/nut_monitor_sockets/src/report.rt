//! What is reported of the servers of watched UPSes.

use crate::limits::{ANSWER_ON_BATTERY, LATE_ANSWERS};
use nut_log::{Level, Leveled};
use std::{fmt, io};

/// An event at the link to a server, with the target of its MONITOR line as upsmon.conf writes it.
#[derive(Drop)]
pub enum ServerReport<'a> {
    /// The server is connected.
    Reached(&'a str),
    /// The host's name can't be resolved: the resolver has no address for it.
    Unresolved(&'a str),
    /// The server can't be reached.
    Unreachable(&'a str, io::Error),
    /// The server closed the connection before it answered a query for a status.
    Closed(&'a str),
    /// The server didn't answer before it served, and was given up.
    Mute(&'a str),
    /// The server sent something that can't be read or wasn't asked for before it served.
    Odd(&'a str),
    /// The server disconnected.
    Gone(&'a str),
    /// The server didn't answer for this many seconds, and was given up.
    GivenUp(&'a str, u8),
    /// The server said something that can't be read or wasn't asked for.
    Unread(&'a str),
    /// An answer took longer than a server may take while a UPS is on battery.
    Late(&'a str),
    /// The server tells a status with WAIT after another status.
    Waits(&'a str),
    /// The server had accepted FSD, was lost, and is connected again while this machine waits for others.
    Returned(&'a str),
    /// The server refused a query: the target, the query, and the name of the error.
    Refused(&'a str, &'a str, &'a str),
}

impl<'a> fmt::Display for ServerReport<'a> {
    fn fmt<W: fmt::Write>(&self, f: &mut fmt::Formatter<W>) -> fmt::Result {
        match self {
            ServerReport::Reached(target) => write!(f, "UPS {target}: server connected"),
            ServerReport::Unresolved(target) => {
                write!(f, "UPS {target}: cannot resolve the server's name")
            }
            ServerReport::Unreachable(target, error) => {
                write!(f, "UPS {target}: cannot connect to the server: {error}")
            }
            ServerReport::Closed(target) => write!(
                f,
                "UPS {target}: server closed the connection before answering"
            ),
            ServerReport::Mute(target) => write!(f, "UPS {target}: server does not answer"),
            ServerReport::Odd(target) => {
                write!(f, "UPS {target}: server gave an unexpected answer")
            }
            ServerReport::Gone(target) => write!(f, "UPS {target}: server lost"),
            ServerReport::GivenUp(target, seconds) => {
                write!(f, "UPS {target}: server lost: no answer for {seconds} s")
            }
            ServerReport::Unread(target) => {
                write!(f, "UPS {target}: server lost: unexpected answer")
            }
            ServerReport::Late(target) => write!(
                f,
                "UPS {target}: an answer took more than {ANSWER_ON_BATTERY} s: {LATE_ANSWERS}"
            ),
            ServerReport::Waits(target) => write!(
                f,
                "UPS {target}: server reports WAIT: DEADTIME can't start a shutdown until it hears its driver"
            ),
            ServerReport::Returned(target) => write!(
                f,
                "UPS {target}: reconnected to the server that accepted FSD; if it restarted, FSD is lost and absent machines aren't waited for"
            ),
            ServerReport::Refused(target, what, error) => {
                write!(f, "UPS {target}: {what} refused: {error}")
            }
        }
    }
}

impl<'a> Leveled for ServerReport<'a> {
    fn level(&self) -> Level {
        match self {
            ServerReport::Reached(_) => Level::Info,
            ServerReport::Unresolved(_)
            | ServerReport::Unreachable(..)
            | ServerReport::Closed(_)
            | ServerReport::Mute(_)
            | ServerReport::Odd(_)
            | ServerReport::Gone(_)
            | ServerReport::GivenUp(..)
            | ServerReport::Unread(_)
            | ServerReport::Late(_)
            | ServerReport::Waits(_)
            | ServerReport::Returned(_)
            | ServerReport::Refused(..) => Level::Warning,
        }
    }
}
