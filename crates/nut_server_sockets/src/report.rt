//! What is reported of drivers and clients.

use nut_log::{Level, Leveled};
use nut_server::UNREAD_MAX;
use std::net::{IpAddr, SocketAddr};
use std::{fmt, io};

/// How the link to a driver ended.
#[derive(Clone, Copy)]
pub enum End {
    /// The driver disconnected, or the link failed.
    Lost,
    /// A reload removed the UPS or gave it another driver.
    Reloaded,
    /// Memory ran out at what the driver reported.
    OutOfMemory,
}

impl End {
    /// Returns what is said of it.
    fn text(self) -> &'static str {
        match self {
            End::Lost => "lost",
            End::Reloaded => "disconnected by the reload",
            End::OutOfMemory => "disconnected: out of memory",
        }
    }

    /// Returns how much it matters. What a reload ends isn't missed.
    fn level(self) -> Level {
        match self {
            End::Lost | End::OutOfMemory => Level::Warning,
            End::Reloaded => Level::Info,
        }
    }
}

/// An event at the sockets of a server.
#[derive(Drop)]
pub enum SocketReport<'a> {
    /// Clients may connect to this address.
    Listening(SocketAddr),
    /// It is impossible to listen at this host and port yet, for this reason.
    NotListening(&'a str, u16, &'a io::Error),
    /// The driver of a UPS is connected.
    Connected(&'a str),
    /// The driver of a UPS can't be reached.
    Missed(&'a str, io::Error),
    /// The link to the driver of a UPS has ended.
    Ended(&'a str, End),
    /// The data of a UPS became stale, so clients are answered DATA-STALE.
    Stale(&'a str),
    /// The data of a UPS is no longer stale.
    Fresh(&'a str),
    /// A shutdown of a UPS is forced, and clients hear of it now that its data are no longer stale.
    Stops(&'a str),
    /// The driver says something of a variable of a UPS that can't be read: the UPS, and the variable; empty if that isn't
    /// known.
    Unread(&'a str, &'a str),
    /// The driver of a UPS says such things of more variables.
    UnreadMore(&'a str),
    /// A client isn't let in, because MAXCONN, which is this, is reached.
    Full(usize),
    /// No client is let in until the next start, because as many were let in as there are numbers.
    Spent,
    /// No client can be let in, for this reason.
    ShutOut(io::Error),
    /// A client from this address was silent for this many seconds, and its connection is closed.
    Shed(IpAddr, u64),
    /// The connection of a client from this address, which isn't logged in, is closed to let another in, because MAXCONN,
    /// which is this, is reached.
    MadeWay(IpAddr, usize),
    /// The connection of a client from this address is closed, because memory ran out at its request.
    Unanswered(IpAddr),
}

impl<'a> fmt::Display for SocketReport<'a> {
    fn fmt<W: fmt::Write>(&self, f: &mut fmt::Formatter<W>) -> fmt::Result {
        match self {
            SocketReport::Listening(address) => write!(f, "listening on {address}"),
            SocketReport::NotListening(host, port, error) => {
                write!(f, "cannot listen on {host}:{port} yet: {error}")
            }
            SocketReport::Connected(name) => write!(f, "UPS {name}: driver connected"),
            SocketReport::Missed(name, error) => {
                write!(f, "UPS {name}: cannot connect to its driver: {error}")
            }
            SocketReport::Ended(name, end) => write!(f, "UPS {name}: driver {}", end.text()),
            SocketReport::Stale(name) => write!(f, "UPS {name}: data is stale"),
            SocketReport::Fresh(name) => write!(f, "UPS {name}: data is no longer stale"),
            SocketReport::Stops(name) => write!(
                f,
                "UPS {name}: shutdown is still forced (FSD); its machines shut down now"
            ),
            SocketReport::Unread(name, variable) if variable.is_empty() => {
                write!(f, "UPS {name}: unreadable line from the driver")
            }
            SocketReport::Unread(name, variable) => write!(
                f,
                "UPS {name}: unreadable line about {variable} from the driver"
            ),
            SocketReport::UnreadMore(name) => write!(
                f,
                "UPS {name}: unreadable lines about more than {UNREAD_MAX} variables from the driver"
            ),
            SocketReport::Full(most) => write!(
                f,
                "client refused: MAXCONN {most} is reached, and all clients are logged in"
            ),
            SocketReport::Spent => write!(f, "out of connection numbers; restart upsd"),
            SocketReport::ShutOut(error) => write!(f, "cannot accept a client: {error}"),
            SocketReport::Shed(address, seconds) => {
                write!(f, "client {address} closed: silent for {seconds} s")
            }
            SocketReport::MadeWay(address, most) => {
                write!(
                    f,
                    "client {address} closed for another: not logged in, and MAXCONN {most} is reached"
                )
            }
            SocketReport::Unanswered(address) => write!(
                f,
                "client {address} closed: out of memory"
            ),
        }
    }
}

impl<'a> Leveled for SocketReport<'a> {
    fn level(&self) -> Level {
        match self {
            SocketReport::Listening(_)
            | SocketReport::Connected(_)
            | SocketReport::Fresh(_)
            | SocketReport::Shed(..) => Level::Info,
            SocketReport::Ended(_, end) => end.level(),
            SocketReport::NotListening(..)
            | SocketReport::Missed(..)
            | SocketReport::Stale(_)
            | SocketReport::Stops(_)
            | SocketReport::Full(_)
            | SocketReport::Spent
            | SocketReport::ShutOut(_)
            | SocketReport::MadeWay(..)
            | SocketReport::Unread(..)
            | SocketReport::UnreadMore(_)
            | SocketReport::Unanswered(_) => Level::Warning,
        }
    }
}
