//! Where clients come in.

use crate::listeners::Listeners;
use mio::Registry;
use mio::net::TcpStream;
use nut_poll::{LookUps, Reports};
use std::io;
use std::io::ErrorKind;
use std::net::{IpAddr, Net};
use std::process::Processes;

/// A client that was accepted from a listener.
#[derive(Drop)]
pub struct Guest {
    /// Its socket.
    pub stream: TcpStream,
    /// The address that it connected from. An IPv4 address mapped into IPv6 is shown as IPv4.
    pub address: IpAddr,
}

/// The listeners of a server, and the client that comes in.
#[derive(Drop)]
pub struct Door {
    listeners: Listeners,
    /// The client that was accepted last, until it is announced to the server.
    guest: Option<Guest>,
    /// The client that was announced, until the server has answered.
    announced: Option<Guest>,
}

impl Door {
    /// Registers the listeners with the poll.
    ///
    /// # Errors
    ///
    /// The error of a registration.
    pub fn new(registry: &Registry, mut listeners: Listeners) -> io::Result<Door> {
        listeners.register(registry)?;
        Ok(Door {
            listeners,
            guest: None,
            announced: None,
        })
    }

    /// Tries again to listen at the hosts where that wasn't possible. It is called once a second.
    pub fn try_again<R: Net + Processes>(
        &mut self,
        net: &R,
        registry: &Registry,
        look_ups: &mut LookUps<'_, R>,
        reports: &mut Reports<'_>,
    ) {
        self.listeners.try_again(net, registry, look_ups, reports);
    }

    /// Accepts the next client that waits at a listener, and keeps it until the server is told of it.
    ///
    /// # Errors
    ///
    /// `WouldBlock` if none waits, or else why the client can't be accepted.
    pub fn let_in(&mut self, i: usize) -> io::Result<()> {
        let (stream, peer) = self.listeners.accept(i)?;
        let _ = stream.set_nodelay(true);
        let address = peer.ip().to_canonical();
        self.guest = Some(Guest { stream, address });
        Ok(())
    }

    /// Whether a client was accepted of which the server hasn't been told.
    pub fn has_guest(&self) -> bool {
        self.guest.is_some()
    }

    /// Whether a client was announced that the server hasn't answered.
    pub fn has_announced(&self) -> bool {
        self.announced.is_some()
    }

    /// Announces the client that was accepted last to the server, and returns its address.
    pub fn announce(&mut self) -> Option<IpAddr> {
        let guest = self.guest.take()?;
        let address = guest.address;
        self.announced = Some(guest);
        Some(address)
    }

    /// Returns the announced client, once the server has answered.
    pub fn take_announced(&mut self) -> Option<Guest> {
        self.announced.take()
    }
}

/// Whether an accept failed for a reason that concerns only the client that waited, or passes, so that another may be
/// tried at once.
pub fn concerns_one(error: &io::Error) -> bool {
    matches!(
        error.kind(),
        ErrorKind::ConnectionAborted
            | ErrorKind::ConnectionReset
            | ErrorKind::Interrupted
            | ErrorKind::NetworkDown
            | ErrorKind::NetworkUnreachable
            | ErrorKind::HostUnreachable
    )
}
