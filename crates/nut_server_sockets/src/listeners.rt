//! The listeners, and the hosts at which it isn't possible to listen yet.

use crate::dual_stack::takes_ipv4;
use crate::report::SocketReport;
use crate::source::Source;
use libc::EAFNOSUPPORT;
use mio::net::{TcpListener, TcpStream};
use mio::{Interest, Registry};
use nut_poll::{Found, HOST_UNKNOWN, LookUps, Reports};
use std::alloc::Global;
use std::io;
use std::io::ErrorKind;
use std::net::{Net, SocketAddr, ToSocketAddrs};
use std::process::Processes;

/// A host at which it isn't possible to listen yet: this machine has none of its addresses, or its name isn't known.
pub struct Missing {
    host: String,
    port: u16,
    /// The addresses that the host had when its name was known for the first time: none before that.
    addresses: Vec<SocketAddr>,
    /// Why it was impossible to listen there at the last attempt.
    error: io::Error,
    /// Why the last look-up of its name gave no addresses, if it has none.
    reason: &'static str,
}

// A derived drop would be proved again in each crate that drops a value, with those of its parts.
impl Drop for Missing {
    fn drop(self) {
        let Missing {
            host: _host,
            port: _,
            addresses: _addresses,
            error: _error,
            reason: _,
        } = self;
    }
}

impl Missing {
    /// Notes why it was impossible to listen there once more. Returns whether the reason is another one.
    fn note(&mut self, error: io::Error) -> bool {
        let is_new = self.error.kind() != error.kind();
        self.error = error;
        is_new
    }

    /// Whether its name has to be looked up.
    fn is_unknown(&self) -> bool {
        self.addresses.is_empty()
    }

    /// Notes the result of a look-up of its name. Returns whether there are no addresses for another reason than before.
    fn note_found(&mut self, found: &Found) -> bool {
        for address in found.addresses.as_slice() {
            let _ = self.addresses.push(SocketAddr::new(*address, self.port));
        }
        if !self.is_unknown() || self.reason == found.reason {
            return false;
        }
        self.reason = found.reason;
        self.error = io::Error::other(found.reason);
        true
    }

    /// Returns the host, as upsd.conf has it, the port, and why it was impossible to listen there at the last attempt.
    pub fn into_parts(self) -> (String, u16, io::Error) {
        let Missing {
            host,
            port,
            addresses: _addresses,
            error,
            reason: _,
        } = self;
        (host, port, error)
    }
}

/// What became of a LISTEN line.
#[derive(Drop)]
enum ListenLine {
    /// Clients connect here.
    Open(TcpListener),
    /// It is tried again each second to listen here.
    Missing(Missing),
}

/// The listeners of a server, and the hosts that are tried again each second: in all as many as there are LISTEN lines at
/// most. A listener has the number of its place.
pub struct Listeners {
    places: Vec<ListenLine>,
}

// A derived drop would be proved again in each crate that drops a value, with those of its parts.
impl Drop for Listeners {
    fn drop(self) {
        let Listeners { places: _places } = self;
    }
}

impl Listeners {
    /// Returns an empty set.
    pub fn none(alloc: Global) -> Listeners {
        Listeners {
            places: Vec::new(alloc),
        }
    }

    /// Listens at the first of the host's addresses that this machine has, unless one of these listeners serves it already.
    /// If this machine has none of them, they will be tried again. If the host's name isn't known, it will be looked up again.
    ///
    /// # Errors
    ///
    /// Why it is impossible to listen there for any other reason: anyone else listens at the first address that this machine
    /// has, for example. At the next address upsd would run beside another one, each with forced shutdowns and logins of its
    /// own. Also a lack of memory.
    pub fn add(&mut self, net: &impl Net, alloc: Global, host: &str, port: u16) -> io::Result<()> {
        match addresses_of(net, alloc, host, port) {
            Ok(addresses) => self.add_known(net, alloc, host, port, addresses),
            Err(error) if error.kind() == ErrorKind::OutOfMemory => Err(error),
            Err(error) => self.put_off(alloc, host, port, Vec::new(alloc), error),
        }
    }

    /// Listens at the first of these addresses of a host, as [`add`](Listeners::add) does.
    fn add_known(
        &mut self,
        net: &impl Net,
        alloc: Global,
        host: &str,
        port: u16,
        addresses: Vec<SocketAddr>,
    ) -> io::Result<()> {
        match self.listen_at(net, addresses.as_slice()) {
            Ok(Some(listener)) => self.places.push(ListenLine::Open(listener))?,
            Ok(None) => {}
            Err(error) if is_elsewhere(&error) => {
                self.put_off(alloc, host, port, addresses, error)?;
            }
            Err(error) => return Err(error),
        }
        Ok(())
    }

    /// Keeps a host to try it again.
    fn put_off(
        &mut self,
        alloc: Global,
        host: &str,
        port: u16,
        addresses: Vec<SocketAddr>,
        error: io::Error,
    ) -> io::Result<()> {
        let host = String::from_str(alloc, host)?;
        self.places.push(ListenLine::Missing(Missing {
            host,
            port,
            addresses,
            error,
            reason: HOST_UNKNOWN,
        }))?;
        Ok(())
    }

    /// How many places there are: the number of each listener is less.
    pub fn len(&self) -> usize {
        self.places.len()
    }

    /// Takes out the first host at which it isn't possible to listen, if clients can connect nowhere.
    pub fn take_obstacle(&mut self) -> Option<Missing> {
        let mut places = self.places.iter();
        let is_open = places.any(|place| matches!(place, ListenLine::Open(_)));
        if is_open || self.places.is_empty() {
            return None;
        }
        match self.places.remove(0) {
            ListenLine::Missing(missing) => Some(missing),
            ListenLine::Open(_) => None,
        }
    }

    /// Reports the addresses listened on, and the hosts that will be tried again.
    pub fn tell(&self, reports: &mut Reports<'_>) {
        for place in self.places.as_slice() {
            match place {
                ListenLine::Open(listener) => tell_open(listener, reports),
                ListenLine::Missing(missing) => tell_missing(missing, reports),
            }
        }
    }

    /// Registers the listeners with the poll.
    ///
    /// # Errors
    ///
    /// The error of a registration.
    pub fn register(&mut self, registry: &Registry) -> io::Result<()> {
        for (i, place) in self.places.iter_mut().enumerate() {
            if let ListenLine::Open(listener) = place {
                registry.register(listener, Source::Listener(i).token(), Interest::READABLE)?;
            }
        }
        Ok(())
    }

    /// Accepts the next client that waits at a listener.
    ///
    /// # Errors
    ///
    /// `WouldBlock` if none waits, or else why the client can't be accepted.
    pub fn accept(&self, i: usize) -> io::Result<(TcpStream, SocketAddr)> {
        match self.places.get(i) {
            Some(ListenLine::Open(listener)) => listener.accept(),
            Some(ListenLine::Missing(_)) | None => Err(io::Error::from(ErrorKind::WouldBlock)),
        }
    }

    /// Tries again to listen at the hosts where that wasn't possible, and reports where it succeeds now, or fails for another
    /// reason than before. Names are looked up by other processes, so it doesn't wait. It is called once a second.
    pub fn try_again<R: Net + Processes>(
        &mut self,
        net: &R,
        registry: &Registry,
        look_ups: &mut LookUps<'_, R>,
        reports: &mut Reports<'_>,
    ) {
        self.take_look_ups(look_ups, reports);
        self.listen_again(net, registry, reports);
        self.look_up(look_ups, reports);
    }

    /// Takes the results of the look-ups that have ended.
    fn take_look_ups(
        &mut self,
        look_ups: &mut LookUps<'_, impl Processes>,
        reports: &mut Reports<'_>,
    ) {
        look_ups.second();
        for _ in 0..self.places.len() {
            let Some(found) = look_ups.take() else {
                return;
            };
            self.note_found(&found, reports);
        }
    }

    /// Notes the result of a look-up, and reports why it gave no addresses unless that is as before.
    fn note_found(&mut self, found: &Found, reports: &mut Reports<'_>) {
        for place in self.places.iter_mut() {
            if let ListenLine::Missing(missing) = place
                && missing.host == found.name
                && missing.note_found(found)
            {
                tell_missing(missing, reports);
            }
        }
    }

    /// Begins to look up the hosts whose names aren't known, those apart that are being looked up.
    fn look_up(&mut self, look_ups: &mut LookUps<'_, impl Processes>, reports: &mut Reports<'_>) {
        for place in self.places.iter_mut() {
            if let ListenLine::Missing(missing) = place
                && missing.is_unknown()
                && look_ups.has_room()
                && !look_ups.is_going(missing.host.as_str())
                && let Err(error) = look_ups.start(missing.host.as_str())
                && missing.note(error)
            {
                tell_missing(missing, reports);
            }
        }
    }

    /// Tries again to listen at the hosts of which this machine had no address. A host whose name isn't known has none.
    fn listen_again(&mut self, net: &impl Net, registry: &Registry, reports: &mut Reports<'_>) {
        for i in 0..self.places.len() {
            let Some(ListenLine::Missing(missing)) = self.places.get(i) else {
                continue;
            };
            if missing.is_unknown() {
                continue;
            }
            match self.listen_at(net, missing.addresses.as_slice()) {
                Ok(Some(listener)) => self.open(i, listener, registry, reports),
                Ok(None) => {}
                Err(error) => self.note(i, error, reports),
            }
        }
    }

    /// Takes a listener for a host that was missing, and reports it.
    fn open(
        &mut self,
        i: usize,
        mut listener: TcpListener,
        registry: &Registry,
        reports: &mut Reports<'_>,
    ) {
        let token = Source::Listener(i).token();
        if let Err(error) = registry.register(&mut listener, token, Interest::READABLE) {
            self.note(i, error, reports);
            return;
        }
        tell_open(&listener, reports);
        if let Some(place) = self.places.get_mut(i) {
            *place = ListenLine::Open(listener);
        }
    }

    /// Notes why it was impossible to listen at a host, and reports it unless it is as before.
    fn note(&mut self, i: usize, error: io::Error, reports: &mut Reports<'_>) {
        let Some(ListenLine::Missing(missing)) = self.places.get_mut(i) else {
            return;
        };
        if missing.note(error) {
            tell_missing(missing, reports);
        }
    }

    /// Listens at the first of these addresses that this machine has. Returns `None` if one of the listeners serves it.
    fn listen_at(
        &self,
        net: &impl Net,
        addresses: &[SocketAddr],
    ) -> io::Result<Option<TcpListener>> {
        let mut last = io::Error::from(ErrorKind::NotFound);
        for address in addresses {
            last = match TcpListener::bind(net, *address) {
                Ok(listener) => return Ok(Some(listener)),
                Err(error) => error,
            };
            if !is_elsewhere(&last) {
                let is_served = last.kind() == ErrorKind::AddrInUse && self.serve(*address);
                return if is_served { Ok(None) } else { Err(last) };
            }
        }
        Err(last)
    }

    /// Whether one of these listeners serves clients at this address.
    fn serve(&self, address: SocketAddr) -> bool {
        self.places.iter().any(|place| match place {
            ListenLine::Open(listener) => serves(listener, address),
            ListenLine::Missing(_) => false,
        })
    }
}

/// Returns the addresses of a host, in the order in which the system gives them.
fn addresses_of(
    net: &impl Net,
    alloc: Global,
    host: &str,
    port: u16,
) -> io::Result<Vec<SocketAddr>> {
    let mut addresses = Vec::new(alloc);
    for address in (host, port).to_socket_addrs(net)? {
        addresses.push(address)?;
    }
    Ok(addresses)
}

/// Reports that clients may connect to a listener.
fn tell_open(listener: &TcpListener, reports: &mut Reports<'_>) {
    if let Ok(address) = listener.local_addr() {
        reports.tell(SocketReport::Listening(address));
    }
}

/// Reports that it is impossible to listen at a host yet.
fn tell_missing(missing: &Missing, reports: &mut Reports<'_>) {
    reports.warn(SocketReport::NotListening(missing.host.as_str(), missing.port, &missing.error));
}

/// Whether it is impossible to listen at an address because this machine doesn't have it, or doesn't know addresses of
/// its kind, as those of IPv6 where that is turned off.
fn is_elsewhere(error: &io::Error) -> bool {
    error.kind() == ErrorKind::AddrNotAvailable || error.raw_os_error() == Some(EAFNOSUPPORT)
}

/// Whether a listener serves clients at this address: the ports are the same, and so are the addresses, or the listener's
/// is every address of that kind.
fn serves(listener: &TcpListener, address: SocketAddr) -> bool {
    let Ok(at) = listener.local_addr() else {
        return false;
    };
    let (own, one) = (at.ip().to_canonical(), address.ip().to_canonical());
    let is_every = own.is_unspecified()
        && (own.is_ipv4() == one.is_ipv4() || own.is_ipv6() && takes_ipv4(listener));
    at.port() == address.port() && (is_every || own == one)
}
