//! The host of a server, whose addresses are dialled one after the other.

use crate::dialler::Dialler;
use crate::pause::Pause;
use mio::net::TcpStream;
use nut_conf::Target;
use nut_poll::{ADDRESSES_MAX, text_of};
use std::alloc::{AllocError, Global};
use std::io;
use std::net::{IpAddr, Ipv4Addr, Ipv6Addr, Net, SocketAddr};

/// The most seconds between two look-ups of a host.
const LONGEST_PAUSE: u8 = 60;

/// A host, a port, and the known addresses of the host. The addresses are dialled in rounds: each of them once, one
/// after the other, until the host serves at one.
#[derive(Drop)]
pub struct DialledHost {
    name: String,
    port: u16,
    /// Whether the host is a name whose addresses have to be looked up.
    is_named: bool,
    addresses: Vec<IpAddr>,
    /// How many of the addresses were dialled in this round.
    dialled: usize,
    /// Whether the host is to be looked up.
    is_wanted: bool,
    /// The pause before the next look-up.
    pause: Pause,
}

impl DialledHost {
    /// Returns the host and the port of a target. An address and `localhost`, whose addresses are those of this machine, need no
    /// look-up.
    ///
    /// # Errors
    ///
    /// [`AllocError`] if memory cannot be allocated.
    pub fn new(alloc: Global, target: &Target) -> Result<DialledHost, AllocError> {
        let name = text_of(target.host.as_bytes());
        let mut addresses = Vec::with_capacity(alloc, ADDRESSES_MAX)?;
        if let Ok(address) = name.parse::<IpAddr>() {
            addresses.push(address)?;
        } else if name.eq_ignore_ascii_case("localhost") {
            addresses.push(IpAddr::V4(Ipv4Addr::LOCALHOST))?;
            addresses.push(IpAddr::V6(Ipv6Addr::LOCALHOST))?;
        }
        let is_named = addresses.is_empty();
        Ok(DialledHost {
            name: String::from_str(alloc, name)?,
            port: target.port.number,
            is_named,
            addresses,
            dialled: 0,
            is_wanted: is_named,
            pause: Pause::none(),
        })
    }

    /// Returns the name of the host.
    pub fn name(&self) -> &str {
        self.name.as_str()
    }

    /// Whether an address of the host is known.
    pub fn has_addresses(&self) -> bool {
        !self.addresses.is_empty()
    }

    /// Returns the known addresses of the host, in the order in which they are dialled.
    pub fn addresses(&self) -> &[IpAddr] {
        &self.addresses
    }

    /// Counts a second that has passed.
    pub fn second(&mut self) {
        self.pause.second(LONGEST_PAUSE);
    }

    /// Returns the last pause between look-ups, in seconds, if another look-up is due: no address is known, or all have
    /// failed.
    pub fn due_look_up(&self) -> Option<u8> {
        if self.is_wanted && self.pause.is_over() {
            Some(self.pause.length())
        } else {
            None
        }
    }

    /// Replaces the known addresses by those that were found, unless none was, and begins a round with them. The next
    /// look-up comes after a pause.
    pub fn take_addresses(&mut self, found: &[IpAddr]) {
        self.pause.begin(LONGEST_PAUSE);
        if found.is_empty() {
            return;
        }
        self.addresses.clear();
        for address in found {
            let _ = self.addresses.push(*address);
        }
        self.is_wanted = false;
        self.dialled = 0;
    }

    /// Notes that the host serves at the address that was dialled last. The next round begins with it, since an address
    /// that doesn't answer costs seconds. The pauses between look-ups are short again.
    pub fn serve(&mut self) {
        self.is_wanted = false;
        self.pause = Pause::none();
        if self.dialled > 1 && self.dialled <= self.addresses.len() {
            self.addresses.swap(0, self.dialled - 1);
        }
        self.dialled = 0;
    }

    /// Begins a round if all addresses were dialled in the last one.
    pub fn begin(&mut self) {
        if self.is_round_over() {
            self.dialled = 0;
        }
    }

    /// Notes that a link to the address that was dialled last ended before the host served. A named host is to be
    /// looked up again if no address is left in this round.
    pub fn lose(&mut self) {
        if self.is_round_over() {
            self.is_wanted = self.is_named;
        }
    }

    fn is_round_over(&self) -> bool {
        self.dialled >= self.addresses.len()
    }

    /// Dials the next address of the round that doesn't refuse at once.
    ///
    /// # Errors
    ///
    /// The error of the last address, or `error` if no address is left. A named host is then to be looked up again.
    pub fn dial(
        &mut self,
        dialler: &Dialler<'_, impl Net>,
        mut error: io::Error,
    ) -> io::Result<TcpStream> {
        for _ in 0..self.addresses.len() {
            let Some(address) = self.addresses.get(self.dialled) else {
                break;
            };
            let address = SocketAddr::new(*address, self.port);
            self.dialled = self.dialled.saturating_add(1);
            match dialler.dial(address) {
                Ok(stream) => return Ok(stream),
                Err(refusal) => error = refusal,
            }
        }
        self.is_wanted = self.is_named;
        Err(error)
    }
}
