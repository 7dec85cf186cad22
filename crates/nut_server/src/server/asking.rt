//! What a server can be asked.

ghost use Rattle.std.specs.Prelude.{◌≡◌, ◌≤◌, IfSome, length, false};
ghost use Rattle.std.specs.Option.{option_map_or};
ghost use Rattle.nut_queue.specs.Front.{IsFrontPart};
ghost use Rattle.nut_server_spec.specs.Device.{is_stale};
ghost use Rattle.nut_server_spec.specs.Acceptance.{session_of, supply_of, asks_of, kept, is_connected, has_login};
ghost use Rattle.nut_server.specs.Seats.{is_stranger, makes_way};

use crate::connection::Connection;
use crate::connections::is_stranger;
use crate::deeds::Deed;
use crate::device::Device;
use crate::server::Server;
use crate::unread::Unread;
use nut_conf::UPSES_MAX;
use nut_queue::ASKS_MAX;
use nut_server_spec::OPENED_MAX;
use nut_words::LINE_MAX;

impl Server {
    /// How many UPSes there are, at most [`UPSES_MAX`].
    pub fn number_of_upses(&self) -> usize
        ensures len { result ≡ length self.now.configuration.upses }
        ensures few { result ≤ UPSES_MAX }
    {
        self.parts.config.number_of_upses()
    }

    /// How many places for UPSes there are, at most [`UPSES_MAX`]: as many as the greatest configuration so far had UPSes.
    /// The number of each UPS is less.
    pub fn number_of_places(&self) -> usize
        ensures len { result ≡ length self.now.supplies }
        ensures few { result ≤ UPSES_MAX }
    {
        self.parts.devices.len()
    }

    /// Whether the client of a connection is logged in to a UPS: false if the connection isn't open.
    pub fn is_logged_in(&self, c: u64) -> bool
        ensures { result ≡ has_login (session_of c self.now.sessions) }
    {
        match self.parts.connections.get(c) {
            Some(connection) => connection.login().is_some(),
            None => false,
        }
    }

    /// Whether the client of a connection isn't logged in, and hasn't given the name and the password of a user: false if the
    /// connection isn't open.
    pub fn is_stranger(&self, c: u64) -> bool
        ensures { result ≡ option_map_or (is_stranger self.now.configuration.users) (session_of c self.now.sessions) false }
    {
        match self.parts.connections.get(c) {
            Some(connection) => is_stranger(&self.parts.config, connection),
            None => false,
        }
    }

    /// How many bytes are kept of a connection's unfinished line, at most [`LINE_MAX`].
    pub fn kept(&self, c: u64) -> usize
        ensures value { result ≡ kept (session_of c self.now.sessions) }
        ensures within { result ≤ LINE_MAX }
    {
        self.parts.connections.get(c).map_or(0, Connection::kept)
    }

    /// Whether the driver of a UPS is connected.
    pub fn is_connected(&self, u: usize) -> bool
        ensures { result ≡ is_connected (supply_of u self.now.supplies) }
    {
        self.parts.devices.get(u).is_some_and(Device::is_connected)
    }

    /// Whether the data of a UPS are stale. If its driver is connected, clients are then answered DATA-STALE. A place
    /// that a reload has left without a UPS is stale. False if no place has this number.
    pub fn is_stale(&self, u: usize) -> bool
        ensures { result ≡ option_map_or (λ s. is_stale self.now.configuration.max_age self.now.clock s.device) (supply_of u self.now.supplies) false }
    {
        match self.parts.devices.get(u) {
            Some(device) => {
                device.is_stale(u64::from(self.parts.config.max_age()), self.parts.clock)
            }
            None => false,
        }
    }

    /// Whether a shutdown of a UPS was forced (FSD). Clients then see `FSD ` before the value of its `ups.status`.
    /// False if there is no such UPS.
    pub fn is_forced(&self, u: usize) -> bool
        ensures { result ≡ option_map_or (λ s. s.device.forced) (supply_of u self.now.supplies) false }
    {
        self.parts.devices.get(u).is_some_and(Device::is_forced)
    }

    /// Returns about which variables the driver of a UPS has sent unreadable lines, if there is such a place. It counts
    /// since the server was made, or since a reload gave the place another UPS or driver.
    pub fn unread(&self, u: usize) -> Option<&Unread> {
        self.parts.devices.get(u).map(Device::unread)
    }

    /// Returns the last deed of the client whose bytes were the last arrival, if it did one by them: a request that was handed
    /// on to a driver, a LOGIN, LOGOUT or FSD that was granted, or one that was answered ACCESS-DENIED.
    pub fn deed(&self) -> Option<&Deed> {
        self.parts.deed.as_ref()
    }

    /// How many bytes wait for the driver of a UPS, at most [`ASKS_MAX`]: 0 where there is no such UPS.
    pub fn waits_for_driver(&self, u: usize) -> usize
        ensures value { result ≡ length (asks_of u self.now.supplies) }
        ensures within { result ≤ ASKS_MAX }
    {
        self.parts.devices.get(u).map_or(0, Device::waits)
    }

    /// Returns a front part of the bytes that wait for the driver of a UPS. It is empty only if none wait.
    pub fn waiting_for_driver(&self, u: usize) -> &[u8]
        ensures { IsFrontPart result.now (asks_of u self.now.supplies) }
    {
        match self.parts.devices.get(u) {
            Some(device) => device.waiting(),
            None => &[],
        }
    }

    /// Returns the number of the connection to close if a client calls: the oldest whose client isn't logged in. Those whose
    /// clients gave the name and the password of a user come last. Returns `None` if a connection can be opened as it is, if
    /// all clients are logged in, or if [`OPENED_MAX`] connections were opened.
    pub fn makes_way(&self) -> Option<u64>
        ensures value { result ≡ makes_way self.now }
        ensures not_logged_in { IfSome result (λ c. has_login (session_of c self.now.sessions) ≡ false) }
    {
        if self.parts.connections.len() < self.parts.config.most_connections()
            || self.parts.opened >= OPENED_MAX
        {
            return None;
        }
        self.parts
            .connections
            .longest_without_login(&self.parts.config)
    }
}
