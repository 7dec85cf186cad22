//! Handles each kind of arrival, with the tests that refuse it. What the lines of clients do is in `hearing`.

ghost use Rattle.std.specs.Prelude.{◌≡◌, map};
ghost use Rattle.nut_server_spec.specs.Event.{Moment, Open, Bytes, Took, Close, DriverUp, DriverBytes, DriverTook, DriverDown};
ghost use Rattle.nut_server_spec.specs.machine.Machine.{advance, ticked};
ghost use Rattle.nut_server_spec.specs.machine.MachineOutcome.{Answers, content_after};

use crate::address::address_of;
use crate::connection::Connection;
use crate::device::Device;
use crate::server::Parts;
use nut_server_spec::{OPENED_MAX, Place, Refused};
use nut_words::PIECE_MAX;

/// Sends PING at this time to each driver that needs it.
fn tick_all(devices: &mut [Device], max_age: u64, time: u64)
    ensures { devices.new ≡ map (ticked max_age time) devices.old }
{
    for device in devices.iter_mut() {
        device.tick(max_age, time);
    }
}

impl Parts {
    /// Notes that at least `t` seconds have passed since the start. Allocates no memory.
    #[tactic(auto, using(std::proofs::lemmas::Grind::common_steps))]
    pub(super) fn moment(&mut self, t: u64)
        ensures { self.new ≡ advance self.old (Moment t) }
    {
        self.clock = self.clock.max(t);
        tick_all(
            self.devices.as_mut_slice(),
            u64::from(self.config.max_age()),
            self.clock,
        );
    }

    /// Opens a connection from this address. Allocates no memory.
    pub(super) fn open(&mut self, address: &[u8]) -> Result<(), Refused>
        ensures answered { Answers self.old (Open address.now) result }
        ensures content { self.new ≡ content_after result self.old (Open address.now) }
    {
        let Some(address) = address_of(address) else {
            return Err(Refused::BadAddress);
        };
        if self.connections.len() >= self.config.most_connections() || self.opened >= OPENED_MAX {
            return Err(Refused::Full);
        }
        let number = self.opened + 1;
        self.connections
            .add(Connection::new(self.alloc, number, address));
        self.opened = number;
        Ok(())
    }

    /// Handles a piece of a connection. If memory runs out in it, the connection is closed.
    #[tactic(auto, using(std::proofs::lemmas::Grind::common_steps))]
    pub(super) fn bytes(&mut self, c: u64, piece: &[u8]) -> Result<(), Refused>
        ensures answered { Answers self.old (Bytes c piece.now) result }
        ensures content { self.new ≡ content_after result self.old (Bytes c piece.now) }
    {
        let Some(at) = self.connections.place_of(c) else {
            return Err(Refused::NoSuchConnection);
        };
        if piece.len() > PIECE_MAX {
            return Err(Refused::PieceTooLong);
        }
        if self.connections.at(at).waits() > 0 {
            return Err(Refused::Busy);
        }
        if let Err(done) = self.hear(c, at, piece) {
            return Err(Refused::Memory(Place::Line(c, done)));
        }
        Ok(())
    }

    /// Removes the first `n` of the bytes that wait for a connection: it took them.
    pub(super) fn took(&mut self, c: u64, n: usize) -> Result<(), Refused>
        ensures answered { Answers self.old (Took c n) result }
        ensures content { self.new ≡ content_after result self.old (Took c n) }
    {
        let Some(at) = self.connections.place_of(c) else {
            return Err(Refused::NoSuchConnection);
        };
        if n > self.connections.at(at).waits() {
            return Err(Refused::TooMuchTaken);
        }
        self.connections.took(at, n);
        Ok(())
    }

    /// Closes a connection.
    pub(super) fn close(&mut self, c: u64) -> Result<(), Refused>
        ensures answered { Answers self.old (Close c) result }
        ensures content { self.new ≡ content_after result self.old (Close c) }
    {
        let Some(_) = self.connections.place_of(c) else {
            return Err(Refused::NoSuchConnection);
        };
        self.connections.remove(c);
        Ok(())
    }

    /// Connects a driver. Allocates no memory.
    pub(super) fn driver_up(&mut self, u: usize) -> Result<(), Refused>
        ensures answered { Answers self.old (DriverUp u) result }
        ensures content { self.new ≡ content_after result self.old (DriverUp u) }
    {
        if !self.numbers.as_slice().contains(&u) {
            return Err(Refused::NotConnected);
        }
        self.devices[u].up(self.clock);
        Ok(())
    }

    /// Handles a piece of a driver. If memory runs out in it, the driver counts as disconnected.
    pub(super) fn driver_bytes(&mut self, u: usize, piece: &[u8]) -> Result<(), Refused>
        ensures answered { Answers self.old (DriverBytes u piece.now) result }
        ensures content { self.new ≡ content_after result self.old (DriverBytes u piece.now) }
    {
        if u >= self.devices.len() || !self.devices[u].is_connected() {
            return Err(Refused::NotConnected);
        }
        if piece.len() > PIECE_MAX {
            return Err(Refused::PieceTooLong);
        }
        if let Err(done) = self.devices[u].hear(self.clock, piece) {
            return Err(Refused::Memory(Place::Report(u, done)));
        }
        Ok(())
    }

    /// Removes the first `n` of the bytes that wait for a driver: it took them.
    pub(super) fn driver_took(&mut self, u: usize, n: usize) -> Result<(), Refused>
        ensures answered { Answers self.old (DriverTook u n) result }
        ensures content { self.new ≡ content_after result self.old (DriverTook u n) }
    {
        if u >= self.devices.len() || !self.devices[u].is_connected() {
            return Err(Refused::NotConnected);
        }
        if n > self.devices[u].waits() {
            return Err(Refused::TooMuchTaken);
        }
        self.devices[u].took(n);
        Ok(())
    }

    /// Disconnects a driver.
    pub(super) fn driver_down(&mut self, u: usize) -> Result<(), Refused>
        ensures answered { Answers self.old (DriverDown u) result }
        ensures content { self.new ≡ content_after result self.old (DriverDown u) }
    {
        if u >= self.devices.len() || !self.devices[u].is_connected() {
            return Err(Refused::NotConnected);
        }
        self.devices[u].down();
        Ok(())
    }
}
