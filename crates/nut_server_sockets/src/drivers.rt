//! The drivers of a server's UPSes.

use crate::driver::Driver;
use nut_conf::UPSES_MAX;
use nut_server::{Server, Ups};
use std::alloc::{AllocError, Global};

/// The drivers of a server's UPSes, by the numbers of the UPSes, which are less than [`UPSES_MAX`]. A number that no UPS
/// has stands for no driver.
#[derive(Drop)]
pub struct Drivers {
    alloc: Global,
    /// The folder of their sockets.
    folder: String,
    by_number: Vec<Option<Driver>>,
    /// Whether a UPS has no driver because memory was lacking.
    is_behind: bool,
}

impl Drivers {
    /// Returns the drivers of a server's UPSes, not yet connected. Their sockets are in this folder.
    ///
    /// # Errors
    ///
    /// [`AllocError`] if memory cannot be allocated.
    pub fn new(alloc: Global, folder: &str, server: &Server) -> Result<Drivers, AllocError> {
        let mut by_number = Vec::with_capacity(alloc, UPSES_MAX)?;
        for _ in 0..UPSES_MAX {
            by_number.push(None)?;
        }
        let mut drivers = Drivers {
            alloc,
            folder: String::from_str(alloc, folder)?,
            by_number,
            is_behind: false,
        };
        drivers.follow(server);
        if drivers.is_behind {
            return Err(AllocError);
        }
        Ok(drivers)
    }

    /// Makes them the drivers of the UPSes that the server has now. A driver whose UPS and program are the same stays
    /// connected, and the links of those that go are closed. If memory is lacking for a new one, its UPS has none until
    /// [`catch_up`](Drivers::catch_up) finds some.
    pub fn follow(&mut self, server: &Server) {
        self.is_behind = false;
        for u in 0..self.by_number.len() {
            let ups = server
                .ups_name(u)
                .and_then(|name| server.config().ups_named(name));
            if self.renew(u, ups).is_err() {
                self.is_behind = true;
            }
        }
    }

    /// Tries again to make the drivers for which memory was lacking.
    pub fn catch_up(&mut self, server: &Server) {
        if self.is_behind {
            self.follow(server);
        }
    }

    /// Makes the driver of this number that of a UPS, unless it is already.
    fn renew(&mut self, u: usize, ups: Option<Ups<'_>>) -> Result<(), AllocError> {
        let Some(place) = self.by_number.get_mut(u) else {
            return Ok(());
        };
        let Some(ups) = ups else {
            *place = None;
            return Ok(());
        };
        if matches!(place, Some(driver) if driver.is(ups.driver, ups.name)) {
            return Ok(());
        }
        *place = None;
        let driver = Driver::new(self.alloc, self.folder.as_str(), ups.driver, ups.name)?;
        *place = Some(driver);
        Ok(())
    }

    /// How many numbers there may be, from 0 on.
    pub fn len(&self) -> usize {
        self.by_number.len()
    }

    /// Returns the drivers by their numbers.
    pub fn as_slice(&self) -> &[Option<Driver>] {
        self.by_number.as_slice()
    }

    /// Whether there is a driver of the UPS with this number, and it isn't connected.
    pub fn is_unconnected(&self, u: usize) -> bool {
        matches!(self.by_number.get(u), Some(Some(driver)) if !driver.is_connected())
    }

    /// Returns the driver of the UPS with this number, if there is one.
    pub fn get_mut(&mut self, u: usize) -> Option<&mut Driver> {
        match self.by_number.get_mut(u) {
            Some(Some(driver)) => Some(driver),
            _ => None,
        }
    }

    /// Makes clients wait until each driver that is connected says something and all of that is read.
    pub fn await_words(&mut self) {
        for place in self.by_number.iter_mut() {
            if let Some(driver) = place {
                driver.await_word();
            }
        }
    }

    /// Whether clients wait for a driver.
    pub fn are_awaited(&self) -> bool {
        self.by_number.iter().any(|place| matches!(place, Some(driver) if driver.is_awaited()))
    }
}
