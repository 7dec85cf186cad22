//! Puts a new configuration in force.

ghost use Rattle.std.specs.Prelude.{◌≡◌, ◌≤◌, ◌<◌, ◌-◌, ◌++◌, not, ◌&&◌, OnErr, OnOk, filter, length, map, option_map};
ghost use Rattle.nut_server_spec.specs.Acceptance.{is_connected, supply_of};
ghost use Rattle.nut_server_spec.specs.Content.{numbering_of, unheard};
ghost use Rattle.nut_server_spec.specs.Event.{Reload};
ghost use Rattle.nut_server_spec.specs.machine.MachineOutcome.{Answers, content_after};
ghost use Rattle.nut_server_spec.specs.Numbering.{below, fate_of, ups_with};
ghost use Rattle.nut_server_spec.specs.Reloading.{connections_ended, drivers_ended, is_kept};
ghost use Rattle.nut_server_spec.specs.machine.Machine.{changed_from, fated, reloaded, with_supplies};
ghost use Rattle.nut_server.specs.inside.Fates.{fate_in};

use crate::config::Config;
use crate::connections::CLOSED_MAX;
use crate::device::Device;
use crate::numbering::Numbering;
use crate::reloading::Reloading;
use crate::server::{Parts, Server, untold};
use arrayvec::ArrayVec;
use nut_conf::UPSES_MAX;
use nut_server_spec::{Place, Refused};
use std::alloc::{AllocError, Global};
use std::mem;

/// What a reload ends, each by rising number.
#[derive(Drop)]
pub struct Ended {
    /// The UPSes whose drivers it disconnects: those that are connected, and whose UPS goes or gets another driver.
    pub drivers: ArrayVec<usize, UPSES_MAX>,
    /// The connections that it closes: those whose client is logged in to a UPS that goes.
    pub connections: ArrayVec<u64, CLOSED_MAX>,
}

/// Adds UPSes whose drivers were never connected until there are `count`. If memory cannot be allocated, nothing changes.
fn grow(alloc: Global, devices: &mut Vec<Device>, count: usize) -> Result<(), AllocError>
    ensures ok { OnOk result (devices.new.items ≡ devices.old.items ++ map (λ u. unheard) (below (count - length devices.old.items))) }
    ensures err { OnErr result (devices.new.items ≡ devices.old.items) }
    ensures more { OnErr result (length devices.old.items < count) }
{
    let here = devices.len();
    if count <= here {
        return Ok(());
    }
    let mut new = untold(alloc, count - here)?;
    devices.append(&mut new)
}

/// Changes each UPS as the reload says.
fn meet_fates(devices: &mut [Device], reloading: &Reloading<'_>)
    ensures { devices.new ≡ changed_from 0 (λ u. fated (fate_in reloading.now u)) devices.old }
{
    for u in 0..devices.len() {
        devices[u].meet(reloading.fate_of(u));
    }
}

impl Parts {
    /// Returns the UPSes and their numbers.
    fn numbering(&self) -> Numbering<'_>
        ensures { result ≡ numbering_of self.now }
    {
        Numbering {
            config: &self.config,
            numbers: self.numbers.as_slice(),
        }
    }

    /// Puts a new configuration in force, as [`reload`](Self::reload) does. It stands apart, so that no other arrival pays for
    /// the place of a configuration.
    pub(super) fn reload_boxed(&mut self, config: Box<Config>) -> Result<(), Refused>
        ensures answered { Answers self.old (Reload config.value) result }
        ensures content { self.new ≡ content_after result self.old (Reload config.value) }
    {
        self.reload(Box::into_inner(config))
    }

    /// Puts a new configuration in force. Allocates memory only if it has more UPSes than there are places.
    fn reload(&mut self, config: Config) -> Result<(), Refused>
        ensures answered { Answers self.old (Reload config) result }
        ensures content { self.new ≡ content_after result self.old (Reload config) }
    {
        match self.add_places(config.number_of_upses()) {
            Ok(()) => {
                self.put_in_force(config);
                Ok(())
            }
            Err(_) => {
                drop(config);
                Err(Refused::Memory(Place::NewUpses))
            }
        }
    }

    /// Adds UPSes of which nothing is known until there are places for `count`. If memory cannot be allocated, nothing
    /// changes.
    fn add_places(&mut self, count: usize) -> Result<(), AllocError>
        requires { count ≤ UPSES_MAX }
        ensures ok { OnOk result (self.new ≡ with_supplies (self.old.supplies ++ map (λ u. unheard) (below (count - length self.old.supplies))) self.old) }
        ensures err { OnErr result (self.new ≡ self.old) }
        ensures more { OnErr result (length self.old.supplies < count) }
    {
        grow(self.alloc, &mut self.devices, count)
    }

    /// Puts a new configuration in force. There is a place for each of its UPSes.
    fn put_in_force(&mut self, config: Config)
        requires { length config.upses ≤ length self.old.supplies }
        ensures { self.new ≡ with_supplies
            (changed_from 0 (λ u. fated (fate_of config.upses (numbering_of self.old) u)) self.old.supplies)
            (reloaded config self.old) }
    {
        config.is_within_limits();
        let numbers = self.numbering().renumbered(&config);
        let reloading = Reloading {
            before: Numbering {
                config: &self.config,
                numbers: self.numbers.as_slice(),
            },
            after: Numbering {
                config: &config,
                numbers: numbers.as_slice(),
            },
        };
        self.connections.close_cleared(&reloading);
        meet_fates(self.devices.as_mut_slice(), &reloading);
        self.numbers = numbers;
        drop(mem::replace(&mut self.config, config));
    }
}

impl Server {
    /// Returns the name of the UPS with this number, if there is one.
    pub fn ups_name(&self, u: usize) -> Option<&[u8]>
        ensures { option_map (λ name. name.now) result ≡ option_map (λ ups. ups.name) (ups_with u (numbering_of self.now)) }
    {
        self.parts.numbering().ups_with(u).map(|ups| ups.name)
    }

    /// Returns what a reload of this configuration ends, if it comes now.
    pub fn ended_by(&self, config: &Config) -> Ended
        ensures drivers { result.drivers.items ≡ drivers_ended config.now self.now }
        ensures connections { result.connections.items ≡ connections_ended config.now self.now }
    {
        let numbers = self.parts.numbering().renumbered(config);
        let reloading = Reloading {
            before: self.parts.numbering(),
            after: Numbering {
                config,
                numbers: numbers.as_slice(),
            },
        };
        Ended {
            drivers: drivers_that_end(self.parts.devices.as_slice(), &reloading),
            connections: self.parts.connections.cleared(&reloading),
        }
    }
}

/// Returns the UPSes whose drivers the reload disconnects, by rising number.
fn drivers_that_end(devices: &[Device], reloading: &Reloading<'_>) -> ArrayVec<usize, UPSES_MAX>
    requires { length devices.now ≤ UPSES_MAX }
    ensures { result.items ≡ filter (λ u. is_connected (supply_of u devices.now) && not (is_kept (fate_in reloading.now u))) (below (length devices.now)) }
{
    let mut ended = ArrayVec::new();
    for u in 0..devices.len() {
        if devices[u].ends(reloading.fate_of(u)) {
            ended.push(u);
        }
    }
    ended
}
