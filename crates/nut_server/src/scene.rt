//! The scene: what the server knows when it answers a line.

ghost use Rattle.std.specs.Prelude.{◌≡◌, ℕ, List, None, Some, IfSome, MatchResult};
ghost use Rattle.nut_proto.specs.declared.refusal.Refusal.TheVariants as refusals;
ghost use Rattle.nut_server_spec.specs.Answer as definitions;
ghost use Rattle.nut_server_spec.specs.Answer.{ups_number, device_at, on_device, refused, status_of};
ghost use Rattle.nut_server_spec.specs.Configuration.{number_of_ups};
ghost use Rattle.nut_server_spec.specs.Device as devices;
ghost use Rattle.nut_server_spec.specs.Device.{trouble};

use crate::config::Config;
use crate::connections::Connections;
use crate::device::Device;
use nut_proto::{Refusal, TrackingStatus};
use std::marker::Model;

/// What an answer reads: the configuration, the numbers of its UPSes in the order of ups.conf, and the time in seconds
/// since the start. Also how many numbers were given to requests, the UPSes by their numbers, and the open
/// connections.
#[derive(Drop)]
pub struct Scene<'a> {
    pub config: &'a Config,
    pub numbers: &'a [usize],
    pub clock: u64,
    pub given: u32,
    pub devices: &'a [Device],
    pub connections: &'a Connections,
    /// The place in ups.conf of the UPS that is probably asked for. No answer depends on it.
    pub likely: usize,
}

impl<'a> Model for Scene<'a> {
    ghost use Rattle.std.specs.Prelude.{map};
    ghost use Rattle.nut_server_spec.specs.Answer as definitions;
    ghost use Rattle.nut_server_spec.specs.machine.Machine.{guest_of};

    ghost Value = { definitions.Scene };

    ghost view = { λ s. record {
      configuration = s.config.now;
      numbers = s.numbers.now;
      clock = s.clock;
      given = s.given;
      devices = map (λ d. d.device) s.devices.now;
      guests = map guest_of s.connections.now;
    } };
}

impl<'a> Scene<'a> {
    /// Returns the number of the UPS with this name, or `UnknownUps` if there is none.
    pub fn number_of(&self, name: &[u8]) -> Result<usize, Refusal>
        ensures { MatchResult result
            (λ u. ups_number self.now name.now ≡ Some u)
            (λ refusal. (ups_number self.now name.now ≡ None) × (refusal ≡ refusals.UnknownUps)) }
    {
        self.number_at(self.config.find_likely_ups(self.likely, name))
    }

    /// Returns the number of the UPS that was found at this place of ups.conf, or `UnknownUps` if none was.
    fn number_at(&self, place: Option<usize>) -> Result<usize, Refusal>
        ensures { (name : List ℕ) → place ≡ number_of_ups name self.now.configuration.upses → MatchResult result
            (λ u. ups_number self.now name ≡ Some u)
            (λ refusal. (ups_number self.now name ≡ None) × (refusal ≡ refusals.UnknownUps)) }
    {
        let Some(place) = place else {
            return Err(Refusal::UnknownUps);
        };
        self.numbers.get(place).copied().ok_or(Refusal::UnknownUps)
    }

    /// Returns the UPS with this number, or `DriverNotConnected` or `DataStale` if its data can't be relied on.
    #[tactic(auto, using(std::proofs::lemmas::Grind::common_steps))]
    pub fn data_of(&self, u: usize) -> Result<&'a Device, Refusal>
        ensures { MatchResult result
            (λ d. (device_at self.now u ≡ d.now.device)
            × (trouble self.now.configuration.max_age self.now.clock (device_at self.now u) ≡ None))
            (λ refusal. trouble self.now.configuration.max_age self.now.clock (device_at self.now u) ≡ Some refusal) }
    {
        let Some(device) = self.devices.get(u) else {
            return Err(Refusal::DriverNotConnected);
        };
        match device.trouble(u64::from(self.config.max_age()), self.clock) {
            Some(refusal) => Err(refusal),
            None => Ok(device),
        }
    }

    /// Returns the UPS with this name, or `UnknownUps` if there is none, or `DriverNotConnected` or `DataStale` if its data
    /// can't be relied on.
    pub fn device_named(&self, name: &[u8]) -> Result<&'a Device, Refusal>
        ensures { MatchResult result
            (λ d. (next : devices.Device → definitions.Answer) → on_device self.now name.now next ≡ next d.now.device)
            (λ refusal. (next : devices.Device → definitions.Answer) → on_device self.now name.now next ≡ refused refusal) }
    {
        self.device_at(self.config.find_likely_ups(self.likely, name))
    }

    /// Returns the UPS that was found at this place of ups.conf, as [`device_named`](Self::device_named) does.
    pub fn device_at(&self, place: Option<usize>) -> Result<&'a Device, Refusal>
        ensures { (name : List ℕ) → place ≡ number_of_ups name self.now.configuration.upses → MatchResult result
            (λ d. (next : devices.Device → definitions.Answer) → on_device self.now name next ≡ next d.now.device)
            (λ refusal. (next : devices.Device → definitions.Answer) → on_device self.now name next ≡ refused refusal) }
    {
        self.data_of(self.number_at(place)?)
    }

    /// Returns the number of the UPS that was found at this place of ups.conf, if its data can be relied on.
    pub fn number_with_data(&self, place: Option<usize>) -> Option<usize>
        ensures { (name : List ℕ) → place ≡ number_of_ups name self.now.configuration.upses → IfSome result (λ u.
            (next : devices.Device → definitions.Answer) → on_device self.now name next ≡ next (device_at self.now u)) }
    {
        let u = self.number_at(place).ok()?;
        match self.data_of(u) {
            Ok(_) => Some(u),
            Err(_) => None,
        }
    }

    /// Returns how the tracked request with this number ended: `Unknown` if no UPS remembers it.
    pub fn status_of(&self, number: u32) -> TrackingStatus
        ensures { result ≡ status_of number self.now.devices }
    {
        for device in self.devices {
            if let Some(status) = device.status_of(number) {
                return status;
            }
        }
        TrackingStatus::Unknown
    }
}
