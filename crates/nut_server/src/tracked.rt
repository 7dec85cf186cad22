//! The newest tracked requests to a UPS, and how they ended.

ghost use Rattle.std.specs.Prelude.{◌≡◌, ◌==◌, [], Some, find, option_map};
ghost use Rattle.nut_server_spec.specs.Tracking.{Tracked as TrackedValue, abandoned, all_abandoned, all_ended_by, ended_by, with_tracked};

use arrayvec::ArrayVec;
use nut_proto::TrackingStatus;
use nut_server_spec::TRACKED_MAX;
use std::marker::Model;

/// A tracked request and how it ended.
#[derive(Drop)]
struct Tracked {
    number: u32,
    status: TrackingStatus,
}

impl Model for Tracked {
    ghost use Rattle.nut_server_spec.specs.Tracking.{Tracked as TrackedValue};

    ghost Value = { TrackedValue };

    ghost view = { λ t. record { number = t.number; status = t.status } };
}

impl Default for Tracked {
    fn default() -> Tracked {
        Tracked {
            number: 0,
            status: TrackingStatus::Unknown,
        }
    }
}

impl Tracked {
    /// Ends it, if it has this number and is pending. The status 0 is a success.
    fn end(&mut self, number: u32, status: u32)
        ensures { self.new ≡ record { number = self.old.number; status = ended_by (Some (number, status)) self.old.number self.old.status } }
    {
        if self.number != number || self.status != TrackingStatus::Pending {
            return;
        }
        self.status = if status == 0 {
            TrackingStatus::Success
        } else {
            TrackingStatus::Failed
        };
    }

    /// Fails it, if it is pending.
    fn abandon(&mut self)
        ensures { self.new ≡ record { number = self.old.number; status = abandoned self.old.status } }
    {
        if self.status == TrackingStatus::Pending {
            self.status = TrackingStatus::Failed;
        }
    }
}

/// Ends the request with this number, if it is among these and pending.
fn end_one(requests: &mut [Tracked], number: u32, status: u32)
    ensures { requests.new ≡ all_ended_by (Some (number, status)) requests.old }
{
    for request in requests.iter_mut() {
        request.end(number, status);
    }
}

/// Fails those of the requests that are pending.
fn abandon_all(requests: &mut [Tracked])
    ensures { requests.new ≡ all_abandoned requests.old }
{
    for request in requests.iter_mut() {
        request.abandon();
    }
}

/// The newest tracked requests to a UPS, the newest first: at most [`TRACKED_MAX`].
#[derive(Drop)]
pub struct TrackedRequests {
    requests: ArrayVec<Tracked, TRACKED_MAX>,
}

impl Model for TrackedRequests {
    ghost use Rattle.std.specs.Prelude.{List};
    ghost use Rattle.nut_server_spec.specs.Tracking.{Tracked as TrackedValue};

    ghost Value = { List TrackedValue };

    ghost view = { λ t. t.requests.items };
}

impl TrackedRequests {
    /// Returns an empty list.
    pub fn new() -> TrackedRequests
        ensures { result ≡ [] }
    {
        TrackedRequests {
            requests: ArrayVec::new(),
        }
    }

    /// Adds a request with this number, which is pending. The oldest is forgotten if there is no room.
    pub fn begin(&mut self, number: u32)
        ensures { self.new ≡ with_tracked (Some number) self.old }
    {
        if self.requests.is_full() {
            self.requests.pop();
        }
        self.requests.insert(
            0,
            Tracked {
                number,
                status: TrackingStatus::Pending,
            },
        );
    }

    /// Ends the request with this number, if it is pending: the driver reported this status, where 0 is a success.
    pub fn end(&mut self, number: u32, status: u32)
        ensures { self.new ≡ all_ended_by (Some (number, status)) self.old }
    {
        end_one(self.requests.as_mut_slice(), number, status);
    }

    /// Fails all that are pending: the driver is gone.
    pub fn abandon(&mut self)
        ensures { self.new ≡ all_abandoned self.old }
    {
        abandon_all(self.requests.as_mut_slice());
    }

    /// Returns how the request with this number ended, if it is remembered.
    pub fn status_of(&self, number: u32) -> Option<TrackingStatus>
        ensures { result ≡ option_map (λ t. t.status) (find (λ t. t.number == number) self.now) }
    {
        self.requests
            .iter()
            .find(|request| request.number == number)
            .map(|request| request.status)
    }
}
