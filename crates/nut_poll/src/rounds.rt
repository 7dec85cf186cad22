//! Waits for many sockets.

ghost use Rattle.std.specs.Prelude.{◌≡◌, [], IfOk, nat_lt, if◌then◌else◌};
ghost use Rattle.std.specs.declared.time.Duration.{Duration};
ghost use Rattle.nut_poll.specs.Moments.{Begins, IsTold, whole_seconds};
ghost use Rattle.mio.specs.Events.{items};
ghost use Rattle.nut_poll.specs.Queue.{Looks, all_joined, begun, first_joined, reported};
ghost use Rattle.nut_poll.specs.Turns.{Heeds};

use crate::ready::Ready;
use crate::seconds::Seconds;
use mio::{Events, Poll, Registry};
use std::alloc::Global;
use std::io;
use std::net::Net;
use std::time::{Clock, Duration};

/// The greatest number of events that one wait gives.
const EVENTS_MAX: usize = 128;

/// Waits for many sockets, which are looked at round by round, and for whole seconds.
pub struct Rounds {
    poll: Poll,
    /// The events of the last wait.
    pub events: Events,
    /// The sockets to look at.
    pub ready: Ready,
    /// The clock.
    pub seconds: Seconds,
    /// How many tokens, from 0 on, are looked at once a second, whether or not an event came.
    pub fixed: usize,
}

// A derived drop would be proved again in each crate that drops a value, with those of its parts.
impl Drop for Rounds {
    fn drop(self) {
        let Rounds {
            poll: _poll,
            events: _events,
            ready: _ready,
            seconds: _seconds,
            fixed: _,
        } = self;
    }
}

impl Rounds {
    /// Starts the clock. Tokens 0 to `fixed` - 1 are looked at in the first round and once a second, whether or not an
    /// event came.
    ///
    /// # Errors
    ///
    /// The error of the poll or of the clock, or a lack of memory.
    pub fn new(rt: &(impl Net + Clock), alloc: Global, fixed: usize) -> io::Result<Rounds> {
        let mut ready = Ready::new(alloc)?;
        ready.insert_first(fixed);
        ready.turn();
        Ok(Rounds {
            poll: Poll::new(rt)?,
            events: Events::with_capacity(alloc, EVENTS_MAX)?,
            ready,
            seconds: Seconds::start(rt)?,
            fixed,
        })
    }

    /// Returns the registry at which sockets are registered with the poll.
    pub fn registry(&self) -> &Registry {
        self.poll.registry()
    }

    /// Waits until an event comes or a second is over, or not at all if there is more to look at. The sources of the events
    /// then come to wait.
    ///
    /// # Errors
    ///
    /// The error of the wait. There is no event then.
    pub fn wait(&mut self) -> io::Result<()>
        ensures ready { self.new.ready ≡ all_joined (reported (items self.new.events)) self.old.ready }
        ensures heeds { Heeds [] self.old self.new }
        ensures clock { (self.new.seconds ≡ self.old.seconds) × (self.new.fixed ≡ self.old.fixed) }
    {
        let ahead = self.seconds.ahead();
        self.wait_for(ahead)
    }

    /// Waits until an event comes, at most this long, or not at all if there is more to look at. The sources of the events then
    /// come to wait.
    ///
    /// # Errors
    ///
    /// The error of the wait. There is no event then.
    pub fn wait_for(&mut self, patience: Duration) -> io::Result<()>
        ensures ready { self.new.ready ≡ all_joined (reported (items self.new.events)) self.old.ready }
        ensures heeds { Heeds [] self.old self.new }
        ensures clock { (self.new.seconds ≡ self.old.seconds) × (self.new.fixed ≡ self.old.fixed) }
    {
        let patience = if self.ready.is_empty() {
            patience
        } else {
            Duration::ZERO
        };
        let result = self.poll.poll(&mut self.events, Some(patience));
        self.ready.insert_all(&self.events);
        result
    }

    /// Looks at the clock, and returns whether one more second is over. Tokens 0 to `fixed` - 1 come to wait then.
    ///
    /// # Errors
    ///
    /// The error of the clock.
    pub fn look_at_clock(&mut self, clock: &impl Clock) -> io::Result<bool>
        ensures second { IfOk result (λ is_over. self.new.ready
            ≡ (if is_over then first_joined self.old.fixed self.old.ready else self.old.ready)) }
        ensures heeds { Heeds [] self.old self.new }
    {
        let passed = self.seconds.elapsed(clock)?;
        Ok(self.look_at(passed))
    }

    /// Does what [`look_at_clock`](Self::look_at_clock) does, when so much time has passed.
    fn look_at(&mut self, passed: Duration) -> bool
        ensures more { result ≡ nat_lt self.old.seconds.full (whole_seconds passed) }
        ensures full { self.new.seconds.full ≡ (if result then whole_seconds passed else self.old.seconds.full) }
        ensures ready { self.new.ready ≡ (if result then first_joined self.old.fixed self.old.ready else self.old.ready) }
        ensures rest { (self.new.events ≡ self.old.events) × (self.new.fixed ≡ self.old.fixed) }
    {
        let is_over = self.seconds.look_at(passed);
        if is_over {
            self.ready.insert_first(self.fixed);
        }
        is_over
    }

    /// Begins the next round. Returns the number of seconds since the start, if one more is over.
    ///
    /// # Errors
    ///
    /// The error of the clock.
    pub fn turn(&mut self, clock: &impl Clock) -> io::Result<Option<u64>>
        ensures begins { IfOk result (λ moment. (passed : Duration)
            × Begins passed self.old.seconds.full self.old.fixed moment self.old.ready self.new.ready) }
        ensures comes { Looks [] self.old.ready self.new.ready }
        ensures second { IfOk result (λ moment. IsTold moment self.old.seconds.full self.new.seconds.full) }
        ensures events { self.new.events ≡ self.old.events }
    {
        let passed = self.seconds.elapsed(clock)?;
        Ok(self.turn_at(passed))
    }

    /// Begins the next round, when so much time has passed. Returns the number of seconds, if one more is over, whoever
    /// waits. Tokens 0 to `fixed` - 1 then have their turn in this round.
    fn turn_at(&mut self, passed: Duration) -> Option<u64>
        ensures begins { Begins passed self.old.seconds.full self.old.fixed result self.old.ready self.new.ready }
        ensures comes { Looks [] self.old.ready self.new.ready }
        ensures second { IsTold result self.old.seconds.full self.new.seconds.full }
        ensures events { self.new.events ≡ self.old.events }
    {
        let is_over = self.look_at(passed);
        self.begin();
        if is_over {
            Some(self.seconds.hand_out_last())
        } else {
            None
        }
    }

    /// Begins the next round.
    pub fn begin(&mut self)
        ensures ready { self.new.ready ≡ begun self.old.ready }
        ensures rest { (self.new.events ≡ self.old.events) × (self.new.seconds ≡ self.old.seconds) }
    {
        self.ready.turn();
    }
}
