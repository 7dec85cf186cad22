//! Whole seconds.

ghost use Rattle.std.specs.Prelude.{◌≡◌, ◌+◌, ◌≤◌, IfSome, nat_lt, false, if◌then◌else◌};
ghost use Rattle.nut_poll.specs.Moments.{IsTold, moment_at, whole_seconds};

use std::io;
use std::time::{Clock, Duration, Instant};

/// The whole seconds since the start, each handed out once.
///
/// If the process was suspended, many of them are over at once. A caller can get only the last of them (`pass`), or
/// each of them (`next`). `next` gives one each time the clock has advanced, and the missed ones when the caller asks
/// for them.
#[derive(Drop)]
pub struct Seconds {
    start: Instant,
    /// How many seconds were over when the clock was last looked at.
    full: u64,
    /// How many of them haven't been handed out.
    untold: u64,
    /// The second that was last handed out.
    told: u64,
    /// Whether one was over since one was last handed out.
    is_due: bool,
    /// How long it was until the next second when the clock was last looked at.
    ahead: Duration,
    ghost no_sooner: { told + untold ≤ full },
}

impl Seconds {
    /// Starts the clock.
    ///
    /// # Errors
    ///
    /// The error of the clock.
    pub fn start(clock: &impl Clock) -> io::Result<Seconds> {
        Ok(Seconds {
            start: Instant::now(clock)?,
            full: 0,
            untold: 0,
            told: 0,
            is_due: false,
            ahead: Duration::from_secs(1),
        })
    }

    /// Returns how much time has passed since the start.
    ///
    /// # Errors
    ///
    /// The error of the clock.
    pub fn elapsed(&self, clock: &impl Clock) -> io::Result<Duration> {
        self.start.elapsed(clock)
    }

    /// Returns how many seconds have passed, if that is more than was handed out before.
    ///
    /// # Errors
    ///
    /// The error of the clock.
    pub fn pass(&mut self, clock: &impl Clock) -> io::Result<Option<u64>> {
        let passed = self.elapsed(clock)?;
        Ok(self.pass_at(passed))
    }

    /// Returns how many seconds are over when so much time has passed, if that is more than was handed out
    /// before.
    fn pass_at(&mut self, passed: Duration) -> Option<u64>
        ensures moment { result ≡ moment_at self.old.full passed }
        ensures told { IsTold result self.old.full self.new.full }
    {
        if self.look_at(passed) {
            Some(self.hand_out_last())
        } else {
            None
        }
    }

    /// Hands out the last second that is over, and forgets those that were missed before it.
    pub(crate) fn hand_out_last(&mut self) -> u64
        ensures last { result ≡ self.old.full }
        ensures full { self.new.full ≡ self.old.full }
    {
        self.untold = 0;
        self.told = self.full;
        self.is_due = false;
        self.full
    }

    /// Returns the second that was handed out last, or 0.
    pub fn told(&self) -> u64
        ensures { result ≡ self.now.told }
    {
        self.told
    }

    /// Notes how much time has passed. Returns whether more seconds are over than when that was last noted.
    pub fn look_at(&mut self, passed: Duration) -> bool
        ensures more { result ≡ nat_lt self.old.full (whole_seconds passed) }
        ensures full { self.new.full ≡ (if result then whole_seconds passed else self.old.full) }
        ensures each { self.new.untold + self.old.full ≡ self.old.untold + self.new.full }
        ensures told { self.new.told ≡ self.old.told }
    {
        let part = Duration::from_nanos(u64::from(passed.subsec_nanos()));
        self.ahead = Duration::from_secs(1).saturating_sub(part);
        let more = passed.as_secs().saturating_sub(self.full);
        if more == 0 {
            return false;
        }
        self.full = passed.as_secs();
        self.untold += more;
        self.is_due = true;
        true
    }

    /// Returns the next second that hasn't been handed out: one for each time the clock has advanced, and, with `all`,
    /// the missed ones, too.
    pub fn next(&mut self, all: bool) -> Option<u64>
        ensures turn { IfSome result (λ t. t ≡ self.old.told + 1) }
        ensures told { IfSome result (λ t. self.new.told ≡ t) }
        ensures over { IfSome result (λ t. t ≤ self.old.full) }
        ensures used { IfSome result (λ t. self.new.untold + 1 ≡ self.old.untold) }
        ensures once { self.new.is_due ≡ false }
        ensures full { self.new.full ≡ self.old.full }
    {
        let has_next = self.untold > 0 && (all || self.is_due);
        self.is_due = false;
        if !has_next {
            return None;
        }
        self.told += 1;
        self.untold -= 1;
        Some(self.told)
    }

    /// Forgets the missed seconds: the next second that is handed out follows the last one.
    pub fn forget_missed(&mut self) {
        self.untold = self.untold.min(u64::from(self.is_due));
    }

    /// Returns how long it was until the next second when the clock was last looked at.
    pub fn ahead(&self) -> Duration {
        self.ahead
    }
}
