//! The notices that wait.
ghost use Rattle.std.specs.Prelude.{◌≡◌, ◌+◌, ◌<◌, ◌≤◌, ◌==◌, ◌++◌, [], IfOk, drop, length, slice_get};
ghost use Rattle.nut_monitor_spec.specs.Decision.{when};

use nut_monitor_spec::{NOTICES_MAX, Notice};
use std::alloc::{AllocError, Global};
use std::collections::VecDeque;
use std::marker::Model;

/// The notices that wait, the oldest first, with room for all that may wait.
#[derive(Drop)]
pub struct Notices {
    queue: VecDeque<Notice>,
}

impl Model for Notices {
    ghost use Rattle.std.specs.Prelude.{◌≤◌, List};
    ghost use Rattle.std.specs.VecDeque.{deque_capacity};
    ghost use Rattle.nut_monitor_spec.specs.declared.Notice.{Notice};
    ghost use Rattle.nut_monitor_spec.specs.declared.limits.TheConstants.{NOTICES_MAX};

    ghost Value = { List Notice };

    ghost view = { λ n. n.queue.items };

    ghost invariant = { λ n. NOTICES_MAX ≤ deque_capacity n.queue };
}

impl Notices {
    /// Makes an empty queue with room for all notices that may wait.
    pub fn new(alloc: Global) -> Result<Notices, AllocError>
        ensures { IfOk result (λ n. n ≡ []) }
    {
        Ok(Notices {
            queue: VecDeque::with_capacity(alloc, NOTICES_MAX)?,
        })
    }

    /// Whether no notice waits.
    pub fn is_empty(&self) -> bool
        ensures { result ≡ (length self.now == 0) }
    {
        self.queue.is_empty()
    }

    /// Queues a notice if the test holds.
    pub fn tell_when(&mut self, test: bool, notice: Notice)
        requires { length self.old < NOTICES_MAX }
        ensures told { self.new ≡ self.old ++ when test notice }
        ensures few { length self.new ≤ length self.old + 1 }
    {
        if test {
            self.queue.push_back_reserved(notice);
        }
    }

    /// Returns the oldest notice, if one waits.
    pub fn first(&self) -> Option<Notice>
        ensures { result ≡ slice_get self.now 0 }
    {
        self.queue.front().copied()
    }

    /// Removes and returns the oldest notice, if one waits.
    pub fn take(&mut self) -> Option<Notice>
        ensures taken { result ≡ slice_get self.old 0 }
        ensures left { self.new ≡ drop 1 self.old }
    {
        self.queue.pop_front()
    }
}
