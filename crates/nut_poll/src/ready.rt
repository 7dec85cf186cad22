//! Sockets that may be ready, looked at round by round.

ghost use Rattle.std.specs.Prelude.{◌≡◌, ◌∷◌, ℕ, [], IfOk, IfSome, length, nat_eq, false, slice_index_or};
ghost use Rattle.std.specs.List.{IsDistinct};
ghost use Rattle.mio.specs.Events.{items};
ghost use Rattle.nut_poll.specs.Queue.{IsTaken, Looks, all_joined, begun, first_joined, is_waiting, joined, reported};

use circular_buffer::HeapCircularBuffer;
use mio::{Events, Token};
use std::alloc::{AllocError, Global};
use std::marker::Model;

/// The greatest number of sockets: their tokens are below.
pub const SOCKETS_MAX: usize = 512;

/// The tokens of the sockets to look at, each once, in the order in which they were queued. Tokens of this round
/// leave at the front, and others are queued behind them for the next. So each socket gets its turn, however often
/// another has more to read, and none waits for one that was queued after it.
#[derive(Drop)]
pub struct Ready {
    queue: HeapCircularBuffer<usize>,
    /// Which tokens are in the queue.
    is_queued: [bool; SOCKETS_MAX],
    /// How many of them, from the front, belong to this round.
    round: usize,
}

impl Model for Ready {
    ghost use Rattle.std.specs.Prelude.{◌≡◌, ◌≤◌, ℕ, length, nat_eq, false, slice_index_or};
    ghost use Rattle.std.specs.List.{IsDistinct};
    ghost use Rattle.nut_poll.specs.declared.ready.TheConstants.{SOCKETS_MAX};
    ghost use Rattle.nut_poll.specs.Queue.{Queue, is_waiting};

    ghost Value = { Queue };

    ghost view = { λ a. record { waiting = a.queue.items; round = a.round } };

    ghost invariant = { λ a. (a.queue.capacity ≡ SOCKETS_MAX)
        × (a.round ≤ length a.queue.items)
        × IsDistinct nat_eq a.queue.items
        × ((n : ℕ) → slice_index_or a.is_queued n false ≡ is_waiting n a.queue.items) };
}

impl Ready {
    /// Returns an empty set, with room for all sockets.
    ///
    /// # Errors
    ///
    /// [`AllocError`] if memory cannot be allocated.
    pub fn new(alloc: Global) -> Result<Ready, AllocError>
        ensures { IfOk result (λ q. q ≡ record { waiting = []; round = 0 }) }
    {
        Ok(Ready {
            queue: HeapCircularBuffer::with_capacity(alloc, SOCKETS_MAX)?,
            is_queued: none_queued(),
            round: 0,
        })
    }

    /// Queues a socket for the next round, unless it is queued already. A token from [`SOCKETS_MAX`] on is left out.
    pub fn insert(&mut self, token: Token)
        ensures joined { self.new ≡ joined token.0 self.old }
        ensures comes { Looks [] self.old self.new }
    {
        let Token(n) = token;
        if n < SOCKETS_MAX && !self.is_queued[n] {
            self.is_queued[n] = true;
            self.queue.push_back(n);
        }
    }

    /// Queues tokens 0 to `count` - 1 for the next round.
    pub fn insert_first(&mut self, count: usize)
        ensures joined { self.new ≡ first_joined count self.old }
        ensures comes { Looks [] self.old self.new }
    {
        for n in 0..count {
            self.insert(Token(n));
        }
    }

    /// Queues the sources of these events for the next round.
    pub fn insert_all(&mut self, events: &Events)
        ensures { self.new ≡ all_joined (reported (items events.now)) self.old }
    {
        for event in events.iter() {
            self.insert(event.token());
        }
    }

    /// Queues the tokens of another set for the next round, and empties that set.
    pub fn append(&mut self, other: &mut Ready)
        ensures joined { self.new ≡ all_joined other.old.waiting self.old }
        ensures comes { Looks [] self.old self.new }
    {
        other.turn();
        for _taken in 0..other.round {
            let Some(token) = other.take() else {
                return;
            };
            self.insert(token);
        }
    }

    /// Takes the first socket that is left in this round.
    pub fn take(&mut self) -> Option<Token>
        ensures taken { IsTaken result self.old self.new }
        ensures once { IfSome result (λ token. is_waiting token.0 self.new.waiting ≡ false) }
    {
        if self.round == 0 {
            return None;
        }
        let n = self.queue.pop_front()?;
        self.round -= 1;
        self.is_queued[n] = false;
        Some(Token(n))
    }

    /// Begins the next round: all queued sockets belong to it.
    pub fn turn(&mut self)
        ensures { self.new ≡ begun self.old }
    {
        self.round = self.queue.len();
    }

    /// Whether no socket is left in this round.
    pub fn is_round_over(&self) -> bool
        ensures { result ≡ nat_eq self.now.round 0 }
    {
        self.round == 0
    }

    /// Whether no socket is queued, for this round or the next.
    pub fn is_empty(&self) -> bool
        ensures each_once { IsDistinct nat_eq self.now.waiting }
    {
        self.queue.is_empty()
    }
}

/// Returns which tokens are in an empty queue: none.
fn none_queued() -> [bool; SOCKETS_MAX]
    ensures { (n : ℕ) → slice_index_or result n false ≡ false }
{
    [false; SOCKETS_MAX]
}
