//! The open connections, by rising number.
//!
//! They are kept in a slab, in which no open connection moves. A sorted vector of keys holds the number and the slot of
//! each, so a binary search finds a connection in at most nine steps. A key also says whether its connection is
//! unsettled, so unsettled connections are found without a look into the slots. If their count is 0, there is no need
//! to look at the keys either.

ghost use Rattle.std.specs.Prelude.{◌≡◌, ◌<◌, ◌≤◌, ℕ, false, [], ◌∷◌, ◌++◌, Some, None, IfOk, IfNone, IfSome, IsTrue, OnOk, OnErr, cond, count_by, drop, filter, find, length, map, nat_le, not, ◌&&◌, option_map, remove, slice_get, slice_set, vec_capacity};
ghost use Rattle.nut_words.specs.Lines.{Text};
ghost use Rattle.nut_server_spec.specs.Content.{Session};
ghost use Rattle.nut_server_spec.specs.Acceptance.{has_login, session_of};
ghost use Rattle.nut_server_spec.specs.Answer.{guests_of};
ghost use Rattle.nut_server_spec.specs.Numbering.{is_to_cleared};
ghost use Rattle.nut_server_spec.specs.laws.Laws.{IsRising, IsUpTo};
ghost use Rattle.nut_server_spec.specs.machine.Machine.{guest_of, update, with_rest, without};
ghost use Rattle.nut_server.specs.declared.connections.Key.{Key};
ghost use Rattle.nut_server.specs.inside.Effects.{affected, said};
ghost use Rattle.nut_server.specs.inside.Fates.{fate_in};
ghost use Rattle.nut_words.specs.Hearing.{IsRest};
ghost use Rattle.nut_server.specs.inside.Inside.{numbers_of};
ghost use Rattle.nut_server.specs.inside.Place.{Stands};
ghost use Rattle.nut_server.specs.Seats.{has_no_login, is_stranger, longest_without_login};
ghost use Rattle.nut_server.specs.Settling.{IsNextUnsettled, is_unsettled};

use crate::access::has_right_credentials;
use crate::config::Config;
use crate::connection::Connection;
use crate::effect::Effect;
use crate::reloading::Reloading;
use arrayvec::ArrayVec;
use nut_conf::CONNECTIONS_MAX;
use nut_words::LineCutter;
use slab::Slab;
use std::alloc::{AllocError, Global};
use std::marker::Model;

/// The greatest number of connections that a reload can close: all.
pub const CLOSED_MAX: usize = CONNECTIONS_MAX as usize;

/// The number of an open connection, and the slot that holds it.
#[derive(Clone, Copy)]
struct Key {
    number: u64,
    slot: usize,
    /// Whether bytes wait for the connection, or it is to be closed.
    unsettled: bool,
}

impl Key {
    /// Whether the connection is unsettled and its number is at least `least`.
    fn is_unsettled_from(&self, least: u64) -> bool
        ensures { result ≡ (nat_le least self.now.number && self.now.unsettled) }
    {
        least <= self.number && self.unsettled
    }

    /// Returns 1 if the connection is unsettled, else 0.
    fn count(&self) -> usize
        ensures { result ≡ cond self.now.unsettled 1 0 }
    {
        if self.unsettled { 1 } else { 0 }
    }
}

/// Marks the key at this place as unsettled or settled, and updates the count of unsettled connections.
#[tactic(auto, using(std::proofs::lemmas::Grind::common_steps))]
fn mark(order: &mut Vec<Key>, count: &mut usize, at: usize, unsettled: bool)
    requires within { at < length order.old.items }
    requires counted { count.old ≡ count_by (λ key. key.unsettled) order.old.items }
    ensures items { (key : Key) → slice_get order.old.items at ≡ Some key
        → order.new.items ≡ slice_set order.old.items at (record key { unsettled = unsettled }) }
    ensures counted { count.new ≡ count_by (λ key. key.unsettled) order.new.items }
    ensures capacity { vec_capacity order.new ≡ vec_capacity order.old }
{
    match (order[at].unsettled, unsettled) {
        (false, true) => *count += 1,
        (true, false) => *count -= 1,
        (false, false) | (true, true) => {}
    }
    order[at].unsettled = unsettled;
}

/// Whether the client isn't logged in.
fn has_no_login(connection: &Connection) -> bool
    ensures { result ≡ has_no_login connection.now }
{
    connection.login().is_none()
}

/// Whether the client isn't logged in, and hasn't given the name and the password of a user.
pub fn is_stranger(config: &Config, connection: &Connection) -> bool
    ensures { result ≡ is_stranger config.now.users connection.now }
{
    has_no_login(connection) && !has_right_credentials(config, connection)
}

/// The open connections, by rising number, with room for [`CONNECTIONS_MAX`].
#[derive(Drop)]
pub struct Connections {
    slots: Slab<Connection>,
    /// The keys, by rising number: the newest is the last.
    order: Vec<Key>,
    /// How many connections are unsettled.
    unsettled: usize,
}

impl Model for Connections {
    ghost use Rattle.std.specs.Prelude.{List};
    ghost use Rattle.nut_server_spec.specs.Content.{Session};
    ghost use Rattle.nut_server.specs.inside.Entries.{AreEntries, sessions_of};

    ghost Value = { List Session };

    ghost view = { λ c. sessions_of c.slots c.order.items };

    ghost invariant = { AreEntries };
}

impl Connections {
    /// Returns an empty list, with room for all connections that may be open at once. Fails if memory cannot be
    /// allocated.
    pub fn with_room(alloc: Global) -> Result<Connections, AllocError>
        ensures { IfOk result (λ connections. connections ≡ []) }
    {
        let slots = Slab::with_capacity(alloc, CONNECTIONS_MAX as usize)?;
        let order = Vec::with_capacity(alloc, CONNECTIONS_MAX as usize)?;
        Ok(Connections {
            slots,
            order,
            unsettled: 0,
        })
    }

    /// Returns the number of open connections.
    pub fn len(&self) -> usize
        ensures length { result ≡ length self.now }
        ensures within { result ≤ CONNECTIONS_MAX }
    {
        self.order.len()
    }

    /// Returns the connection at this place, counted from 0 by rising number.
    pub fn at(&self, index: usize) -> &Connection
        requires { index < length self.now }
        ensures { slice_get self.now index ≡ Some result.now }
    {
        &self.slots[self.order[index].slot]
    }

    /// Returns the place of the connection with this number, if its distance from the oldest is the difference of their
    /// numbers. This is so if none of those between has been closed.
    fn likely_place(&self, c: u64) -> Option<usize>
        ensures { IfSome result (Stands c self.now) }
    {
        let oldest = self.order.as_slice().first()?;
        let place = c.wrapping_sub(oldest.number) as usize;
        let key = self.order.as_slice().get(place)?;
        if key.number != c {
            return None;
        }
        Some(place)
    }

    /// Returns the place of the connection with this number, if it is open.
    #[inline(always)]
    pub fn place_of(&self, c: u64) -> Option<usize>
        ensures none { IfNone result (session_of c self.now ≡ None) }
        ensures some { IfSome result (Stands c self.now) }
    {
        if let Some(place) = self.likely_place(c) {
            return Some(place);
        }
        self.search(c)
    }

    /// Does what [`place_of`](Self::place_of) does, by a search. It stands apart, so that a likely place takes no call.
    #[inline(never)]
    fn search(&self, c: u64) -> Option<usize>
        ensures none { IfNone result (session_of c self.now ≡ None) }
        ensures some { IfSome result (Stands c self.now) }
    {
        self.order
            .as_slice()
            .binary_search_by_key(&c, |key| key.number)
            .ok()
    }

    /// Returns the connection with this number, if it is open.
    pub fn get(&self, c: u64) -> Option<&Connection>
        ensures { option_map (λ k. k.now) result ≡ session_of c self.now }
    {
        match self.place_of(c) {
            Some(place) => Some(self.at(place)),
            None => None,
        }
    }

    /// Returns how many connections are logged in to a UPS.
    pub fn logged_in(&self, u: usize) -> usize
        ensures count { result ≡ length (guests_of u (map guest_of self.now)) }
        ensures within { result ≤ CONNECTIONS_MAX }
    {
        let mut count = 0;
        for index in 0..self.len() {
            if self.at(index).is_logged_in(u) {
                count += 1;
            }
        }
        count
    }

    /// Whether no connection is unsettled. The answer takes no look at any of them.
    pub fn are_settled(&self) -> bool
        ensures { IsTrue result → (d : ℕ) → is_unsettled (session_of d self.now) ≡ false }
    {
        self.unsettled == 0
    }

    /// Returns the least number, from `least` on, of a connection for which bytes wait or which is to be closed.
    pub fn first_unsettled(&self, least: u64) -> Option<u64>
        ensures { IsNextUnsettled self.now least result }
    {
        if self.unsettled == 0 {
            return None;
        }
        for index in 0..self.order.len() {
            let key = self.order[index];
            if key.is_unsettled_from(least) {
                return Some(key.number);
            }
        }
        None
    }

    /// Returns the number of the first connection of a stranger: a client that isn't logged in, and hasn't given the name
    /// and the password of a user.
    fn first_stranger(&self, config: &Config) -> Option<u64>
        ensures { result ≡ option_map (λ k. k.number) (find (is_stranger config.now.users) self.now) }
    {
        for index in 0..self.len() {
            let connection = self.at(index);
            if is_stranger(config, connection) {
                return Some(connection.number());
            }
        }
        None
    }

    /// Returns the number of the first connection whose client isn't logged in.
    fn first_without_login(&self) -> Option<u64>
        ensures { result ≡ option_map (λ k. k.number) (find has_no_login self.now) }
    {
        for index in 0..self.len() {
            let connection = self.at(index);
            if has_no_login(connection) {
                return Some(connection.number());
            }
        }
        None
    }

    /// Returns the number of the connection that makes way for a new one: the first of a stranger, else the first
    /// without login.
    pub fn longest_without_login(&self, config: &Config) -> Option<u64>
        ensures value { result ≡ option_map (λ k. k.number) (longest_without_login config.now.users self.now) }
        ensures not_logged_in { IfSome result (λ c. has_login (session_of c self.now) ≡ false) }
    {
        let _order = &self.order;
        match self.first_stranger(config) {
            Some(number) => Some(number),
            None => self.first_without_login(),
        }
    }

    /// Adds a connection whose number is greater than those of all others. There is room for it.
    pub fn add(&mut self, connection: Connection)
        requires room { length self.old < CONNECTIONS_MAX }
        requires above { (n : ℕ) × IsUpTo n (numbers_of self.old) × (n < connection.number) }
        ensures { self.new ≡ self.old ++ connection ∷ [] }
    {
        let number = connection.number();
        let unsettled = connection.is_unsettled();
        let slot = self.slots.insert_reserved(connection);
        let key = Key {
            number,
            slot,
            unsettled,
        };
        self.unsettled += key.count();
        self.order.push_reserved(key);
    }

    /// Removes the connection at this place. Keeps the memory.
    fn remove_at(&mut self, place: usize)
        requires { place < length self.old }
        ensures items { self.new ≡ remove self.old place }
        ensures rising { IsRising (numbers_of self.old) }
    {
        let key = self.order.remove(place);
        self.unsettled -= key.count();
        self.slots.remove(key.slot);
    }

    /// Removes the connection with this number, if it is open. Keeps the memory.
    pub fn remove(&mut self, c: u64)
        ensures { self.new ≡ without c self.old }
    {
        if let Some(place) = self.place_of(c) {
            self.remove_at(place);
        }
    }

    /// Returns the numbers of the connections that a reload closes: those whose client is logged in to a UPS that it
    /// clears.
    pub fn cleared(&self, reloading: &Reloading<'_>) -> ArrayVec<u64, CLOSED_MAX>
        ensures { result.items ≡ numbers_of (filter (λ k. is_to_cleared (fate_in reloading.now) k.login) self.now) }
    {
        let mut numbers = ArrayVec::new();
        for place in 0..self.len() {
            let connection = self.at(place);
            if reloading.clears(connection.login()) {
                numbers.push(connection.number());
            }
        }
        numbers
    }

    /// Removes the connections that a reload closes: those whose client is logged in to a UPS that it clears. Keeps the
    /// memory.
    pub fn close_cleared(&mut self, reloading: &Reloading<'_>)
        ensures { self.new ≡ filter (λ k. not (is_to_cleared (fate_in reloading.now) k.login)) self.old }
    {
        for place in (0..self.len()).rev() {
            if reloading.clears(self.at(place).login()) {
                self.remove_at(place);
            }
        }
    }

    /// Queues the answer to a line of the connection at this place, in two parts, and changes the connection as the line
    /// does. If memory cannot be allocated, nothing changes.
    pub fn answer(
        &mut self,
        at: usize,
        front: &[u8],
        end: &[u8],
        effect: &Effect<'_>,
    ) -> Result<(), AllocError>
        requires { at < length self.old }
        ensures numbers { numbers_of self.new ≡ numbers_of self.old }
        ensures ok { (c : ℕ) → Stands c self.old at → OnOk result (self.new
            ≡ update c (λ k. affected effect.now (said (front.now ++ end.now) k)) self.old) }
        ensures err { OnErr result (self.new ≡ self.old) }
    {
        let key = self.order[at];
        let connection = &mut self.slots[key.slot];
        let answered = connection.answer(front, end, effect);
        let unsettled = connection.is_unsettled();
        mark(&mut self.order, &mut self.unsettled, at, unsettled);
        answered
    }

    /// Removes the first `n` of the bytes that wait for the connection at this place: the client took them.
    pub fn took(&mut self, at: usize, n: usize)
        requires within { at < length self.old }
        requires waits { (k : Session) → slice_get self.old at ≡ Some k → n ≤ length k.waits }
        ensures numbers { numbers_of self.new ≡ numbers_of self.old }
        ensures items { (c : ℕ) → Stands c self.old at → self.new
            ≡ update c (λ k. record k { waits = drop n k.waits }) self.old }
    {
        let key = self.order[at];
        let taker = &mut self.slots[key.slot];
        taker.took(n);
        let unsettled = taker.is_unsettled();
        mark(&mut self.order, &mut self.unsettled, at, unsettled);
    }

    /// Takes the cutter of the connection at this place out, and leaves an empty one in its place.
    pub fn take_cutter(&mut self, at: usize) -> LineCutter
        requires { at < length self.old }
        ensures numbers { numbers_of self.new ≡ numbers_of self.old }
        ensures taken { (k : Session) → slice_get self.old at ≡ Some k → result ≡ k.rest }
        ensures rest { IsRest result }
        ensures left { (c : ℕ) → Stands c self.old at → self.new ≡ update c (with_rest (Text [])) self.old }
    {
        let key = self.order[at];
        self.slots[key.slot].take_cutter()
    }

    /// Puts the cutter of the connection at this place back.
    pub fn put_cutter(&mut self, at: usize, cutter: LineCutter)
        requires within { at < length self.old }
        requires rest { IsRest cutter }
        ensures numbers { numbers_of self.new ≡ numbers_of self.old }
        ensures items { (c : ℕ) → Stands c self.old at → self.new ≡ update c (with_rest cutter) self.old }
    {
        let key = self.order[at];
        self.slots[key.slot].put_cutter(cutter);
    }
}
