//! Requests that were refused as ACCESS-DENIED: at most one report in a second for each address.

use crate::deed_report::{DeedReport, Denial, Whose};
use crate::login::copied;
use arrayvec::ArrayVec;
use nut_poll::{Reports, text_of};
use nut_server::Deed;
use nut_server_spec::ADDRESS_MAX;
use nut_words::CREDENTIAL_MAX;
use std::alloc::{AllocError, Global};

/// How many addresses are told apart in a second.
const ADDRESSES_MAX: usize = 32;

/// The requests of clients at one address that were refused.
#[derive(Drop)]
struct Denied {
    /// The address; empty if this place is free.
    address: ArrayVec<u8, ADDRESS_MAX>,
    /// The user of the last of them; empty if upsd.users has no user of that name, which may be a password by mistake.
    user: ArrayVec<u8, CREDENTIAL_MAX>,
    /// Whether those that weren't reported are of several users. All that upsd.users doesn't have count as one.
    is_mixed: bool,
    /// How many weren't reported.
    count: u64,
}

impl Denied {
    /// Returns a place that is free.
    fn none() -> Denied {
        Denied {
            address: ArrayVec::new(),
            user: ArrayVec::new(),
            is_mixed: false,
            count: 0,
        }
    }

    /// Counts a request.
    fn count(&mut self, user: &[u8]) {
        self.is_mixed = self.count > 0 && (self.is_mixed || self.user.as_slice() != user);
        self.user = copied(user);
        self.count = self.count.saturating_add(1);
    }

    /// Returns whose those are that weren't reported.
    fn whose(&self) -> Whose<'_> {
        if self.is_mixed {
            Whose::Several
        } else if self.user.is_empty() {
            Whose::Unknown
        } else {
            Whose::User(text_of(self.user.as_slice()))
        }
    }

    /// Reports those that weren't, if there are any. Returns whether there were.
    fn tell(&mut self, reports: &mut Reports<'_>) -> bool {
        if self.count == 0 {
            return false;
        }
        reports.warn(DeedReport::Denied(Denial {
            address: text_of(self.address.as_slice()),
            whose: self.whose(),
            count: self.count,
        }));
        self.count = 0;
        true
    }
}

/// The requests that were refused as ACCESS-DENIED in this second, by address.
///
/// The first one from an address is reported at once. Those that follow within the same second are counted, and reported
/// when it is over. An address without one for a second is forgotten. Beyond a number of addresses all others count as
/// one, so strangers can't use up memory or fill a log.
#[derive(Drop)]
pub struct Denials {
    by_address: Vec<Denied>,
    /// Whether each place is free, so that a second ends without a look at any.
    is_empty: bool,
    /// How many were refused at addresses that aren't told apart.
    elsewhere: u64,
}

impl Denials {
    /// Returns the state before any request, with room for all addresses that are told apart.
    ///
    /// # Errors
    ///
    /// [`AllocError`] if memory cannot be allocated.
    pub fn new(alloc: Global) -> Result<Denials, AllocError> {
        let mut by_address = Vec::with_capacity(alloc, ADDRESSES_MAX)?;
        for _ in 0..ADDRESSES_MAX {
            by_address.push(Denied::none())?;
        }
        Ok(Denials {
            by_address,
            is_empty: true,
            elsewhere: 0,
        })
    }

    /// Notes a request that was refused. `user` is empty if upsd.users has no such user.
    pub fn note(&mut self, deed: &Deed, user: &[u8], reports: &mut Reports<'_>) {
        let address = deed.address.as_slice();
        for denied in self.by_address.iter_mut() {
            if denied.address.as_slice() == address {
                denied.count(user);
                return;
            }
        }
        self.add(address, user, reports);
    }

    /// Notes the first request from an address, and reports it if there is a free place for the address.
    fn add(&mut self, address: &[u8], user: &[u8], reports: &mut Reports<'_>) {
        for denied in self.by_address.iter_mut() {
            if denied.address.is_empty() {
                denied.address = copied(address);
                denied.count(user);
                let _ = denied.tell(reports);
                self.is_empty = false;
                return;
            }
        }
        self.elsewhere = self.elsewhere.saturating_add(1);
    }

    /// Ends a second: reports what was refused in it and wasn't reported, by address, and frees the places of the other
    /// addresses.
    pub fn second(&mut self, reports: &mut Reports<'_>) {
        if !self.is_empty {
            self.is_empty = true;
            for denied in self.by_address.iter_mut() {
                if denied.tell(reports) {
                    self.is_empty = false;
                } else {
                    denied.address.clear();
                }
            }
        }
        if self.elsewhere > 0 {
            reports.warn(DeedReport::DeniedElsewhere(self.elsewhere));
            self.elsewhere = 0;
        }
    }
}
