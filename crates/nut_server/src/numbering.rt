//! The numbers of the UPSes.

ghost use Rattle.std.specs.Prelude.{◌≡◌, ◌==◌, ◌≤◌, position, slice_get};
ghost use Rattle.std.specs.Option.{option_and_then};
ghost use Rattle.nut_server_spec.specs.Numbering.{below, kept_numbers, least_free, number_of, renumbered, ups_with};

use crate::config::{Config, Ups};
use arrayvec::ArrayVec;
use nut_conf::UPSES_MAX;
use std::marker::Model;

/// The numbers of the UPSes of a configuration, in the order of ups.conf.
pub type Numbers = ArrayVec<usize, UPSES_MAX>;

/// Returns the numbers of `count` UPSes before any reload: their places in ups.conf.
pub fn first_numbers(count: usize) -> Numbers
    requires { count ≤ UPSES_MAX }
    ensures { result.items ≡ below count }
{
    let mut numbers = ArrayVec::new();
    for number in 0..count {
        numbers.push(number);
    }
    numbers
}

/// Returns the least number that is free.
fn least_free(taken: &[usize]) -> usize
    ensures { result ≡ least_free taken.now }
{
    for number in 0..taken.len() {
        if !taken.contains(&number) {
            return number;
        }
    }
    taken.len()
}

/// The UPSes of a configuration, and their numbers in the order of ups.conf.
#[derive(Drop)]
pub struct Numbering<'a> {
    pub config: &'a Config,
    pub numbers: &'a [usize],
}

impl<'a> Model for Numbering<'a> {
    ghost use Rattle.nut_server_spec.specs.Numbering as definitions;

    ghost Value = { definitions.Numbering };

    ghost view = { λ n. record { upses = n.config.now.upses; numbers = n.numbers.now } };
}

impl<'a> Numbering<'a> {
    /// Returns the number of the UPS with this name, if there is one. The time it takes doesn't grow with the number of
    /// UPSes.
    pub fn number_of(&self, name: &[u8]) -> Option<usize>
        ensures { result ≡ number_of name.now self.now }
    {
        let place = self.config.find_ups(name)?;
        self.numbers.get(place).copied()
    }

    /// Returns the place of the UPS with this number, if there is one.
    fn place_of(&self, u: usize) -> Option<usize>
        ensures { result ≡ position (λ number. number == u) self.now.numbers }
    {
        self.numbers.iter().position(|number| *number == u)
    }

    /// Returns the UPS with this number, if there is one.
    pub fn ups_with(&self, u: usize) -> Option<Ups<'a>>
        ensures { result ≡ ups_with u self.now }
    {
        match self.place_of(u) {
            Some(place) => self.config.ups_at(place),
            None => None,
        }
    }

    /// Returns the number that the UPS at a place of a new configuration keeps: that of the UPS with its name, if there
    /// is one here.
    fn kept_at(&self, after: &Config, place: usize) -> Option<usize>
        ensures { result ≡ option_and_then (λ ups. number_of ups.name self.now) (slice_get after.now.upses place) }
    {
        match after.ups_at(place) {
            Some(ups) => self.number_of(ups.name),
            None => None,
        }
    }

    /// Returns the numbers that the UPSes of a new configuration keep.
    fn kept_by(&self, after: &Config) -> Numbers
        ensures items { result.items ≡ kept_numbers self.now after.now.upses }
    {
        let mut kept = Numbers::new();
        for place in 0..after.number_of_upses() {
            if let Some(number) = self.kept_at(after, place) {
                kept.push(number);
            }
        }
        kept
    }

    /// Returns the numbers of the UPSes of a new configuration. Each name that is here keeps its number; the others get
    /// the least free numbers, in the order of ups.conf.
    pub fn renumbered(&self, after: &Config) -> Numbers
        ensures { result.items ≡ renumbered after.now.upses self.now }
    {
        let mut taken = self.kept_by(after);
        let mut numbers = Numbers::new();
        for place in 0..after.number_of_upses() {
            let number = match self.kept_at(after, place) {
                Some(number) => number,
                None => {
                    let number = least_free(taken.as_slice());
                    taken.push(number);
                    number
                }
            };
            numbers.push(number);
        }
        numbers
    }
}
