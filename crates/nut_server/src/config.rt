//! The configuration that a server is made with.

ghost use Rattle.std.specs.Prelude.{◌≡◌, ◌<◌, ◌≤◌, ℕ, List, IfSome, None, length, slice_get};
ghost use Rattle.std.specs.Option.{option_map};
ghost use Rattle.nut_conf.specs.Descriptions.{rows_of};
ghost use Rattle.nut_proto.specs.Descriptions.{beside, command_description, told, variable_description};
ghost use Rattle.nut_server_spec.specs.Configuration.{number_of_ups, ups_named, user_named};
ghost use Rattle.nut_server_spec.specs.laws.Limits.{IsWithin};
ghost use Rattle.nut_server_spec.specs.laws.Reloads.{AreNamedApart};
ghost use Rattle.nut_server.specs.Configured.{command_texts_of, configuration_of, upses_of, user_of, users_of, variable_texts_of};

use nut_conf::{
    CONNECTIONS_MAX, Descriptions, UPSES_MAX, USERS_MAX, UpsConf, UpsdConf, User, UsersConf,
};
use nut_proto::{command_description, variable_description};
use std::marker::Model;

/// A UPS, borrowed from the configuration.
#[derive(Drop)]
pub struct Ups<'a> {
    /// The name by which clients refer to it.
    pub name: &'a [u8],
    /// The program of its driver.
    pub driver: &'a [u8],
    /// The description that clients see.
    pub description: &'a [u8],
}

impl<'a> Model for Ups<'a> {
    ghost use Rattle.nut_server_spec.specs.Configuration as definitions;

    ghost Value = { definitions.Ups };

    ghost view = { λ u. record { name = u.name.now; driver = u.driver.now; description = u.description.now } };
}

/// The description of a name that has none.
const UNAVAILABLE: &[u8] = b"Description unavailable";

/// Returns the text of cmdvartab, or [`UNAVAILABLE`] if there is none.
fn or_unavailable(text: Option<&[u8]>) -> &[u8]
    ensures { result.now ≡ told None (option_map (λ t. t.now) text.entry) }
{
    text.unwrap_or(UNAVAILABLE)
}

/// The configuration of a server: ups.conf(5), upsd.users(5), upsd.conf(5), and cmdvartab where there is that file.
pub struct Config {
    ups: UpsConf,
    users: UsersConf,
    upsd: UpsdConf,
    descriptions: Option<Descriptions>,
}

// A derived drop would be proved again in each crate that drops a value, with those of its parts.
impl Drop for Config {
    fn drop(self) {
        let Config {
            ups: _ups,
            users: _users,
            upsd: _upsd,
            descriptions: _descriptions,
        } = self;
    }
}

impl Model for Config {
    ghost use Rattle.nut_server_spec.specs.Configuration.{Configuration};
    ghost use Rattle.nut_server.specs.Configured.{configuration_of};

    ghost Value = { Configuration };

    ghost view = { λ c. configuration_of c.ups c.users c.upsd c.descriptions };
}

impl Config {
    /// Returns the configuration of these three files, without descriptions.
    pub fn new(ups: UpsConf, users: UsersConf, upsd: UpsdConf) -> Config
        ensures { result ≡ configuration_of ups users upsd None }
    {
        Config {
            ups,
            users,
            upsd,
            descriptions: None,
        }
    }

    /// Returns this configuration with these descriptions in place of any that it has.
    #[tactic(auto, using(std::proofs::lemmas::Grind::common_steps))]
    pub fn with_descriptions(self, descriptions: Descriptions) -> Config
        ensures { result ≡ record self { variable_texts = rows_of descriptions.variables; command_texts = rows_of descriptions.commands } }
    {
        let mut config = self;
        config.descriptions = Some(descriptions);
        config
    }

    /// Does nothing when called. Brings into the proof that a configuration is within the limits of its files.
    pub fn is_within_limits(&self)
        ensures { IsWithin self.now }
    {
        let _ups = &self.ups;
    }

    /// Does nothing when called. Brings into the proof that no two UPSes have the same name.
    pub fn names_are_distinct(&self)
        ensures { AreNamedApart self.now.upses }
    {
        self.ups.names_are_distinct();
    }

    /// Returns what ups.conf sets.
    pub fn ups(&self) -> &UpsConf
        ensures { upses_of result.now ≡ self.now.upses }
    {
        &self.ups
    }

    /// What upsd.users sets: at most [`USERS_MAX`] users.
    pub fn users(&self) -> &UsersConf
        ensures value { users_of result.now ≡ self.now.users }
        ensures few { length self.now.users ≤ USERS_MAX }
    {
        &self.users
    }

    /// Returns what cmdvartab says, if there is that file.
    pub fn descriptions(&self) -> Option<&Descriptions>
        ensures variables { variable_texts_of (option_map (λ d. d.now) result) ≡ self.now.variable_texts }
        ensures commands { command_texts_of (option_map (λ d. d.now) result) ≡ self.now.command_texts }
    {
        self.descriptions.as_ref()
    }

    /// How many UPSes there are, at most [`UPSES_MAX`].
    pub fn number_of_upses(&self) -> usize
        ensures len { result ≡ length self.now.upses }
        ensures few { result ≤ UPSES_MAX }
    {
        self.ups.len()
    }

    /// Returns the number of the first UPS with this name, counted from 0 in the order of the file.
    ///
    /// Allocates no memory. The time it takes doesn't grow with the number of UPSes.
    pub fn find_ups(&self, name: &[u8]) -> Option<usize>
        ensures number { result ≡ number_of_ups name.now self.now.upses }
        ensures within { IfSome result (λ u. u < length self.now.upses) }
    {
        self.ups.find(name)
    }

    /// Returns the number of the first UPS with this name, as [`find_ups`](Self::find_ups) does. If that number is `likely`,
    /// it takes one comparison.
    pub fn find_likely_ups(&self, likely: usize, name: &[u8]) -> Option<usize>
        ensures { result ≡ number_of_ups name.now self.now.upses }
    {
        self.names_are_distinct();
        if let Some(likely_name) = self.ups.name(likely)
            && likely_name.as_bytes() == name
        {
            return Some(likely);
        }
        self.find_ups(name)
    }

    /// Returns the UPS with this number.
    pub fn ups_at(&self, u: usize) -> Option<Ups<'_>>
        ensures { result ≡ slice_get self.now.upses u }
    {
        let Some(name) = self.ups.name(u) else {
            return None;
        };
        let Some(entry) = self.ups.get(u) else {
            return None;
        };
        Some(Ups {
            name: name.as_bytes(),
            driver: entry.driver(),
            description: entry.desc(),
        })
    }

    /// Returns the first UPS with this name. Allocates no memory. The time it takes doesn't grow with the number of
    /// UPSes.
    pub fn ups_named(&self, name: &[u8]) -> Option<Ups<'_>>
        ensures { result ≡ ups_named name.now self.now.upses }
    {
        self.ups_found(self.find_ups(name))
    }

    /// Returns the UPS that was found at this place, if one was.
    pub fn ups_found(&self, place: Option<usize>) -> Option<Ups<'_>>
        ensures { (name : List ℕ) → place ≡ number_of_ups name self.now.upses → result ≡ ups_named name self.now.upses }
    {
        match place {
            Some(u) => self.ups_at(u),
            None => None,
        }
    }

    /// Returns the first user with this name. Allocates no memory. The time it takes doesn't grow with the number of
    /// users.
    pub fn find_user(&self, name: &[u8]) -> Option<&User>
        ensures { option_map (λ user. user_of name.now user.now) result ≡ user_named name.now self.now.users }
    {
        self.users.find(name)
    }

    /// The text of cmdvartab for a variable, if it has one.
    fn variable_text(&self, name: &[u8]) -> Option<&[u8]>
        ensures { option_map (λ t. t.now) result ≡ beside name.now self.now.variable_texts }
    {
        match &self.descriptions {
            Some(others) => others.variables.find(name),
            None => None,
        }
    }

    /// The text of cmdvartab for a command, if it has one.
    fn command_text(&self, name: &[u8]) -> Option<&[u8]>
        ensures { option_map (λ t. t.now) result ≡ beside name.now self.now.command_texts }
    {
        match &self.descriptions {
            Some(others) => others.commands.find(name),
            None => None,
        }
    }

    /// Returns the description of a variable: this project's own, else that of cmdvartab, else
    /// `Description unavailable`. Allocates no memory, and takes no longer if there are many descriptions.
    pub fn describe_variable(&self, name: &[u8]) -> &[u8]
        ensures { result.now ≡ variable_description self.now.variable_texts name.now }
    {
        match variable_description(name) {
            Some(ours) => ours,
            None => or_unavailable(self.variable_text(name)),
        }
    }

    /// Returns the description of a command: this project's own, else that of cmdvartab, else
    /// `Description unavailable`. Allocates no memory, and takes no longer if there are many descriptions.
    pub fn describe_command(&self, name: &[u8]) -> &[u8]
        ensures { result.now ≡ command_description self.now.command_texts name.now }
    {
        match command_description(name) {
            Some(own) => own,
            None => or_unavailable(self.command_text(name)),
        }
    }

    /// Returns MAXAGE of upsd.conf(5), 1 to 86,400: the data of a UPS are stale once nothing was heard from its driver
    /// for more than this many seconds.
    pub fn max_age(&self) -> u32
        ensures value { result ≡ self.now.max_age }
        ensures least { 1 ≤ result }
        ensures most { result ≤ 86400 }
    {
        self.upsd.max_age.value
    }

    /// How many connections may be open at once, 1 to [`CONNECTIONS_MAX`] (MAXCONN of upsd.conf(5)).
    pub fn most_connections(&self) -> usize
        ensures value { result ≡ self.now.most_connections }
        ensures least { 1 ≤ result }
        ensures most { result ≤ CONNECTIONS_MAX }
    {
        self.upsd.max_conn.value as usize
    }
}
