//! The effects of requests, apart from their answers.

ghost use Rattle.std.specs.Prelude.{◌≡◌, length, map};
ghost use Rattle.nut_server.specs.inside.Effects.{acting, given_with, number_of, IsPossible};

use crate::credential::LentCredential;
use crate::device::Device;

/// What a request changes, apart from its answer: its connection, or a UPS and what its driver is asked. It borrows the
/// request's words.
#[derive(Drop)]
pub enum Effect<'l> {
    Nothing,
    /// The client gave its user name.
    User(LentCredential<'l>),
    /// The client gave its password.
    Password(LentCredential<'l>),
    /// The client logged in to the UPS with this number.
    Login(usize),
    /// The client logged out.
    Logout,
    /// The client forced a shutdown of the UPS with this number.
    Force(usize),
    /// The requests of the client are tracked from now on, or no longer.
    Tracking(bool),
    /// The driver of the UPS with the first number is asked something, in a line kept apart. The second number is that
    /// of the request, if it is tracked.
    Ask(usize, Option<u32>),
}

impl Effect<'_> {
    /// Changes the UPSes as the effect does. `line` is the request to the driver, if the effect has one.
    pub fn act(&self, devices: &mut Vec<Device>, line: &[u8])
        requires { IsPossible (map (λ d. d.device) devices.old.items) self.now line.now }
        ensures value { devices.new.items ≡ acting self.now line.now devices.old.items }
        ensures len { length devices.new.items ≡ length devices.old.items }
    {
        match self {
            Effect::Force(u) => devices[*u].force(),
            Effect::Ask(u, number) => devices[*u].ask(line, *number),
            Effect::Nothing
            | Effect::User(_)
            | Effect::Password(_)
            | Effect::Login(_)
            | Effect::Logout
            | Effect::Tracking(_) => {}
        }
    }

    /// Returns how many numbers of requests are given after the effect, if this many were given before it.
    pub fn given_after(&self, before: u32) -> u32
        ensures { result ≡ given_with (number_of self.now) before }
    {
        match self {
            Effect::Ask(_, Some(number)) => *number,
            Effect::Ask(_, None)
            | Effect::Nothing
            | Effect::User(_)
            | Effect::Password(_)
            | Effect::Login(_)
            | Effect::Logout
            | Effect::Force(_)
            | Effect::Tracking(_) => before,
        }
    }
}
