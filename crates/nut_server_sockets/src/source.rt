//! The sources: what the sockets of a server are for.

ghost use Rattle.std.specs.Prelude.{◌≡◌, ◌<◌, ◌+◌, ◌^◌, ℕ};
ghost use Rattle.nut_server_sockets.specs.declared.source.Source.TheVariants as source;
ghost use Rattle.nut_server_sockets.specs.declared.source.TheConstants.{FIXED_MAX};

use mio::Token;
use nut_conf::{LISTENERS_MAX, UPSES_MAX};

/// The greatest number of listeners and drivers: the tokens of listeners come first, then those of drivers.
const FIXED_MAX: usize = LISTENERS_MAX + UPSES_MAX;

/// What a socket is for, and its number among those for the same purpose.
#[derive(Clone, Copy)]
pub enum Source {
    /// A listener.
    Listener(usize),
    /// The driver of a UPS.
    Driver(usize),
    /// A client, by its key.
    Client(usize),
}

impl Source {
    ghost use Rattle.nut_server_sockets.specs.Turns.{token_of};

    /// Returns the source with this token.
    pub fn of(token: Token) -> Source
        ensures token { token_of result ≡ token.0 }
        ensures client { (key : ℕ) → token.0 ≡ FIXED_MAX + key → result ≡ source.Client key }
    {
        let Token(n) = token;
        if n < LISTENERS_MAX {
            Source::Listener(n)
        } else if n < FIXED_MAX {
            Source::Driver(n - LISTENERS_MAX)
        } else {
            Source::Client(n - FIXED_MAX)
        }
    }

    /// The token of the source: of at most [`LISTENERS_MAX`] listeners, [`UPSES_MAX`] drivers and any
    /// clients each has its own.
    pub fn token(self) -> Token
        ensures { token_of self < 2 ^ 64 → result.0 ≡ token_of self }
    {
        match self {
            Source::Listener(i) => Token(i),
            Source::Driver(u) => Token(u.saturating_add(LISTENERS_MAX)),
            Source::Client(key) => Token(key.saturating_add(FIXED_MAX)),
        }
    }
}
