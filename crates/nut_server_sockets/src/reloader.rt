//! Where new configurations come from.

ghost use Rattle.std.specs.Prelude.{Option, option_map};
ghost use Rattle.nut_server_spec.specs.Configuration.{Configuration};

use nut_poll::Reports;
use nut_server::{Config, Refused, Server};

/// Gives new configurations to a server.
pub trait Reloader {
    /// A look in the first state gave this configuration, or none, and led to the second state.
    ghost gave: { Self → Option Configuration → Self → Type 0 };

    /// Returns a new configuration, if one was asked for since the last call. If it can't be read, reports why and returns
    /// `None`. The call is made once a second.
    fn look(&mut self, server: &Server, reports: &mut Reports<'_>) -> Option<Box<Config>>
        ensures { gave self.old (option_map (λ config. config.value) result) self.new };

    /// Reports what became of the configuration that was given last: the server's answer to it.
    fn tell(&mut self, answer: &Result<(), Refused>, reports: &mut Reports<'_>);
}
