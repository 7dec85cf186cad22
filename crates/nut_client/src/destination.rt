//! The server that a tool connects to.
ghost use Rattle.std.specs.Prelude.{◌≡◌, option_map};
ghost use Rattle.nut_client.specs.CommandLine.{at_server};
ghost use Rattle.nut_client.specs.inside.Reading.{IsTarget};
ghost use Rattle.nut_conf.specs.Target.{target};

use crate::failure::ToolFailure;
use arrayvec::ArrayVec;
use nut_conf::{Host, Port, Target};

/// The host and the port to connect to.
#[derive(Drop)]
pub struct Destination {
    /// The host of the server.
    pub host: Host,
    /// The port of the server.
    pub port: Port,
}

impl Destination {
    /// Returns the host and the port of a target.
    pub(crate) fn of(target: Target) -> Destination
        ensures host { result.host ≡ target.host }
        ensures port { result.port ≡ target.port }
    {
        let Target { host, port, .. } = target;
        Destination { host, port }
    }
}

/// Reads `ups[@host[:port]]`.
pub(crate) fn read_target(name: &[u8]) -> Result<Target, ToolFailure>
    ensures { IsTarget (target name.now) result }
{
    match Target::read(name) {
        Ok(target) => Ok(target),
        Err(_) => Err(ToolFailure::BadName),
    }
}

/// Reads `host[:port]` as the part after `@` in the name of a UPS, which is called `u`. If no server is given, the host
/// is `localhost`.
pub(crate) fn read_server(server: Option<&str>) -> Result<Target, ToolFailure>
    ensures { IsTarget (target (at_server (option_map (λ s. s.now) server.entry))) result }
{
    let Some(server) = server else {
        return read_target(b"u");
    };
    let mut name: ArrayVec<u8, 128> = ArrayVec::new();
    name.try_extend_from_slice(b"u@").unwrap();
    match name.try_extend_from_slice(server.as_bytes()) {
        Ok(()) => read_target(name.as_slice()),
        Err(_) => Err(ToolFailure::BadName),
    }
}
