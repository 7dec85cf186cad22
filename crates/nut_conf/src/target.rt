//! Names of UPSes at hosts: `ups[@host[:port]]`.
ghost use Rattle.std.specs.Prelude.{◌≡◌, ◌==◌, ◌<◌, IfSome, codes, length, position};
ghost use Rattle.std.specs.Option.{option_map};
ghost use Rattle.nut_conf.specs.Faults.{Reads};
ghost use Rattle.nut_conf.specs.Values.{name, number};
ghost use Rattle.nut_conf.specs.Target.{host as host_of, located as located_of, or_fault, parted as parted_at, target, target_view};
ghost use Rattle.nut_conf.specs.declared.target.NameFault.TheVariants.{BadPort, BadUps};

use crate::host::Host;
use crate::text::{Name, Port};
use nut_words::UPS_NAME_MAX;
use thiserror::Error;

/// Why a name of a UPS at a host can't be read.
#[derive(Clone, Copy, Debug, PartialEq, Eq, Error)]
pub enum NameFault {
    /// The name of the UPS isn't 1 to [`UPS_NAME_MAX`] letters, digits, `.`, `_` and `-`.
    #[error("BadUps")]
    BadUps,
    /// The host isn't 1 to [`HOST_MAX`](crate::limits::HOST_MAX) letters, digits, `.` and `-`.
    #[error("BadHost")]
    BadHost,
    /// The port isn't a number from 1 to 65,535.
    #[error("BadPort")]
    BadPort,
}

/// A UPS at a host.
#[derive(PartialEq, Eq, Drop)]
pub struct Target {
    /// The name of the UPS.
    pub ups: Name<UPS_NAME_MAX>,
    /// The host of its server.
    pub host: Host,
    /// The port of its server.
    pub port: Port,
}

/// Returns the place of the first such byte, if there is one.
fn place_of(byte: u8, bytes: &[u8]) -> Option<usize>
    ensures place { result ≡ position (λ b. b == byte) bytes.now }
    ensures within { IfSome result (λ at. at < length bytes.now) }
{
    bytes.iter().position(|b| *b == byte)
}

/// Returns the bytes before and after the first such byte, if there is one.
fn parted(byte: u8, bytes: &[u8]) -> Option<(&[u8], &[u8])>
    ensures { option_map (λ p. (p.0.now, p.1.now)) result ≡ parted_at byte bytes.now }
{
    match place_of(byte, bytes) {
        Some(at) => Some((&bytes[..at], &bytes[at + 1..])),
        None => None,
    }
}

fn host(bytes: &[u8]) -> Result<Host, NameFault>
    ensures { Reads (λ h. h.bytes.items) result (host_of bytes.now) }
{
    match Host::read(bytes) {
        Some(host) => Ok(host),
        None => Err(NameFault::BadHost),
    }
}

fn port(bytes: &[u8]) -> Result<Port, NameFault>
    ensures { Reads (λ p. p.number) result (or_fault BadPort (number 1 65535 bytes.now)) }
{
    match Port::read(bytes) {
        Ok(port) => Ok(port),
        Err(_) => Err(NameFault::BadPort),
    }
}

fn ups(bytes: &[u8]) -> Result<Name<UPS_NAME_MAX>, NameFault>
    ensures { Reads (λ n. n.bytes.items) result (or_fault BadUps (name UPS_NAME_MAX bytes.now)) }
{
    match Name::read(bytes) {
        Ok(name) => Ok(name),
        Err(_) => Err(NameFault::BadUps),
    }
}

/// Reads `host[:port]`. The port is 3493 if none is named.
fn located(bytes: &[u8]) -> Result<(Host, Port), NameFault>
    ensures { Reads (λ l. (l.0.bytes.items, l.1.number)) result (located_of bytes.now) }
{
    match parted(b':', bytes) {
        Some((name, number)) => {
            let host = host(name)?;
            let port = port(number)?;
            Ok((host, port))
        }
        None => {
            let host = host(bytes)?;
            Ok((host, Port { number: 3493 }))
        }
    }
}

/// Returns `localhost`, the host of a target that names none.
fn local_host() -> Host
    ensures { result.bytes.items ≡ codes "localhost" }
{
    match Host::read(b"localhost") {
        Some(host) => host,
        None => unreachable!(),
    }
}

impl Target {
    /// Reads `ups[@host[:port]]`, cut at its first `@` and after that at the first `:`.
    ///
    /// # Errors
    ///
    /// The first of these that applies: [`NameFault::BadUps`], [`NameFault::BadHost`], [`NameFault::BadPort`].
    pub fn read(bytes: &[u8]) -> Result<Self, NameFault>
        ensures { Reads target_view result (target bytes.now) }
    {
        match parted(b'@', bytes) {
            Some((name, place)) => {
                let ups = ups(name)?;
                let (host, port) = located(place)?;
                Ok(Target { ups, host, port })
            }
            None => {
                let ups = ups(bytes)?;
                Ok(Target {
                    ups,
                    host: local_host(),
                    port: Port { number: 3493 },
                })
            }
        }
    }
}

/// Reads `ups[@host[:port]]`, cut at its first `@` and after that at the first `:`.
///
/// The default host is `localhost`, the default port 3493. Allocates no memory.
///
/// # Errors
///
/// The first of these that applies: [`NameFault::BadUps`], [`NameFault::BadHost`], [`NameFault::BadPort`].
pub fn split_name(name: &str) -> Result<Target, NameFault>
    ensures { Reads target_view result (target name.now) }
{
    Target::read(name.as_bytes())
}
