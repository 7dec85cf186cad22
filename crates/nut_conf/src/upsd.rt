//! The file upsd.conf.
ghost use Rattle.std.specs.Prelude.{◌≡◌, [], IfErr, length, slice_get};
ghost use Rattle.std.specs.Option.{option_map};
ghost use Rattle.nut_conf.specs.Faults.{Reads, Spares};
ghost use Rattle.nut_conf.specs.Files.{Means, read_file};
ghost use Rattle.nut_conf.specs.Memory.{MayRunOut};
ghost use Rattle.nut_conf.specs.Upsd.{UpsdHolds, upsd_fault, upsd_grows, address as address_of, endpoints_of};
ghost use Rattle.nut_conf.specs.Rows.{most_of, numbers_of};
ghost use Rattle.nut_conf.specs.declared.upsd.UpsdConf.{UpsdConf};

use crate::directives::Directives;
use crate::draft::Draft;
use crate::fault::{ConfFault, FaultKind, Misread};
use crate::file::read_draft;
use crate::hint::{Expected, Expects};
use crate::host::Address;
use crate::limits::{CONNECTIONS_MAX, LISTENERS_MAX};
use crate::line::Line;
use crate::lines::Lines;
use crate::slot::FromValues;
use crate::text::{NumberOr, Port};
use crate::values::Values;
use std::alloc::Global;

/// An address and a port on which a server listens.
#[derive(PartialEq, Eq, Drop)]
pub struct Endpoint {
    /// The address, without a port.
    pub address: Address,
    /// The port.
    pub port: Port,
}

/// The configuration of upsd.conf. A directive that isn't set has its default.
pub struct UpsdConf {
    /// LISTEN.
    pub listen: Lines<Endpoint, LISTENERS_MAX>,
    /// MAXAGE: after this many seconds without a word from its driver, the data of a UPS are stale.
    pub max_age: NumberOr<1, 86_400, 15>,
    /// MAXCONN: how many connections may be open at once.
    pub max_conn: NumberOr<1, CONNECTIONS_MAX, CONNECTIONS_MAX>,
}

// A derived drop would be proved again in each crate that drops a value, with those of its parts.
impl Drop for UpsdConf {
    fn drop(self) {
        let UpsdConf {
            listen: _listen,
            max_age: _,
            max_conn: _,
        } = self;
    }
}

impl UpsdConf {
    /// Returns a configuration in which nothing is set, like that of an empty file.
    pub fn new(alloc: Global) -> Self
        ensures { UpsdHolds result [] }
    {
        Draft::new(alloc)
    }

    /// Returns on how many endpoints the server listens: at least one.
    pub fn endpoints(&self) -> usize
        ensures { result ≡ length (endpoints_of self.now) }
    {
        self.listen.lines.len().max(1)
    }

    /// Returns the address and the port of an endpoint, counted from 0 in the order of the file. `None` past the last.
    /// If none is set, endpoint 0 is 127.0.0.1, port 3493.
    pub fn endpoint(&self, index: usize) -> Option<(&[u8], u16)>
        ensures { option_map (λ e. (e.0.now, e.1)) result ≡ slice_get (endpoints_of self.now) index }
    {
        if self.listen.lines.is_empty() && index == 0 {
            return Some((b"127.0.0.1", 3493));
        }
        match self.listen.lines.as_slice().get(index) {
            Some(endpoint) => Some((endpoint.address.bytes.as_slice(), endpoint.port.number)),
            None => None,
        }
    }
}

/// States a law and does nothing when called: how many endpoints there are at most; and the least and the greatest number
/// that each other directive takes, and its default.
pub fn upsd_limits()
    ensures listen { most_of (λ (c : UpsdConf). c.listen) ≡ 16 }
    ensures max_age { numbers_of (λ (c : UpsdConf). c.max_age) ≡ (1, 86400, 15) }
    ensures max_conn { numbers_of (λ (c : UpsdConf). c.max_conn) ≡ (1, 256, 256) }
{}

/// The directives of the file.
#[derive(Clone, Copy)]
pub enum UpsdDirective {
    Listen,
    MaxAge,
    MaxConn,
}

/// Each directive, with its word and what its lines look like.
const DIRECTIVES: [(&[u8], UpsdDirective, &str); 3] = [
    (b"LISTEN", UpsdDirective::Listen, "LISTEN ADDRESS [PORT]"),
    (b"MAXAGE", UpsdDirective::MaxAge, "MAXAGE SECONDS"),
    (b"MAXCONN", UpsdDirective::MaxConn, "MAXCONN NUMBER"),
];

fn address(bytes: &[u8]) -> Result<Address, FaultKind>
    ensures reads { Reads (λ a. a.bytes.items) result (address_of bytes.now) }
    ensures spares { Spares result }
{
    match Address::read(bytes) {
        Some(address) => Ok(address),
        None => Err(FaultKind::BadName),
    }
}

impl Expects for Address {
    const EXPECTED: Expected = Expected::Address;
}

impl FromValues for Endpoint {
    ghost use Rattle.nut_conf.specs.Upsd.{endpoint_setting, listen_value};

    ghost setting = { endpoint_setting };

    ghost reads = { listen_value };

    fn from_values(values: &Values<'_, '_>) -> Result<Self, Misread> {
        match values.len() {
            1 => Ok(Endpoint {
                address: values.told(0, address(values.get(0)))?,
                port: Port { number: 3493 },
            }),
            2 => Ok(Endpoint {
                address: values.told(0, address(values.get(0)))?,
                port: values.told(1, Port::read(values.get(1)))?,
            }),
            _ => Err(Misread::of_line(FaultKind::BadForm, Expected::Form)),
        }
    }
}

impl Directives for UpsdConf {
    ghost use Rattle.nut_conf.specs.Upsd.{upsd_row, upsd_rows};
    ghost use Rattle.nut_conf.specs.inside.Found.{upsd_found};

    type Directive = UpsdDirective;

    ghost all = { upsd_rows };

    ghost table = { upsd_row };

    ghost found = { upsd_found };

    fn rows() -> &'static [(&'static [u8], UpsdDirective, &'static str)] {
        &DIRECTIVES
    }

    fn unset(alloc: Global) -> Self {
        UpsdConf {
            listen: Lines::new(alloc),
            max_age: NumberOr::new(),
            max_conn: NumberOr::new(),
        }
    }

    fn set(&mut self, directive: UpsdDirective, line: &Line<'_>) -> Result<(), Misread> {
        match directive {
            UpsdDirective::Listen => self.listen.put(line),
            UpsdDirective::MaxAge => self.max_age.put(line),
            UpsdDirective::MaxConn => self.max_conn.put(line),
        }
    }
}

/// Reads upsd.conf (NUT manual page upsd.conf(5), the directives `LISTEN`, `MAXAGE` and `MAXCONN`). Returns the
/// configuration that its lines set.
///
/// # Errors
///
/// `PastLimit` at line 0 if the file has more than [`FILE_MAX`](crate::limits::FILE_MAX) bytes. Otherwise the first
/// fault of the first line that has a fault. `Memory` comes only at a line with a backslash, or at a `LISTEN` line
/// without a fault.
pub fn read_upsd(alloc: Global, bytes: &[u8]) -> Result<UpsdConf, ConfFault>
    ensures means { Means (read_file upsd_fault bytes.now) UpsdHolds result }
    ensures memory { IfErr result (λ fault. fault.kind ≡ FaultKind.Memory → MayRunOut upsd_fault upsd_grows bytes.now fault.line) }
{
    read_draft(alloc, bytes)
}
