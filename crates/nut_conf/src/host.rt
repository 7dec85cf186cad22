//! Names and addresses of hosts.
ghost use Rattle.std.specs.Prelude.{◌≡◌, IsTrue, MatchOption, false};
ghost use Rattle.std.specs.List.{list_all};
ghost use Rattle.nut_conf.specs.Hosts.{is_host_byte as host_byte, is_address_byte as address_byte, is_host, is_address};

use crate::limits::HOST_MAX;
use arrayvec::ArrayVec;

/// The host to which a client connects, by name or IPv4 address: 1 to [`HOST_MAX`] letters, digits, `.` and `-`. An
/// IPv6 address isn't a host.
#[derive(PartialEq, Eq, Drop)]
pub struct Host {
    pub bytes: ArrayVec<u8, HOST_MAX>,
    pub ghost valid: { IsTrue (is_host bytes.items) },
}

/// An address on which a server listens: 1 to [`HOST_MAX`] letters, digits, `.`, `-` and `:`.
#[derive(PartialEq, Eq, Drop)]
pub struct Address {
    pub bytes: ArrayVec<u8, HOST_MAX>,
    pub ghost valid: { IsTrue (is_address bytes.items) },
}

fn is_host_byte(byte: u8) -> bool
    ensures { result ≡ host_byte byte }
{
    byte.is_ascii_alphanumeric() || byte == b'.' || byte == b'-'
}

fn are_host_bytes(bytes: &[u8]) -> bool
    ensures { result ≡ list_all host_byte bytes.now }
{
    bytes.iter().all(|byte| is_host_byte(*byte))
}

fn is_address_byte(byte: u8) -> bool
    ensures { result ≡ address_byte byte }
{
    is_host_byte(byte) || byte == b':'
}

fn are_address_bytes(bytes: &[u8]) -> bool
    ensures { result ≡ list_all address_byte bytes.now }
{
    bytes.iter().all(|byte| is_address_byte(*byte))
}

impl Host {
    /// Reads a host. Returns `None` if the bytes aren't one.
    pub fn read(bytes: &[u8]) -> Option<Self>
        ensures { MatchOption result (is_host bytes.now ≡ false) (λ h. h.bytes.items ≡ bytes.now) }
    {
        if bytes.is_empty() || !are_host_bytes(bytes) {
            return None;
        }
        match ArrayVec::try_from(bytes) {
            Ok(bytes) => Some(Host { bytes }),
            Err(_) => None,
        }
    }

    /// Returns the bytes of the host.
    pub fn as_bytes(&self) -> &[u8]
        ensures value { result.now ≡ self.now.bytes.items }
        ensures valid { IsTrue (is_host result.now) }
    {
        self.bytes.as_slice()
    }
}

impl Address {
    /// Reads an address. Returns `None` if the bytes aren't one.
    pub fn read(bytes: &[u8]) -> Option<Self>
        ensures { MatchOption result (is_address bytes.now ≡ false) (λ a. a.bytes.items ≡ bytes.now) }
    {
        if bytes.is_empty() || !are_address_bytes(bytes) {
            return None;
        }
        match ArrayVec::try_from(bytes) {
            Ok(bytes) => Some(Address { bytes }),
            Err(_) => None,
        }
    }

    /// Returns the bytes of the address.
    pub fn as_bytes(&self) -> &[u8]
        ensures value { result.now ≡ self.now.bytes.items }
        ensures valid { IsTrue (is_address result.now) }
    {
        self.bytes.as_slice()
    }
}
