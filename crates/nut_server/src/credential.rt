//! User names and passwords that clients give.

ghost use Rattle.std.specs.Prelude.{◌≡◌, ◌≤◌, List, ℕ, length};
ghost use Rattle.nut_words.specs.declared.limits.TheConstants.{CREDENTIAL_MAX};

use arrayvec::ArrayVec;
use nut_words::CREDENTIAL_MAX;
use std::marker::Model;

/// A user name or a password, borrowed from a request.
#[derive(Drop)]
pub struct LentCredential<'l> {
    bytes: &'l [u8],
}

impl<'l> Model for LentCredential<'l> {
    ghost Value = { List ℕ };

    ghost view = { λ c. c.bytes.now };

    ghost invariant = { λ c. length c.bytes.now ≤ CREDENTIAL_MAX };
}

impl<'l> LentCredential<'l> {
    /// Returns the credential with these bytes.
    pub fn new(bytes: &'l [u8]) -> LentCredential<'l>
        requires { length bytes.now ≤ CREDENTIAL_MAX }
        ensures { result ≡ bytes.now }
    {
        LentCredential { bytes }
    }

    /// Returns the bytes.
    fn as_bytes(&self) -> &'l [u8]
        ensures value { result.now ≡ self.now }
        ensures within { length result.now ≤ CREDENTIAL_MAX }
    {
        self.bytes
    }

    /// Returns a copy that can be kept.
    pub fn copied(&self) -> Credential
        ensures { result ≡ self.now }
    {
        let mut bytes = ArrayVec::new();
        bytes.try_extend_from_slice(self.as_bytes()).unwrap();
        Credential { bytes }
    }
}

/// A user name or a password, stored in place.
#[derive(Drop)]
pub struct Credential {
    bytes: ArrayVec<u8, CREDENTIAL_MAX>,
}

impl Model for Credential {
    ghost Value = { List ℕ };

    ghost view = { λ c. c.bytes.items };
}

impl Credential {
    /// Returns the bytes.
    pub fn as_bytes(&self) -> &[u8]
        ensures { result.now ≡ self.now }
    {
        self.bytes.as_slice()
    }
}
