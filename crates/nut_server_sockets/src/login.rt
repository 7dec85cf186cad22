//! A client that is logged in to a UPS, as it is reported.

use crate::deed_report::Who;
use arrayvec::ArrayVec;
use nut_poll::text_of;
use nut_server::Deed;
use nut_server_spec::ADDRESS_MAX;
use nut_words::{CREDENTIAL_MAX, UPS_NAME_MAX};

/// A client that is logged in to a UPS: its user name and address, and the name of the UPS. They are kept until the login
/// ends, since the server forgets them before that is reported.
#[derive(Drop)]
pub struct Login {
    user: ArrayVec<u8, CREDENTIAL_MAX>,
    address: ArrayVec<u8, ADDRESS_MAX>,
    ups: ArrayVec<u8, UPS_NAME_MAX>,
}

impl Login {
    /// Returns the login to this UPS that a client's deed was.
    pub fn new(deed: &Deed, ups: &[u8]) -> Login {
        Login {
            user: copied(deed.user.as_slice()),
            address: copied(deed.address.as_slice()),
            ups: copied(ups),
        }
    }

    /// Returns the name of the UPS.
    pub fn ups(&self) -> &str {
        text_of(self.ups.as_slice())
    }

    /// Returns who is logged in.
    pub fn who(&self) -> Who<'_> {
        Who {
            user: text_of(self.user.as_slice()),
            address: text_of(self.address.as_slice()),
        }
    }
}

/// Returns a copy of the bytes, which is empty if they are too long.
pub fn copied<const N: usize>(bytes: &[u8]) -> ArrayVec<u8, N> {
    let mut copy = ArrayVec::new();
    let _ = copy.try_extend_from_slice(bytes);
    copy
}
