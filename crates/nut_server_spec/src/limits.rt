//! How many connections a server counts, how long their addresses are, and how many requests are tracked: this project's
//! own limits.
ghost use Rattle.std.specs.Prelude.{◌≡◌};

/// The greatest number of connections that a server opens in its life, and so the greatest number of a connection.
pub const OPENED_MAX: u64 = 4_294_967_295;
/// The greatest length of a client's address in bytes.
pub const ADDRESS_MAX: usize = 64;

/// The greatest number of tracked requests to a UPS that are remembered: the newest ones.
pub const TRACKED_MAX: usize = 64;

/// States a law and does nothing when called: the values of the limits that the definitions name.
pub fn connection_limits()
    ensures opened { OPENED_MAX ≡ 4294967295 }
    ensures address { ADDRESS_MAX ≡ 64 }
    ensures tracked { TRACKED_MAX ≡ 64 }
{}
