//! How many bytes and words the protocols' parts have at most: the limits that several crates share, each in this one place.
//!
//! They are this project's own profile: RFC 9271 and NUT's manual pages name none of them. What a table holds stands in
//! `nut_state`, how long a list is in `nut_proto`, what a file holds in `nut_conf`.
ghost use Rattle.std.specs.Prelude.{◌≡◌};

/// The greatest length of a line in bytes: of a request or an answer, and of what a driver and a server send each other. Its
/// line feed isn't counted, a carriage return is.
pub const LINE_MAX: usize = 2048;
/// The greatest number of bytes that come in at once.
pub const PIECE_MAX: usize = 512;
/// The greatest number of words of a line.
pub const WORDS_MAX: usize = 32;
/// The greatest length in bytes of the name of a section: of a UPS in ups.conf, and of a user in upsd.users.
pub const UPS_NAME_MAX: usize = 32;
/// The greatest length of the name of a variable or a command in bytes.
pub const NAME_MAX: usize = 64;
/// The greatest length of a value or an enum value in bytes, and the greatest number that SETAUX may set.
pub const VALUE_MAX: usize = 512;
/// The greatest length in bytes of a user name or a password that a client sends. A configured user name is shorter:
/// see [`UPS_NAME_MAX`].
pub const CREDENTIAL_MAX: usize = 128;

/// States a law and does nothing when called: the values of the limits that the definitions name.
pub fn word_limits()
    ensures line { LINE_MAX ≡ 2048 }
    ensures piece { PIECE_MAX ≡ 512 }
    ensures words { WORDS_MAX ≡ 32 }
    ensures ups_name { UPS_NAME_MAX ≡ 32 }
    ensures name { NAME_MAX ≡ 64 }
    ensures value { VALUE_MAX ≡ 512 }
    ensures credential { CREDENTIAL_MAX ≡ 128 }
{}
