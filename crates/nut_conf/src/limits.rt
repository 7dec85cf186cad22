//! Lengths and counts of the configuration files: this project's own limits. The range of a number stands in the type of its
//! field, and the lengths of names in `nut_words`.
ghost use Rattle.std.specs.Prelude.{◌≡◌};

/// The greatest length of a configuration file in bytes.
pub const FILE_MAX: usize = 1_048_576;
/// The greatest length of a line of a configuration file in bytes. Its line feed isn't counted, a carriage return is.
pub const FILE_LINE_MAX: usize = 512;
/// The greatest number of UPSes: sections of ups.conf.
pub const UPSES_MAX: usize = 32;
/// The greatest number of users: sections of upsd.users.
pub const USERS_MAX: usize = 64;
/// The greatest number of `instcmds` of a user.
pub const INSTCMDS_MAX: usize = 128;
/// The greatest number of endpoints on which a server listens: `LISTEN` of upsd.conf.
pub const LISTENERS_MAX: usize = 16;
/// The greatest number of connections that may be open at once, which MAXCONN of upsd.conf can only lower.
pub const CONNECTIONS_MAX: u32 = 256;
/// The greatest number of UPSes that a monitor watches: `MONITOR` lines of upsmon.conf.
pub const MONITORS_MAX: usize = 32;
/// The greatest length of the name of a driver's program in bytes.
pub const DRIVER_NAME_MAX: usize = 32;
/// The greatest length in bytes of what a driver is to open: `port` of ups.conf.
pub const DEVICE_MAX: usize = 128;
/// The greatest length in bytes of the description of a UPS, a variable or a command.
pub const DESCRIPTION_MAX: usize = 128;
/// The greatest number of variables, and of commands, with a description: `VARDESC` and `CMDDESC` lines of cmdvartab.
pub const DESCRIPTIONS_MAX: usize = 1_024;
/// The greatest length in bytes of the user's name in a `MONITOR` line. The limit of a user's name in upsd.users is
/// [`UPS_NAME_MAX`](nut_words::UPS_NAME_MAX).
pub const USER_NAME_MAX: usize = 32;
/// The greatest length of a password in bytes.
pub const PASSWORD_MAX: usize = 128;
/// The greatest length in bytes of the name or the address of a host.
pub const HOST_MAX: usize = 64;
/// The greatest length of a target in bytes: a UPS of 32, a host of 64, a port of 9 digits, `@` and `:`.
pub const TARGET_MAX: usize = 107;
/// The greatest length of the text of a notice in bytes.
pub const MESSAGE_MAX: usize = 128;
/// The greatest length in bytes of a command of upsmon.conf, and of the path of POWERDOWNFLAG.
pub const COMMAND_MAX: usize = 256;

/// States a law and does nothing when called: the values of the limits that the definitions name.
pub fn file_limits()
    ensures file { FILE_MAX ≡ 1048576 }
    ensures line { FILE_LINE_MAX ≡ 512 }
    ensures upses { UPSES_MAX ≡ 32 }
    ensures users { USERS_MAX ≡ 64 }
    ensures instcmds { INSTCMDS_MAX ≡ 128 }
    ensures listeners { LISTENERS_MAX ≡ 16 }
    ensures connections { CONNECTIONS_MAX ≡ 256 }
    ensures monitors { MONITORS_MAX ≡ 32 }
    ensures driver_name { DRIVER_NAME_MAX ≡ 32 }
    ensures device { DEVICE_MAX ≡ 128 }
    ensures description { DESCRIPTION_MAX ≡ 128 }
    ensures descriptions { DESCRIPTIONS_MAX ≡ 1024 }
    ensures user_name { USER_NAME_MAX ≡ 32 }
    ensures password { PASSWORD_MAX ≡ 128 }
    ensures host { HOST_MAX ≡ 64 }
    ensures target { TARGET_MAX ≡ 107 }
    ensures message { MESSAGE_MAX ≡ 128 }
    ensures command { COMMAND_MAX ≡ 256 }
{}
