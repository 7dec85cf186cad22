//! The most rows of a list, and the highest number that a tracked request gets: this project's own limits.
ghost use Rattle.std.specs.Prelude.{◌≡◌};

/// The greatest number of rows of an answer to LIST.
pub const ROWS_MAX: usize = 512;
/// The highest number that a tracked request can have. It has nine digits. How many requests are tracked at once stands
/// in `nut_server_spec`.
pub const TRACKING_NUMBER_MAX: u32 = 999999999;

/// States a law and does nothing when called: the values of the limits that the definitions name.
pub fn message_limits()
    ensures rows { ROWS_MAX ≡ 512 }
    ensures tracking_number { TRACKING_NUMBER_MAX ≡ 999999999 }
{}
