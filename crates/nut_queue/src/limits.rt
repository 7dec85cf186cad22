//! How much a queue holds: this project's own limit.
ghost use Rattle.std.specs.Prelude.{◌≡◌};

/// The greatest number of bytes of requests that wait for one driver.
pub const ASKS_MAX: usize = 4096;

/// States a law and does nothing when called: the value of the limit that the definitions name.
pub fn queue_limits()
    ensures asks { ASKS_MAX ≡ 4096 }
{}
