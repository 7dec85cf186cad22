//! How many notices wait: this project's own limit.
ghost use Rattle.std.specs.Prelude.{◌≡◌};

/// The greatest number of notices that wait to be taken.
pub const NOTICES_MAX: usize = 128;

/// States a law and does nothing when called: the value of the limit that the definitions name.
pub fn notice_limits()
    ensures notices { NOTICES_MAX ≡ 128 }
{}
