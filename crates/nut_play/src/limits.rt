//! How long a line of a schedule is: this project's own limit.
ghost use Rattle.std.specs.Prelude.{◌≡◌};

/// The greatest length of a line of a schedule in bytes. Its line feed isn't counted.
pub const STEP_LINE_MAX: usize = 512;

/// States a law and does nothing when called: the value of the limit that the definitions name.
pub fn step_limits()
    ensures line { STEP_LINE_MAX ≡ 512 }
{}
