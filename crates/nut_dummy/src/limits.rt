//! The limits of a script: this project's own.

/// The greatest length of a line of a script in bytes. Its line feed isn't counted, a carriage return is.
pub const SCRIPT_LINE_MAX: usize = 2048;
/// The longest timer, in seconds.
pub const TIMER_MAX: u32 = 86400;
/// The greatest number of variables that a script names: with the three that commands set, they are as many as a table
/// holds.
pub const SCRIPT_VARIABLES_MAX: usize = 509;
/// The greatest number of values that a script sets.
pub const STEPS_MAX: usize = 4096;
