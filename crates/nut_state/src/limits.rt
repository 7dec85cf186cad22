//! How much a table holds: this project's own limits, all in this one place. How long a name and a value are stands in
//! `nut_words`.

/// The greatest number of variables.
pub const VARIABLES_MAX: usize = 512;
/// The greatest number of commands.
pub const COMMANDS_MAX: usize = 128;
/// The greatest number of enum values of a variable.
pub const ENUMS_MAX: usize = 64;
/// The greatest number of ranges of a variable.
pub const RANGES_MAX: usize = 16;
