//! The name and the version that all programs have.

/// What a program prints after its name if it is asked for its version: the project and its version, and that of the
/// protocol's profile, which the server's answer to VER has, too. packaging/packages.sh reads the project's version here.
pub const VERSION: &str = "(Mulgefa) 1.0 profile 1.3";
