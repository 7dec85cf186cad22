//! How long a query is.
ghost use Rattle.std.specs.Prelude.{◌≡◌, ◌+◌};

use nut_words::LINE_MAX;

/// The greatest length of a query in bytes, with its line feed.
pub const QUERY_MAX: usize = LINE_MAX + 1;

/// States a law and does nothing when called: how long the longest query is.
pub fn query_limits()
    ensures query { QUERY_MAX ≡ LINE_MAX + 1 }
{}
