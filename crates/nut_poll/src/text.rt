//! The bytes of a configuration as text.

ghost use Rattle.std.specs.Prelude.{◌≡◌, []};
ghost use Rattle.std.specs.Str.{IsUtf8};

use std::str;

/// Returns the bytes as text, or the empty text if they aren't UTF-8. The bytes of a configuration are all printing
/// ASCII.
pub fn text_of(bytes: &[u8]) -> &str
    ensures text { IsUtf8 bytes.now → result.now ≡ bytes.now }
    ensures empty { ¬ (IsUtf8 bytes.now) → result.now ≡ [] }
{
    str::from_utf8(bytes).unwrap_or("")
}
