//! Cuts bytes at the first separator.
ghost use Rattle.std.specs.Prelude.{◌≡◌, ◌==◌, ◌<◌, ◌∷◌, [], length, IfSome};
ghost use Rattle.std.specs.List.{slice_split};
ghost use Rattle.std.specs.Option.{option_map_or};

use memchr::memchr;

/// Returns the bytes before the first `byte`, and the bytes after it. Without such a byte it returns all of them and
/// `None`.
pub fn cut(byte: u8, bytes: &[u8]) -> (&[u8], Option<&[u8]>)
    ensures parts { slice_split (λ c. c == byte) bytes.now
        ≡ result.0.now ∷ option_map_or (λ rest. slice_split (λ c. c == byte) rest.now) result.1 [] }
    ensures shorter { IfSome result.1 (λ rest. length rest.now < length bytes.now) }
{
    match memchr(byte, bytes) {
        Some(at) => (&bytes[..at], Some(&bytes[at + 1..])),
        None => (bytes, None),
    }
}
