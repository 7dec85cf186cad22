//! Reads a SETINFO and a PONG as nearly all drivers write them.
ghost use Rattle.std.specs.Prelude.{◌≡◌, Some, IfSome, IsTrue};
ghost use Rattle.nut_state.specs.Change.{heard, set_info, pong};

use nut_words::{bare_word, quoted_text};

/// Returns the name and the value of a plain SETINFO: SETINFO in upper case, a bare word and a text in quotes without escapes,
/// with one space between two. Returns `None` if the line is anything else, even another SETINFO. Allocates no memory.
pub(crate) fn plain_setting(line: &[u8]) -> Option<(&[u8], &[u8])>
    ensures { IfSome result (λ found. heard line.now ≡ Some (set_info found.0.now found.1.now)) }
{
    let words = line.strip_prefix(b"SETINFO ")?;
    let (name, behind) = bare_word(words, b' ')?;
    let value = quoted_text(behind)?;
    Some((name, value))
}

/// Whether a line is a plain PONG: the four letters in upper case and nothing else. Any other line, even another PONG, isn't.
pub(crate) fn is_plain_pong(line: &[u8]) -> bool
    ensures { IsTrue result → heard line.now ≡ Some pong }
{
    line == b"PONG".as_slice()
}
