//! Reads bare words with one byte behind each, and a text in quotes: nearly all requests and drivers' lines consist of such.
ghost use Rattle.std.specs.Prelude.{◌≡◌, ◌≤◌, ◌∷◌, ◌++◌, true, length, take, IfSome};
ghost use Rattle.std.specs.List.{list_all};
ghost use Rattle.nut_words.specs.Quoting.{IsPrintable, quoted, stands_bare};
ghost use Rattle.nut_words.specs.Spelling.{is_bare};

use crate::lanes::{LANES, bare_run};
use crate::printing::are_printing;
use crate::quoting::{is_bare_byte, is_unescaped};

/// Returns how many bytes of a bare word these bytes begin with. [`LANES`] at a time are looked at, as long as there are as many.
/// In its callers its loops would carry their values along.
#[inline(never)]
#[tactic(auto, using(crate::proofs::PlainLemmas::one_more_bare))]
pub(crate) fn bare_len(bytes: &[u8]) -> usize
    ensures within { result ≤ length bytes.now }
    ensures bare { list_all is_bare (take result bytes.now) ≡ true }
{
    let mut len = 0;
    while bytes.len() - len >= LANES {
        let run = bare_run(bytes, len);
        len += run;
        if run < LANES {
            return len;
        }
    }
    while len < bytes.len() && is_bare_byte(bytes[len]) {
        len += 1;
    }
    len
}

/// Returns the bare word with which these bytes begin, and the bytes behind `end`, if `end` follows the word. Allocates no
/// memory.
pub fn bare_word(bytes: &[u8], end: u8) -> Option<(&[u8], &[u8])>
    ensures { IfSome result (λ found. (bytes.now ≡ found.0.now ++ end ∷ found.1.now) × (stands_bare found.0.now ≡ true)) }
{
    let len = bare_len(bytes);
    if len == 0 || len == bytes.len() || bytes[len] != end {
        return None;
    }
    Some((&bytes[..len], &bytes[len + 1..]))
}

/// Returns the text between the quotes, if these bytes are a quoted word. Each byte of the text has to be
/// printing, and one that [`append_quoted`](crate::append_quoted) writes without a backslash. Allocates no memory.
pub fn quoted_text(bytes: &[u8]) -> Option<&[u8]>
    ensures { IfSome result (λ text. (bytes.now ≡ quoted text.now) × IsPrintable text.now) }
{
    let (first, behind) = bytes.split_first()?;
    let (last, text) = behind.split_last()?;
    if *first != b'"' || *last != b'"' || !are_printing(text) || !is_unescaped(text) {
        return None;
    }
    Some(text)
}
