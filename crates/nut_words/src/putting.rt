//! Writes texts and words into a `Vec`, which grows, or into an `ArrayVec`, which allocates nothing.
ghost use Rattle.std.specs.Prelude.{◌≡◌, ◌≤◌, ◌↔◌, ◌++◌, length, IsTrue, OnOk, OnErr, IfErr};
ghost use Rattle.std.specs.Bool.{OnTrue, OnFalse};
ghost use Rattle.nut_words.specs.Quoting.{quoted, word_text};
ghost use Rattle.nut_words.specs.declared.words.WordFault.TheVariants.{Memory};

use crate::quoting::{append_quoted, append_word};
use crate::words::WordFault;
use arrayvec::ArrayVec;

/// Appends the text in quotes, as [`append_quoted`] does.
///
/// # Errors
///
/// [`WordFault::Memory`] if memory cannot be allocated. `out` is then as it was.
pub fn put_quoted(out: &mut Vec<u8>, text: &[u8]) -> Result<(), WordFault>
    ensures ok { OnOk result (out.new.items ≡ out.old.items ++ quoted text.now) }
    ensures err { OnErr result (out.new.items ≡ out.old.items) }
    ensures memory { IfErr result (λ fault. fault ≡ Memory) }
{
    append_quoted(out, text)?;
    Ok(())
}

/// Appends the word, bare or in quotes, as [`append_word`] does.
///
/// # Errors
///
/// [`WordFault::Memory`] if memory cannot be allocated. `out` is then as it was.
pub fn put_word(out: &mut Vec<u8>, word: &[u8]) -> Result<(), WordFault>
    ensures ok { OnOk result (out.new.items ≡ out.old.items ++ word_text word.now) }
    ensures err { OnErr result (out.new.items ≡ out.old.items) }
    ensures memory { IfErr result (λ fault. fault ≡ Memory) }
{
    append_word(out, word)?;
    Ok(())
}

/// Appends the text in quotes, as [`append_quoted`] does. Returns whether there was room for the whole: if not, `out` is as
/// it was. Allocates no memory.
pub fn put_quoted_in<const N: usize>(out: &mut ArrayVec<u8, N>, text: &[u8]) -> bool
    ensures fits { IsTrue result ↔ (length (out.old.items ++ quoted text.now) ≤ N) }
    ensures put { OnTrue result (out.new.items ≡ out.old.items ++ quoted text.now) }
    ensures same { OnFalse result (out.new.items ≡ out.old.items) }
{
    append_quoted(out, text).is_ok()
}

/// Appends the word, bare or in quotes, as [`append_word`] does. Returns whether there was room for the whole: if not, `out`
/// is as it was. Allocates no memory.
pub fn put_word_in<const N: usize>(out: &mut ArrayVec<u8, N>, word: &[u8]) -> bool
    ensures fits { IsTrue result ↔ (length (out.old.items ++ word_text word.now) ≤ N) }
    ensures put { OnTrue result (out.new.items ≡ out.old.items ++ word_text word.now) }
    ensures same { OnFalse result (out.new.items ≡ out.old.items) }
{
    append_word(out, word).is_ok()
}
