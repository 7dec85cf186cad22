//! Writes the rows of variables. All rows of a list begin alike, and each variable keeps the text with which its row ends.
//! So most rows are two copies.

ghost use Rattle.std.specs.Prelude.{◌≡◌, ◌∷◌, [], ◌++◌, OnOk, IfSome};
ghost use Rattle.nut_words.specs.Bytes.{line_feed};
ghost use Rattle.nut_words.specs.Quoting.{word_text};
ghost use Rattle.nut_server.specs.inside.Rows.{row_front};

use crate::limits::FRONT_MAX;
use arrayvec::ArrayVec;
use nut_words::{Full, Out, append_word};
use std::alloc::AllocError;

/// What the rows of a list of variables begin with, as `VAR su700 `. `None` if that is longer than [`FRONT_MAX`].
pub type Front = Option<ArrayVec<u8, FRONT_MAX>>;

/// Appends what a row of this UPS begins with. `word` is the word of the row, which needs no quotes.
pub fn put_front<O: Out>(out: &mut O, word: &[u8], ups: &[u8]) -> Result<(), O::Fault>
    ensures { OnOk result (O.held out.new ≡ O.held out.old ++ row_front word.now ups.now) }
{
    out.append(word)?;
    out.push(b' ')?;
    append_word(out, ups)?;
    out.push(b' ')?;
    Ok(())
}

/// Returns what the rows of a list of this UPS begin with. `word` is the word of the list, which needs no quotes.
pub fn front_of(word: &[u8], ups: &[u8]) -> Front
    ensures { IfSome result (λ front. front.items ≡ row_front word.now ups.now) }
{
    let mut front = ArrayVec::new();
    match put_front(&mut front, word, ups) {
        Ok(()) => Some(front),
        Err(Full) => None,
    }
}

/// Appends the line before or after the rows of a list of this UPS. `words` is what it begins with, as `BEGIN LIST VAR `. If
/// memory cannot be allocated, `out` may hold a part of it.
pub fn put_mark(out: &mut Vec<u8>, words: &[u8], ups: &[u8]) -> Result<(), AllocError>
    ensures { OnOk result (out.new.items ≡ out.old.items ++ (words.now ++ (word_text ups.now ++ line_feed ∷ []))) }
{
    out.extend_from_slice(words)?;
    append_word(out, ups)?;
    out.push(b'\n')?;
    Ok(())
}

/// Appends a row. If memory cannot be allocated, `out` may hold a part of it.
pub fn put_row(out: &mut Vec<u8>, front: &[u8], end: &[u8]) -> Result<(), AllocError>
    ensures { OnOk result (out.new.items ≡ out.old.items ++ (front.now ++ end.now)) }
{
    out.extend_from_slice(front)?;
    out.extend_from_slice(end)?;
    Ok(())
}
