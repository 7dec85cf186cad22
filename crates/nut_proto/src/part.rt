//! Writes the parts of a message.
ghost use Rattle.std.specs.Prelude.{◌≡◌, ◌∷◌, [], ◌++◌, length, take, OnOk, OnErr, codes, decimal};
ghost use Rattle.std.specs.List.{flat_map};
ghost use Rattle.nut_words.specs.Bytes.{blank};
ghost use Rattle.nut_words.specs.Out.{Exceeds};
ghost use Rattle.nut_proto.specs.Lines.{part_text};
ghost use Rattle.nut_proto.specs.inside.Written.{Puts};

use crate::number::{decimal, signed_decimal};
use crate::word::Word;
use arrayvec::ArrayVec;
use nut_words::{Out, append_quoted, append_word};

/// A part of a message, and the way it is written.
#[derive(Drop)]
pub enum Part<'a> {
    /// A word: bare if it can be, else quoted.
    Word(Word<'a>),
    /// A word that is always quoted.
    Quoted(Word<'a>),
    /// A number in decimal.
    Number(u32),
    /// A number in decimal, quoted.
    QuotedNumber(i32),
    /// `STRING:` and a number in decimal.
    StringOf(u32),
}

/// Returns the part for a word of the protocol: bare if it can be, else quoted.
pub fn text(bytes: &[u8]) -> Part<'_>
    ensures { result ≡ Part.Word bytes.now }
{
    Part::Word(Word::new(bytes))
}

/// Returns the part for a name: bare if it can be, else quoted.
pub fn word<'a>(word: &Word<'a>) -> Part<'a>
    ensures { result ≡ Part.Word word.now }
{
    Part::Word(word.copy())
}

/// Returns the part for a value or a description, which is always quoted.
pub fn quoted<'a>(word: &Word<'a>) -> Part<'a>
    ensures { result ≡ Part.Quoted word.now }
{
    Part::Quoted(word.copy())
}

impl Part<'_> {
    fn put<O: Out>(&self, out: &mut O) -> Result<(), O::Fault>
        ensures { Puts O.most (O.held out.old) (O.held out.new) (part_text self.now) result }
    {
        match self {
            Part::Word(word) => append_word(out, word.as_bytes()),
            Part::Quoted(text) => append_quoted(out, text.as_bytes()),
            Part::Number(number) => append_word(out, decimal(*number).as_slice()),
            Part::QuotedNumber(number) => append_quoted(out, signed_decimal(*number).as_slice()),
            Part::StringOf(limit) => append_word(out, string_of(*limit).as_slice()),
        }
    }

    /// Appends a space and the part. If that fails, `out` still begins with what it held.
    fn put_behind<O: Out>(&self, out: &mut O) -> Result<(), O::Fault>
        ensures ok { OnOk result (O.held out.new ≡ O.held out.old ++ blank ∷ part_text self.now) }
        ensures err { OnErr result (take (length (O.held out.old)) (O.held out.new) ≡ O.held out.old) }
        ensures full { OnErr result (Exceeds O.most (length (O.held out.old ++ blank ∷ part_text self.now))) }
    {
        out.push(b' ')?;
        self.put(out)
    }
}

/// Returns `STRING:` and the limit in decimal.
fn string_of(limit: u32) -> ArrayVec<u8, 18>
    ensures { result.items ≡ codes "STRING:" ++ decimal limit }
{
    let mut out = ArrayVec::new();
    let _ = out.try_extend_from_slice(b"STRING:");
    let _ = out.try_extend_from_slice(decimal(limit).as_slice());
    out
}

/// Appends the parts, each after a space. If that fails, `out` still begins with what it held.
pub fn append_parts<O: Out>(out: &mut O, parts: &[Part<'_>]) -> Result<(), O::Fault>
    ensures ok { OnOk result (O.held out.new ≡ O.held out.old ++ flat_map (λ part. blank ∷ part_text part) parts.now) }
    ensures err { OnErr result (take (length (O.held out.old)) (O.held out.new) ≡ O.held out.old) }
    ensures full { OnErr result (Exceeds O.most (length (O.held out.old ++ flat_map (λ part. blank ∷ part_text part) parts.now))) }
{
    for part in parts {
        part.put_behind(out)?;
    }
    Ok(())
}
