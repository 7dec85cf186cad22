//! Writes lines.
ghost use Rattle.std.specs.Prelude.{◌≡◌, ◌∷◌, [], ◌++◌, length, take, OnOk, OnErr};
ghost use Rattle.nut_words.specs.Out.{Fits, Exceeds};
ghost use Rattle.nut_proto.specs.inside.Written.{Puts, line_from, written};

use crate::part::{Part, append_parts, quoted, word};
use crate::word::Word;
use nut_words::Out;

/// A line that is to be written: the words of the protocol that it begins with, as they stand there, and at most four
/// parts after them.
#[derive(Drop)]
pub enum Line<'a> {
    Bare(&'static [u8]),
    One(&'static [u8], Part<'a>),
    Two(&'static [u8], Part<'a>, Part<'a>),
    Three(&'static [u8], Part<'a>, Part<'a>, Part<'a>),
    Four(&'static [u8], Part<'a>, Part<'a>, Part<'a>, Part<'a>),
}

impl<'a> Line<'a> {
    /// Returns a line of these words and a name.
    pub fn of_name(words: &'static [u8], name: &Word<'a>) -> Line<'a>
        ensures { result ≡ Line.One words.entry (Part.Word name.now) }
    {
        Line::One(words, word(name))
    }

    /// Returns a line of these words and two names.
    pub fn of_names(words: &'static [u8], first: &Word<'a>, second: &Word<'a>) -> Line<'a>
        ensures { result ≡ Line.Two words.entry (Part.Word first.now) (Part.Word second.now) }
    {
        Line::Two(words, word(first), word(second))
    }

    /// Returns a line of these words, a name and a text.
    pub fn of_name_and_text(words: &'static [u8], name: &Word<'a>, text: &Word<'a>) -> Line<'a>
        ensures { result ≡ Line.Two words.entry (Part.Word name.now) (Part.Quoted text.now) }
    {
        Line::Two(words, word(name), quoted(text))
    }

    /// Returns a line of these words, two names and a text.
    pub fn of_names_and_text(
        words: &'static [u8],
        first: &Word<'a>,
        second: &Word<'a>,
        text: &Word<'a>,
    ) -> Line<'a>
        ensures { result ≡ Line.Three words.entry (Part.Word first.now) (Part.Word second.now) (Part.Quoted text.now) }
    {
        Line::Three(words, word(first), word(second), quoted(text))
    }

    /// Appends the line with its line feed.
    ///
    /// # Errors
    ///
    /// If memory cannot be allocated, or if the whole doesn't fit into a buffer of fixed size. `out` is then as it was.
    pub fn put<O: Out>(self, out: &mut O) -> Result<(), O::Fault>
        ensures { Puts O.most (O.held out.old) (O.held out.new) (written self.entry) result }
    {
        match self {
            Line::Bare(words) => put_bare(out, words),
            Line::One(words, first) => put_one(out, words, first),
            Line::Two(words, first, second) => put_two(out, words, first, second),
            Line::Three(words, first, second, third) => put_three(out, words, first, second, third),
            Line::Four(words, first, second, third, fourth) => put_four(
                out, words, first, second, third, fourth,
            ),
        }
    }
}

// A function for each number of parts: a match whose arms make arrays is costly to prove.

#[tactic(auto, using(std::proofs::lemmas::Grind::common_steps))]
fn put_bare<O: Out>(out: &mut O, words: &[u8]) -> Result<(), O::Fault>
    ensures { Puts O.most (O.held out.old) (O.held out.new) (line_from words.now []) result }
{
    put_line(out, words, &[])
}

fn put_one<O: Out>(out: &mut O, words: &[u8], first: Part<'_>) -> Result<(), O::Fault>
    ensures { Puts O.most (O.held out.old) (O.held out.new) (line_from words.now (first.entry ∷ [])) result }
{
    put_line(out, words, &[first])
}

fn put_two<O: Out>(
    out: &mut O,
    words: &[u8],
    first: Part<'_>,
    second: Part<'_>,
) -> Result<(), O::Fault>
    ensures { Puts O.most (O.held out.old) (O.held out.new) (line_from words.now (first.entry ∷ second.entry ∷ [])) result }
{
    put_line(out, words, &[first, second])
}

fn put_three<O: Out>(
    out: &mut O,
    words: &[u8],
    first: Part<'_>,
    second: Part<'_>,
    third: Part<'_>,
) -> Result<(), O::Fault>
    ensures { Puts O.most (O.held out.old) (O.held out.new) (line_from words.now (first.entry ∷ second.entry ∷ third.entry ∷ [])) result }
{
    put_line(out, words, &[first, second, third])
}

fn put_four<O: Out>(
    out: &mut O,
    words: &[u8],
    first: Part<'_>,
    second: Part<'_>,
    third: Part<'_>,
    fourth: Part<'_>,
) -> Result<(), O::Fault>
    ensures { Puts O.most (O.held out.old) (O.held out.new)
        (line_from words.now (first.entry ∷ second.entry ∷ third.entry ∷ fourth.entry ∷ [])) result }
{
    put_line(out, words, &[first, second, third, fourth])
}

/// Appends the line of these words and parts, or nothing.
fn put_line<O: Out>(out: &mut O, words: &[u8], parts: &[Part<'_>]) -> Result<(), O::Fault>
    ensures { Puts O.most (O.held out.old) (O.held out.new) (line_from words.now parts.now) result }
{
    let before = out.len();
    let outcome = append_line(out, words, parts);
    if outcome.is_err() {
        out.truncate(before);
    }
    outcome
}

fn append_line<O: Out>(out: &mut O, words: &[u8], parts: &[Part<'_>]) -> Result<(), O::Fault>
    ensures ok { OnOk result (O.held out.new ≡ O.held out.old ++ line_from words.now parts.now) }
    ensures err { OnErr result (take (length (O.held out.old)) (O.held out.new) ≡ O.held out.old) }
    ensures fits { OnOk result (Fits O.most (length (O.held out.old ++ line_from words.now parts.now))) }
    ensures full { OnErr result (Exceeds O.most (length (O.held out.old ++ line_from words.now parts.now))) }
{
    out.append(words)?;
    append_parts(out, parts)?;
    out.push(b'\n')
}
