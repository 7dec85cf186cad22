//! Reads the lines of the server for a client.
ghost use Rattle.std.specs.Prelude.{◌≡◌, ◌≢◌, ◌==◌, ◌&&◌, Ok, Err, IsTrue, codes, length, nat_lt};
ghost use Rattle.nut_words.specs.Reader.{has_backslash};
ghost use Rattle.nut_proto.specs.Answers.{answer_for, answer_in, answer_of, is_at};
ghost use Rattle.nut_proto.specs.Positions.{word_at};

use nut_words::{WordFault, Words, split};
use std::alloc::Global;
use std::marker::Model;
use thiserror::Error;

/// Why a line of the server can't be read as an answer.
#[derive(Clone, Copy, Debug, PartialEq, Eq, Error)]
pub enum AnswerFault {
    /// The line doesn't read as words.
    #[error("the line does not read as words")]
    Unreadable,
    /// The line has no words.
    #[error("the line has no words")]
    Empty,
    /// Memory cannot be allocated for a word with a backslash.
    #[error("out of memory")]
    Memory,
}

/// A line of the server, classified by its first words, which are compared byte for byte.
#[derive(Drop)]
pub enum Answer<'a> {
    /// A success: the words after `OK`.
    Ok(Rest<'a>),
    /// A refusal: the name after `ERR`. An `ERR` without a name is a row.
    Err(ErrorName<'a>),
    /// The first line of a list: the words after `BEGIN LIST`.
    Begin(Rest<'a>),
    /// The last line of a list: the words after `END LIST`.
    End(Rest<'a>),
    /// Any other line: all its words.
    Row(Rest<'a>),
}

/// The last words of a line.
#[derive(Drop)]
pub struct Rest<'a> {
    words: Words<'a>,
    start: usize,
}

impl<'a> Model for Rest<'a> {
    ghost use Rattle.std.specs.Prelude.{List, ℕ, drop};

    ghost Value = { List (List ℕ) };

    ghost view = { λ r. drop r.start r.words };
}

impl Rest<'_> {
    /// Returns how many words there are.
    pub fn len(&self) -> usize
        ensures { result ≡ length self.now }
    {
        self.words.len().saturating_sub(self.start)
    }

    /// Whether there are no words.
    pub fn is_empty(&self) -> bool
        ensures { result ≡ (length self.now == 0) }
    {
        self.len() == 0
    }

    /// Returns the word at place `index`, counted from 0, or an empty slice past the last word.
    #[tactic(auto, using(crate::proofs::Places::word_after, crate::proofs::Places::word_past))]
    pub fn get(&self, index: usize) -> &[u8]
        ensures { result.now ≡ word_at self.now index }
    {
        if index < self.words.len().saturating_sub(self.start) {
            self.words.get(self.start + index)
        } else {
            &[]
        }
    }
}

/// The name of an error: the second word of its line.
#[derive(Drop)]
pub struct ErrorName<'a> {
    words: Words<'a>,
}

impl<'a> Model for ErrorName<'a> {
    ghost use Rattle.std.specs.Prelude.{List, ℕ};
    ghost use Rattle.nut_proto.specs.Positions.{word_at};

    ghost Value = { List ℕ };

    ghost view = { λ e. word_at e.words 1 };
}

impl ErrorName<'_> {
    /// Returns the bytes of the name.
    pub fn as_bytes(&self) -> &[u8]
        ensures { result.now ≡ self.now }
    {
        self.words.get(1)
    }
}

/// Reads a line of the server, given without its line feed. Allocates memory only for a word with a backslash.
///
/// The first words decide what the line is; they are compared byte for byte. Words after the name of an error are
/// dropped.
///
/// # Errors
///
/// [`AnswerFault::Unreadable`] if the line doesn't read as words, [`AnswerFault::Empty`] if it has none, and
/// [`AnswerFault::Memory`] if memory cannot be allocated, which can happen only if the line has a backslash.
#[tactic(auto, using(std::proofs::lemmas::Grind::common_steps))]
pub fn read_answer<'a>(alloc: Global, line: &'a [u8]) -> Result<Answer<'a>, AnswerFault>
    ensures answer { result ≢ Err AnswerFault.Memory → result ≡ answer_in line.now }
    ensures memory { result ≡ Err AnswerFault.Memory → IsTrue (has_backslash line.now) }
{
    match split(alloc, line) {
        Ok(words) => answer_for(words),
        Err(WordFault::Memory) => Err(AnswerFault::Memory),
        Err(_) => Err(AnswerFault::Unreadable),
    }
}

fn answer_for(words: Words<'_>) -> Result<Answer<'_>, AnswerFault>
    ensures { result ≡ answer_for (Ok words.entry) }
{
    if words.is_empty() {
        return Err(AnswerFault::Empty);
    }
    Ok(answer_of(words))
}

#[tactic(auto, unfolding(crate::specs::Answers::answer_of))]
fn answer_of(words: Words<'_>) -> Answer<'_>
    ensures { result ≡ answer_of words.entry }
{
    if is_at(&words, 0, b"OK") {
        return Answer::Ok(Rest { words, start: 1 });
    }
    if is_refusal(&words) {
        return Answer::Err(ErrorName { words });
    }
    if is_list(&words, b"BEGIN") {
        return Answer::Begin(Rest { words, start: 2 });
    }
    if is_list(&words, b"END") {
        return Answer::End(Rest { words, start: 2 });
    }
    Answer::Row(Rest { words, start: 0 })
}

/// Whether the first word is `ERR`, and a name follows.
fn is_refusal(words: &Words<'_>) -> bool
    ensures { result ≡ (is_at words.now 0 (codes "ERR") && nat_lt 1 (length words.now)) }
{
    is_at(words, 0, b"ERR") && 1 < words.len()
}

/// Whether the first word is this mark, and the second is `LIST`.
fn is_list(words: &Words<'_>, mark: &[u8]) -> bool
    ensures { result ≡ (is_at words.now 0 mark.now && is_at words.now 1 (codes "LIST")) }
{
    is_at(words, 0, mark) && is_at(words, 1, b"LIST")
}

/// Whether the word at place `index` is `word`, byte for byte.
fn is_at(words: &Words<'_>, index: usize, word: &[u8]) -> bool
    ensures { result ≡ is_at words.now index word.now }
{
    words.get(index) == word
}
