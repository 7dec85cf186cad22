//! Takes the words of a line one after the other.
ghost use Rattle.std.specs.Prelude.{◌≡◌, ◌≤◌, ◌==◌, List, ℕ, [], ◌∷◌, length, drop, MatchOption};
ghost use Rattle.nut_proto.specs.Rules.{no_word, one_word, two_words, three_words, optional_word, credential_word, number_word, on_or_off};

use crate::tracking::{switch, tracking_number};
use crate::word::Word;
use nut_words::{CREDENTIAL_MAX, Words};
use std::marker::Model;

/// The words of a line that haven't been taken.
#[derive(Drop)]
pub struct Cursor<'a, 'l> {
    words: &'a Words<'l>,
    next: usize,
}

impl<'a, 'l> Model for Cursor<'a, 'l> {
    ghost Value = { List (List ℕ) };

    ghost view = { λ c. drop c.next c.words.now };

    ghost invariant = { λ c. c.next ≤ length c.words.now };
}

impl<'a, 'l> Cursor<'a, 'l> {
    /// Returns a cursor before the first word.
    pub fn new(words: &'a Words<'l>) -> Cursor<'a, 'l>
        ensures { result ≡ words.now }
    {
        Cursor { words, next: 0 }
    }

    /// Returns how many words are left.
    pub fn len(&self) -> usize
        ensures { result ≡ length self.now }
    {
        self.words.len() - self.next
    }

    /// Whether no word is left.
    pub fn is_empty(&self) -> bool
        ensures { result ≡ (length self.now == 0) }
    {
        self.next == self.words.len()
    }

    /// Takes the next word, if there is one.
    #[tactic(auto, using(crate::proofs::Cursors::next_word))]
    pub fn next(&mut self) -> Option<Word<'a>>
        ensures { MatchOption result ((self.old ≡ []) × (self.new ≡ [])) (λ word. self.old ≡ word ∷ self.new) }
    {
        if self.next == self.words.len() {
            return None;
        }
        let word = Word::new(self.words.get(self.next));
        self.next += 1;
        Some(word)
    }

    /// Returns `Some` if no word is left.
    pub fn end(mut self) -> Option<()>
        ensures { result ≡ no_word self.entry }
    {
        match self.next() {
            None => Some(()),
            Some(_) => None,
        }
    }

    /// Returns the word that is left, if exactly one is.
    pub fn one(mut self) -> Option<Word<'a>>
        ensures { result ≡ one_word self.entry }
    {
        let word = self.next()?;
        self.end()?;
        Some(word)
    }

    /// Returns the word that is left, or none; `None` if more words are left.
    pub fn optional(mut self) -> Option<Option<Word<'a>>>
        ensures { result ≡ optional_word self.entry }
    {
        let word = self.next();
        self.end()?;
        Some(word)
    }

    /// Returns the words that are left, if exactly two are.
    pub fn two(mut self) -> Option<(Word<'a>, Word<'a>)>
        ensures { result ≡ two_words self.entry }
    {
        let first = self.next()?;
        let second = self.one()?;
        Some((first, second))
    }

    /// Returns the words that are left, if exactly three are.
    pub fn three(mut self) -> Option<(Word<'a>, Word<'a>, Word<'a>)>
        ensures { result ≡ three_words self.entry }
    {
        let first = self.next()?;
        let (second, third) = self.two()?;
        Some((first, second, third))
    }

    /// Returns the number of a tracked request, if it is the one word that is left.
    pub fn tracking_number(self) -> Option<u32>
        ensures { result ≡ number_word self.entry }
    {
        let word = self.one()?;
        tracking_number(word.as_bytes())
    }

    /// Returns what the one word that is left says: ON or OFF.
    pub fn switch(self) -> Option<bool>
        ensures { result ≡ on_or_off self.entry }
    {
        let word = self.one()?;
        switch(word.as_bytes())
    }

    /// The last word, where exactly one is left, of 1 to [`CREDENTIAL_MAX`] bytes.
    pub fn credential(self) -> Option<Word<'a>>
        ensures { result ≡ credential_word self.entry }
    {
        let word = self.one()?;
        let len = word.as_bytes().len();
        if 1 <= len && len <= CREDENTIAL_MAX {
            Some(word)
        } else {
            None
        }
    }
}
