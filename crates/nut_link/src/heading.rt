//! The words with which an answer begins.
ghost use Rattle.std.specs.Prelude.{◌≡◌, ◌<◌, ◌≤◌, ◌++◌, ◌∷◌, [], IsTrue, false, length};
ghost use Rattle.std.specs.List.{list_any};
ghost use Rattle.nut_words.specs.Quoting.{texts};
ghost use Rattle.nut_link.specs.Matching.{begins, is_heading, is_long, is_row};

use arrayvec::ArrayVec;
use nut_proto::Rest;
use nut_words::LINE_MAX;
use std::marker::Model;

/// A word of at most [`LINE_MAX`] bytes, since no line has more.
#[derive(Drop)]
pub struct HeadingWord {
    bytes: ArrayVec<u8, LINE_MAX>,
}

impl Model for HeadingWord {
    ghost use Rattle.std.specs.Prelude.{List, ℕ};

    ghost Value = { List ℕ };

    ghost view = { λ n. n.bytes.items };
}

impl HeadingWord {
    fn empty() -> HeadingWord {
        HeadingWord {
            bytes: ArrayVec::new(),
        }
    }

    /// Becomes these bytes. Returns whether there are at most [`LINE_MAX`]. It allocates nothing.
    fn set(&mut self, bytes: &[u8]) -> bool
        ensures set { IsTrue result → self.new ≡ bytes.now }
        ensures long { result ≡ false → IsTrue (is_long bytes.now) }
    {
        self.bytes.clear();
        self.bytes.try_extend_from_slice(bytes).is_ok()
    }

    fn as_bytes(&self) -> &[u8]
        ensures { result.now ≡ self.now }
    {
        self.bytes.as_slice()
    }
}

/// The words with which an answer begins: those of the query behind GET or LIST. There are at most three, and each has a
/// place of its own, which stays for the next query.
#[derive(Drop)]
pub struct Heading {
    words: [HeadingWord; 3],
    count: usize,
}

impl Model for Heading {
    ghost use Rattle.std.specs.Prelude.{◌≡◌, ◌≤◌, List, ℕ, length, take};

    ghost Value = { List (List ℕ) };

    ghost view = { λ h. take h.count h.words };

    ghost invariant = { λ h. (h.count ≤ 3) × (length h.words ≡ 3) };
}

impl Heading {
    /// Returns no words.
    pub(crate) fn empty() -> Heading {
        Heading {
            words: [
                HeadingWord::empty(),
                HeadingWord::empty(),
                HeadingWord::empty(),
            ],
            count: 0,
        }
    }

    /// Becomes these words. Returns false if one is longer than [`LINE_MAX`] bytes. It allocates nothing.
    pub(crate) fn set(&mut self, words: &[&[u8]]) -> bool
        requires { length words.now ≤ 3 }
        ensures set { IsTrue result → self.new ≡ texts words.now }
        ensures long { result ≡ false → IsTrue (list_any is_long (texts words.now)) }
    {
        self.clear();
        for word in words {
            if !self.push(word) {
                return false;
            }
        }
        true
    }

    fn clear(&mut self)
        ensures { self.new ≡ [] }
    {
        self.count = 0;
    }

    /// Appends a word. Returns false if it is longer than [`LINE_MAX`] bytes.
    fn push(&mut self, word: &[u8]) -> bool
        requires { length self.old < 3 }
        ensures pushed { IsTrue result → self.new ≡ self.old ++ word.now ∷ [] }
        ensures long { result ≡ false → IsTrue (is_long word.now) }
    {
        if !self.words[self.count].set(word) {
            return false;
        }
        self.count += 1;
        true
    }

    fn as_slice(&self) -> &[HeadingWord]
        ensures { result.now ≡ self.now }
    {
        &self.words[..self.count]
    }

    /// Returns the number of words.
    pub(crate) fn len(&self) -> usize
        ensures value { result ≡ length self.now }
        ensures few { result ≤ 3 }
    {
        self.count
    }

    /// Whether a line's words begin with these.
    pub(crate) fn begins(&self, words: &Rest<'_>) -> bool
        ensures { result ≡ begins self.now words.now }
    {
        if words.len() < self.len() {
            return false;
        }
        let mut place = 0usize;
        for name in self.as_slice() {
            if name.as_bytes() != words.get(place) {
                return false;
            }
            place += 1;
        }
        true
    }

    /// Whether a line's words are exactly these.
    pub(crate) fn is_heading(&self, words: &Rest<'_>) -> bool
        ensures { result ≡ is_heading self.now words.now }
    {
        words.len() == self.len() && self.begins(words)
    }

    /// Whether a line's words are these and `count` further ones.
    pub(crate) fn is_row(&self, count: u8, words: &Rest<'_>) -> bool
        ensures { result ≡ is_row self.now count words.now }
    {
        words.len() == self.len() + usize::from(count) && self.begins(words)
    }
}
