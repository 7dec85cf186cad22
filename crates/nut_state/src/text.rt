//! Names and values. They are stored in place and allocate no memory.
ghost use Rattle.std.specs.Prelude.{◌≡◌, ◌≤◌, List, ℕ, length};
ghost use Rattle.nut_state.specs.Text.{is_name};

use arrayvec::ArrayVec;
use nut_words::{NAME_MAX, VALUE_MAX};
use std::marker::Model;

/// The name of a variable or a command: 1 to [`NAME_MAX`] letters, digits, `.`, `_` and `-`.
#[derive(Drop)]
pub struct Name {
    bytes: ArrayVec<u8, NAME_MAX>,
}

impl Model for Name {
    ghost Value = { List ℕ };

    ghost view = { λ name. name.bytes.items };
}

impl Name {
    pub(crate) fn new(bytes: &[u8]) -> Name
        requires { length bytes.now ≤ NAME_MAX }
        ensures { result ≡ bytes.now }
    {
        let mut name = ArrayVec::new();
        name.try_extend_from_slice(bytes).unwrap();
        Name { bytes: name }
    }

    /// Returns the bytes of the name.
    pub fn as_bytes(&self) -> &[u8]
        ensures value { result.now ≡ self.now }
        ensures fits { length result.now ≤ NAME_MAX }
    {
        self.bytes.as_slice()
    }
}

/// The value of a variable, or one of its enum values: 0 to [`VALUE_MAX`] bytes.
#[derive(Drop)]
pub struct Text {
    contents: ArrayVec<u8, VALUE_MAX>,
}

impl Model for Text {
    ghost Value = { List ℕ };

    ghost view = { λ text. text.contents.items };
}

impl Text {
    pub(crate) fn new(bytes: &[u8]) -> Text
        requires { length bytes.now ≤ VALUE_MAX }
        ensures { result ≡ bytes.now }
    {
        let mut text = ArrayVec::new();
        text.try_extend_from_slice(bytes).unwrap();
        Text { contents: text }
    }

    /// Replaces the text by another.
    pub(crate) fn set(&mut self, bytes: &[u8])
        requires { length bytes.now ≤ VALUE_MAX }
        ensures { self.new ≡ bytes.now }
    {
        self.contents.clear();
        self.contents.try_extend_from_slice(bytes).unwrap();
    }

    /// Returns the bytes of the text.
    pub fn as_bytes(&self) -> &[u8]
        ensures value { result.now ≡ self.now }
        ensures fits { length result.now ≤ VALUE_MAX }
    {
        self.contents.as_slice()
    }
}

/// Whether a variable or a command may have this name.
pub(crate) fn is_name(text: &[u8]) -> bool
    ensures { result ≡ is_name text.now }
{
    nut_words::is_name(text, NAME_MAX)
}
