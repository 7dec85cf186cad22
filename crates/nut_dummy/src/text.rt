//! Names and values, kept in place without an allocation.
ghost use Rattle.std.specs.Prelude.{◌≡◌, ◌≤◌, List, ℕ, length, IsTrue};
ghost use Rattle.nut_state.specs.Text.{is_name};
ghost use Rattle.nut_dummy.specs.Item.{is_value};

use arrayvec::ArrayVec;
use nut_words::{NAME_MAX, VALUE_MAX, are_printing};
use std::marker::Model;

/// The name of a variable: 1 to [`NAME_MAX`] letters, digits, `.`, `_` and `-`.
#[derive(Drop)]
pub struct Name {
    bytes: ArrayVec<u8, NAME_MAX>,
}

impl Model for Name {
    ghost Value = { List ℕ };

    ghost view = { λ name. name.bytes.items };

    ghost invariant = { λ name. IsTrue (is_name name.bytes.items) };
}

impl Name {
    /// Makes a name of bytes that are one.
    pub fn new(bytes: &[u8]) -> Name
        requires { IsTrue (is_name bytes.now) }
        ensures { result ≡ bytes.now }
    {
        let mut name = ArrayVec::new();
        name.try_extend_from_slice(bytes).unwrap();
        Name { bytes: name }
    }

    /// Returns the bytes of the name.
    pub fn as_bytes(&self) -> &[u8]
        ensures value { result.now ≡ self.now }
        ensures named { IsTrue (is_name result.now) }
    {
        self.bytes.as_slice()
    }
}

/// Whether these bytes can be a value.
pub fn is_value(bytes: &[u8]) -> bool
    ensures { result ≡ is_value bytes.now }
{
    bytes.len() <= VALUE_MAX && are_printing(bytes)
}

/// A value: 0 to [`VALUE_MAX`] printing bytes.
#[derive(Drop)]
pub struct Text {
    contents: ArrayVec<u8, VALUE_MAX>,
}

impl Model for Text {
    ghost Value = { List ℕ };

    ghost view = { λ text. text.contents.items };

    ghost invariant = { λ text. IsTrue (is_value text.contents.items) };
}

impl Text {
    /// Makes a value of bytes that are one.
    pub fn new(bytes: &[u8]) -> Text
        requires { IsTrue (is_value bytes.now) }
        ensures { result ≡ bytes.now }
    {
        let mut text = ArrayVec::new();
        text.try_extend_from_slice(bytes).unwrap();
        Text { contents: text }
    }

    /// Returns the bytes of the value.
    pub fn as_bytes(&self) -> &[u8]
        ensures value { result.now ≡ self.now }
        ensures valued { IsTrue (is_value result.now) }
    {
        self.contents.as_slice()
    }
}
