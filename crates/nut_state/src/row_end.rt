//! A variable's name and value, kept as the text that ends its row in a list.
ghost use Rattle.std.specs.Prelude.{◌≡◌, ◌≤◌, ◌==◌, true, length, is_some, IfSome};
ghost use Rattle.nut_state.specs.Row.{is_unescaped, row_end};
ghost use Rattle.nut_state.specs.Text.{is_name};
ghost use Rattle.nut_words.specs.Quoting.{escaped};

use arrayvec::ArrayVec;
use nut_words::{NAME_MAX, VALUE_MAX};
use std::marker::Model;

/// The greatest length of a row's end in bytes: a name, a blank, a value between two quotes, and a line feed.
const ROW_END_MAX: usize = NAME_MAX + VALUE_MAX + 4;

/// A name and a value. A list of variables copies them as they stand here, which takes fewer instructions than to quote
/// the value anew for each row.
#[derive(Drop)]
pub(crate) struct RowEnd {
    /// The name, a blank, a quote, the value, a quote and a line feed.
    text: ArrayVec<u8, ROW_END_MAX>,
    name_len: usize,
    /// Whether the value holds no byte that would be escaped between quotes.
    unescaped: bool,
}

impl Model for RowEnd {
    ghost use Rattle.nut_state.specs.Row.{Named};

    ghost Value = { Named };

    ghost use Rattle.nut_state.specs.inside.RowInside.{named_in, IsRowEnd};

    ghost view = { named_in };

    ghost invariant = { IsRowEnd };
}

/// Whether the byte stands between quotes without a backslash before it.
fn is_unescaped_byte(byte: u8) -> bool
    ensures { result ≡ (length (escaped byte) == 1) }
{
    !matches!(byte, b'"' | b'\\' | b'#')
}

/// Whether the value stands between quotes as it is.
fn is_unescaped(value: &[u8]) -> bool
    ensures { result ≡ is_unescaped value.now }
{
    value.iter().all(|byte| is_unescaped_byte(*byte))
}

impl RowEnd {
    pub(crate) fn new(name: &[u8], value: &[u8]) -> RowEnd
        requires name { is_name name.now ≡ true }
        requires value { length value.now ≤ VALUE_MAX }
        ensures { result ≡ record { name = name.now; value = value.now } }
    {
        let mut text = ArrayVec::new();
        text.try_extend_from_slice(name).unwrap();
        text.try_extend_from_slice(b" \"").unwrap();
        text.try_extend_from_slice(value).unwrap();
        text.try_extend_from_slice(b"\"\n").unwrap();
        RowEnd {
            text,
            name_len: name.len(),
            unescaped: is_unescaped(value),
        }
    }

    /// Replaces the value.
    pub(crate) fn set_value(&mut self, value: &[u8])
        requires { length value.now ≤ VALUE_MAX }
        ensures { self.new ≡ record self.old { value = value.now } }
    {
        let unescaped = is_unescaped(value);
        self.text.truncate(self.name_len + 2);
        self.text.try_extend_from_slice(value).unwrap();
        self.text.try_extend_from_slice(b"\"\n").unwrap();
        self.unescaped = unescaped;
    }

    pub(crate) fn name(&self) -> &[u8]
        ensures { result.now ≡ self.now.name }
    {
        &self.text.as_slice()[..self.name_len]
    }

    pub(crate) fn value(&self) -> &[u8]
        ensures value { result.now ≡ self.now.value }
        ensures fits { length result.now ≤ VALUE_MAX }
    {
        let end = self.text.len() - 2;
        &self.text.as_slice()[self.name_len + 2..end]
    }

    /// Returns the end of the row, unless a byte of the value has to be escaped there.
    pub(crate) fn text(&self) -> Option<&[u8]>
        ensures text { IfSome result (λ text. text.now ≡ row_end self.now.name self.now.value) }
        ensures unescaped { is_some result ≡ is_unescaped self.now.value }
    {
        if self.unescaped {
            Some(self.text.as_slice())
        } else {
            None
        }
    }
}
