//! Words of answers, copied from their lines.
ghost use Rattle.std.specs.Prelude.{◌≡◌, ◌==◌, ◌++◌, ◌∷◌, [], IfOk, OnOk, OnErr, drop, length, slice_index_or};

use nut_proto::Rest;
use std::alloc::{AllocError, Global};
use std::marker::Model;

/// The bytes of a word.
#[derive(Drop)]
pub struct Text {
    bytes: Vec<u8>,
}

impl Model for Text {
    ghost use Rattle.std.specs.Prelude.{List, ℕ};

    ghost Value = { List ℕ };

    ghost view = { λ t. t.bytes.items };
}

impl Text {
    /// Wraps these bytes.
    pub fn of(bytes: Vec<u8>) -> Text
        ensures { result ≡ bytes.items }
    {
        Text { bytes }
    }

    /// Copies these bytes. `AllocError` if memory cannot be allocated.
    pub(crate) fn copy(alloc: Global, bytes: &[u8]) -> Result<Text, AllocError>
        ensures { IfOk result (λ t. t ≡ bytes.now) }
    {
        Ok(Text {
            bytes: Vec::from_slice(alloc, bytes)?,
        })
    }

    /// Returns its bytes.
    pub fn as_bytes(&self) -> &[u8]
        ensures { result.now ≡ self.now }
    {
        self.bytes.as_slice()
    }
}

/// The words of a line behind those of the query.
#[derive(Drop)]
pub struct Fields {
    words: Vec<Text>,
}

impl Model for Fields {
    ghost use Rattle.std.specs.Prelude.{List, ℕ};

    ghost Value = { List (List ℕ) };

    ghost view = { λ f. f.words.items };
}

impl Fields {
    /// Copies the words from the place `start` on. `AllocError` if memory cannot be allocated.
    pub(crate) fn copy(alloc: Global, words: &Rest<'_>, start: usize) -> Result<Fields, AllocError>
        ensures { IfOk result (λ f. f ≡ drop start words.now) }
    {
        let mut copies = Vec::new(alloc);
        for i in start..words.len() {
            copies.push(Text::copy(alloc, words.get(i))?)?;
        }
        Ok(Fields { words: copies })
    }

    /// Returns the words in order.
    pub fn as_slice(&self) -> &[Text]
        ensures { result.now ≡ self.now }
    {
        self.words.as_slice()
    }

    /// Returns the number of words.
    pub fn len(&self) -> usize
        ensures { result ≡ length self.now }
    {
        self.words.len()
    }

    /// Whether there are no words.
    pub fn is_empty(&self) -> bool
        ensures { result ≡ (length self.now == 0) }
    {
        self.len() == 0
    }

    /// Returns the word with this number, counted from 0, or an empty slice if there is none.
    pub fn get(&self, index: usize) -> &[u8]
        ensures { result.now ≡ slice_index_or self.now index [] }
    {
        match self.words.as_slice().get(index) {
            Some(word) => word.as_bytes(),
            None => &[],
        }
    }
}

/// The rows of a list, each without the words of the query.
#[derive(Drop)]
pub struct Rows {
    rows: Vec<Fields>,
}

impl Model for Rows {
    ghost use Rattle.std.specs.Prelude.{List, ℕ};

    ghost Value = { List (List (List ℕ)) };

    ghost view = { λ r. r.rows.items };
}

impl Rows {
    /// Makes an empty list of rows. It allocates nothing.
    pub(crate) fn new(alloc: Global) -> Rows
        ensures { result ≡ [] }
    {
        Rows {
            rows: Vec::new(alloc),
        }
    }

    /// Appends a row.
    pub(crate) fn push(&mut self, row: Fields) -> Result<(), AllocError>
        ensures ok { OnOk result (self.new ≡ self.old ++ row ∷ []) }
        ensures err { OnErr result (self.new ≡ self.old) }
    {
        self.rows.push(row)?;
        Ok(())
    }

    /// Returns the rows in order.
    pub fn as_slice(&self) -> &[Fields]
        ensures { result.now ≡ self.now }
    {
        self.rows.as_slice()
    }

    /// How many rows there are, at most [`ROWS_MAX`](nut_proto::ROWS_MAX).
    pub fn len(&self) -> usize
        ensures { result ≡ length self.now }
    {
        self.rows.len()
    }

    /// Whether there are no rows.
    pub fn is_empty(&self) -> bool
        ensures { result ≡ (length self.now == 0) }
    {
        self.len() == 0
    }
}
