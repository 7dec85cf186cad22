//! The words of a line.
ghost use Rattle.std.specs.Prelude.{◌≡◌, ◌<◌, ◌≤◌, [], Err, IsTrue, length, slice_index_or};
ghost use Rattle.std.specs.List.{list_all};
ghost use Rattle.std.specs.Option.{option_map_or};
ghost use Rattle.nut_words.specs.Reader.{has_backslash};
ghost use Rattle.nut_words.specs.Spelling.{is_printing};
ghost use Rattle.nut_conf.specs.Faults.{Gives};
ghost use Rattle.nut_conf.specs.Files.{words_of};
ghost use Rattle.nut_conf.specs.inside.Misreads.{bare};

use crate::fault::{FaultKind, Misread};
use crate::hint::Expected;
use crate::limits::FILE_LINE_MAX;
use nut_words::{WordFault, Words, split};
use std::alloc::Global;

/// The words of a line that has at least one.
#[derive(Drop)]
pub struct Line<'a> {
    pub words: Words<'a>,
    ghost some: { 0 < length words },
    ghost printing: { IsTrue (list_all (list_all is_printing) words) },
}

/// Reads the words of a line of at most [`FILE_LINE_MAX`] bytes.
fn words(alloc: Global, bytes: &[u8]) -> Result<Words<'_>, Misread>
    ensures words { Gives (λ words. words) (bare result) (words_of bytes.now) }
    ensures memory { bare result ≡ Err FaultKind.Memory → (length bytes.now ≤ FILE_LINE_MAX) × IsTrue (has_backslash bytes.now) }
{
    if bytes.len() > FILE_LINE_MAX {
        return Err(Misread::of_line(FaultKind::PastLimit, Expected::ShorterLine));
    }
    match split(alloc, bytes) {
        Ok(words) => Ok(words),
        Err(WordFault::Memory) => Err(Misread::of_line(FaultKind::Memory, Expected::Nothing)),
        Err(fault) => Err(Misread::of_line(FaultKind::Unreadable, Expected::Readable(fault))),
    }
}

impl<'a> Line<'a> {
    /// Reads a line. Returns `None` for a blank line.
    pub fn read(alloc: Global, bytes: &'a [u8]) -> Result<Option<Self>, Misread>
        ensures line { Gives (λ line. option_map_or (λ l. l.words) line []) (bare result) (words_of bytes.now) }
        ensures memory { bare result ≡ Err FaultKind.Memory → (length bytes.now ≤ FILE_LINE_MAX) × IsTrue (has_backslash bytes.now) }
    {
        if bytes.is_empty() {
            return Ok(None);
        }
        let words = words(alloc, bytes)?;
        if words.is_empty() {
            return Ok(None);
        }
        Ok(Some(Line { words }))
    }

    /// Returns the number of words, at least one.
    pub fn len(&self) -> usize
        ensures len { result ≡ length self.now.words }
        ensures some { 0 < result }
    {
        self.words.len()
    }

    /// Returns the word at place `index`, counted from 0.
    pub fn word(&self, index: usize) -> &[u8]
        requires { index < length self.now.words }
        ensures word { result.now ≡ slice_index_or self.now.words index [] }
        ensures printing { IsTrue (list_all is_printing result.now) }
    {
        self.words.get(index)
    }

    /// Returns the first word, which names the directive.
    pub fn directive(&self) -> &[u8]
        ensures { result.now ≡ slice_index_or self.now.words 0 [] }
    {
        self.words.get(0)
    }
}
