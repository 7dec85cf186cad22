//! What a driver says that can't be read.

use arrayvec::ArrayVec;
use nut_words::{Line, NAME_MAX, WordFault, cut, is_name, split};
use std::alloc::Global;

/// How many variables with unreadable lines of a driver are distinguished.
pub const UNREAD_MAX: usize = 8;

/// The word before the name of a variable and its value.
const SET_INFO: &[u8] = b"SETINFO ";

/// A name of a variable, or nothing in place of a name that can't be seen.
type Name = ArrayVec<u8, NAME_MAX>;

/// Which variables a driver's unreadable lines were about, each once, in the order in which they came. A line in which no
/// name is seen counts as one about a variable with an empty name.
#[derive(Drop)]
pub struct Unread {
    names: ArrayVec<Name, UNREAD_MAX>,
    has_more: bool,
}

impl Unread {
    /// Returns the state before any line.
    pub fn none() -> Unread {
        Unread {
            names: ArrayVec::new(),
            has_more: false,
        }
    }

    /// Returns how many variables are distinguished, at most [`UNREAD_MAX`].
    pub fn len(&self) -> usize {
        self.names.len()
    }

    /// Returns the name of the variable at this place, from 0 on. It is empty for an unseen name or a place past the last.
    pub fn name(&self, place: usize) -> &[u8] {
        match self.names.get(place) {
            Some(name) => name.as_slice(),
            None => &[],
        }
    }

    /// Whether there were lines about more variables.
    pub fn has_more(&self) -> bool {
        self.has_more
    }

    /// Notes a line that was ignored, if it can't be read or sets a variable.
    pub fn note(&mut self, alloc: Global, line: Line<'_>) {
        match line {
            Line::Text(text) => {
                // a line for whose words memory is lacking may have some
                if text.starts_with(SET_INFO)
                    || !matches!(split(alloc, text), Ok(_) | Err(WordFault::Memory))
                {
                    self.add(name_in(text));
                }
            }
            Line::TooLong => self.add(&[]),
        }
    }

    /// Adds a name, unless it is there already.
    fn add(&mut self, name: &[u8]) {
        if self.names.iter().any(|known| known.as_slice() == name) {
            return;
        }
        let mut copy = Name::new();
        let _ = copy.try_extend_from_slice(name);
        if self.names.try_push(copy).is_err() {
            self.has_more = true;
        }
    }
}

/// Returns what stands between the first two blanks of a line, if that is a name; or else nothing.
fn name_in(text: &[u8]) -> &[u8] {
    let (_, rest) = cut(b' ', text);
    let (second, _) = cut(b' ', rest.unwrap_or(&[]));
    if is_name(second, NAME_MAX) {
        second
    } else {
        &[]
    }
}
