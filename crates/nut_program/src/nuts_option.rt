//! What to do in place of the options of NUT's programs that those of the same names don't have here.

use std::convert::AsStr;

/// An option of a program of NUT.
pub struct NutsOption {
    /// The option as a word of the command line begins with it.
    pub flag: &'static str,
    /// The word with it, or nothing if any word may be.
    pub value: &'static str,
    /// What to do in its place.
    pub way: &'static str,
}

/// Makes rows: a flag, the word with it if not any word may be, and what to do in its place.
#[macro_export]
macro_rules! nuts_options {
    ($($flag:literal $($value:literal)? => $way:literal,)*) => {
        [$($crate::NutsOption { flag: $flag, value: concat!($($value)?), way: $way }),*]
    };
}

impl NutsOption {
    /// Whether this word gives the option, by the word after it, if there is one.
    fn is_given(&self, word: &str, next: Option<&str>) -> bool {
        match word.strip_prefix(self.flag) {
            Some("") => self.value.is_empty() || next == Some(self.value),
            Some(rest) => self.value.is_empty() || rest == self.value,
            None => false,
        }
    }
}

/// Returns what to do in place of the first of these options that the words of a command line have, if they have one.
pub fn way_of<S: AsStr>(options: &[NutsOption], words: &[S]) -> Option<&'static str> {
    for (i, word) in words.iter().enumerate() {
        let next = words.get(i.saturating_add(1)).map(S::as_str);
        for option in options.iter() {
            if option.is_given(word.as_str(), next) {
                return Some(option.way);
            }
        }
    }
    None
}
