//! Where in a line a fault lies, and what is expected there: for people to read. No clause speaks of it.

use crate::limits::{FILE_LINE_MAX, FILE_MAX};
use crate::notice::NOTICES;
use nut_words::WordFault;
use std::{fmt, str};

/// What is expected in the place of a fault.
#[derive(Clone, Copy, Debug, PartialEq, Eq)]
pub enum Expected {
    /// Nothing that the fault doesn't say.
    Nothing,
    /// A file of at most [`FILE_MAX`] bytes.
    ShorterFile,
    /// MONITOR lines with more power, or a smaller MINSUPPLIES.
    MorePower,
    /// A line of at most [`FILE_LINE_MAX`] bytes.
    ShorterLine,
    /// A line that can be read as words: this one can't, for this reason.
    Readable(WordFault),
    /// A directive of the file: no line may begin with this word, not even in a section.
    Directive,
    /// A section line before this one.
    Section,
    /// As many values as the directive's form has, and a `=` if it has one.
    Form,
    /// Another word: a line before has this one.
    Another,
    /// At most so many lines of the directive, or sections.
    Fewer(usize),
    /// A UPS at the host of its server.
    Target,
    /// The name or the address of a host.
    Address,
    /// A name of at most so many bytes.
    Name(usize),
    /// A number, the least and the greatest.
    Number(u32, u32),
    /// A text, with the least and the greatest of its length in bytes.
    Text(usize, usize),
    /// What two words are called together, and these.
    Either(&'static str, &'static str, &'static str),
    /// A type of notice.
    Notice,
    /// What becomes of a notice.
    Flags,
}

/// A type of values, by what is expected in the place of a word that is none.
pub trait Expects: Sized {
    const EXPECTED: Expected;
}

/// Where in a line a fault lies, and what is expected there. It is displayed as that, as in `a number from 1 to 9 is
/// meant`.
#[derive(Clone, Copy, Debug, PartialEq, Eq)]
pub struct Hint {
    /// The place of the word that is wrong among the words of the line, counted from 0. `None` for the line, or the
    /// file, as a whole.
    pub word: Option<usize>,
    /// What is expected there.
    pub expected: Expected,
    /// What a line of its directive looks like, as in `driver = NAME`. Empty if the line has no directive of the file.
    pub form: &'static str,
}

impl Hint {
    /// Returns the hint of a fault of the line, or the file, as a whole.
    pub(crate) fn of_line(expected: Expected) -> Self {
        Hint {
            word: None,
            expected,
            form: "",
        }
    }

    /// Returns what the form of the directive has in the place of the word, for one that may not be shown. Where there is no
    /// word, that is the directive's.
    pub fn name(&self) -> &'static str {
        if let Expected::Either(name, _, _) = self.expected {
            return name;
        }
        let place = self.word.unwrap_or(0);
        let name = self.form.split(' ').nth(place).unwrap_or("");
        name.trim_matches('"')
    }
}

impl fmt::Display for Hint {
    fn fmt<W: fmt::Write>(&self, f: &mut fmt::Formatter<W>) -> fmt::Result {
        match self.expected {
            Expected::Nothing => Ok(()),
            Expected::ShorterFile => write!(f, "a file has at most {FILE_MAX} bytes"),
            Expected::MorePower => write!(
                f,
                "the power values of the MONITOR lines sum to less than MINSUPPLIES, which is 1 unless it is set"
            ),
            Expected::ShorterLine => write!(f, "a line has at most {FILE_LINE_MAX} bytes"),
            Expected::Readable(fault) => write!(f, "the line can't be read as words: {fault}"),
            Expected::Directive => write!(f, "a directive is meant"),
            Expected::Section => write!(f, "a line [NAME] has to come before it"),
            Expected::Form => write!(f, "{} is meant", self.form),
            Expected::Another => write!(f, "a line before has it"),
            Expected::Fewer(most) if self.form.is_empty() => {
                write!(f, "at most {most} sections are taken")
            }
            Expected::Fewer(most) => write!(f, "at most {most} {} lines are taken", self.name()),
            Expected::Target => write!(
                f,
                "UPS@HOST[:PORT] is meant, HOST a name or an IPv4 address (an IPv6 address needs a name in /etc/hosts)"
            ),
            Expected::Address => write!(
                f,
                "the name or the address of a host is meant, without brackets; a port is a word of its own"
            ),
            Expected::Name(most) => write!(
                f,
                "a name is meant, of 1 to {most} letters, digits, '.', '_' and '-'"
            ),
            Expected::Number(least, most) => {
                write!(f, "a number from {least} to {most} is meant")
            }
            Expected::Text(least, most) => write!(f, "{least} to {most} bytes are meant"),
            Expected::Either(_, one, other) => write!(f, "'{one}' or '{other}' is meant"),
            Expected::Notice => write_types(f),
            Expected::Flags => write!(
                f,
                "SYSLOG, WALL, EXEC and IGNORE are meant, with '+' between them"
            ),
        }
    }
}

/// Writes that a type of notice is meant.
fn write_types<W: fmt::Write>(f: &mut fmt::Formatter<W>) -> fmt::Result {
    for (i, notice) in NOTICES.iter().enumerate() {
        let before = if i == 0 {
            ""
        } else if i < NOTICES.len() - 1 {
            ", "
        } else {
            " or "
        };
        let word = str::from_utf8(notice.word()).map_err(|_| fmt::Error)?;
        write!(f, "{before}'{word}'")?;
    }
    write!(f, " is meant")
}
