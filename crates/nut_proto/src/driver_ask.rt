//! The requests that the server sends to a driver.
ghost use Rattle.std.specs.Prelude.{◌≡◌, ◌++◌, ◌∷◌, length, OnOk, OnErr};
ghost use Rattle.nut_words.specs.Out.{Fits, Exceeds};
ghost use Rattle.nut_proto.specs.DriverAsks.{ask_line, ask_of, command_of, number_of, number_parts, set_of};
ghost use Rattle.nut_proto.specs.inside.Written.{line_from, written};

use crate::cursor::Cursor;
use crate::keyword::is_named;
use crate::line::Line;
use crate::part::{Part, quoted, text, word};
use crate::word::Word;
use nut_words::{Out, Words};

/// A request of the server to a driver (NUT developer guide, socket protocol). It borrows its words.
#[derive(Drop)]
pub enum DriverAsk<'a> {
    /// Asks the driver to answer `PONG`.
    Ping,
    /// Asks the driver to report all that it knows.
    DumpAll,
    /// Asks the driver to set a variable. If the request has a number, the driver is asked to report the
    /// outcome.
    Set {
        variable: Word<'a>,
        value: Word<'a>,
        number: Option<u32>,
    },
    /// Asks the driver to run a command. If the request has a number, the driver is asked to report the
    /// outcome.
    InstCmd {
        command: Word<'a>,
        parameter: Option<Word<'a>>,
        number: Option<u32>,
    },
}

impl<'a> DriverAsk<'a> {
    /// Reads the words of a line of the server. Returns `None` for any other words than a request to a driver.
    /// Allocates no memory.
    ///
    /// The first word and `TRACKING` are compared without regard to ASCII case. The number of words must match exactly.
    /// A number is one to nine digits, the first not 0.
    #[tactic(auto, unfolding(crate::specs::DriverAsks::ask_of))]
    pub fn read(words: &'a Words<'_>) -> Option<DriverAsk<'a>>
        ensures { result ≡ ask_of words.now }
    {
        let mut rest = Cursor::new(words);
        let word = rest.next()?;
        let name = word.as_bytes();
        if is_named(name, b"PING") {
            return rest.end().and(Some(DriverAsk::Ping));
        }
        if is_named(name, b"DUMPALL") {
            return rest.end().and(Some(DriverAsk::DumpAll));
        }
        if is_named(name, b"SET") {
            return read_set(rest);
        }
        if is_named(name, b"INSTCMD") {
            return read_command(rest);
        }
        None
    }

    /// Appends the line with its line feed.
    ///
    /// # Errors
    ///
    /// If memory cannot be allocated, or if the whole doesn't fit into a buffer of fixed size. `out` is then as it was.
    pub fn put<O: Out>(&self, out: &mut O) -> Result<(), O::Fault>
        ensures ok { OnOk result (O.held out.new ≡ O.held out.old ++ ask_line self.now) }
        ensures err { OnErr result (O.held out.new ≡ O.held out.old) }
        ensures fits { OnOk result (Fits O.most (length (O.held out.old ++ ask_line self.now))) }
        ensures full { OnErr result (Exceeds O.most (length (O.held out.old ++ ask_line self.now))) }
    {
        self.line().put(out)
    }

    #[tactic(auto, unfolding(crate::specs::DriverAsks::ask_line, crate::specs::Lines::line))]
    fn line(&self) -> Line<'a>
        ensures { written result ≡ ask_line self.now }
    {
        match self {
            DriverAsk::Ping => Line::Bare(b"PING"),
            DriverAsk::DumpAll => Line::Bare(b"DUMPALL"),
            DriverAsk::Set {
                variable,
                value,
                number,
            } => valued_line(b"SET", variable, value, *number),
            DriverAsk::InstCmd {
                command,
                parameter: None,
                number,
            } => named_line(b"INSTCMD", command, *number),
            DriverAsk::InstCmd {
                command,
                parameter: Some(parameter),
                number,
            } => valued_line(b"INSTCMD", command, parameter, *number),
        }
    }
}

/// Returns the line of these words and this name, with the number if the request has one.
fn named_line<'a>(words: &'static [u8], name: &Word<'a>, number: Option<u32>) -> Line<'a>
    ensures { written result ≡ line_from words.entry.now (Part.Word name.now ∷ number_parts number) }
{
    match number {
        None => Line::of_name(words, name),
        Some(number) => Line::Three(words, word(name), text(b"TRACKING"), Part::Number(number)),
    }
}

/// Returns the line of these words, this name and this text, with the number if the request has one.
fn valued_line<'a>(
    words: &'static [u8],
    name: &Word<'a>,
    value: &Word<'a>,
    number: Option<u32>,
) -> Line<'a>
    ensures { written result ≡ line_from words.entry.now (Part.Word name.now ∷ Part.Quoted value.now ∷ number_parts number) }
{
    match number {
        None => Line::of_name_and_text(words, name, value),
        Some(number) => Line::Four(
            words,
            word(name),
            quoted(value),
            text(b"TRACKING"),
            Part::Number(number),
        ),
    }
}

/// Reads the words after SET.
fn read_set<'a>(mut rest: Cursor<'a, '_>) -> Option<DriverAsk<'a>>
    ensures { result ≡ set_of rest.entry }
{
    let variable = rest.next()?;
    let value = rest.next()?;
    let number = read_number(rest)?;
    Some(DriverAsk::Set {
        variable,
        value,
        number,
    })
}

/// Reads the words after INSTCMD.
fn read_command<'a>(mut rest: Cursor<'a, '_>) -> Option<DriverAsk<'a>>
    ensures { result ≡ command_of rest.entry }
{
    let command = rest.next()?;
    // a number takes two words
    let has_parameter = matches!(rest.len(), 1 | 3);
    let parameter = if has_parameter { rest.next() } else { None };
    let number = read_number(rest)?;
    Some(DriverAsk::InstCmd {
        command,
        parameter,
        number,
    })
}

/// Reads the number at the end of a request, if words are left there.
fn read_number(mut rest: Cursor<'_, '_>) -> Option<Option<u32>>
    ensures { result ≡ number_of rest.entry }
{
    let Some(word) = rest.next() else {
        return Some(None);
    };
    if !is_named(word.as_bytes(), b"TRACKING") {
        return None;
    }
    let number = rest.tracking_number()?;
    Some(Some(number))
}
