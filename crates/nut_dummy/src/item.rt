//! What a line of a script says.
ghost use Rattle.std.specs.Prelude.{◌≡◌, ◌≤◌, ◌==◌, not, nat_lt, if◌then◌else◌, Err, Ok, IsTrue, length};
ghost use Rattle.nut_state.specs.Text.{is_name};
ghost use Rattle.nut_dummy.specs.Item as said;
ghost use Rattle.std.specs.List.{list_all, position};
ghost use Rattle.nut_words.specs.Spelling.{is_comment, is_printing};
ghost use Rattle.nut_words.specs.Reader.{has_backslash, spelled};
ghost use Rattle.nut_dummy.specs.Item.{is_skipped, timer, timed, setting, item};
ghost use Rattle.nut_dummy.specs.Memory.{IsEscaped};
ghost use Rattle.nut_dummy.specs.inside.Read.{item_of};
ghost use Rattle.nut_dummy.specs.Script.{Gives};

use crate::fault::ScriptFaultKind;
use crate::limits::{SCRIPT_LINE_MAX, TIMER_MAX};
use crate::text::{Name, Text};
use crate::trim::{skip_blanks, trim};
use nut_words::{
    NAME_MAX, VALUE_MAX, WordFault, Words, are_name_bytes, are_printing, natural, split,
};
use std::alloc::Global;

/// How a script is played (NUT manual page dummy-ups(8)).
#[derive(Clone, Copy, PartialEq, Eq)]
pub enum ScriptKind {
    /// `.dev`: once, at the start. It has no timers.
    Dev,
    /// `.seq`: round after round. It has at least one timer.
    Seq,
}

/// What a line says.
#[derive(Drop)]
pub enum Item {
    /// A wait, in seconds: 1 to 86,400.
    Timer(u32),
    /// A value for a variable.
    Setting(Name, Text),
}

fn is_line_byte(byte: u8) -> bool
    ensures { result ≡ is_comment byte }
{
    matches!(byte, b' '..=b'~' | b'\t' | b'\r')
}

fn has_line_bytes(line: &[u8]) -> bool
    ensures { result ≡ list_all is_comment line.now }
{
    line.iter().all(|byte| is_line_byte(*byte))
}

/// Whether a line is to be skipped: it is blank, or its first byte after blanks is `#`.
pub fn is_skipped(line: &[u8]) -> bool
    ensures { result ≡ is_skipped line.now }
{
    match skip_blanks(line).first() {
        Some(first) => *first == b'#',
        None => true,
    }
}

/// Returns the place of the first colon.
fn colon(line: &[u8]) -> Option<usize>
    ensures { result ≡ position (λ c. c == 58) line.now }
{
    line.iter().position(|byte| *byte == b':')
}

/// Reads a line without a colon, which has to be a timer.
fn read_timer(alloc: Global, kind: ScriptKind, line: &[u8]) -> Result<Item, ScriptFaultKind>
    ensures item { Gives item_of result (timed kind (spelled line.now)) }
    ensures memory { result ≡ Err ScriptFaultKind.Memory → IsTrue (has_backslash line.now) }
{
    match split(alloc, line) {
        Ok(words) => timer_of(kind, &words),
        Err(WordFault::Memory) => Err(ScriptFaultKind::Memory),
        Err(_) => Err(ScriptFaultKind::BadLine),
    }
}

/// Returns the timer that the words of a line spell.
fn timer_of(kind: ScriptKind, words: &Words<'_>) -> Result<Item, ScriptFaultKind>
    ensures item { Gives item_of result (timed kind (Ok words.now)) }
    ensures memory { result ≡ Err ScriptFaultKind.Memory → ⊥ }
{
    if words.len() != 2 || words.get(0) != b"TIMER".as_slice() {
        return Err(ScriptFaultKind::BadLine);
    }
    let Some(seconds) = natural(words.get(1)) else {
        return Err(ScriptFaultKind::BadTimer);
    };
    if seconds == 0 || seconds > TIMER_MAX {
        return Err(ScriptFaultKind::BadTimer);
    }
    match kind {
        ScriptKind::Dev => Err(ScriptFaultKind::TimerInDev),
        ScriptKind::Seq => Ok(Item::Timer(seconds)),
    }
}

/// Reads a name and a value, without the blanks around them.
fn read_setting(name: &[u8], value: &[u8]) -> Result<Item, ScriptFaultKind>
    ensures item { Gives item_of result (setting name.now value.now) }
    ensures memory { result ≡ Err ScriptFaultKind.Memory → ⊥ }
{
    if name.is_empty() || !are_name_bytes(name) {
        return Err(ScriptFaultKind::BadName);
    }
    if name.len() > NAME_MAX {
        return Err(ScriptFaultKind::PastLimit);
    }
    if !are_printing(value) {
        return Err(ScriptFaultKind::BadLine);
    }
    if value.len() > VALUE_MAX {
        return Err(ScriptFaultKind::PastLimit);
    }
    Ok(Item::Setting(Name::new(name), Text::new(value)))
}

/// Reads a line that isn't to be skipped.
pub fn read_item(alloc: Global, kind: ScriptKind, line: &[u8]) -> Result<Item, ScriptFaultKind>
    ensures item { Gives item_of result (item kind line.now) }
    ensures memory { result ≡ Err ScriptFaultKind.Memory → IsEscaped line.now }
{
    if line.len() > SCRIPT_LINE_MAX {
        return Err(ScriptFaultKind::PastLimit);
    }
    if !has_line_bytes(line) {
        return Err(ScriptFaultKind::BadLine);
    }
    match colon(line) {
        Some(at) => read_setting(trim(&line[..at]), trim(&line[at + 1..])),
        None => read_timer(alloc, kind, line),
    }
}
