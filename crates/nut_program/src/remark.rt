//! What there is to say of a faulty line of a configuration file besides its fault. No password is shown.

use crate::conf_file::ConfFile;
use crate::unknown::remark_on_unknown;
use nut_conf::{ConfFault, Expected, Hint};
use nut_words::{WordFault, split};
use std::alloc::Global;
use std::str;

/// Says what is expected at the fault of a file, as in `master: 'primary' or 'secondary' is meant`. `None` if there is
/// nothing more to say than the fault does, or memory cannot be allocated.
pub fn remark_on<C: ConfFile>(alloc: Global, bytes: &[u8], fault: ConfFault) -> Option<String> {
    let hint = fault.hint();
    let before = fault.line.saturating_sub(1) as usize;
    let line = bytes
        .split(|byte| *byte == b'\n')
        .nth(before)
        .unwrap_or(b"");
    match (hint.expected, hint.word) {
        (Expected::Nothing, _) => None,
        (Expected::Readable(WordFault::BadByte), _) => remark_on_byte(alloc, line),
        (Expected::Directive, _) => remark_on_unknown::<C>(alloc, line),
        (_, None) => format!(in alloc; "{hint}").ok(),
        (_, Some(place)) => remark_on_word(alloc, line, place, hint),
    }
}

/// Says what is expected in the place of a word.
fn remark_on_word(alloc: Global, line: &[u8], place: usize, hint: Hint) -> Option<String> {
    let words = split(alloc, line).ok()?;
    let word = words.get(place);
    if is_shown(word, place, &hint) {
        let shown = str::from_utf8(word).ok()?;
        return format!(in alloc; "{shown}: {hint}").ok();
    }
    let name = hint.name();
    format!(in alloc; "{name}: {hint}").ok()
}

/// Whether a word that isn't right is shown. An empty one isn't, nor is a text, of which only the length can be wrong. Of a
/// line MONITOR only the target is, and a role of NUT's that is older than those of today; any other word may be the
/// password, in a wrong place.
fn is_shown(word: &[u8], place: usize, hint: &Hint) -> bool {
    if word.is_empty() || matches!(hint.expected, Expected::Text(..)) {
        return false;
    }
    !hint.form.starts_with("MONITOR ")
        || place <= 1
        || word == b"master".as_slice()
        || word == b"slave".as_slice()
}

/// Says which byte of a line may not stand in its place. In a line that may hold a password it isn't shown.
fn remark_on_byte(alloc: Global, line: &[u8]) -> Option<String> {
    // counted from 1: the end of the shortest beginning of the line that has this fault
    let column = (1..=line.len()).find(|end| {
        matches!(split(alloc, &line[..*end]), Err(WordFault::BadByte))
    })?;
    let byte = *line.get(column.checked_sub(1)?)?;
    let advice = if line.starts_with(b"#") {
        "; mulgefa-check -i mends comments"
    } else {
        ""
    };
    let remark = if may_hold_password(line) {
        format!(in alloc; "column {column}: only printing ASCII is taken{advice}")
    } else {
        format!(in alloc;
            "byte {byte:#04x} at column {column}: only printing ASCII is taken{advice}"
        )
    };
    remark.ok()
}

/// Whether a line, or what it has commented out, begins like one with a password.
fn may_hold_password(line: &[u8]) -> bool {
    let Some(begin) = line.iter().position(|byte| byte.is_ascii_alphabetic()) else {
        return false;
    };
    let line = &line[begin..];
    begins_with(line, b"password") || begins_with(line, b"monitor")
}

/// Whether a line begins with this word, in small or in capital letters.
fn begins_with(line: &[u8], word: &[u8]) -> bool {
    match line.get(..word.len()) {
        Some(begin) => begin.eq_ignore_ascii_case(word),
        None => false,
    }
}
