//! The flags that the words of a status set.
ghost use Rattle.std.specs.Prelude.{◌≡◌, ◌||◌, []};
ghost use Rattle.std.specs.Str.{bytes_eq};
ghost use Rattle.nut_monitor_spec.specs.Query.{flags_of, parted};
ghost use Rattle.nut_monitor.specs.inside.Sound.{with_word};

use nut_monitor_spec::StatusFlags;
use nut_words::cut;

/// Returns no flags.
pub fn no_flags() -> StatusFlags
    ensures { result ≡ flags_of [] }
{
    StatusFlags {
        on_line: false,
        on_battery: false,
        low_battery: false,
        forced_shutdown: false,
        replace_battery: false,
        calibrating: false,
    }
}

/// Whether a flag is set after a further word: it was, or the word is its name.
fn is_set(flag: bool, name: &[u8], word: &[u8]) -> bool
    ensures { result ≡ (flag || bytes_eq name.now word.now) }
{
    flag || name == word
}

/// Returns the flags with the one that a further word sets, if it sets one.
fn add(flags: StatusFlags, word: &[u8]) -> StatusFlags
    ensures { result ≡ with_word word.now flags }
{
    StatusFlags {
        on_line: is_set(flags.on_line, b"OL", word),
        on_battery: is_set(flags.on_battery, b"OB", word),
        low_battery: is_set(flags.low_battery, b"LB", word),
        forced_shutdown: is_set(flags.forced_shutdown, b"FSD", word),
        replace_battery: is_set(flags.replace_battery, b"RB", word),
        calibrating: is_set(flags.calibrating, b"CAL", word),
    }
}

/// Reads the value of `ups.status` (RFC 9271, section 5.1): words separated by blanks.
pub fn read_flags(value: &[u8]) -> StatusFlags
    ensures { result ≡ flags_of (parted value.now) }
{
    let mut flags = no_flags();
    let mut rest = Some(value);
    while let Some(text) = rest {
        let (word, behind) = cut(b' ', text);
        rest = behind;
        flags = add(flags, word);
    }
    flags
}
