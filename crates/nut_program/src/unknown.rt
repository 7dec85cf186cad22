//! The word of a directive that a configuration file doesn't take, and that NUT may know.

ghost use Rattle.std.specs.Prelude.{◌≡◌, IfSome, Some, string_bytes};
ghost use Rattle.nut_program.specs.Unknown.{first_word};

use crate::conf_file::ConfFile;
use nut_conf::is_directive;
use nut_words::split;
use std::alloc::Global;
use std::str;

/// Words of NUT's upsd.users and upsmon.conf that no line here may begin with.
const NUT_ALONE: [&str; 15] = [
    "allowfrom",
    "ALARMCRITICAL",
    "CERTHOST",
    "CERTIDENT",
    "CERTPATH",
    "CERTVERIFY",
    "DEBUG_MIN",
    "FORCESSL",
    "OBLBDURATION",
    "OFFDURATION",
    "OVERDURATION",
    "POLLFAIL_LOG_THROTTLE_MAX",
    "POLLFREQALERT",
    "RUN_AS_USER",
    "SHUTDOWNEXIT",
];

/// Says that no line of a file may begin with the first word of this one. In a file with passwords the word is named only if NUT
/// has it for a directive: any other can be the password of a line that an editor broke in two. `None` if memory cannot be
/// allocated.
pub fn remark_on_unknown<C: ConfFile>(alloc: Global, line: &[u8]) -> Option<String> {
    if let Some(word) = first_word(alloc, line) {
        if !C::HAS_PASSWORDS || is_of_nut(word.as_bytes()) {
            return format!(in alloc; "{word} isn't taken here: see from-nut(7)").ok();
        }
    }
    let name = C::file_name();
    format!(in alloc; "a directive of {name} is meant").ok()
}

/// Whether NUT has this word for a directive, in small or in capital letters.
fn is_of_nut(word: &[u8]) -> bool {
    let is_alone = NUT_ALONE
        .iter()
        .any(|it| it.as_bytes().eq_ignore_ascii_case(word));
    is_alone || is_directive(word)
}

/// Returns the first word of a line. `None` if there is none, it is empty, or memory cannot be allocated.
fn first_word(alloc: Global, line: &[u8]) -> Option<String>
    ensures { IfSome result (λ word. first_word line.now ≡ Some (string_bytes word)) }
{
    let Ok(words) = split(alloc, line) else {
        return None;
    };
    let Ok(word) = str::from_utf8(words.get(0)) else {
        return None;
    };
    if word.is_empty() {
        return None;
    }
    match String::from_str(alloc, word) {
        Ok(word) => Some(word),
        Err(_) => None,
    }
}
