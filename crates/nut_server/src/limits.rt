//! How long texts are that are made for one answer.

use nut_words::{NAME_MAX, UPS_NAME_MAX, VALUE_MAX};

/// The greatest length in bytes of a value that is shown with `FSD ` in front.
pub const FORCED_VALUE_MAX: usize = VALUE_MAX + 4;
/// The greatest length of the beginning that the rows of a list of variables share, if it is kept. It is the list's word
/// and the name of a UPS with a blank behind each.
pub const FRONT_MAX: usize = UPS_NAME_MAX + 8;
/// The greatest length in bytes of an answer of one line, with its line feed. It has VAR, a UPS and a variable with a blank
/// behind each, and in quotes a value, of which each byte may have a backslash.
pub const ANSWER_LINE_MAX: usize = UPS_NAME_MAX + NAME_MAX + 2 * VALUE_MAX + 9;
