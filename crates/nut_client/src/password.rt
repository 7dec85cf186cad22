//! A password that is read from standard input: `-p -`.
use crate::wanted::Wanted;
use nut_proto::Word;
use std::io;
use std::io::{BufRead, ErrorKind, Input, Read};

/// What stands in the place of a password that is read.
const ASKED: &[u8] = b"-";

/// How many bytes of standard input are read at most. A query has fewer, so a longer password fits into none.
const READ_MAX: u64 = 4096;

/// Returns what is wanted. If it has `-` in the place of a password, the first line of standard input is the password: it
/// is read into `line`.
///
/// # Errors
///
/// `OutOfMemory` if memory cannot be allocated. Any other kind if standard input has no line, an empty one, or one that
/// isn't text; or it can't be read.
pub(crate) fn with_password<'a>(
    wanted: Wanted<'a>,
    input: &impl Input,
    line: &'a mut String,
) -> io::Result<Wanted<'a>> {
    let Wanted::Does(user, password, deed, until) = wanted else {
        return Ok(wanted);
    };
    if password.as_bytes() != ASKED {
        return Ok(Wanted::Does(user, password, deed, until));
    }
    input.reader().take(READ_MAX).read_line(line)?;
    let password = line.as_str().trim_end_matches('\n');
    if password.is_empty() {
        return Err(io::Error::from(ErrorKind::InvalidData));
    }
    Ok(Wanted::Does(user, Word::new(password.as_bytes()), deed, until))
}
