//! Whether a process has ended or is stopped, as the system tells.

use arrayvec::ArrayString;
use std::fmt::Write;
use std::fs::File;
use std::io::{Read, Seek};
use std::process::{Child, OpenProcess};
use std::rt::Files;

/// The most bytes of the path of a process's file: `/proc/`, ten digits and `/stat`.
const PATH_MAX: usize = 32;

/// The most digits of a process's number.
const DIGITS: usize = 10;

/// How many bytes of that file are read: its number, its name of at most 16 bytes in parentheses, and its state.
const READ_MAX: usize = 64;

/// Whether a process hasn't ended.
pub fn is_running<P: OpenProcess>(child: &mut Child<P>) -> bool {
    matches!(child.try_wait(), Ok(None))
}

/// Returns the number of a process as text.
pub fn process_number(process: u32) -> ArrayString<DIGITS> {
    let mut number = ArrayString::new();
    let _ = write!(&mut number, "{process}");
    number
}

/// Whether a signal, for example SIGSTOP, has stopped the process with this number. If the system doesn't tell, for example
/// since /proc isn't mounted or the process is gone, the answer is no. Nothing is allocated.
///
/// `state` is the file in which the system tells that. It is opened if it isn't open. One that is open never tells of another
/// process that has got the number since.
pub fn is_stopped<R: Files>(files: &R, process: u32, state: &mut Option<R::File>) -> bool {
    if state.is_none() {
        let mut path: ArrayString<PATH_MAX> = ArrayString::new();
        let _ = write!(&mut path, "/proc/{process}/stat");
        *state = File::open(files, path.as_str()).ok();
    }
    let Some(file) = state else {
        return false;
    };
    let mut bytes = [0; READ_MAX];
    if file.rewind().is_err() {
        return false;
    }
    let Ok(length) = file.read(&mut bytes) else {
        return false;
    };
    let told = bytes.get(..length).unwrap_or(&[]);
    // The state is the letter behind the name, which is in parentheses and may hold any (proc(5)).
    let Some(end) = told.iter().rposition(|byte| *byte == b')') else {
        return false;
    };
    matches!(told.get(end..), Some([b')', b' ', b'T', ..]))
}
