//! POWERDOWNFLAG in an upsmon.conf that has a fault.
//!
//! A halt goes by the file as it was when upsmon read it. Whoever asks at the end of that halt whether the UPS is to cut
//! its power needs the answer even if the file has got a fault since: if the UPS isn't told, and power comes back before
//! its battery is empty, then no machine starts again.

use crate::power_down_flag::PowerDownFlag;
use nut_conf::{FILE_MAX, FaultKind, MonConfig, read_upsmon};
use nut_program::{ConfFile, read_file};
use std::alloc::{AllocError, Global};
use std::io;
use std::path::Path;
use std::rt::Files;

/// A line without which a file that has no MONITOR line has a fault.
const NO_SUPPLIES: &[u8] = b"MINSUPPLIES 0\n";

/// Returns the flag that upsmon.conf in this folder names although the file has a fault: its last line POWERDOWNFLAG
/// counts, of those that have no fault themselves, in a file that is too long of those within the first [`FILE_MAX`]
/// bytes.
///
/// # Errors
///
/// That of the file, which is read once more; `OutOfMemory` if memory cannot be allocated.
pub fn last_flag_in(
    files: &impl Files,
    alloc: Global,
    folder: &str,
) -> io::Result<Option<PowerDownFlag>> {
    let path = Path::new(folder).join(alloc, MonConfig::file_name())?;
    let bytes = read_file(files, alloc, path, FILE_MAX as u64)?;
    for line in bytes.rsplit(|byte| *byte == b'\n') {
        let flag = flag_of_line(alloc, line)?;
        if flag.is_some() {
            return Ok(flag);
        }
    }
    Ok(None)
}

/// Returns the flag that a line names. `None` if it names none, or has a fault.
fn flag_of_line(alloc: Global, line: &[u8]) -> Result<Option<PowerDownFlag>, AllocError> {
    let mut file = Vec::new(alloc);
    file.extend_from_slice(NO_SUPPLIES)?;
    file.extend_from_slice(line)?;
    match read_upsmon(alloc, file.as_slice()) {
        Ok(config) => PowerDownFlag::of(alloc, &config),
        Err(fault) if fault.kind == FaultKind::Memory => Err(AllocError),
        Err(_) => Ok(None),
    }
}
