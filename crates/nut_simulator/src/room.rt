//! The configuration files of a room.

use crate::fault::NutsimFault;
use nut_conf::MonConfig;
use nut_program::{ConfFiles, Failure, FileFault, paired, read_conf, read_conf_at};
use nut_server::Config;
use std::alloc::{AllocError, Global};

/// Reads ups.conf, upsd.users and upsd.conf in a directory.
pub fn read_config(
    files: &mut impl ConfFiles,
    alloc: Global,
    folder: &str,
) -> Result<Config, FileFault<'static>> {
    let ups = read_conf(files, alloc, folder)?;
    let (users, ups) = paired(read_conf(files, alloc, folder), ups)?;
    let (upsd, (users, ups)) = paired(read_conf(files, alloc, folder), (users, ups))?;
    Ok(Config::new(ups, users, upsd))
}

/// Reads the upsmon.conf of each monitor, in order, whatever the file is called.
pub fn read_monitors<'a>(
    files: &mut impl ConfFiles,
    alloc: Global,
    paths: &[&'a str],
) -> Result<Vec<MonConfig>, Failure<NutsimFault<'a>>> {
    let mut monitors = Vec::new(alloc);
    for path in paths {
        // a fault names the file without its directory
        let name = match path.rsplit_once('/') {
            Some((_, name)) => name,
            None => *path,
        };
        let monitor = read_conf_at(files, alloc, path, name)?;
        add(&mut monitors, monitor)?;
    }
    Ok(monitors)
}

/// Adds what an upsmon.conf sets. It is apart from the loop, to keep the proof of that short.
fn add(monitors: &mut Vec<MonConfig>, monitor: MonConfig) -> Result<(), AllocError> {
    monitors.push(monitor)?;
    Ok(())
}
