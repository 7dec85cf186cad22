//! The command line of nutsim.

use clap::{Arg, ArgAction, Command};
use nut_program::VERSION;
use std::alloc::{AllocError, Global};

/// Returns the command line `nutsim DIR SCHEDULE MONCONF..`.
pub fn nutsim_command<'a>(alloc: Global) -> Result<Command<'a>, AllocError> {
    let command = Command::new(alloc, "nutsim").version(VERSION).about(
        "Plays a schedule on one server and many monitors, joined in memory",
    );
    let folder = Arg::new(alloc, "folder")
        .value_name("DIR")
        .required(true)
        .help("The directory of ups.conf, upsd.users and upsd.conf");
    let command = command.arg(folder)?;
    let schedule = Arg::new(alloc, "schedule")
        .value_name("SCHEDULE")
        .required(true)
        .help("The file of the steps, one a line");
    let command = command.arg(schedule)?;
    let monitors = Arg::new(alloc, "monitors")
        .value_name("MONCONF")
        .required(true)
        .num_args(1..)
        .action(ArgAction::Append)
        .help("The upsmon.conf of each monitor; the first is monitor 0");
    command.arg(monitors)
}
