//! The command line of upsmon.

use crate::upsmon_fault::UpsmonFault;
use clap::{Arg, ArgAction, ArgMatches, Command, value_parser};
use nut_program::{
    Failure, VERSION, check_option, conf_folder, debug_option, foreground_option, quiet_option,
};
use std::alloc::{Alloc, AllocError, Global};
use std::convert::AsStr;
use std::env::Env;

/// The forms of upsmon's command line. clap's own usage would have all options in one line.
const USAGE: &str =
    "upsmon [--conf <DIR>] [-q]\n       upsmon --check [--conf <DIR>]\n       upsmon --check [--delay <DIR=SECONDS>]... <DIR>...\n       upsmon --fsd [--conf <DIR>]\n       upsmon -K [--conf <DIR>]";

/// What upsmon is to do.
#[derive(Clone, Copy)]
pub enum UpsmonTask {
    /// Say whether POWERDOWNFLAG is set.
    LookForFlag,
    /// Check upsmon.conf.
    Check,
    /// Check the upsmon.conf of each machine of a room.
    CheckRoom,
    /// Force the shutdown of the UPSes of the primary lines.
    Force,
    /// Watch nothing: halt the machine when the process that watches orders it.
    Obey,
    /// Watch, and report no UPSes and servers that come and go if that is to be quiet. The machine is halted by the
    /// process with this number, if one is given.
    Watch { is_quiet: bool, halter: Option<u32> },
}

/// What the words of a command line ask for.
#[derive(Drop)]
pub struct CommandLine<'a> {
    pub task: UpsmonTask,
    /// The folder of upsmon.conf.
    pub folder: String,
    /// The folders of a room's machines.
    pub machines: Vec<&'a str>,
    /// How long answers take on them, as `FOLDER=SECONDS`.
    pub delays: Vec<&'a str>,
}

/// Reads the words of a command line.
///
/// # Errors
///
/// `CommandLine` if clap refuses them, or they ask for the help or the version; `Memory` if memory cannot be allocated.
pub fn read_words<'a, R: Env + Alloc, S: AsStr>(
    rt: &R,
    alloc: Global,
    words: &'a [S],
) -> Result<CommandLine<'a>, Failure<UpsmonFault>> {
    let mut args = Vec::new(alloc);
    add_args(alloc, &mut args)?;
    let matches = Command::new(alloc, "upsmon")
        .version(VERSION)
        .about("A monitor of UPSes that halts its machine when too few of them are left")
        .override_usage(USAGE)
        .args(args)?
        .try_get_matches_from(words)?;
    Ok(CommandLine {
        task: task_of(&matches),
        folder: conf_folder(rt, alloc, &matches)?,
        machines: values_of(alloc, &matches, "machines")?,
        delays: values_of(alloc, &matches, "delay")?,
    })
}

/// Returns the values of an argument.
fn values_of<'a>(
    alloc: Global,
    matches: &ArgMatches<'a>,
    id: &str,
) -> Result<Vec<&'a str>, AllocError> {
    let mut values = Vec::new(alloc);
    if let Some(given) = matches.get_strs(id) {
        values.extend_from_slice(given)?;
    }
    Ok(values)
}

/// Returns what upsmon is to do by a command line that clap has accepted.
fn task_of(matches: &ArgMatches<'_>) -> UpsmonTask {
    if matches.get_flag("killpower") {
        UpsmonTask::LookForFlag
    } else if matches.contains_id("machines") {
        UpsmonTask::CheckRoom
    } else if matches.get_flag("check") {
        UpsmonTask::Check
    } else if matches.get_flag("fsd") {
        UpsmonTask::Force
    } else if matches.get_flag("obey") {
        UpsmonTask::Obey
    } else {
        UpsmonTask::Watch {
            is_quiet: matches.get_flag("quiet"),
            halter: matches.get_one("halter"),
        }
    }
}

/// Adds the arguments, in the order in which the help names them.
fn add_args<'a>(alloc: Global, args: &mut Vec<Arg<'a>>) -> Result<(), AllocError> {
    let conf = Arg::new(alloc, "conf").long("conf").value_name("DIR");
    args.push(conf.help(
        "The directory of upsmon.conf [default: that of NUT_CONFPATH, or /etc/nut]",
    ))?;
    args.push(quiet_option(alloc, "Report no UPSes and servers that come and go"))?;
    args.push(check_option(
        alloc,
        "Report the first fault of upsmon.conf, or how soon this machine shuts down and what would prevent it, and exit",
    ))?;
    args.push(machines(alloc)?)?;
    args.push(delay(alloc)?)?;
    args.push(force(alloc)?)?;
    args.push(kill_power(alloc)?)?;
    args.push(halter(alloc)?)?;
    args.push(obey(alloc)?)?;
    args.push(foreground_option(alloc))?;
    args.push(debug_option(alloc))?;
    Ok(())
}

fn machines<'a>(alloc: Global) -> Result<Arg<'a>, AllocError> {
    Arg::new(alloc, "machines")
        .value_name("DIR")
        .action(ArgAction::Append)
        .num_args(1..)
        .help(
            "With --check: the directories of the upsmon.conf of each machine of a room, to report what the room needs",
        )
        .requires_arg("check")?
        .conflicts_with("conf")
}

fn delay<'a>(alloc: Global) -> Result<Arg<'a>, AllocError> {
    Arg::new(alloc, "delay")
        .long("delay")
        .value_name("DIR=SECONDS")
        .action(ArgAction::Append)
        .help(
            "With --check DIR: how long the server takes at most to answer the machine of DIR [default: 2]",
        )
        .requires_arg("machines")
}

fn force<'a>(alloc: Global) -> Result<Arg<'a>, AllocError> {
    Arg::new(alloc, "fsd")
        .long("fsd")
        .action(ArgAction::SetTrue)
        .help("Force the shutdown of the UPSes of the primary MONITOR lines, and exit")
        .conflicts_with("check")
}

/// An option for packaging/upsmon-apart alone, as the next one is.
fn halter<'a>(alloc: Global) -> Result<Arg<'a>, AllocError> {
    Arg::new(alloc, "halter")
        .long("halter")
        .value_name("PID")
        .value_parser(value_parser!(u32))
        .hide(true)
        .conflicts_with("check")?
        .conflicts_with("fsd")?
        .conflicts_with("killpower")
}

fn obey<'a>(alloc: Global) -> Result<Arg<'a>, AllocError> {
    Arg::new(alloc, "obey")
        .long("obey")
        .action(ArgAction::SetTrue)
        .hide(true)
        .conflicts_with("halter")?
        .conflicts_with("check")?
        .conflicts_with("fsd")?
        .conflicts_with("killpower")
}

fn kill_power<'a>(alloc: Global) -> Result<Arg<'a>, AllocError> {
    Arg::new(alloc, "killpower")
        .short('K')
        .action(ArgAction::SetTrue)
        .help("Exit with status 0 if POWERDOWNFLAG is set, else 1")
        .conflicts_with("quiet")?
        .conflicts_with("check")?
        .conflicts_with("fsd")
}
