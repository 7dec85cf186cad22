//! The command line of upsd.

use clap::{Arg, ArgAction, Command};
use nut_program::{VERSION, check_option, debug_option, foreground_option, quiet_option};
use std::alloc::{AllocError, Global};

/// The forms of upsd's command line. clap's own usage would be of the required options alone.
const USAGE: &str =
    "upsd [OPTIONS] --conf <DIR> -s <SOCKDIR>\n       upsd --check [--conf <DIR> [-s <SOCKDIR>]]\n       upsd --stdio [--conf <DIR> | --ups <NAME=DESC>...]";

/// Returns the command line of `upsd --stdio`.
pub fn stdio_command<'a>(alloc: Global) -> Result<Command<'a>, AllocError> {
    let args = with(Ok(Vec::new(alloc)), Ok(stdio(alloc).required(true)));
    let args = with(args, conf(alloc));
    command_with(alloc, with(args, Ok(ups(alloc))))
}

/// Returns the command line of upsd: `upsd --stdio`, `upsd --conf DIR -s SOCKDIR` and `upsd --check`.
pub fn upsd_command<'a>(alloc: Global) -> Result<Command<'a>, AllocError> {
    let args = with(Ok(Vec::new(alloc)), conf(alloc));
    let args = with(args, sockets(alloc));
    let quiet = quiet_option(alloc, "Report no listeners, UPSes, drivers and logins");
    let args = with(args, quiet.conflicts_with("stdio"));
    let help =
        "Report the first fault of the files, and exit; without --conf, of those in NUT_CONFPATH or /etc/nut";
    let args = with(args, check_option(alloc, help).conflicts_with("stdio"));
    let args = with(args, Ok(stdio(alloc)));
    let args = with(args, ups_of_stdio(alloc));
    let args = with(args, Ok(foreground_option(alloc)));
    command_with(alloc, with(args, Ok(debug_option(alloc))))
}

/// Appends an item. If memory was refused to it or to an earlier one, hands that error on, so that the caller has one
/// early return and not six.
fn with<T: Drop>(
    items: Result<Vec<T>, AllocError>,
    item: Result<T, AllocError>,
) -> Result<Vec<T>, AllocError> {
    let mut items = items?;
    items.push(item?)?;
    Ok(items)
}

/// Returns a command line with these arguments.
fn command_with<'a>(
    alloc: Global,
    args: Result<Vec<Arg<'a>>, AllocError>,
) -> Result<Command<'a>, AllocError> {
    let args = args?;
    Command::new(alloc, "upsd")
        .version(VERSION)
        .about("A server of the UPS Management Protocol (RFC 9271)")
        .override_usage(USAGE)
        .args(args)
}

fn stdio<'a>(alloc: Global) -> Arg<'a> {
    Arg::new(alloc, "stdio")
        .long("stdio")
        .action(ArgAction::SetTrue)
        .help("Serve one client over standard input and output, without drivers")
}

fn conf<'a>(alloc: Global) -> Result<Arg<'a>, AllocError> {
    Arg::new(alloc, "conf")
        .long("conf")
        .value_name("DIR")
        .help("The directory of ups.conf, upsd.users, upsd.conf and cmdvartab")
        .conflicts_with("ups")
}

fn ups<'a>(alloc: Global) -> Arg<'a> {
    Arg::new(alloc, "ups")
        .long("ups")
        .value_name("NAME=DESC")
        .action(ArgAction::Append)
        .help("A UPS and its description, parted at the first '='; may be given up to 32 times")
}

fn ups_of_stdio<'a>(alloc: Global) -> Result<Arg<'a>, AllocError> {
    ups(alloc).requires_arg("stdio")?.conflicts_with("sockets")
}

fn sockets<'a>(alloc: Global) -> Result<Arg<'a>, AllocError> {
    Arg::new(alloc, "sockets")
        .short('s')
        .value_name("SOCKDIR")
        .help("The directory of the drivers' sockets, DRIVER-NAME for each UPS")
        .required_unless_present("stdio")?
        .required_unless_present("check")?
        .conflicts_with("stdio")?
        .requires_arg("conf")
}
