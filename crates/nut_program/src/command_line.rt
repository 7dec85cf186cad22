//! The options of both upsd and upsmon, and where to read about those of NUT that no program has.

use clap::{Arg, ArgAction};
use std::alloc::Global;

/// Where to read about an option of NUT that a program doesn't have: below clap's text, after the program's name.
pub const UNKNOWN_OPTION: &str = "for NUT options that are not supported, see from-nut(7)";

/// Returns the option `--check`, with this text in the help.
pub fn check_option<'a>(alloc: Global, help: &'static str) -> Arg<'a> {
    Arg::new(alloc, "check")
        .long("check")
        .action(ArgAction::SetTrue)
        .help(help)
}

/// Returns the option `-F` of NUT's daemons: what it asks for is done anyway.
pub fn foreground_option<'a>(alloc: Global) -> Arg<'a> {
    Arg::new(alloc, "foreground")
        .short('F')
        .action(ArgAction::SetTrue)
        .help("Stay in the foreground, as it always does")
}

/// Returns the option `-D` of NUT's daemons, which may be given several times. It keeps them in the foreground, too, and
/// nothing else follows from it here.
pub fn debug_option<'a>(alloc: Global) -> Arg<'a> {
    Arg::new(alloc, "debug")
        .short('D')
        .action(ArgAction::Count)
        .help("Stay in the foreground, as it always does; no other effect")
}

/// Returns the option `-q`, with this text in the help.
pub fn quiet_option<'a>(alloc: Global, help: &'static str) -> Arg<'a> {
    Arg::new(alloc, "quiet")
        .short('q')
        .action(ArgAction::SetTrue)
        .help(help)
}
