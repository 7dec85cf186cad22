//! What is reported when a watch begins.

use crate::stopping::Stopping;
use nut_conf::{MonConfig, Role};
use nut_log::{Level, Lines};
use nut_poll::{ErrorLines, text_of};
use std::io::Write;

/// Reports which UPSes are watched, and how soon this machine stops, unless that is to be quiet.
pub fn tell_start(config: &MonConfig, is_quiet: bool, err: &mut ErrorLines) {
    if is_quiet {
        return;
    }
    for monitored in &config.monitors.lines {
        let role = match monitored.role {
            Role::Primary => "primary",
            Role::Secondary => "secondary",
        };
        let _ = writeln!(
            err.begin(Level::Info),
            "UPS {}: watched as {role}, power value {}",
            text_of(&monitored.written),
            monitored.power.value
        );
    }
    let _ = Stopping::of(config).tell(err);
}
