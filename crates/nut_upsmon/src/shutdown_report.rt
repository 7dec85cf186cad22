//! What the operator is told of a shutdown besides its notice.

use nut_conf::{Monitored, Role};
use nut_log::{Level, Lines};
use nut_monitor::{Known, Monitor};
use nut_monitor_spec::Communication;
use nut_poll::{ErrorLines, text_of};
use std::io::Write;

/// Reports what is known of the UPSes that a shutdown may be for, as it begins.
pub fn tell_beginning(monitor: &Monitor, err: &mut ErrorLines) {
    for (i, line) in monitor.config().monitors.lines.iter().enumerate() {
        if let Some(state) = monitor.known(i).and_then(state_of) {
            let name = text_of(&line.written);
            let _ = writeln!(err.begin(Level::Notice), "shutdown: UPS {name} {state}");
        }
    }
}

/// Reports, as the notice of the shutdown is given, how many other clients are still logged in to each UPS of which this
/// machine is the primary, or that FSD wasn't accepted.
pub fn tell_left(monitor: &Monitor, err: &mut ErrorLines) {
    for (i, line) in monitor.config().monitors.lines.iter().enumerate() {
        if line.role == Role::Primary
            && let Some(known) = monitor.known(i)
        {
            tell_left_of(line, known, err);
        }
    }
}

/// Reports how many other clients are still logged in to this UPS, or that FSD wasn't accepted.
fn tell_left_of(line: &Monitored, known: Known, err: &mut ErrorLines) {
    let name = text_of(&line.written);
    let others = known.logins.unwrap_or(0).saturating_sub(1);
    if !known.forced {
        let _ = writeln!(
            err.begin(Level::Warning),
            "shutdown: FSD on UPS {name} was not accepted"
        );
    } else if others > 0 {
        let clients = if others == 1 { "client" } else { "clients" };
        let _ = writeln!(
            err.begin(Level::Warning),
            "shutdown: no longer waiting for {others} {clients} logged in to UPS {name}"
        );
    }
}

/// Returns what is known of a UPS that is on battery or has a forced shutdown.
fn state_of(known: Known) -> Option<&'static str> {
    let flags = known.flags?;
    if flags.forced_shutdown {
        Some("has a forced shutdown")
    } else if !flags.on_battery {
        None
    } else if flags.low_battery {
        Some("is on battery, and its battery is low")
    } else if known.communication == Communication::Good {
        Some("is on battery")
    } else {
        Some("was on battery when its status was last known")
    }
}
