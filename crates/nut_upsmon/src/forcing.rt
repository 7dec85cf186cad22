//! A shutdown by hand: FSD on the UPSes of this machine's primary lines.

use crate::errand::{Errand, Talk, run_errand};
use crate::upsmon_fault::UpsmonFault;
use nut_conf::{MonConfig, Role};
use nut_log::{Level, Lines};
use nut_monitor::has_primary;
use nut_poll::{ErrorLines, LossyLines, text_of};
use nut_program::{Failure, Streams, hold_closed_streams};
use std::alloc::Global;
use std::io::Write;
use std::net::Net;
use std::process::Processes;
use std::rt::Files;
use std::time::Clock;

/// Sets FSD at the servers of the primary lines of a configuration, at all of them at once, and asks each whether the
/// status of its UPS shows that. Reports of each what became of it: on standard output that it is set, on `told` why it
/// isn't, or why the machines of that UPS don't stop. At the end `told` says what this machine is still fed by, if that is
/// enough for it. Returns whether FSD is set and shown on all. The standard streams that are closed are held meanwhile, so
/// that no socket takes the place of one.
///
/// # Errors
///
/// `NoPrimary` if no line is primary; `Memory` or `Io` if standard output can't be prepared for lines, or there is no
/// memory or descriptor to call the servers with. No server was asked then. `Io` if the wait for the servers or the clock
/// fails.
pub fn force_shutdowns<R>(
    rt: &R,
    alloc: Global,
    config: &MonConfig,
    streams: Streams,
    told: &mut ErrorLines,
) -> Result<bool, Failure<UpsmonFault>>
where
    R: Files + Net + Clock + Processes,
{
    if !has_primary(config) {
        return Err(Failure::Own(UpsmonFault::NoPrimary));
    }
    let _held = hold_closed_streams(rt, alloc)?;
    let lines = config.monitors.lines.as_slice();
    let mut out = LossyLines::new(streams.out);
    let talks = run_errand(Errand::Force, rt, alloc, lines, &mut out, told)?;
    tell_supplies(config, &talks, told);
    let mut each = lines.iter().zip(&talks);
    Ok(each.all(|(line, talk)| talk.is_done || line.role == Role::Secondary))
}

/// Reports which lines still supply this machine, if they supply enough for it.
fn tell_supplies(config: &MonConfig, talks: &[Talk], told: &mut ErrorLines) {
    let lines = config.monitors.lines.as_slice();
    let needed = u64::from(config.min_supplies.value);
    let mut left = 0u64;
    for (line, talk) in lines.iter().zip(talks) {
        if !talk.is_done {
            left = left.saturating_add(u64::from(line.power.value));
        }
    }
    if left < needed {
        return;
    }
    let _ = write!(told.begin(Level::Warning), "this machine keeps running: ");
    if needed == 0 {
        let _ = writeln!(told, "MINSUPPLIES is 0");
        return;
    }
    let mut is_first = true;
    for (line, talk) in lines.iter().zip(talks) {
        let power = line.power.value;
        if !talk.is_done && power > 0 {
            if !is_first {
                let _ = write!(told, ", ");
            }
            is_first = false;
            let _ = write!(told, "{} still supplies {power}", text_of(&line.written));
        }
    }
    let _ = writeln!(told);
}
