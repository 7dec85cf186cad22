//! What holds up a reload.

ghost use Rattle.std.specs.Prelude.{◌≡◌, true, None};
ghost use Rattle.nut_upsmon.specs.Reload.{AreAtRest, IsAtRest, IsReadyAt, MayReload};

use crate::changes::line_of;
use nut_conf::{MonConfig, Monitored};
use nut_monitor::{Known, Monitor, Phase};

/// A UPS that holds up a reload.
#[derive(Clone, Copy)]
pub struct Obstacle<'a> {
    pub line: &'a Monitored,
    pub why: &'static str,
}

/// Whether a monitor of this configuration may replace this one.
pub fn may_reload(monitor: &Monitor, config: &MonConfig) -> bool
    ensures { result ≡ true → MayReload monitor.now config.now }
{
    if monitor.phase() != Phase::Watching {
        return false;
    }
    first_obstacle(monitor, config).is_none()
}

/// Returns the first UPS that holds up a reload to this configuration, of those that it continues watching.
pub fn first_obstacle<'a>(monitor: &'a Monitor, config: &MonConfig) -> Option<Obstacle<'a>>
    ensures { result ≡ None → AreAtRest monitor.now config.now }
{
    let lines = &monitor.config().monitors.lines;
    for (i, line) in lines.iter().enumerate() {
        if let Some(why) = hindrance_at(monitor, i, line, config) {
            return Some(Obstacle { line, why });
        }
    }
    None
}

/// Returns why a line holds up a reload to this configuration, if that continues watching its UPS.
fn hindrance_at(
    monitor: &Monitor,
    i: usize,
    line: &Monitored,
    config: &MonConfig,
) -> Option<&'static str>
    ensures { result ≡ None → IsReadyAt i line.now monitor.now config.now }
{
    let known = monitor.known(i)?;
    let _ = line_of(&config.monitors.lines, line)?;
    unrest(known)
}

/// Returns why what is known of a UPS may not be forgotten, if a shutdown may come of it. If none can, however much time
/// passes, nothing is lost with it.
fn unrest(known: Known) -> Option<&'static str>
    ensures { result ≡ None → IsAtRest known }
{
    let flags = known.flags?;
    if flags.forced_shutdown {
        Some("has a forced shutdown")
    } else if flags.on_battery {
        Some("is on battery")
    } else {
        None
    }
}
