//! Whether a shutdown begins and how far it has come, by what is known of all UPSes.
ghost use Rattle.std.specs.Prelude.{◌≡◌, length, nat_lt};
ghost use Rattle.std.specs.List.{list_any};
ghost use Rattle.nut_monitor_spec.specs.Configuration.{configuration_of, has_primary as some_primary, line_of};
ghost use Rattle.nut_monitor_spec.specs.Decision.{is_critical as critical, is_over_by as over_by, phase_at};
ghost use Rattle.nut_monitor_spec.specs.machine.Machine.{all_alone, supply_of};
ghost use Rattle.nut_monitor.specs.inside.Inside.{lets_halt as halts, power_of};

use crate::line::MonitorLine;
use crate::query::is_primary;
use crate::time::{is_past, is_within};
use nut_conf::{MonConfig, Monitored};
use nut_monitor_spec::{Known, Phase};

/// Whether the UPS of a line is critical. False if it had no status yet.
fn is_critical(config: &MonConfig, line: &Monitored, clock: u64, known: Known) -> bool
    ensures { result ≡ critical (configuration_of config.now) (line_of line.now) clock known.calm known.polled known.flags }
{
    let Some(flags) = known.flags else {
        return false;
    };
    let low = flags.on_battery && flags.low_battery && !flags.calibrating;
    let waited = is_primary(line) || is_past(u64::from(config.host_sync.value), clock, known.calm);
    let dead = is_past(u64::from(config.dead_time.value), clock, known.polled);
    flags.forced_shutdown || (low && waited) || (flags.on_battery && dead)
}

/// Returns the power value of a line whose UPS isn't critical, else 0.
fn power(config: &MonConfig, line: &Monitored, clock: u64, known: Known) -> u32
    ensures { result ≡ power_of (configuration_of config.now) clock (line_of line.now) known }
{
    if is_critical(config, line, clock, known) {
        0
    } else {
        line.power.value
    }
}

/// Whether the sum of these power values is less than MINSUPPLIES.
pub fn is_short(config: &MonConfig, clock: u64, watches: &[MonitorLine]) -> bool
    requires { length watches.now ≡ length (configuration_of config.now).lines }
    ensures { result ≡ nat_lt (supply_of (configuration_of config.now) clock (configuration_of config.now).lines watches.now)
        (configuration_of config.now).min_supplies }
{
    let monitors = &config.monitors;
    let lines = monitors.lines.as_slice();
    let mut missing = config.min_supplies.value;
    for i in 0..watches.len() {
        missing = missing.saturating_sub(power(config, &lines[i], clock, watches[i].known()));
    }
    missing > 0
}

/// Whether a line lets this machine halt: it isn't primary, or the last count of logins to its UPS is at most 1. A
/// primary line without a count doesn't.
fn lets_halt(line: &Monitored, known: Known) -> bool
    ensures { result ≡ halts (line_of line.now) known }
{
    let alone = match known.logins {
        Some(logins) => logins <= 1,
        None => false,
    };
    !is_primary(line) || alone
}

/// Whether every line lets this machine halt, as `lets_halt` says.
pub fn is_alone(config: &MonConfig, watches: &[MonitorLine]) -> bool
    requires { length watches.now ≡ length (configuration_of config.now).lines }
    ensures { result ≡ all_alone (configuration_of config.now).lines watches.now }
{
    let monitors = &config.monitors;
    let lines = monitors.lines.as_slice();
    for i in 0..watches.len() {
        if !lets_halt(&lines[i], watches[i].known()) {
            return false;
        }
    }
    true
}

/// Whether Forcing is over: the shutdown has begun, and `alone` holds or more than HOSTSYNC seconds have passed since.
pub fn is_over_by(config: &MonConfig, clock: u64, alone: bool, begun: Option<u64>) -> bool
    ensures { result ≡ over_by (configuration_of config.now) clock alone begun }
{
    match begun {
        Some(begun) => alone || is_past(u64::from(config.host_sync.value), clock, begun),
        None => false,
    }
}

/// Whether one of the lines is primary.
fn any_primary(lines: &[Monitored]) -> bool
    ensures { result ≡ list_any (λ m. (line_of m).primary) lines.now }
{
    lines.iter().any(is_primary)
}

/// Whether this machine is the primary of at least one UPS.
pub fn has_primary(config: &MonConfig) -> bool
    ensures { result ≡ some_primary (configuration_of config.now).lines }
{
    let monitors = &config.monitors;
    any_primary(monitors.lines.as_slice())
}

/// Returns the phase, by the moments at which the shutdown and Final began.
pub fn phase(config: &MonConfig, clock: u64, begun: Option<u64>, ended: Option<u64>) -> Phase
    ensures { result ≡ phase_at (configuration_of config.now) clock begun ended }
{
    let Some(ended) = ended else {
        return if begun.is_some() {
            Phase::Forcing
        } else {
            Phase::Watching
        };
    };
    if is_within(u64::from(config.final_delay.value), clock, ended) {
        return Phase::Final;
    }
    Phase::Halted {
        flag: has_primary(config),
    }
}
