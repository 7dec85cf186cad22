//! How soon this machine stops.

ghost use Rattle.std.specs.Prelude.{◌≡◌, ◌<◌, ◌^◌};
ghost use Rattle.std.specs.List.{list_any};
ghost use Rattle.nut_monitor_spec.specs.Configuration.{configuration_of, line_of};
ghost use Rattle.nut_in_time.specs.InTime.{seen_by, to_halted};
ghost use Rattle.nut_upsmon.specs.Stopping.{StopsWithin, begins_within, bound, is_led, prompt, stops_within as seconds_of};

use nut_conf::{MonConfig, Monitored, Role};
use nut_in_time::machines_stop_as_told;
use nut_log::{Level, Lines};
use nut_monitor::has_primary;
use nut_monitor_sockets::ANSWER_ON_BATTERY;
use std::{fmt, io};

/// The longest time for an answer, in seconds, that the bound and warnings assume.
pub const DELAY: u32 = 2;

/// What an operator is told about how soon this machine stops.
#[derive(Clone, Copy)]
pub enum Stopping {
    /// At most this many seconds after so many of its UPSes show OB and LB that the others supply too little, if each
    /// answer comes within `delay` seconds.
    Within { seconds: u64, delay: u32 },
    /// It needs none of its UPSes.
    Never,
}

impl fmt::Display for Stopping {
    fn fmt<W: fmt::Write>(&self, f: &mut fmt::Formatter<W>) -> fmt::Result {
        match self {
            Stopping::Within { seconds, delay } => write!(
                f,
                "shuts down within {seconds} s of OB LB if answers take at most {delay} s"
            ),
            Stopping::Never => write!(f, "never shuts down: MINSUPPLIES is 0"),
        }
    }
}

impl Stopping {
    /// Returns how soon the machine of this configuration stops, if each answer comes within [`DELAY`] seconds.
    pub fn of(config: &MonConfig) -> Stopping {
        Stopping::within(config, seconds_within(config, DELAY), DELAY)
    }

    /// Returns how soon the machine of this configuration stops, if each answer comes within `delay` seconds: `None` if
    /// upsmon doesn't wait so long.
    pub fn with_delay(config: &MonConfig, delay: u32) -> Option<Stopping> {
        let seconds = stops_within(config, delay)?;
        Some(Stopping::within(config, seconds, delay))
    }

    fn within(config: &MonConfig, seconds: u64, delay: u32) -> Stopping {
        if config.min_supplies.value == 0 {
            Stopping::Never
        } else {
            Stopping::Within { seconds, delay }
        }
    }

    /// Writes it as a line about this machine.
    ///
    /// # Errors
    ///
    /// That of the writer.
    pub fn tell<W: Lines>(self, out: &mut W) -> io::Result<()> {
        writeln!(out.begin(Level::Info), "this machine {self}")
    }
}

/// Returns how many seconds pass at most from the moment at which the server shows OB and LB for so many UPSes that the
/// others supply too little, to the moment at which the machine is halted. It assumes that each answer of a server
/// comes within `delay` seconds, and that upsmon's clock skips none.
///
/// `None` if `delay` is above [`ANSWER_ON_BATTERY`]: then upsmon may give the server up before its answer comes, and no bound
/// is known.
pub fn stops_within(config: &MonConfig, delay: u32) -> Option<u64>
    ensures { result ≡ bound (configuration_of config.now) delay }
{
    if delay > u32::from(ANSWER_ON_BATTERY) {
        return None;
    }
    Some(seconds_within(config, delay))
}

/// States a law and does nothing when called: a machine is halted within the seconds of [`stops_within`]. Suppose each
/// answer comes within that delay, and the clock skips no second. Each status of some UPSes has OB and LB, until the
/// shutdown has begun. These UPSes feed the machine, and it has too little without them. Then it is in Halted once those
/// seconds have passed since the first such status could be asked for.
pub fn machines_stop_within()
    ensures { StopsWithin }
{
    machines_stop_as_told();
}

/// Returns the seconds of [`stops_within`] for a delay that upsmon waits for.
fn seconds_within(config: &MonConfig, delay: u32) -> u64
    ensures { result ≡ seconds_of (configuration_of config.now) (prompt delay) }
{
    begins_within(config, delay) + halts_within(config)
}

/// Returns the most seconds from the moment at which the server shows OB and LB to the beginning of the shutdown.
fn begins_within(config: &MonConfig, delay: u32) -> u64
    ensures seconds { result ≡ begins_within (configuration_of config.now) (prompt delay) }
    ensures fits { result < 2 ^ 34 }
{
    let seen = seen_within(config, delay);
    if is_led(config) {
        seen + u64::from(config.host_sync.value) + 1
    } else {
        seen
    }
}

/// Returns the most seconds from the moment at which the server shows OB and LB to the moment at which upsmon knows it.
pub fn seen_within(config: &MonConfig, delay: u32) -> u64
    ensures seconds { result ≡ seen_by (configuration_of config.now) (prompt delay) 0 }
    ensures fits { result < 2 ^ 33 }
{
    u64::from(config.poll_freq.value.max(delay)) + u64::from(delay)
}

/// Returns how many seconds pass at most from the beginning of the shutdown to the halt, however long an answer takes.
pub fn halts_within(config: &MonConfig) -> u64
    ensures seconds { result ≡ to_halted (configuration_of config.now) (prompt 0) }
    ensures fits { result < 2 ^ 34 }
{
    let final_delay = u64::from(config.final_delay.value);
    if has_primary(config) {
        u64::from(config.host_sync.value) + 1 + final_delay
    } else {
        final_delay
    }
}

/// Whether some line feeds this machine and has another machine as its primary.
fn is_led(config: &MonConfig) -> bool
    ensures { result ≡ list_any is_led (configuration_of config.now).lines }
{
    any_led(config.monitors.lines.as_slice())
}

fn any_led(lines: &[Monitored]) -> bool
    ensures { result ≡ list_any (λ m. is_led (line_of m)) lines.now }
{
    lines.iter().any(is_led_line)
}

fn is_led_line(line: &Monitored) -> bool
    ensures { result ≡ is_led (line_of line.now) }
{
    match line.role {
        Role::Primary => false,
        Role::Secondary => line.power.value > 0,
    }
}
