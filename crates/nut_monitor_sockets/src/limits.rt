//! How long a monitor waits for a server.

ghost use Rattle.std.specs.Prelude.{◌≤◌};

use nut_monitor::Monitor;

/// How many seconds a server may take for an answer whatever is known of the UPSes: while one is on battery, a monitor gives
/// up a server that takes longer. So no law about answers within a delay says anything of a monitor once its delay is above
/// this.
pub const ANSWER_ON_BATTERY: u8 = 5;

/// What follows if a server takes longer than [`ANSWER_ON_BATTERY`], as an operator is told.
pub const LATE_ANSWERS: &str =
    "on battery upsmon gives up such a server, and may shut down this machine after DEADTIME";

/// The limits on a server. They are shorter if a UPS is on battery, because a battery doesn't wait.
#[derive(Clone, Copy)]
pub struct Limits {
    /// How many seconds a query may be outstanding.
    pub answer: u8,
    /// The most seconds between two calls of a server whose links end before it serves.
    pub pause: u8,
}

/// The limits if no UPS is on battery.
pub const CALM: Limits = Limits {
    answer: 10,
    pause: 16,
};

/// The limits if a UPS is on battery.
pub const ON_BATTERY: Limits = Limits {
    answer: ANSWER_ON_BATTERY,
    pause: 5,
};

impl Limits {
    /// Returns the limits for what the monitor knows.
    pub fn of(monitor: &Monitor) -> Limits
        ensures { ANSWER_ON_BATTERY ≤ result.answer }
    {
        if is_on_battery(monitor) {
            ON_BATTERY
        } else {
            CALM
        }
    }
}

/// Whether a UPS is on battery, by its last known status.
fn is_on_battery(monitor: &Monitor) -> bool {
    for i in 0..monitor.lines() {
        let flags = match monitor.known(i) {
            Some(known) => known.flags,
            None => None,
        };
        if flags.is_some_and(|flags| flags.on_battery) {
            return true;
        }
    }
    false
}
