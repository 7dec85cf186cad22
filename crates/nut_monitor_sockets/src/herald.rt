//! Where a monitor's notices go.

ghost use Rattle.std.specs.Prelude.{◌≡◌, true, List, [], ◌∷◌, ◌++◌};
ghost use Rattle.nut_conf.specs.declared.upsmon.MonConfig.{MonConfig};
ghost use Rattle.nut_monitor.specs.Monitors.{MonitorValue};
ghost use Rattle.nut_monitor_spec.specs.declared.Notice.{Notice};

use nut_monitor::{Monitor, Notice};

/// A receiver of a monitor's notices.
pub trait Herald: Drop {
    /// Calls that are shown monitors of this configuration may lead from the first state to the second, and these notices, the
    /// oldest first, are those that it receives by them.
    ghost told: { MonConfig → Self → Self → List Notice → Type 0 };

    /// It wants the watch of this monitor to end.
    ghost wants_end: { Self → MonitorValue → Type 0 };

    /// Receives a notice of this monitor.
    fn announce(&mut self, monitor: &Monitor, notice: Notice)
        ensures { told monitor.now.config self.old self.new (notice ∷ []) };

    /// Counts a second that has passed, or several that were missed and that the monitor gets at once. What
    /// was started for a notice may have ended. Returns whether the watch is to end: then this monitor is told nothing
    /// more.
    fn second(&mut self, monitor: &Monitor) -> bool
        ensures told { told monitor.now.config self.old self.new [] }
        ensures end { result ≡ true → wants_end self.new monitor.now };

    /// Without a call none is received.
    ghost told_self: { (config : MonConfig) (h : Self) → told config h h [] };

    /// What is received by calls after calls.
    ghost told_on: { (config : MonConfig) (a b c : Self) (xs ys : List Notice) → told config a b xs → told config b c ys
        → told config a c (xs ++ ys) };
}
