//! The news of steps, as lines.

use nut_monitor::Phase;
use nut_play::{Fleet, Logged, News};
use std::io;
use std::io::Write;

/// Writes the news of the step with this number. Numbers count from 1 in the schedule.
pub fn write_news<O: Write>(
    out: &mut O,
    fleet: &Fleet,
    number: u64,
    logged: &Logged,
) -> io::Result<()> {
    match logged.news {
        News::Skipped => writeln!(out, "{number}: skipped"),
        News::Notice(monitor, notice) => {
            write!(out, "{number}: monitor {monitor} notice ")?;
            out.write_all(notice.kind.word())?;
            // the UPS of a MONITOR line as it is written there, if the notice is about one
            if let Some(line) = notice.line
                && let Some(config) = fleet.config(monitor)
                && let Some(monitored) = config.monitors.lines.get(line)
            {
                out.write_all(b" ")?;
                out.write_all(monitored.written.as_slice())?;
            }
            out.write_all(b"\n")
        }
        News::Phase(monitor, phase) => {
            let phase = match phase {
                Phase::Watching => "Watching",
                Phase::Forcing => "Forcing",
                Phase::Final => "Final",
                Phase::Halted { .. } => "Halted",
            };
            writeln!(out, "{number}: monitor {monitor} phase {phase}")
        }
    }
}
