//! The query that is outstanding on a link.

ghost use Rattle.std.specs.Prelude.{IfSome};
ghost use Rattle.nut_monitor_sockets.specs.Silence.{IsOwed};

use nut_monitor::{LastQuery, Monitor};

/// Returns the query that is outstanding on the link of a MONITOR line: the last one, unless the last answer is to it.
pub fn outstanding(monitor: &Monitor, i: usize) -> Option<LastQuery>
    ensures { IfSome result (λ query. IsOwed monitor.now.content i query) }
{
    let last = monitor.last_query(i)?;
    let Some(answer) = monitor.last_answer(i) else {
        return Some(last);
    };
    if answer.asked == last {
        None
    } else {
        Some(last)
    }
}
