//! The orders by which the process that watches has another one halt the machine.

use crate::halt::HaltFault;
use crate::process_state::is_stopped;
use nut_halter::Order;
use nut_log::{Level, Lines};
use nut_poll::{ErrorLines, Outlet, OutputLines};
use std::io::Write;
use std::rt::Files;
use std::thread;
use std::time::{Clock, Duration};

/// How often an order to halt is tried that the pipe has no room for.
const TRIES: u32 = 30;

/// The pause between these, in seconds.
const PAUSE: u64 = 1;

/// Gives orders to another process, by a pipe.
#[derive(Drop)]
pub struct OrderSender {
    /// The number of that process.
    halter: u32,
    /// Whether an upsmon.conf is in force. The other process has read the first one by itself.
    is_begun: bool,
    /// Whether a changed upsmon.conf is in force, and that is still to be ordered.
    is_changed: bool,
    /// Whether POWERDOWNFLAG is to be set at the halt.
    is_flagged: bool,
    /// Whether it was reported that the other process doesn't read.
    is_warned: bool,
}

impl OrderSender {
    /// Returns what gives orders to the process with this number.
    pub fn new(halter: u32) -> OrderSender {
        OrderSender {
            halter,
            is_begun: false,
            is_changed: false,
            is_flagged: false,
            is_warned: false,
        }
    }

    /// Gives the orders of a second, unless the other process is stopped by a signal or the pipe is full. That is written to
    /// `err`, once for as long as it lasts. So a process that is stopped for long doesn't fill the pipe.
    pub fn second(&mut self, files: &impl Files, out: &mut OutputLines, err: &mut ErrorLines) {
        if is_stopped(files, self.halter, &mut None) || !self.gives_change(out) {
            self.warn_unheard(err);
            return;
        }
        self.is_warned = false;
        give(Order::Second, out);
    }

    /// Has the next order be preceded by that of a changed upsmon.conf, except for the first one.
    pub fn change(&mut self) {
        self.is_changed = self.is_begun;
        self.is_begun = true;
    }

    /// Has the order to halt ask for POWERDOWNFLAG.
    pub fn set_flag(&mut self) {
        self.is_flagged = true;
    }

    /// Orders to halt, once the pipe has room for that.
    ///
    /// # Errors
    ///
    /// `NotOrdered` if it has none for half a minute.
    pub fn halt(
        &mut self,
        clock: &impl Clock,
        out: &mut OutputLines,
        err: &mut ErrorLines,
    ) -> Result<(), HaltFault> {
        for _ in 0..TRIES {
            if self.gives_change(out) {
                let order = if self.is_flagged {
                    Order::HaltFlagged
                } else {
                    Order::Halt
                };
                give(order, out);
                return Ok(());
            }
            self.warn_unheard(err);
            thread::sleep(clock, Duration::from_secs(PAUSE));
        }
        Err(HaltFault::NotOrdered(self.halter))
    }

    /// Gives the order of a changed upsmon.conf, if that is still to be done. Returns whether the pipe has room for the next
    /// order.
    fn gives_change(&mut self, out: &mut OutputLines) -> bool {
        if self.is_changed && out.takes_line() {
            self.is_changed = false;
            give(Order::Changed, out);
        }
        !self.is_changed && out.takes_line()
    }

    /// Warns once that the other process doesn't read.
    fn warn_unheard(&mut self, err: &mut ErrorLines) {
        if self.is_warned {
            return;
        }
        self.is_warned = true;
        let halter = self.halter;
        let _ = writeln!(
            err.begin(Level::Warning),
            "process {halter}, which is to run SHUTDOWNCMD, is stopped by a signal or doesn't read"
        );
    }
}

/// Writes an order as a line.
fn give(order: Order, out: &mut OutputLines) {
    let _ = out.write_all(order.text());
    let _ = out.write_all(b"\n");
}
