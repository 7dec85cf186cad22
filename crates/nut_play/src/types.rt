//! The steps of a schedule, their news, and why they cannot be played.

use nut_monitor::{Notice, Phase};
use thiserror::Error;

/// One step of a schedule. Monitors are counted from 0, UPSes by their places in ups.conf, and the links of a monitor by the
/// places of its MONITOR lines. A step that moves bytes moves as many as are there, but at most its last number and at most
/// [`PIECE_MAX`](nut_words::PIECE_MAX).
#[derive(Drop)]
pub enum Step {
    /// The server's clock shows this many seconds since the start.
    ServerClock(u64),
    /// The clock of a monitor shows this many seconds since the start.
    MonitorClock(usize, u64),
    /// The driver of a UPS connects to the server.
    Up(usize),
    /// The driver of a UPS says a line, which stands here without its line feed and with it has at most
    /// [`PIECE_MAX`](nut_words::PIECE_MAX) bytes.
    Driver(usize, Vec<u8>),
    /// The driver of a UPS disconnects.
    Down(usize),
    /// A monitor makes one of its links.
    Link(usize, usize),
    /// A monitor puts bytes into the pipe of a link to the server. They are lost if the server's end of the link is
    /// cut.
    Out(usize, usize, usize),
    /// Bytes arrive at the server from the pipe to it.
    Reach(usize, usize, usize),
    /// The server puts bytes into the pipe of a link to the monitor. They are lost if the monitor's end of the link is
    /// cut.
    Back(usize, usize, usize),
    /// Bytes arrive at a monitor from the pipe to it.
    Land(usize, usize, usize),
    /// The server's end of a link is cut.
    CutServer(usize, usize),
    /// The monitor's end of a link is cut.
    CutMonitor(usize, usize),
}

/// The news of a step.
#[derive(Clone, Copy)]
pub enum News {
    /// The step was impossible in this state: all stays as it was.
    Skipped,
    /// A monitor gave a notice.
    Notice(usize, Notice),
    /// A monitor has entered this phase.
    Phase(usize, Phase),
}

/// One piece of news of a step.
#[derive(Clone, Copy)]
pub struct Logged {
    /// The number of the step, counted from 1.
    pub step: usize,
    /// The news.
    pub news: News,
}

/// The news of the steps of a call, in order.
pub type FleetLog = Vec<Logged>;

/// Why a fleet cannot be made, or a schedule cannot be played.
#[derive(Clone, Copy, Debug, PartialEq, Eq, Error)]
pub enum FleetFault {
    /// The step with this number, counted from 1, names a monitor, a link or a UPS that isn't there, or its line is
    /// longer than a piece may be. The steps before it stand.
    #[error("bad step {0}")]
    BadStep(usize),
    /// Memory could not be allocated at the step with this number, or at 0 when the fleet was made. The fleet has
    /// failed.
    #[error("out of memory")]
    Memory(usize),
    /// The fleet has failed in an earlier call.
    #[error("the fleet has failed")]
    Failed,
}

/// Memory could not be allocated.
#[derive(Clone, Copy)]
pub(crate) struct Lack;
