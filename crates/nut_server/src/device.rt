//! A UPS and its driver.

ghost use Rattle.std.specs.Prelude.{◌≡◌, ◌≤◌, ◌<◌, ◌/◌, ⊤, [], ◌++◌, Some, IfOk, IfErr, IsTrue, OnOk, find, length, option_map, true, not, ◌==◌, ◌&&◌};
ghost use Rattle.std.specs.Option.{option_map_or};
ghost use Rattle.nut_queue.specs.Front.{IsFrontPart};
ghost use Rattle.nut_words.specs.Lines.{Text};
ghost use Rattle.nut_server_spec.specs.Acceptance.{front, line_feeds};
ghost use Rattle.nut_server_spec.specs.Content.{down, unheard};
ghost use Rattle.nut_server_spec.specs.Device.{absent, fits, is_past, is_stale, needs_ping, trouble};
ghost use Rattle.nut_server_spec.specs.Reloading.{is_kept};
ghost use Rattle.nut_server_spec.specs.machine.Machine.{up, drained, fated, ticked, bytes_reported};
ghost use Rattle.nut_server_spec.specs.Outcome.{text_takes};
ghost use Rattle.nut_server_spec.specs.Tracking.{with_tracked};
ghost use Rattle.nut_server_spec.specs.machine.MachineOutcome.{RunsOutOf};
ghost use Rattle.nut_server.specs.inside.Fates.{fate_is};
ghost use Rattle.nut_server.specs.inside.Lines.{line_reported};

use crate::reloading::Fate;
use crate::tracked::TrackedRequests;
use crate::unread::Unread;
use nut_proto::{Refusal, TrackingStatus};
use nut_queue::{ASKS_MAX, AskRing};
use nut_state::{Heard, StateFault, UpsState};
use nut_words::{HearLine, Line, LineCutter, hear_lines};
use std::alloc::{AllocError, Global};
use std::marker::Model;

/// The request to a driver for all that it knows.
const DUMP_ALL: &[u8] = b"DUMPALL\n";

/// The request to a driver to show that it is alive.
const PING: &[u8] = b"PING\n";

/// Returns a third of MAXAGE in seconds, rounded down. A driver is sent PING once nothing was heard of it for more than
/// this many seconds, and again once more than this many have passed since the last PING.
pub fn silence_before_ping(max_age: u64) -> u64
    ensures { result ≡ max_age / 3 }
{
    max_age / 3
}

/// A UPS without its driver's unfinished line: what the driver has reported, the requests that wait for it, and the newest
/// requests that are tracked. It hears the driver's lines while they are lent from a piece or from the unfinished line.
#[derive(Drop)]
struct Reported {
    connected: bool,
    table: UpsState,
    heard_at: u64,
    pinged_at: Option<u64>,
    forced: bool,
    asks: AskRing,
    tracked: TrackedRequests,
    /// What the driver said that couldn't be read. No answer depends on it.
    unread: Unread,
    alloc: Global,
}

impl Model for Reported {
    ghost use Rattle.nut_server_spec.specs.Device as definitions;

    ghost Value = { definitions.Device };

    ghost view = { λ d. record {
      connected = d.connected;
      table = d.table;
      heard_at = d.heard_at;
      pinged_at = d.pinged_at;
      forced = d.forced;
      waits = d.asks;
      tracked = d.tracked;
    } };
}

/// A UPS: what is known of it, and its driver's unfinished line.
#[derive(Drop)]
pub struct Device {
    reported: Reported,
    cutter: LineCutter,
}

impl Model for Device {
    ghost use Rattle.nut_server_spec.specs.Content.{Supply};
    ghost use Rattle.nut_words.specs.Hearing.{IsRest};

    ghost Value = { Supply };

    ghost view = { λ d. record { device = d.reported; rest = d.cutter } };

    ghost invariant = { λ d. IsRest d.cutter };
}

impl Device {
    /// Returns a UPS whose driver was never connected. Allocates the ring for its requests; fails if that memory cannot
    /// be allocated.
    pub fn new(alloc: Global) -> Result<Device, AllocError>
        ensures { IfOk result (λ d. d ≡ record { device = absent; rest = Text [] }) }
    {
        let asks = AskRing::new(alloc)?;
        let reported = Reported {
            connected: false,
            table: UpsState::new(alloc),
            heard_at: 0,
            pinged_at: None,
            forced: false,
            asks,
            tracked: TrackedRequests::new(),
            unread: Unread::none(),
            alloc,
        };
        Ok(Device {
            reported,
            cutter: LineCutter::new(),
        })
    }

    /// Whether its driver is connected.
    pub fn is_connected(&self) -> bool
        ensures { result ≡ self.now.device.connected }
    {
        self.reported.connected
    }

    /// Returns the table that the driver has reported.
    pub fn table(&self) -> &UpsState
        ensures { result.now ≡ self.now.device.table }
    {
        &self.reported.table
    }

    /// Whether a shutdown was forced.
    pub fn is_forced(&self) -> bool
        ensures { result ≡ self.now.device.forced }
    {
        self.reported.forced
    }

    /// Returns which variables the driver has said something about that couldn't be read.
    pub fn unread(&self) -> &Unread {
        &self.reported.unread
    }

    /// Returns how many bytes wait for the driver.
    pub fn waits(&self) -> usize
        ensures length { result ≡ length self.now.device.waits }
        ensures within { result ≤ ASKS_MAX }
    {
        self.reported.asks.len()
    }

    /// Returns a front part of the bytes that wait for the driver. It is empty only if none wait.
    pub fn waiting(&self) -> &[u8]
        ensures { IsFrontPart result.now self.now.device.waits }
    {
        self.reported.asks.front()
    }

    /// Whether a request fits behind those that wait for the driver.
    pub fn fits(&self, line: &[u8]) -> bool
        ensures { result ≡ fits line.now self.now.device }
    {
        line.len() <= self.reported.asks.room()
    }

    /// Whether, at `time`, more than `seconds` have passed since a line was last heard or the driver was connected.
    fn is_silent_for(&self, seconds: u64, time: u64) -> bool
        ensures { result ≡ is_past seconds time self.now.device.heard_at }
    {
        time.saturating_sub(self.reported.heard_at) > seconds
    }

    /// Whether the data are stale at this time. They are if the driver hasn't finished its dump, or was silent for
    /// more than `max_age` seconds. They also are if the last of DATAOK and DATASTALE since it was connected isn't
    /// DATAOK.
    pub fn is_stale(&self, max_age: u64, time: u64) -> bool
        ensures { result ≡ is_stale max_age time self.now.device }
    {
        let table = &self.reported.table;
        !table.dump_done() || !table.data_ok() || self.is_silent_for(max_age, time)
    }

    /// Returns why requests about the UPS's data are refused at this time, if they are.
    pub fn trouble(&self, max_age: u64, time: u64) -> Option<Refusal>
        ensures { result ≡ trouble max_age time self.now.device }
    {
        if !self.reported.connected {
            return Some(Refusal::DriverNotConnected);
        }
        if self.is_stale(max_age, time) {
            return Some(Refusal::DataStale);
        }
        None
    }

    /// Whether, at `time`, more than `seconds` have passed since the last PING, or there was none.
    fn is_unpinged_for(&self, seconds: u64, time: u64) -> bool
        ensures { result ≡ option_map_or (is_past seconds time) self.now.device.pinged_at true }
    {
        self.reported
            .pinged_at
            .is_none_or(|moment| time.saturating_sub(moment) > seconds)
    }

    /// Whether the driver is to be sent PING at this time.
    #[tactic(auto, using(crate::proofs::Asks::ping_is))]
    fn needs_ping(&self, max_age: u64, time: u64) -> bool
        ensures { result ≡ needs_ping max_age time self.now.device }
    {
        let seconds = silence_before_ping(max_age);
        if !self.reported.connected
            || !self.is_silent_for(seconds, time)
            || !self.is_unpinged_for(seconds, time)
        {
            return false;
        }
        self.fits(PING)
    }

    /// Sends the driver PING at this time, if it is to be sent.
    #[tactic(auto, using(crate::proofs::Asks::ping_is))]
    pub fn tick(&mut self, max_age: u64, time: u64)
        ensures { self.new ≡ ticked max_age time self.old }
    {
        if self.needs_ping(max_age, time) {
            self.push(PING);
            self.reported.pinged_at = Some(time);
        }
    }

    /// Connects the driver at this time: clears what was reported before, fails the tracked requests that are pending,
    /// and asks for all that the driver knows.
    #[tactic(auto, using(crate::proofs::Asks::dump_all_is))]
    pub fn up(&mut self, time: u64)
        ensures { self.new ≡ up time self.old }
    {
        self.reported.connected = true;
        self.reported.table.clear();
        self.reported.heard_at = time;
        self.reported.pinged_at = None;
        self.reported.asks.clear();
        self.reported.tracked.abandon();
        self.cutter = LineCutter::new();
        self.push(DUMP_ALL);
    }

    /// Disconnects the driver, which fails the tracked requests that are pending.
    pub fn down(&mut self)
        ensures { self.new ≡ down self.old }
    {
        self.reported.connected = false;
        self.reported.asks.clear();
        self.reported.tracked.abandon();
        self.cutter = LineCutter::new();
    }

    /// Forgets all that is known of the UPS, and disconnects its driver.
    pub fn clear(&mut self)
        ensures { self.new ≡ unheard }
    {
        self.down();
        self.reported.table.clear();
        self.reported.heard_at = 0;
        self.reported.pinged_at = None;
        self.reported.forced = false;
        self.reported.tracked = TrackedRequests::new();
    }

    /// Whether its driver is connected, and is disconnected by this fate at a reload.
    pub fn ends(&self, fate: Fate) -> bool
        ensures { result ≡ (self.now.device.connected && not (is_kept (fate_is fate))) }
    {
        self.reported.connected && !fate.is_kept()
    }

    /// Changes the UPS as its fate at a reload says.
    pub fn meet(&mut self, fate: Fate)
        ensures { self.new ≡ fated (fate_is fate) self.old }
    {
        if !fate.is_kept() {
            self.reported.unread = Unread::none();
        }
        match fate {
            Fate::Kept => {}
            Fate::Disconnected => self.down(),
            Fate::Cleared => self.clear(),
        }
    }

    /// Removes the first `n` of the bytes that wait: the driver took them.
    pub fn took(&mut self, n: usize)
        requires { n ≤ length self.old.device.waits }
        ensures { self.new ≡ drained n self.old }
    {
        self.reported.asks.took(n);
    }

    /// Marks the UPS as forced to shut down.
    pub fn force(&mut self)
        ensures { self.new ≡ record self.old { device = record self.old.device { forced = true } } }
    {
        self.reported.forced = true;
    }

    /// Queues bytes for the driver. They fit behind those that wait.
    fn push(&mut self, line: &[u8])
        requires { IsTrue (fits line.now self.old.device) }
        ensures { self.new ≡ record self.old { device = record self.old.device { waits = self.old.device.waits ++ line.now } } }
    {
        self.reported.asks.push(line);
    }

    /// Queues a request to the driver, which is tracked if it has a number. It fits behind those that wait.
    pub fn ask(&mut self, line: &[u8], number: Option<u32>)
        requires { IsTrue (fits line.now self.old.device) }
        ensures { self.new ≡ record self.old {
          device = record self.old.device {
            waits = self.old.device.waits ++ line.now;
            tracked = with_tracked number self.old.device.tracked;
          };
        } }
    {
        self.push(line);
        if let Some(number) = number {
            self.reported.tracked.begin(number);
        }
    }

    /// Returns how the tracked request with this number ended, if it was one to this UPS and is remembered.
    pub fn status_of(&self, number: u32) -> Option<TrackingStatus>
        ensures { result ≡ option_map (λ t. t.status) (find (λ t. t.number == number) self.now.device.tracked) }
    {
        self.reported.tracked.status_of(number)
    }

    /// Handles a piece of the driver's bytes, line by line. If memory runs out, returns as an error how many lines of
    /// the piece were done; the driver then counts as disconnected.
    pub fn hear(&mut self, time: u64, piece: &[u8]) -> Result<(), usize>
        ensures ok { OnOk result (self.new ≡ bytes_reported time piece.now self.old) }
        ensures lost { IfErr result (λ done. self.new ≡ down (bytes_reported time (front done piece.now) self.old)) }
        ensures few { IfErr result (λ done. done < line_feeds piece.now) }
        ensures memory { IfErr result (λ done. RunsOutOf time piece.now done (Some self.old)) }
    {
        let (done, heard) = hear_lines(&mut self.cutter, &mut self.reported, time, piece);
        match heard {
            Ok(()) => Ok(()),
            Err(_) => {
                self.down();
                Err(done)
            }
        }
    }
}

/// Takes in the lines of the driver. If memory cannot be allocated for one, nothing
/// changes.
impl HearLine for Reported {
    type With = u64;

    type Stop = StateFault;

    ghost heard = { line_reported };

    ghost GoesOn = { λ _. ⊤ };

    ghost Stops = { λ time line before _ after. (after ≡ before) × IsTrue (text_takes line before.table) };

    fn hear_line(&mut self, time: u64, line: Line<'_>) -> Result<(), StateFault> {
        let heard = match line {
            Line::Text(text) => self.table.apply(text)?,
            Line::TooLong => Heard::Ignored,
        };
        match heard {
            Heard::Heard => self.heard_at = time,
            Heard::Tracked { number, status } => {
                self.heard_at = time;
                self.tracked.end(number, status);
            }
            Heard::Ignored => self.unread.note(self.alloc, line),
        }
        Ok(())
    }
}
