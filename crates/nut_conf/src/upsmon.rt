//! The file upsmon.conf.
ghost use Rattle.std.specs.Prelude.{◌≡◌, ◌≤◌, IfErr, IfOk, IsTrue, nat_lt, sum_by};
ghost use Rattle.nut_words.specs.Quoting.{IsPrintable};
ghost use Rattle.nut_conf.specs.Files.{Means};
ghost use Rattle.nut_conf.specs.Memory.{MayRunOut};
ghost use Rattle.nut_conf.specs.Values.{is_text};
ghost use Rattle.nut_conf.specs.Upsmon.{UpsmonHolds, upsmon_fault, upsmon_grows, upsmon_reading, message_of, flags_of};
ghost use Rattle.nut_conf.specs.Rows.{lengths_of, numbers_of};
ghost use Rattle.nut_conf.specs.declared.upsmon.MonConfig.{MonConfig};

use crate::directives::Directives;
use crate::fault::{ConfFault, FaultKind, Misread};
use crate::file::read_draft;
use crate::hint::{Expected, Hint};
use crate::limits::{COMMAND_MAX, MESSAGE_MAX, MONITORS_MAX};
use crate::line::Line;
use crate::lines::Lines;
use crate::monitor::Monitored;
use crate::notice::{Notice, NoticeFlags, NoticeHandling, NoticeText, handling_of, text_of};
use crate::slot::{listed_apart, once};
use crate::text::{NumberOr, Text};
use crate::values::Form;
use std::alloc::Global;

/// The configuration of upsmon.conf(5). A directive that isn't set has its default.
pub struct MonConfig {
    /// MONITOR. A file that was read has no two with the same target.
    pub monitors: Lines<Monitored, MONITORS_MAX>,
    /// MINSUPPLIES: a shutdown begins if the power values of the UPSes that aren't critical sum to less than this.
    pub min_supplies: NumberOr<0, 32_000, 1>,
    /// SHUTDOWNCMD, which the shell runs, if it is set.
    pub shutdown_cmd: Option<Text<1, COMMAND_MAX>>,
    /// NOTIFYCMD, which the shell runs, if it is set.
    pub notify_cmd: Option<Text<1, COMMAND_MAX>>,
    /// POWERDOWNFLAG, the path of the file to write, if it is set.
    pub power_down_flag: Option<Text<1, COMMAND_MAX>>,
    /// POLLFREQ: the seconds between two queries for the status of a UPS.
    pub poll_freq: NumberOr<1, 1_000_000, 5>,
    /// DEADTIME: after this many seconds without a status, a UPS on battery is critical.
    pub dead_time: NumberOr<1, 1_000_000, 15>,
    /// RBWARNTIME: the seconds between two notices that a battery needs to be replaced.
    pub rb_warn_time: NumberOr<1, 1_000_000, 43_200>,
    /// NOCOMMWARNTIME: the seconds between two notices that a UPS is unavailable.
    pub no_comm_warn_time: NumberOr<1, 1_000_000, 300>,
    /// HOSTSYNC, in seconds: how long a primary waits for the other machines to log out, and how long a secondary with
    /// a low battery waits for its primary.
    pub host_sync: NumberOr<0, 1_000_000, 15>,
    /// FINALDELAY: the seconds between the last notice and the halt.
    pub final_delay: NumberOr<0, 1_000_000, 5>,
    /// The texts that are set. A file that was read has at most one for each type of notice.
    pub messages: Vec<NoticeText>,
    /// The flags that are set. A file that was read has at most one line of them for each type of notice.
    pub handlings: Vec<NoticeHandling>,
}

// A derived drop would be proved again in each crate that drops a value, with those of its parts.
impl Drop for MonConfig {
    fn drop(self) {
        let MonConfig {
            monitors: _monitors,
            min_supplies: _,
            shutdown_cmd: _shutdown_cmd,
            notify_cmd: _notify_cmd,
            power_down_flag: _power_down_flag,
            poll_freq: _,
            dead_time: _,
            rb_warn_time: _,
            no_comm_warn_time: _,
            host_sync: _,
            final_delay: _,
            messages: _messages,
            handlings: _handlings,
        } = self;
    }
}

impl MonConfig {
    /// Returns the text of a type of notice, or its default. The first `%s` stands for the UPS.
    pub fn message(&self, notice: Notice) -> &[u8]
        ensures value { result.now ≡ message_of notice self.now }
        ensures bounded { IsTrue (is_text 0 MESSAGE_MAX result.now) }
        ensures printable { IsPrintable result.now }
    {
        match text_of(self.messages.as_slice(), notice) {
            Some(message) => message.text.as_bytes(),
            None => notice.default_text(),
        }
    }

    /// Returns what is done with a type of notice, or the default `SYSLOG+WALL`.
    pub fn flags(&self, notice: Notice) -> NoticeFlags
        ensures { result ≡ flags_of notice self.now }
    {
        match handling_of(self.handlings.as_slice(), notice) {
            Some(handling) => handling.flags,
            None => NoticeFlags::default_flags(),
        }
    }

    /// Whether a directive has the same value in both configurations: what is set, or else the default. The order of
    /// lines counts.
    pub fn agrees(&self, other: &Self, directive: UpsmonDirective) -> bool {
        match directive {
            UpsmonDirective::Monitor => self.monitors.lines == other.monitors.lines,
            UpsmonDirective::MinSupplies => self.min_supplies.value == other.min_supplies.value,
            UpsmonDirective::ShutdownCmd => self.shutdown_cmd == other.shutdown_cmd,
            UpsmonDirective::NotifyCmd => self.notify_cmd == other.notify_cmd,
            UpsmonDirective::PowerDownFlag => self.power_down_flag == other.power_down_flag,
            UpsmonDirective::PollFreq => self.poll_freq.value == other.poll_freq.value,
            UpsmonDirective::DeadTime => self.dead_time.value == other.dead_time.value,
            UpsmonDirective::RbWarnTime => self.rb_warn_time.value == other.rb_warn_time.value,
            UpsmonDirective::NoCommWarnTime => {
                self.no_comm_warn_time.value == other.no_comm_warn_time.value
            }
            UpsmonDirective::HostSync => self.host_sync.value == other.host_sync.value,
            UpsmonDirective::FinalDelay => self.final_delay.value == other.final_delay.value,
            UpsmonDirective::NotifyMsg => self.messages == other.messages,
            UpsmonDirective::NotifyFlag => self.handlings == other.handlings,
        }
    }
}

/// States a law and does nothing when called: the least and the greatest number of each directive, and its
/// default; and the least and the greatest length of a text.
pub fn upsmon_limits()
    ensures min_supplies { numbers_of (λ (c : MonConfig). c.min_supplies) ≡ (0, 32000, 1) }
    ensures poll_freq { numbers_of (λ (c : MonConfig). c.poll_freq) ≡ (1, 1000000, 5) }
    ensures dead_time { numbers_of (λ (c : MonConfig). c.dead_time) ≡ (1, 1000000, 15) }
    ensures rb_warn_time { numbers_of (λ (c : MonConfig). c.rb_warn_time) ≡ (1, 1000000, 43200) }
    ensures no_comm_warn_time { numbers_of (λ (c : MonConfig). c.no_comm_warn_time) ≡ (1, 1000000, 300) }
    ensures host_sync { numbers_of (λ (c : MonConfig). c.host_sync) ≡ (0, 1000000, 15) }
    ensures final_delay { numbers_of (λ (c : MonConfig). c.final_delay) ≡ (0, 1000000, 5) }
    ensures shutdown_cmd { lengths_of (λ (c : MonConfig). c.shutdown_cmd) ≡ (1, 256) }
    ensures notify_cmd { lengths_of (λ (c : MonConfig). c.notify_cmd) ≡ (1, 256) }
    ensures power_down_flag { lengths_of (λ (c : MonConfig). c.power_down_flag) ≡ (1, 256) }
{}

/// The directives of the file.
#[derive(Clone, Copy)]
pub enum UpsmonDirective {
    Monitor,
    MinSupplies,
    ShutdownCmd,
    NotifyCmd,
    PowerDownFlag,
    PollFreq,
    DeadTime,
    RbWarnTime,
    NoCommWarnTime,
    HostSync,
    FinalDelay,
    NotifyMsg,
    NotifyFlag,
}

/// Each directive of the file, with its word and what its lines look like.
pub const UPSMON_DIRECTIVES: [(&[u8], UpsmonDirective, &str); 13] = [
    (
        b"MONITOR",
        UpsmonDirective::Monitor,
        "MONITOR UPS@HOST[:PORT] POWER USER PASSWORD primary|secondary",
    ),
    (
        b"MINSUPPLIES",
        UpsmonDirective::MinSupplies,
        "MINSUPPLIES NUMBER",
    ),
    (
        b"SHUTDOWNCMD",
        UpsmonDirective::ShutdownCmd,
        "SHUTDOWNCMD \"COMMAND\"",
    ),
    (
        b"NOTIFYCMD",
        UpsmonDirective::NotifyCmd,
        "NOTIFYCMD \"COMMAND\"",
    ),
    (
        b"POWERDOWNFLAG",
        UpsmonDirective::PowerDownFlag,
        "POWERDOWNFLAG \"FILE\"",
    ),
    (b"POLLFREQ", UpsmonDirective::PollFreq, "POLLFREQ SECONDS"),
    (b"DEADTIME", UpsmonDirective::DeadTime, "DEADTIME SECONDS"),
    (
        b"RBWARNTIME",
        UpsmonDirective::RbWarnTime,
        "RBWARNTIME SECONDS",
    ),
    (
        b"NOCOMMWARNTIME",
        UpsmonDirective::NoCommWarnTime,
        "NOCOMMWARNTIME SECONDS",
    ),
    (b"HOSTSYNC", UpsmonDirective::HostSync, "HOSTSYNC SECONDS"),
    (
        b"FINALDELAY",
        UpsmonDirective::FinalDelay,
        "FINALDELAY SECONDS",
    ),
    (
        b"NOTIFYMSG",
        UpsmonDirective::NotifyMsg,
        "NOTIFYMSG TYPE \"TEXT\"",
    ),
    (
        b"NOTIFYFLAG",
        UpsmonDirective::NotifyFlag,
        "NOTIFYFLAG TYPE FLAG[+FLAG]..",
    ),
];

/// Whether the power values of the lines sum to less than `needed`.
fn lacks_power(monitors: &[Monitored], needed: u32) -> bool
    ensures { result ≡ nat_lt (sum_by (λ m. m.power.value) monitors.now) needed }
{
    let mut missing = needed;
    for monitor in monitors {
        missing = missing.saturating_sub(monitor.power.value);
    }
    missing > 0
}

impl Directives for MonConfig {
    ghost use Rattle.nut_conf.specs.Upsmon.{upsmon_row, upsmon_rows};
    ghost use Rattle.nut_conf.specs.inside.Found.{upsmon_found};

    type Directive = UpsmonDirective;

    ghost all = { upsmon_rows };

    ghost table = { upsmon_row };

    ghost found = { upsmon_found };

    fn rows() -> &'static [(&'static [u8], UpsmonDirective, &'static str)] {
        &UPSMON_DIRECTIVES
    }

    fn unset(alloc: Global) -> Self {
        MonConfig {
            monitors: Lines::new(alloc),
            min_supplies: NumberOr::new(),
            shutdown_cmd: None,
            notify_cmd: None,
            power_down_flag: None,
            poll_freq: NumberOr::new(),
            dead_time: NumberOr::new(),
            rb_warn_time: NumberOr::new(),
            no_comm_warn_time: NumberOr::new(),
            host_sync: NumberOr::new(),
            final_delay: NumberOr::new(),
            messages: Vec::new(alloc),
            handlings: Vec::new(alloc),
        }
    }

    fn set(&mut self, directive: UpsmonDirective, line: &Line<'_>) -> Result<(), Misread> {
        let form = Form::Plain;
        match directive {
            UpsmonDirective::Monitor => self.monitors.put_apart(line),
            UpsmonDirective::MinSupplies => self.min_supplies.put(line),
            UpsmonDirective::ShutdownCmd => once(&mut self.shutdown_cmd, form, line),
            UpsmonDirective::NotifyCmd => once(&mut self.notify_cmd, form, line),
            UpsmonDirective::PowerDownFlag => once(&mut self.power_down_flag, form, line),
            UpsmonDirective::PollFreq => self.poll_freq.put(line),
            UpsmonDirective::DeadTime => self.dead_time.put(line),
            UpsmonDirective::RbWarnTime => self.rb_warn_time.put(line),
            UpsmonDirective::NoCommWarnTime => self.no_comm_warn_time.put(line),
            UpsmonDirective::HostSync => self.host_sync.put(line),
            UpsmonDirective::FinalDelay => self.final_delay.put(line),
            UpsmonDirective::NotifyMsg => listed_apart(&mut self.messages, form, line, None),
            UpsmonDirective::NotifyFlag => listed_apart(&mut self.handlings, form, line, None),
        }
    }
}

/// Reads upsmon.conf (NUT manual page upsmon.conf(5)). Returns the configuration that its lines set.
///
/// # Errors
///
/// `PastLimit` at line 0 if the file has more than [`FILE_MAX`](crate::limits::FILE_MAX) bytes. Otherwise the first
/// fault of the first line that has a fault. If no line has a fault, `PastLimit` at line 0 if the power values of all
/// `MONITOR` lines sum to less than `MINSUPPLIES`. `Memory` comes only at a line with a backslash, or at a line without
/// a fault that has `MONITOR`, `NOTIFYMSG` or `NOTIFYFLAG`.
pub fn read_upsmon(alloc: Global, bytes: &[u8]) -> Result<MonConfig, ConfFault>
    ensures means { Means (upsmon_reading bytes.now) UpsmonHolds result }
    ensures supplied { IfOk result (λ conf. conf.min_supplies.value ≤ sum_by (λ m. m.power.value) conf.monitors.lines.items) }
    ensures memory { IfErr result (λ fault. fault.kind ≡ FaultKind.Memory → MayRunOut upsmon_fault upsmon_grows bytes.now fault.line) }
{
    let conf: MonConfig = read_draft(alloc, bytes)?;
    if lacks_power(conf.monitors.lines.as_slice(), conf.min_supplies.value) {
        return Err(ConfFault {
            line: 0,
            kind: FaultKind::PastLimit,
            hint: Hint::of_line(Expected::MorePower),
        });
    }
    Ok(conf)
}
