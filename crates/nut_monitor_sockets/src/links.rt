//! All links of a monitor, watched by one poll.

ghost use Rattle.std.specs.Prelude.{◌≡◌, ◌≢◌, ◌≤◌, ◌+◌, ℕ, true, false, if◌then◌else◌, [], length, slice_get, unwrap_or, vec_len, IfSome, IfOk, OnErr, Some, None};
ghost use Rattle.nut_io.specs.Writes.{IsWithin};
ghost use Rattle.nut_monitor_loop.specs.declared.types.Next.TheVariants as next;
ghost use Rattle.nut_monitor_sockets.specs.Silence.{IsSilent};
ghost use Rattle.nut_monitor_sockets.specs.Turns.{ComesInTurn, IsGivenBy, IsNoted, LeavesNone, WaitsUnread};
ghost use Rattle.mio.specs.Events.{items};
ghost use Rattle.nut_poll.specs.Queue.{is_waiting, reported};
ghost use Rattle.nut_poll.specs.Turns.{Heeds, TakesTurns};

use crate::dialler::Dialler;
use crate::inquiry::outstanding;
use crate::limits::{CALM, Limits};
use crate::refusals::{is_left_out_when_quiet, title};
use crate::report::ServerReport;
use crate::upstream::Upstream;
use mio::{Events, Token};
use nut_conf::MonConfig;
use nut_io::{Piece, Written};
use nut_monitor::{LastAnswer, Monitor, Phase, Query};
use nut_monitor_loop::Next;
use nut_poll::{
    Found, HOST_UNKNOWN, Heard, LookUps, Reports, Rounds, SOCKETS_MAX, Seconds, text_of,
};
use std::alloc::{AllocError, Global};
use std::net::Net;
use std::process::Processes;
use std::time::{Clock, Duration};
use std::{io, mem};

/// The most milliseconds of one wait while a look-up continues. No event reports its end.
const LOOK_UP_WAIT: u64 = 100;

/// Why a link ended.
#[derive(Clone, Copy)]
enum Loss {
    /// The server closed it, or it failed.
    Closed,
    /// The server didn't answer for this many seconds.
    Silent(u8),
    /// The server said something that the monitor can't read or hadn't asked for.
    Unread,
}

/// The links of a monitor that is about to watch: none is made yet.
pub struct NewLinks {
    upstreams: Vec<Upstream>,
}

// A derived drop would be proved again in each crate that drops a value, with those of its parts.
impl Drop for NewLinks {
    fn drop(self) {
        let NewLinks {
            upstreams: _upstreams,
        } = self;
    }
}

impl NewLinks {
    /// Returns the links of a monitor with this configuration. Their servers are about to be called.
    ///
    /// # Errors
    ///
    /// [`AllocError`] if memory cannot be allocated.
    pub fn of(alloc: Global, config: &MonConfig) -> Result<NewLinks, AllocError> {
        let mut upstreams = Vec::new(alloc);
        for line in config.monitors.lines.iter() {
            upstreams.push(Upstream::new(alloc, line)?)?;
        }
        Ok(NewLinks { upstreams })
    }

    /// Returns the links, by the numbers of their MONITOR lines.
    fn into_upstreams(self) -> Vec<Upstream> {
        let NewLinks { upstreams } = self;
        upstreams
    }
}

/// What the links are watched with, which the program gives.
#[derive(Drop)]
pub struct LinkServices<'r, 'e, R: Processes> {
    /// The system.
    pub rt: &'r R,
    /// The look-ups of hosts.
    pub look_ups: LookUps<'r, R>,
    /// Where servers are reported.
    pub reports: Reports<'e>,
}

/// The links to the servers of the MONITOR lines, by the numbers of the lines, and a clock. The token of a link is its
/// number.
#[derive(Drop)]
pub struct Links {
    rounds: Rounds,
    upstreams: Vec<Upstream>,
    /// Whether the clock was found to have moved on since that was last asked.
    has_moved_on: bool,
    /// How long a server may take at present.
    limits: Limits,
    /// Whether the shutdown has begun.
    is_ending: bool,
}

impl Links {
    /// Returns an empty set of links.
    ///
    /// # Errors
    ///
    /// The error of the poll or of the clock, or a lack of memory.
    pub fn none(rt: &(impl Net + Clock), alloc: Global) -> io::Result<Links> {
        Ok(Links {
            rounds: Rounds::new(rt, alloc, 0)?,
            upstreams: Vec::new(alloc),
            has_moved_on: false,
            limits: CALM,
            is_ending: false,
        })
    }

    /// Begins with these links, and closes all others. Their servers are about to be called, at the addresses that are
    /// known of their hosts. Look-ups that are under way continue. The poll stays: a late report of a closed socket harms no
    /// other.
    ///
    /// # Errors
    ///
    /// The error of the clock. Nothing has changed then.
    pub fn begin<R: Clock + Processes>(
        &mut self,
        services: &mut LinkServices<'_, '_, R>,
        links: NewLinks,
    ) -> io::Result<()>
        ensures { Heeds [] self.old.rounds self.new.rounds }
    {
        match Seconds::start(services.rt) {
            Ok(seconds) => {
                self.begin_at(seconds, links);
                self.look_up(&mut services.look_ups, &mut services.reports);
                Ok(())
            }
            Err(error) => {
                // dropped by a call, which keeps the proof of this function short
                drop(links);
                Err(error)
            }
        }
    }

    /// Begins with these links, and with a clock that was just started.
    #[tactic(auto, using(crate::proofs::InTurn::turned))]
    fn begin_at(&mut self, seconds: Seconds, links: NewLinks)
        ensures { Heeds [] self.old.rounds self.new.rounds }
    {
        let mut upstreams = links.into_upstreams();
        for upstream in upstreams.iter_mut() {
            upstream.take_over_addresses(&self.upstreams);
        }
        self.rounds.seconds = seconds;
        self.rounds.fixed = upstreams.len();
        self.rounds.ready.insert_first(upstreams.len());
        self.upstreams = upstreams;
        self.rounds.begin();
        self.has_moved_on = false;
        self.limits = CALM;
        self.is_ending = false;
    }

    /// Closes all links, and ends the look-ups. Nothing is reported.
    pub fn leave(&mut self, look_ups: &mut LookUps<'_, impl Processes>)
        ensures links { vec_len self.new.upstreams ≡ 0 }
        ensures turns { self.new.rounds ≡ self.old.rounds }
    {
        self.upstreams.clear();
        look_ups.end();
    }

    /// Returns what comes next, after at most one wait.
    ///
    /// Links are looked at in the order in which they came to wait. A second is reported only after the sockets have been
    /// looked at since its end, so what had arrived by then is heard first.
    ///
    /// # Errors
    ///
    /// The error of the wait or of the clock.
    #[tactic(auto, using(crate::proofs::InTurn::comes_then, crate::proofs::InTurn::waited))]
    pub fn next<R: Net + Clock + Processes>(
        &mut self,
        services: &mut LinkServices<'_, '_, R>,
        monitor: &Monitor,
        piece: &mut Piece,
    ) -> io::Result<Next>
        ensures goes_on { IfOk result (λ n. n ≢ next.End) }
        ensures turns { IfOk result (λ n. ComesInTurn n self.old self.new) }
        ensures kept { OnErr result (TakesTurns self.old.rounds self.new.rounds) }
    {
        self.follow(monitor, &mut services.look_ups);
        if let Some(next) = self.come(monitor, piece, services) {
            return Ok(next);
        }
        self.wait(monitor, services)?;
        let next = self.come(monitor, piece, services);
        Ok(next.unwrap_or(Next::Again))
    }

    /// Returns what has come: from a link of this round, or else a second that is over.
    fn come<R: Net + Clock + Processes>(
        &mut self,
        monitor: &Monitor,
        piece: &mut Piece,
        services: &mut LinkServices<'_, '_, R>,
    ) -> Option<Next>
        ensures goes_on { IfSome result (λ n. n ≢ next.End) }
        ensures turns { ComesInTurn (unwrap_or result next.Again) self.old self.new }
    {
        if let Some(next) = self.look(monitor, piece, services.rt, &mut services.reports) {
            return Some(next);
        }
        let all = self.may_catch_up(monitor);
        Some(Next::Moment(self.rounds.seconds.next(all)?))
    }

    /// Whether the clock was found to have moved on since this was last asked. Of several seconds that come at once,
    /// this is so at the first one only.
    pub fn has_moved_on(&mut self) -> bool
        ensures { self.new.rounds ≡ self.old.rounds }
    {
        mem::take(&mut self.has_moved_on)
    }

    /// Offers bytes to the server of a link.
    pub fn offer(&mut self, i: usize, bytes: &[u8]) -> Written
        ensures within { IsWithin result (length bytes.now) }
        ensures turns { self.new.rounds ≡ self.old.rounds }
    {
        match self.upstreams.get_mut(i) {
            Some(upstream) => upstream.offer(bytes),
            None => Written::Failed,
        }
    }

    /// Closes a link on which a write failed.
    pub fn close(&mut self, i: usize, reports: &mut Reports<'_>)
        ensures turns { self.new.rounds ≡ self.old.rounds }
        ensures waits { LeavesNone i self.old self.new }
    {
        self.end(i, Loss::Closed, reports);
    }

    /// Reports what the monitor heard in a piece of a link, if it has to be reported. Closes the link if the monitor dropped it at
    /// that piece, or if its server still owes an answer, and has for too long. The monitor hears of the latter when the link is
    /// looked at again.
    pub fn told(&mut self, monitor: &Monitor, i: usize, reports: &mut Reports<'_>)
        ensures { Heeds [] self.old.rounds self.new.rounds }
    {
        let due = self.due();
        if let (Some(upstream), Some(answer)) = (self.upstreams.get_mut(i), monitor.last_answer(i))
            && upstream.note_answer(answer)
        {
            let took = due.saturating_sub(answer.asked.moment);
            tell_answer(upstream, answer, took, monitor.linked(i), reports);
        }
        if !monitor.linked(i) {
            self.end(i, Loss::Unread, reports);
        } else if self.end_silent(monitor, i, reports) {
            self.rounds.ready.insert(Token(i));
        }
    }

    /// Returns the second that is handed out next if it is over, or else the one that was handed out last.
    fn due(&self) -> u64
        ensures { result ≤ self.now.rounds.seconds.told + (if self.now.has_moved_on then 1 else 0) }
    {
        let told = self.rounds.seconds.told();
        told.saturating_add(u64::from(self.has_moved_on))
    }

    /// Ends a link whose server owes an answer, and has for too long. Returns whether it did.
    fn end_silent(&mut self, monitor: &Monitor, i: usize, reports: &mut Reports<'_>) -> bool
        ensures turns { self.new.rounds ≡ self.old.rounds }
        ensures waits { (k : ℕ) → WaitsUnread k self.old → WaitsUnread k self.new }
        ensures silent { result ≡ true
            → IsSilent self.old.limits.answer (self.old.rounds.seconds.told + (if self.old.has_moved_on then 1 else 0))
            monitor.now.content i }
    {
        let (Some(query), Some(upstream)) = (outstanding(monitor, i), self.upstreams.get(i)) else {
            return false;
        };
        let limit = self.limits.answer;
        let is_overdue = upstream.is_up()
            && u64::from(limit) < self.due().saturating_sub(query.moment);
        if is_overdue {
            self.end(i, Loss::Silent(limit), reports);
        }
        is_overdue
    }

    /// Closes a link and reports it: a server that has served is lost, and of any other it is reported once that there
    /// is no server yet.
    fn end(&mut self, i: usize, loss: Loss, reports: &mut Reports<'_>)
        ensures turns { self.new.rounds ≡ self.old.rounds }
        ensures waits { LeavesNone i self.old self.new }
    {
        let Some(upstream) = self.upstreams.get_mut(i) else {
            return;
        };
        if !upstream.is_up() {
            return;
        }
        if upstream.close(self.limits) {
            reports.tell(lost(upstream.name(), loss));
        } else if upstream.misses() {
            reports.tell(unserved(upstream.name(), loss));
        }
    }

    /// Follows the phase of the monitor. A shutdown counts its own seconds, so seconds that were missed before it are
    /// forgotten, and no look-up helps it any more. In Forcing the servers may stand still with this process, so that the
    /// other machines hear nothing: seconds that are missed then are forgotten, too. If the others did hear and are logged
    /// out, Forcing is over without these seconds.
    fn follow(&mut self, monitor: &Monitor, look_ups: &mut LookUps<'_, impl Processes>)
        ensures { (self.new.rounds.ready ≡ self.old.rounds.ready) × (self.new.rounds.events ≡ self.old.rounds.events) }
    {
        let phase = monitor.phase();
        let begins = !self.is_ending && phase != Phase::Watching;
        if begins || phase == Phase::Forcing {
            self.rounds.seconds.forget_missed();
        }
        if begins {
            self.is_ending = true;
            look_ups.end();
        }
    }

    /// Whether missed seconds may be told at once: no server still has time to answer, or a shutdown has begun. In Final
    /// nobody is asked any more, and the notice SHUTDOWN was given before.
    fn may_catch_up(&self, monitor: &Monitor) -> bool {
        let limits = self.limits;
        let mut links = self.upstreams.iter().enumerate();
        self.is_ending || !links.any(|(i, it)| it.holds_clock(outstanding(monitor, i), limits))
    }

    /// Looks at the links of this round, until one has something to tell.
    fn look(
        &mut self,
        monitor: &Monitor,
        piece: &mut Piece,
        net: &impl Net,
        reports: &mut Reports<'_>,
    ) -> Option<Next>
        ensures goes_on { IfSome result (λ n. n ≢ next.End) }
        ensures turns { ComesInTurn (unwrap_or result next.Again) self.old self.new }
        ensures waits { ((i : ℕ) → WaitsUnread i self.old) → (i : ℕ) → WaitsUnread i self.new }
    {
        for _ in 0..SOCKETS_MAX {
            let Token(i) = self.rounds.ready.take()?;
            if let Some(next) = self.look_at(monitor, i, piece, net, reports) {
                return Some(next);
            }
        }
        None
    }

    /// Reads from a link, or calls its server. If only the monitor or only this world has the link, it is lost.
    fn look_at(
        &mut self,
        monitor: &Monitor,
        i: usize,
        piece: &mut Piece,
        net: &impl Net,
        reports: &mut Reports<'_>,
    ) -> Option<Next>
        ensures goes_on { IfSome result (λ n. n ≢ next.End) }
        ensures given { IfSome result (λ n. IsGivenBy i n) }
        ensures turns { Heeds [] self.old.rounds self.new.rounds }
        ensures waits { LeavesNone i self.old self.new }
    {
        match (self.upstreams.get(i)?.is_up(), monitor.linked(i)) {
            (true, true) => self.hear(monitor, i, piece, reports),
            (false, false) => self.reach(monitor, i, net, reports),
            (false, true) => Some(Next::LinkLost(i)),
            (true, false) => {
                self.close(i, reports);
                None
            }
        }
    }

    /// Reads from a link, and has it looked at again if there may be more. If its server doesn't answer in time the link is
    /// lost, whatever else the server sends, and so it is at once if a line of the server is too long: it may never end.
    fn hear(
        &mut self,
        monitor: &Monitor,
        i: usize,
        piece: &mut Piece,
        reports: &mut Reports<'_>,
    ) -> Option<Next>
        ensures goes_on { IfSome result (λ n. n ≢ next.End) }
        ensures given { IfSome result (λ n. IsGivenBy i n) }
        ensures turns { Heeds [] self.old.rounds self.new.rounds }
        ensures waits { LeavesNone i self.old self.new }
    {
        let upstream = self.upstreams.get_mut(i)?;
        let heard = upstream.hear(piece);
        if upstream.is_too_long() {
            self.end(i, Loss::Unread, reports);
            return Some(Next::LinkLost(i));
        }
        match heard {
            Heard::All => Some(Next::LinkBytes(i)),
            Heard::Part => {
                self.rounds.ready.insert(Token(i));
                Some(Next::LinkBytes(i))
            }
            Heard::Nothing => {
                if self.end_silent(monitor, i, reports) {
                    Some(Next::LinkLost(i))
                } else {
                    None
                }
            }
            Heard::End => {
                self.end(i, Loss::Closed, reports);
                Some(Next::LinkLost(i))
            }
        }
    }

    /// Calls the server of a link, or continues the call. When the link is made, what the server has sent already is to
    /// be read.
    fn reach(
        &mut self,
        monitor: &Monitor,
        i: usize,
        net: &impl Net,
        reports: &mut Reports<'_>,
    ) -> Option<Next>
        ensures goes_on { IfSome result (λ n. n ≢ next.End) }
        ensures given { IfSome result (λ n. IsGivenBy i n) }
        ensures turns { Heeds [] self.old.rounds self.new.rounds }
        ensures waits { LeavesNone i self.old self.new }
    {
        let upstream = self.upstreams.get_mut(i)?;
        let token = Token(i);
        let dialler = Dialler {
            net,
            registry: self.rounds.registry(),
            token,
        };
        match upstream.reach(&dialler) {
            Ok(false) => None,
            Ok(true) => {
                self.rounds.ready.insert(token);
                // The monitor waits for other machines of a UPS: its FSD was accepted there, and it counts who is logged in.
                let waits = monitor.phase() == Phase::Forcing
                    && monitor.known(i).is_some_and(|known| known.forced);
                if upstream.returns() && waits {
                    reports.warn(ServerReport::Returned(upstream.name()));
                }
                Some(Next::Linked(i))
            }
            Err(error) => {
                tell_unreachable(upstream, error, reports);
                None
            }
        }
    }

    /// Waits until an event comes or a second is over, or not at all if there is more to do, and begins the next round.
    fn wait<R: Clock + Processes>(
        &mut self,
        monitor: &Monitor,
        services: &mut LinkServices<'_, '_, R>,
    ) -> io::Result<()>
        ensures { Heeds [] self.old.rounds self.new.rounds }
    {
        let patience = if self.look_at_clock(monitor, services)? {
            Duration::ZERO
        } else {
            self.patience(&services.look_ups)
        };
        self.rounds.wait_for(patience)?;
        note(&self.rounds.events, &mut self.upstreams);
        if self.rounds.events.is_empty() {
            self.look_at_clock(monitor, services)?;
        }
        self.take_look_up(&mut services.look_ups, &mut services.reports);
        self.rounds.begin();
        Ok(())
    }

    /// Returns how long there is nothing to do except wait for events.
    fn patience(&self, look_ups: &LookUps<'_, impl Processes>) -> Duration {
        let ahead = self.rounds.seconds.ahead();
        if look_ups.is_idle() {
            ahead
        } else {
            ahead.min(Duration::from_millis(LOOK_UP_WAIT))
        }
    }

    /// Looks at the clock, and returns whether one more second is over. It is counted then.
    fn look_at_clock<R: Clock + Processes>(
        &mut self,
        monitor: &Monitor,
        services: &mut LinkServices<'_, '_, R>,
    ) -> io::Result<bool>
        ensures { Heeds [] self.old.rounds self.new.rounds }
    {
        let is_over = self.rounds.look_at_clock(services.rt)?;
        if is_over {
            self.second(monitor, &mut services.look_ups, &mut services.reports);
        }
        Ok(is_over)
    }

    /// Counts a second that has passed, or several in which this process was stopped.
    fn second(
        &mut self,
        monitor: &Monitor,
        look_ups: &mut LookUps<'_, impl Processes>,
        reports: &mut Reports<'_>,
    )
        ensures { self.new.rounds ≡ self.old.rounds }
    {
        self.has_moved_on = true;
        self.limits = Limits::of(monitor);
        for (i, upstream) in self.upstreams.iter_mut().enumerate() {
            upstream.second(outstanding(monitor, i), self.limits);
        }
        look_ups.second();
        if !self.is_ending {
            self.look_up(look_ups, reports);
        }
    }

    /// Begins one look-up, if any is due and another one may begin.
    fn look_up(&mut self, look_ups: &mut LookUps<'_, impl Processes>, reports: &mut Reports<'_>)
        ensures { self.new.rounds ≡ self.old.rounds }
    {
        if !look_ups.has_room() {
            return;
        }
        let Some(i) = next_look_up(&self.upstreams, look_ups) else {
            return;
        };
        let Some(upstream) = self.upstreams.get_mut(i) else {
            return;
        };
        if let Err(error) = look_ups.start(upstream.host_name()) {
            upstream.take_addresses(&[]);
            tell_unreachable(upstream, error, reports);
        }
    }

    /// Takes the result of a look-up that has ended. All links to that host are then called.
    fn take_look_up(
        &mut self,
        look_ups: &mut LookUps<'_, impl Processes>,
        reports: &mut Reports<'_>,
    )
        ensures { Heeds [] self.old.rounds self.new.rounds }
    {
        let found = look_ups.take();
        if let Some(found) = &found
            && !self.is_ending
        {
            self.take_found(found, reports);
        }
    }

    /// Hands the result of a look-up to the links to its host.
    fn take_found(&mut self, found: &Found, reports: &mut Reports<'_>)
        ensures { Heeds [] self.old.rounds self.new.rounds }
    {
        for (i, upstream) in self.upstreams.iter_mut().enumerate() {
            if upstream.host_name() == found.name.as_str() {
                self.rounds.ready.insert(Token(i));
                if !upstream.take_addresses(&found.addresses) {
                    tell_unfound(upstream, found.reason, reports);
                }
            }
        }
    }
}

/// Returns the link whose host is to be looked up next, if any is due: the one whose last pause between look-ups is the
/// shortest.
fn next_look_up<R: Processes>(upstreams: &[Upstream], look_ups: &LookUps<'_, R>) -> Option<usize> {
    let mut best: Option<(u8, usize)> = None;
    for (i, upstream) in upstreams.iter().enumerate() {
        let Some(pause) = upstream.due_look_up() else {
            continue;
        };
        if look_ups.is_going(upstream.host_name()) {
            continue;
        }
        match best {
            Some((least, _)) if least <= pause => {}
            Some(_) | None => best = Some((pause, i)),
        }
    }
    match best {
        Some((_, i)) => Some(i),
        None => None,
    }
}

/// Reports what an answer shows, if it has to be reported: that the server begins to serve or to wait for its driver, if
/// the monitor kept the link at the answer, that the answer was late, and what was refused. A refusal of another query than
/// for the status is told even if reports aren't wanted: this UPS isn't watched as upsmon.conf says.
fn tell_answer(
    upstream: &mut Upstream,
    answer: &LastAnswer,
    took: u64,
    is_kept: bool,
    reports: &mut Reports<'_>,
) {
    let query = answer.asked.query;
    let is_after_opening = match query {
        Query::Status | Query::Fsd | Query::NumLogins => true,
        Query::Username | Query::Password | Query::Login | Query::Primary => false,
    };
    let refused = upstream.begins_to_refuse(answer);
    if is_kept && is_after_opening && upstream.begins_to_serve() {
        reports.tell(ServerReport::Reached(upstream.name()));
    }
    if upstream.begins_to_be_late(took) {
        reports.warn(ServerReport::Late(upstream.name()));
    }
    if is_kept && upstream.begins_to_wait(answer) {
        reports.warn(ServerReport::Waits(upstream.name()));
    }
    if let Some(error) = refused {
        let refusal = ServerReport::Refused(
            upstream.name(),
            title(query),
            text_of(error.as_slice()),
        );
        if is_left_out_when_quiet(query) {
            reports.tell(refusal);
        } else {
            reports.warn(refusal);
        }
    }
}

/// Reports that a server can't be reached, unless that was reported since it last served.
fn tell_unreachable(upstream: &mut Upstream, error: io::Error, reports: &mut Reports<'_>)
    ensures { upstream.new.stage ≡ upstream.old.stage }
{
    if upstream.misses() {
        reports.tell(ServerReport::Unreachable(upstream.name(), error));
    }
}

/// Reports that a look-up found no address of a server, for this reason, unless it was reported since the server last served
/// that it can't be reached.
fn tell_unfound(upstream: &mut Upstream, reason: &'static str, reports: &mut Reports<'_>) {
    if reason != HOST_UNKNOWN {
        tell_unreachable(upstream, io::Error::other(reason), reports);
    } else if upstream.misses() {
        reports.tell(ServerReport::Unresolved(upstream.name()));
    }
}

/// Returns the report that a server that served is lost.
fn lost(name: &str, loss: Loss) -> ServerReport<'_> {
    match loss {
        Loss::Closed => ServerReport::Gone(name),
        Loss::Silent(seconds) => ServerReport::GivenUp(name, seconds),
        Loss::Unread => ServerReport::Unread(name),
    }
}

/// Returns the report that there is no server yet, after a link ended on which none served.
fn unserved(name: &str, loss: Loss) -> ServerReport<'_> {
    match loss {
        Loss::Closed => ServerReport::Closed(name),
        Loss::Silent(_) => ServerReport::Mute(name),
        Loss::Unread => ServerReport::Odd(name),
    }
}

/// Notes the events of the links.
fn note(events: &Events, upstreams: &mut Vec<Upstream>)
    ensures { (i : ℕ) → is_waiting i (reported (items events.now)) ≡ true → IsNoted (slice_get upstreams.new.items i) }
{
    for event in events.iter() {
        let Token(i) = event.token();
        if let Some(upstream) = upstreams.get_mut(i) {
            upstream.note(event);
        }
    }
}
