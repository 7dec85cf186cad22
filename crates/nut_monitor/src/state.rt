//! What a monitor knows and has decided, and how events change it.
ghost use Rattle.std.specs.Prelude.{◌≡◌, ◌≤◌, ◌<◌, ◌+◌, ◌++◌, [], Some, IfOk, OnOk, MatchResult, is_none, length, map};
ghost use Rattle.std.specs.Option.{option_map};
ghost use Rattle.nut_monitor_spec.specs.Acceptance.{answer_on, is_linked, waiting_on, watch_at};
ghost use Rattle.nut_monitor_spec.specs.Configuration.{Configuration, configuration_of};
ghost use Rattle.nut_monitor_spec.specs.Content.{content, phase_of};
ghost use Rattle.nut_monitor_spec.specs.Event as E;
ghost use Rattle.nut_monitor_spec.specs.machine.Machine.{all_asked, all_silent, clock_set, phase_moved, settled, shutdown_judged, silences_heard, silences_told};
ghost use Rattle.nut_monitor.specs.inside.Inside.{IsOrderly, unwatched};
ghost use Rattle.nut_monitor.specs.inside.Sound.{lacks_memory};
ghost use Rattle.nut_monitor.specs.inside.Steps.{Steps, checked_fault, content_in};
ghost use Rattle.nut_monitor.specs.Monitors.{last_on};

use crate::answer::AnswerScene;
use crate::event::Event;
use crate::line::MonitorLine;
use crate::notices::Notices;
use crate::shutdown::{is_alone, is_over_by, is_short, phase};
use nut_conf::{MonConfig, Monitored, Notice as Kind};
use nut_link::LinkFault;
use nut_monitor_spec::{Known, LastAnswer, LastQuery, MonitorFault, NOTICES_MAX, Notice, Phase};
use nut_words::PIECE_MAX;
use std::alloc::{AllocError, Global};

/// What a monitor knows and has decided: the time, the moments at which its shutdown and Final began, the notices that
/// wait, and each MONITOR line.
#[derive(Drop)]
pub struct State {
    pub clock: u64,
    pub begun: Option<u64>,
    pub ended: Option<u64>,
    pub notices: Notices,
    pub watches: Vec<MonitorLine>,
}

/// Makes a line without a link for each MONITOR line.
fn unlinked(alloc: Global, lines: &[Monitored]) -> Result<Vec<MonitorLine>, AllocError>
    ensures { IfOk result (λ ws. ws.items ≡ map (λ line. unwatched) lines.now) }
{
    let mut watches = Vec::new(alloc);
    match put_unlinked(lines, &mut watches) {
        Ok(()) => Ok(watches),
        Err(error) => {
            // dropped by a call, which keeps the proof of this function short
            drop(watches);
            Err(error)
        }
    }
}

/// Appends a line without a link for each MONITOR line.
fn put_unlinked(lines: &[Monitored], watches: &mut Vec<MonitorLine>) -> Result<(), AllocError>
    ensures { OnOk result (watches.new.items ≡ watches.old.items ++ map (λ line. unwatched) lines.now) }
{
    for _ in lines {
        watches.push(MonitorLine::new())?;
    }
    Ok(())
}

/// Whether a link failed because memory could not be allocated.
fn ran_out(heard: Result<(), LinkFault>) -> bool
    ensures { result ≡ lacks_memory heard }
{
    matches!(heard, Err(LinkFault::Memory))
}

/// Queues NOCOMM for each line whose UPS needs it, as `MonitorLine::tell_silence` says.
fn tell_silences(
    config: &MonConfig,
    clock: u64,
    watches: &mut Vec<MonitorLine>,
    notices: &mut Notices,
)
    requires { length notices.old + length watches.old.items ≤ NOTICES_MAX }
    ensures watches { watches.new.items ≡ all_silent (configuration_of config.now) clock watches.old.items }
    ensures few { length notices.new ≤ length notices.old + length watches.old.items }
    ensures told { notices.new ≡ notices.old ++ silences_told (configuration_of config.now) clock 0 watches.old.items }
{
    for i in 0..watches.len() {
        watches[i].tell_silence(config, clock, i, notices);
    }
}

/// Puts the next query on each link on which one may be put.
fn ask_all(config: &MonConfig, clock: u64, phase: Phase, watches: &mut Vec<MonitorLine>)
    requires { length watches.old.items ≡ length (configuration_of config.now).lines }
    ensures { watches.new.items
        ≡ all_asked (configuration_of config.now) clock phase (configuration_of config.now).lines watches.old.items }
{
    let monitors = &config.monitors;
    let lines = monitors.lines.as_slice();
    for i in 0..watches.len() {
        watches[i].ask(config, clock, phase, &lines[i]);
    }
}

impl State {
    /// Makes the state of a monitor before its first event.
    pub fn new(alloc: Global, config: &MonConfig) -> Result<State, AllocError>
        ensures { IfOk result (λ s. content_in (configuration_of config.now) s ≡ content (configuration_of config.now) []) }
    {
        let monitors = &config.monitors;
        let watches = unlinked(alloc, monitors.lines.as_slice())?;
        match Notices::new(alloc) {
            Ok(notices) => Ok(State {
                clock: 0,
                begun: None,
                ended: None,
                notices,
                watches,
            }),
            Err(error) => {
                // dropped by a call, which keeps the proof of this function short
                drop(watches);
                Err(error)
            }
        }
    }

    /// Returns the phase.
    pub fn phase(&self, config: &MonConfig) -> Phase
        ensures { result ≡ phase_of (content_in (configuration_of config.now) self.now) }
    {
        phase(config, self.clock, self.begun, self.ended)
    }

    /// Returns the scene in which an answer on a line is heard.
    fn scene(&self, line: usize) -> AnswerScene
        ensures { result ≡ record { line = line; clock = self.now.clock; watching = is_none self.now.begun } }
    {
        AnswerScene {
            line,
            clock: self.clock,
            watching: self.begun.is_none(),
        }
    }

    /// Begins the shutdown if power is short and none has begun.
    fn judge_shutdown(&mut self, config: &MonConfig)
        requires { length self.old.watches.items ≡ length (configuration_of config.now).lines }
        ensures content { content_in (configuration_of config.now) self.new
            ≡ shutdown_judged (content_in (configuration_of config.now) self.old) }
        ensures orderly { IsOrderly (content_in (configuration_of config.now) self.old)
            → IsOrderly (content_in (configuration_of config.now) self.new) }
    {
        let short = is_short(config, self.clock, self.watches.as_slice());
        if self.begun.is_none() && short {
            self.begun = Some(self.clock);
        }
    }

    /// Begins Final, and queues SHUTDOWN, if Forcing is over and Final hasn't begun.
    fn move_phase(&mut self, config: &MonConfig)
        requires all { length self.old.watches.items ≡ length (configuration_of config.now).lines }
        requires few { length self.old.notices < NOTICES_MAX }
        ensures content { content_in (configuration_of config.now) self.new
            ≡ phase_moved (content_in (configuration_of config.now) self.old) }
        ensures orderly { IsOrderly (content_in (configuration_of config.now) self.old)
            → IsOrderly (content_in (configuration_of config.now) self.new) }
    {
        let alone = is_alone(config, self.watches.as_slice());
        let over = is_over_by(config, self.clock, alone, self.begun);
        if self.ended.is_none() && over {
            self.ended = Some(self.clock);
            self.notices.tell_when(
                true,
                Notice {
                    kind: Kind::Shutdown,
                    line: None,
                },
            );
        }
    }

    /// Ends an event: judges the shutdown, moves the phase, and puts the next queries.
    fn settle(&mut self, config: &MonConfig)
        requires { IsOrderly (content_in (configuration_of config.now) self.old) }
        ensures content { content_in (configuration_of config.now) self.new ≡ settled (content_in (configuration_of config.now) self.old) }
        ensures orderly { IsOrderly (content_in (configuration_of config.now) self.new) }
    {
        self.judge_shutdown(config);
        self.move_phase(config);
        let phase = self.phase(config);
        ask_all(config, self.clock, phase, &mut self.watches);
    }

    /// Returns the line with this number, if there is one.
    pub fn watch(&self, i: usize) -> Option<&MonitorLine>
        ensures { option_map (λ w. w.now) result ≡ watch_at i self.now.watches.items }
    {
        self.watches.get(i)
    }

    /// Refuses a number that no line has with `NoSuchLink`, and with `WrongLinkState` a line whose link is up though
    /// `linked` is false, or down though it is true.
    fn check(&self, i: usize, linked: bool) -> Result<(), MonitorFault>
        ensures { MatchResult result (λ _. (i < length self.now.watches.items) × (is_linked (watch_at i self.now.watches.items) ≡ linked))
            (λ fault. checked_fault linked (watch_at i self.now.watches.items) ≡ Some fault) }
    {
        match self.watch(i) {
            Some(watch) => {
                if watch.is_linked() == linked {
                    Ok(())
                } else {
                    Err(MonitorFault::WrongLinkState)
                }
            }
            None => Err(MonitorFault::NoSuchLink),
        }
    }

    /// Sets the clock, which never runs back. While no shutdown has begun, queues NOCOMM for each line whose UPS needs
    /// it.
    fn tick(&mut self, config: &MonConfig, t: u64)
        requires orderly { IsOrderly (content_in (configuration_of config.now) self.old) }
        requires free { length self.old.notices ≡ 0 }
        ensures content { content_in (configuration_of config.now) self.new
            ≡ silences_heard (clock_set t (content_in (configuration_of config.now) self.old)) }
        ensures orderly { IsOrderly (content_in (configuration_of config.now) self.new) }
    {
        self.clock = self.clock.max(t);
        if self.begun.is_some() {
            return;
        }
        tell_silences(config, self.clock, &mut self.watches, &mut self.notices);
    }

    /// Takes the event that `t` seconds have passed since the start. The clock never runs back.
    pub fn moment(&mut self, config: &MonConfig, t: u64) -> Result<(), MonitorFault>
        requires { IsOrderly (content_in (configuration_of config.now) self.old) }
        ensures step { Steps (configuration_of config.now) self.old (E.Moment t) result self.new }
    {
        if !self.notices.is_empty() {
            return Err(MonitorFault::Busy);
        }
        self.tick(config, t);
        self.settle(config);
        Ok(())
    }

    /// Takes the event that the link of a line was made.
    pub fn link(&mut self, config: &MonConfig, alloc: Global, i: usize) -> Result<(), MonitorFault>
        requires { IsOrderly (content_in (configuration_of config.now) self.old) }
        ensures step { Steps (configuration_of config.now) self.old (E.Linked i) result self.new }
    {
        self.check(i, false)?;
        self.watches[i].link(alloc);
        self.settle(config);
        Ok(())
    }

    /// Takes a piece that the server of a link sent. The link is lost if memory cannot be allocated at one of its
    /// lines.
    pub fn link_bytes(
        &mut self,
        config: &MonConfig,
        i: usize,
        piece: &[u8],
    ) -> Result<(), MonitorFault>
        requires { IsOrderly (content_in (configuration_of config.now) self.old) }
        ensures step { Steps (configuration_of config.now) self.old (E.LinkBytes i piece.now) result self.new }
    {
        self.check(i, true)?;
        if piece.len() > PIECE_MAX {
            return Err(MonitorFault::PieceTooLong);
        }
        if !self.notices.is_empty() {
            return Err(MonitorFault::Busy);
        }
        let scene = self.scene(i);
        let (done, heard) = self.watches[i].hear(config, scene, piece, &mut self.notices);
        self.settle(config);
        if ran_out(heard) {
            return Err(MonitorFault::Memory {
                link: Some(i),
                lines: done,
            });
        }
        Ok(())
    }

    /// Takes the event that the link of a line was lost.
    pub fn link_lost(&mut self, config: &MonConfig, i: usize) -> Result<(), MonitorFault>
        requires { IsOrderly (content_in (configuration_of config.now) self.old) }
        ensures step { Steps (configuration_of config.now) self.old (E.LinkLost i) result self.new }
    {
        self.check(i, true)?;
        let scene = self.scene(i);
        self.watches[i].lose(scene, &mut self.notices);
        self.settle(config);
        Ok(())
    }

    /// Takes the event that the server of a link took the first `n` of the bytes that wait.
    pub fn link_took(&mut self, i: usize, n: usize) -> Result<(), MonitorFault>
        ensures step { (c : Configuration) → IsOrderly (content_in c self.old) → Steps c self.old (E.LinkTook i n) result self.new }
    {
        self.check(i, true)?;
        if n > self.watches[i].waiting().len() {
            return Err(MonitorFault::TooMuchTaken);
        }
        self.watches[i].took(n);
        Ok(())
    }
}
