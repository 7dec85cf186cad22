//! A MONITOR line: its link, and what is known of its UPS.
ghost use Rattle.std.specs.Prelude.{◌≡◌, ◌+◌, ◌<◌, ◌≤◌, ◌++◌, [], None, Some, if◌then◌else◌, is_some, length};
ghost use Rattle.std.specs.Option.{option_map};
ghost use Rattle.nut_link.specs.Link.{LinkValue, is_idle, with_exchange};
ghost use Rattle.nut_link.specs.Asking.{query_of};
ghost use Rattle.nut_link.specs.Exchange as stages;
ghost use Rattle.nut_monitor_spec.specs.Query.{request as request_of};
ghost use Rattle.nut_conf.specs.declared.notice.Notice.TheVariants as kinds;
ghost use Rattle.nut_monitor_spec.specs.Acceptance.{waits_on};
ghost use Rattle.nut_monitor_spec.specs.Configuration.{configuration_of, line_of};
ghost use Rattle.nut_monitor_spec.specs.Decision.{tells_silence, told as told_of, when};
ghost use Rattle.nut_monitor_spec.specs.machine.Machine.{answer_after, answer_told, asked_next, is_silent, known_after, loss_told, lost, made, silent, took as taken_by};
ghost use Rattle.nut_monitor.specs.inside.Hearing.{HearsPiece, IsFed};
ghost use Rattle.nut_monitor.specs.inside.Inside.{to_lose, unwatched};
ghost use Rattle.nut_monitor.specs.inside.Sound.{IsCountAfter, IsSound};

use crate::answer::{ANSWER_NOTICES_MAX, AnswerScene, hear, on_line, tell_loss, with_loss};
use crate::notices::Notices;
use crate::query::{next_query, request};
use crate::time::{is_over, is_past};
use nut_conf::{MonConfig, Monitored, Notice as Kind};
use nut_link::{Link, LinkFault, Outcome};
use nut_monitor_spec::{Communication, Known, LastAnswer, LastQuery, NOTICES_MAX, Phase, Query};
use std::alloc::Global;
use std::marker::Model;

/// A MONITOR line: its link if that is up, the last query and the last answer since it was made, and what is known of its
/// UPS.
#[derive(Drop)]
pub struct MonitorLine {
    link: Option<Link>,
    last: Option<LastQuery>,
    answer: Option<LastAnswer>,
    known: Known,
}

impl Model for MonitorLine {
    ghost use Rattle.nut_monitor_spec.specs.Content.{Watch};
    ghost use Rattle.nut_monitor.specs.inside.Sound.{IsSound};

    ghost Value = { Watch };

    ghost view = { λ w. record { link = w.link; last = w.last; answer = w.answer; known = w.known } };

    ghost invariant = { λ w. IsSound w.last w.link };
}

/// Puts a query on a link unless one is outstanding. Returns whether it was put.
fn ask_on(link: &mut Link, line: &Monitored, query: Query) -> bool
    requires { link.old.exchange.fault ≡ None }
    ensures put { result ≡ is_idle link.old.exchange.stage }
    ensures link { link.new ≡ (if result
        then with_exchange (record link.old.exchange { stage = stages.Asked (query_of (request_of (line_of line.now) query)) }) link.old
        else link.old) }
{
    link.ask(&request(line, query)).is_ok()
}

/// Feeds a piece to a link and takes out the answer if one is complete. Drops a link that failed. Returns how many
/// lines of the piece were done, the fault if the link failed, and the outcome of the answer.
fn feed(
    link: &mut Option<Link>,
    last: Option<LastQuery>,
    piece: &[u8],
) -> (usize, Result<(), LinkFault>, Option<Outcome>)
    requires { IsSound last link.old }
    ensures feeds { (v : LinkValue) → link.old ≡ Some v → IsFed v piece.now result.0 result.1 result.2 link.new }
    ensures count { IsCountAfter last result.2 }
    ensures sound { IsSound last link.new }
{
    let Some(going) = link else {
        return (0, Ok(()), None);
    };
    let (done, heard) = going.feed_lines(piece);
    let outcome = going.answer();
    if heard.is_err() {
        cut(link);
        return (done, heard, outcome);
    }
    (done, heard, outcome)
}

/// Drops a link. It stands apart, since the place of a link is filled by whatever function has one.
fn cut(link: &mut Option<Link>)
    ensures { link.new ≡ None }
{
    // dropped by a call, which keeps the proof of this function short
    drop(link.take());
}

/// Returns what is known after the answer to the last query, if both are there, and queues the notices that it gives.
fn hear_answer(
    config: &MonConfig,
    scene: AnswerScene,
    known: Known,
    last: Option<LastQuery>,
    outcome: &Option<Outcome>,
    notices: &mut Notices,
) -> Known
    requires room { length notices.old + ANSWER_NOTICES_MAX < NOTICES_MAX }
    requires count { IsCountAfter last outcome.now }
    ensures few { length notices.new ≤ length notices.old + ANSWER_NOTICES_MAX }
    ensures known { result ≡ known_after (configuration_of config.now) scene.clock scene.watching last outcome.now known }
    ensures told { notices.new ≡ notices.old ++ (if scene.watching
        then answer_told (configuration_of config.now) scene.clock scene.line last outcome.now known else []) }
{
    let Some(last) = last else {
        return known;
    };
    match outcome {
        Some(outcome) => hear(config, scene, known, last.query, outcome, notices),
        None => known,
    }
}

/// Keeps the answer to the last query, if both are there, in the place of the one before.
fn keep_answer(last: Option<LastQuery>, outcome: Option<Outcome>, kept: &mut Option<LastAnswer>)
    ensures { kept.new ≡ answer_after last outcome kept.old }
{
    match (last, outcome) {
        (Some(asked), Some(outcome)) => *kept = Some(LastAnswer { asked, outcome }),
        (_, outcome) => drop(outcome),
    }
}

/// Queues NOCOMM if more than NOCOMMWARNTIME seconds have passed since the last status of the UPS and since its last
/// NOCOMM. Before the first status the time counts from the start. Returns whether it did.
fn tell_silence(
    config: &MonConfig,
    clock: u64,
    line: usize,
    known: Known,
    notices: &mut Notices,
) -> bool
    requires { length notices.old < NOTICES_MAX }
    ensures silent { result ≡ tells_silence (configuration_of config.now) clock known.polled known.silence_told }
    ensures few { length notices.new ≤ length notices.old + 1 }
    ensures told { notices.new ≡ notices.old ++ when result (told_of kinds.Nocomm line) }
{
    let warning = u64::from(config.no_comm_warn_time.value);
    let silent = is_past(warning, clock, known.polled)
        && is_over(warning, clock, known.silence_told);
    notices.tell_when(silent, on_line(Kind::Nocomm, line));
    silent
}

impl MonitorLine {
    /// Makes a line whose link isn't made and whose UPS isn't known yet.
    pub fn new() -> MonitorLine
        ensures { result ≡ unwatched }
    {
        MonitorLine {
            link: None,
            last: None,
            answer: None,
            known: Known {
                flags: None,
                polled: 0,
                calm: 0,
                communication: Communication::Never,
                replace_told: None,
                silence_told: None,
                forced: false,
                logins: None,
            },
        }
    }

    /// Whether its link is up.
    pub fn is_linked(&self) -> bool
        ensures { result ≡ is_some self.now.link }
    {
        self.link.is_some()
    }

    /// Returns the bytes that wait for its server; none if the link isn't up.
    pub fn waiting(&self) -> &[u8]
        ensures { result.now ≡ waits_on self.now.link }
    {
        match &self.link {
            Some(link) => link.waiting(),
            None => &[],
        }
    }

    /// Returns what is known of its UPS.
    pub fn known(&self) -> Known
        ensures { result ≡ self.now.known }
    {
        self.known
    }

    /// Returns the last query that was put since its link was made.
    pub fn last_query(&self) -> Option<LastQuery>
        ensures { result ≡ self.now.last }
    {
        self.last
    }

    /// Returns the last answer since its link was made.
    pub fn last_answer(&self) -> Option<&LastAnswer>
        ensures { option_map (λ a. a.now) result ≡ self.now.answer }
    {
        self.answer.as_ref()
    }

    /// Makes its link.
    pub fn link(&mut self, alloc: Global)
        ensures { self.new ≡ made self.old }
    {
        self.last = None;
        // dropped by calls, which keep the proof of this function short
        drop(self.answer.take());
        drop(self.link.replace(Link::new(alloc)));
    }

    /// Drops its link, and queues COMMBAD if communication wasn't bad before.
    pub fn lose(&mut self, scene: AnswerScene, notices: &mut Notices)
        requires { length notices.old < NOTICES_MAX }
        ensures line { self.new ≡ lost self.old }
        ensures told { notices.new ≡ notices.old ++ (if scene.watching then loss_told scene.line self.old else []) }
        ensures few { length notices.new + to_lose self.new ≤ length notices.old + to_lose self.old }
    {
        tell_loss(scene, self.known, notices);
        self.known = with_loss(self.known);
        cut(&mut self.link);
    }

    /// Removes the first `n` of the bytes that wait: its server took them.
    pub fn took(&mut self, n: usize)
        ensures { self.new ≡ taken_by n self.old }
    {
        if let Some(link) = &mut self.link {
            let _ = link.took(n);
        }
    }

    /// Feeds its link a piece. Takes in the answer that the piece completes, and drops the link if it fails. Returns
    /// how many lines of the piece were done, and the fault if the link failed.
    pub fn hear(
        &mut self,
        config: &MonConfig,
        scene: AnswerScene,
        piece: &[u8],
        notices: &mut Notices,
    ) -> (usize, Result<(), LinkFault>)
        requires room { length notices.old + ANSWER_NOTICES_MAX < NOTICES_MAX }
        ensures few { length notices.new ≤ length notices.old + ANSWER_NOTICES_MAX + 1 }
        ensures hears { (v : LinkValue) → self.old.link ≡ Some v
            → HearsPiece (configuration_of config.now) scene piece.now v self.old notices.old result self.new notices.new }
    {
        let (done, heard, outcome) = feed(&mut self.link, self.last, piece);
        self.known = hear_answer(config, scene, self.known, self.last, &outcome, notices);
        keep_answer(self.last, outcome, &mut self.answer);
        if heard.is_err() {
            tell_loss(scene, self.known, notices);
            self.known = with_loss(self.known);
        }
        (done, heard)
    }

    /// Queues NOCOMM if more than NOCOMMWARNTIME seconds have passed since the last status of its UPS and since its
    /// last NOCOMM. Before the first status the time counts from the start.
    pub fn tell_silence(
        &mut self,
        config: &MonConfig,
        clock: u64,
        line: usize,
        notices: &mut Notices,
    )
        requires { length notices.old < NOTICES_MAX }
        ensures line { self.new ≡ silent (configuration_of config.now) clock self.old }
        ensures few { length notices.new ≤ length notices.old + 1 }
        ensures told { notices.new
            ≡ notices.old ++ when (is_silent (configuration_of config.now) clock self.old) (told_of kinds.Nocomm line) }
    {
        if tell_silence(config, clock, line, self.known, notices) {
            self.known.silence_told = Some(clock);
        }
    }

    /// Puts the next query on its link, if one may be put.
    pub fn ask(&mut self, config: &MonConfig, clock: u64, phase: Phase, line: &Monitored)
        ensures { self.new ≡ asked_next (configuration_of config.now) clock phase (line_of line.now) self.old }
    {
        let Some(link) = &mut self.link else {
            return;
        };
        let Some(query) = next_query(config, line, clock, phase, self.last, self.known.forced)
        else {
            return;
        };
        if ask_on(link, line, query) {
            self.last = Some(LastQuery {
                query,
                moment: clock,
            });
        }
    }
}
