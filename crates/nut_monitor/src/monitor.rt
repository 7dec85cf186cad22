//! The monitor: one call for an event, and getters.
ghost use Rattle.std.specs.Prelude.{◌≡◌, ◌++◌, List, Some, None, Err, IfOk, IfErr, OnOk, OnErr, [], drop, length, ◌<◌, ◌≤◌, ◌+◌, slice_get, vec_capacity, vec_len};
ghost use Rattle.nut_monitor_spec.specs.declared.MonitorFault.{MonitorFault as AnyFault};
ghost use Rattle.nut_monitor_spec.specs.declared.MonitorFault.TheVariants as faults;
ghost use Rattle.nut_monitor_spec.specs.Acceptance.{Tells, answer_on, is_linked, refusal, waiting_on, watch_at};
ghost use Rattle.nut_monitor_spec.specs.Configuration.{Configuration, configuration_of};
ghost use Rattle.nut_monitor_spec.specs.Content.{content, phase_of};
ghost use Rattle.nut_monitor_spec.specs.Event.{Event as Events};
ghost use Rattle.nut_monitor_spec.specs.Handing.{after_asking};
ghost use Rattle.nut_monitor_spec.specs.Outcome.{IsAnswer, after};
ghost use Rattle.nut_monitor_spec.specs.machine.MachineOutcome.{content_after};
ghost use Rattle.nut_monitor_spec.specs.Trace.{last_answer, linked as is_there, trace, waits};
ghost use Rattle.nut_monitor.specs.Events.{event_of};
ghost use Rattle.nut_monitor.specs.Bounds.{KeepsLittle};
ghost use Rattle.nut_monitor.specs.Texts.{text_of};
ghost use Rattle.nut_monitor.specs.Monitors.{last_on};
ghost use Rattle.std.specs.Option.{option_map};

use crate::event::Event;
use crate::message::put_text;
use crate::state::State;
use nut_conf::{MONITORS_MAX, MonConfig};
use nut_monitor_spec::{Known, LastAnswer, LastQuery, MonitorFault, Notice, Phase};
use std::alloc::{AllocError, Global};
use std::marker::Model;

/// A monitor: its configuration, and what it knows and has decided.
pub struct Monitor {
    config: MonConfig,
    state: State,
    alloc: Global,
}

// A derived drop would be proved again in each crate that drops a value, with those of its parts.
impl Drop for Monitor {
    fn drop(self) {
        let Monitor {
            config: _config,
            state: _state,
            alloc: _,
        } = self;
    }
}

impl Model for Monitor {
    ghost use Rattle.nut_monitor.specs.Monitors.{MonitorValue};

    ghost Value = { MonitorValue };

    ghost use Rattle.nut_monitor.specs.inside.Steps.{content_in};
    ghost use Rattle.nut_monitor_spec.specs.Configuration.{configuration_of};
    ghost use Rattle.nut_monitor.specs.inside.Inside.{IsOrderly};

    ghost view = { λ m. record { config = m.config; content = content_in (configuration_of m.config) m.state } };

    ghost invariant = { λ m. IsOrderly (content_in (configuration_of m.config) m.state) };
}

impl Monitor {
    /// Makes a monitor before its first event. It allocates what it keeps of each line, and room for all notices
    /// that may wait; afterwards only `LinkBytes` events allocate.
    ///
    /// # Errors
    ///
    /// `Memory` with `link: None` if that memory cannot be allocated.
    pub fn new(alloc: Global, config: MonConfig) -> Result<Monitor, MonitorFault>
        // Its content is that of the empty history.
        ensures made { IfOk result (λ monitor. monitor ≡ record { config = config; content = content (configuration_of config) [] }) }
        ensures fault { IfErr result (λ fault. fault ≡ faults.Memory None 0) }
    {
        match State::new(alloc, &config) {
            Ok(state) => Ok(Monitor {
                config,
                state,
                alloc,
            }),
            Err(AllocError) => {
                // dropped by a call, which keeps the proof of this function short
                drop(config);
                Err(MonitorFault::Memory {
                    link: None,
                    lines: 0,
                })
            }
        }
    }

    /// Returns the configuration that the monitor was made with.
    pub fn config(&self) -> &MonConfig
        ensures { result.now ≡ self.now.config }
    {
        &self.config
    }

    /// How many MONITOR lines there are, at most [`MONITORS_MAX`].
    pub fn lines(&self) -> usize
        ensures value { result ≡ length self.now.content.watches }
        ensures few { result ≤ MONITORS_MAX }
    {
        self.state.watches.len()
    }

    /// Brings the bound `KeepsLittle` into the proof of `arrive`; does nothing when it runs.
    fn keeps_little(&self)
        ensures { KeepsLittle self.now.content }
    {
        let _state = &self.state;
    }

    /// Whether the link of the MONITOR line with this number is up: it was made, and not lost since. False if no line
    /// has the number.
    pub fn linked(&self, i: usize) -> bool
        ensures value { result ≡ is_linked (watch_at i self.now.content.watches) }

        // The same by the history, for every history that leads to this content.
        ensures told { (configuration : Configuration) (events : List Events) → Tells configuration events self.now.content
            → result ≡ is_there i (trace configuration events) }
    {
        match self.state.watch(i) {
            Some(line) => line.is_linked(),
            None => false,
        }
    }

    /// Returns the bytes that wait for the server of the MONITOR line with this number: what it hasn't taken of the
    /// queries put since the link was made. Empty if the link isn't up, or no line has the number.
    pub fn waiting(&self, i: usize) -> &[u8]
        ensures value { result.now ≡ waiting_on (watch_at i self.now.content.watches) }

        // The same by the history, for every history that leads to this content.
        ensures told { (configuration : Configuration) (events : List Events) → Tells configuration events self.now.content
            → result.now ≡ waits configuration i (trace configuration events) }
    {
        match self.state.watch(i) {
            Some(line) => line.waiting(),
            None => &[],
        }
    }

    /// Returns what is known of the UPS of the MONITOR line with this number; `None` for an unknown number.
    pub fn known(&self, i: usize) -> Option<Known>
        ensures { result ≡ option_map (λ w. w.known) (watch_at i self.now.content.watches) }
    {
        Some(self.state.watch(i)?.known())
    }

    /// Returns the last query put on the link of the MONITOR line with this number since it was last made, and when.
    /// `None` before the first, and for an unknown number.
    pub fn last_query(&self, i: usize) -> Option<LastQuery>
        ensures { result ≡ last_on (watch_at i self.now.content.watches) }
    {
        self.state.watch(i)?.last_query()
    }

    /// Returns the last answer on the link of the MONITOR line with this number since it was last made, and the query that
    /// it answers. `None` before the first, and for an unknown number.
    pub fn last_answer(&self, i: usize) -> Option<&LastAnswer>
        ensures value { option_map (λ a. a.now) result ≡ answer_on (watch_at i self.now.content.watches) }

        // The same by the history, for every history that leads to this content and every line.
        ensures told { (configuration : Configuration) (events : List Events) → Tells configuration events self.now.content
            → i < length configuration.lines → option_map (λ a. a.now) result ≡ last_answer i (trace configuration events) }
    {
        self.state.watch(i)?.last_answer()
    }

    /// Returns how far the shutdown has come.
    pub fn phase(&self) -> Phase
        ensures { result ≡ phase_of self.now.content }
    {
        self.state.phase(&self.config)
    }

    /// Returns the oldest waiting notice, if one waits.
    pub fn first_notice(&self) -> Option<Notice>
        ensures { result ≡ slice_get self.now.content.notices 0 }
    {
        self.state.notices.first()
    }

    /// Removes and returns the oldest waiting notice, if one waits.
    pub fn take_notice(&mut self) -> Option<Notice>
        ensures taken { result ≡ slice_get self.old.content.notices 0 }
        ensures left { self.new
            ≡ record { config = self.old.config; content = record self.old.content { notices = drop 1 self.old.content.notices } } }

        // The content is then that of the history with the notice's taking as its newest event, if there was a notice.
        ensures stands { (configuration : Configuration) (events : List Events) → Tells configuration events self.old.content
            → Tells configuration (after_asking result events) self.new.content }
    {
        self.state.notices.take()
    }

    /// Appends the text of a notice to `out`: the message of its type, which is NOTIFYMSG in upsmon.conf(5) or the
    /// default. Its first `%s` is replaced by the UPS as upsmon.conf writes it. The message of SHUTDOWN is appended as
    /// it is.
    ///
    /// # Errors
    ///
    /// `AllocError` if memory cannot be allocated; `out` is then unchanged.
    pub fn notice_text(&self, notice: Notice, out: &mut Vec<u8>) -> Result<(), AllocError>
        ensures ok { OnOk result (out.new.items ≡ out.old.items ++ text_of self.now.config notice) }
        ensures err { OnErr result (out.new.items ≡ out.old.items) }

        // It fails only if `out` had no room for the text.
        ensures full { OnErr result (vec_capacity out.old < vec_len out.old + length (text_of self.now.config notice)) }
    {
        put_text(&self.config, notice, out)
    }

    /// Takes one event: `arrive` with its contract in terms of the machine, for proofs that have no history at hand.
    ///
    /// # Errors
    ///
    /// Those of `arrive`.
    pub fn step(&mut self, event: Event<'_>) -> Result<(), MonitorFault>
        ensures answered { IsAnswer self.old.content (event_of event.entry) result }
        ensures content { self.new
            ≡ record { config = self.old.config; content = content_after result self.old.content (event_of event.entry) } }
    {
        match event {
            Event::Moment(t) => self.state.moment(&self.config, t),
            Event::Linked(i) => self.state.link(&self.config, self.alloc, i),
            Event::LinkBytes(i, piece) => self.state.link_bytes(&self.config, i, piece),
            Event::LinkLost(i) => self.state.link_lost(&self.config, i),
            Event::LinkTook(i, n) => self.state.link_took(i, n),
        }
    }

    /// Takes one event.
    ///
    /// Only a `LinkBytes` event allocates, and only if it completes a line other than `OK`.
    ///
    /// # Errors
    ///
    /// The fault of the first test that refuses the event, in this order: `NoSuchLink`, `WrongLinkState`,
    /// `PieceTooLong`, `TooMuchTaken`, and `Busy` for a moment or a piece while a notice waits. The monitor is then
    /// unchanged. `Memory` if memory cannot be allocated at a line of a piece: the lines before it took effect, and the
    /// link is lost.
    pub fn arrive(&mut self, event: Event<'_>) -> Result<(), MonitorFault>
        // The answer is that of the first test that refuses. Memory may be lacking only if no test refuses.
        ensures answered { IsAnswer self.old.content (event_of event.entry) result }

        // The content is then that of the history after the answer.
        ensures stands { (configuration : Configuration) (events : List Events) → Tells configuration events self.old.content
            → Tells configuration (after result (event_of event.entry) events) self.new.content }

        // It keeps the configuration that it was made with.
        ensures config { self.new.config ≡ self.old.config }

        // A refused event changes nothing.
        ensures unchanged { (fault : AnyFault) → refusal self.old.content (event_of event.entry) ≡ Some fault
            → (result ≡ Err fault) × (self.new ≡ self.old) }

        // Few notices wait, and each link keeps at most one query, a line and the rows of a list, after any events.
        ensures little { KeepsLittle self.new.content }
    {
        let answer = self.step(event);
        self.keeps_little();
        answer
    }
}
