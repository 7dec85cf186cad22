//! What upsmon does to its machine, by the system.

ghost use Rattle.std.specs.Prelude.{◌≡◌, List, Option, None, IfSome, IfNone};
ghost use Rattle.nut_upsmon.specs.Acts.{Act, Readied, does, halt_of};
ghost use Rattle.nut_upsmon.specs.Reading.{WasReadLast};
ghost use Rattle.nut_upsmon.specs.Reload.{MayReload};

use crate::actor::Actor;
use crate::beginning::Beginning;
use crate::halt::{HaltFault, PreparedHalt, UnreadyFault};
use crate::notifier::Notifier;
use crate::order_sender::OrderSender;
use crate::power_down_flag::{FlagFault, clear_left_flag};
use crate::reloader::UpsmonReloader;
use crate::shutdown_report::tell_beginning;
use crate::starting::tell_start;
use linked_list_allocator::LocalHeap;
use nut_conf::MonConfig;
use nut_monitor::{Monitor, Notice, Phase};
use nut_poll::{ErrorLines, LossyLines};
use nut_program::{ConfFiles, FileFault, Streams, tell_not_reloaded};
use std::alloc::{AllocError, Global};
use std::process::Processes;
use std::rt::Files;
use std::time::Clock;

/// The actor of upsmon: it reports notices and what a shutdown is for, keeps the halt of its machine prepared, and takes up a
/// changed upsmon.conf.
///
/// The halt that a configuration sets is prepared before the earlier one is given up, so there is no moment without.
/// What the next watch begins with is made even before that: once the change is reported, no lack of memory can end
/// upsmon.
#[derive(Drop)]
pub struct Machine<'r, R: Files + Processes, F: ConfFiles> {
    rt: &'r R,
    alloc: Global,
    /// Where its halts take their memory from, unless none is available for that.
    heap: &'r Option<LocalHeap>,
    err: ErrorLines,
    notifier: Notifier<'r, R>,
    /// The halt of the configuration in force, if this process halts the machine.
    halt: Option<PreparedHalt<'r, 'r, R>>,
    /// The halt of the configuration that was readied last, until it takes the place of the other.
    ready: Option<PreparedHalt<'r, 'r, R>>,
    /// How another process is ordered to halt the machine, if this one isn't to.
    orders: Option<OrderSender>,
    reloader: UpsmonReloader<'r, F>,
    /// Whether it was told that a shutdown has begun.
    is_ending: bool,
}

impl<'r, R, F> Machine<'r, R, F>
where
    R: Files + Processes + Clock,
    F: ConfFiles,
{
    /// Returns the actor, which takes neither memory nor descriptors yet. Its halts take their memory from this heap. If the
    /// number of a process is given, that one halts the machine.
    pub fn new(
        rt: &'r R,
        alloc: Global,
        heap: &'r Option<LocalHeap>,
        reloader: UpsmonReloader<'r, F>,
        streams: Streams,
        halter: Option<u32>,
    ) -> Machine<'r, R, F>
        ensures { result.reloader ≡ reloader.entry }
    {
        Machine {
            rt,
            alloc,
            heap,
            err: LossyLines::new(streams.err),
            notifier: Notifier::new(rt, alloc, streams.out, halter.is_some()),
            halt: None,
            ready: None,
            orders: halter.map(OrderSender::new),
            reloader,
            is_ending: false,
        }
    }

    /// Readies the halt of another configuration, and gives notices by that configuration from now on. A halt that fails to
    /// get ready is given up.
    fn ready_next(&mut self, former: &MonConfig, config: &MonConfig) -> Result<(), UnreadyFault>
        ensures { self.new.reloader ≡ self.old.reloader }
    {
        if self.orders.is_some() {
            self.notifier.restart(config)?;
            return Ok(());
        }
        let halt = PreparedHalt::changed(self.rt, self.alloc, self.heap, config)?;
        match self.notifier.restart(config) {
            Ok(()) => {
                halt.ready_changed_flag(former, config, &mut self.err);
                drop(self.ready.replace(halt));
                Ok(())
            }
            Err(AllocError) => {
                self.notifier.adopt(halt.give_up());
                Err(UnreadyFault::File(FileFault::Memory))
            }
        }
    }

    /// Reports once that a shutdown has begun, and for which UPSes.
    fn follow(&mut self, monitor: &Monitor)
        ensures { self.new.reloader ≡ self.old.reloader }
    {
        if !self.is_ending && monitor.phase() != Phase::Watching {
            self.is_ending = true;
            tell_beginning(monitor, &mut self.err);
        }
    }
}

impl<'r, R, F> Actor for Machine<'r, R, F>
where
    R: Files + Processes + Clock,
    F: ConfFiles,
{
    ghost log = { λ m. None };

    /// The process that halts the machine removes the flag.
    fn clear_flag(&mut self, config: &MonConfig) -> Result<(), AllocError> {
        if self.orders.is_some() {
            return Ok(());
        }
        clear_left_flag(self.rt, self.alloc, config, &mut self.err)
    }

    /// Makes the next POWERDOWNFLAG ready, starts the shell that waits to run SHUTDOWNCMD, and reports what is watched. A
    /// shell that can't be started is told.
    fn ready(&mut self, config: &MonConfig) -> Result<(), AllocError> {
        self.notifier.restart(config)?;
        if self.orders.is_none() {
            let mut halt = PreparedHalt::new(self.rt, self.alloc, self.heap, config)?;
            halt.begin(config, &mut self.err);
            drop(self.ready.replace(halt));
        }
        tell_start(config, self.reloader.is_quiet(), &mut self.err);
        Ok(())
    }

    fn note(&mut self, monitor: &Monitor, notice: Notice) {
        // What a shutdown is for stands behind the notices of what began it, and before its own, which is about no line.
        if notice.line.is_none() {
            self.follow(monitor);
            self.notifier.end(monitor, &mut self.err);
        }
    }

    fn print(&mut self, monitor: &Monitor, notice: Notice) {
        self.notifier.print(monitor, notice, &mut self.err);
    }

    fn call(&mut self, monitor: &Monitor, notice: Notice) {
        self.notifier.call(monitor, notice, &mut self.err);
    }

    /// What it gives is the configuration that was read last.
    fn second(&mut self, monitor: &Monitor) -> Option<Beginning>
        ensures may { IfSome result (λ next. MayReload monitor.now next.monitor.config) }
        // It tells none of its acts, so these two clauses of `Actor` say nothing here.
        ensures next { IfSome result (λ next. None ≡ does (Readied (halt_of next.monitor.config)) None) }
        ensures none { IfNone result (◌≡◌ {A = Option (List Act)} None None) }
        ensures read { IfSome result (λ next. WasReadLast self.new.reloader next.monitor.config) }
        ensures folder { self.new.reloader.folder ≡ self.old.reloader.folder }
    {
        self.follow(monitor);
        self.notifier.second(&mut self.err);
        if let Some(halt) = &mut self.halt {
            halt.second(&mut self.err);
        }
        if let Some(orders) = &mut self.orders {
            orders.second(self.rt, self.notifier.out(), &mut self.err);
        }
        let reload = self.reloader.second(self.rt, monitor, &mut self.err)?;
        match self.ready_next(monitor.config(), reload.config()) {
            Ok(()) => Some(self.reloader.report(reload, &mut self.err)),
            Err(fault) => {
                tell_not_reloaded(&fault, None, &mut self.err);
                None
            }
        }
    }

    fn change(&mut self) {
        if let Some(ready) = self.ready.take()
            && let Some(former) = self.halt.replace(ready)
        {
            self.notifier.adopt(former.give_up());
        }
        if let Some(orders) = &mut self.orders {
            orders.change();
        }
    }

    fn set_flag(&mut self) -> Result<(), FlagFault> {
        if let Some(orders) = &mut self.orders {
            orders.set_flag();
        }
        match &self.halt {
            Some(halt) => halt.set_flag(&mut self.err),
            None => Ok(()),
        }
    }

    fn run_shutdown(&mut self) -> Result<(), HaltFault> {
        if let Some(orders) = &mut self.orders {
            return orders.halt(self.rt, self.notifier.out(), &mut self.err);
        }
        match &mut self.halt {
            Some(halt) => halt.run(self.notifier.out(), &mut self.err),
            None => Ok(()),
        }
    }
}
