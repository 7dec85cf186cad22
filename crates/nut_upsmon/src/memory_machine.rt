//! A machine in memory.

ghost use Rattle.std.specs.Prelude.{◌≡◌, ◌∷◌, [], Some, None, IfSome, IfNone, IfOk, OnOk, OnErr};
ghost use Rattle.nut_monitor.specs.Texts.{text_of};
ghost use Rattle.nut_upsmon.specs.Acts.{IfTold, Readied as ReadiedTo, does, halt_of, text_in};
ghost use Rattle.nut_upsmon.specs.Reload.{MayReload};
ghost use Rattle.nut_upsmon.specs.Memory.{act_of, acts_of, noted_text, told_acts};

use crate::actor::Actor;
use crate::beginning::Beginning;
use crate::halt::HaltFault;
use crate::obstacle::may_reload;
use crate::power_down_flag::FlagFault;
use nut_conf::{COMMAND_MAX, MonConfig, Text};
use nut_monitor::{Monitor, Notice};
use std::alloc::{AllocError, Global};
use std::marker::Model;

/// An act that a machine in memory noted.
#[derive(Drop)]
pub enum NotedAct {
    /// It removed the POWERDOWNFLAG of this name, if an earlier shutdown left that set.
    ClearedFlag(Option<Vec<u8>>),
    /// It made ready to halt by this SHUTDOWNCMD, and with this POWERDOWNFLAG.
    Readied(Option<Vec<u8>>, Option<Vec<u8>>),
    /// It halts as was readied last, from now on.
    Changed,
    /// It printed this text.
    Printed(Vec<u8>),
    /// It ran NOTIFYCMD with this notice and its text.
    Called(Notice, Vec<u8>),
    /// It set POWERDOWNFLAG.
    TriedFlag,
    /// It ran SHUTDOWNCMD.
    RanShutdown,
}

/// A changed upsmon.conf that a machine in memory takes up.
#[derive(Drop)]
pub struct MemoryReload {
    /// How often the machine looks for it in vain, since the one before. Then it may still have to wait for the monitor.
    pub after: u64,
    /// What its watch begins with.
    pub beginning: Beginning,
}

/// A machine that does nothing but note its acts. If it lacks the memory for a note, it tells its acts no longer.
#[derive(Drop)]
pub struct MemoryMachine {
    alloc: Global,
    acts: Vec<NotedAct>,
    is_whole: bool,
    reloads: Vec<MemoryReload>,
}

impl Model for MemoryMachine {
    ghost use Rattle.std.specs.Prelude.{List, Option};
    ghost use Rattle.nut_upsmon.specs.Acts.{Act};
    ghost use Rattle.nut_upsmon.specs.Memory.{told_acts};

    ghost Value = { Option (List Act) };

    ghost view = { λ m. told_acts m.is_whole m.acts.items };
}

impl MemoryMachine {
    /// Makes a machine that takes up these configurations, and has done nothing.
    pub fn new(alloc: Global, reloads: Vec<MemoryReload>) -> MemoryMachine
        ensures { result ≡ Some [] }
    {
        MemoryMachine {
            alloc,
            acts: Vec::new(alloc),
            is_whole: true,
            reloads,
        }
    }

    /// Returns all that it did, the oldest first; none if it lacked the memory to note it.
    pub fn acts(&self) -> Option<&[NotedAct]>
        ensures some { IfSome result (λ acts. self.now ≡ Some (acts_of acts.now)) }
        ensures none { IfNone result (self.now ≡ None) }
    {
        if self.is_whole {
            Some(&self.acts)
        } else {
            None
        }
    }

    /// Notes an act, or that the memory for it is lacking.
    fn keep(&mut self, one: NotedAct)
        ensures { IfTold self.new (does (act_of one) self.old) }
    {
        if add(&mut self.acts, self.is_whole, one).is_err() {
            self.is_whole = false;
        }
    }
}

impl Actor for MemoryMachine {
    ghost log = { λ m. m };

    fn clear_flag(&mut self, config: &MonConfig) -> Result<(), AllocError> {
        let flag = copy(self.alloc, &config.power_down_flag)?;
        add(&mut self.acts, self.is_whole, NotedAct::ClearedFlag(flag))
    }

    fn ready(&mut self, config: &MonConfig) -> Result<(), AllocError> {
        add_ready(self.alloc, &mut self.acts, self.is_whole, config)
    }

    fn note(&mut self, _monitor: &Monitor, _notice: Notice) {}

    fn print(&mut self, monitor: &Monitor, notice: Notice) {
        match notice_text(self.alloc, monitor, notice) {
            Ok(text) => self.keep(NotedAct::Printed(text)),
            Err(AllocError) => self.is_whole = false,
        }
    }

    fn call(&mut self, monitor: &Monitor, notice: Notice) {
        match notice_text(self.alloc, monitor, notice) {
            Ok(text) => self.keep(NotedAct::Called(notice, text)),
            Err(AllocError) => self.is_whole = false,
        }
    }

    /// If it lacks the memory to make ready, the configuration isn't taken up.
    fn second(&mut self, monitor: &Monitor) -> Option<Beginning> {
        let next = due(&mut self.reloads, monitor)?;
        match add_ready(self.alloc, &mut self.acts, self.is_whole, next.config()) {
            Ok(()) => Some(next),
            Err(_) => None,
        }
    }

    fn change(&mut self) {
        self.keep(NotedAct::Changed);
    }

    fn set_flag(&mut self) -> Result<(), FlagFault> {
        self.keep(NotedAct::TriedFlag);
        Ok(())
    }

    fn run_shutdown(&mut self) -> Result<(), HaltFault> {
        self.keep(NotedAct::RanShutdown);
        Ok(())
    }
}

/// Returns a copy of a text, if there is one.
fn copy(alloc: Global, text: &Option<Text<1, COMMAND_MAX>>) -> Result<Option<Vec<u8>>, AllocError>
    ensures { IfOk result (λ copy. noted_text copy ≡ text_in text.now) }
{
    match text {
        Some(text) => match text.as_bytes().to_vec(alloc) {
            Ok(bytes) => Ok(Some(bytes)),
            Err(_) => Err(AllocError),
        },
        None => Ok(None),
    }
}

/// Notes how a machine of this configuration halts. Changes nothing on an error.
fn add_ready(
    alloc: Global,
    acts: &mut Vec<NotedAct>,
    is_whole: bool,
    config: &MonConfig,
) -> Result<(), AllocError>
    ensures ok { OnOk result (told_acts is_whole acts.new.items ≡ does (ReadiedTo (halt_of config.now)) (told_acts is_whole acts.old.items)) }
    ensures err { OnErr result (acts.new.items ≡ acts.old.items) }
{
    let command = copy(alloc, &config.shutdown_cmd)?;
    let flag = copy(alloc, &config.power_down_flag)?;
    add(acts, is_whole, NotedAct::Readied(command, flag))
}

/// Notes an act. Changes nothing on an error.
fn add(acts: &mut Vec<NotedAct>, is_whole: bool, one: NotedAct) -> Result<(), AllocError>
    ensures ok { OnOk result (told_acts is_whole acts.new.items ≡ does (act_of one) (told_acts is_whole acts.old.items)) }
    ensures err { OnErr result (acts.new.items ≡ acts.old.items) }
{
    match acts.push(one) {
        Ok(()) => Ok(()),
        Err(_) => Err(AllocError),
    }
}

/// Returns the text of a notice of this monitor.
fn notice_text(alloc: Global, monitor: &Monitor, notice: Notice) -> Result<Vec<u8>, AllocError>
    ensures { IfOk result (λ text. text.items ≡ text_of monitor.now.config notice) }
{
    let mut text = Vec::new(alloc);
    monitor.notice_text(notice, &mut text)?;
    Ok(text)
}

/// Returns what the next watch begins with, if it is time and may take the place of this monitor's.
fn due(reloads: &mut Vec<MemoryReload>, monitor: &Monitor) -> Option<Beginning>
    ensures { IfSome result (λ next. MayReload monitor.now next.monitor.config) }
{
    let first = reloads.first_mut()?;
    if first.after > 0 {
        first.after -= 1;
        return None;
    }
    if !may_reload(monitor, first.beginning.config()) {
        return None;
    }
    let MemoryReload {
        after: _,
        beginning,
    } = reloads.remove(0);
    Some(beginning)
}
