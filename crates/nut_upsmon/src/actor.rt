//! What upsmon does to its machine.

ghost use Rattle.std.specs.Prelude.{◌≡◌, List, Option, IfSome, IfNone, OnOk, OnErr};
ghost use Rattle.nut_monitor.specs.Texts.{text_of};
ghost use Rattle.nut_upsmon.specs.Acts.{Act, ClearedFlag, Readied, Changed, Printed, Called, TriedFlag, RanShutdown, IfTold, does, halt_of};
ghost use Rattle.nut_upsmon.specs.Reload.{MayReload};

use crate::beginning::Beginning;
use crate::halt::HaltFault;
use crate::power_down_flag::FlagFault;
use nut_conf::MonConfig;
use nut_monitor::{Monitor, Notice};
use std::alloc::AllocError;

/// Whoever acts on the machine for upsmon: reports notices, and halts.
pub trait Actor: Drop {
    /// What it did, the newest first; None if it tells nothing. If it lacks the memory for one more act, it tells nothing any more.
    ghost log: { Self → Option (List Act) };

    /// Tries to remove the POWERDOWNFLAG that this configuration names, if an earlier shutdown left it set. This comes before
    /// all else, since memory or descriptors may be lacking for that.
    ///
    /// # Errors
    ///
    /// [`AllocError`] if memory cannot be allocated. Then nothing is removed.
    fn clear_flag(&mut self, config: &MonConfig) -> Result<(), AllocError>
        ensures { OnOk result (log self.new ≡ does (ClearedFlag (halt_of config.now).flag) (log self.old)) };

    /// Makes ready to halt and to tell by this configuration, the first one.
    ///
    /// # Errors
    ///
    /// [`AllocError`] if memory cannot be allocated.
    fn ready(&mut self, config: &MonConfig) -> Result<(), AllocError>
        ensures ok { OnOk result (log self.new ≡ does (Readied (halt_of config.now)) (log self.old)) }
        ensures err { OnErr result (log self.new ≡ log self.old) };

    /// Is shown a notice of this monitor before anybody is told of it.
    fn note(&mut self, monitor: &Monitor, notice: Notice)
        ensures { log self.new ≡ log self.old };

    /// Prints the text of a notice of this monitor as a line.
    fn print(&mut self, monitor: &Monitor, notice: Notice)
        ensures { IfTold (log self.new) (does (Printed (text_of monitor.now.config notice)) (log self.old)) };

    /// Runs NOTIFYCMD, if one is set, with a notice of this monitor and its text.
    fn call(&mut self, monitor: &Monitor, notice: Notice)
        ensures { IfTold (log self.new) (does (Called notice (text_of monitor.now.config notice)) (log self.old)) };

    /// Is told that a second has passed. If another configuration can be taken up in place of this monitor's, returns what
    /// its watch begins with, and has made ready to halt by it.
    fn second(&mut self, monitor: &Monitor) -> Option<Beginning>
        ensures may { IfSome result (λ next. MayReload monitor.now next.monitor.config) }
        ensures next { IfSome result (λ next. log self.new ≡ does (Readied (halt_of next.monitor.config)) (log self.old)) }
        ensures none { IfNone result (log self.new ≡ log self.old) };

    /// Halts by the configuration that was readied last, from now on.
    fn change(&mut self)
        ensures { IfTold (log self.new) (does Changed (log self.old)) };

    /// Tries to set POWERDOWNFLAG.
    ///
    /// # Errors
    ///
    /// Why it isn't set, which was reported.
    fn set_flag(&mut self) -> Result<(), FlagFault>
        ensures { IfTold (log self.new) (does TriedFlag (log self.old)) };

    /// Runs SHUTDOWNCMD, and waits for its end.
    ///
    /// # Errors
    ///
    /// Why the machine wasn't halted.
    fn run_shutdown(&mut self) -> Result<(), HaltFault>
        ensures { IfTold (log self.new) (does RanShutdown (log self.old)) };
}
