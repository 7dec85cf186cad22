//! Halting the machine.

use crate::power_down_flag::{FlagFault, PowerDownFlag};
use crate::shutdown_command::ShutdownCommand;
use linked_list_allocator::LocalHeap;
use nut_conf::MonConfig;
use nut_poll::{ErrorLines, OutputLines, text_of};
use nut_program::FileFault;
use std::alloc::{AllocError, Global};
use std::process::{Child, ExitStatus, Processes};
use std::rt::Files;
use std::time::Clock;
use std::{fmt, io};

/// The number of bytes that are reserved for starting the shell of SHUTDOWNCMD: for its words, of which there are two
/// sets while upsmon.conf is taken up anew, and for a copy of an environment of up to 300 KiB, which takes up to three
/// times that while it grows.
const HEAP: usize = 1 << 20;

/// Why SHUTDOWNCMD didn't halt the machine.
#[derive(Drop)]
pub enum HaltFault {
    /// It cannot be started.
    NotStarted(io::Error),
    /// It cannot be waited for.
    NotWaited(io::Error),
    /// It ended with a status other than 0, or by a signal.
    Ended(ExitStatus),
    /// The process with this number, which is to run it, takes no order.
    NotOrdered(u32),
}

impl fmt::Display for HaltFault {
    fn fmt<W: fmt::Write>(&self, f: &mut fmt::Formatter<W>) -> fmt::Result {
        match self {
            HaltFault::NotStarted(error) => write!(f, "SHUTDOWNCMD cannot be started: {error}"),
            HaltFault::NotWaited(error) => write!(
                f,
                "cannot wait for SHUTDOWNCMD, result unknown: {error}"
            ),
            HaltFault::Ended(status) => match status.code() {
                Some(code) => write!(f, "SHUTDOWNCMD ended with status {code}"),
                None => write!(f, "SHUTDOWNCMD ended by a {status}"),
            },
            HaltFault::NotOrdered(halter) => {
                write!(f, "process {halter} takes no order to run SHUTDOWNCMD")
            }
        }
    }
}

/// Why the halt of a changed upsmon.conf can't be prepared.
#[derive(Drop)]
pub enum UnreadyFault {
    /// The file gives no configuration, or memory could not be allocated.
    File(FileFault<'static>),
    /// The shell that is to run its SHUTDOWNCMD cannot be started.
    NotStarted(io::Error),
}

impl fmt::Display for UnreadyFault {
    fn fmt<W: fmt::Write>(&self, f: &mut fmt::Formatter<W>) -> fmt::Result {
        match self {
            UnreadyFault::File(fault) => write!(f, "{fault}"),
            UnreadyFault::NotStarted(error) => write!(f, "SHUTDOWNCMD cannot be started: {error}"),
        }
    }
}

impl From<AllocError> for UnreadyFault {
    fn from(_: AllocError) -> Self {
        UnreadyFault::File(FileFault::Memory)
    }
}

impl From<FileFault<'static>> for UnreadyFault {
    fn from(fault: FileFault<'static>) -> Self {
        UnreadyFault::File(fault)
    }
}

impl From<io::Error> for UnreadyFault {
    fn from(error: io::Error) -> Self {
        UnreadyFault::NotStarted(error)
    }
}

/// Reserves the memory that a [`PreparedHalt`] takes when it is made ready or carried out. None if there is too little.
pub fn halt_heap(alloc: Global) -> Option<LocalHeap> {
    LocalHeap::new(alloc, HEAP).ok()
}

/// The steps that halt the machine, prepared before they are needed: carrying them out allocates nothing. If
/// SHUTDOWNCMD's shell has been ended meanwhile, starting another one takes the heap's memory, and some small blocks
/// that the C library needs to start a process.
pub struct PreparedHalt<'r, 'h, R: Files + Processes> {
    rt: &'r R,
    flag: Option<PowerDownFlag>,
    command: Option<ShutdownCommand<'r, 'h, R>>,
}

// A derived drop would be followed with those of its parts wherever a halt may be dropped.
impl<'r, 'h, R: Files + Processes> Drop for PreparedHalt<'r, 'h, R> {
    fn drop(self) {
        let PreparedHalt {
            rt: _,
            flag: _flag,
            command: _command,
        } = self;
    }
}

impl<'r, 'h, R: Files + Processes + Clock> PreparedHalt<'r, 'h, R> {
    /// Returns the steps that upsmon.conf sets, with memory of this heap. The shell that will run SHUTDOWNCMD isn't started.
    ///
    /// # Errors
    ///
    /// [`AllocError`] if there is no heap, or memory cannot be allocated.
    pub fn new(
        rt: &'r R,
        alloc: Global,
        heap: &'h Option<LocalHeap>,
        config: &MonConfig,
    ) -> Result<PreparedHalt<'r, 'h, R>, AllocError> {
        let Some(heap) = heap else {
            return Err(AllocError);
        };
        let command = match &config.shutdown_cmd {
            Some(command) => {
                let text = text_of(command.as_bytes());
                Some(ShutdownCommand::new(rt, heap, text)?)
            }
            None => None,
        };
        Ok(PreparedHalt {
            rt,
            flag: PowerDownFlag::of(alloc, config)?,
            command,
        })
    }

    /// Returns the steps that a changed upsmon.conf sets, as [`PreparedHalt::new`] does. The shell that will run its
    /// SHUTDOWNCMD is started.
    ///
    /// # Errors
    ///
    /// A lack of memory, or that of the system if the shell cannot be started.
    pub fn changed(
        rt: &'r R,
        alloc: Global,
        heap: &'h Option<LocalHeap>,
        config: &MonConfig,
    ) -> Result<PreparedHalt<'r, 'h, R>, UnreadyFault> {
        let mut halt = PreparedHalt::new(rt, alloc, heap, config)?;
        if let Some(command) = &mut halt.command {
            command.start_shell()?;
        }
        Ok(halt)
    }

    /// Gets ready for this configuration, the first one: writes the new file of POWERDOWNFLAG, and starts the shell that will
    /// run SHUTDOWNCMD. Why one of these fails is written to `err`. The file is tried again at the halt, and the shell each
    /// second.
    pub fn begin(&mut self, config: &MonConfig, err: &mut ErrorLines) {
        if let Some(flag) = &self.flag {
            flag.make_ready(self.rt, config, err);
        }
        if let Some(command) = &mut self.command
            && let Err(error) = command.start_shell()
        {
            command.tell_not_ready(&error, err);
        }
    }

    /// Writes the new file of POWERDOWNFLAG for this configuration, which was changed since the former one. If it names another
    /// flag, one that an earlier shutdown left there is removed before. Its new file is written anew in any case, so that an
    /// operator sees whether what was told of it is mended.
    pub fn ready_changed_flag(&self, former: &MonConfig, config: &MonConfig, err: &mut ErrorLines) {
        let Some(flag) = &self.flag else {
            return;
        };
        if former.power_down_flag != config.power_down_flag {
            flag.clear(self.rt, err);
        }
        flag.make_ready(self.rt, config, err);
    }

    /// Looks after the shell that waits to run SHUTDOWNCMD, once a second.
    pub fn second(&mut self, err: &mut ErrorLines) {
        if let Some(command) = &mut self.command {
            command.second(err);
        }
    }

    /// Gives the halt up. Returns the shell that was to run SHUTDOWNCMD, if there is one: it ends and runs nothing.
    pub fn give_up(mut self) -> Option<Child<R::Started>> {
        let shell = match &mut self.command {
            Some(command) => command.give_up(),
            None => None,
        };
        drop(self);
        shell
    }

    /// Sets POWERDOWNFLAG if there is one.
    ///
    /// # Errors
    ///
    /// Why it cannot be set, which is written to `err`.
    pub fn set_flag(&self, err: &mut ErrorLines) -> Result<(), FlagFault> {
        let Some(flag) = &self.flag else {
            return Ok(());
        };
        let set = flag.set(self.rt);
        if let Err(fault) = &set {
            flag.tell(fault, err);
        }
        set
    }

    /// Runs SHUTDOWNCMD, if there is one, and waits for it, as [`ShutdownCommand::run`] does.
    ///
    /// # Errors
    ///
    /// The reason if SHUTDOWNCMD cannot be started or waited for, or ends with a status other than 0.
    pub fn run(&mut self, out: &mut OutputLines, err: &mut ErrorLines) -> Result<(), HaltFault> {
        match &mut self.command {
            Some(command) => command.run(out, err),
            None => Ok(()),
        }
    }
}
