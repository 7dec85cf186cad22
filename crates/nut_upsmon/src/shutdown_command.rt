//! SHUTDOWNCMD, and the shell that waits to run it.

ghost use Rattle.std.specs.Prelude.{OnOk, IsSome};
ghost use Rattle.std.specs.Io.KnownBytes.{Appends};

use crate::halt::HaltFault;
use crate::process_state::{is_running, is_stopped, process_number};
use libc::ECHILD;
use linked_list_allocator::LocalHeap;
use nut_log::{Level, Lines};
use nut_poll::{ErrorLines, Outlet, OutputLines, shell_command, unstopped};
use std::alloc::AllocError;
use std::io::{ErrorKind, Write};
use std::process::{Child, Command, ExitStatus, OpenProcess, Processes, Stdio};
use std::rt::Files;
use std::time::{Clock, Duration};
use std::{io, thread};

/// How often a start of SHUTDOWNCMD that failed is tried again.
const TRIES: u32 = 30;

/// The pause before each of these, in seconds.
const PAUSE: u64 = 1;

/// How often it is looked whether SHUTDOWNCMD has ended or is stopped, before only its end is waited for.
const LOOKS: u32 = 50;

/// The pause between these, in milliseconds. So a shell that stays stopped for five seconds is given up.
const LOOK_PAUSE: u64 = 100;

/// The script of the shell: it waits for a line, and then becomes SHUTDOWNCMD, which is its first argument. A stream that
/// the line names is /dev/null from then on. If the shell's input ends without a line, as when upsmon ends, it ends and
/// runs nothing.
///
/// SHUTDOWNCMD runs even if /dev/null can't be opened: such a stream is closed then. Standard error is closed before, so
/// that the shell doesn't say what it can't open on a stream that takes nothing.
const SCRIPT: &str = unstopped!(
    "read -r full && { \
    case $full in *err*) exec 2>&-; command exec 2> /dev/null ;; esac; \
    case $full in *out*) exec >&-; command exec > /dev/null ;; esac; \
    command exec /bin/sh -c \"$1\" < /dev/null || exec /bin/sh -c \"$1\" <&-; }"
);

/// The script of the shell that continues a process, whose number is its first argument.
const CONTINUE: &str = unstopped!("kill -CONT \"$1\"");

/// What was told last of the shell that waits to run SHUTDOWNCMD.
#[derive(Clone, Copy, PartialEq, Eq)]
enum ShellState {
    /// That it waits, or nothing.
    Waits,
    /// That a signal, for example SIGSTOP, has stopped it: it would run nothing.
    Stopped,
    /// That it can't be started.
    Gone,
}

/// SHUTDOWNCMD, run by a shell that was started before. So the machine can be halted even if no process can be started
/// any more, for example for lack of memory.
pub struct ShutdownCommand<'r, 'h, R: Files + Processes> {
    rt: &'r R,
    heap: &'h LocalHeap,
    command: Command<&'h LocalHeap>,
    /// The shell that waits or runs the command, if one was started.
    shell: Option<Child<R::Started>>,
    /// The file in which the system tells whether that shell is stopped, if it is open.
    state: Option<R::File>,
    /// The shell that was last started to continue that one. It ends by itself.
    waker: Option<Child<R::Started>>,
    told: ShellState,
}

// A derived drop would be followed with those of its parts wherever a command may be dropped.
impl<'r, 'h, R: Files + Processes> Drop for ShutdownCommand<'r, 'h, R> {
    fn drop(self) {
        let ShutdownCommand {
            rt: _,
            heap: _,
            command: _command,
            shell: _shell,
            state: _state,
            waker: _waker,
            told: _,
        } = self;
    }
}

impl<'r, 'h, R: Files + Processes + Clock> ShutdownCommand<'r, 'h, R> {
    /// Makes the command with this text. No shell waits to run it yet.
    ///
    /// # Errors
    ///
    /// [`AllocError`] if memory cannot be allocated.
    pub fn new(
        rt: &'r R,
        heap: &'h LocalHeap,
        text: &str,
    ) -> Result<ShutdownCommand<'r, 'h, R>, AllocError> {
        let mut command = shell_command(heap, SCRIPT, text)?;
        command.stdin(Stdio::piped());
        Ok(ShutdownCommand {
            rt,
            heap,
            command,
            shell: None,
            state: None,
            waker: None,
            told: ShellState::Waits,
        })
    }

    /// Starts the shell that waits.
    ///
    /// # Errors
    ///
    /// That of the system if it cannot be started.
    pub fn start_shell(&mut self) -> io::Result<()> {
        self.shell = Some(self.command.spawn(self.rt)?);
        self.state = None;
        Ok(())
    }

    /// Looks after the shell that waits, once a second. One that a signal has stopped is continued, and in the place of one
    /// that was ended another is started. What was found is written to `err`, once for as long as it lasts.
    pub fn second(&mut self, err: &mut ErrorLines) {
        forget_ended(&mut self.waker);
        forget_ended(&mut self.shell);
        if self.shell.is_none() {
            match self.start_shell() {
                Ok(()) => {
                    let _ = writeln!(
                        err.begin(Level::Warning),
                        "SHUTDOWNCMD's shell was missing (killed or not started); replaced"
                    );
                }
                Err(error) => self.tell_not_ready(&error, err),
            }
        } else if self.is_stopped() {
            if self.told != ShellState::Stopped {
                self.told = ShellState::Stopped;
                let _ = writeln!(
                    err.begin(Level::Warning),
                    "SHUTDOWNCMD's shell is suspended; sending SIGCONT"
                );
            }
            self.wake();
        } else {
            self.told = ShellState::Waits;
        }
    }

    /// Reports why the shell that waits can't be started, once for as long as that lasts.
    pub fn tell_not_ready(&mut self, error: &io::Error, err: &mut ErrorLines) {
        if self.told != ShellState::Gone {
            self.told = ShellState::Gone;
            let _ = writeln!(
                err.begin(Level::Warning),
                "cannot start SHUTDOWNCMD's shell yet: {error}"
            );
        }
    }

    /// Gives the command up. Returns the shell that waits, if there is one: it ends and runs nothing, since its input
    /// ends.
    pub fn give_up(&mut self) -> Option<Child<R::Started>> {
        let mut shell = self.shell.take()?;
        shell.stdin = None;
        Some(shell)
    }

    /// Runs the command and waits for it. A start that fails is tried again each second, thirty times. Why a start fails
    /// is written to `err`, unless the try before failed for the same reason. A shell that stays stopped is ended, and another
    /// one runs the command.
    ///
    /// `out` and `err` are what the command has as standard output and standard error. One that takes nothing as the
    /// command starts is /dev/null for it.
    ///
    /// # Errors
    ///
    /// The reason if the command cannot be started or waited for, or ends with a status other than 0.
    pub fn run(&mut self, out: &mut OutputLines, err: &mut ErrorLines) -> Result<(), HaltFault> {
        self.start(out, err)?;
        if !self.keeps_going() {
            if let Some(shell) = &mut self.shell {
                let _ = shell.kill();
            }
            self.shell = None;
            self.try_start(line_of(out, err))
                .map_err(HaltFault::NotStarted)?;
        }
        judge(self.wait(), err)
    }

    /// Starts the command, trying again if that fails.
    fn start(&mut self, out: &mut OutputLines, err: &mut ErrorLines) -> Result<(), HaltFault> {
        let mut told = None;
        for _ in 0..TRIES {
            match self.try_start(line_of(out, err)) {
                Ok(()) => return Ok(()),
                Err(error) => {
                    if told != Some(error.kind()) {
                        told = Some(error.kind());
                        let _ = writeln!(
                            err.begin(Level::Warning),
                            "SHUTDOWNCMD cannot be started yet: {error}; it is tried for {TRIES} seconds"
                        );
                    }
                }
            }
            thread::sleep(self.rt, Duration::from_secs(PAUSE));
        }
        self.try_start(line_of(out, err))
            .map_err(HaltFault::NotStarted)
    }

    /// Makes the waiting shell run the command. Starts another shell for it if there is none, or it was ended meanwhile.
    fn try_start(&mut self, line: &[u8]) -> io::Result<()> {
        if self.start_waiting(line).is_ok() {
            return Ok(());
        }
        self.start_shell()?;
        self.start_waiting(line)
    }

    /// Makes the waiting shell run the command. If it was ended meanwhile, there is none any more.
    fn start_waiting(&mut self, line: &[u8]) -> io::Result<()> {
        let started = match &mut self.shell {
            Some(shell) => release(&mut shell.stdin, line),
            None => Err(io::Error::from(ErrorKind::NotFound)),
        };
        if started.is_err() {
            self.shell = None;
        }
        started
    }

    /// Watches the command for some seconds, unless it ends before, and continues it if a signal has stopped it. Returns
    /// false if it is still stopped after that.
    fn keeps_going(&mut self) -> bool {
        for _ in 0..LOOKS {
            if !self.shell.as_mut().is_some_and(is_running) {
                return true;
            }
            if self.is_stopped() {
                self.wake();
            }
            thread::sleep(self.rt, Duration::from_millis(LOOK_PAUSE));
        }
        !self.is_stopped()
    }

    /// Whether a signal has stopped the shell that waits or runs the command.
    fn is_stopped(&mut self) -> bool {
        match &self.shell {
            Some(shell) => is_stopped(self.rt, shell.id(), &mut self.state),
            None => false,
        }
    }

    /// Sends SIGCONT to the shell that waits or runs the command, by another shell, which isn't waited for. One that was
    /// started for this before and still runs is enough.
    fn wake(&mut self) {
        forget_ended(&mut self.waker);
        if self.waker.is_none()
            && let Some(shell) = &self.shell
            && let Ok(mut waker) = shell_command(
                self.heap,
                CONTINUE,
                process_number(shell.id()).as_str(),
            )
        {
            self.waker = waker.spawn(self.rt).ok();
        }
    }

    /// Waits for the end of the shell that runs the command.
    fn wait(&mut self) -> io::Result<ExitStatus> {
        match &mut self.shell {
            Some(shell) => shell.wait(),
            None => Err(io::Error::from(ErrorKind::NotFound)),
        }
    }
}

/// Forgets a process that has ended.
fn forget_ended<P: OpenProcess + Drop>(process: &mut Option<Child<P>>) {
    if !process.as_mut().is_some_and(is_running) {
        *process = None;
    }
}

/// Returns the line that the shell waits for: it names the standard streams that take nothing at the halt, since nobody
/// reads them. If SHUTDOWNCMD wrote there, it would wait for a reader that has stopped, or be ended by SIGPIPE if the
/// reader is gone, and the machine would stay up.
fn line_of(out: &mut OutputLines, err: &mut ErrorLines) -> &'static [u8] {
    match (out.takes_line(), err.takes_line()) {
        (true, true) => b"\n",
        (false, true) => b"out\n",
        (true, false) => b"err\n",
        (false, false) => b"out err\n",
    }
}

/// Writes the line that a shell waits for.
fn release<W: Write>(input: &mut Option<W>, line: &[u8]) -> io::Result<()>
    ensures { OnOk result (IsSome input.old) }
{
    match input {
        Some(input) => put_line(input, line),
        None => Err(io::Error::from(ErrorKind::BrokenPipe)),
    }
}

/// Writes the line.
fn put_line<W: Write>(input: &mut W, line: &[u8]) -> io::Result<()>
    ensures { OnOk result (Appends (W.contents input.old) (W.contents input.new) line.now) }
{
    input.write_all(line)
}

/// Returns whether a command halted the machine, by how it ended. If whoever started upsmon has it ignore SIGCHLD, the
/// system doesn't tell how: that is written to `err`, and the command counts as one that did, since it has run.
fn judge(ended: io::Result<ExitStatus>, err: &mut ErrorLines) -> Result<(), HaltFault> {
    match ended {
        Ok(status) if status.success() => Ok(()),
        Ok(status) => Err(HaltFault::Ended(status)),
        Err(error) if error.raw_os_error() == Some(ECHILD) => {
            let _ = writeln!(
                err.begin(Level::Warning),
                "SHUTDOWNCMD has run; how it ended isn't known, since SIGCHLD is ignored"
            );
            Ok(())
        }
        Err(error) => Err(HaltFault::NotWaited(error)),
    }
}
