//! Prints a monitor's notices, and runs NOTIFYCMD with them.

use crate::low_runtime::LowRuntimes;
use crate::process_state::is_running;
use crate::shutdown_report::tell_left;
use nut_conf::{MESSAGE_MAX, MonConfig, TARGET_MAX};
use nut_log::{Level, Lines, LogStream};
use nut_monitor::{Monitor, Notice};
use nut_poll::{ErrorLines, LossyLines, OutputLines, shell_command, text_of, unstopped};
use std::alloc::{AllocError, Global};
use std::io;
use std::io::{Stdout, Write};
use std::process::{Child, Command, Processes};

/// What the script of NOTIFYCMD begins with.
const BEGINNING: &str = unstopped!("");

/// What it begins with if standard output is for orders to the process that halts.
const BEGINNING_ASIDE: &str = unstopped!("exec >&2; ");

/// The greatest length of a text in bytes: that of a message, with a target in the place of its `%s`.
const TEXT_MAX: usize = MESSAGE_MAX + TARGET_MAX - 2;

/// The largest number of commands that run at a time.
const RUNNING_MAX: usize = 64;

/// Prints notices, and runs NOTIFYCMD with them.
///
/// A run of the command that can't be started is let go, which is reported, as is a UPS that says LB later than this machine
/// needs to stop.
#[derive(Drop)]
pub struct Notifier<'a, R: Processes> {
    processes: &'a R,
    alloc: Global,
    out: OutputLines,
    text: Vec<u8>,
    /// The script that runs NOTIFYCMD, if that is set: the command with the text of a notice as its last argument. The shell
    /// inserts the text itself, so that no byte of it is read as a command.
    script: Option<String>,
    /// The processes that may not have ended: runs of the command, and others that are waited for with them.
    running: Vec<Child<R::Started>>,
    runtimes: LowRuntimes<'a, R>,
    /// Whether notices go to standard error, as does what NOTIFYCMD writes, since standard output is for orders.
    is_aside: bool,
}

impl<'a, R: Processes> Notifier<'a, R> {
    /// Makes a notifier that prints on `out`, and takes no memory yet. If it `is_aside`, notices are printed on standard error.
    pub fn new(
        processes: &'a R,
        alloc: Global,
        out: LogStream<Stdout>,
        is_aside: bool,
    ) -> Notifier<'a, R> {
        Notifier {
            processes,
            alloc,
            out: LossyLines::new(out),
            text: Vec::new(alloc),
            script: None,
            running: Vec::new(alloc),
            runtimes: LowRuntimes::watched(processes, alloc),
            is_aside,
        }
    }

    /// Gives notices by this configuration from now on. Runs of the command that haven't ended continue. There is room for the
    /// longest text and for as many runs as may be.
    ///
    /// # Errors
    ///
    /// [`AllocError`] if memory cannot be allocated. Nothing has changed then.
    pub fn restart(&mut self, config: &MonConfig) -> Result<(), AllocError> {
        self.text.clear();
        self.text.reserve(TEXT_MAX)?;
        self.running.reserve(RUNNING_MAX)?;
        let script = match &config.notify_cmd {
            Some(command) => {
                let command = text_of(command.as_bytes());
                let beginning = if self.is_aside {
                    BEGINNING_ASIDE
                } else {
                    BEGINNING
                };
                Some(format!(in self.alloc; "{beginning}{command} \"$1\"")?)
            }
            None => None,
        };
        self.runtimes.restart(config)?;
        self.script = script;
        Ok(())
    }

    /// Takes a process that ends by itself, if there is one, and waits for its end as for that of a run of the command.
    pub fn adopt(&mut self, child: Option<Child<R::Started>>) {
        if let Some(child) = child {
            let _ = self.running.push(child);
        }
    }

    /// Returns what it prints on.
    pub fn out(&mut self) -> &mut OutputLines {
        &mut self.out
    }

    /// Prints the text of a notice as a line, which doesn't have the program's name.
    pub fn print(&mut self, monitor: &Monitor, notice: Notice, err: &mut ErrorLines) {
        self.put_text(monitor, notice);
        if self.is_aside {
            print_on(err, &self.text);
        } else {
            print_on(&mut self.out, &self.text);
        }
    }

    /// Runs NOTIFYCMD with a notice, if it is set, and doesn't wait for it. A run that can't be started is reported on `err`, and
    /// so is one that is skipped since as many run as may.
    pub fn call(&mut self, monitor: &Monitor, notice: Notice, err: &mut ErrorLines) {
        self.put_text(monitor, notice);
        let Some(script) = &self.script else {
            return;
        };
        if self.running.len() >= RUNNING_MAX {
            let _ = writeln!(
                err.begin(Level::Warning),
                "NOTIFYCMD skipped: {RUNNING_MAX} still running"
            );
            return;
        }
        match start(
            self.processes,
            self.alloc,
            script.as_str(),
            &self.text,
            monitor,
            notice,
        ) {
            Ok(child) => {
                let _ = self.running.push(child);
            }
            Err(error) => {
                let _ = writeln!(
                    err.begin(Level::Warning),
                    "NOTIFYCMD cannot be started: {error}"
                );
            }
        }
    }

    /// Puts the text of a notice where it is printed from. There is room for the longest.
    fn put_text(&mut self, monitor: &Monitor, notice: Notice) {
        self.text.clear();
        let _ = monitor.notice_text(notice, &mut self.text);
    }

    /// Asks no UPS any more, since a machine that stops needs no warning of LB. Told on `err` is how many other clients are
    /// still logged in.
    pub fn end(&mut self, monitor: &Monitor, err: &mut ErrorLines) {
        self.runtimes.end();
        tell_left(monitor, err);
    }

    /// Forgets the processes that have ended, and continues asking the UPSes. A UPS that says LB too late is reported on `err`.
    pub fn second(&mut self, err: &mut ErrorLines) {
        self.running.retain_mut(is_running);
        let _ = self.runtimes.step(err);
    }
}

/// Prints a text as a line that doesn't have the program's name.
fn print_on<L: Lines>(lines: &mut L, text: &[u8]) {
    let _ = lines.mark(Level::Notice).write_all(text);
    let _ = lines.write_all(b"\n");
}

/// Starts a shell that runs this script with a notice of this monitor, and its text.
///
/// # Errors
///
/// That of the system, or a lack of memory.
fn start<R: Processes>(
    processes: &R,
    alloc: Global,
    script: &str,
    text: &[u8],
    monitor: &Monitor,
    notice: Notice,
) -> io::Result<Child<R::Started>> {
    let mut shell = shell_command(alloc, script, text_of(text))?;
    let mut ups = &[][..];
    if let Some(line) = notice.line
        && let Some(monitored) = monitor.config().monitors.lines.get(line)
    {
        ups = monitored.written.as_slice();
    }
    spawn(processes, &mut shell, notice.kind.word(), ups)
}

/// Starts this shell with the type of a notice and its UPS, which are in its environment.
fn spawn<R: Processes>(
    processes: &R,
    shell: &mut Command<Global>,
    kind: &[u8],
    ups: &[u8],
) -> io::Result<Child<R::Started>> {
    shell.env("NOTIFYTYPE", text_of(kind))?;
    shell.env("UPSNAME", text_of(ups))?;
    shell.spawn(processes)
}
