//! Whether the UPSes of a machine say LB early enough for it to stop.

use crate::stopping::Stopping;
use nut_conf::MonConfig;
use nut_log::{Level, Lines};
use nut_monitor_sockets::{ANSWER_ON_BATTERY, LATE_ANSWERS};
use nut_poll::{ErrorLines, Program, Question, Questions, text_of};
use std::alloc::{AllocError, Global};
use std::io::Write;
use std::process::{OpenProcess, Processes};
use std::time::{Clock, Duration};
use std::{str, thread};

/// The variable that says from how many seconds of battery on a UPS reports LB.
const LOW_RUNTIME: &str = "battery.runtime.low";

/// How much of an answer is read: more digits than any number of seconds has.
const ANSWER_MAX: usize = 64;

/// How many seconds a check may take.
const CHECK_MAX: u8 = 10;

/// How many milliseconds pass between two steps of a check.
const CHECK_STEP: u64 = 100;

/// How patiently servers are asked. Times are in seconds.
#[derive(Clone, Copy)]
struct Patience {
    /// How many steps are taken a second.
    steps: u8,
    /// How long to wait before each question.
    pause: u8,
    /// How often a server is asked that doesn't answer.
    tries: u8,
    /// Whether it is reported that a server doesn't answer, and that it takes too long for an answer.
    is_told: bool,
}

/// For a check that somebody waits for.
const CHECK: Patience = Patience {
    steps: 10,
    pause: 0,
    tries: 1,
    is_told: true,
};

/// For a monitor that continues meanwhile: its server may start later than it does.
const WATCH: Patience = Patience {
    steps: 1,
    pause: 30,
    tries: 10,
    is_told: false,
};

impl Patience {
    /// Returns how many steps are taken in some seconds.
    fn steps_in(self, seconds: u8) -> u8 {
        seconds.saturating_mul(self.steps)
    }
}

/// A UPS whose server is to be asked.
#[derive(Drop)]
struct AskedUps {
    name: String,
    /// How often its server was asked and didn't answer.
    tries: u8,
    /// The number of its configuration.
    generation: u32,
}

/// Asks for `battery.runtime.low` of each UPS that feeds this machine, and warns if a UPS reports LB later than this
/// machine needs to stop. Each question is a process of its own, `upsc UPS battery.runtime.low`, which is killed once
/// it has taken more than [`ANSWER_ON_BATTERY`] seconds: nobody waits for a server. A check also warns of a server that takes
/// longer, since upsmon gives such a server up while a UPS is on battery.
#[derive(Drop)]
pub struct LowRuntimes<'r, R: Processes> {
    alloc: Global,
    /// How many seconds this machine needs.
    needed: u64,
    patience: Patience,
    /// How many steps pass before the next question.
    pause: u8,
    /// The number of the configuration. An answer about a UPS of an earlier one is let go.
    generation: u32,
    left: Vec<AskedUps>,
    questions: Questions<'r, R, AskedUps>,
}

impl<'r, R: Processes> LowRuntimes<'r, R> {
    /// Returns what a monitor asks with while it watches. It asks for nothing yet.
    pub fn watched(processes: &'r R, alloc: Global) -> LowRuntimes<'r, R> {
        LowRuntimes::none(processes, alloc, WATCH)
    }

    /// Returns what asks for nothing yet.
    fn none(processes: &'r R, alloc: Global, patience: Patience) -> LowRuntimes<'r, R> {
        LowRuntimes {
            alloc,
            needed: 0,
            patience,
            pause: patience.steps_in(patience.pause),
            generation: 0,
            left: Vec::new(alloc),
            questions: Questions::none(processes, alloc, patience.steps_in(ANSWER_ON_BATTERY)),
        }
    }

    /// Asks from now on for each UPS that feeds the machine of this configuration, and for none if it needs no UPS.
    ///
    /// # Errors
    ///
    /// [`AllocError`] if memory for their names cannot be allocated. Nothing has changed then.
    pub fn restart(&mut self, config: &MonConfig) -> Result<(), AllocError> {
        let generation = self.generation.wrapping_add(1);
        self.left = upses_of(self.alloc, config, generation)?;
        self.needed = match Stopping::of(config) {
            Stopping::Within { seconds, .. } => seconds,
            Stopping::Never => 0,
        };
        self.generation = generation;
        self.pause = self.patience.steps_in(self.patience.pause);
        Ok(())
    }

    /// Takes a step: reports an answer that came, kills questions that take too long, and asks the next. Returns whether
    /// another step is needed.
    pub fn step(&mut self, err: &mut ErrorLines) -> bool {
        if let Some(question) = self.questions.take() {
            self.hear(question, err);
        }
        self.questions.step();
        self.ask_next(err);
        !self.left.is_empty() || !self.questions.going().is_empty()
    }

    /// Asks no more, and waits for no answer.
    pub fn end(&mut self) {
        self.patience.tries = 0;
        self.left.clear();
        self.questions.end();
    }

    /// Takes the answer to a question that has ended. A check warns if a server takes longer for it than upsmon waits while a UPS
    /// is on battery.
    fn hear(&mut self, mut question: Question<R::Started, AskedUps>, err: &mut ErrorLines) {
        if self.patience.is_told && question.is_late {
            let _ = writeln!(
                err.begin(Level::Warning),
                "UPS {}: no answer within {ANSWER_ON_BATTERY} s: {LATE_ANSWERS}",
                question.about.name
            );
            return;
        }
        let answer = answer_of(&mut question);
        self.heed(question.about, answer, err);
    }

    /// Warns if a UPS reports LB too late by the answer about it, or asks again if there is none. A UPS of an earlier
    /// configuration is let go.
    fn heed(&mut self, ups: AskedUps, answer: Option<u64>, err: &mut ErrorLines) {
        if ups.generation != self.generation {
            return;
        }
        match answer {
            Some(seconds) if seconds < self.needed => {
                let _ = writeln!(
                    err.begin(Level::Warning),
                    "UPS {}: battery.runtime.low is {seconds} s, but this machine may shut down as late as {} s after OB LB",
                    ups.name,
                    self.needed
                );
            }
            Some(_) => {}
            None => self.ask_again(ups, err),
        }
    }

    /// Has a server asked again, unless it was asked often enough.
    fn ask_again(&mut self, mut ups: AskedUps, err: &mut ErrorLines) {
        ups.tries = ups.tries.saturating_add(1);
        if ups.tries < self.patience.tries {
            let _ = self.left.push(ups);
        } else if self.patience.is_told {
            tell_unknown(&ups, err);
        }
    }

    /// Asks the next question if it is time.
    fn ask_next(&mut self, err: &mut ErrorLines) {
        if self.pause > 0 {
            self.pause -= 1;
            return;
        }
        if self.left.is_empty() || !self.questions.has_room() {
            return;
        }
        self.pause = self.patience.steps_in(self.patience.pause);
        let ups = self.left.remove(0);
        let asked = match Program::new(self.alloc, "upsc", &[ups.name.as_str(), LOW_RUNTIME]) {
            Ok(upsc) => self.questions.start(upsc, ups),
            Err(AllocError) => Err(ups),
        };
        if let Err(ups) = asked {
            self.ask_again(ups, err);
        }
    }
}

/// Asks once for each UPS that feeds the machine of a configuration, waits for the answers, at most ten seconds in all,
/// and warns of each UPS that says LB too late or isn't known, or whose server takes too long.
///
/// # Errors
///
/// [`AllocError`] if memory for their names cannot be allocated.
pub fn check_low_runtimes<R: Processes + Clock>(
    rt: &R,
    alloc: Global,
    config: &MonConfig,
    err: &mut ErrorLines,
) -> Result<(), AllocError> {
    let mut runtimes = LowRuntimes::none(rt, alloc, CHECK);
    let asked = runtimes.restart(config);
    if asked.is_ok() {
        ask_all(rt, &mut runtimes, err);
    }
    asked
}

/// Asks for each of these, waits for the answers, and warns by them.
fn ask_all<R: Processes>(
    clock: &impl Clock,
    runtimes: &mut LowRuntimes<'_, R>,
    err: &mut ErrorLines,
) {
    for _ in 0..CHECK.steps_in(CHECK_MAX) {
        if !runtimes.step(err) {
            break;
        }
        thread::sleep(clock, Duration::from_millis(CHECK_STEP));
    }
    for question in runtimes.questions.going() {
        tell_unknown(&question.about, err);
    }
    for ups in runtimes.left.iter() {
        tell_unknown(ups, err);
    }
    runtimes.end();
}

/// Reports that a UPS isn't known to say LB early enough.
fn tell_unknown(ups: &AskedUps, err: &mut ErrorLines) {
    let _ = writeln!(
        err.begin(Level::Warning),
        "UPS {}: battery.runtime.low is unknown",
        ups.name
    );
}

/// Returns the UPSes that feed the machine of a configuration, and none if it needs no UPS.
fn upses_of(
    alloc: Global,
    config: &MonConfig,
    generation: u32,
) -> Result<Vec<AskedUps>, AllocError> {
    let mut upses = Vec::new(alloc);
    for line in &config.monitors.lines {
        if line.power.value > 0 && config.min_supplies.value > 0 {
            upses.push(AskedUps {
                name: String::from_str(alloc, text_of(&line.written))?,
                tries: 0,
                generation,
            })?;
        }
    }
    Ok(upses)
}

/// Returns the whole seconds of what the process printed: a number such as `120` or `120.5`, with a line feed after it. `None`
/// unless it ended with status 0.
fn answer_of<P: OpenProcess>(question: &mut Question<P, AskedUps>) -> Option<u64> {
    let mut answer = [0; ANSWER_MAX];
    let printed = question.answer(&mut answer)?;
    let digits = printed.split(|byte| matches!(*byte, b'.' | b'\n')).next()?;
    str::from_utf8(digits).ok()?.parse().ok()
}
