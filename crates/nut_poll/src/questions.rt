//! Questions to other programs, which nobody waits for.

ghost use Rattle.std.specs.Prelude.{◌≡◌, ◌<◌, ◌≤◌, ◌+◌, max, true, vec_len, IsSome};

use crate::shell::shell_command;
use std::alloc::{AllocError, Global};
use std::io::Read;
use std::process::{Child, Command, OpenProcess, Processes, Stdio};

/// The greatest number of questions at a time.
const QUESTIONS_MAX: usize = 8;

/// The script by which the shell becomes the program that is asked. It prints a byte first, so the pipe holds one however
/// little the program prints. A read of an empty pipe waits for as long as any other process holds its end.
const ASK: &str = "echo; exec \"$@\"";

/// A program to ask, with its arguments.
#[derive(Drop)]
pub struct Program {
    command: Command<Global>,
}

impl Program {
    /// Returns the program of this name, which is looked for on PATH when it is started, with these arguments.
    ///
    /// # Errors
    ///
    /// [`AllocError`] if memory cannot be allocated.
    pub fn new(alloc: Global, name: &str, arguments: &[&str]) -> Result<Program, AllocError> {
        let mut command = shell_command(alloc, ASK, name)?;
        for argument in arguments {
            command.arg(argument)?;
        }
        command.stdout(Stdio::piped()).stderr(Stdio::null());
        Ok(Program { command })
    }
}

/// A question: a process that prints the answer and ends.
#[derive(Drop)]
pub struct Question<P: OpenProcess, T> {
    /// What is asked about.
    pub about: T,
    child: Child<P>,
    /// How many steps it has taken.
    age: u8,
    /// Whether it was killed because it took too long.
    pub is_late: bool,
}

/// Questions that aren't answered yet. Each is a process of its own, because a process can be killed, and a call of
/// a library that waits for a network can't be given up.
#[derive(Drop)]
pub struct Questions<'r, R: Processes, T> {
    processes: &'r R,
    /// How many steps a question may take.
    patience: u8,
    going: Vec<Question<R::Started, T>>,
}

impl<'r, R: Processes, T: Drop> Questions<'r, R, T> {
    /// Returns an empty set of questions, each of which may take this many steps.
    pub fn none(processes: &'r R, alloc: Global, patience: u8) -> Questions<'r, R, T> {
        Questions {
            processes,
            patience,
            going: Vec::new(alloc),
        }
    }

    /// The questions that aren't answered yet.
    pub fn going(&self) -> &[Question<R::Started, T>] {
        &self.going
    }

    /// Whether another question may begin.
    pub fn has_room(&self) -> bool
        ensures { result ≡ true → vec_len self.now.going < QUESTIONS_MAX }
    {
        self.going.len() < QUESTIONS_MAX
    }

    /// Begins a question: starts the program.
    ///
    /// # Errors
    ///
    /// Gives back what was to be asked about if there is no room, the process can't be started or memory cannot be
    /// allocated.
    pub fn start(&mut self, mut program: Program, about: T) -> Result<(), T>
        ensures { vec_len self.new.going ≤ max (vec_len self.old.going) QUESTIONS_MAX }
    {
        let child = self.spawn(&mut program);
        // dropped by a call, which keeps the proof of this function short
        drop(program);
        match child {
            Some(child) => {
                self.add(child, about);
                Ok(())
            }
            None => Err(about),
        }
    }

    /// Starts the process of a question, if there is room and memory for the question.
    fn spawn(&mut self, program: &mut Program) -> Option<Child<R::Started>>
        ensures same { vec_len self.new.going ≡ vec_len self.old.going }
        ensures room { IsSome result → vec_len self.old.going < QUESTIONS_MAX }
    {
        if !self.has_room() {
            return None;
        }
        self.going.reserve(1).ok()?;
        program.command.spawn(self.processes).ok()
    }

    /// Adds a question that has begun.
    fn add(&mut self, child: Child<R::Started>, about: T)
        ensures { vec_len self.new.going ≤ vec_len self.old.going + 1 }
    {
        let _ = self.going.push(Question {
            about,
            child,
            age: 0,
            is_late: false,
        });
    }

    /// Counts a step, and kills the questions that take too long.
    pub fn step(&mut self) {
        for question in self.going.iter_mut() {
            question.age = question.age.saturating_add(1);
            if question.age > self.patience {
                question.is_late = true;
                let _ = question.child.kill();
            }
        }
    }

    /// Kills all questions.
    pub fn end(&mut self) {
        for question in self.going.iter_mut() {
            let _ = question.child.kill();
        }
    }

    /// Takes a question that has ended, if one has.
    pub fn take(&mut self) -> Option<Question<R::Started, T>> {
        let mut going = self.going.iter_mut();
        let at = going.position(|question| !matches!(question.child.try_wait(), Ok(None)))?;
        if self.going.len() <= at {
            return None;
        }
        Some(self.going.swap_remove(at))
    }
}

impl<P: OpenProcess, T> Question<P, T> {
    /// Whether the shell that began this question found no program that it could run in its place: it ended with status 126
    /// or 127.
    pub fn is_unasked(&mut self) -> bool {
        match self.child.try_wait() {
            Ok(Some(status)) => matches!(status.code(), Some(126 | 127)),
            Ok(None) | Err(_) => false,
        }
    }

    /// Reads the answer of a question that has ended: the bytes that the program printed, as far as this buffer has room
    /// for them behind the byte of the shell. There is none if the program failed.
    ///
    /// A program that has ended prints nothing more. One read takes what the pipe holds, and doesn't wait, because the
    /// pipe holds at least the byte of the shell.
    pub fn answer<'b>(&mut self, buffer: &'b mut [u8]) -> Option<&'b [u8]> {
        let Ok(Some(status)) = self.child.try_wait() else {
            return None;
        };
        if !status.success() {
            return None;
        }
        let output = self.child.stdout.as_mut()?;
        let length = output.read(buffer).ok()?;
        buffer.get(1..length)
    }
}
