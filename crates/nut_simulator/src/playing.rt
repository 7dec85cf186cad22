//! Plays a schedule, line by line.

use crate::fault::NutsimFault;
use crate::news::write_news;
use crate::progress::Progress;
use nut_play::{Fleet, FleetFault, Step, StepFault, read_step};
use nut_program::{Failure, FileFault};
use nut_words::{Line, LineCutter};
use std::alloc::Global;
use std::io::{BufRead, BufWriter, Write};
use std::slice;

/// Why the playing of a schedule stops before its end.
#[derive(Clone, Copy)]
enum Stop {
    /// The line with this number isn't a step that fits the room.
    BadStep(u64),
    /// Memory could not be allocated.
    Memory,
    /// The schedule cannot be read.
    Input,
    /// The news cannot be written.
    Output,
}

/// A room, and what its news are written to.
#[derive(Drop)]
struct Playing<'a, O, E> {
    fleet: &'a mut Fleet,
    alloc: Global,
    /// The number of lines of the schedule that were begun.
    number: u64,
    out: &'a mut O,
    progress: Progress<'a, E>,
}

/// Plays the lines of a schedule, and writes their news. Before it returns a fault, it has written the news of the
/// steps before that.
pub fn play_schedule<'a, R: BufRead, O: Write, E: Write>(
    alloc: Global,
    fleet: &mut Fleet,
    path: &'a str,
    schedule: &mut R,
    out: &mut O,
    err: &mut E,
    is_terminal: bool,
) -> Result<(), Failure<NutsimFault<'a>>> {
    let mut out = BufWriter::new(alloc, out)?;
    match play_and_flush(alloc, fleet, schedule, &mut out, err, is_terminal) {
        Ok(()) => Ok(()),
        Err(Stop::BadStep(number)) => Err(Failure::Own(NutsimFault::BadStep(path, number))),
        Err(Stop::Memory) => Err(Failure::Memory),
        Err(Stop::Input) => Err(Failure::from(FileFault::CannotRead(path, None))),
        Err(Stop::Output) => Err(Failure::Io),
    }
}

/// Plays the lines of a schedule in a room, and flushes their news, also after a fault.
fn play_and_flush<R: BufRead, O: Write, E: Write>(
    alloc: Global,
    fleet: &mut Fleet,
    schedule: &mut R,
    out: &mut O,
    err: &mut E,
    is_terminal: bool,
) -> Result<(), Stop> {
    let mut playing = Playing {
        fleet,
        alloc,
        number: 0,
        out,
        progress: Progress::new(err, is_terminal),
    };
    let played = playing.play_lines(schedule);
    playing.progress.clear();
    let is_flushed = playing.out.flush().is_ok();
    played?;
    if is_flushed {
        Ok(())
    } else {
        Err(Stop::Output)
    }
}

impl<'a, O: Write, E: Write> Playing<'a, O, E> {
    /// Plays all lines of a schedule. Bytes after the last line feed are a line, too.
    fn play_lines<R: BufRead>(&mut self, schedule: &mut R) -> Result<(), Stop> {
        let mut cutter = LineCutter::new();
        let mut is_line_open = false;
        for _ in 0..u64::MAX {
            let Ok(piece) = schedule.fill_buf() else {
                return Err(Stop::Input);
            };
            let Some(last) = piece.last() else {
                break;
            };
            is_line_open = *last != b'\n';
            let length = piece.len();
            self.play_piece(&mut cutter, piece)?;
            schedule.consume(length);
        }
        if is_line_open {
            self.play_piece(&mut cutter, b"\n")?;
        }
        Ok(())
    }

    /// Plays the lines that a piece of the schedule completes.
    fn play_piece(&mut self, cutter: &mut LineCutter, piece: &[u8]) -> Result<(), Stop> {
        let mut left = piece;
        while !left.is_empty() {
            let (line, used) = cutter.feed(left);
            if let Some(line) = line {
                self.play_line(line)?;
            }
            left = &left[used..];
        }
        Ok(())
    }

    /// Plays the step of a line, and writes its news and, if that is due, how far the schedule has been played.
    fn play_line(&mut self, line: Line<'_>) -> Result<(), Stop> {
        self.number = self.number.saturating_add(1);
        let Line::Text(text) = line else {
            return Err(Stop::BadStep(self.number));
        };
        let step = match read_step(self.alloc, text) {
            Ok(step) => step,
            Err(StepFault::BadStep) => return Err(Stop::BadStep(self.number)),
            Err(StepFault::Memory) => return Err(Stop::Memory),
        };
        self.play(step)?;
        if self.progress.is_due(self.number) {
            if self.out.flush().is_err() {
                return Err(Stop::Output);
            }
            self.progress.show(self.number);
        }
        Ok(())
    }

    /// Plays a step and writes its news.
    fn play(&mut self, step: Step) -> Result<(), Stop> {
        let log = match self.fleet.play(slice::from_ref(&step)) {
            Ok(log) => log,
            Err(FleetFault::BadStep(_)) => return Err(Stop::BadStep(self.number)),
            Err(FleetFault::Memory(_) | FleetFault::Failed) => return Err(Stop::Memory),
        };
        for logged in log.as_slice() {
            self.progress.clear();
            if write_news(self.out, self.fleet, self.number, logged).is_err() {
                return Err(Stop::Output);
            }
        }
        Ok(())
    }
}
