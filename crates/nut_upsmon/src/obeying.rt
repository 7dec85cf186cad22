//! The process that halts the machine, while another one, without its rights, watches.

ghost use Rattle.std.specs.Prelude.{None};

use crate::halt::{HaltFault, PreparedHalt, UnreadyFault, halt_heap};
use crate::power_down_flag::clear_left_flag;
use crate::upsmon_fault::UpsmonFault;
use arrayvec::ArrayVec;
use linked_list_allocator::LocalHeap;
use nut_conf::MonConfig;
use nut_halter::{Halter, Order, Orders, obey};
use nut_log::{Level, Lines};
use nut_poll::{ErrorLines, LossyLines, OutputLines};
use nut_program::{Failure, Streams, SystemFiles, read_conf};
use std::alloc::{AllocError, Global};
use std::io::{ErrorKind, Read, Write};
use std::mem;
use std::process::Processes;
use std::rt::Files;
use std::time::Clock;

/// More bytes than the longest order has.
const ORDER_MAX: usize = 16;

/// Prepares the halt that upsmon.conf in this folder sets, and carries it out once `input` orders it. Returns the exit
/// status, which is 0.
///
/// # Errors
///
/// `NoWatch` if the input ends before.
pub fn obey_input<R, I: Read>(
    rt: &R,
    alloc: Global,
    folder: &str,
    input: &mut I,
    streams: Streams,
    err: &mut ErrorLines,
) -> Result<u8, Failure<UpsmonFault>>
where
    R: Files + Clock + Processes,
{
    let config: MonConfig = read_conf(&mut SystemFiles::new(rt), alloc, folder)?;
    // before anything that memory or descriptors may be lacking for
    clear_left_flag(rt, alloc, &config, err)?;
    let heap = halt_heap(alloc);
    let mut machine = HaltedMachine::new(rt, alloc, folder, &heap, config, streams)?;
    match obey(&mut Input { input }, &mut machine) {
        Some(Ok(())) => Ok(0),
        Some(Err(fault)) => Err(Failure::from(fault)),
        None => Err(Failure::Own(UpsmonFault::NoWatch)),
    }
}

/// Where orders are read.
#[derive(Drop)]
struct Input<'i, I> {
    input: &'i mut I,
}

impl<'i, I: Read> Orders for Input<'i, I> {
    ghost given = { λ i. None };

    /// Reads the next order. Other lines are passed over. An input that can't be read has ended.
    fn next(&mut self) -> Option<Order> {
        let mut line: ArrayVec<u8, ORDER_MAX> = ArrayVec::new();
        for _ in 0..u64::MAX {
            let byte = next_byte(self.input)?;
            if byte != b'\n' {
                if !line.is_full() {
                    line.push(byte);
                }
                continue;
            }
            let order = Order::of(&line);
            if order.is_some() {
                return order;
            }
            line.clear();
        }
        None
    }
}

/// The machine that is halted by orders.
#[derive(Drop)]
struct HaltedMachine<'r, R: Files + Processes> {
    rt: &'r R,
    alloc: Global,
    folder: &'r str,
    heap: &'r Option<LocalHeap>,
    config: MonConfig,
    halt: PreparedHalt<'r, 'r, R>,
    out: OutputLines,
    err: ErrorLines,
    /// Whether a changed upsmon.conf couldn't be taken up yet.
    is_late: bool,
}

impl<'r, R: Files + Processes + Clock> HaltedMachine<'r, R> {
    /// Prepares the halt of this configuration, with the memory of `heap`.
    ///
    /// # Errors
    ///
    /// [`AllocError`] if memory cannot be allocated.
    fn new(
        rt: &'r R,
        alloc: Global,
        folder: &'r str,
        heap: &'r Option<LocalHeap>,
        config: MonConfig,
        streams: Streams,
    ) -> Result<HaltedMachine<'r, R>, AllocError> {
        let mut err = LossyLines::new(streams.err);
        let mut halt = PreparedHalt::new(rt, alloc, heap, &config)?;
        halt.begin(&config, &mut err);
        Ok(HaltedMachine {
            rt,
            alloc,
            folder,
            heap,
            config,
            halt,
            out: LossyLines::new(streams.out),
            err,
            is_late: false,
        })
    }

    /// Prepares the halt of a changed upsmon.conf, and then gives up that of the former one. If that fails, nothing has
    /// changed.
    fn try_take_up(&mut self) -> Result<(), UnreadyFault> {
        let changed: MonConfig = read_conf(
            &mut SystemFiles::new(self.rt),
            self.alloc,
            self.folder,
        )?;
        let next = PreparedHalt::changed(self.rt, self.alloc, self.heap, &changed)?;
        next.ready_changed_flag(&self.config, &changed, &mut self.err);
        drop(mem::replace(&mut self.config, changed));
        let former = mem::replace(&mut self.halt, next);
        if let Some(mut shell) = former.give_up() {
            // It has run nothing: it waits, or was stopped.
            let _ = shell.kill();
            let _ = shell.wait();
        }
        Ok(())
    }
}

impl<'r, R: Files + Processes + Clock> Halter for HaltedMachine<'r, R> {
    type Halted = Result<(), HaltFault>;

    ghost log = { λ m. None };

    fn second(&mut self) {
        self.halt.second(&mut self.err);
        if self.is_late {
            self.is_late = self.try_take_up().is_err();
        }
    }

    fn take_up(&mut self) {
        let taken = self.try_take_up();
        self.is_late = taken.is_err();
        if let Err(fault) = taken {
            let _ = writeln!(
                self.err.begin(Level::Warning),
                "the halt is still that of the earlier upsmon.conf; the changed one is tried each second: {fault}"
            );
        }
    }

    fn set_flag(&mut self) {
        let _ = self.halt.set_flag(&mut self.err);
    }

    fn run_shutdown(&mut self) -> Result<(), HaltFault> {
        self.halt.run(&mut self.out, &mut self.err)
    }
}

/// Reads a byte. Returns none if the input has ended, or can't be read.
fn next_byte<I: Read>(input: &mut I) -> Option<u8> {
    let mut byte = [0; 1];
    for _ in 0..u64::MAX {
        match input.read(&mut byte) {
            Ok(0) => return None,
            Ok(_) => return Some(byte[0]),
            Err(error) if error.kind() == ErrorKind::Interrupted => {}
            Err(_) => return None,
        }
    }
    None
}
