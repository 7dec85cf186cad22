//! The steps that the lines of a schedule spell.

ghost use Rattle.std.specs.Prelude.{◌≡◌, Err, IsTrue};
ghost use Rattle.std.specs.Option.{ok_or, option_map};
ghost use Rattle.nut_words.specs.Number.{natural};
ghost use Rattle.nut_play.specs.declared.reading.StepFault.{StepFault};
ghost use Rattle.nut_play.specs.Lines.{Gives, form, is_of_driver, meant, one, one_number, said, said_by_driver, takes_memory, three, three_numbers, two, two_numbers};
ghost use Rattle.nut_play.specs.inside.Verbs.{one_form, two_form, three_form};
ghost use Rattle.nut_play.specs.Steps.{step_of};

use crate::limits::STEP_LINE_MAX;
use crate::types::Step;
use crate::verb::Verb;
use nut_words::{WordFault, Words, natural, split};
use std::alloc::Global;
use thiserror::Error;

/// Why a line of a schedule isn't a step.
#[derive(Clone, Copy, Debug, PartialEq, Eq, Error)]
pub enum StepFault {
    /// The line isn't a step: it has more than [`STEP_LINE_MAX`] bytes, it can't be split into words, or its words
    /// don't fit a form.
    #[error("BadStep")]
    BadStep,
    /// Memory could not be allocated.
    #[error("out of memory")]
    Memory,
}

/// A verb with one number behind it.
#[derive(Clone, Copy)]
enum OneNumber {
    Server,
    Up,
    Down,
}

/// A verb with two numbers behind it.
#[derive(Clone, Copy)]
enum TwoNumbers {
    Monitor,
    Link,
    CutServer,
    CutMonitor,
}

/// A verb with three numbers behind it.
#[derive(Clone, Copy)]
enum ThreeNumbers {
    Out,
    Reach,
    Back,
    Land,
}

impl OneNumber {
    /// Returns the step of this verb with this number.
    fn step(self, number: usize) -> Step
        ensures { step_of result ≡ one_form self number }
    {
        match self {
            OneNumber::Server => Step::ServerClock(number as u64),
            OneNumber::Up => Step::Up(number),
            OneNumber::Down => Step::Down(number),
        }
    }
}

impl TwoNumbers {
    /// Returns the step of this verb with these numbers.
    fn step(self, m: usize, i: usize) -> Step
        ensures { step_of result ≡ two_form self m i }
    {
        match self {
            TwoNumbers::Monitor => Step::MonitorClock(m, i as u64),
            TwoNumbers::Link => Step::Link(m, i),
            TwoNumbers::CutServer => Step::CutServer(m, i),
            TwoNumbers::CutMonitor => Step::CutMonitor(m, i),
        }
    }
}

impl ThreeNumbers {
    /// Returns the step of this verb with these numbers.
    fn step(self, m: usize, i: usize, n: usize) -> Step
        ensures { step_of result ≡ three_form self m i n }
    {
        match self {
            ThreeNumbers::Out => Step::Out(m, i, n),
            ThreeNumbers::Reach => Step::Reach(m, i, n),
            ThreeNumbers::Back => Step::Back(m, i, n),
            ThreeNumbers::Land => Step::Land(m, i, n),
        }
    }
}

/// Reads a line of a schedule, without its line feed, as a step. Words are quoted as in the configuration files, and a
/// comment may follow them. A blank line, or one with only a comment, is no step. A number has 1 to 9 digits.
///
/// ```text
/// server T          the server's clock shows T seconds
/// monitor M T       the clock of monitor M shows T seconds
/// up U              the driver of UPS U connects
/// driver U LINE     the driver of UPS U says a line, which is one word here
/// down U            the driver of UPS U disconnects
/// link M I          monitor M makes link I
/// out M I N         up to N bytes go from the monitor into the link's pipe
/// reach M I N       up to N bytes reach the server
/// back M I N        up to N bytes go from the server into the link's pipe
/// land M I N        up to N bytes land at the monitor
/// cut-server M I    the server's end of the link is cut
/// cut-monitor M I   the monitor's end of the link is cut
/// ```
///
/// # Errors
///
/// `BadStep` if the line is none of these. `Memory` if memory cannot be allocated; a line allocates only if it has a
/// backslash or is a `driver` line.
pub fn read_step(alloc: Global, line: &[u8]) -> Result<Step, StepFault>
    ensures step { Gives step_of (said line.now) result }
    ensures memory { result ≡ Err StepFault.Memory → IsTrue (takes_memory line.now) }
{
    if line.len() > STEP_LINE_MAX {
        return Err(StepFault::BadStep);
    }
    match split(alloc, line) {
        Ok(words) => meant(alloc, &words),
        Err(WordFault::Memory) => Err(StepFault::Memory),
        Err(_) => Err(StepFault::BadStep),
    }
}

/// Returns the step that the words of a line spell.
fn meant(alloc: Global, words: &Words<'_>) -> Result<Step, StepFault>
    ensures step { Gives step_of (meant words.now) result }
    ensures memory { result ≡ Err StepFault.Memory → IsTrue (is_of_driver (meant words.now)) }
{
    match Verb::of(words.get(0)) {
        Some(verb) => form(alloc, verb, words),
        None => Err(StepFault::BadStep),
    }
}

/// Returns the step that a verb and the words behind it spell.
fn form(alloc: Global, verb: Verb, words: &Words<'_>) -> Result<Step, StepFault>
    ensures step { Gives step_of (form verb words.now) result }
    ensures memory { result ≡ Err StepFault.Memory → IsTrue (is_of_driver (form verb words.now)) }
{
    match verb {
        Verb::Driver => said_by_driver(alloc, words),
        Verb::Server => told(with_one(OneNumber::Server, words)),
        Verb::Monitor => told(with_two(TwoNumbers::Monitor, words)),
        Verb::Up => told(with_one(OneNumber::Up, words)),
        Verb::Down => told(with_one(OneNumber::Down, words)),
        Verb::Link => told(with_two(TwoNumbers::Link, words)),
        Verb::Out => told(with_three(ThreeNumbers::Out, words)),
        Verb::Reach => told(with_three(ThreeNumbers::Reach, words)),
        Verb::Back => told(with_three(ThreeNumbers::Back, words)),
        Verb::Land => told(with_three(ThreeNumbers::Land, words)),
        Verb::CutServer => told(with_two(TwoNumbers::CutServer, words)),
        Verb::CutMonitor => told(with_two(TwoNumbers::CutMonitor, words)),
    }
}

/// Returns the step, or that there is none.
fn told(step: Option<Step>) -> Result<Step, StepFault>
    ensures { result ≡ ok_or step StepFault.BadStep }
{
    step.ok_or(StepFault::BadStep)
}

/// Returns the step of a verb with one number.
fn with_one(verb: OneNumber, words: &Words<'_>) -> Option<Step>
    ensures { option_map step_of result ≡ one (one_form verb) words.now }
{
    let number = one_number(words)?;
    Some(verb.step(number))
}

/// Returns the step of a verb with two numbers.
fn with_two(verb: TwoNumbers, words: &Words<'_>) -> Option<Step>
    ensures { option_map step_of result ≡ two (two_form verb) words.now }
{
    let (m, i) = two_numbers(words)?;
    Some(verb.step(m, i))
}

/// Returns the step of a verb with three numbers.
fn with_three(verb: ThreeNumbers, words: &Words<'_>) -> Option<Step>
    ensures { option_map step_of result ≡ three (three_form verb) words.now }
{
    let (m, i, n) = three_numbers(words)?;
    Some(verb.step(m, i, n))
}

/// Returns the step of a `driver` line.
fn said_by_driver(alloc: Global, words: &Words<'_>) -> Result<Step, StepFault>
    ensures step { Gives step_of (said_by_driver words.now) result }
    ensures memory { result ≡ Err StepFault.Memory → IsTrue (is_of_driver (said_by_driver words.now)) }
{
    if words.len() != 3 {
        return Err(StepFault::BadStep);
    }
    let Some(ups) = number(words.get(1)) else {
        return Err(StepFault::BadStep);
    };
    let mut line = Vec::new(alloc);
    if line.extend_from_slice(words.get(2)).is_err() {
        return Err(StepFault::Memory);
    }
    Ok(Step::Driver(ups, line))
}

/// Reads a number of 1 to 9 digits.
fn number(word: &[u8]) -> Option<usize>
    ensures { result ≡ natural word.now }
{
    let number = natural(word)?;
    Some(number as usize)
}

/// Reads the number behind a verb, if there is exactly one.
fn one_number(words: &Words<'_>) -> Option<usize>
    ensures { result ≡ one_number words.now }
{
    if words.len() != 2 {
        return None;
    }
    number(words.get(1))
}

/// Reads the numbers behind a verb, if there are exactly two.
fn two_numbers(words: &Words<'_>) -> Option<(usize, usize)>
    ensures { result ≡ two_numbers words.now }
{
    if words.len() != 3 {
        return None;
    }
    Some((number(words.get(1))?, number(words.get(2))?))
}

/// Reads the numbers behind a verb, if there are exactly three.
fn three_numbers(words: &Words<'_>) -> Option<(usize, usize, usize)>
    ensures { result ≡ three_numbers words.now }
{
    if words.len() != 4 {
        return None;
    }
    Some((
        number(words.get(1))?,
        number(words.get(2))?,
        number(words.get(3))?,
    ))
}
