//! What a driver holds and reports.
ghost use Rattle.std.specs.Prelude.{◌≡◌, ◌<◌, [], ◌++◌, Some, ⊤, false, if◌then◌else◌, length, IsTrue, OnErr, OnOk};
ghost use Rattle.std.specs.List.{flat_map};
ghost use Rattle.nut_dummy.specs.Command.{command_of};
ghost use Rattle.nut_dummy.specs.Teller.{ended, is_done, says};
ghost use Rattle.nut_dummy.specs.inside.Machine.{changed, commanded, dumped_all, answered, heard, may_take_memory, relinked, tells_more};
ghost use Rattle.nut_dummy.specs.inside.Changes.{change_of};

use crate::command::KnownCommand;
use crate::telling::{dump, ended, follow_all, forget_link, is_done, mark_all_dumped, say_all};
use crate::variable::{Change, Variable};
use nut_proto::DriverAsk;
use nut_queue::Outbox;
use nut_words::{HearLine, Line, WordFault, split};
use std::alloc::{AllocError, Global};
use std::marker::Model;

/// The variables, whether DUMPALL was asked on this link, and the bytes that wait.
#[derive(Drop)]
pub struct Teller {
    variables: Vec<Variable>,
    asked: bool,
    pub outbox: Outbox,
    scratch: Vec<u8>,
}

impl Model for Teller {
    ghost use Rattle.nut_dummy.specs.Teller.{Teller as TellerValue};

    ghost Value = { TellerValue };

    ghost view = { λ t. record { variables = t.variables.items; asked = t.asked; waits = t.outbox } };
}

/// Appends these bytes to those that wait. Only one or more bytes need memory.
fn queue(outbox: &mut Outbox, bytes: &[u8]) -> Result<(), AllocError>
    ensures ok { OnOk result (outbox.new ≡ outbox.old ++ bytes.now) }
    ensures err { OnErr result ((outbox.new ≡ outbox.old) × (0 < length bytes.now)) }
{
    if bytes.is_empty() {
        Ok(())
    } else {
        outbox.push(bytes)
    }
}

/// Appends the line that reports how the request with this number ended, if it has a number.
fn put_end(
    out: &mut Vec<u8>,
    variables: &[Variable],
    change: &Change<'_>,
    number: Option<u32>,
) -> Result<(), AllocError>
    ensures ok { OnOk result (out.new.items ≡ out.old.items ++ ended number (is_done (change_of change.now) variables.now)) }
    ensures err { OnErr result (0 < length (ended number (is_done (change_of change.now) variables.now))) }
{
    let done = is_done(change, variables);
    out.extend_from_slice(ended(number, done).as_slice())?;
    Ok(())
}

/// Makes the lines that report a change, and how the request with this number ended, if DUMPALL was asked.
fn make_lines(
    out: &mut Vec<u8>,
    asked: bool,
    variables: &[Variable],
    change: &Change<'_>,
    number: Option<u32>,
) -> Result<(), AllocError>
    ensures ok { OnOk result (out.new.items
        ≡ (if asked then flat_map (says (change_of change.now)) variables.now ++ ended number (is_done (change_of change.now) variables.now) else [])) }
    ensures err { OnErr result (0 < length
        (if asked then flat_map (says (change_of change.now)) variables.now ++ ended number (is_done (change_of change.now) variables.now) else [])) }
{
    out.clear();
    if !asked {
        return Ok(());
    }
    say_all(out, variables, change)?;
    put_end(out, variables, change, number)
}

impl Teller {
    /// Makes a teller without a link.
    pub fn new(alloc: Global, variables: Vec<Variable>) -> Teller
        ensures { result ≡ record { variables = variables.items; asked = false; waits = [] } }
    {
        Teller {
            variables,
            asked: false,
            outbox: Outbox::new(alloc),
            scratch: Vec::new(alloc),
        }
    }

    /// Returns the variables.
    pub fn variables(&self) -> &[Variable]
        ensures { result.now ≡ self.now.variables }
    {
        &self.variables
    }

    /// Applies a change to all variables, and reports how the request with this number ended. The lines are made first,
    /// so that nothing changes if memory cannot be allocated. Only a report needs memory.
    pub fn change(&mut self, change: &Change<'_>, number: Option<u32>) -> Result<(), AllocError>
        ensures ok { OnOk result (self.new ≡ changed number (change_of change.now) self.old) }
        ensures err { OnErr result ((self.new ≡ self.old) × IsTrue (tells_more self.old (changed number (change_of change.now) self.old))) }
    {
        make_lines(
            &mut self.scratch,
            self.asked,
            &self.variables,
            change,
            number,
        )?;
        queue(&mut self.outbox, self.scratch.as_slice())?;
        follow_all(&mut self.variables, change, self.asked);
        Ok(())
    }

    /// Queues a dump.
    fn dump(&mut self) -> Result<(), AllocError>
        ensures ok { OnOk result (self.new ≡ dumped_all self.old) }
        ensures err { OnErr result (self.new ≡ self.old) }
    {
        self.scratch.clear();
        dump(&mut self.scratch, &self.variables)?;
        self.outbox.push(self.scratch.as_slice())?;
        mark_all_dumped(&mut self.variables);
        self.asked = true;
        Ok(())
    }

    /// Does what the server asked. Only a report needs memory.
    fn answer(&mut self, ask: Option<DriverAsk<'_>>) -> Result<(), AllocError>
        ensures ok { OnOk result (self.new ≡ answered ask.entry self.old) }
        ensures err { OnErr result ((self.new ≡ self.old) × IsTrue (tells_more self.old (answered ask.entry self.old))) }
    {
        match ask {
            None => Ok(()),
            Some(ask) => self.obey(ask),
        }
    }

    /// Does what the server asked. Only a report needs memory.
    fn obey(&mut self, ask: DriverAsk<'_>) -> Result<(), AllocError>
        ensures ok { OnOk result (self.new ≡ answered (Some ask.entry) self.old) }
        ensures err { OnErr result ((self.new ≡ self.old) × IsTrue (tells_more self.old (answered (Some ask.entry) self.old))) }
    {
        match ask {
            DriverAsk::Ping => self.outbox.push(b"PONG\n"),
            DriverAsk::DumpAll => self.dump(),
            DriverAsk::Set {
                variable,
                value,
                number,
            } => self.change(
                &Change::Assigning {
                    name: variable.as_bytes(),
                    value: value.as_bytes(),
                },
                number,
            ),
            DriverAsk::InstCmd {
                command,
                number,
                ..
            } => self.command(command.as_bytes(), number),
        }
    }

    /// Does an instant command, if the driver knows it. Only a report needs memory.
    fn command(&mut self, name: &[u8], number: Option<u32>) -> Result<(), AllocError>
        ensures ok { OnOk result (self.new ≡ commanded number (command_of name.now) self.old) }
        ensures err { OnErr result ((self.new ≡ self.old) × IsTrue (tells_more self.old (commanded number (command_of name.now) self.old))) }
    {
        match KnownCommand::of(name) {
            Some(command) => self.change(
                &Change::Doing {
                    name: command.variable(),
                    value: command.value(),
                },
                number,
            ),
            None => self.fail(number),
        }
    }

    /// Reports that the request with this number wasn't done, if DUMPALL was asked. Only a report needs
    /// memory.
    fn fail(&mut self, number: Option<u32>) -> Result<(), AllocError>
        ensures ok { OnOk result (self.new ≡ commanded number None self.old) }
        ensures err { OnErr result ((self.new ≡ self.old) × IsTrue (tells_more self.old (commanded number None self.old))) }
    {
        if self.asked {
            queue(&mut self.outbox, ended(number, false).as_slice())
        } else {
            Ok(())
        }
    }

    /// Starts a new link, or ends one. Nothing waits then. All variables count as unreported.
    pub fn relink(&mut self)
        ensures { self.new ≡ relinked self.old }
    {
        forget_link(&mut self.variables);
        self.asked = false;
        self.outbox.clear();
    }
}

/// Takes in the lines of the server. If memory cannot be allocated for one, nothing changes. That comes only at a line
/// that holds a backslash, or for which something is reported.
impl HearLine for Teller {
    type With = Global;

    type Stop = AllocError;

    ghost heard = { λ _ line teller. heard line teller };

    ghost GoesOn = { λ _. ⊤ };

    ghost Stops = { λ _ line before _ after. (after ≡ before) × IsTrue (may_take_memory line before) };

    fn hear_line(&mut self, alloc: Global, line: Line<'_>) -> Result<(), AllocError> {
        let Line::Text(text) = line else {
            return Ok(());
        };
        match split(alloc, text) {
            Ok(words) => self.answer(DriverAsk::read(&words)),
            Err(WordFault::Memory) => Err(AllocError),
            Err(
                WordFault::BadByte
                | WordFault::OpenQuote
                | WordFault::LoneBackslash
                | WordFault::QuoteInWord
                | WordFault::AfterQuote
                | WordFault::TooManyWords,
            ) => Ok(()),
        }
    }
}
