//! The lines that report all variables, in their order.
ghost use Rattle.std.specs.Prelude.{◌≡◌, ◌<◌, ◌++◌, true, length, map, OnErr, OnOk};
ghost use Rattle.std.specs.List.{flat_map, list_any};
ghost use Rattle.nut_dummy.specs.Telling.{text, closing_messages};
ghost use Rattle.nut_dummy.specs.Teller.{says, lines_of, dump, ended, is_assigned, is_done};
ghost use Rattle.nut_dummy.specs.inside.Changes.{change_of};
ghost use Rattle.nut_dummy.specs.inside.Machine.{followed, dumped, untold};

use crate::variable::{Change, Variable};
use arrayvec::ArrayVec;
use nut_proto::decimal;
use std::alloc::AllocError;

/// The end of a dump: the commands, that the data are current, and that the dump is done.
const CLOSING: &[u8] =
    b"ADDCMD beeper.disable\nADDCMD beeper.enable\nADDCMD load.off\nADDCMD load.on\nADDCMD test.battery.start\nADDCMD test.battery.stop\nADDCMD test.failure.start\nADDCMD test.failure.stop\nDATAOK\nDUMPDONE\n";

/// Appends the lines that report a change.
pub fn say_all(
    out: &mut Vec<u8>,
    variables: &[Variable],
    change: &Change<'_>,
) -> Result<(), AllocError>
    ensures ok { OnOk result (out.new.items ≡ out.old.items ++ flat_map (says (change_of change.now)) variables.now) }
    ensures err { OnErr result (0 < length (flat_map (says (change_of change.now)) variables.now)) }
{
    for variable in variables {
        variable.say(out, change)?;
    }
    Ok(())
}

/// Whether a client sets one of the variables by this.
fn is_obeyed(name: &[u8], value: &[u8], variables: &[Variable]) -> bool
    ensures { result ≡ list_any (λ v. is_assigned name.now value.now v.name v.value) variables.now }
{
    variables
        .iter()
        .any(|variable| variable.is_assigned(name, value))
}

/// Whether a change is what was asked for: a client's SET is, if a variable may be set to the value.
pub fn is_done(change: &Change<'_>, variables: &[Variable]) -> bool
    ensures { result ≡ is_done (change_of change.now) variables.now }
{
    match change {
        Change::Assigning { name, value } => is_obeyed(name, value, variables),
        Change::Passing { .. } | Change::Doing { .. } => true,
    }
}

/// Returns the line that reports how a request ended, if the request has a number.
pub fn ended(number: Option<u32>, done: bool) -> ArrayVec<u8, 32>
    ensures { result.items ≡ ended number done }
{
    let mut line = ArrayVec::new();
    if let Some(number) = number {
        let status: &[u8] = if done { b" 0\n" } else { b" 1\n" };
        let _ = line.try_extend_from_slice(b"TRACKING ");
        let _ = line.try_extend_from_slice(decimal(number).as_slice());
        let _ = line.try_extend_from_slice(status);
    }
    line
}

/// Applies a change to all variables.
pub fn follow_all(variables: &mut [Variable], change: &Change<'_>, asked: bool)
    ensures { variables.new ≡ map (followed asked (change_of change.now)) variables.old }
{
    for variable in variables.iter_mut() {
        variable.follow(change, asked);
    }
}

/// Appends the lines of the variables in a dump.
fn dump_variables(out: &mut Vec<u8>, variables: &[Variable]) -> Result<(), AllocError>
    ensures { OnOk result (out.new.items ≡ out.old.items ++ flat_map (λ v. lines_of true v.name v.value) variables.now) }
{
    for variable in variables {
        variable.dump(out)?;
    }
    Ok(())
}

/// Returns the end of a dump.
fn closing() -> &'static [u8]
    ensures { result.now ≡ text closing_messages }
{
    CLOSING
}

/// Appends a dump.
pub fn dump(out: &mut Vec<u8>, variables: &[Variable]) -> Result<(), AllocError>
    ensures { OnOk result (out.new.items ≡ out.old.items ++ dump variables.now) }
{
    dump_variables(out, variables)?;
    out.extend_from_slice(closing())?;
    Ok(())
}

/// Marks all variables that have a value as reported: a dump reported them.
pub fn mark_all_dumped(variables: &mut [Variable])
    ensures { variables.new ≡ map dumped variables.old }
{
    for variable in variables.iter_mut() {
        variable.mark_dumped();
    }
}

/// Marks all variables as not reported on the link.
pub fn forget_link(variables: &mut [Variable])
    ensures { variables.new ≡ map untold variables.old }
{
    for variable in variables.iter_mut() {
        variable.forget_link();
    }
}
