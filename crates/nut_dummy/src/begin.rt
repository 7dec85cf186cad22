//! The variables that a driver has at its start.
ghost use Rattle.std.specs.Prelude.{◌≡◌, [], map, IfOk, IsTrue};
ghost use Rattle.nut_state.specs.Sorted.{IsAscending};
ghost use Rattle.nut_state.specs.Text.{is_name};
ghost use Rattle.nut_dummy.specs.Command.{command_variables};
ghost use Rattle.nut_dummy.specs.Dummy.{declared, all_declared, timelines};
ghost use Rattle.nut_dummy.specs.History.{seen};

use crate::script::Script;
use crate::text::Name;
use crate::timeline::{Timeline, place_of};
use crate::variable::Variable;
use std::alloc::{AllocError, Global};

/// Returns the variables, with one of this name added if there was none.
fn declared(
    alloc: Global,
    mut variables: Vec<Timeline>,
    name: &[u8],
) -> Result<Vec<Timeline>, AllocError>
    requires ascending { IsAscending (map (λ t. t.name) variables.items) }
    requires named { IsTrue (is_name name.now) }
    ensures declared { IfOk result (λ v. v.items ≡ declared name.now variables.items) }
    ensures ascending { IfOk result (λ v. IsAscending (map (λ t. t.name) v.items)) }
{
    match place_of(&variables, name) {
        Ok(_) => Ok(variables),
        Err(place) => {
            variables.insert(place, Timeline::new(alloc, Name::new(name)))?;
            Ok(variables)
        }
    }
}

/// Returns the variables of a script, with those that commands set added.
fn all_declared(alloc: Global, variables: Vec<Timeline>) -> Result<Vec<Timeline>, AllocError>
    requires { IsAscending (map (λ t. t.name) variables.items) }
    ensures { IfOk result (λ v. v.items ≡ all_declared command_variables variables.items) }
{
    let variables = declared(alloc, variables, b"ups.beeper.status")?;
    let variables = declared(alloc, variables, b"ups.status")?;
    let variables = declared(alloc, variables, b"ups.test.result")?;
    Ok(variables)
}

/// Returns the variables that a driver of this script has at its start.
pub fn into_variables(alloc: Global, script: Script) -> Result<Vec<Variable>, AllocError>
    ensures { IfOk result (λ v. v.items ≡ map (seen []) (timelines script)) }
{
    let timelines = all_declared(alloc, script.into_timelines())?;
    timelines
        .into_iter()
        .map(|timeline| Variable::begin(timeline))
        .collect(alloc)
}
