//! Answers requests that only ask (RFC 9271).

ghost use Rattle.std.specs.Prelude.{◌≡◌, None, Some, IsTrue, MatchResult};
ghost use Rattle.nut_proto.specs.declared.refusal.Refusal.TheVariants as refusals;
ghost use Rattle.nut_proto.specs.declared.request.Request.TheVariants as requests;
ghost use Rattle.nut_state.specs.Table.{variable};
ghost use Rattle.nut_server.specs.inside.Answers.{outcome};
ghost use Rattle.nut_server.specs.inside.Decisions.{is_question, told};

use crate::answer::Answer;
use crate::device::Device;
use crate::lists::list_answer;
use crate::scene::Scene;
use crate::setting::kind_of;
use nut_proto::{Refusal, Reply, Request, Word};
use nut_state::Variable;

/// Returns the variable with this name, or `VarNotSupported` if the UPS has none.
pub fn variable_of<'a>(device: &'a Device, name: &[u8]) -> Result<&'a Variable, Refusal>
    ensures { MatchResult result
        (λ v. variable device.now.device.table name.now ≡ Some v.now)
        (λ refusal. (variable device.now.device.table name.now ≡ None) × (refusal ≡ refusals.VarNotSupported)) }
{
    device
        .table()
        .variable(name)
        .ok_or(Refusal::VarNotSupported)
}

/// Answers `GET NUMLOGINS`: how many clients are logged in to a UPS.
///
/// # Errors
///
/// `UnknownUps` if there is no such UPS; then `DriverNotConnected` or `DataStale` if its data can't be relied on.
#[tactic(auto, using(std::proofs::lemmas::Grind::common_steps))]
fn count_logins<'a>(scene: &'a Scene<'_>, ups: &'a [u8]) -> Result<Answer<'a>, Refusal>
    ensures { outcome result ≡ told scene.now (requests.GetNumLogins ups.now) }
{
    let u = scene.number_of(ups)?;
    scene.data_of(u)?;
    Ok(Answer::Line(Reply::NumLogins {
        ups: Word::new(ups),
        count: scene.connections.logged_in(u) as u32,
    }))
}

/// Answers `GET UPSDESC`: the description in ups.conf.
///
/// # Errors
///
/// `UnknownUps` if there is no such UPS.
fn describe_ups<'a>(scene: &'a Scene<'_>, ups: &'a [u8]) -> Result<Answer<'a>, Refusal>
    ensures { outcome result ≡ told scene.now (requests.GetUpsDesc ups.now) }
{
    let Some(entry) = scene.config.ups_named(ups) else {
        return Err(Refusal::UnknownUps);
    };
    Ok(Answer::Line(Reply::UpsDesc {
        ups: Word::new(ups),
        description: Word::new(entry.description),
    }))
}

/// Answers `GET VAR`: the value of a variable.
///
/// # Errors
///
/// `UnknownUps` if there is no such UPS; then `DriverNotConnected` or `DataStale` if its data can't be relied on; then
/// `VarNotSupported` if it has no such variable.
fn show_variable<'a>(
    scene: &'a Scene<'_>,
    ups: &'a [u8],
    name: &[u8],
) -> Result<Answer<'a>, Refusal>
    ensures { outcome result ≡ told scene.now (requests.GetVar ups.now name.now) }
{
    let device = scene.device_named(ups)?;
    let variable = variable_of(device, name)?;
    Ok(Answer::Value(ups, device, variable))
}

/// Answers `GET TYPE`: whether a variable may be set, and which values it allows.
///
/// # Errors
///
/// `UnknownUps` if there is no such UPS; then `DriverNotConnected` or `DataStale` if its data can't be relied on; then
/// `VarNotSupported` if it has no such variable.
fn show_type<'a>(scene: &'a Scene<'_>, ups: &'a [u8], name: &[u8]) -> Result<Answer<'a>, Refusal>
    ensures { outcome result ≡ told scene.now (requests.GetType ups.now name.now) }
{
    let device = scene.device_named(ups)?;
    let variable = variable_of(device, name)?;
    Ok(Answer::Line(Reply::Type {
        ups: Word::new(ups),
        variable: Word::new(variable.name()),
        writable: variable.flags().writable,
        kind: kind_of(variable),
    }))
}

/// Answers `GET DESC`: the description of a variable.
///
/// # Errors
///
/// `UnknownUps` if there is no such UPS; then `DriverNotConnected` or `DataStale` if its data can't be relied on; then
/// `VarNotSupported` if it has no such variable.
fn describe_variable<'a>(
    scene: &'a Scene<'_>,
    ups: &'a [u8],
    name: &'a [u8],
) -> Result<Answer<'a>, Refusal>
    ensures { outcome result ≡ told scene.now (requests.GetDesc ups.now name.now) }
{
    let device = scene.device_named(ups)?;
    variable_of(device, name)?;
    Ok(Answer::Line(Reply::Desc {
        ups: Word::new(ups),
        variable: Word::new(name),
        description: Word::new(scene.config.describe_variable(name)),
    }))
}

/// Answers `GET CMDDESC`: the description of a command.
///
/// # Errors
///
/// `UnknownUps` if there is no such UPS; then `DriverNotConnected` or `DataStale` if its data can't be relied on; then
/// `CmdNotSupported` if it has no such command.
fn describe_command<'a>(
    scene: &'a Scene<'_>,
    ups: &'a [u8],
    name: &'a [u8],
) -> Result<Answer<'a>, Refusal>
    ensures { outcome result ≡ told scene.now (requests.GetCmdDesc ups.now name.now) }
{
    let device = scene.device_named(ups)?;
    if !device.table().has_cmd(name) {
        return Err(Refusal::CmdNotSupported);
    }
    Ok(Answer::Line(Reply::CmdDesc {
        ups: Word::new(ups),
        command: Word::new(name),
        description: Word::new(scene.config.describe_command(name)),
    }))
}

/// Answers a request that only asks.
///
/// # Errors
///
/// The refusal of the first test that fails.
pub fn answer_question<'a>(
    scene: &'a Scene<'_>,
    request: &'a Request<'_>,
) -> Result<Answer<'a>, Refusal>
    requires { IsTrue (is_question request.now) }
    ensures { outcome result ≡ told scene.now request.now }
{
    match request {
        Request::GetNumLogins { ups } => count_logins(scene, ups.as_bytes()),
        Request::GetUpsDesc { ups } => describe_ups(scene, ups.as_bytes()),
        Request::GetVar { ups, variable } => {
            show_variable(scene, ups.as_bytes(), variable.as_bytes())
        }
        Request::GetType { ups, variable } => {
            show_type(scene, ups.as_bytes(), variable.as_bytes())
        }
        Request::GetDesc { ups, variable } => {
            describe_variable(scene, ups.as_bytes(), variable.as_bytes())
        }
        Request::GetCmdDesc { ups, command } => {
            describe_command(scene, ups.as_bytes(), command.as_bytes())
        }
        Request::GetTrackingOf { number } => Ok(Answer::Line(Reply::Tracking {
            number: *number,
            status: scene.status_of(*number),
        })),
        Request::List(query) => list_answer(scene, query),
        Request::Ver => Ok(Answer::Line(Reply::Version)),
        Request::NetVer => Ok(Answer::Line(Reply::NetworkVersion)),
        Request::Help => Ok(Answer::Line(Reply::Commands)),
        Request::StartTls => Err(Refusal::FeatureNotConfigured),
        Request::GetTracking
        | Request::SetVar { .. }
        | Request::SetTracking { .. }
        | Request::InstCmd { .. }
        | Request::Username { .. }
        | Request::Password { .. }
        | Request::Login { .. }
        | Request::Primary { .. }
        | Request::Fsd { .. }
        | Request::Logout => unreachable!(),
    }
}
