//! Requests that change something, and why each is refused (RFC 9271).

ghost use Rattle.std.specs.Prelude.{◌≡◌, ◌≤◌, ℕ, List, Option, length, MatchResult, IfOk};
ghost use Rattle.nut_proto.specs.declared.reply.Reply.TheVariants as replies;
ghost use Rattle.nut_proto.specs.declared.request.Request.TheVariants as requests;
ghost use Rattle.nut_server_spec.specs.Answer.{Answer, Scene, numbered, refused};
ghost use Rattle.nut_server_spec.specs.Command.{Asks};
ghost use Rattle.nut_server_spec.specs.machine.Machine.{caller_of};
ghost use Rattle.nut_server.specs.inside.Access.{allows};
ghost use Rattle.nut_server.specs.inside.Decisions.{AreThere, Grants, HandsOn, IsNextNumber};
ghost use Rattle.nut_server.specs.inside.Tasks.{right_to, task_ask, task_failure, task_misfit, task_request};

use crate::access::{Right, authorize, credentials};
use crate::connection::Connection;
use crate::credential::LentCredential;
use crate::device::Device;
use crate::effect::Effect;
use crate::queries::variable_of;
use crate::scene::Scene;
use crate::setting::{misfit, parameter_misfit, put_ask};
use arrayvec::ArrayVec;
use nut_proto::{DriverAsk, Refusal, TRACKING_NUMBER_MAX, Word};
use nut_queue::ASKS_MAX;
use nut_words::CREDENTIAL_MAX;

/// A request that is handed on to the driver of a UPS.
#[derive(Drop)]
pub struct HandedOn {
    /// The number of the UPS.
    pub ups: usize,
    /// The number of the request, if it is tracked.
    pub number: Option<u32>,
}

/// Returns the number of the caller's next request to a driver, if its requests are tracked, or the refusal if all
/// numbers are given.
fn next_number(
    scene: &Scene<'_>,
    caller: &Connection,
    refusal: Refusal,
) -> Result<Option<u32>, Refusal>
    ensures answer { (next : Option ℕ → Answer) → MatchResult result
        (λ number. numbered refusal scene.now (caller_of caller.now) next ≡ next number)
        (λ refused_by. (refused_by ≡ refusal) × (numbered refusal scene.now (caller_of caller.now) next ≡ refused refusal)) }
    ensures next { IfOk result (IsNextNumber scene.now) }
{
    if !caller.tracks_requests() {
        return Ok(None);
    }
    if scene.given >= TRACKING_NUMBER_MAX {
        return Err(refusal);
    }
    Ok(Some(scene.given + 1))
}

/// What a client asks the driver of a UPS to do.
#[derive(Drop)]
pub enum DriverTask<'a> {
    /// To set a variable to a value.
    Set {
        variable: Word<'a>,
        value: Word<'a>,
    },
    /// To run a command, perhaps with a parameter.
    Run {
        command: Word<'a>,
        parameter: Option<Word<'a>>,
    },
}

impl<'a> DriverTask<'a> {
    /// Returns the right that it needs.
    fn right(&self) -> Right<'_>
        ensures { allows result ≡ right_to self.now }
    {
        match self {
            DriverTask::Set { .. } => Right::Set,
            DriverTask::Run { command, .. } => Right::Command(command.as_bytes()),
        }
    }

    /// Returns why a UPS can't do it: it has no such variable, which allows the value, or no such command, or the parameter is
    /// too long.
    fn misfit(&self, device: &Device) -> Option<Refusal>
        ensures { result ≡ task_misfit self.now device.now.device }
    {
        match self {
            DriverTask::Set { variable, value } => match variable_of(device, variable.as_bytes()) {
                Ok(variable) => misfit(variable, value.as_bytes()),
                Err(refusal) => Some(refusal),
            },
            DriverTask::Run { command, parameter } => {
                if !device.table().has_cmd(command.as_bytes()) {
                    return Some(Refusal::CmdNotSupported);
                }
                parameter_misfit(parameter)
            }
        }
    }

    /// Returns the refusal if it can't be handed on.
    fn failure(&self) -> Refusal
        ensures { result ≡ task_failure self.now }
    {
        match self {
            DriverTask::Set { .. } => Refusal::SetFailed,
            DriverTask::Run { .. } => Refusal::InstCmdFailed,
        }
    }

    /// Returns the request to the driver, with the number of the client's request if it is tracked.
    fn ask(self, number: Option<u32>) -> DriverAsk<'a>
        ensures { result ≡ task_ask self.entry number }
    {
        match self {
            DriverTask::Set { variable, value } => DriverAsk::Set {
                variable,
                value,
                number,
            },
            DriverTask::Run { command, parameter } => DriverAsk::InstCmd {
                command,
                parameter,
                number,
            },
        }
    }
}

/// Decides on SET VAR and INSTCMD: the driver is asked to do the task, by a request that is written into `line`.
///
/// # Errors
///
/// The errors of [`authorize`](crate::access::authorize); then `DriverNotConnected` or `DataStale` if the data of the
/// UPS can't be relied on. Then `VarNotSupported` for an unknown variable, and `ReadOnly`, `TooLong` or `InvalidValue`
/// if it can't be set to the value; or `CmdNotSupported` for an unknown command, and `TooLong` if the parameter has more
/// than [`VALUE_MAX`](nut_words::VALUE_MAX) bytes. At last `SetFailed` or `InstCmdFailed` if all numbers of tracked
/// requests are used, or if the request doesn't fit behind those that wait for the driver.
pub fn ask_driver(
    scene: &Scene<'_>,
    caller: &Connection,
    ups: &[u8],
    task: DriverTask<'_>,
    line: &mut ArrayVec<u8, ASKS_MAX>,
) -> Result<HandedOn, Refusal>
    ensures { HandsOn scene.now (caller_of caller.now) (Asks (task_request ups.now task.entry)) result line.new.items }
{
    let u = authorize(scene, caller, task.right(), ups)?;
    let device = scene.data_of(u)?;
    if let Some(refusal) = task.misfit(device) {
        return Err(refusal);
    }
    let failure = task.failure();
    let number = next_number(scene, caller, failure)?;
    if !put_ask(line, &task.ask(number), device) {
        return Err(failure);
    }
    Ok(HandedOn { ups: u, number })
}

/// Decides on SET TRACKING: the client's requests are tracked from now on, or no longer. Any client that gave a user
/// name and a password may do so. They aren't checked.
///
/// # Errors
///
/// The errors of [`credentials`](crate::access::credentials).
pub fn switch_tracking(caller: &Connection, on: bool) -> Result<Effect<'static>, Refusal>
    ensures { (s : Scene) (line : List ℕ) → Grants s (caller_of caller.now) (Asks (requests.SetTracking on)) replies.Accepted
        result line }
{
    credentials(caller)?;
    Ok(Effect::Tracking(on))
}

/// Decides on USERNAME: the client may give a user name once.
///
/// # Errors
///
/// `AlreadySetUsername` if the client has given one.
pub fn give_user<'l>(caller: &Connection, name: &'l [u8]) -> Result<Effect<'l>, Refusal>
    requires { length name.now ≤ CREDENTIAL_MAX }
    ensures { (s : Scene) (line : List ℕ) → Grants s (caller_of caller.now) (Asks (requests.Username name.now)) replies.Accepted
        result line }
{
    if caller.user().is_some() {
        return Err(Refusal::AlreadySetUsername);
    }
    Ok(Effect::User(LentCredential::new(name)))
}

/// Decides on PASSWORD: the client may give a password once.
///
/// # Errors
///
/// `AlreadySetPassword` if the client has given one.
pub fn give_password<'l>(caller: &Connection, password: &'l [u8]) -> Result<Effect<'l>, Refusal>
    requires { length password.now ≤ CREDENTIAL_MAX }
    ensures { (s : Scene) (line : List ℕ) → Grants s (caller_of caller.now) (Asks (requests.Password password.now)) replies.Accepted
        result line }
{
    if caller.password().is_some() {
        return Err(Refusal::AlreadySetPassword);
    }
    Ok(Effect::Password(LentCredential::new(password)))
}

/// Decides on LOGIN: the client may log in to one UPS, once.
///
/// # Errors
///
/// The errors of [`authorize`](crate::access::authorize); then `AlreadyLoggedIn` if the client is logged in to any UPS.
pub fn log_in(
    scene: &Scene<'_>,
    caller: &Connection,
    ups: &[u8],
) -> Result<Effect<'static>, Refusal>
    ensures { (line : List ℕ) → Grants scene.now (caller_of caller.now) (Asks (requests.Login ups.now)) replies.Accepted
        result line }
{
    let u = authorize(scene, caller, Right::LogIn, ups)?;
    if caller.login().is_some() {
        return Err(Refusal::AlreadyLoggedIn);
    }
    Ok(Effect::Login(u))
}

/// Decides on PRIMARY: whether the client may be primary of the UPS. Nothing changes.
///
/// # Errors
///
/// The errors of [`authorize`](crate::access::authorize).
pub fn become_primary(
    scene: &Scene<'_>,
    caller: &Connection,
    ups: &[u8],
) -> Result<Effect<'static>, Refusal>
    ensures { (line : List ℕ) → Grants scene.now (caller_of caller.now) (Asks (requests.Primary ups.now)) replies.Accepted
        result line }
{
    authorize(scene, caller, Right::BePrimary, ups)?;
    Ok(Effect::Nothing)
}

/// Decides on FSD: a shutdown of the UPS is forced.
///
/// # Errors
///
/// The errors of [`authorize`](crate::access::authorize).
pub fn force(scene: &Scene<'_>, caller: &Connection, ups: &[u8]) -> Result<Effect<'static>, Refusal>
    requires { AreThere scene.now }
    ensures { (line : List ℕ) → Grants scene.now (caller_of caller.now) (Asks (requests.Fsd ups.now)) replies.FsdSet
        result line }
{
    let u = authorize(scene, caller, Right::Force, ups)?;
    Ok(Effect::Force(u))
}
