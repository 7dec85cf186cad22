//! Decides on requests: the answer to each, and what it changes.

ghost use Rattle.std.specs.Prelude.{◌≡◌, MatchResult};
ghost use Rattle.nut_server_spec.specs.Answer.{accepted, refused};
ghost use Rattle.nut_server_spec.specs.Answer as definitions;
ghost use Rattle.nut_server_spec.specs.Command.{Asks, asked};
ghost use Rattle.nut_server_spec.specs.machine.Machine.{caller_of};
ghost use Rattle.nut_server.specs.inside.Answers.{given, outcome};
ghost use Rattle.nut_server.specs.inside.Decisions.{AreThere, Decides};
ghost use Rattle.nut_server.specs.inside.Effects.{HasShortNames};
ghost use Rattle.nut_server.specs.declared.effect.Effect.TheVariants as effects;

use crate::answer::Answer;
use crate::changes::{
    DriverTask, HandedOn, ask_driver, become_primary, force, give_password, give_user, log_in,
    switch_tracking,
};
use crate::connection::Connection;
use crate::effect::Effect;
use crate::queries::answer_question;
use crate::scene::Scene;
use arrayvec::ArrayVec;
use nut_proto::{Refusal, Reply, Request, Word};
use nut_queue::ASKS_MAX;

/// What is decided on a request.
#[derive(Drop)]
pub struct Decision<'a, 'l> {
    /// The answer.
    pub answer: Answer<'a>,
    /// What the request changes, apart from the answer.
    pub effect: Effect<'l>,
}

/// Returns the decision to give this answer and change nothing.
fn only<'a>(answer: Answer<'a>) -> Decision<'a, 'static>
    ensures answer { given result.answer ≡ given answer.entry }
    ensures effect { result.effect ≡ effects.Nothing }
{
    Decision {
        answer,
        effect: Effect::Nothing,
    }
}

/// Returns the decision on a request that changes nothing: its answer or its refusal.
fn tell<'a>(told: Result<Answer<'a>, Refusal>) -> Decision<'a, 'static>
    ensures answer { given result.answer ≡ outcome told.entry }
    ensures effect { result.effect ≡ effects.Nothing }
{
    match told {
        Ok(answer) => only(answer),
        Err(refusal) => only(Answer::Line(Reply::Refused(refusal))),
    }
}

/// Returns the decision on a request that changes something: this line and the effect if it is granted, or the refusal
/// and no effect.
fn grant<'a, 'l>(reply: Reply<'a>, granted: Result<Effect<'l>, Refusal>) -> Decision<'a, 'l>
    ensures { MatchResult granted.entry
        (λ effect. (given result.answer ≡ definitions.Line reply.entry) × (result.effect ≡ effect))
        (λ refusal. (given result.answer ≡ refused refusal) × (result.effect ≡ effects.Nothing)) }
{
    match granted {
        Ok(effect) => Decision {
            answer: Answer::Line(reply),
            effect,
        },
        Err(refusal) => Decision {
            answer: Answer::Line(Reply::Refused(refusal)),
            effect: Effect::Nothing,
        },
    }
}

/// Returns the reply to a request that is handed on to a driver: `OK`, with the number of the request if it is tracked.
fn accepted<'a>(number: Option<u32>) -> Reply<'a>
    ensures { definitions.Line result ≡ accepted number }
{
    match number {
        Some(number) => Reply::AcceptedAs { number },
        None => Reply::Accepted,
    }
}

/// Returns the decision on a request to a driver: it is handed on, or refused.
fn hand_on<'a>(granted: Result<HandedOn, Refusal>) -> Decision<'a, 'static>
    ensures { MatchResult granted
        (λ request. (given result.answer ≡ accepted request.number) × (result.effect ≡ effects.Ask request.ups request.number))
        (λ refusal. (given result.answer ≡ refused refusal) × (result.effect ≡ effects.Nothing)) }
{
    match granted {
        Ok(HandedOn { ups, number }) => Decision {
            answer: Answer::Line(accepted(number)),
            effect: Effect::Ask(ups, number),
        },
        Err(refusal) => tell(Err(refusal)),
    }
}

/// Decides on a request.
fn decide_request<'a, 'l>(
    scene: &'a Scene<'_>,
    caller: &Connection,
    request: &'a Request<'l>,
    line: &mut ArrayVec<u8, ASKS_MAX>,
) -> Decision<'a, 'l>
    requires there { AreThere scene.now }
    requires short { HasShortNames (Asks request.now) }
    ensures { Decides scene.now (caller_of caller.now) (Asks request.now) result line.new.items }
{
    match request {
        Request::GetTracking => only(Answer::Line(Reply::TrackingIs {
            on: caller.tracks_requests(),
        })),
        Request::SetVar {
            ups,
            variable,
            value,
        } => hand_on(ask_driver(
            scene,
            caller,
            ups.as_bytes(),
            DriverTask::Set {
                variable: variable.copy(),
                value: value.copy(),
            },
            line,
        )),
        Request::SetTracking { on } => grant(Reply::Accepted, switch_tracking(caller, *on)),
        Request::InstCmd {
            ups,
            command,
            parameter,
        } => hand_on(ask_driver(
            scene,
            caller,
            ups.as_bytes(),
            DriverTask::Run {
                command: command.copy(),
                parameter: parameter.as_ref().map(Word::copy),
            },
            line,
        )),
        Request::Username { name } => grant(Reply::Accepted, give_user(caller, name.as_bytes())),
        Request::Password { password } => grant(
            Reply::Accepted,
            give_password(caller, password.as_bytes()),
        ),
        Request::Login { ups } => grant(Reply::Accepted, log_in(scene, caller, ups.as_bytes())),
        Request::Primary { ups } => grant(
            Reply::Accepted,
            become_primary(scene, caller, ups.as_bytes()),
        ),
        Request::Fsd { ups } => grant(Reply::FsdSet, force(scene, caller, ups.as_bytes())),
        Request::Logout => grant(Reply::Goodbye, Ok(Effect::Logout)),
        _ => tell(answer_question(scene, request)),
    }
}

/// Decides on a request, or on a line that isn't one. If a driver is to be asked something, `line` then holds the
/// request to it.
pub fn decide<'a, 'l>(
    scene: &'a Scene<'_>,
    caller: &Connection,
    request: &'a Result<Request<'l>, Refusal>,
    line: &mut ArrayVec<u8, ASKS_MAX>,
) -> Decision<'a, 'l>
    requires there { AreThere scene.now }
    requires short { HasShortNames (asked request.now) }
    ensures { Decides scene.now (caller_of caller.now) (asked request.now) result line.new.items }
{
    match request {
        Ok(request) => decide_request(scene, caller, request, line),
        Err(refusal) => tell(Err(*refusal)),
    }
}
