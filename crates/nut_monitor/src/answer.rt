//! What an answer changes in what is known of a UPS, and which notices it gives.
ghost use Rattle.std.specs.Prelude.{◌≡◌, ◌+◌, ◌<◌, ◌≤◌, ◌++◌, [], ◌&&◌, if◌then◌else◌, is_some, length, not};
ghost use Rattle.nut_monitor_spec.specs.declared.Query.TheVariants as queries;
ghost use Rattle.nut_link.specs.declared.outcome.Outcome.TheVariants as outcomes;
ghost use Rattle.nut_monitor_spec.specs.Configuration.{configuration_of};
ghost use Rattle.nut_conf.specs.declared.notice.Notice.TheVariants as kinds;
ghost use Rattle.nut_monitor_spec.specs.Decision.{answer_notices, had as had_flag, is_bad as is_bad_now, is_new as is_new_flag, loss_notices, status_notices, tells_replace as replaces, told, when};
ghost use Rattle.nut_monitor_spec.specs.machine.Machine.{known_answered, newer};
ghost use Rattle.nut_monitor_spec.specs.Query.{is_forced, logins_in};
ghost use Rattle.nut_monitor.specs.inside.Sound.{IsCount, with_flags};
ghost use Rattle.nut_monitor_spec.specs.declared.Communication.TheVariants as communications;

use crate::flags::{no_flags, read_flags};
use crate::notices::Notices;
use crate::time::is_over;
use nut_conf::{MonConfig, Notice as Kind, Number};
use nut_link::{Fields, Outcome};
use nut_monitor_spec::{Communication, Known, NOTICES_MAX, Notice, Query, StatusFlags};

/// The greatest number of notices that one answer gives, without that of a loss of its link: those of a status.
pub const ANSWER_NOTICES_MAX: usize = 6;

/// The line and the time at which an answer is heard.
#[derive(Clone, Copy)]
pub struct AnswerScene {
    /// The number of the MONITOR line.
    pub line: usize,
    pub clock: u64,
    /// Whether no shutdown has begun: only then notices are given.
    pub watching: bool,
}

/// Returns a notice of this type about the UPS of a line.
pub fn on_line(kind: Kind, line: usize) -> Notice
    ensures { result ≡ told kind line }
{
    Notice {
        kind,
        line: Some(line),
    }
}

fn is_bad(communication: Communication) -> bool
    ensures { result ≡ is_bad_now communication }
{
    matches!(communication, Communication::Bad)
}

/// Returns the flags of the last status; none is set before the first.
fn had(known: Known) -> StatusFlags
    ensures on_line { result.on_line ≡ had_flag (λ f. f.on_line) known.flags }
    ensures on_battery { result.on_battery ≡ had_flag (λ f. f.on_battery) known.flags }
    ensures low_battery { result.low_battery ≡ had_flag (λ f. f.low_battery) known.flags }
    ensures forced { result.forced_shutdown ≡ had_flag (λ f. f.forced_shutdown) known.flags }
    ensures replace { result.replace_battery ≡ had_flag (λ f. f.replace_battery) known.flags }
{
    match known.flags {
        Some(flags) => flags,
        None => no_flags(),
    }
}

/// Whether a status gives REPLBATT.
fn tells_replace(config: &MonConfig, clock: u64, known: Known, flags: StatusFlags) -> bool
    ensures { result ≡ replaces (configuration_of config.now) clock known.replace_told known.flags flags }
{
    let pause = u64::from(config.rb_warn_time.value);
    flags.replace_battery
        && (!had(known).replace_battery || is_over(pause, clock, known.replace_told))
}

/// Queues the notices that a status gives.
fn tell_status(
    config: &MonConfig,
    scene: AnswerScene,
    known: Known,
    flags: StatusFlags,
    notices: &mut Notices,
)
    requires room { length notices.old + ANSWER_NOTICES_MAX < NOTICES_MAX }
    ensures few { length notices.new ≤ length notices.old + ANSWER_NOTICES_MAX }
    ensures told { notices.new ≡ notices.old ++ status_notices (configuration_of config.now) scene.clock scene.line known flags }
{
    let had = had(known);
    let bad = is_bad(known.communication);
    let restored = is_restored(known, flags);
    let on_battery = is_new(flags.on_battery, had.on_battery);
    let low_battery = is_new(flags.low_battery, had.low_battery);
    let forced = is_new(flags.forced_shutdown, had.forced_shutdown);
    let worn = tells_replace(config, scene.clock, known, flags);
    notices.tell_when(bad, on_line(Kind::Commok, scene.line));
    notices.tell_when(restored, on_line(Kind::Online, scene.line));
    notices.tell_when(on_battery, on_line(Kind::Onbatt, scene.line));
    notices.tell_when(low_battery, on_line(Kind::Lowbatt, scene.line));
    notices.tell_when(forced, on_line(Kind::Fsd, scene.line));
    notices.tell_when(worn, on_line(Kind::Replbatt, scene.line));
}

/// Whether a flag is set now that wasn't before.
fn is_new(flag: bool, before: bool) -> bool
    ensures { result ≡ (flag && not before) }
{
    flag && !before
}

/// Whether a UPS whose status is known is on line again.
fn is_restored(known: Known, flags: StatusFlags) -> bool
    ensures { result ≡ (is_some known.flags && is_new_flag (λ f. f.on_line) known.flags flags) }
{
    match known.flags {
        Some(before) => is_new(flags.on_line, before.on_line),
        None => false,
    }
}

/// Returns what is known after a status.
fn with_status(config: &MonConfig, scene: AnswerScene, known: Known, flags: StatusFlags) -> Known
    ensures { result ≡ with_flags (configuration_of config.now) scene.clock scene.watching flags known }
{
    let worn = scene.watching && tells_replace(config, scene.clock, known, flags);
    let calm = !(flags.on_battery && flags.low_battery);
    Known {
        flags: Some(flags),
        polled: scene.clock,
        calm: if known.flags.is_none() || calm {
            scene.clock
        } else {
            known.calm
        },
        communication: Communication::Good,
        replace_told: if worn {
            Some(scene.clock)
        } else {
            known.replace_told
        },
        silence_told: known.silence_told,
        forced: known.forced,
        logins: known.logins,
    }
}

/// Queues COMMBAD if communication wasn't bad before, and no shutdown has begun.
pub fn tell_loss(scene: AnswerScene, known: Known, notices: &mut Notices)
    requires { length notices.old < NOTICES_MAX }
    ensures few { length notices.new ≤ length notices.old + 1 }
    ensures told { notices.new ≡ notices.old ++ (if scene.watching then loss_notices scene.line known.communication else []) }
{
    notices.tell_when(
        scene.watching && !is_bad(known.communication),
        on_line(Kind::Commbad, scene.line),
    );
}

/// Returns what is known once communication is bad.
pub fn with_loss(known: Known) -> Known
    ensures { result ≡ record known { communication = communications.Bad } }
{
    Known {
        communication: Communication::Bad,
        ..known
    }
}

/// Returns the number of logins that an answer gives, or `before` if it gives none.
fn count_said(fields: &Fields, before: Option<u32>) -> Option<u32>
    requires { IsCount queries.NumLogins (outcomes.Said fields.now) }
    ensures { result ≡ newer (logins_in queries.NumLogins (outcomes.Said fields.now)) before }
{
    let Some(digits) = fields.as_slice().first() else {
        return before;
    };
    match Number::<0, 999_999_999>::read(digits.as_bytes()) {
        Ok(number) => Some(number.value),
        Err(_) => before,
    }
}

/// Takes in the outcome of a query for the status and queues the notices that it gives. Returns what is known after it.
fn hear_status(
    config: &MonConfig,
    scene: AnswerScene,
    known: Known,
    outcome: &Outcome,
    notices: &mut Notices,
) -> Known
    requires room { length notices.old + ANSWER_NOTICES_MAX < NOTICES_MAX }
    ensures few { length notices.new ≤ length notices.old + ANSWER_NOTICES_MAX }
    ensures known { result ≡ known_answered (configuration_of config.now) scene.clock scene.watching queries.Status outcome.now known }
    ensures told { notices.new ≡ notices.old ++ (if scene.watching
        then answer_notices (configuration_of config.now) scene.clock scene.line known queries.Status outcome.now else []) }
{
    match outcome {
        Outcome::Said(fields) => {
            let Some(value) = fields.as_slice().first() else {
                return known;
            };
            let flags = read_flags(value.as_bytes());
            if scene.watching {
                tell_status(config, scene, known, flags, notices);
            }
            with_status(config, scene, known, flags)
        }
        Outcome::Refused(_) => {
            tell_loss(scene, known, notices);
            with_loss(known)
        }
        Outcome::Done | Outcome::List(_) => known,
    }
}

/// Whether a query for FSD was answered by OK.
fn is_done(outcome: &Outcome) -> bool
    ensures { result ≡ is_forced queries.Fsd outcome.now }
{
    matches!(outcome, Outcome::Done)
}

/// Returns the number of logins after the outcome of a query for it: the one that it gives, or else `before`.
fn count_after(outcome: &Outcome, before: Option<u32>) -> Option<u32>
    requires { IsCount queries.NumLogins outcome.now }
    ensures { result ≡ newer (logins_in queries.NumLogins outcome.now) before }
{
    match outcome {
        Outcome::Said(fields) => count_said(fields, before),
        Outcome::Done | Outcome::List(_) | Outcome::Refused(_) => before,
    }
}

/// Takes in the outcome of a query and queues the notices that it gives. Returns what is known after it.
pub fn hear(
    config: &MonConfig,
    scene: AnswerScene,
    known: Known,
    query: Query,
    outcome: &Outcome,
    notices: &mut Notices,
) -> Known
    requires room { length notices.old + ANSWER_NOTICES_MAX < NOTICES_MAX }
    requires count { IsCount query outcome.now }
    ensures few { length notices.new ≤ length notices.old + ANSWER_NOTICES_MAX }
    ensures known { result ≡ known_answered (configuration_of config.now) scene.clock scene.watching query outcome.now known }
    ensures told { notices.new ≡ notices.old ++ (if scene.watching
        then answer_notices (configuration_of config.now) scene.clock scene.line known query outcome.now else []) }
{
    match query {
        Query::Status => hear_status(config, scene, known, outcome, notices),
        Query::Fsd => Known {
            forced: is_done(outcome) || known.forced,
            ..known
        },
        Query::NumLogins => Known {
            logins: count_after(outcome, known.logins),
            ..known
        },
        Query::Username | Query::Password | Query::Login | Query::Primary => known,
    }
}
