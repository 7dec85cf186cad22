//! The rights of users, and the tests of a client that uses one.

ghost use Rattle.std.specs.Prelude.{◌≡◌, ℕ, List, Some, MatchResult};
ghost use Rattle.nut_server_spec.specs.Answer as definitions;
ghost use Rattle.nut_server_spec.specs.Answer.{has_right, is_primary, refused, ups_number, with_credentials, with_right};
ghost use Rattle.nut_server_spec.specs.Configuration.{user_named};
ghost use Rattle.nut_server_spec.specs.machine.Machine.{caller_of};
ghost use Rattle.nut_server.specs.Configured.{user_of};
ghost use Rattle.nut_server.specs.Seats.{are_right};
ghost use Rattle.nut_server.specs.inside.Access.{allows};

use crate::config::Config;
use crate::connection::Connection;
use crate::scene::Scene;
use nut_conf::{Action, Role, User};
use nut_proto::Refusal;

/// A right, which a request needs if it changes something.
#[derive(Clone, Copy, Drop)]
pub enum Right<'a> {
    /// Setting variables: `actions = SET`.
    Set,
    /// Giving the command with this name: `instcmds`.
    Command(&'a [u8]),
    /// Logging in: `upsmon primary` or `upsmon secondary`.
    LogIn,
    /// Being primary: `upsmon primary`.
    BePrimary,
    /// Forcing a shutdown: `upsmon primary` or `actions = FSD`.
    Force,
}

fn is_primary(role: Option<Role>) -> bool
    ensures { result ≡ is_primary role }
{
    match role {
        Some(Role::Primary) => true,
        Some(Role::Secondary) | None => false,
    }
}

/// Whether the user has the right.
fn allows(right: Right<'_>, user: &User) -> bool
    ensures { (name : List ℕ) → result ≡ allows right.entry (user_of name user.now) }
{
    match right {
        Right::Set => user.may_act(Action::Set),
        Right::Command(name) => user.may_command(name),
        Right::LogIn => user.upsmon.is_some(),
        Right::BePrimary => is_primary(user.upsmon),
        Right::Force => is_primary(user.upsmon) || user.may_act(Action::Fsd),
    }
}

/// Whether there is a user with this name, this password and this right.
fn has_right(config: &Config, name: &[u8], password: &[u8], right: Right<'_>) -> bool
    ensures { result ≡ has_right (allows right.entry) password.now (user_named name.now config.now.users) }
{
    match config.find_user(name) {
        Some(user) => user.has_password(password) && allows(right, user),
        None => false,
    }
}

/// Returns the user name and the password that the client gave.
///
/// # Errors
///
/// `UsernameRequired` if the user name is missing, then `PasswordRequired` if the password is.
pub fn credentials(caller: &Connection) -> Result<(&[u8], &[u8]), Refusal>
    ensures { MatchResult result
        (λ given. (next : List ℕ → List ℕ → definitions.Answer) → with_credentials (caller_of caller.now) next ≡ next given.0.now given.1.now)
        (λ refusal. (next : List ℕ → List ℕ → definitions.Answer) → with_credentials (caller_of caller.now) next ≡ refused refusal) }
{
    let Some(user) = caller.user() else {
        return Err(Refusal::UsernameRequired);
    };
    let Some(password) = caller.password() else {
        return Err(Refusal::PasswordRequired);
    };
    Ok((user, password))
}

/// Whether the client gave the name of a user and the password of that user.
pub fn has_right_credentials(config: &Config, caller: &Connection) -> bool
    ensures { result ≡ are_right config.now.users caller.now.user caller.now.password }
{
    let Some(name) = caller.user() else {
        return false;
    };
    let Some(password) = caller.password() else {
        return false;
    };
    match config.find_user(name) {
        Some(user) => user.has_password(password),
        None => false,
    }
}

/// Returns the number of the UPS with this name, if the client may use the right on it.
///
/// # Errors
///
/// The errors of [`credentials`]; then `UnknownUps` for an unknown name, and `AccessDenied` if the user is unknown,
/// the password is wrong, or the right is missing.
pub fn authorize(
    scene: &Scene<'_>,
    caller: &Connection,
    right: Right<'_>,
    ups: &[u8],
) -> Result<usize, Refusal>
    ensures { MatchResult result
        (λ u. ((next : ℕ → definitions.Answer) → with_right scene.now (caller_of caller.now) (allows right.entry) ups.now next ≡ next u)
        × (ups_number scene.now ups.now ≡ Some u))
        (λ refusal. (next : ℕ → definitions.Answer) → with_right scene.now (caller_of caller.now) (allows right.entry) ups.now next ≡ refused refusal) }
{
    let (user, password) = credentials(caller)?;
    let u = scene.number_of(ups)?;
    if !has_right(scene.config, user, password, right) {
        return Err(Refusal::AccessDenied);
    }
    Ok(u)
}
