//! What clients do that an operator wants to know of: who changed something, and who was refused.

use crate::address::Address;
use crate::connection::Connection;
use crate::effect::Effect;
use arrayvec::ArrayVec;
use nut_words::{CREDENTIAL_MAX, NAME_MAX, cut};

/// What a client did.
#[derive(Drop)]
pub enum Act {
    /// The driver of the UPS with this number was asked to set the variable with this name.
    Set(usize, ArrayVec<u8, NAME_MAX>),
    /// The driver of the UPS with this number was asked to run the command with this name.
    Command(usize, ArrayVec<u8, NAME_MAX>),
    /// It logged in to the UPS with this number.
    LogIn(usize),
    /// It logged out, whether or not it was logged in to a UPS.
    LogOut,
    /// It forced a shutdown of the UPS with this number, perhaps not as the first.
    Force(usize),
    /// It was answered ACCESS-DENIED.
    Refused,
}

impl Act {
    /// Returns what a client did by a request that had this effect, if it is one of these acts. `line` is the request to
    /// the driver, if the effect has one.
    fn of(effect: &Effect<'_>, line: &[u8], is_denied: bool) -> Option<Act> {
        match effect {
            Effect::Ask(u, _) => Some(asked(*u, line)),
            Effect::Login(u) => Some(Act::LogIn(*u)),
            Effect::Logout => Some(Act::LogOut),
            Effect::Force(u) => Some(Act::Force(*u)),
            Effect::Nothing if is_denied => Some(Act::Refused),
            Effect::Nothing | Effect::User(_) | Effect::Password(_) | Effect::Tracking(_) => None,
        }
    }
}

/// Returns what the driver of a UPS is asked by this line: SET or INSTCMD, and then the name, which needs no quotes.
fn asked(u: usize, line: &[u8]) -> Act {
    let (verb, rest) = cut(b' ', line);
    let (rest, _) = cut(b'\n', rest.unwrap_or(&[]));
    let (name, _) = cut(b' ', rest);
    if verb == b"SET".as_slice() {
        Act::Set(u, copied(name))
    } else {
        Act::Command(u, copied(name))
    }
}

/// What a client did, and which client: what is known of it by then, since its connection may end at once. It holds neither
/// a password nor a value.
#[derive(Drop)]
pub struct Deed {
    /// The number of the connection.
    pub connection: u64,
    /// The address of the client.
    pub address: Address,
    /// The user name that the client gave; empty if it gave none.
    pub user: ArrayVec<u8, CREDENTIAL_MAX>,
    /// What it did.
    pub act: Act,
}

/// Notes a request of a connection that had this effect, if it is a deed. `line` is the request to the driver, if the effect
/// has one.
pub fn note(
    deed: &mut Option<Deed>,
    connection: &Connection,
    effect: &Effect<'_>,
    line: &[u8],
    is_denied: bool,
) {
    // most requests only ask for something
    if is_denied || !matches!(effect, Effect::Nothing) {
        note_act(deed, connection, Act::of(effect, line, is_denied));
    }
}

/// Notes an act of a connection, if there is one.
fn note_act(deed: &mut Option<Deed>, connection: &Connection, act: Option<Act>) {
    if let Some(act) = act {
        *deed = Some(Deed {
            connection: connection.number(),
            address: copied(connection.address()),
            user: copied(connection.user().unwrap_or(&[])),
            act,
        });
    }
}

/// Returns a copy of the bytes, which is empty if they are too long.
fn copied<const N: usize>(bytes: &[u8]) -> ArrayVec<u8, N> {
    let mut copy = ArrayVec::new();
    let _ = copy.try_extend_from_slice(bytes);
    copy
}
