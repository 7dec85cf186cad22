//! Reports to the operator who did what: who changed something, who logged in and out, and who was refused.

ghost use Rattle.nut_server_sockets.specs.Seats.{KeepsSeats};
ghost use Rattle.nut_server_sockets.specs.inside.Due.{NoMoreAreDue};

use crate::clients::Clients;
use crate::deed_report::{DeedReport, Who};
use crate::denials::Denials;
use crate::drivers::Drivers;
use crate::login::Login;
use nut_poll::{Reports, text_of};
use nut_server::{Act, Deed, Server};

/// Reports what a client did, and notes who is logged in. It stands apart, so that no arrival without a deed pays for the place
/// of a login.
#[inline(never)]
pub fn tell_deed(
    deed: &Deed,
    server: &Server,
    clients: &mut Clients,
    drivers: &mut Drivers,
    denials: &mut Denials,
    reports: &mut Reports<'_>,
)
    ensures seats { KeepsSeats clients.old.sockets clients.new.sockets }
    ensures due { NoMoreAreDue clients.old.sockets clients.new.sockets }
{
    let who = Who {
        user: text_of(deed.user.as_slice()),
        address: text_of(deed.address.as_slice()),
    };
    match &deed.act {
        Act::Set(u, name) => {
            let name = text_of(name.as_slice());
            reports.warn(DeedReport::Set(ups_named(server, *u), who, name));
        }
        Act::Command(u, name) => {
            let name = text_of(name.as_slice());
            reports.warn(DeedReport::Command(ups_named(server, *u), who, name));
        }
        Act::Force(u) => {
            // another FSD changes nothing
            let is_new = drivers
                .get_mut(*u)
                .is_none_or(|driver| driver.note_forced());
            if is_new {
                reports.warn(forced(server, *u, who));
            }
        }
        Act::LogIn(u) => {
            let login = Login::new(deed, ups_named(server, *u).as_bytes());
            reports.tell(DeedReport::LoggedIn(login.ups(), login.who()));
            clients.note_login(deed.connection, login);
        }
        Act::LogOut => {
            if let Some(login) = clients.end_login(deed.connection) {
                reports.tell(DeedReport::LoggedOut(login.ups(), login.who()));
            }
        }
        Act::Refused => denials.note(deed, known_user(server, deed), reports),
    }
}

/// Returns the report that the connection of a login ended.
pub fn left(login: &Login) -> DeedReport<'_> {
    DeedReport::Left(login.ups(), login.who())
}

/// Returns the report that a client forced a shutdown of a UPS. The machines of a UPS without a live status don't hear of it.
fn forced<'a>(server: &'a Server, u: usize, who: Who<'a>) -> DeedReport<'a> {
    let ups = ups_named(server, u);
    if server.is_connected(u) && !server.is_stale(u) {
        DeedReport::Forced(ups, who)
    } else {
        DeedReport::ForcedUntold(ups, who)
    }
}

/// Returns the name of the UPS with this number.
fn ups_named(server: &Server, u: usize) -> &str {
    text_of(server.ups_name(u).unwrap_or(&[]))
}

/// Returns the user name that a client gave, if upsd.users has such a user, and else nothing: the name may be a password
/// that was typed in the wrong place.
fn known_user<'a>(server: &Server, deed: &'a Deed) -> &'a [u8] {
    let user = deed.user.as_slice();
    if server.config().find_user(user).is_some() {
        user
    } else {
        &[]
    }
}
