//! Answers LIST (RFC 9271).

ghost use Rattle.std.specs.Prelude.{◌≡◌};
ghost use Rattle.nut_server_spec.specs.Answer.{list_answer};
ghost use Rattle.nut_server.specs.inside.Answers.{outcome};

use crate::answer::{Answer, ListRows};
use crate::queries::variable_of;
use crate::scene::Scene;
use nut_proto::{ListQuery, Refusal};

/// Answers LIST: the rows that the query asks for, or the refusal.
///
/// # Errors
///
/// `UnknownUps` if there is no such UPS; then `DriverNotConnected` or `DataStale` if its data can't be relied on; then
/// `VarNotSupported` if it has no such variable. LIST UPS is never refused.
pub fn list_answer<'a>(
    scene: &'a Scene<'_>,
    query: &'a ListQuery<'_>,
) -> Result<Answer<'a>, Refusal>
    ensures { outcome result ≡ list_answer scene.now query.now }
{
    match query {
        ListQuery::Ups => Ok(Answer::Listing(query, ListRows::Upses(scene.config))),
        ListQuery::Var { ups } => {
            let device = scene.device_named(ups.as_bytes())?;
            let rows = ListRows::Variables(ups.as_bytes(), device);
            Ok(Answer::Listing(query, rows))
        }
        ListQuery::Rw { ups } => {
            let device = scene.device_named(ups.as_bytes())?;
            let rows = ListRows::Writable(ups.as_bytes(), device);
            Ok(Answer::Listing(query, rows))
        }
        ListQuery::Cmd { ups } => {
            let device = scene.device_named(ups.as_bytes())?;
            let rows = ListRows::Commands(ups.as_bytes(), device);
            Ok(Answer::Listing(query, rows))
        }
        ListQuery::Enum { ups, variable } => {
            let device = scene.device_named(ups.as_bytes())?;
            let found = variable_of(device, variable.as_bytes())?;
            let rows = ListRows::Enums(ups.as_bytes(), variable.as_bytes(), found);
            Ok(Answer::Listing(query, rows))
        }
        ListQuery::Range { ups, variable } => {
            let device = scene.device_named(ups.as_bytes())?;
            let found = variable_of(device, variable.as_bytes())?;
            let rows = ListRows::Ranges(ups.as_bytes(), variable.as_bytes(), found);
            Ok(Answer::Listing(query, rows))
        }
        ListQuery::Client { ups } => {
            let u = scene.number_of(ups.as_bytes())?;
            scene.data_of(u)?;
            let rows = ListRows::Clients(ups.as_bytes(), u, scene.connections);
            Ok(Answer::Listing(query, rows))
        }
    }
}
