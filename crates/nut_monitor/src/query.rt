//! Which query a monitor puts on a link, and when.
ghost use Rattle.std.specs.Prelude.{◌≡◌, true};
ghost use Rattle.nut_link.specs.Asking.{is_writable};
ghost use Rattle.nut_monitor_spec.specs.Configuration.{configuration_of, line_of};
ghost use Rattle.nut_monitor_spec.specs.Decision.{interval as interval_of, is_early as too_early, is_same as same, next_query as next_of, opening as opening_of, wanted as wanted_in};
ghost use Rattle.nut_monitor_spec.specs.Query.{request as request_of};

use crate::time::is_within;
use nut_conf::{MonConfig, Monitored, Role};
use nut_monitor_spec::{LastQuery, Phase, Query};
use nut_proto::{Request, Word};

/// Whether this machine is the primary of a line's UPS, which shuts down last.
pub fn is_primary(line: &Monitored) -> bool
    ensures { result ≡ (line_of line.now).primary }
{
    matches!(&line.role, Role::Primary)
}

/// Returns the request that a query sends for the UPS of a MONITOR line.
pub fn request(line: &Monitored, query: Query) -> Request<'_>
    ensures value { result ≡ request_of (line_of line.now) query }
    ensures writable { is_writable (request_of (line_of line.now) query) ≡ true }
{
    match query {
        Query::Username => Request::Username {
            name: Word::new(line.user.as_bytes()),
        },
        Query::Password => Request::Password {
            password: Word::new(line.password.as_bytes()),
        },
        Query::Login => Request::Login {
            ups: Word::new(line.target.ups.as_bytes()),
        },
        Query::Primary => Request::Primary {
            ups: Word::new(line.target.ups.as_bytes()),
        },
        Query::Status => Request::GetVar {
            ups: Word::new(line.target.ups.as_bytes()),
            variable: Word::new(b"ups.status"),
        },
        Query::Fsd => Request::Fsd {
            ups: Word::new(line.target.ups.as_bytes()),
        },
        Query::NumLogins => Request::GetNumLogins {
            ups: Word::new(line.target.ups.as_bytes()),
        },
    }
}

/// Returns how many seconds must pass before a query is put again.
fn interval(config: &MonConfig, query: Query) -> u64
    ensures { result ≡ interval_of (configuration_of config.now) query }
{
    match query {
        Query::Username | Query::Password | Query::Login | Query::Primary => 0,
        Query::Status => u64::from(config.poll_freq.value),
        Query::Fsd | Query::NumLogins => 1,
    }
}

/// Whether a query is the same as the last one, and one that is repeated: `Status`, `Fsd` or `NumLogins`.
fn is_same(last: Query, query: Query) -> bool
    ensures { result ≡ same last query }
{
    match last {
        Query::Status => matches!(query, Query::Status),
        Query::Fsd => matches!(query, Query::Fsd),
        Query::NumLogins => matches!(query, Query::NumLogins),
        Query::Username | Query::Password | Query::Login | Query::Primary => false,
    }
}

/// Returns the query that opens a link next: USERNAME, PASSWORD, LOGIN, and on a primary line PRIMARY. `None` once
/// these were put.
fn opening(line: &Monitored, last: Option<LastQuery>) -> Option<Query>
    ensures { result ≡ opening_of (line_of line.now) last }
{
    let Some(last) = last else {
        return Some(Query::Username);
    };
    match last.query {
        Query::Username => Some(Query::Password),
        Query::Password => Some(Query::Login),
        Query::Login => {
            if is_primary(line) {
                Some(Query::Primary)
            } else {
                None
            }
        }
        Query::Primary | Query::Status | Query::Fsd | Query::NumLogins => None,
    }
}

/// Returns what is asked once a link is opened, by the phase.
fn wanted(phase: Phase, primary: bool, forced: bool) -> Option<Query>
    ensures { result ≡ wanted_in phase primary forced }
{
    match phase {
        Phase::Watching => Some(Query::Status),
        Phase::Forcing => {
            if !primary {
                None
            } else if forced {
                Some(Query::NumLogins)
            } else {
                Some(Query::Fsd)
            }
        }
        Phase::Final | Phase::Halted { .. } => None,
    }
}

/// Whether the query was the last one on the link, and its interval hasn't passed yet.
fn is_early(config: &MonConfig, clock: u64, query: Query, last: Option<LastQuery>) -> bool
    ensures { result ≡ too_early (configuration_of config.now) clock query last }
{
    match last {
        Some(last) => {
            is_same(last.query, query) && is_within(interval(config, query), clock, last.moment)
        }
        None => false,
    }
}

/// Returns the query to put on a link without an outstanding query, if there is one.
pub fn next_query(
    config: &MonConfig,
    line: &Monitored,
    clock: u64,
    phase: Phase,
    last: Option<LastQuery>,
    forced: bool,
) -> Option<Query>
    ensures { result ≡ next_of (configuration_of config.now) (line_of line.now) clock phase true last forced }
{
    if let Some(query) = opening(line, last) {
        return Some(query);
    }
    let Some(query) = wanted(phase, is_primary(line), forced) else {
        return None;
    };
    if is_early(config, clock, query, last) {
        return None;
    }
    Some(query)
}
