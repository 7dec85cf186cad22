//! The client's end of a connection to upsd (RFC 9271): a link, which asks one query after the other. It accepts a line
//! as an answer only if it matches the query.
//!
//! What answer a request expects and when a line matches it is in `specs/Matching.antt`, what a link is and how each call
//! and each line moves it in `specs/Link.antt`.
#![tactic(auto)]

mod copied;
mod exchange;
mod expected;
mod fault;
mod heading;
mod laws;
mod limits;
mod link;
mod outcome;
mod query;

pub use copied::{Fields, Rows, Text};
pub use exchange::{Exchange, QueryState};
pub use expected::{AnswerKind, ExpectedAnswer, More};
pub use fault::LinkFault;
pub use heading::{Heading, HeadingWord};
pub use laws::{bounds_stay, cuts_do_not_matter, ok_takes_no_memory, replies_match, rests_stay};
pub use limits::{QUERY_MAX, query_limits};
pub use link::Link;
pub use outcome::Outcome;
pub use query::AskedQuery;
