//! What the outcome of a query gives, or the failure with which it ends a tool.
ghost use Rattle.nut_client.specs.Script.{on_done, on_number, on_rows, on_words};
ghost use Rattle.nut_client.specs.inside.Between.{Gives};

use crate::failure::ToolFailure;
use nut_link::{Fields, Outcome, Rows};
use nut_proto::tracking_number;

/// Returns the rows of an answer to a LIST, or the failure of a query that has no such answer.
pub(crate) fn rows_of(outcome: Outcome) -> Result<Rows, ToolFailure>
    ensures { Gives on_rows outcome result }
{
    match outcome {
        Outcome::List(rows) => Ok(rows),
        Outcome::Refused(name) => Err(ToolFailure::Refused(name)),
        Outcome::Done | Outcome::Said(_) => Err(ToolFailure::BadAnswer),
    }
}

/// Returns the words of an answer to a GET, or the failure of a query that has no such answer.
pub(crate) fn words_of(outcome: Outcome) -> Result<Fields, ToolFailure>
    ensures { Gives on_words outcome result }
{
    match outcome {
        Outcome::Said(words) => Ok(words),
        Outcome::Refused(name) => Err(ToolFailure::Refused(name)),
        Outcome::Done | Outcome::List(_) => Err(ToolFailure::BadAnswer),
    }
}

/// Succeeds if the server answered `OK`, be it with a number or without one, else returns the failure.
pub(crate) fn done_of(outcome: Outcome) -> Result<(), ToolFailure>
    ensures { Gives (λ next. on_done (next tt)) outcome result }
{
    match outcome {
        Outcome::Done | Outcome::Said(_) => Ok(()),
        Outcome::Refused(name) => Err(ToolFailure::Refused(name)),
        Outcome::List(_) => Err(ToolFailure::BadAnswer),
    }
}

/// Returns the number of a tracked request, or the failure of a request that has none.
pub(crate) fn number_of(outcome: Outcome) -> Result<u32, ToolFailure>
    ensures { Gives on_number outcome result }
{
    match outcome {
        Outcome::Said(words) => match tracking_number(words.get(0)) {
            Some(number) => Ok(number),
            None => Err(ToolFailure::Untracked),
        },
        Outcome::Done => Err(ToolFailure::Untracked),
        Outcome::Refused(name) => Err(ToolFailure::Refused(name)),
        Outcome::List(_) => Err(ToolFailure::BadAnswer),
    }
}
