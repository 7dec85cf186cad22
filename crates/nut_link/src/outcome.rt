//! The outcome of a query.
use crate::copied::{Fields, Rows, Text};

/// The outcome of a query.
#[derive(Drop)]
pub enum Outcome {
    /// The server answered `OK`.
    Done,
    /// The words of the answer behind those of the query; for VER, NETVER and HELP all words.
    Said(Fields),
    /// The rows of the list, each without the words of the query.
    List(Rows),
    /// The server refused the query, with an error of this name.
    Refused(Text),
}
