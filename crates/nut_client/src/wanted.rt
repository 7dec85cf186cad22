//! What a tool is asked to do.
use nut_proto::Word;

/// What a tool is asked to do.
#[derive(Drop)]
pub enum Wanted<'a> {
    /// All variables of the UPS with their values: `upsc NAME`.
    Variables,
    /// All variables of the UPS with their values, as a JSON object: `upsc -j NAME`.
    Object,
    /// The value of one variable: `upsc NAME VAR`.
    Value(Word<'a>),
    /// The value of one variable, as a JSON object: `upsc -j NAME VAR`.
    Member(Word<'a>),
    /// The names of the server's UPSes: `upsc -l`.
    Names,
    /// The names and descriptions of the server's UPSes: `upsc -L`.
    Descriptions,
    /// The addresses of the clients that are logged in to the UPS: `upsc -c NAME`.
    Clients,
    /// All writable variables, with the values that they may have: `upsrw NAME`.
    Settings,
    /// All commands of the UPS with their descriptions: `upscmd -l NAME`.
    Commands,
    /// Something that the UPS does for the user of this name and password: `upsrw -s`, `upscmd`.
    Does(Word<'a>, Word<'a>, UpsDeed<'a>, Until),
}

/// How long a tool stays if it has a UPS do something.
#[derive(Clone, Copy)]
pub enum Until {
    /// Until the server has accepted the request.
    Accepted,
    /// Until the request has ended: `-w`. The tool asks at once, and again after each of at most ten pauses of a
    /// second. The time that the queries take isn't counted.
    Ended,
}

/// Something that a UPS is told to do.
#[derive(Drop)]
pub enum UpsDeed<'a> {
    /// Set this variable to this value.
    Set(Word<'a>, Word<'a>),
    /// Carry out this instant command, with this parameter if there is one.
    Command(Word<'a>, Option<Word<'a>>),
}
