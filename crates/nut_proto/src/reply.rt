//! The lines that the server answers with, and how they are written.
ghost use Rattle.std.specs.Prelude.{◌≡◌, ◌++◌, length, OnOk, OnErr};
ghost use Rattle.nut_words.specs.Out.{Fits, Exceeds};
ghost use Rattle.nut_proto.specs.Lines.{line};
ghost use Rattle.nut_proto.specs.Replies.{reply_line, reply_parts, type_parts, kind_part};
ghost use Rattle.nut_proto.specs.inside.Written.{written};

use crate::line::Line;
use crate::part::{Part, quoted, text, word};
use crate::refusal::Refusal;
use crate::tracking::{TrackingStatus, switch_word};
use crate::word::Word;
use nut_words::Out;

/// The kind of values that a variable allows, as `GET TYPE` reports it.
#[derive(Clone, Copy, Debug, PartialEq, Eq)]
pub enum VariableKind {
    /// One of the values that `LIST ENUM` lists.
    Enum,
    /// A whole number in one of the ranges that `LIST RANGE` lists.
    Range,
    /// A text of at most this many bytes.
    String(u32),
    /// Any value of at most [`VALUE_MAX`](nut_words::VALUE_MAX) bytes. It need not be a number.
    Number,
}

/// A line of the server (RFC 9271, section 4; NUT developer guide, 9.4 to 9.15). It borrows its words.
///
/// The answer to a LIST consists of the query's `put_begin`, a row for each entry, and the query's `put_end`.
#[derive(Drop)]
pub enum Reply<'a> {
    /// `OK`: the answer to SET, INSTCMD, USERNAME, PASSWORD, LOGIN and PRIMARY.
    Accepted,
    /// `OK TRACKING n`: the answer to a SET or an INSTCMD that is tracked under this number.
    AcceptedAs {
        number: u32,
    },
    /// `OK FSD-SET`: the answer to FSD.
    FsdSet,
    /// `OK Goodbye`: the answer to LOGOUT.
    Goodbye,
    /// `ERR` and the name of the refusal: an answer to any request.
    Refused(Refusal),
    /// The answer to VER: the server's name and version.
    Version,
    /// The answer to NETVER: the version of the protocol.
    NetworkVersion,
    /// The answer to HELP: the commands that the server knows.
    Commands,
    /// The answer to GET NUMLOGINS.
    NumLogins {
        ups: Word<'a>,
        count: u32,
    },
    /// The answer to GET UPSDESC.
    UpsDesc {
        ups: Word<'a>,
        description: Word<'a>,
    },
    /// The answer to GET TYPE.
    Type {
        ups: Word<'a>,
        variable: Word<'a>,
        writable: bool,
        kind: VariableKind,
    },
    /// The answer to GET DESC.
    Desc {
        ups: Word<'a>,
        variable: Word<'a>,
        description: Word<'a>,
    },
    /// The answer to GET CMDDESC.
    CmdDesc {
        ups: Word<'a>,
        command: Word<'a>,
        description: Word<'a>,
    },
    /// The answer to GET VAR, and a row of LIST VAR.
    Var {
        ups: Word<'a>,
        variable: Word<'a>,
        value: Word<'a>,
    },
    /// The answer to GET TRACKING: whether the connection's requests are tracked.
    TrackingIs {
        on: bool,
    },
    /// The answer to GET TRACKING of a number: how the request with this number ended.
    Tracking {
        number: u32,
        status: TrackingStatus,
    },
    /// A row of LIST UPS.
    Ups {
        ups: Word<'a>,
        description: Word<'a>,
    },
    /// A row of LIST RW.
    Rw {
        ups: Word<'a>,
        variable: Word<'a>,
        value: Word<'a>,
    },
    /// A row of LIST CMD.
    Cmd {
        ups: Word<'a>,
        command: Word<'a>,
    },
    /// A row of LIST ENUM.
    Enum {
        ups: Word<'a>,
        variable: Word<'a>,
        value: Word<'a>,
    },
    /// A row of LIST RANGE. Both ends belong to the range.
    Range {
        ups: Word<'a>,
        variable: Word<'a>,
        min: i32,
        max: i32,
    },
    /// A row of LIST CLIENT.
    Client {
        ups: Word<'a>,
        address: Word<'a>,
    },
}

impl<'a> Reply<'a> {
    /// Appends the line with its line feed.
    ///
    /// Names are written bare if they can be, values and descriptions always in quotes. Words of bytes 0x20 to 0x7E are
    /// read back as they were.
    ///
    /// # Errors
    ///
    /// If memory cannot be allocated, or if the whole doesn't fit into a buffer of fixed size. `out` is then as it was.
    #[tactic(auto, using(std::proofs::lemmas::Grind::common_steps))]
    pub fn put<O: Out>(&self, out: &mut O) -> Result<(), O::Fault>
        ensures ok { OnOk result (O.held out.new ≡ O.held out.old ++ reply_line self.now) }
        ensures err { OnErr result (O.held out.new ≡ O.held out.old) }
        ensures fits { OnOk result (Fits O.most (length (O.held out.old ++ reply_line self.now))) }
        ensures full { OnErr result (Exceeds O.most (length (O.held out.old ++ reply_line self.now))) }
    {
        self.line().put(out)
    }

    #[tactic(auto, unfolding(crate::specs::Replies::reply_line, crate::specs::Lines::line))]
    fn line(&self) -> Line<'a>
        ensures { written result ≡ reply_line self.now }
    {
        match self {
            Reply::Accepted => Line::Bare(b"OK"),
            Reply::AcceptedAs { number } => Line::One(b"OK TRACKING", Part::Number(*number)),
            Reply::FsdSet => Line::Bare(b"OK FSD-SET"),
            Reply::Goodbye => Line::Bare(b"OK Goodbye"),
            Reply::Refused(refusal) => Line::One(b"ERR", text(refusal.name())),
            Reply::Version => Line::Bare(b"Network UPS Tools upsd profile 1.3"),
            Reply::NetworkVersion => Line::Bare(b"1.3"),
            Reply::Commands => Line::Bare(
                b"Commands: GET LIST SET INSTCMD USERNAME PASSWORD LOGIN PRIMARY FSD LOGOUT VER NETVER HELP STARTTLS",
            ),
            Reply::NumLogins { ups, count } => count_line(ups, *count),
            Reply::UpsDesc { ups, description } => Line::of_name_and_text(
                b"UPSDESC",
                ups,
                description,
            ),
            Reply::Type {
                ups,
                variable,
                writable,
                kind,
            } => type_line(ups, variable, *writable, *kind),
            Reply::Desc {
                ups,
                variable,
                description,
            } => Line::of_names_and_text(b"DESC", ups, variable, description),
            Reply::CmdDesc {
                ups,
                command,
                description,
            } => Line::of_names_and_text(b"CMDDESC", ups, command, description),
            Reply::Var {
                ups,
                variable,
                value,
            } => Line::of_names_and_text(b"VAR", ups, variable, value),
            Reply::TrackingIs { on } => Line::One(b"TRACKING", text(switch_word(*on))),
            Reply::Tracking { number, status } => Line::Two(
                b"TRACKING",
                Part::Number(*number),
                text(status.word()),
            ),
            Reply::Ups { ups, description } => Line::of_name_and_text(b"UPS", ups, description),
            Reply::Rw {
                ups,
                variable,
                value,
            } => Line::of_names_and_text(b"RW", ups, variable, value),
            Reply::Cmd { ups, command } => Line::of_names(b"CMD", ups, command),
            Reply::Enum {
                ups,
                variable,
                value,
            } => Line::of_names_and_text(b"ENUM", ups, variable, value),
            Reply::Range {
                ups,
                variable,
                min,
                max,
            } => range_line(ups, variable, *min, *max),
            Reply::Client { ups, address } => Line::of_names(b"CLIENT", ups, address),
        }
    }
}

/// Returns the answer to GET NUMLOGINS.
#[tactic(auto, unfolding(crate::specs::Lines::line))]
fn count_line<'a>(ups: &Word<'a>, count: u32) -> Line<'a>
    ensures { written result ≡ line (reply_parts (Reply.NumLogins ups.now count)) }
{
    Line::Two(b"NUMLOGINS", word(ups), Part::Number(count))
}

/// Returns a row of LIST RANGE.
#[tactic(auto, unfolding(crate::specs::Lines::line))]
fn range_line<'a>(ups: &Word<'a>, variable: &Word<'a>, min: i32, max: i32) -> Line<'a>
    ensures { written result ≡ line (reply_parts (Reply.Range ups.now variable.now min max)) }
{
    Line::Four(
        b"RANGE",
        word(ups),
        word(variable),
        Part::QuotedNumber(min),
        Part::QuotedNumber(max),
    )
}

#[tactic(auto, unfolding(crate::specs::Lines::line))]
fn type_line<'a>(
    ups: &Word<'a>,
    variable: &Word<'a>,
    writable: bool,
    kind: VariableKind,
) -> Line<'a>
    ensures { written result ≡ line (type_parts ups.now variable.now writable kind) }
{
    if writable {
        Line::Four(
            b"TYPE",
            word(ups),
            word(variable),
            text(b"RW"),
            kind_part(kind),
        )
    } else {
        Line::Three(b"TYPE", word(ups), word(variable), kind_part(kind))
    }
}

fn kind_part<'a>(kind: VariableKind) -> Part<'a>
    ensures { result ≡ kind_part kind }
{
    match kind {
        VariableKind::Enum => text(b"ENUM"),
        VariableKind::Range => text(b"RANGE"),
        VariableKind::String(limit) => Part::StringOf(limit),
        VariableKind::Number => text(b"NUMBER"),
    }
}
