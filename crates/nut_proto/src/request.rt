//! The requests of a client: how the words after GET, LIST and SET are read, and how requests are written.
ghost use Rattle.std.specs.Prelude.{◌≡◌, ◌≤◌, ◌↔◌, ◌++◌, length, IsTrue, OnOk, OnErr};
ghost use Rattle.std.specs.Bool.{OnTrue, OnFalse};
ghost use Rattle.nut_words.specs.Out.{Fits, Exceeds};
ghost use Rattle.nut_proto.specs.Requests.{about, begin_line, end_line, get_forms, get_tracking, list_forms, request_line, set_forms};
ghost use Rattle.nut_proto.specs.inside.Written.{Puts, written};

use crate::cursor::Cursor;
use crate::keyword::is_named;
use crate::line::Line;
use crate::part::{Part, text};
use crate::tracking::switch_word;
use crate::word::Word;
use arrayvec::ArrayVec;
use nut_words::Out;

/// A request of a client to the server (RFC 9271, section 4; NUT developer guide, 9.4 to 9.15). It borrows its words.
///
/// Names and values are as the client gave them and may hold any bytes. They need not name a UPS, a variable or a
/// command that exists.
#[derive(Drop)]
pub enum Request<'a> {
    /// `GET NUMLOGINS`: asks how many connections are logged in to the UPS.
    GetNumLogins {
        ups: Word<'a>,
    },
    /// `GET UPSDESC`: asks for the configured description of the UPS.
    GetUpsDesc {
        ups: Word<'a>,
    },
    /// `GET VAR`: asks for the value of a variable.
    GetVar {
        ups: Word<'a>,
        variable: Word<'a>,
    },
    /// `GET TYPE`: asks whether a variable may be set, and which values it allows.
    GetType {
        ups: Word<'a>,
        variable: Word<'a>,
    },
    /// `GET DESC`: asks for the description of a variable.
    GetDesc {
        ups: Word<'a>,
        variable: Word<'a>,
    },
    /// `GET CMDDESC`: asks for the description of a command.
    GetCmdDesc {
        ups: Word<'a>,
        command: Word<'a>,
    },
    /// `GET TRACKING`: asks whether the connection's requests are tracked.
    GetTracking,
    /// `GET TRACKING n`: asks how the tracked request with this number ended.
    GetTrackingOf {
        number: u32,
    },
    /// `LIST`: asks for rows, between a first and a last line.
    List(ListQuery<'a>),
    /// `SET VAR`: asks to set a variable.
    SetVar {
        ups: Word<'a>,
        variable: Word<'a>,
        value: Word<'a>,
    },
    /// `SET TRACKING`: asks to track the connection's requests from now on, or no longer.
    SetTracking {
        on: bool,
    },
    /// `INSTCMD`: asks the UPS to run a command. The parameter is optional.
    InstCmd {
        ups: Word<'a>,
        command: Word<'a>,
        parameter: Option<Word<'a>>,
    },
    /// `USERNAME`: gives the user name. [`read`](crate::read) takes 1 to [`CREDENTIAL_MAX`](nut_words::CREDENTIAL_MAX)
    /// bytes; [`put`](Request::put) doesn't test the length.
    Username {
        name: Word<'a>,
    },
    /// `PASSWORD`: gives the password. [`read`](crate::read) takes 1 to [`CREDENTIAL_MAX`](nut_words::CREDENTIAL_MAX)
    /// bytes; [`put`](Request::put) doesn't test the length.
    Password {
        password: Word<'a>,
    },
    /// `LOGIN`: says that the client draws power from the UPS.
    Login {
        ups: Word<'a>,
    },
    /// `PRIMARY`: asks whether the client may be the primary, which shuts the UPS down.
    Primary {
        ups: Word<'a>,
    },
    /// `FSD`: forces the shutdown of all who draw power from the UPS.
    Fsd {
        ups: Word<'a>,
    },
    /// `LOGOUT`: ends the connection.
    Logout,
    /// `VER`: asks for the server's name and version.
    Ver,
    /// `NETVER`: asks for the version of the protocol.
    NetVer,
    /// `HELP`: asks for the commands that the server knows.
    Help,
    /// `STARTTLS`: asks to continue in TLS.
    StartTls,
}

/// What a LIST asks for.
#[derive(Drop)]
pub enum ListQuery<'a> {
    /// All UPSes.
    Ups,
    /// The variables of a UPS.
    Var { ups: Word<'a> },
    /// The variables of a UPS that clients may set.
    Rw { ups: Word<'a> },
    /// The commands of a UPS.
    Cmd { ups: Word<'a> },
    /// The enum values of a variable.
    Enum { ups: Word<'a>, variable: Word<'a> },
    /// The ranges of a variable.
    Range { ups: Word<'a>, variable: Word<'a> },
    /// The clients that are logged in to a UPS.
    Client { ups: Word<'a> },
}

impl<'a> Request<'a> {
    /// Reads the words after GET.
    pub(crate) fn get(mut rest: Cursor<'a, '_>) -> Option<Request<'a>>
        ensures { result ≡ about get_forms rest.entry }
    {
        let word = rest.next()?;
        let subject = word.as_bytes();
        if is_named(subject, b"NUMLOGINS") {
            return Some(Request::GetNumLogins { ups: rest.one()? });
        }
        if is_named(subject, b"UPSDESC") {
            return Some(Request::GetUpsDesc { ups: rest.one()? });
        }
        if is_named(subject, b"VAR") {
            let (ups, variable) = rest.two()?;
            return Some(Request::GetVar { ups, variable });
        }
        if is_named(subject, b"TYPE") {
            let (ups, variable) = rest.two()?;
            return Some(Request::GetType { ups, variable });
        }
        if is_named(subject, b"DESC") {
            let (ups, variable) = rest.two()?;
            return Some(Request::GetDesc { ups, variable });
        }
        if is_named(subject, b"CMDDESC") {
            let (ups, command) = rest.two()?;
            return Some(Request::GetCmdDesc { ups, command });
        }
        if is_named(subject, b"TRACKING") {
            return get_tracking(rest);
        }
        None
    }

    /// Reads the words after SET.
    pub(crate) fn set(mut rest: Cursor<'a, '_>) -> Option<Request<'a>>
        ensures { result ≡ about set_forms rest.entry }
    {
        let word = rest.next()?;
        let subject = word.as_bytes();
        if is_named(subject, b"VAR") {
            let (ups, variable, value) = rest.three()?;
            return Some(Request::SetVar {
                ups,
                variable,
                value,
            });
        }
        if is_named(subject, b"TRACKING") {
            return Some(Request::SetTracking { on: rest.switch()? });
        }
        None
    }

    /// Appends the request's line with its line feed.
    ///
    /// Words are written bare if they can be, the value of SET and the parameter of INSTCMD always in quotes. Words of
    /// bytes 0x20 to 0x7E are read back as they were.
    ///
    /// # Errors
    ///
    /// If memory cannot be allocated, or if the whole doesn't fit into a buffer of fixed size. `out` is then as it was.
    pub fn put<O: Out>(&self, out: &mut O) -> Result<(), O::Fault>
        ensures ok { OnOk result (O.held out.new ≡ O.held out.old ++ request_line self.now) }
        ensures err { OnErr result (O.held out.new ≡ O.held out.old) }
        ensures fits { OnOk result (Fits O.most (length (O.held out.old ++ request_line self.now))) }
        ensures full { OnErr result (Exceeds O.most (length (O.held out.old ++ request_line self.now))) }
    {
        self.line().put(out)
    }

    /// Appends the request's line with its line feed, as [`put`](Request::put) does. Returns whether there was room for the
    /// whole: if not, `out` is as it was. Allocates no memory.
    pub fn put_in<const N: usize>(&self, out: &mut ArrayVec<u8, N>) -> bool
        ensures fits { IsTrue result ↔ (length (out.old.items ++ request_line self.now) ≤ N) }
        ensures put { OnTrue result (out.new.items ≡ out.old.items ++ request_line self.now) }
        ensures same { OnFalse result (out.new.items ≡ out.old.items) }
    {
        self.put(out).is_ok()
    }

    #[tactic(auto, unfolding(crate::specs::Requests::request_line, crate::specs::Lines::line))]
    fn line(&self) -> Line<'a>
        ensures { written result ≡ request_line self.now }
    {
        match self {
            Request::GetNumLogins { ups } => Line::of_name(b"GET NUMLOGINS", ups),
            Request::GetUpsDesc { ups } => Line::of_name(b"GET UPSDESC", ups),
            Request::GetVar { ups, variable } => Line::of_names(b"GET VAR", ups, variable),
            Request::GetType { ups, variable } => Line::of_names(b"GET TYPE", ups, variable),
            Request::GetDesc { ups, variable } => Line::of_names(b"GET DESC", ups, variable),
            Request::GetCmdDesc { ups, command } => Line::of_names(b"GET CMDDESC", ups, command),
            Request::GetTracking => Line::Bare(b"GET TRACKING"),
            Request::GetTrackingOf { number } => Line::One(b"GET TRACKING", Part::Number(*number)),
            Request::List(query) => query.line(),
            Request::SetVar {
                ups,
                variable,
                value,
            } => Line::of_names_and_text(b"SET VAR", ups, variable, value),
            Request::SetTracking { on } => Line::One(b"SET TRACKING", text(switch_word(*on))),
            Request::InstCmd {
                ups,
                command,
                parameter: None,
            } => Line::of_names(b"INSTCMD", ups, command),
            Request::InstCmd {
                ups,
                command,
                parameter: Some(parameter),
            } => Line::of_names_and_text(b"INSTCMD", ups, command, parameter),
            Request::Username { name } => Line::of_name(b"USERNAME", name),
            Request::Password { password } => Line::of_name(b"PASSWORD", password),
            Request::Login { ups } => Line::of_name(b"LOGIN", ups),
            Request::Primary { ups } => Line::of_name(b"PRIMARY", ups),
            Request::Fsd { ups } => Line::of_name(b"FSD", ups),
            Request::Logout => Line::Bare(b"LOGOUT"),
            Request::Ver => Line::Bare(b"VER"),
            Request::NetVer => Line::Bare(b"NETVER"),
            Request::Help => Line::Bare(b"HELP"),
            Request::StartTls => Line::Bare(b"STARTTLS"),
        }
    }
}

/// Reads the words after GET TRACKING.
fn get_tracking<'a>(rest: Cursor<'a, '_>) -> Option<Request<'a>>
    ensures { result ≡ get_tracking rest.entry }
{
    if rest.is_empty() {
        return Some(Request::GetTracking);
    }
    Some(Request::GetTrackingOf {
        number: rest.tracking_number()?,
    })
}

impl<'a> ListQuery<'a> {
    /// Reads the words after LIST.
    pub(crate) fn read(mut rest: Cursor<'a, '_>) -> Option<ListQuery<'a>>
        ensures { result ≡ about list_forms rest.entry }
    {
        let word = rest.next()?;
        let subject = word.as_bytes();
        if is_named(subject, b"UPS") {
            return rest.end().and(Some(ListQuery::Ups));
        }
        if is_named(subject, b"VAR") {
            return Some(ListQuery::Var { ups: rest.one()? });
        }
        if is_named(subject, b"RW") {
            return Some(ListQuery::Rw { ups: rest.one()? });
        }
        if is_named(subject, b"CMD") {
            return Some(ListQuery::Cmd { ups: rest.one()? });
        }
        if is_named(subject, b"ENUM") {
            let (ups, variable) = rest.two()?;
            return Some(ListQuery::Enum { ups, variable });
        }
        if is_named(subject, b"RANGE") {
            let (ups, variable) = rest.two()?;
            return Some(ListQuery::Range { ups, variable });
        }
        if is_named(subject, b"CLIENT") {
            return Some(ListQuery::Client { ups: rest.one()? });
        }
        None
    }

    #[tactic(auto, unfolding(crate::specs::Requests::request_line, crate::specs::Lines::line))]
    fn line(&self) -> Line<'a>
        ensures { written result ≡ request_line (Request.List self.now) }
    {
        match self {
            ListQuery::Ups => Line::Bare(b"LIST UPS"),
            ListQuery::Var { ups } => Line::of_name(b"LIST VAR", ups),
            ListQuery::Rw { ups } => Line::of_name(b"LIST RW", ups),
            ListQuery::Cmd { ups } => Line::of_name(b"LIST CMD", ups),
            ListQuery::Enum { ups, variable } => Line::of_names(b"LIST ENUM", ups, variable),
            ListQuery::Range { ups, variable } => Line::of_names(b"LIST RANGE", ups, variable),
            ListQuery::Client { ups } => Line::of_name(b"LIST CLIENT", ups),
        }
    }

    /// Appends a mark, and then the line of the request. It fails as [`Request::put`] does.
    fn put_marked<O: Out>(&self, out: &mut O, mark: &[u8]) -> Result<(), O::Fault>
        ensures { Puts O.most (O.held out.old) (O.held out.new) (mark.now ++ request_line (Request.List self.now)) result }
    {
        let before = out.len();
        out.append(mark)?;
        let outcome = self.line().put(out);
        if outcome.is_err() {
            out.truncate(before);
        }
        outcome
    }

    /// Appends the line before the rows of the list: `BEGIN LIST` and the query.
    ///
    /// # Errors
    ///
    /// If memory cannot be allocated, or if the whole doesn't fit into a buffer of fixed size. `out` is then as it was.
    #[tactic(auto, using(std::proofs::lemmas::Grind::common_steps, crate::proofs::Marks::begin_marked))]
    pub fn put_begin<O: Out>(&self, out: &mut O) -> Result<(), O::Fault>
        ensures ok { OnOk result (O.held out.new ≡ O.held out.old ++ begin_line self.now) }
        ensures err { OnErr result (O.held out.new ≡ O.held out.old) }
        ensures fits { OnOk result (Fits O.most (length (O.held out.old ++ begin_line self.now))) }
        ensures full { OnErr result (Exceeds O.most (length (O.held out.old ++ begin_line self.now))) }
    {
        self.put_marked(out, b"BEGIN ")
    }

    /// Appends the line after the rows of the list: `END LIST` and the query.
    ///
    /// # Errors
    ///
    /// If memory cannot be allocated, or if the whole doesn't fit into a buffer of fixed size. `out` is then as it was.
    #[tactic(auto, using(std::proofs::lemmas::Grind::common_steps, crate::proofs::Marks::end_marked))]
    pub fn put_end<O: Out>(&self, out: &mut O) -> Result<(), O::Fault>
        ensures ok { OnOk result (O.held out.new ≡ O.held out.old ++ end_line self.now) }
        ensures err { OnErr result (O.held out.new ≡ O.held out.old) }
        ensures fits { OnOk result (Fits O.most (length (O.held out.old ++ end_line self.now))) }
        ensures full { OnErr result (Exceeds O.most (length (O.held out.old ++ end_line self.now))) }
    {
        self.put_marked(out, b"END ")
    }
}
