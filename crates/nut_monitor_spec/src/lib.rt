//! What a monitor of UPSes receives and decides (upsmon(8)): definitions, and the laws that tie the machine of a
//! monitor to the history of its events.
#![tactic(auto)]

ghost use Rattle.nut_monitor_spec.specs.machine.Machine.{KeepsContent};
ghost use Rattle.nut_monitor_spec.specs.machine.MachineOutcome.{AnswersKeepContent};
ghost use Rattle.nut_monitor_spec.specs.laws.Laws.{AnswersAreTold, AnswersComeInTurn, CutsDoNotMatter, LinksAreBounded, LinksAreTold, LoginsFollowFsd, NoticesAreFew, NoticesComeInOrder, OthersStay, QueriesComeAlone, SentAndWaitingIsDue, ShutdownStays};
ghost use Rattle.nut_monitor_spec.specs.examples.Examples.{CommunicationExamples, EdgeExamples, OrderExamples, PrimaryExamples, RefusalExamples, RoomExamples, SecondaryExamples};

mod limits;

pub use limits::{NOTICES_MAX, notice_limits};
use nut_conf::Notice as NoticeKind;
use nut_link::Outcome;
use thiserror::Error;

/// The flags in a UPS's `ups.status` that a monitor acts on.
#[derive(Clone, Copy, Debug, PartialEq, Eq)]
pub struct StatusFlags {
    /// `OL`
    pub on_line: bool,
    /// `OB`
    pub on_battery: bool,
    /// `LB`
    pub low_battery: bool,
    /// `FSD`
    pub forced_shutdown: bool,
    /// `RB`
    pub replace_battery: bool,
    /// `CAL`
    pub calibrating: bool,
}

/// Whether the status of a UPS is available.
#[derive(Clone, Copy, Debug, PartialEq, Eq)]
pub enum Communication {
    /// Before the first answer to a status query, its first refusal, and the first loss of a link.
    Never,
    /// The last status query was answered by a status, and the link wasn't lost since.
    Good,
    /// The last status query was refused, or the link was lost since.
    Bad,
}

/// What a monitor asks its server on the link of a MONITOR line (RFC 9271, section 4).
#[derive(Clone, Copy, Debug, PartialEq, Eq)]
pub enum Query {
    /// `USERNAME user`
    Username,
    /// `PASSWORD password`
    Password,
    /// `LOGIN ups`
    Login,
    /// `PRIMARY ups`
    Primary,
    /// `GET VAR ups ups.status`
    Status,
    /// `FSD ups`
    Fsd,
    /// `GET NUMLOGINS ups`
    NumLogins,
}

/// The last query on a link, and the moment at which it was put, in seconds since the start.
#[derive(Clone, Copy, Debug, PartialEq, Eq)]
pub struct LastQuery {
    /// What was asked.
    pub query: Query,
    /// When it was put.
    pub moment: u64,
}

/// The last answer on a link.
#[derive(Drop)]
pub struct LastAnswer {
    /// The query that it answers.
    pub asked: LastQuery,
    /// What it says.
    pub outcome: Outcome,
}

/// What is known of the UPS of a MONITOR line. Moments are in seconds since the start.
#[derive(Clone, Copy, Debug, PartialEq, Eq)]
pub struct Known {
    /// The flags of the last status, if there was one.
    pub flags: Option<StatusFlags>,
    /// The moment of the last status, 0 if there was none.
    pub polled: u64,
    /// The moment of the last status without both OB and LB; if there is none, the moment of the first status.
    pub calm: u64,
    /// Whether the server answers with a status.
    pub communication: Communication,
    /// The moment of the last REPLBATT notice: the battery needs to be replaced.
    pub replace_told: Option<u64>,
    /// The moment of the last NOCOMM notice: the UPS is unavailable.
    pub silence_told: Option<u64>,
    /// Whether an FSD for it was answered OK.
    pub forced: bool,
    /// The number of clients logged in to it, by the last answer.
    pub logins: Option<u32>,
}

/// A notice to the administrator (NOTIFYFLAG in upsmon.conf(5)).
#[derive(Clone, Copy, Debug, PartialEq, Eq)]
pub struct Notice {
    /// What it reports.
    pub kind: NoticeKind,
    /// The number of the MONITOR line of the UPS that it is about, from 0 on; `None` for SHUTDOWN.
    pub line: Option<usize>,
}

/// How far a shutdown has come.
#[derive(Clone, Copy, Debug, PartialEq, Eq)]
pub enum Phase {
    /// No shutdown has begun.
    Watching,
    /// A primary waits until all other clients have logged out, or until HOSTSYNC has passed.
    Forcing,
    /// SHUTDOWN was given, and FINALDELAY passes.
    Final,
    /// The machine has to be halted. `flag` says whether a MONITOR line is primary: then the UPS has to be ordered to
    /// cut its power.
    Halted { flag: bool },
}

/// Why an event is refused. All faults but `Memory` leave the monitor unchanged.
#[derive(Clone, Copy, Debug, PartialEq, Eq, Error)]
pub enum MonitorFault {
    /// No MONITOR line has this number.
    #[error("no such link")]
    NoSuchLink,
    /// The link isn't up; for `Linked`, it is up already.
    #[error("the link is in the wrong state")]
    WrongLinkState,
    /// The piece has more than [`PIECE_MAX`](nut_words::PIECE_MAX) bytes.
    #[error("the piece is too long")]
    PieceTooLong,
    /// The server is said to have taken more bytes than wait on the link.
    #[error("more was taken than waits")]
    TooMuchTaken,
    /// A notice waits and has to be taken first.
    #[error("a notice waits")]
    Busy,
    /// Memory could not be allocated at a piece on `link`. The first `lines` lines that the piece completes took
    /// effect; at the next one the link was lost. If a monitor couldn't be made, `link` is `None`.
    #[error("out of memory")]
    Memory { link: Option<usize>, lines: usize },
}

/// States a law and does nothing when called: the machine keeps the content of every history of accepted events: a step
/// needs the content and not the past.
pub fn machine_keeps_content()
    ensures { KeepsContent }
{}

/// States a law and does nothing when called: whatever a monitor may answer to an event, its content afterwards is the
/// content of the history after that answer.
pub fn answers_keep_content()
    ensures { AnswersKeepContent }
{}

/// States a law and does nothing when called: a link is up in the content exactly if it was made and not lost since. What
/// waits on it is left of its queries. It is what the server hasn't accepted yet of the queries put on it since it was
/// made, joined; on a link that isn't up it is empty. After every history of accepted events this holds for every number,
/// also for one that no MONITOR line has.
pub fn links_are_told()
    ensures { LinksAreTold }
{}

/// States a law and does nothing when called: the last answer that the content has of a MONITOR line is the newest on its
/// link since it was made.
pub fn answers_are_told()
    ensures { AnswersAreTold }
{}

/// States a law and does nothing when called: what was accepted and what waits on a link is all that is due. On a
/// link that is up, the bytes that the server accepted, followed by those that wait, are the queries put on it
/// since it was made, joined.
pub fn sent_and_waiting_is_due()
    ensures { SentAndWaitingIsDue }
{}

/// States a law and does nothing when called: once the shutdown has begun, the moment of its beginning never changes;
/// nor does that of Final once that has begun.
pub fn shutdown_stays()
    ensures { ShutdownStays }
{}

/// States a law and does nothing when called: the answers on a link that is up belong to its queries in turn. Each
/// query but the newest has its answer; the newest may still wait for its own.
pub fn answers_come_in_turn()
    ensures { AnswersComeInTurn }
{}

/// States a law and does nothing when called: an accepted event of a link changes nothing that is known of another
/// line's UPS.
pub fn others_stay()
    ensures { OthersStay }
{}

/// States a law and does nothing when called: a query is put only on a link that is up and has no outstanding query.
pub fn queries_come_alone()
    ensures { QueriesComeAlone }
{}

/// States a law and does nothing when called: GET NUMLOGINS is put only once an FSD for the UPS was answered OK, and
/// only if this machine is its primary.
pub fn logins_follow_fsd()
    ensures { LoginsFollowFsd }
{}

/// States a law and does nothing when called: a piece that completes no line, and then another piece, lead to the same
/// content as both pieces joined in one.
pub fn cuts_do_not_matter()
    ensures { CutsDoNotMatter }
{}

/// States a law and does nothing when called: if the queries of a MONITOR line can be written, its link keeps at most one
/// query, of [`QUERY_MAX`](nut_link::QUERY_MAX) bytes at most, and [`LINE_MAX`](nut_words::LINE_MAX) of an unfinished
/// line.
pub fn links_are_bounded()
    ensures { LinksAreBounded }
{}

/// States a law and does nothing when called: no more than [`NOTICES_MAX`] notices wait, if there are at most
/// [`MONITORS_MAX`](nut_conf::MONITORS_MAX) MONITOR lines.
pub fn notices_are_few()
    ensures { NoticesAreFew }
{}

/// States a law and does nothing when called: the notices handed out, followed by those that wait, are all notices, each
/// once and in their order. Each one handed out was the oldest.
pub fn notices_come_in_order()
    ensures { NoticesComeInOrder }
{}

/// States worked examples and does nothing when called: what is reported, asked, decided and refused in some runs,
/// computed from the definitions.
#[tactic(auto, unfolding(nut_words::specs::Reader::read, nut_proto::specs::Answers::answer_of, nut_proto::specs::Lines::line, nut_proto::specs::Requests::request_line, crate::specs::Trace::entry_of))]
pub fn worked_examples()
    ensures primaries { PrimaryExamples }
    ensures secondaries { SecondaryExamples }
    ensures communication { CommunicationExamples }
    ensures rooms { RoomExamples }
    ensures edges { EdgeExamples }
    ensures refusals { RefusalExamples }
    ensures orders { OrderExamples }
{}
