//! What a server of UPSes receives and answers: the definitions, and the laws that connect the machine of a server
//! with the histories of its events.
#![tactic(auto)]

ghost use Rattle.nut_server_spec.specs.machine.Machine.{KeepsContent};
ghost use Rattle.nut_server_spec.specs.machine.MachineOutcome.{AnswersKeepContent};
ghost use Rattle.nut_server_spec.specs.examples.Examples.{ConnectionExamples};
ghost use Rattle.nut_server_spec.specs.examples.DriverExamples.{DriverExamples, EdgeExamples, TrackingExamples, UserExamples};
ghost use Rattle.nut_server_spec.specs.examples.ReloadExamples.{ReloadEdgeExamples, ReloadExamples};
ghost use Rattle.nut_server_spec.specs.examples.RightExamples.{RightExamples};
ghost use Rattle.nut_server_spec.specs.laws.Laws.{BoundsHold, ClosedStaysClosed, ConnectionsAreFew, CutsAndWritesDoNotMatter, CutsDoNotMatter, DriverCutsAndWritesDoNotMatter, DriverCutsDoNotMatter, DriverSentAndWaitingIsDue, DriverSentIsReceived, LogoutIsFinal, NumbersRise, OpenedIsFresh, OtherDriversStay, OthersStay, SameStepsSameAnswers, SentAndWaitingIsDue, SentIsFrontOfDue, SentIsReceived, WaitsForOnePiece};
ghost use Rattle.nut_server_spec.specs.laws.Limits.{AnswersAreBounded, WaitsAreBounded};
ghost use Rattle.nut_server_spec.specs.laws.Reloads.{KeepsItsNumber, NumbersAreDistinct, ReloadIsDownsThenClosesThenItself, UpsesStay};
ghost use Rattle.nut_server_spec.specs.laws.Rights.{NothingWithoutTheRight};
ghost use Rattle.nut_server_spec.specs.laws.Shown.{StatusIsTheDrivers};
ghost use Rattle.nut_server_spec.specs.laws.Tracked.{TrackingLooksBack};

mod limits;

pub use limits::{ADDRESS_MAX, OPENED_MAX, TRACKED_MAX, connection_limits};
use nut_state::every_table_holds;
use thiserror::Error;

/// Where memory could not be allocated.
#[derive(Clone, Copy, Debug, PartialEq, Eq)]
pub enum Place {
    /// `Line(c, k)`: in a piece of connection `c`, at the line after the first `k` lines of the piece. Those lines stay
    /// answered. The line itself left no trace, and the connection is closed.
    Line(u64, usize),
    /// `Report(u, k)`: in a piece of the driver of UPS `u`, at the line after the first `k` lines of the piece. What
    /// those lines said stays. The line itself left no trace, and the driver counts as disconnected.
    Report(usize, usize),
    /// At a reload, for what waits for the drivers of its UPSes, which are more than there have been so far. Nothing
    /// changed.
    NewUpses,
}

/// Why an event is refused. Only `Memory` at a line changes anything.
#[derive(Clone, Copy, Debug, PartialEq, Eq, Error)]
pub enum Refused {
    /// No connection with this number is open.
    #[error("no such connection")]
    NoSuchConnection,
    /// No UPS has this number, or the event needs its driver to be connected and it isn't.
    #[error("the driver isn't connected")]
    NotConnected,
    /// The piece has more than [`PIECE_MAX`](nut_words::PIECE_MAX) bytes.
    #[error("the piece is too long")]
    PieceTooLong,
    /// Bytes wait for the connection. It has to take them first.
    #[error("answers wait")]
    Busy,
    /// More bytes were taken than wait.
    #[error("more was taken than waits")]
    TooMuchTaken,
    /// The address isn't one of 1 to [`ADDRESS_MAX`] bytes that may stand in a bare word.
    #[error("not an address")]
    BadAddress,
    /// As many connections are open as may be, or [`OPENED_MAX`] were opened.
    #[error("too many connections")]
    Full,
    /// Memory cannot be allocated at this place.
    #[error("out of memory")]
    Memory(Place),
}

/// States a law and does nothing when called: the machine that a server runs keeps the content of every history of
/// accepted events.
pub fn machine_keeps_content()
    ensures { KeepsContent }
{}

/// States a law and does nothing when called: a connection's bytes lead to the same content whether they come as one
/// piece or cut into two.
pub fn cuts_do_not_matter()
    ensures { CutsDoNotMatter }
{}

/// States a law and does nothing when called: a driver's bytes lead to the same content whether they come as one piece
/// or cut into two.
pub fn driver_cuts_do_not_matter()
    ensures { DriverCutsDoNotMatter }
{}

/// States a law and does nothing when called: if two histories have the same steps, connections get the same answers in
/// both, and drivers the same requests.
pub fn same_steps_same_answers()
    ensures { SameStepsSameAnswers }
{}

/// States a law and does nothing when called: however a connection's bytes are cut, and whatever connections take between
/// the pieces, the steps and so the answers are those of all the bytes in one piece.
pub fn cuts_and_writes_do_not_matter()
    ensures { CutsAndWritesDoNotMatter }
{}

/// States a law and does nothing when called: however a driver's bytes are cut, and whatever drivers take between the
/// pieces, the result is that of one piece. This holds of what is known of each UPS, of the requests to drivers and of
/// the answers to connections.
pub fn driver_cuts_and_writes_do_not_matter()
    ensures { DriverCutsAndWritesDoNotMatter }
{}

/// States a law and does nothing when called: a piece of a connection that has logged out changes only what is kept of
/// the connection's unfinished line. Clients and drivers are sent nothing for it.
pub fn logout_is_final()
    ensures { LogoutIsFinal }
{}

/// States a law and does nothing when called: after any permitted answer to an event, what the server holds is the
/// content of the history after that answer.
pub fn answers_keep_content()
    ensures { AnswersKeepContent }
{}

/// States a law and does nothing when called: the numbers of the open connections rise, from at least 1 to at most the
/// number of connections opened so far.
pub fn numbers_rise()
    ensures { NumbersRise }
{}

/// States a law and does nothing when called: what a connection was sent is what it took, piece by piece, of the bytes
/// that waited for it.
pub fn sent_is_received()
    ensures { SentIsReceived }
{}

/// States a law and does nothing when called: what an open connection was sent, followed by what waits for it, is the
/// answers to its lines, joined.
pub fn sent_and_waiting_is_due()
    ensures { SentAndWaitingIsDue }
{}

/// States a law and does nothing when called: the answers to a connection's lines begin with what it was sent, also
/// after it is closed.
pub fn sent_is_front_of_due()
    ensures { SentIsFrontOfDue }
{}

/// States a law and does nothing when called. What a driver was sent since it was connected is what it accepted, piece by
/// piece, of the bytes that waited for it.
pub fn driver_sent_is_received()
    ensures { DriverSentIsReceived }
{}

/// States a law and does nothing when called: what a connected driver was sent, followed by what waits for it, is the
/// requests to it since it was connected, joined.
pub fn driver_sent_and_waiting_is_due()
    ensures { DriverSentAndWaitingIsDue }
{}

/// States a law and does nothing when called: an accepted event changes no connection except its own and those that it
/// closes.
pub fn others_stay()
    ensures { OthersStay }
{}

/// States a law and does nothing when called: an accepted event of a driver changes no UPS except its own.
pub fn other_drivers_stay()
    ensures { OtherDriversStay }
{}

/// States a law and does nothing when called: a new connection has said nothing so far; the queue of its answers is
/// empty.
pub fn opened_is_fresh()
    ensures { OpenedIsFresh }
{}

/// States a law and does nothing when called: a connection that was opened and closed isn't opened again.
pub fn closed_stays_closed()
    ensures { ClosedStaysClosed }
{}

/// States a law and does nothing when called: at most 2,048 bytes of an unfinished line are kept, and at most 4,096
/// bytes wait for a driver.
pub fn bounds_hold()
    ensures { BoundsHold }
{}

/// States a law and does nothing when called: at most as many connections are open as one of the configurations so far
/// allowed, and at most [`OPENED_MAX`] were opened.
pub fn connections_are_few()
    ensures { ConnectionsAreFew }
{}

/// States a law and does nothing when called: if the configuration is within its files' limits, an answer to one line has
/// at most 578,146 bytes: a bound for a LIST VAR of a full table.
pub fn answers_are_bounded()
    ensures { AnswersAreBounded }
{
    every_table_holds();
}

/// States a law and does nothing when called: what waits for a client is the end of the answers to its newest piece.
pub fn waits_for_one_piece()
    ensures { WaitsForOnePiece }
{}

/// States a law and does nothing when called: if the configuration is within its files' limits, at most 148,005,376 bytes
/// wait for a client: the answers to 256 lines of one piece.
pub fn waits_are_bounded()
    ensures { WaitsAreBounded }
{
    every_table_holds();
}

/// States worked examples and does nothing when called: the answers in some histories, computed from the definitions.
pub fn worked_examples()
    ensures connections { ConnectionExamples }
    ensures drivers { DriverExamples }
    ensures edges { EdgeExamples }
    ensures users { UserExamples }
    ensures tracking { TrackingExamples }
    ensures reloads { ReloadExamples }
    ensures reload_edges { ReloadEdgeExamples }
    ensures rights { RightExamples }
{}

/// States a law and does nothing when called: what is remembered of a tracked request is what looking back over the
/// history for its number says.
pub fn tracking_looks_back()
    ensures { TrackingLooksBack }
{}

/// States a law and does nothing when called: the text of `GET VAR` for `ups.status` is that of the UPS's table, which
/// its driver set last, or `FSD ` and that text. So in this answer only `FSD` is the server's own word. LIST VAR and LIST RW are
/// outside this law.
pub fn status_is_the_drivers()
    ensures { StatusIsTheDrivers }
{
    every_table_holds();
}

/// States a law and does nothing when called: SET VAR, INSTCMD, LOGIN, PRIMARY and FSD are granted only to who has the
/// right. A connection has it if it has given the name and the password of a user with that right, each answered OK, by
/// the configuration in force. No line of any other connection has a driver asked for anything, logs anybody in or forces
/// a shutdown. An answer grants unless it is ERR, or the silence after LOGOUT.
pub fn nothing_without_the_right()
    ensures { NothingWithoutTheRight }
{}

/// States a law and does nothing when called: a reload comes to the same as its parts in turn. The drivers that it
/// disconnects go down one by one, then the connections that it closes are closed one by one, and then it comes itself.
pub fn reload_is_downs_then_closes_then_itself()
    ensures { ReloadIsDownsThenClosesThenItself }
{}

/// States a law and does nothing when called: a UPS keeps its number as long as its name is in the configuration.
pub fn keeps_its_number()
    ensures { KeepsItsNumber }
{}

/// States a law and does nothing when called: each UPS has one number. If the UPSes of each configuration have different
/// names, all UPSes have different numbers.
pub fn numbers_are_distinct()
    ensures { NumbersAreDistinct }
{}

/// States a law and does nothing when called. It says what a reload leaves of a UPS and of the connections that are
/// logged in to it, if the UPSes of each configuration have different names.
pub fn upses_stay()
    ensures { UpsesStay }
{}
