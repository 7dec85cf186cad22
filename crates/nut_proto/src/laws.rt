//! Laws over all messages: what is written is read back, and how long it is.
ghost use Rattle.nut_proto.specs.laws.Bounds.{RowsAreBounded, ListsAreBounded, ForcedListsAreBounded};
ghost use Rattle.nut_proto.specs.laws.ReadBack.{MessagesSpell, ReadRequestsAreReadable, RequestsAreRead, RepliesAreRead, ListsAreRead, AsksAreRead};

/// States a law and does nothing when called: each line that one side writes is read by the other as what was meant.
///
/// A line here is without its line feed, as a cutter of lines hands it out.
pub fn messages_are_read()
    ensures messages { MessagesSpell }
    ensures requests { RequestsAreRead }
    ensures replies { RepliesAreRead }
    ensures lists { ListsAreRead }
    ensures asks { AsksAreRead }
{}

/// States a law and does nothing when called: the names, passwords and numbers of a request that was read are within
/// their bounds.
pub fn read_requests_are_readable()
    ensures { ReadRequestsAreReadable }
{}

/// States a law and does nothing when called: a row of LIST VAR, and its whole answer, have at most a stated length.
pub fn replies_are_bounded()
    ensures rows { RowsAreBounded }
    ensures lists { ListsAreBounded }
    ensures forced { ForcedListsAreBounded }
{}
