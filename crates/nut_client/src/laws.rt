//! Laws over all runs of a tool.
ghost use Rattle.nut_client.specs.laws.Laws.{AllBytesDecide, MoreBytesAreIgnored};

/// States a law and does nothing when called: what a server sends after the answer to a tool's last query changes
/// nothing.
pub fn more_bytes_are_ignored()
    ensures { MoreBytesAreIgnored }
{}

/// States a law and does nothing when called: however much a tool has read of what a server sends, and in whatever
/// pieces, it ends as if it had read all of it. There are two exceptions: memory could not be allocated; or the
/// connection was lost before all was read, or in the middle of a query.
pub fn all_bytes_decide()
    ensures { AllBytesDecide }
{}
