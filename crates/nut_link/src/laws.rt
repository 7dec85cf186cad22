//! Laws over all links.
ghost use Rattle.nut_link.specs.laws.Laws.{BoundsStay, CutsDoNotMatter, OkTakesNoMemory, RepliesMatch, RestsStay};

/// States a law and does nothing when called: how the server's bytes are cut into pieces makes no difference to a link.
pub fn cuts_do_not_matter()
    ensures { CutsDoNotMatter }
{}

/// States a law and does nothing when called: what a link keeps of an unfinished line could be left by some stream.
pub fn rests_stay()
    ensures { RestsStay }
{}

/// States a law and does nothing when called: the line `OK` takes no memory.
pub fn ok_takes_no_memory()
    ensures { OkTakesNoMemory }
{}

/// States a law and does nothing when called: the server's reply to each request counts as its answer, and each row of a
/// list as one more row.
pub fn replies_match()
    ensures { RepliesMatch }
{}

/// States a law and does nothing when called: a link never keeps more than one query, one unfinished line and
/// [`ROWS_MAX`](nut_proto::ROWS_MAX) rows.
pub fn bounds_stay()
    ensures { BoundsStay }
{}
