//! Tables of entries with names.
ghost use Rattle.std.specs.Prelude.{length};
ghost use Rattle.std.specs.Option.{is_some};
ghost use Rattle.indexmap.specs.IndexMap.{get};
ghost use Rattle.nut_conf.specs.inside.Misreads.{bare};
ghost use Rattle.nut_conf.specs.inside.Tables.{Admits, same_name};

use crate::fault::{FaultKind, Misread};
use crate::hint::Expected;
use crate::text::Name;
use indexmap::IndexMap;

/// Tests whether an entry with this name, the word in this place of its line, may be added. Returns `Repeated` if the
/// table has one, and `PastLimit` if it has `most` entries already.
pub fn check_new<V, const N: usize>(
    table: &IndexMap<Name<N>, V>,
    name: &Name<N>,
    word: usize,
    most: usize,
) -> Result<(), Misread>
    ensures { Admits (is_some (get same_name table.now name.now)) (length table.now.entries) most (bare result) }
{
    if table.contains_key(name) {
        return Err(Misread::of_word(word, FaultKind::Repeated, Expected::Another));
    }
    if table.len() >= most {
        return Err(Misread::of_line(FaultKind::PastLimit, Expected::Fewer(most)));
    }
    Ok(())
}
