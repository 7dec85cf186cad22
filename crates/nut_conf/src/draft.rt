//! Configurations that are built up line by line.
ghost use Rattle.std.specs.Prelude.{◌≡◌, ◌∷◌, ◌++◌, ℕ, Bool, List, [], Option, Err, IsTrue};
ghost use Rattle.nut_conf.specs.inside.Drafts.{Takes};
ghost use Rattle.nut_conf.specs.inside.Misreads.{bare};
ghost use Rattle.nut_conf.specs.declared.fault.FaultKind.{FaultKind};

use crate::fault::{FaultKind, Misread};
use crate::line::Line;
use std::alloc::Global;

/// The settings of the lines of a file that have been read so far.
pub trait Draft: Drop + Sized {
    /// The first fault of a line, given the lines before it, if it has one.
    ghost fault: { List (List (List ℕ)) → List (List ℕ) → Option FaultKind };

    /// Whether a line adds to a list, and so may allocate memory for what it sets.
    ghost grows: { List (List ℕ) → Bool };

    /// The draft holds what these lines set.
    ghost Holds: { Self → List (List (List ℕ)) → Type 0 };

    /// Returns the draft of a file without lines.
    fn new(alloc: Global) -> Self
        ensures { Holds result [] };

    /// Whether a line of the file may begin with this word, at least in a section.
    fn knows(word: &[u8]) -> bool;

    /// Adds what a line sets, or returns the line's first fault.
    fn put(&mut self, line: &Line<'_>) -> Result<(), Misread>
        ensures memory { bare result ≡ Err FaultKind.Memory → IsTrue (grows line.now.words) }
        ensures takes { (before : List (List (List ℕ))) → Holds self.old before
            → Takes (fault before line.now.words) (bare result) (Holds self.new (before ++ line.now.words ∷ [])) };
}
