//! Configurations whose files have a table of directives.
ghost use Rattle.std.specs.Prelude.{◌≡◌, ◌∷◌, ◌++◌, ℕ, List, [], Some, Err, IsTrue, map};
ghost use Rattle.std.specs.List.{find};
ghost use Rattle.std.specs.Option.{option_copied, option_map};
ghost use Rattle.std.specs.Str.{bytes_eq};
ghost use Rattle.nut_conf.specs.Settings.{Puts, line_fault};
ghost use Rattle.nut_conf.specs.Rows.{Row, row_of, line_grows, directives_of, RowsHold};
ghost use Rattle.nut_conf.specs.inside.Apart.{set_apart};
ghost use Rattle.nut_conf.specs.inside.Drafts.{Takes};
ghost use Rattle.nut_conf.specs.inside.Misreads.{bare};
ghost use Rattle.nut_conf.specs.declared.fault.FaultKind.{FaultKind};

use crate::descriptions::Descriptions;
use crate::draft::Draft;
use crate::fault::{FaultKind, Misread};
use crate::hint::{Expected, Hint};
use crate::line::Line;
use crate::ups::Ups;
use crate::upsd::UpsdConf;
use crate::upsmon::MonConfig;
use crate::users::User;
use std::alloc::Global;

/// A configuration with a field for each directive of a table.
pub trait Directives: Drop + Sized {
    /// The directives of the table.
    type Directive: Copy + 'static;

    /// The directives, in the order of the table.
    ghost all: { List Self.Directive };

    /// The row of a directive.
    ghost table: { Self.Directive → Row Self };

    /// Returns each directive with its word, and what its lines look like.
    fn rows() -> &'static [(&'static [u8], Self::Directive, &'static str)]
        ensures { map {B = List ℕ × Self.Directive} (λ r. (r.0.now, r.1)) result.now ≡ map (λ d. ((table d).directive.word, d)) all };

    /// Returns the configuration of a file without lines.
    fn unset(alloc: Global) -> Self
        ensures { RowsHold table result [] };

    /// Adds what a line of this directive sets, or returns the line's first fault. Changes nothing else.
    fn set(&mut self, directive: Self::Directive, line: &Line<'_>) -> Result<(), Misread>
        ensures puts { Puts (table directive).directive.rule ((table directive).set self.old)
            line.now.words (bare result) ((table directive).set self.new) }
        ensures apart { set_apart table all (table directive).directive.word self.new
            ≡ set_apart table all (table directive).directive.word self.old }
        ensures memory { bare result ≡ Err FaultKind.Memory → IsTrue (table directive).grows };

    /// The table has each directive under its word.
    ghost found: { (d : Self.Directive) → row_of table all (table d).directive.word ≡ Some d };
}

/// Returns the row with this word, if there is one.
fn row_with<'a, D>(
    rows: &'a [(&'static [u8], D, &'static str)],
    word: &[u8],
) -> Option<&'a (&'static [u8], D, &'static str)>
    ensures { option_copied result ≡ find (λ r. bytes_eq word.now r.0.now) rows.now }
{
    rows.iter().find(|row| word == row.0)
}

/// Returns the directive with this word, if there is one, and what its lines look like.
fn named<T: Directives>(word: &[u8]) -> Option<(T::Directive, &'static str)>
    ensures { option_map (λ r. r.0) result ≡ row_of T.table T.all word.now }
{
    match row_with(T::rows(), word) {
        Some(row) => Some((row.1, row.2)),
        None => None,
    }
}

/// Adds what a line sets to the configuration, or returns the line's first fault.
fn put_line<T: Directives>(conf: &mut T, line: &Line<'_>) -> Result<(), Misread>
    ensures memory { bare result ≡ Err FaultKind.Memory → IsTrue (line_grows T.table T.all line.now.words) }
    ensures takes { (before : List (List (List ℕ))) → RowsHold T.table conf.old before
        → Takes (line_fault (directives_of T.table T.all) before line.now.words) (bare result)
        (RowsHold T.table conf.new (before ++ line.now.words ∷ [])) }
{
    let Some(named) = named::<T>(line.directive()) else {
        let expected = Expected::Directive;
        return Err(Misread::of_word(0, FaultKind::UnknownDirective, expected));
    };
    match conf.set(named.0, line) {
        Ok(()) => Ok(()),
        Err(fault) => Err(Misread {
            kind: fault.kind,
            hint: Hint {
                form: named.1,
                ..fault.hint
            },
        }),
    }
}

impl<T: Directives> Draft for T {
    ghost use Rattle.nut_conf.specs.Settings.{line_fault};
    ghost use Rattle.nut_conf.specs.Rows.{directives_of, line_grows, RowsHold};

    ghost fault = { line_fault (directives_of T.table T.all) };

    ghost grows = { line_grows T.table T.all };

    ghost Holds = { RowsHold T.table };

    fn new(alloc: Global) -> Self {
        T::unset(alloc)
    }

    fn knows(word: &[u8]) -> bool {
        named::<T>(word).is_some()
    }

    fn put(&mut self, line: &Line<'_>) -> Result<(), Misread> {
        put_line(self, line)
    }
}

/// Whether there is a directive with this word, of whatever file, in small or in capital letters.
pub fn is_directive(word: &[u8]) -> bool {
    is_in::<Ups>(word)
        || is_in::<User>(word)
        || is_in::<UpsdConf>(word)
        || is_in::<MonConfig>(word)
        || is_in::<Descriptions>(word)
}

/// Whether the table has a directive with this word, in small or in capital letters.
fn is_in<T: Directives>(word: &[u8]) -> bool {
    T::rows().iter().any(|row| row.0.eq_ignore_ascii_case(word))
}
