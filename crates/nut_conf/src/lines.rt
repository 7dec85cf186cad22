//! What the lines of a directive set that is allowed more than once.
ghost use Rattle.std.specs.Prelude.{◌≤◌, length};

use crate::fault::Misread;
use crate::line::Line;
use crate::slot::{Clashes, FromValues, listed, listed_apart};
use crate::values::Form;
use std::alloc::Global;

/// What the lines of a directive set, in the order of the file: at most `MOST` values.
#[derive(Drop)]
pub struct Lines<T, const MOST: usize> {
    pub lines: Vec<T>,
    pub ghost few: { length lines.items ≤ MOST },
}

impl<T: FromValues, const MOST: usize> Lines<T, MOST> {
    ghost use Rattle.std.specs.Prelude.{◌≡◌, [], Some, map};
    ghost use Rattle.nut_conf.specs.Settings.{Puts, listed as listed_rule};
    ghost use Rattle.nut_conf.specs.inside.Misreads.{bare};
    ghost use Rattle.nut_conf.specs.declared.values.Form.TheVariants.{Plain};

    /// Returns an empty list.
    pub(crate) fn new(alloc: Global) -> Self
        ensures { result.lines.items ≡ [] }
    {
        Lines {
            lines: Vec::new(alloc),
        }
    }

    /// Adds what a line sets at the end.
    pub(crate) fn put(&mut self, line: &Line<'_>) -> Result<(), Misread>
        ensures { Puts (listed_rule (Some MOST) Plain T.reads) (map T.setting self.old.lines.items)
            line.now.words (bare result) (map T.setting self.new.lines.items) }
    {
        listed(&mut self.lines, Form::Plain, line, Some(MOST))
    }
}

impl<T: Clashes, const MOST: usize> Lines<T, MOST> {
    ghost use Rattle.std.specs.Prelude.{Some, map};
    ghost use Rattle.nut_conf.specs.Settings.{Puts, distinct};
    ghost use Rattle.nut_conf.specs.inside.Misreads.{bare};
    ghost use Rattle.nut_conf.specs.declared.values.Form.TheVariants.{Plain};

    /// Adds what a line sets at the end. Returns `Repeated` if it clashes with one in the list.
    pub(crate) fn put_apart(&mut self, line: &Line<'_>) -> Result<(), Misread>
        ensures { Puts (distinct T.clashes (Some MOST) Plain T.reads) (map T.setting self.old.lines.items)
            line.now.words (bare result) (map T.setting self.new.lines.items) }
    {
        listed_apart(&mut self.lines, Form::Plain, line, Some(MOST))
    }
}
