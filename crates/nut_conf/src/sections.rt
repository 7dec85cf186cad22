//! Files that consist of sections.
ghost use Rattle.std.specs.Prelude.{◌≡◌, ◌≤◌, ◌∷◌, ◌++◌, [], length};
ghost use Rattle.std.specs.Option.{option_map};
ghost use Rattle.nut_conf.specs.Sections.{section_name as name_in};

use crate::draft::Draft;
use crate::fault::{FaultKind, Misread};
use crate::hint::Expected;
use crate::line::Line;
use crate::tables::check_new;
use crate::text::Name;
use indexmap::IndexMap;
use nut_words::UPS_NAME_MAX;
use std::alloc::Global;

/// At most `MOST` sections with their names, in the order of the file.
#[derive(Drop)]
pub struct Sections<S, const MOST: usize> {
    pub by_name: IndexMap<Name<UPS_NAME_MAX>, S>,
    alloc: Global,
    pub ghost few: { length by_name.entries ≤ MOST },
}

/// Returns the name in a section line. Returns `None` for any other line.
fn section_name<'a>(line: &'a Line<'_>) -> Option<&'a [u8]>
    ensures { option_map (λ n. n.now) result ≡ name_in line.now.words }
{
    if line.len() != 1 {
        return None;
    }
    let word = line.word(0);
    let len = word.len();
    if len >= 2 && word[0] == b'[' && word[len - 1] == b']' {
        Some(&word[1..len - 1])
    } else {
        None
    }
}

/// Returns the fault of a line before the first section.
fn outside<S: Draft>(line: &Line<'_>) -> Misread
    ensures { result.kind ≡ FaultKind.OutsideSection }
{
    let expected = if S::knows(line.directive()) {
        Expected::Section
    } else {
        Expected::Directive
    };
    Misread::of_word(0, FaultKind::OutsideSection, expected)
}

impl<S: Draft, const MOST: usize> Sections<S, MOST> {
    ghost use Rattle.nut_conf.specs.inside.Drafts.{Takes};
    ghost use Rattle.nut_conf.specs.inside.Misreads.{bare};
    ghost use Rattle.std.specs.Result.{result_err};
    ghost use Rattle.nut_conf.specs.Sections.{AllHold, Section, opens};
    ghost use Rattle.std.specs.Prelude.{List};

    /// Begins a section with this name.
    fn open(&mut self, bytes: &[u8]) -> Result<(), Misread>
        ensures { (earlier : List Section) → AllHold S.Holds self.old.by_name.entries earlier
            → Takes (result_err (opens MOST earlier bytes.now)) (bare result) (AllHold S.Holds self.new.by_name.entries (earlier ++ (bytes.now, []) ∷ [])) }
    {
        let name = match Name::read(bytes) {
            Ok(name) => name,
            Err(kind) => return Err(Misread::of_word(0, kind, Expected::Name(UPS_NAME_MAX))),
        };
        check_new(&self.by_name, &name, 0, MOST)?;
        self.by_name.insert(name, S::new(self.alloc))?;
        Ok(())
    }
}

impl<S: Draft, const MOST: usize> Draft for Sections<S, MOST> {
    ghost use Rattle.nut_conf.specs.Sections.{AllHold, sections, sectioned_fault, sectioned_grows};

    ghost fault = { sectioned_fault S.fault MOST };

    ghost grows = { sectioned_grows S.grows };

    ghost Holds = { λ s lines. AllHold S.Holds s.by_name.entries (sections lines) };

    fn new(alloc: Global) -> Self {
        Sections {
            by_name: IndexMap::new(alloc),
            alloc,
        }
    }

    fn knows(word: &[u8]) -> bool {
        S::knows(word)
    }

    fn put(&mut self, line: &Line<'_>) -> Result<(), Misread> {
        if let Some(name) = section_name(line) {
            return self.open(name);
        }
        let Some(last) = self.by_name.len().checked_sub(1) else {
            return Err(outside::<S>(line));
        };
        match self.by_name.get_index_mut(last) {
            Some(section) => section.put(line),
            None => Err(outside::<S>(line)),
        }
    }
}
