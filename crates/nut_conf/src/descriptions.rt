//! The file cmdvartab.
ghost use Rattle.std.specs.Prelude.{◌≡◌, [], IfErr};
ghost use Rattle.nut_conf.specs.Files.{Means, read_file};
ghost use Rattle.nut_conf.specs.Memory.{MayRunOut};
ghost use Rattle.nut_conf.specs.Descriptions.{DescriptionsHold, descriptions_fault, descriptions_grow, rows_of};

use crate::directives::Directives;
use crate::fault::{ConfFault, FaultKind, Misread};
use crate::file::read_draft;
use crate::line::Line;
use crate::texts::Texts;
use std::alloc::Global;

/// The descriptions in cmdvartab, for people to read.
pub struct Descriptions {
    /// Descriptions of variables, by name.
    pub variables: Texts,
    /// Descriptions of commands, by name.
    pub commands: Texts,
}

// A derived drop would be proved again in each crate that drops a value, with those of its parts.
impl Drop for Descriptions {
    fn drop(self) {
        let Descriptions {
            variables: _variables,
            commands: _commands,
        } = self;
    }
}

impl Descriptions {
    /// No descriptions, as those of an empty file.
    pub fn new(alloc: Global) -> Self
        ensures variables { rows_of result.variables ≡ [] }
        ensures commands { rows_of result.commands ≡ [] }
        ensures holds { DescriptionsHold result [] }
    {
        Descriptions {
            variables: Texts::new(alloc),
            commands: Texts::new(alloc),
        }
    }
}

/// What may stand in the file.
#[derive(Clone, Copy)]
pub enum DescriptionDirective {
    Variable,
    Command,
}

/// Each directive, with its word and what its lines look like.
const DIRECTIVES: [(&[u8], DescriptionDirective, &str); 2] = [
    (
        b"VARDESC",
        DescriptionDirective::Variable,
        "VARDESC NAME \"TEXT\"",
    ),
    (
        b"CMDDESC",
        DescriptionDirective::Command,
        "CMDDESC NAME \"TEXT\"",
    ),
];

impl Directives for Descriptions {
    ghost use Rattle.nut_conf.specs.Descriptions.{description_row, description_rows};
    ghost use Rattle.nut_conf.specs.inside.Found.{description_found};

    type Directive = DescriptionDirective;

    ghost all = { description_rows };

    ghost table = { description_row };

    ghost found = { description_found };

    fn rows() -> &'static [(&'static [u8], DescriptionDirective, &'static str)] {
        &DIRECTIVES
    }

    fn unset(alloc: Global) -> Self {
        Descriptions::new(alloc)
    }

    fn set(&mut self, directive: DescriptionDirective, line: &Line<'_>) -> Result<(), Misread> {
        match directive {
            DescriptionDirective::Variable => self.variables.put(line),
            DescriptionDirective::Command => self.commands.put(line),
        }
    }
}

/// Reads cmdvartab (as NUT's file of this name: lines `VARDESC name "text"` and `CMDDESC name "text"`).
///
/// Returns the descriptions that its lines set.
///
/// # Errors
///
/// `PastLimit` at line 0 if the file has more than [`FILE_MAX`](crate::limits::FILE_MAX) bytes. Otherwise the first
/// fault of the first line that has a fault. `Memory` comes only at a line with a backslash, or at a line without a
/// fault.
pub fn read_descriptions(alloc: Global, bytes: &[u8]) -> Result<Descriptions, ConfFault>
    ensures means { Means (read_file descriptions_fault bytes.now) DescriptionsHold result }
    ensures memory { IfErr result (λ fault. fault.kind ≡ FaultKind.Memory
        → MayRunOut descriptions_fault descriptions_grow bytes.now fault.line) }
{
    read_draft(alloc, bytes)
}
