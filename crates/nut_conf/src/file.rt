//! Reads a file line by line.
ghost use Rattle.std.specs.Prelude.{◌≡◌, List, Ok, Err, IfErr, MatchResult};
ghost use Rattle.nut_conf.specs.Faults.{Fails};
ghost use Rattle.nut_conf.specs.Values.{Words as LineWords};
ghost use Rattle.nut_conf.specs.Files.{Means, read_file, with_line};
ghost use Rattle.nut_conf.specs.Memory.{MayRunOut, MayTake};
ghost use Rattle.nut_conf.specs.inside.Misreads.{bare};

use crate::draft::Draft;
use crate::fault::{ConfFault, FaultKind, Misread};
use crate::hint::{Expected, Hint};
use crate::limits::FILE_MAX;
use crate::line::Line;
use nut_words::cut;
use std::alloc::Global;

/// Adds what a line of the file sets to the draft. A blank line changes nothing.
fn take_line<D: Draft>(alloc: Global, draft: &mut D, bytes: &[u8]) -> Result<(), Misread>
    ensures memory { (before : List LineWords) → D.Holds draft.old before → bare result ≡ Err FaultKind.Memory → MayTake D.fault D.grows before bytes.now }
    ensures takes { (before : List LineWords) → D.Holds draft.old before
        → MatchResult (bare result) (λ _. (after : List LineWords) × (with_line D.fault before bytes.now ≡ Ok after) × D.Holds draft.new after) (λ k. Fails k (with_line D.fault before bytes.now)) }
{
    match Line::read(alloc, bytes)? {
        Some(line) => draft.put(&line),
        None => Ok(()),
    }
}

/// Reads a file line by line, to its end or to its first fault.
pub fn read_draft<D: Draft>(alloc: Global, bytes: &[u8]) -> Result<D, ConfFault>
    ensures means { Means (read_file D.fault bytes.now) D.Holds result }
    ensures memory { IfErr result (λ fault. fault.kind ≡ FaultKind.Memory → MayRunOut D.fault D.grows bytes.now fault.line) }
{
    if bytes.len() > FILE_MAX {
        return Err(ConfFault {
            line: 0,
            kind: FaultKind::PastLimit,
            hint: Hint::of_line(Expected::ShorterFile),
        });
    }
    let mut draft = D::new(alloc);
    let mut rest = Some(bytes);
    let mut number = 0;
    while let Some(text) = rest {
        let (line, behind) = cut(b'\n', text);
        rest = behind;
        number += 1;
        if let Err(fault) = take_line(alloc, &mut draft, line) {
            return Err(ConfFault {
                line: number,
                kind: fault.kind,
                hint: fault.hint,
            });
        }
    }
    Ok(draft)
}
