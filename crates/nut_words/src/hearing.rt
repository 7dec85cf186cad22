//! Hearing a stream line by line.
ghost use Rattle.std.specs.Prelude.{◌≡◌, IfErr, OnOk, length};
ghost use Rattle.nut_words.specs.Cutter.{line_of};
ghost use Rattle.nut_words.specs.Hearing.{IsRest, StopsAt, heard_all};
ghost use Rattle.nut_words.specs.Lines.{LineText, lines_after, rest_after};

use crate::cutter::{Line, LineCutter};

/// What hears the lines of a stream, one after the other.
pub trait HearLine {
    /// What it is given with each line.
    type With: Copy;

    /// Why it stops at a line.
    type Stop: Drop;

    /// What it is after it has heard a line.
    ghost heard: { Self.With → LineText → Self → Self };

    /// It can hear another line.
    ghost GoesOn: { Self → Type 0 };

    /// At this line it stops, for this reason, and this is what it is then.
    ghost Stops: { Self.With → LineText → Self → Self.Stop → Self → Type 0 };

    /// Hears a line, or stops at it.
    fn hear_line(&mut self, with: Self::With, line: Line<'_>) -> Result<(), Self::Stop>
        requires goes_on { GoesOn self.old }
        ensures heard { OnOk result (self.new ≡ heard with (line_of line.entry) self.old) }
        ensures goes_on { OnOk result (GoesOn self.new) }
        ensures stops { IfErr result (λ stop. Stops with (line_of line.entry) self.old stop self.new) };
}

/// Feeds a piece of the stream to the cutter, and gives each line that it completes to the hearer. Returns how many
/// lines were heard, and the outcome.
///
/// # Errors
///
/// The reason for which the hearer stopped at a line. The lines before that line were heard and counted; that line is
/// not counted. The bytes after it are lost, so the cutter no longer fits the stream: start a new one.
pub fn hear_lines<H: HearLine>(
    cutter: &mut LineCutter,
    hearer: &mut H,
    with: H::With,
    piece: &[u8],
) -> (usize, Result<(), H::Stop>)
    requires rest { IsRest cutter.old }
    requires goes_on { H.GoesOn hearer.old }
    ensures stream { IsRest cutter.new }
    ensures rest { OnOk result.1 (cutter.new ≡ rest_after cutter.old piece.now) }
    ensures count { OnOk result.1 (result.0 ≡ length (lines_after cutter.old piece.now)) }
    ensures heard { OnOk result.1 (hearer.new ≡ heard_all (H.heard with) (lines_after cutter.old piece.now) hearer.old) }
    ensures goes_on { OnOk result.1 (H.GoesOn hearer.new) }
    ensures stops { IfErr result.1 (λ stop. StopsAt (H.heard with)
        (λ line before. H.GoesOn before × H.Stops with line before stop hearer.new) (lines_after cutter.old piece.now) hearer.old result.0) }
{
    let mut left = piece;
    let mut done = 0usize;
    while !left.is_empty() {
        let (line, used) = cutter.feed(left);
        if let Some(line) = line {
            match hearer.hear_line(with, line) {
                Ok(()) => done += 1,
                Err(stop) => return (done, Err(stop)),
            }
        }
        left = &left[used..];
    }
    (done, Ok(()))
}
