//! Cuts a stream of bytes, which arrives in pieces of any size, into lines.
ghost use Rattle.std.specs.Prelude.{◌≡◌, ◌≢◌, ◌≤◌, [], ◌∷◌, ◌++◌, List, ℕ, length, take, IfNone, IfSome, IsSome, OnSome, IsTrue, All, ◌<◌, ◌↔◌};
ghost use Rattle.std.specs.Borrow.{sem};
ghost use Rattle.nut_words.specs.Lines.{Text, joined, lines, lines_after, rest, rest_after};
ghost use Rattle.nut_words.specs.Cutter.{IsFirstLine, LeavesRest, handed_out, kept_of};

use crate::limits::LINE_MAX;
use arrayvec::ArrayVec;
use memchr::memchr;
use std::marker::Model;

/// A complete line.
#[derive(Clone, Copy)]
pub enum Line<'a> {
    /// The bytes before the line feed, at most [`LINE_MAX`].
    Text(&'a [u8]),
    /// A line of more than [`LINE_MAX`] bytes. Its bytes are lost.
    TooLong,
}

/// What the kept bytes are.
#[derive(Clone, Copy)]
enum LineStage {
    /// The unfinished line.
    Growing,
    /// The first bytes of an unfinished line that is too long.
    Overlong,
    /// A line that was handed out. No byte of the next line has arrived.
    HandedOut,
}

/// Cuts a stream of bytes into lines, whatever pieces the stream arrives in.
///
/// It keeps at most [`LINE_MAX`] bytes of the unfinished line, in itself: it allocates no memory. In contracts its
/// value is the rest of the stream: the unfinished line after the bytes fed so far.
#[derive(Drop)]
pub struct LineCutter {
    kept: ArrayVec<u8, LINE_MAX>,
    stage: LineStage,
}

impl Model for LineCutter {
    ghost use Rattle.nut_words.specs.Lines.{LineText};

    ghost Value = { LineText };

    ghost use Rattle.nut_words.specs.inside.Inside.{rest_inside};

    ghost view = { rest_inside };
}

impl LineCutter {
    /// Returns a cutter of a stream that hasn't begun.
    pub fn new() -> Self
        ensures { result ≡ rest [] }
    {
        LineCutter {
            kept: ArrayVec::new(),
            stage: LineStage::Growing,
        }
    }

    /// Returns how many bytes of the unfinished line are kept: its length, or 0 once it is longer than [`LINE_MAX`].
    pub fn kept(&self) -> usize
        ensures value { result ≡ kept_of self.now }
        ensures most { result ≤ LINE_MAX }
    {
        match self.stage {
            LineStage::Growing => self.kept.len(),
            LineStage::Overlong | LineStage::HandedOut => 0,
        }
    }

    /// Whether nothing is kept, so that the next byte begins a line.
    pub fn is_at_start(&self) -> bool
        ensures { IsTrue result ↔ (self.now ≡ Text []) }
    {
        match self.stage {
            LineStage::Growing => self.kept.is_empty(),
            LineStage::Overlong => false,
            LineStage::HandedOut => true,
        }
    }

    /// Appends bytes without a line feed to the unfinished line.
    fn keep(&mut self, text: &[u8])
        ensures { self.new ≡ joined self.old text.now }
    {
        match self.stage {
            LineStage::Growing => {
                if self.kept.try_extend_from_slice(text).is_err() {
                    self.stage = LineStage::Overlong;
                }
            }
            LineStage::Overlong => {}
            LineStage::HandedOut => {
                self.kept.clear();
                self.stage = if self.kept.try_extend_from_slice(text).is_ok() {
                    LineStage::Growing
                } else {
                    LineStage::Overlong
                };
            }
        }
    }

    /// Reads the next piece of the stream up to its first line feed. Returns the line that this completes, and how many
    /// bytes of the piece were used, the line feed included. Feed the rest of the piece next.
    ///
    /// A piece without a line feed is used whole: the result is `None` and the piece's length. A piece may have any
    /// length, and the line lies in the piece or in the cutter. The call can't fail and allocates no memory.
    pub fn feed<'a>(&'a mut self, piece: &'a [u8]) -> (Option<Line<'a>>, usize)
        ensures* after_borrow { sem 𝓛 (LeavesRest self.entry (take result.1 piece.now) result.0) }
        ensures line { (b : List ℕ) → self.old ≡ rest b
            → lines (b ++ take result.1 piece.now) ≡ lines b ++ handed_out result.0 }
        ensures used { result.1 ≤ length piece.now }
        ensures all { IfNone result.0 (result.1 ≡ length piece.now) }
        ensures some { OnSome result.0 (0 < result.1) }
    {
        let Some(at) = memchr(b'\n', piece) else {
            self.keep(piece);
            return (None, piece.len());
        };
        let front = &piece[..at];
        if at <= LINE_MAX && self.is_at_start() {
            return (Some(Line::Text(front)), at + 1);
        }
        self.keep(front);
        let stage = self.stage;
        self.stage = LineStage::HandedOut;
        let kept = &self.kept;
        let line = match stage {
            LineStage::Growing => Line::Text(kept.as_slice()),
            LineStage::Overlong => Line::TooLong,
            LineStage::HandedOut => Line::Text(&[]),
        };
        (Some(line), at + 1)
    }
}

/// Returns the first line of a piece, without its line feed, and the bytes behind it. It is for a piece whose first byte
/// begins a line. Returns `None` if the line's end isn't in the piece, or if the line is longer than [`LINE_MAX`].
pub fn first_line<'a>(piece: &'a [u8]) -> Option<(&'a [u8], &'a [u8])>
    ensures line { IfSome result (λ found. IsFirstLine found.0.now piece.now found.1.now) }
    ensures taken { (text after : List ℕ) → piece.now ≡ text ++ 10 ∷ after → length text ≤ LINE_MAX → IsSome result }
{
    let at = memchr(b'\n', piece)?;
    if at > LINE_MAX {
        return None;
    }
    Some((&piece[..at], &piece[at + 1..]))
}

impl Default for LineCutter {
    ghost is_default = { λ c. c ≡ rest [] };

    fn default() -> Self {
        LineCutter::new()
    }
}

/// States a law and does nothing when called. What more bytes add to the lines and the rest of a stream depends only on
/// the rest before them. So it doesn't matter how the bytes before were cut into pieces.
pub fn stream_growth()
    ensures lines { (b more : List ℕ) → lines (b ++ more) ≡ lines b ++ lines_after (rest b) more }
    ensures rest { (b more : List ℕ) → rest (b ++ more) ≡ rest_after (rest b) more }

    // What a line feed adds, and what any other byte adds.
    ensures lines_at_line_feed { (b : List ℕ) → lines (b ++ 10 ∷ []) ≡ lines b ++ rest b ∷ [] }
    ensures rest_at_line_feed { (b : List ℕ) → rest (b ++ 10 ∷ []) ≡ Text [] }
    ensures lines_within { (b : List ℕ) (c : ℕ) → c ≢ 10 → lines (b ++ c ∷ []) ≡ lines b }
    ensures rest_within { (b : List ℕ) (c : ℕ) → c ≢ 10 → rest (b ++ c ∷ []) ≡ joined (rest b) (c ∷ []) }
{}
