//! Whole numbers in a driver's lines.
ghost use Rattle.std.specs.Prelude.{◌≡◌};
ghost use Rattle.nut_state.specs.Number.{range_of, whole_number};

use nut_words::natural;

/// The whole numbers from `minimum` to `maximum`, both included, that ADDRANGE lets a client set.
#[derive(Clone, Copy, PartialEq, Eq)]
pub struct Range {
    /// The least number.
    pub minimum: i32,
    /// The greatest number.
    pub maximum: i32,
}

impl Range {
    /// Reads two whole numbers, the first at most the second. Returns `None` for anything else.
    pub(crate) fn read(low: &[u8], high: &[u8]) -> Option<Range>
        ensures { result ≡ range_of low.now high.now }
    {
        let minimum = whole_number(low)?;
        let maximum = whole_number(high)?;
        if minimum <= maximum {
            Some(Range { minimum, maximum })
        } else {
            None
        }
    }
}

/// Reads a number of one to nine decimal digits, which may follow a minus sign. Returns `None` for any other text.
pub fn whole_number(text: &[u8]) -> Option<i32>
    ensures { result ≡ whole_number text.now }
{
    match text.split_first() {
        Some((b'-', digits)) => Some(-(natural(digits)? as i32)),
        _ => Some(natural(text)? as i32),
    }
}
