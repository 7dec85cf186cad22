//! Looks at several bytes at once.
ghost use Rattle.std.specs.Int.{trailing_zeros, w64};
ghost use Rattle.std.specs.Prelude.{◌≡◌, ◌==◌, ◌+◌, ◌<◌, ◌≤◌, ℕ, length, slice_index, true, if◌then◌else◌};
ghost use Rattle.nut_words.specs.Spelling.{is_bare};

use std::simd::prelude::*;

/// How many bytes are looked at at once.
pub(crate) const LANES: usize = 8;

/// Returns the number of the first lane that is marked, or [`LANES`] if none is.
#[inline(always)]
fn first_set(marks: u64) -> usize
    ensures { result ≡ (if marks == 0 then LANES else trailing_zeros w64 marks) }
{
    if marks == 0 {
        LANES
    } else {
        marks.trailing_zeros() as usize
    }
}

/// Returns how many bytes, of the [`LANES`] from the place `at` on, come before the first that can't stand in a bare word. It
/// stops at a `!`, too, which may stand there: so one comparison finds all but two of the bytes that may not.
#[inline(always)]
pub(crate) fn bare_run(bytes: &[u8], at: usize) -> usize
    requires { at + LANES ≤ length bytes.now }
    ensures { (result ≤ LANES) × ((k : ℕ) → at ≤ k → k < at + result → is_bare (slice_index bytes.now k) ≡ true) }
{
    let lanes = u8x8::from_slice(&bytes[at..]);
    let from_dollar = lanes - u8x8::splat(b'$');
    let is_outside = from_dollar.simd_ge(u8x8::splat(0x7f - b'$'));
    let is_mark = lanes.simd_eq(u8x8::splat(b'=')) | lanes.simd_eq(u8x8::splat(b'\\'));
    first_set((is_outside | is_mark).to_bitmask())
}
