//! Writes numbers in decimal, without allocating.
ghost use Rattle.std.specs.Prelude.{◌≡◌, ◌+◌, ◌≤◌, ◌++◌, length, decimal};
ghost use Rattle.std.specs.Fmt.{signed_decimal};
ghost use Rattle.arrayvec.specs.ArrayVec.{array_vec_len};

use arrayvec::ArrayVec;

/// Appends the decimal digits of a number.
#[tactic(auto, using(crate::proofs::Digits::last_digit, crate::proofs::Digits::one_digit, crate::proofs::Digits::length_step, crate::proofs::Digits::length_digit))]
fn push_digits(out: &mut ArrayVec<u8, 11>, number: u32)
    requires room { array_vec_len out.old + length (decimal number) ≤ 11 }
    ensures items { out.new.items ≡ out.old.items ++ decimal number }
    ensures len { array_vec_len out.new ≡ array_vec_len out.old + length (decimal number) }
{
    if number < 10 {
        out.push(b'0' + number as u8);
        return;
    }
    push_digits(out, number / 10);
    out.push(b'0' + (number % 10) as u8);
}

/// Returns the decimal digits of a number, as messages have them.
#[tactic(auto, using(crate::proofs::Digits::fits_ten))]
pub fn decimal(number: u32) -> ArrayVec<u8, 11>
    ensures { result.items ≡ decimal number }
{
    let mut out = ArrayVec::new();
    push_digits(&mut out, number);
    out
}

/// Returns the decimal digits of a number, after a `-` if it is negative.
pub fn signed_decimal(number: i32) -> ArrayVec<u8, 11>
    ensures { result.items ≡ signed_decimal number }
{
    let mut out = ArrayVec::new();
    if number < 0 {
        out.push(b'-');
    }
    push_digits(&mut out, number.unsigned_abs());
    out
}
