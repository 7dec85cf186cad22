//! Notes who is late: to whom a write is to come later.

ghost use Rattle.std.specs.Prelude.{◌≡◌, ◌==◌, ◌||◌, ◌<◌, ℕ, true, false};
ghost use Rattle.arrayvec.specs.ArrayVec.{array_vec_len};
ghost use Rattle.nut_io.specs.Writes.{IsWithin, late_after};
ghost use Rattle.nut_poll.specs.Late.{is_noted, is_among};

use arrayvec::ArrayVec;
use nut_io::Written;

/// Notes that the one with this number is late, if the write is to come later, and returns the outcome. If the list is
/// full, the write counts as failed. The list has room for as many connections, drivers or links as can be open. If
/// there were more, that would be no reason to fail the others.
pub fn note_written<const MOST: usize>(
    late: &mut ArrayVec<u64, MOST>,
    number: u64,
    written: Written,
) -> Written
    ensures late { (n : ℕ) → is_noted late.new.items n ≡ late_after result number (is_noted late.old.items) n }
    ensures within { (offered : ℕ) → IsWithin written offered → IsWithin result offered }
{
    match written {
        Written::Took(n) => Written::Took(n),
        Written::Failed => Written::Failed,
        Written::Later => {
            if note_late(late, number) {
                Written::Later
            } else {
                Written::Failed
            }
        }
    }
}

/// Notes that the one with this number is late, and returns whether it is noted now. A number is noted once, however
/// often it comes, so there is no room only if the list is full of others.
#[tactic(auto, using(crate::proofs::Late::noted_once))]
fn note_late<const MOST: usize>(late: &mut ArrayVec<u64, MOST>, number: u64) -> bool
    ensures noted { result ≡ true → (n : ℕ) → is_noted late.new.items n ≡ (is_noted late.old.items n || (n == number)) }
    ensures once { is_among number late.old.items ≡ true → (result ≡ true) × (late.new ≡ late.old) }
    ensures room { array_vec_len late.old < MOST → result ≡ true }
    ensures full { result ≡ false → late.new ≡ late.old }
{
    if late.contains(&number) {
        return true;
    }
    if late.is_full() {
        return false;
    }
    late.push(number);
    true
}
