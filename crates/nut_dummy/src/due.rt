//! The latest of the values that became due.
ghost use Rattle.std.specs.Prelude.{◌≡◌, ◌≤◌, ◌<◌, ◌+◌, ◌*◌, ℕ, option_map, MatchOption, false, true};
ghost use Rattle.nut_dummy.specs.Due.{is_due, latest};

use crate::text::Text;
use crate::timeline::DueValue;

/// Returns the last round in which a step is due later than `after` and not later than `until`, in seconds since the
/// start.
fn last_round(at: u128, round: u128, after: u128, until: u128) -> Option<u128>
    requires { 0 < round }
    ensures { MatchOption result
        ((k : ℕ) → at + k * round ≤ until → at + k * round ≤ after)
        (λ k. (after < at + k * round) × (at + k * round ≤ until) × ((j : ℕ) → at + j * round ≤ until → j ≤ k)) }
{
    if at > until {
        return None;
    }
    let left = until - at;
    let rounds = left / round;
    let age = left % round;
    if until - age > after {
        Some(rounds)
    } else {
        None
    }
}

/// Returns the value that was due last, later than `after` and not later than `until`; a round takes `round` seconds.
pub fn latest(steps: &[DueValue], round: u128, after: u128, until: u128) -> Option<&Text>
    ensures { option_map (λ t. t.now) result ≡ latest round after until steps.now }
{
    if round == 0 {
        return None;
    }
    let mut best = None;
    let mut best_round = 0;
    for step in steps {
        if let Some(k) = last_round(step.at, round, after, until) {
            if best_round <= k {
                best = Some(&step.value);
                best_round = k;
            }
        }
    }
    best
}
