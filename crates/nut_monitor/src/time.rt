//! Comparisons of moments, in seconds.
ghost use Rattle.std.specs.Prelude.{◌≡◌, ◌+◌, nat_lt};
ghost use Rattle.nut_monitor_spec.specs.Decision.{is_over as over, is_past as past};

/// Whether more than `seconds` have passed since a moment.
pub fn is_past(seconds: u64, clock: u64, moment: u64) -> bool
    ensures { result ≡ past seconds clock moment }
{
    clock.saturating_sub(moment) > seconds
}

/// Whether more than `seconds` have passed since a moment, or there was no such moment.
pub fn is_over(seconds: u64, clock: u64, moment: Option<u64>) -> bool
    ensures { result ≡ over seconds clock moment }
{
    match moment {
        Some(moment) => is_past(seconds, clock, moment),
        None => true,
    }
}

/// Whether fewer than `seconds` have passed since a moment.
pub fn is_within(seconds: u64, clock: u64, moment: u64) -> bool
    ensures { result ≡ nat_lt clock (moment + seconds) }
{
    clock < moment || clock - moment < seconds
}
