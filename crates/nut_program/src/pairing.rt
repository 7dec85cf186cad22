//! Early returns that drop what was made before.

ghost use Rattle.std.specs.Prelude.{◌≡◌, IfOk};

/// Returns what was made, and `value` beside it. If nothing was made, `value` is dropped here, in one place: a drop at
/// each caller's `?` makes its proof long.
///
/// # Errors
///
/// Why nothing was made.
pub fn paired<A: Drop, B: Drop, F: Drop>(made: Result<A, F>, value: B) -> Result<(A, B), F>
    ensures { IfOk result (λ both. both.1 ≡ value) }
{
    Ok((made?, value))
}
