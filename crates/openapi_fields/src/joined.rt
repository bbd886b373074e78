//! Results that are joined, so that no value is held where a call may refuse.
ghost use Rattle.std.specs.Prelude.{◌≡◌};
ghost use Rattle.openapi_fields.specs.Joined.{joined};

/// Returns both values, or the first error.
///
/// Joining results before a single `?` keeps proofs cheap: every `?` adds an obligation to drop each value alive at
/// that point.
///
/// # Errors
///
/// Returns the error of `first` if it has one, and else that of `second`.
pub fn join<A: Drop, B: Drop, E: Drop>(
    first: Result<A, E>,
    second: Result<B, E>,
) -> Result<(A, B), E>
    ensures { result ≡ joined first second }
{
    match first {
        Ok(first) => match second {
            Ok(second) => Ok((first, second)),
            Err(error) => Err(error),
        },
        Err(error) => Err(error),
    }
}
