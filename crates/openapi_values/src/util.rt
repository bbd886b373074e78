//! Helpers on single values.
ghost use Rattle.std.specs.Prelude.{◌≡◌, not};

/// Returns whether a flag is false.
pub const fn is_false(v: &bool) -> bool
    ensures { result ≡ not v.now }
{
    !*v
}
