//! Whole numbers that fit an `i64` or a `u64`.
ghost use Rattle.std.specs.Prelude.{◌≡◌, ◌↔◌, ◌≤ℤ◌, pos, IsSome, IfSome, FitsSigned};
ghost use Rattle.std.specs.Int.{w64};
ghost use Rattle.std.specs.Cmp.{partial_order_from_own_ties};
ghost use Rattle.std.specs.Cmp.Rules.{comparing, hashing};
ghost use Rattle.std.specs.Hash as fed;
ghost use Rattle.std.specs.Ordering.{int_cmp, int_eq, as_partial_cmp};
ghost use Rattle.std.proofs.Common.{rules};

use std::cmp::Ordering;
use std::fmt;
use std::hash::{Hash, Hasher};
use std::marker::Model;

/// A number in 64 bits beside its sign, which takes half the room of an `i128`.
#[derive(Clone, Copy)]
enum Kept {
    Negative(i64),
    Natural(u64),
}

/// A whole number from -9223372036854775808 to 18446744073709551615: one that fits an `i64` or a `u64`.
///
/// Contracts see it as the number. It is compared and hashed by the number.
#[derive(Clone, Copy)]
pub struct Whole {
    kept: Kept,
}

impl Model for Whole {
    ghost use Rattle.std.specs.Prelude.{ℤ};

    ghost Value = { ℤ };

    ghost use Rattle.openapi_node.specs.Whole.{kept_number, IsKept, kept_of, kept_of-kept_number};
    ghost use Rattle.std.proofs.Common.{ap};

    ghost view = { λ w. kept_number w.kept };

    ghost invariant = { λ w. IsKept w.kept };

    ghost inverse = { λ z. record { kept = kept_of z } };

    ghost inverse_ok = { λ w h i. record { kept = kept_of-kept_number w.kept h i } };
}

impl Whole {
    ghost use Rattle.openapi_node.specs.Whole.{IsWhole};

    /// Returns the number as a `Whole`, or `None` if it is out of the range.
    pub fn new(number: i128) -> Option<Whole>
        ensures valid { IsSome result ↔ IsWhole number }
        ensures value { IfSome result (λ w. w ≡ number) }
    {
        if let Ok(natural) = u64::try_from(number) {
            return Some(Whole::from(natural));
        }
        match i64::try_from(number) {
            Ok(negative) => Some(Whole::from(negative)),
            Err(_) => None,
        }
    }

    /// Returns the number.
    pub fn value(&self) -> i128
        ensures value { result ≡ self.now }
        ensures valid { IsWhole result }
    {
        match self.kept {
            Kept::Negative(number) => i128::from(number),
            Kept::Natural(number) => i128::from(number),
        }
    }

    /// Returns the number as an `i64`, or `None` if it is above 9223372036854775807.
    pub fn as_i64(&self) -> Option<i64>
        ensures valid { IsSome result ↔ FitsSigned w64 self.now }
        ensures value { IfSome result (λ x. x ≡ self.now) }
    {
        match self.kept {
            Kept::Negative(number) => Some(number),
            Kept::Natural(number) => i64::try_from(number).ok(),
        }
    }

    /// Returns the number as a `u64`, or `None` if it is below 0.
    pub fn as_u64(&self) -> Option<u64>
        ensures valid { IsSome result ↔ (pos 0 ≤ℤ self.now) }
        ensures value { IfSome result (λ x. pos x ≡ self.now) }
    {
        match self.kept {
            Kept::Negative(_) => None,
            Kept::Natural(number) => Some(number),
        }
    }
}

impl From<u64> for Whole {
    ghost from_gives = { λ n w. w ≡ pos n };

    fn from(number: u64) -> Whole {
        Whole {
            kept: Kept::Natural(number),
        }
    }
}

impl From<i64> for Whole {
    ghost from_gives = { λ n w. w ≡ n };

    fn from(number: i64) -> Whole {
        match u64::try_from(number) {
            Ok(natural) => Whole::from(natural),
            Err(_) => Whole {
                kept: Kept::Negative(number),
            },
        }
    }
}

impl PartialEq for Whole {
    ghost eq = { int_eq };

    ghost laws = { Prim.search (comparing, rules) };

    fn eq(&self, other: &Whole) -> bool {
        self.value() == other.value()
    }
}

impl Eq for Whole {
    ghost laws = { Prim.search (comparing, rules) };
}

impl PartialOrd for Whole {
    ghost partial_cmp = { as_partial_cmp int_cmp };

    ghost laws = { partial_order_from_own_ties (Prim.search (comparing, rules))
        (Prim.search (comparing, rules)) };

    fn partial_cmp(&self, other: &Whole) -> Option<Ordering> {
        Some(self.cmp(other))
    }
}

impl Ord for Whole {
    ghost cmp = { int_cmp };

    ghost total = { Prim.search (comparing, rules) };

    ghost matches_partial_cmp = { Prim.search (comparing, rules) };

    ghost matches_eq = { Prim.search (comparing, rules) };

    fn cmp(&self, other: &Whole) -> Ordering {
        self.value().cmp(&other.value())
    }
}

impl Hash for Whole {
    ghost hash_input = { fed.i128 };

    ghost respects_eq = { Prim.search (hashing, rules) };

    fn hash<H: Hasher>(&self, state: &mut H) {
        self.value().hash(state);
    }
}

impl fmt::Display for Whole {
    fn fmt<W: fmt::Write>(&self, f: &mut fmt::Formatter<W>) -> fmt::Result {
        fmt::Display::fmt(&self.value(), f)
    }
}

impl fmt::Debug for Whole {
    fn fmt<W: fmt::Write>(&self, f: &mut fmt::Formatter<W>) -> fmt::Result {
        write!(f, "Whole({self})")
    }
}
