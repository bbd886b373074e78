//! Status codes: the names of the Responses Object beside `default`.
ghost use Rattle.std.specs.Prelude.{◌≡◌, Some, option_map};
ghost use Rattle.std.specs.Result.{result_ok};
ghost use Rattle.std.proofs.Common.{rules};
ghost use Rattle.std.specs.Cmp.{partial_order_from_own_ties};
ghost use Rattle.std.specs.Cmp.Rules.{comparing};
ghost use Rattle.std.specs.Ordering.{nat_cmp, on, then_cmp, as_partial_cmp};
ghost use Rattle.openapi_tables.specs.Kind.{code_of, text_of, writable_code};
ghost use Rattle.openapi_values.specs.StatusCode.{code_in, code_of_number, rank_of, number_of};

use openapi_node::Whole;
use std::cmp::Ordering;
use std::fmt;
use std::str::FromStr;

/// An HTTP status code, or a range of them by its first digit.
#[derive(Clone, Copy, Debug, PartialEq, Eq, Hash)]
pub enum StatusCode {
    /// The code of a number, such as `404`. One of 100 to 999 can be written and read again.
    Code(u16),
    /// The codes that begin with a digit, such as `4XX`. One of 0 to 9 can be written and read again.
    Range(u16),
}

impl StatusCode {
    /// Returns whether the printed text of the code is read as the same code again.
    pub fn is_writable(&self) -> bool
        ensures { result ≡ writable_code (code_in self.now) }
    {
        match self {
            StatusCode::Code(number) => (100..=999).contains(number),
            StatusCode::Range(digit) => *digit <= 9,
        }
    }
}

/// Reads three digits as a code of 100 to 999, and a digit with two `x` or `X` as a range. Any other text is an error.
impl FromStr for StatusCode {
    type Err = ();

    ghost from_str_gives = { λ text r. option_map code_in (result_ok r) ≡ code_of text };

    fn from_str(text: &str) -> Result<StatusCode, ()> {
        match *text.as_bytes() {
            [a @ b'1'..=b'9', b @ b'0'..=b'9', c @ b'0'..=b'9'] => Ok(StatusCode::Code(
                100 * u16::from(a - b'0') + 10 * u16::from(b - b'0') + u16::from(c - b'0'),
            )),
            [digit @ b'0'..=b'9', b'x' | b'X', b'x' | b'X'] => {
                Ok(StatusCode::Range(u16::from(digit - b'0')))
            }
            _ => Err(()),
        }
    }
}

/// Converts a whole number of 100 to 999 to the code of that number. Any other number is an error.
impl TryFrom<Whole> for StatusCode {
    type Error = ();

    ghost try_from_gives = { λ z r. option_map code_in (result_ok r) ≡ code_of_number z };

    fn try_from(number: Whole) -> Result<StatusCode, ()> {
        match number.value() {
            value @ 100..=999 => Ok(StatusCode::Code(value as u16)),
            _ => Err(()),
        }
    }
}

/// Orders every code of one number before every range, and then the smaller number first.
impl Ord for StatusCode {
    ghost cmp = { then_cmp (on rank_of nat_cmp) (on number_of nat_cmp) };

    ghost total = { Prim.search (comparing, rules) };

    ghost matches_partial_cmp = { Prim.search (comparing, rules) };

    ghost matches_eq = { Prim.search (comparing, rules) };

    fn cmp(&self, other: &StatusCode) -> Ordering {
        match (self, other) {
            (StatusCode::Code(_), StatusCode::Range(_)) => Ordering::Less,
            (StatusCode::Range(_), StatusCode::Code(_)) => Ordering::Greater,
            (StatusCode::Code(a), StatusCode::Code(b)) => a.cmp(b),
            (StatusCode::Range(a), StatusCode::Range(b)) => a.cmp(b),
        }
    }
}

impl PartialOrd for StatusCode {
    ghost partial_cmp = { as_partial_cmp (then_cmp (on rank_of nat_cmp) (on number_of nat_cmp)) };

    ghost laws = { partial_order_from_own_ties (Prim.search (comparing, rules)) (Prim.search (comparing, rules)) };

    fn partial_cmp(&self, other: &StatusCode) -> Option<Ordering> {
        Some(self.cmp(other))
    }
}

/// Prints the number in decimal, with `XX` after that of a range.
impl fmt::Display for StatusCode {
    ghost output = { λ status. Some (text_of (code_in status)) };

    #[tactic(auto, using(crate::proofs::CodeTexts::text_of_code, crate::proofs::CodeTexts::text_of_range))]
    fn fmt<W: fmt::Write>(&self, f: &mut fmt::Formatter<W>) -> fmt::Result {
        match self {
            StatusCode::Code(number) => write!(f, "{number}"),
            StatusCode::Range(digit) => write!(f, "{digit}XX"),
        }
    }
}
