//! Whole numbers from the text of a token of JSON.
ghost use Rattle.std.specs.Prelude.{◌≡◌, ◌<◌, ◌==◌, false, true, length, slice_index, IfSome, IsTrue, None, Some};
ghost use Rattle.serde_json.specs.Find.{of_integer};
ghost use Rattle.serde_json.specs.Read.{number_from, number_of};
ghost use Rattle.openapi_json.specs.Ordered.{holds_whole, writes_whole};

use fast_float::Numeral;
use openapi_node::Whole;

/// Returns whether the text of a number begins with a minus.
fn has_minus(bytes: &[u8]) -> bool
    ensures value { result ≡ (slice_index bytes.now 0 == 45) }
    ensures len { IsTrue result → 0 < length bytes.now }
{
    !bytes.is_empty() && bytes[0] == b'-'
}

/// Returns a number without a sign.
fn natural(numeral: &Numeral<'_>) -> Option<Whole>
    ensures some { IfSome result (λ w. number_from false numeral.now ≡ Some (of_integer w)) }
    ensures none { result ≡ None → holds_whole (number_from false numeral.now) ≡ false }
{
    match numeral.to_u64() {
        Some(n) => Some(Whole::from(n)),
        None => None,
    }
}

/// Returns a number below 0, whose digits follow a minus.
fn below_zero(numeral: &Numeral<'_>) -> Option<Whole>
    ensures some { IfSome result (λ w. number_from true numeral.now ≡ Some (of_integer w)) }
    ensures none { result ≡ None → holds_whole (number_from true numeral.now) ≡ false }
{
    if let Some(n) = numeral.to_i64(true) {
        if n < 0 {
            return Some(Whole::from(n));
        }
    }
    None
}

/// Returns the whole number that a token of JSON writes, if it writes one as `serde_json` reads it.
pub(crate) fn whole_of(text: &str) -> Option<Whole>
    ensures some { IfSome result (λ w. number_of text.now ≡ Some (of_integer w)) }
    ensures none { result ≡ None → writes_whole text.now ≡ false }
{
    let bytes = text.as_bytes();
    if has_minus(bytes) {
        below_zero(&Numeral::scan(&bytes[1..]))
    } else {
        natural(&Numeral::scan(bytes))
    }
}
