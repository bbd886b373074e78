//! Reference tokens.
ghost use Rattle.std.specs.Prelude.{◌≡◌, ◌<◌, encode_utf8, false, true, IfOk, IfSome, MatchOption, None, length, option_map, string_bytes};
ghost use Rattle.openapi_pointer.specs.Tokens as spec;

use std::alloc::{AllocError, Global};

/// Returns the name that a reference token writes: `~1` is `/` and `~0` is `~`. A token with another `~` writes none.
///
/// # Errors
///
/// Returns [`AllocError`] if an allocation fails.
pub fn name_of(alloc: Global, token: &str) -> Result<Option<String>, AllocError>
    ensures { IfOk result (λ o. option_map string_bytes o ≡ spec.name_in token.now) }
{
    let mut name = String::new(alloc);
    let mut left = token;
    while let Some((before, after)) = left.split_once('~') {
        name.push_str(before)?;
        let Some((c, rest)) = escaped(after) else {
            return Ok(None);
        };
        name.push(c)?;
        left = rest;
    }
    name.push_str(left)?;
    Ok(Some(name))
}

/// Returns the character that a reference token writes by `~` and the text behind it, and what follows.
fn escaped(text: &str) -> Option<(char, &str)>
    ensures shorter { IfSome result (λ x. length x.1.now < length text.now) }
    ensures character { MatchOption result (spec.name_after true text.now ≡ None)
        (λ x. spec.name_after true text.now ≡ spec.before_name (encode_utf8 x.0) (spec.name_after false x.1.now)) }
{
    if let Some(rest) = text.strip_prefix('0') {
        return Some(('~', rest));
    }
    match text.strip_prefix('1') {
        Some(rest) => Some(('/', rest)),
        None => None,
    }
}
