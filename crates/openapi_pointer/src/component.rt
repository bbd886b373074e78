//! References to components.
ghost use Rattle.std.specs.Prelude.{◌≡◌, ◌&&◌, IfOk, codes, option_map, string_bytes};
ghost use Rattle.std.specs.Option.{option_copied};
ghost use Rattle.std.specs.Str.{bytes_eq};
ghost use Rattle.openapi_pointer.specs.Tokens.{tokens_in};
ghost use Rattle.openapi_pointer.specs.Components as spec;

use crate::token::name_of;
use percent_encoding::{DecodeError, percent_decode};
use std::alloc::{AllocError, Global};

/// Returns the name of the component to which a reference leads in a section of the Components Object (OpenAPI 3.0.3, section 4.7.7),
/// such as `Pet` for `#/components/schemas/Pet` in the section `schemas`. Any other text leads to none.
///
/// # Errors
///
/// Returns [`AllocError`] if an allocation fails.
pub fn component_name(
    alloc: Global,
    section: &str,
    reference: &str,
) -> Result<Option<String>, AllocError>
    ensures { IfOk result (λ o. option_map string_bytes o ≡ spec.component_name section.now reference.now) }
{
    let Some(fragment) = reference.as_bytes().strip_prefix(b"#/") else {
        return Ok(None);
    };
    name_in_fragment(alloc, section, fragment)
}

/// Returns the name of the component to which the fragment of a URI leads, behind its `#/`.
fn name_in_fragment(
    alloc: Global,
    section: &str,
    fragment: &[u8],
) -> Result<Option<String>, AllocError>
    ensures { IfOk result (λ o. option_map string_bytes o ≡ spec.name_in_fragment section.now fragment.now) }
{
    match percent_decode(fragment).decode_utf8(alloc) {
        Ok(pointer) => name_below(alloc, section, pointer.as_str()),
        Err(DecodeError::OutOfMemory) => Err(AllocError),
        Err(DecodeError::Utf8(_)) => Ok(None),
    }
}

/// Returns the name of the component to which a pointer leads, behind its first `/`.
fn name_below(alloc: Global, section: &str, pointer: &str) -> Result<Option<String>, AllocError>
    ensures { IfOk result (λ o. option_map string_bytes o ≡ spec.name_below section.now pointer.now) }
{
    match token_below(section, pointer) {
        Some(token) => name_of(alloc, token),
        None => Ok(None),
    }
}

/// Returns the token behind `components` and the section, if it is the last one.
fn token_below<'a>(section: &str, pointer: &'a str) -> Option<&'a str>
    ensures { option_copied result ≡ spec.token_below section.now (tokens_in pointer.now) }
{
    let Some((first, rest)) = pointer.split_once('/') else {
        return None;
    };
    let Some((second, token)) = rest.split_once('/') else {
        return None;
    };
    match token.split_once('/') {
        Some(_) => None,
        None => {
            if is_section(section, first, second) {
                Some(token)
            } else {
                None
            }
        }
    }
}

/// Returns whether two tokens are those of a section.
fn is_section(section: &str, first: &str, second: &str) -> bool
    ensures { result ≡ (bytes_eq first.now (codes "components") && bytes_eq second.now section.now) }
{
    first == "components" && second == section
}
