//! References within a document: JSON Pointers (RFC 6901) as fragments of a URI.
ghost use Rattle.std.specs.Prelude.{◌≡◌, ◌<◌, ◌≤◌, IfOk, IfSome, IsNone, Some};
ghost use Rattle.std.specs.Option.{option_copied};
ghost use Rattle.openapi_findings.specs.Pointers as spec;

use openapi_node::{Node, Steps, View, find_member};
use openapi_pointer::name_of;
use percent_encoding::{DecodeError, percent_decode};
use std::alloc::{AllocError, Global};

/// Returns whether a reference leads to a value of the document, or is none within it: that is a text which does not begin with
/// `#/`.
///
/// # Errors
///
/// Returns [`AllocError`] if an allocation fails.
pub(crate) fn leads_to_value(
    alloc: Global,
    document: &Node,
    reference: &str,
    steps: &mut Steps,
) -> Result<bool, AllocError>
    ensures { IfOk result (λ b. b ≡ spec.leads_to_value reference.now document.now) }
{
    let Some(fragment) = reference.as_bytes().strip_prefix(b"#/") else {
        return Ok(true);
    };
    fragment_leads(alloc, document, fragment, steps)
}

/// Returns whether the fragment of a URI leads to a value, behind its `#/`.
fn fragment_leads(
    alloc: Global,
    document: &Node,
    fragment: &[u8],
    steps: &mut Steps,
) -> Result<bool, AllocError>
    ensures { IfOk result (λ b. b ≡ spec.fragment_leads fragment.now document.now) }
{
    match percent_decode(fragment).decode_utf8(alloc) {
        Ok(pointer) => pointer_leads(alloc, document, pointer.as_str(), steps),
        Err(DecodeError::OutOfMemory) => Err(AllocError),
        Err(DecodeError::Utf8(_)) => Ok(false),
    }
}

/// Returns whether a pointer leads to a value, behind its first `/`.
fn pointer_leads(
    alloc: Global,
    document: &Node,
    pointer: &str,
    steps: &mut Steps,
) -> Result<bool, AllocError>
    ensures { IfOk result (λ b. b ≡ spec.pointer_leads pointer.now document.now) }
{
    let mut at = document;
    let mut left = pointer;
    while let Some((token, rest)) = left.split_once('/') {
        let Some(value) = value_below(alloc, at, token, steps)? else {
            return Ok(false);
        };
        at = value;
        left = rest;
    }
    Ok(value_below(alloc, at, left, steps)?.is_some())
}

/// Returns the value to which a reference token leads from another.
fn value_below<'a>(
    alloc: Global,
    node: &'a Node,
    token: &str,
    steps: &mut Steps,
) -> Result<Option<&'a Node>, AllocError>
    ensures { IfOk result (λ o. option_copied o ≡ spec.value_below token.now node.now) }
{
    match node.open(steps) {
        View::Object(members) => match name_of(alloc, token)? {
            Some(name) => Ok(find_member(members, name.as_str())),
            None => Ok(None),
        },
        View::List(items) => match index_of(token, items.len()) {
            Some(index) => Ok(Some(&items[index])),
            None => Ok(None),
        },
        _ => Ok(None),
    }
}

/// Returns the index that a reference token writes, digits without a leading zero, if a list of so many items has it.
fn index_of(token: &str, count: usize) -> Option<usize>
    ensures some { IfSome result (λ i. (spec.index_in token.now ≡ Some i) × (i < count)) }
    ensures none { IsNone result → IfSome (spec.index_in token.now) (λ i. count ≤ i) }
{
    if has_leading_zero(token.as_bytes()) || token.starts_with('+') {
        return None;
    }
    let Ok(index) = token.parse::<usize>() else {
        return None;
    };
    if index < count { Some(index) } else { None }
}

/// Returns whether a token begins with a 0 and goes on.
fn has_leading_zero(token: &[u8]) -> bool
    ensures { result ≡ spec.has_leading_zero token.now }
{
    token.len() > 1 && token[0] == b'0'
}
