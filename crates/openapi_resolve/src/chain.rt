//! The way from a reference to a component.
ghost use Rattle.std.specs.Prelude.{◌≡◌, ◌≢◌, ◌+◌, None, Some, IfOk, IfErr, length};
ghost use Rattle.std.specs.Option.{option_copied};
ghost use Rattle.openapi_resolve.specs.Resolved as spec;
ghost use Rattle.openapi_resolve.specs.declared.error.ResolveError.TheVariants.{OutOfMemory};

use crate::error::ResolveError;
use openapi_map::OrderedMap;
use openapi_pointer::component_name;
use openapi_values::ReferenceOr;
use std::alloc::{AllocError, Global};

/// Returns the component to which a reference leads in a section, whose components these are.
pub(crate) fn follow<'a, T>(
    components: &'a OrderedMap<ReferenceOr<T>>,
    section: &str,
    reference: &'a str,
) -> Result<&'a T, ResolveError>
    ensures found { IfOk result (λ x. spec.resolved section.now components.now reference.now ≡ Some x.now) }
    ensures missing { IfErr result (λ e. e ≢ OutOfMemory → spec.resolved section.now components.now reference.now ≡ None) }
{
    let mut chain = Vec::new(*components.allocator());
    let mut at = reference;
    let mut left = components.len() + 1;
    'steps: while left > 0 {
        left -= 1;
        push(&mut chain, at)?;
        match target(components, section, at)? {
            None => return Err(ResolveError::Missing(chain)),
            Some(ReferenceOr::Item(item)) => return Ok(item),
            Some(ReferenceOr::Reference { reference }) => at = reference.as_str(),
        }
    }
    push(&mut chain, at)?;
    Err(ResolveError::Cycle(up_to_cycle(chain)?))
}

/// Returns a chain up to where it comes back to one of its references for the first time. The last one has to be in a cycle.
fn up_to_cycle(chain: Vec<String>) -> Result<Vec<String>, AllocError> {
    let mut found = Vec::new(*chain.allocator());
    let count = count_to_cycle(&chain);
    for reference in chain.into_iter().take(count) {
        found.push(reference)?;
    }
    Ok(found)
}

/// Returns how many references that are.
fn count_to_cycle(chain: &Vec<String>) -> usize {
    let before = chain.len().saturating_sub(1);
    let Some(last) = chain.last() else {
        return 0;
    };
    let Some(same) = chain.iter().take(before).rposition(|it| it == last) else {
        return chain.len();
    };
    // (as far as the two are apart, each reference of the cycle comes again)
    let period = before.saturating_sub(same);
    let again = chain.iter().skip(period);
    let start = chain
        .iter()
        .zip(again)
        .position(|(one, other)| one == other);
    start
        .unwrap_or(same)
        .saturating_add(period)
        .saturating_add(1)
}

/// Returns what a reference leads to in one step.
fn target<'a, T>(
    components: &'a OrderedMap<ReferenceOr<T>>,
    section: &str,
    reference: &str,
) -> Result<Option<&'a ReferenceOr<T>>, AllocError>
    ensures { IfOk result (λ o. option_copied o ≡ spec.target section.now components.now reference.now) }
{
    match component_name(*components.allocator(), section, reference)? {
        Some(name) => Ok(components.get(name.as_str())),
        None => Ok(None),
    }
}

/// Appends a copy of a text.
pub(crate) fn push(texts: &mut Vec<String>, text: &str) -> Result<(), AllocError> {
    let copy = String::from_str(*texts.allocator(), text)?;
    Ok(texts.push(copy)?)
}
