//! Searches of locations among many others.
ghost use Rattle.std.specs.Prelude.{◌≡◌, ◌++◌, IfOk, OnOk, is_some, map, string_bytes};
ghost use Rattle.openapi_node.specs.Fault.{step_of};
ghost use Rattle.openapi_findings.specs.Numbers.{HasKeys, IsIndexed, is_among, key_text, places_in, step_key};
ghost use Rattle.openapi_findings.specs.Numbers as spec;

use openapi_map::OrderedMap;
use openapi_node::PlaceStep;
use std::alloc::{AllocError, Global};

/// Locations, and the index of each by its key.
#[derive(Clone, Copy)]
pub(crate) struct PlaceIndex<'a> {
    pub places: &'a [&'a [PlaceStep]],
    pub keys: &'a OrderedMap<usize>,
}

/// Returns the index of a location among others, if it is one of them.
pub(crate) fn find_place(
    alloc: Global,
    index: &PlaceIndex<'_>,
    place: &[PlaceStep],
) -> Result<Option<usize>, AllocError>
    ensures { IfOk result (λ o. IsIndexed index.now → is_some o ≡ is_among (map step_of place.now) (places_in index.now)) }
{
    let key = key_of(alloc, place)?;
    match index.keys.get(key.as_str()) {
        None => Ok(None),
        Some(hint) => Ok(find_from(index.places, *hint, place)),
    }
}

/// Returns the index of a location among others. The one at `hint` is compared first.
fn find_from(places: &[&[PlaceStep]], hint: usize, place: &[PlaceStep]) -> Option<usize>
    ensures { is_some result ≡ is_among (map step_of place.now) (map (λ p. map step_of p.now) places.now) }
{
    if hint < places.len() {
        if is_same_place(place, places[hint]) {
            return Some(hint);
        }
    }
    // Another location has the same key, so the key doesn't decide.
    find_among(places, place)
}

/// Returns the index of a location among others, by comparing it with each.
fn find_among(places: &[&[PlaceStep]], place: &[PlaceStep]) -> Option<usize>
    ensures { is_some result ≡ is_among (map step_of place.now) (map (λ p. map step_of p.now) places.now) }
{
    for index in 0..places.len() {
        if is_same_place(place, places[index]) {
            return Some(index);
        }
    }
    None
}

/// Returns whether two locations are the same.
fn is_same_place(one: &[PlaceStep], other: &[PlaceStep]) -> bool
    ensures { result ≡ spec.same_place (map step_of one.now) (map step_of other.now) }
{
    if one.len() != other.len() {
        return false;
    }
    for index in 0..one.len() {
        if !is_same_step(&one[index], &other[index]) {
            return false;
        }
    }
    true
}

/// Returns whether two steps are the same.
fn is_same_step(one: &PlaceStep, other: &PlaceStep) -> bool
    ensures { result ≡ spec.same_step (step_of one.now) (step_of other.now) }
{
    match (one, other) {
        (PlaceStep::Name(one), PlaceStep::Name(other)) => one.as_str() == other.as_str(),
        (PlaceStep::Index(one), PlaceStep::Index(other)) => *one == *other,
        (PlaceStep::Name(_), PlaceStep::Index(_)) => false,
        (PlaceStep::Index(_), PlaceStep::Name(_)) => false,
    }
}

/// Returns the index of each location by its key. Of locations with one key it is the index of the last.
pub(crate) fn keys_of(
    alloc: Global,
    places: &[&[PlaceStep]],
) -> Result<OrderedMap<usize>, AllocError>
    ensures { IfOk result (HasKeys (map (λ p. map step_of p.now) places.now)) }
{
    let mut keys = OrderedMap::with_capacity(alloc, places.len())?;
    for index in 0..places.len() {
        let key = key_of(alloc, places[index])?;
        drop(keys.insert(key, index)?);
    }
    Ok(keys)
}

/// Returns the key of a location: its JSON Pointer, but without escapes.
fn key_of(alloc: Global, place: &[PlaceStep]) -> Result<String, AllocError>
    ensures { IfOk result (λ key. string_bytes key ≡ key_text (map step_of place.now)) }
{
    let mut key = String::new(alloc);
    for step in place {
        push_step(&mut key, step)?;
    }
    Ok(key)
}

/// Appends a step to a key.
fn push_step(key: &mut String, step: &PlaceStep) -> Result<(), AllocError>
    ensures { OnOk result (string_bytes key.new ≡ string_bytes key.old ++ step_key (step_of step.now)) }
{
    match step {
        PlaceStep::Name(name) => {
            let name = name.as_str();
            write!(key, "/{name}")?;
        }
        PlaceStep::Index(index) => write!(key, "/{index}")?,
    }
    Ok(())
}
