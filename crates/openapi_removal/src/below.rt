//! Locations by the step with which they begin.
ghost use Rattle.std.specs.Prelude.{◌≡◌, [], ◌∷◌, ◌++◌, ℕ, List, IfOk, OnOk};
ghost use Rattle.openapi_node.specs.Place.{indexed, named};
ghost use Rattle.openapi_faults.specs.Without.{behind_step, has_root, inside};
ghost use Rattle.openapi_removal.specs.Below.{at_index, at_name, place_of, places_of};

use openapi_node::PlaceStep;
use std::alloc::{AllocError, Global};
use std::collections::BTreeMap;

/// Locations in an object by the name with which they begin. Each is without that name, so it is seen from the value of the member.
pub(crate) type ByName<'p> = BTreeMap<&'p str, Vec<&'p [PlaceStep]>>;

/// Locations in an array by the index with which they begin. Each is without that index, so it is seen from the item.
pub(crate) type ByIndex<'p> = BTreeMap<usize, Vec<&'p [PlaceStep]>>;

/// Returns the locations that begin with a name, by that name.
pub(crate) fn by_name<'p>(
    alloc: Global,
    places: &[&'p [PlaceStep]],
) -> Result<ByName<'p>, AllocError>
    ensures { IfOk result (λ m. (n : List ℕ) → at_name m n ≡ inside (named n) (places_of places.now)) }
{
    let mut groups = BTreeMap::new(alloc);
    for place in places {
        add_by_name(alloc, &mut groups, *place)?;
    }
    Ok(groups)
}

/// Adds a location, if it begins with a name.
fn add_by_name<'p>(
    alloc: Global,
    groups: &mut ByName<'p>,
    place: &'p [PlaceStep],
) -> Result<(), AllocError>
    ensures { OnOk result ((n : List ℕ) → at_name groups.new n ≡ at_name groups.old n ++ behind_step (named n) (place_of place.entry)) }
{
    let [step, more @ ..] = place else {
        return Ok(());
    };
    match step {
        PlaceStep::Name(name) => add_at_name(alloc, groups, name.as_str(), more),
        PlaceStep::Index(_) => Ok(()),
    }
}

/// Adds a location that begins with a name, without that name.
fn add_at_name<'p>(
    alloc: Global,
    groups: &mut ByName<'p>,
    name: &'p str,
    place: &'p [PlaceStep],
) -> Result<(), AllocError>
    ensures { OnOk result ((n : List ℕ) → at_name groups.new n
        ≡ at_name groups.old n ++ behind_step (named n) (named name.now ∷ place_of place.entry)) }
{
    let mut group = groups.remove(name).unwrap_or(Vec::new(alloc));
    group.push(place)?;
    groups.insert(name, group)?;
    Ok(())
}

/// Returns the locations that begin with an index, by that index.
pub(crate) fn by_index<'p>(
    alloc: Global,
    places: &[&'p [PlaceStep]],
) -> Result<ByIndex<'p>, AllocError>
    ensures { IfOk result (λ m. (i : ℕ) → at_index m i ≡ inside (indexed i) (places_of places.now)) }
{
    let mut groups = BTreeMap::new(alloc);
    for place in places {
        add_by_index(alloc, &mut groups, *place)?;
    }
    Ok(groups)
}

/// Adds a location, if it begins with an index.
fn add_by_index<'p>(
    alloc: Global,
    groups: &mut ByIndex<'p>,
    place: &'p [PlaceStep],
) -> Result<(), AllocError>
    ensures { OnOk result ((i : ℕ) → at_index groups.new i ≡ at_index groups.old i ++ behind_step (indexed i) (place_of place.entry)) }
{
    let [step, more @ ..] = place else {
        return Ok(());
    };
    match step {
        PlaceStep::Name(_) => Ok(()),
        PlaceStep::Index(index) => add_at_index(alloc, groups, *index, more),
    }
}

/// Adds a location that begins with an index, without that index.
fn add_at_index<'p>(
    alloc: Global,
    groups: &mut ByIndex<'p>,
    index: usize,
    place: &'p [PlaceStep],
) -> Result<(), AllocError>
    ensures { OnOk result ((i : ℕ) → at_index groups.new i
        ≡ at_index groups.old i ++ behind_step (indexed i) (indexed index ∷ place_of place.entry)) }
{
    let mut group = groups.remove(&index).unwrap_or(Vec::new(alloc));
    group.push(place)?;
    groups.insert(index, group)?;
    Ok(())
}

/// Returns the locations below an item of an array, or else `none`.
pub(crate) fn below_item<'a, 'p>(
    groups: &'a ByIndex<'p>,
    index: usize,
    none: &'a [&'p [PlaceStep]],
) -> &'a [&'p [PlaceStep]]
    requires { none.now ≡ [] }
    ensures { places_of result.now ≡ at_index groups.now index }
{
    match groups.get(&index) {
        Some(group) => group.as_slice(),
        None => none,
    }
}

/// Returns whether one of the locations is that of the value itself.
pub(crate) fn has_root(places: &[&[PlaceStep]]) -> bool
    ensures { result ≡ has_root (places_of places.now) }
{
    for place in places {
        if place.is_empty() {
            return true;
        }
    }
    false
}
