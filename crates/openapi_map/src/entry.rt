//! The entry of a name in an `OrderedMap`, which has the name or lacks it.
ghost use Rattle.std.specs.Prelude.{◌≡◌, None, Some, position, string_bytes};
ghost use Rattle.std.specs.Map.{keys_of};
ghost use Rattle.std.specs.Str.{bytes_eq};
ghost use Rattle.openapi_map.specs.Entries.{get};

mod methods;

use crate::OrderedMap;

/// The entry of a name that a map has or lacks, to read, insert or change its value.
#[derive(Drop)]
pub enum Entry<'a, V> {
    /// The map has the name.
    Occupied(OccupiedEntry<'a, V>),
    /// The map lacks the name.
    Vacant(VacantEntry<'a, V>),
}

/// The entry of a name that a map has.
#[derive(Drop)]
pub struct OccupiedEntry<'a, V> {
    map: &'a mut OrderedMap<V>,
    name: String,
    place: usize,
    ghost found: { position (bytes_eq (string_bytes name)) (keys_of map.now) ≡ Some place },
}

/// The entry of a name that a map lacks.
#[derive(Drop)]
pub struct VacantEntry<'a, V> {
    map: &'a mut OrderedMap<V>,
    name: String,
    ghost absent: { get (string_bytes name) map.now ≡ None },
}
