//! The methods that create and use an entry.
//!
//! A clause `writes_back` states what the map or the entry holds after the end of the borrow that the method returns.
ghost use Rattle.std.specs.Prelude.{◌≡◌, None, Some, is_some, string_bytes, unwrap_or, IfOk};
ghost use Rattle.std.specs.Borrow.{sem, MutBor};
ghost use Rattle.std.specs.Map.Calls.{ModifiesValue};
ghost use Rattle.std.specs.Option.{UnwrapsOrElse};
ghost use Rattle.openapi_map.specs.Entries.{get};
ghost use Rattle.openapi_map.specs.Entry.{Occupied, Vacant, entry_map_ref, entry_map, entry_name, entry_value, is_occupied, map_with_value, IsWritten, entry_lends, entry_lends_ok, occupied_lends, with_entry_value};

use super::{Entry, OccupiedEntry, VacantEntry};
use crate::OrderedMap;
use crate::lookup::place_in;
use std::alloc::AllocError;
use std::mem;

impl<V> OrderedMap<V> {
    /// Returns the entry of a name, to read, insert or change its value.
    pub fn entry(&mut self, name: String) -> Entry<'_, V>
        ensures same_map { (entry_map_ref result).ghost_name ≡ self.entry.ghost_name }
        ensures map { entry_map result ≡ self.old }
        ensures name { entry_name result ≡ string_bytes name }
        ensures occupied { is_occupied result ≡ is_some (get (string_bytes name) self.old) }
    {
        match place_in(&self.held, name.as_str()) {
            Some(place) => Entry::Occupied(OccupiedEntry {
                map: self,
                name,
                place,
            }),
            None => Entry::Vacant(VacantEntry { map: self, name }),
        }
    }
}

impl<'a, V> OccupiedEntry<'a, V> {
    /// Returns the name.
    pub fn key(&self) -> &str
        ensures { result.now ≡ entry_name (Occupied self.now) }
    {
        self.name.as_str()
    }

    /// Returns the value at the name.
    pub fn get(&self) -> &V
        ensures { entry_value (Occupied self.now) ≡ Some result.now }
    {
        self.map.entry_at(self.place).1
    }

    /// Returns a mutable borrow of the value at the name.
    pub fn get_mut(&mut self) -> &mut V
        ensures* writes_back { sem 𝓛 (occupied_lends V.row self.entry result) }
        ensures value { entry_value (Occupied self.old) ≡ Some result.now }
        ensures written { (w : V) → IsWritten (Occupied self.old) w (Occupied (with_entry_value self.old w)) }
    {
        let place = self.place;
        self.map.value_at(place)
    }

    /// Returns a mutable borrow of the value at the name, which may live as long as the borrow of the map.
    pub fn into_mut(self) -> &'a mut V
        ensures* writes_back { sem 𝓛 (entry_lends V.row (Occupied self.entry) result) }
        ensures value { entry_value (Occupied self.entry) ≡ Some result.now }
    {
        let map = self.map;
        map.value_at(self.place)
    }

    /// Replaces the value at the name, and returns the one that was there before.
    pub fn insert(&mut self, value: V) -> V
        ensures old { entry_value (Occupied self.old) ≡ Some result }
        ensures written { IsWritten (Occupied self.old) value (Occupied self.new) }
    {
        mem::replace(self.get_mut(), value)
    }
}

impl<'a, V> VacantEntry<'a, V> {
    /// Returns the name.
    pub fn key(&self) -> &str
        ensures { result.now ≡ entry_name (Vacant self.now) }
    {
        self.name.as_str()
    }

    /// Appends a value at the name, and returns a mutable borrow of it.
    ///
    /// # Errors
    ///
    /// Returns [`AllocError`] if an allocation fails. The map is then as it was.
    pub fn insert(self, value: V) -> Result<&'a mut V, AllocError>
    where
        V: Drop,
        ensures* writes_back { sem 𝓛 (entry_lends_ok V.row (Vacant self.entry) result) }
        ensures value { IfOk result (λ x. x.now ≡ value) }
    {
        let map = self.map;
        let place = map.len();
        map.push_new(self.name, value)?;
        Ok(map.value_at(place))
    }
}

impl<'a, V> Entry<'a, V> {
    /// Returns the name.
    pub fn key(&self) -> &str
        ensures { result.now ≡ entry_name self.now }
    {
        match self {
            Entry::Occupied(entry) => entry.key(),
            Entry::Vacant(entry) => entry.key(),
        }
    }

    /// Returns a mutable borrow of the value at the name, after inserting `default` if the map lacks the name.
    ///
    /// # Errors
    ///
    /// Returns [`AllocError`] if an allocation fails. The map is then as it was.
    pub fn or_insert(self, default: V) -> Result<&'a mut V, AllocError>
    where
        V: Drop,
        ensures* writes_back { sem 𝓛 (entry_lends_ok V.row self.entry result) }
        ensures value { IfOk result (λ x. x.now ≡ unwrap_or (entry_value self.entry) default) }
    {
        match self {
            Entry::Occupied(entry) => Ok(entry.into_mut()),
            Entry::Vacant(entry) => entry.insert(default),
        }
    }

    /// Returns a mutable borrow of the value at the name, after inserting what `default` returns if it is missing.
    ///
    /// `default` is called only if the map lacks the name.
    ///
    /// # Errors
    ///
    /// Returns [`AllocError`] if an allocation fails. The map is then as it was.
    pub fn or_insert_with<F: FnOnce() -> V>(self, default: F) -> Result<&'a mut V, AllocError>
    where
        V: Drop,
        requires { entry_value self ≡ None → F.pre default }
        ensures* writes_back { sem 𝓛 (entry_lends_ok V.row self.entry result) }
        ensures value { IfOk result (λ x. UnwrapsOrElse (entry_value self.entry) (F.post default) x.now) }
    {
        match self {
            Entry::Occupied(entry) => Ok(entry.into_mut()),
            Entry::Vacant(entry) => entry.insert(default()),
        }
    }

    /// Calls `f` with a mutable borrow of the value at the name if the map has the name, and returns the entry.
    pub fn and_modify<F: FnOnce(&mut V)>(self, f: F) -> Entry<'a, V>
        requires { (p : MutBor V) → entry_value self ≡ Some p.now → F.pre f p }
        ensures same_map { (entry_map_ref result).ghost_name ≡ (entry_map_ref self.entry).ghost_name }
        ensures same_name { entry_name result ≡ entry_name self.entry }
        ensures same_writes { (w : V) → map_with_value result w ≡ map_with_value self.entry w }
        ensures update { ModifiesValue F.FnOnce f (entry_value self.entry) (entry_value result) }
    {
        match self {
            Entry::Occupied(mut entry) => {
                f(entry.get_mut());
                Entry::Occupied(entry)
            }
            Entry::Vacant(entry) => Entry::Vacant(entry),
        }
    }
}
