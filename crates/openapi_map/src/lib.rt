#![tactic(auto)]
//! A map from names to values that keeps the order of insertion. The type of its values may contain the map itself.
//!
//! It replaces the `IndexMap<String, V>` of a Rust program, for the objects of a JSON document. Their members have
//! names, and are written in the order in which they were read. Contracts see a map as the list of its entries.
//!
//! A map keeps its names and its values in two lists. A map of at most 16 entries compares a name with one name after
//! another. A longer map also has an index of its names by their hashes. Unless many hashes are equal, the time of a
//! lookup does not grow with the length of the map.
ghost use Rattle.std.specs.Prelude.{◌≡◌, ◌-◌, ◌<◌, ◌^◌, ◌↔◌, [], ◌++◌, ◌∷◌, length, slice_get, is_some};
ghost use Rattle.std.specs.Prelude.{IsTrue, IfOk, OnOk, OnErr, Some, None, string_bytes};
ghost use Rattle.std.specs.Borrow.{sem};
ghost use Rattle.std.specs.Option.{option_copied, option_copied_mut, option_map};
ghost use Rattle.std.specs.Map.{values_of};
ghost use Rattle.std.specs.Map.Iter.{deref_pair};
ghost use Rattle.std.specs.List.{remove};
ghost use Rattle.openapi_map.specs.Held.{held_entries, kept, IsConsistent, IsHeldConsistent};
ghost use Rattle.openapi_map.specs.Entries.{get, insert_entry, remove_entry, HasDistinctNames};
ghost use Rattle.openapi_map.specs.Lends.{lends_index, lends_name, lends_place};

pub use crate::entry::{Entry, OccupiedEntry, VacantEntry};
pub use crate::iter::{IntoIter, Iter, Keys, Values};
pub use crate::iter_mut::{IterMut, ValuesMut};
use crate::lookup::{Finder, add_name, drop_name, kept_names, kept_values, place_in};
use std::alloc::{AllocError, Global};
use std::marker::Model;
use std::mem;

mod collect;
mod entry;
mod index;
mod iter;
mod iter_mut;
mod lookup;
mod no_elements;
mod retain;
mod traits;

/// The contents of a map that has or had an entry, or a requested capacity. The value at a place belongs to the name at the
/// same place.
///
/// Names and values are two lists, so that the values can be borrowed mutably while the names stay as they are.
#[derive(Clone, Drop)]
struct Held<V> {
    names: Vec<String>,
    values: Vec<V>,
    finder: Finder,
}

/// A map from names to values that keeps the order in which the names were inserted.
///
/// Contracts see it as the list of its entries, no two of which have the same name.
///
/// # Examples
///
/// ```rust
/// let mut map: OrderedMap<u64> = OrderedMap::new(rt.alloc());
/// map.insert(String::from_str(rt.alloc(), "b")?, 1)?;
/// map.insert(String::from_str(rt.alloc(), "a")?, 2)?;
/// map.insert(String::from_str(rt.alloc(), "b")?, 3)?;
/// assert_eq!(rt; map.len(), 2);
/// assert_eq!(rt; map.get("b").copied(), Some(3));
/// assert_eq!(rt; map.keys().next(), Some("b"));
/// ```
#[derive(Drop)]
pub struct OrderedMap<V> {
    // `None` before the first insert if no capacity was requested.
    held: Option<Box<Held<V>>>,
    alloc: Global,
}

impl<V> Model for OrderedMap<V> {
    ghost use Rattle.std.specs.Coded.{coded_list, coded×, coded_ℕ};
    ghost use Rattle.openapi_map.specs.Entries.{Entries, HasDistinctNames};
    ghost use Rattle.openapi_map.specs.Held.{kept, IsHeldConsistent};

    ghost Value = { Entries V };

    ghost coded = { coded_list (coded× (coded_list coded_ℕ) V.code) };

    ghost view = { λ m. kept m.held };

    ghost invariant = { λ m. HasDistinctNames (kept m.held) × IsHeldConsistent m.held };
}

impl<V> Held<V> {
    /// Creates contents without entries, with room for `capacity` entries.
    fn with_capacity(alloc: Global, capacity: usize) -> Result<Box<Held<V>>, AllocError>
    where
        V: Drop,
        ensures entries { IfOk result (λ b. held_entries b.value ≡ []) }
        ensures consistent { IfOk result (λ b. IsConsistent b.value) }
    {
        let held = Held {
            names: Vec::with_capacity(alloc, capacity)?,
            values: Vec::with_capacity(alloc, capacity)?,
            finder: Finder::Few(0),
        };
        Ok(Box::new(alloc, held)?)
    }

    /// Appends an entry. An `Err` leaves the entries as they were.
    fn push_last(&mut self, name: String, value: V) -> Result<(), AllocError>
    where
        V: Drop,
        requires { IsConsistent self.old }
        ensures entries { OnOk result (held_entries self.new ≡ held_entries self.old ++ (string_bytes name, value) ∷ []) }
        ensures err { OnErr result (held_entries self.new ≡ held_entries self.old) }
        ensures consistent { IsConsistent self.new }
    {
        self.names.reserve(1)?;
        self.values.reserve(1)?;
        add_name(&self.names, &mut self.finder, name.as_str())?;
        self.names.push_reserved(name);
        self.values.push_reserved(value);
        Ok(())
    }

    /// Removes the entry at a place and returns its value.
    fn remove_at(&mut self, place: usize) -> V
        requires within { place < length (held_entries self.old) }
        requires consistent { IsConsistent self.old }
        ensures value { slice_get (values_of (held_entries self.old)) place ≡ Some result }
        ensures entries { held_entries self.new ≡ remove (held_entries self.old) place }
        ensures consistent { IsConsistent self.new }
    {
        drop_name(&mut self.finder, place);
        drop(self.names.remove(place));
        self.values.remove(place)
    }
}

/// Appends an entry to those that a map keeps. An `Err` leaves them as they were.
fn push_kept<V>(
    held: &mut Option<Box<Held<V>>>,
    alloc: Global,
    name: String,
    value: V,
) -> Result<(), AllocError>
where
    V: Drop,
    requires { IsHeldConsistent held.old }
    ensures entries { OnOk result (kept held.new ≡ kept held.old ++ (string_bytes name, value) ∷ []) }
    ensures err { OnErr result (kept held.new ≡ kept held.old) }
    ensures consistent { IsHeldConsistent held.new }
{
    match held {
        Some(held) => held.push_last(name, value),
        None => {
            let mut made = Held::with_capacity(alloc, 0)?;
            made.push_last(name, value)?;
            *held = Some(made);
            Ok(())
        }
    }
}

/// Removes the entry at a place from those that a map keeps, and returns its value.
fn remove_kept<V>(held: &mut Option<Box<Held<V>>>, place: usize) -> V
    requires within { place < length (kept held.old) }
    requires consistent { IsHeldConsistent held.old }
    ensures value { slice_get (values_of (kept held.old)) place ≡ Some result }
    ensures entries { kept held.new ≡ remove (kept held.old) place }
    ensures consistent { IsHeldConsistent held.new }
{
    match held {
        Some(held) => held.remove_at(place),
        None => unreachable!(),
    }
}

impl<V> OrderedMap<V> {
    /// Creates an empty map. It allocates nothing until the first insert.
    pub fn new(alloc: Global) -> OrderedMap<V>
        ensures { result ≡ [] }
    {
        OrderedMap { held: None, alloc }
    }

    /// Creates an empty map with room for `capacity` entries.
    ///
    /// # Errors
    ///
    /// Returns [`AllocError`] if an allocation fails.
    pub fn with_capacity(alloc: Global, capacity: usize) -> Result<OrderedMap<V>, AllocError>
    where
        V: Drop,
        ensures { IfOk result (λ m. m ≡ []) }
    {
        if capacity == 0 {
            return Ok(OrderedMap::new(alloc));
        }
        Ok(OrderedMap {
            held: Some(Held::with_capacity(alloc, capacity)?),
            alloc,
        })
    }

    /// Returns the number of entries.
    pub fn len(&self) -> usize
        ensures len { result ≡ length self.now }
        ensures small { result < 2 ^ 63 }
        ensures distinct { HasDistinctNames self.now }
    {
        kept_names(&self.held).len()
    }

    /// Returns whether the map has no entries.
    pub fn is_empty(&self) -> bool
        ensures { IsTrue result ↔ (length self.now ≡ 0) }
    {
        self.len() == 0
    }

    /// Returns the allocator that the map was created with.
    pub fn allocator(&self) -> &Global {
        &self.alloc
    }

    /// Returns whether the map has a name.
    pub fn contains_key(&self, name: &str) -> bool
        ensures { result ≡ is_some (get name.now self.now) }
    {
        self.get(name).is_some()
    }

    /// Returns the value at a name, or `None` if the map lacks the name.
    pub fn get(&self, name: &str) -> Option<&V>
        ensures { option_copied result ≡ get name.now self.now }
    {
        match place_in(&self.held, name) {
            Some(place) => Some(&kept_values(&self.held)[place]),
            None => None,
        }
    }

    /// Returns the name and the value at an index, which counts from 0 and is less than the number of entries.
    pub fn entry_at(&self, index: usize) -> (&str, &V)
        requires { index < length self.now }
        ensures { slice_get self.now index ≡ Some (result.0.now, result.1.now) }
    {
        let name = kept_names(&self.held)[index].as_str();
        (name, &kept_values(&self.held)[index])
    }

    /// Returns the name and the value at an index, which counts from 0, or `None` if there is no such entry.
    pub fn get_index(&self, index: usize) -> Option<(&str, &V)>
        ensures { option_map deref_pair result ≡ slice_get self.now index }
    {
        if index < self.len() {
            Some(self.entry_at(index))
        } else {
            None
        }
    }

    /// Returns the name and the value of the first entry, or `None` if the map is empty.
    pub fn first(&self) -> Option<(&str, &V)>
        ensures { option_map deref_pair result ≡ slice_get self.now 0 }
    {
        self.get_index(0)
    }

    /// Returns the name and the value of the last entry, or `None` if the map is empty.
    pub fn last(&self) -> Option<(&str, &V)>
        ensures { option_map deref_pair result ≡ slice_get self.now (length self.now - 1) }
    {
        self.get_index(self.len().saturating_sub(1))
    }

    /// Inserts a value at a name, and returns the value that was there before.
    ///
    /// A name that the map has keeps its position. A new name becomes the last one.
    ///
    /// # Errors
    ///
    /// Returns [`AllocError`] if an allocation fails. The map is then as it was.
    pub fn insert(&mut self, name: String, value: V) -> Result<Option<V>, AllocError>
    where
        V: Drop,
        ensures old { IfOk result (λ old. old ≡ get (string_bytes name) self.old) }
        ensures entries { OnOk result (self.new ≡ insert_entry self.old (string_bytes name) value) }
        ensures err { OnErr result (self.new ≡ self.old) }
    {
        match place_in(&self.held, name.as_str()) {
            Some(place) => Ok(Some(mem::replace(self.value_at(place), value))),
            None => {
                self.push_new(name, value)?;
                Ok(None)
            }
        }
    }

    /// Appends a value at a name that the map lacks, without the lookup of [`OrderedMap::insert`].
    ///
    /// # Errors
    ///
    /// Returns [`AllocError`] if an allocation fails. The map is then as it was.
    pub fn push_new(&mut self, name: String, value: V) -> Result<(), AllocError>
    where
        V: Drop,
        requires { get (string_bytes name) self.old ≡ None }
        ensures entries { OnOk result (self.new ≡ self.old ++ (string_bytes name, value) ∷ []) }
        ensures err { OnErr result (self.new ≡ self.old) }
    {
        push_kept(&mut self.held, self.alloc, name, value)?;
        Ok(())
    }

    /// Returns a mutable borrow of the value at a name, or `None` if the map lacks the name.
    ///
    /// When the borrow ends, the map is as it was, except for what was written to the value.
    pub fn get_mut(&mut self, name: &str) -> Option<&mut V>
        ensures* writes_back { sem 𝓛 (lends_name V.row self.entry name.now result) }
        ensures value { option_copied_mut result ≡ get name.now self.old }
    {
        match place_in(&self.held, name) {
            Some(place) => Some(self.value_at(place)),
            None => None,
        }
    }

    /// Returns a mutable borrow of the value at an index, which counts from 0, or `None` if there is no such entry.
    ///
    /// [`OrderedMap::get_index`] returns the name of the entry.
    pub fn get_index_mut(&mut self, index: usize) -> Option<&mut V>
        ensures* writes_back { sem 𝓛 (lends_index V.row self.entry index result) }
        ensures value { option_copied_mut result ≡ slice_get (values_of self.old) index }
    {
        if index < self.len() {
            Some(self.value_at(index))
        } else {
            None
        }
    }

    /// Returns a mutable borrow of the value at a place, which counts from 0.
    fn value_at(&mut self, place: usize) -> &mut V
        requires { place < length self.old }
        ensures* writes_back { sem 𝓛 (lends_place V.row self.entry place result) }
        ensures value { slice_get (values_of self.old) place ≡ Some result.now }
    {
        match &mut self.held {
            Some(held) => &mut held.values[place],
            None => unreachable!(),
        }
    }

    /// Removes the entry of a name and returns its value, or `None` if the map lacks the name.
    ///
    /// The entries after it are shifted to the left and keep their order. This takes time in proportion to the length of the
    /// map.
    pub fn shift_remove(&mut self, name: &str) -> Option<V>
        ensures old { result ≡ get name.now self.old }
        ensures entries { self.new ≡ remove_entry name.now self.old }
    {
        let place = place_in(&self.held, name)?;
        Some(remove_kept(&mut self.held, place))
    }
}
