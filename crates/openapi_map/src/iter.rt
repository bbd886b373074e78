//! The iterators over an `OrderedMap` that borrow it immutably or own it. Contracts see each as the list of what it has
//! left.
ghost use Rattle.std.specs.Prelude.{◌≡◌, ◌<◌, ◌^◌, ℕ, List, length, String, string_bytes};
ghost use Rattle.std.specs.Iterator.{at_most};
ghost use Rattle.std.specs.Map.{keys_of, values_of};
ghost use Rattle.std.specs.Map.Iter.{TakesFirst, ShowsInOrder, ShowsValuesInOrder, deref, deref_pair};
ghost use Rattle.openapi_map.specs.Entries.{HasDistinctNames, entries_of, owned_entry};
ghost use Rattle.openapi_map.specs.Held.{kept, IsHeldConsistent};

use crate::lookup::{kept_names, kept_values};
use crate::{Held, OrderedMap};
use std::alloc::Global;
use std::marker::Model;
use std::{slice, vec};

/// An iterator over the entries of a map in their order, each as `(&str, &V)`: its name and its value.
#[derive(Drop)]
pub struct Iter<'a, V> {
    names: slice::Iter<'a, String>,
    values: slice::Iter<'a, V>,
}

impl<'a, V> Model for Iter<'a, V> {
    ghost use Rattle.std.specs.Prelude.{◌≡◌, length};
    ghost use Rattle.std.specs.Slice.Iter.{iter_rest};
    ghost use Rattle.openapi_map.specs.Entries.{Entries, entries_of};

    ghost Value = { Entries V };

    ghost view = { λ it. entries_of (iter_rest it.names) (iter_rest it.values) };

    ghost invariant = { λ it. length (iter_rest it.values) ≡ length (iter_rest it.names) };
}

impl<'a, V> Iterator for Iter<'a, V> {
    type Item = (&'a str, &'a V);

    ghost next_gives = { TakesFirst deref_pair };

    ghost remaining = { λ it. at_most (length it) };

    fn next(&mut self) -> Option<(&'a str, &'a V)> {
        let name = self.names.next()?;
        Some((name.as_str(), self.values.next().unwrap()))
    }
}

/// An iterator over the names of a map in their order, each as a `&str`.
#[derive(Drop)]
pub struct Keys<'a, V> {
    entries: Iter<'a, V>,
}

impl<'a, V> Model for Keys<'a, V> {
    ghost use Rattle.std.specs.Prelude.{ℕ, List};
    ghost use Rattle.std.specs.Map.{keys_of};

    ghost Value = { List (List ℕ) };

    ghost view = { λ it. keys_of it.entries };
}

impl<'a, V> Iterator for Keys<'a, V> {
    type Item = &'a str;

    ghost next_gives = { TakesFirst deref };

    ghost remaining = { λ it. at_most (length it) };

    fn next(&mut self) -> Option<&'a str> {
        let (name, _) = self.entries.next()?;
        Some(name)
    }
}

/// An iterator over the values of a map in their order, each as a `&V`.
#[derive(Drop)]
pub struct Values<'a, V> {
    values: slice::Iter<'a, V>,
}

impl<'a, V> Model for Values<'a, V> {
    ghost use Rattle.std.specs.Prelude.{List};
    ghost use Rattle.std.specs.Slice.Iter.{iter_rest};

    ghost Value = { List V };

    ghost view = { λ it. iter_rest it.values };
}

impl<'a, V> Iterator for Values<'a, V> {
    type Item = &'a V;

    ghost next_gives = { TakesFirst deref };

    ghost remaining = { λ it. at_most (length it) };

    fn next(&mut self) -> Option<&'a V> {
        self.values.next()
    }
}

/// An iterator over the entries of a map in their order, each as `(String, V)`: its name and its value.
///
/// It owns the entries.
#[derive(Drop)]
pub struct IntoIter<V> {
    names: vec::IntoIter<String>,
    values: vec::IntoIter<V>,
}

impl<V> Model for IntoIter<V> {
    ghost use Rattle.std.specs.Prelude.{◌≡◌, length};
    ghost use Rattle.std.specs.Vec.Iter.{into_iter_items};
    ghost use Rattle.openapi_map.specs.Entries.{Entries, entries_of};

    ghost Value = { Entries V };

    ghost view = { λ it. entries_of (into_iter_items it.names) (into_iter_items it.values) };

    ghost invariant = { λ it. length (into_iter_items it.values) ≡ length (into_iter_items it.names) };
}

impl<V: Drop> Iterator for IntoIter<V> {
    type Item = (String, V);

    ghost next_gives = { TakesFirst owned_entry };

    ghost remaining = { λ it. at_most (length it) };

    fn next(&mut self) -> Option<(String, V)> {
        let name = self.names.next()?;
        Some((name, self.values.next().unwrap()))
    }
}

impl<V> OrderedMap<V> {
    /// Returns an iterator over the entries, in their order.
    pub fn iter(&self) -> Iter<'_, V>
        ensures rest { result ≡ self.now }
        ensures runs { ShowsInOrder (deref_pair {K = List ℕ} {X = V}) }
        ensures values_run { ShowsValuesInOrder (deref_pair {K = List ℕ} {X = V}) }
        ensures distinct { HasDistinctNames self.now }
        ensures fits { length self.now < 2 ^ 63 }
    {
        Iter {
            names: kept_names(&self.held).iter(),
            values: kept_values(&self.held).iter(),
        }
    }

    /// Returns an iterator over the names, in their order.
    pub fn keys(&self) -> Keys<'_, V>
        ensures rest { result ≡ keys_of self.now }
        ensures runs { ShowsInOrder (deref {X = List ℕ}) }
        ensures distinct { HasDistinctNames self.now }
        ensures fits { length self.now < 2 ^ 63 }
    {
        Keys {
            entries: self.iter(),
        }
    }

    /// Returns an iterator over the values, in the order of their names.
    pub fn values(&self) -> Values<'_, V>
        ensures rest { result ≡ values_of self.now }
        ensures runs { ShowsInOrder (deref {X = V}) }
        ensures fits { length self.now < 2 ^ 63 }
    {
        Values {
            values: kept_values(&self.held).iter(),
        }
    }
}

impl<'a, V> IntoIterator for &'a OrderedMap<V> {
    type Item = (&'a str, &'a V);

    type IntoIter = Iter<'a, V>;

    ghost into_iter_gives = { λ m it. (it ≡ m.now) × (length m.now < 2 ^ 63) × HasDistinctNames m.now
        × ShowsInOrder (deref_pair {K = List ℕ} {X = V}) × ShowsValuesInOrder (deref_pair {K = List ℕ} {X = V}) };

    fn into_iter(self) -> Iter<'a, V> {
        self.iter()
    }
}

/// Returns the names and the values that a map kept.
fn into_columns<V>(held: Option<Box<Held<V>>>, alloc: Global) -> (Vec<String>, Vec<V>)
    requires { IsHeldConsistent held }
    ensures entries { entries_of result.0.items result.1.items ≡ kept held }
    ensures even { length result.1.items ≡ length result.0.items }
{
    match held {
        Some(held) => {
            let Held {
                names,
                values,
                finder,
            } = Box::into_inner(held);
            drop(finder);
            (names, values)
        }
        None => (Vec::new(alloc), Vec::new(alloc)),
    }
}

impl<V: Drop> IntoIterator for OrderedMap<V> {
    type Item = (String, V);

    type IntoIter = IntoIter<V>;

    ghost into_iter_gives = { λ m it. (it ≡ m) × (length m < 2 ^ 63) × HasDistinctNames m
        × ShowsInOrder (owned_entry {V = V}) × ShowsValuesInOrder (owned_entry {V = V}) };

    fn into_iter(self) -> IntoIter<V> {
        let OrderedMap { held, alloc } = self;
        let (names, values) = into_columns(held, alloc);
        IntoIter {
            names: names.into_iter(),
            values: values.into_iter(),
        }
    }
}
