//! The iterators that borrow the values of an `OrderedMap` mutably. They have no model, so that a contract can follow the
//! borrow.
ghost use Rattle.std.specs.Prelude.{◌≡◌, ◌<◌, ◌^◌, ℕ, List, length};
ghost use Rattle.std.specs.Borrow.{sem};
ghost use Rattle.std.specs.Iterator.{at_most};
ghost use Rattle.std.specs.Iterator.Runs.{YieldsMutRefsInOrder};
ghost use Rattle.std.specs.Map.{values_of};
ghost use Rattle.std.specs.Map.Iter.{LendsFirst, LendsValuesInOrder};
ghost use Rattle.openapi_map.specs.Entries.{HasDistinctNames};
ghost use Rattle.openapi_map.specs.Held.{held_entries, kept, IsConsistent, IsHeldConsistent};
ghost use Rattle.openapi_map.specs.IterMut.{iter_mut_rest, iter_mut_name, values_mut_rest, values_mut_name, values_mut_steps, IterMutCanStep};
ghost use Rattle.openapi_map.specs.Lends.{lends_held, lends_kept, lends_values, KeepsNames};

use crate::no_elements::no_elements;
use crate::{Held, OrderedMap};
use std::slice;

/// An iterator over the entries of a map in their order, each as `(&str, &mut V)`: its name and its value.
#[derive(Drop)]
pub struct IterMut<'a, V> {
    names: slice::Iter<'a, String>,
    values: slice::IterMut<'a, V>,
}

impl<'a, V> Iterator for IterMut<'a, V> {
    type Item = (&'a str, &'a mut V);

    ghost can_next = { IterMutCanStep };

    ghost next_gives = { LendsFirst iter_mut_rest };

    ghost remaining = { λ it. at_most (length (iter_mut_rest it)) };

    fn next(&mut self) -> Option<(&'a str, &'a mut V)> {
        let name = self.names.next()?;
        Some((name.as_str(), self.values.next().unwrap()))
    }
}

/// An iterator over the values of a map in the order of their names, each as a `&mut V`.
#[derive(Drop)]
pub struct ValuesMut<'a, V> {
    values: slice::IterMut<'a, V>,
}

impl<'a, V> Iterator for ValuesMut<'a, V> {
    type Item = &'a mut V;

    ghost next_gives = { values_mut_steps };

    ghost remaining = { λ it. at_most (length (values_mut_rest it)) };

    fn next(&mut self) -> Option<&'a mut V> {
        self.values.next()
    }
}

impl<V> Held<V> {
    /// Borrows the values, beside their names.
    fn lend_entries(&mut self) -> IterMut<'_, V>
        requires { IsConsistent self.old }
        ensures* writes_back { sem 𝓛 (lends_held V.row self.entry (iter_mut_name result)) }
        ensures ready { IterMutCanStep result }
        ensures rest { iter_mut_rest result ≡ held_entries self.old }
    {
        IterMut {
            names: self.names.iter(),
            values: self.values.iter_mut(),
        }
    }

    /// Borrows the values.
    fn lend_values(&mut self) -> &mut [V]
        requires { IsConsistent self.old }
        ensures* writes_back { sem 𝓛 (lends_held V.row self.entry result.ghost_name) }
        ensures values { result.now ≡ values_of (held_entries self.old) }
    {
        self.values.as_mut_slice()
    }
}

/// Borrows the values that a map keeps, beside their names.
fn lend_entries<V>(held: &mut Option<Box<Held<V>>>) -> IterMut<'_, V>
    requires { IsHeldConsistent held.old }
    ensures* writes_back { sem 𝓛 (lends_kept V.row held.entry (iter_mut_name result)) }
    ensures ready { IterMutCanStep result }
    ensures rest { iter_mut_rest result ≡ kept held.old }
{
    match held {
        Some(held) => held.lend_entries(),
        None => IterMut {
            names: [].iter(),
            values: no_elements(held).iter_mut(),
        },
    }
}

/// Borrows the values that a map keeps.
fn lend_values<V>(held: &mut Option<Box<Held<V>>>) -> &mut [V]
    requires { IsHeldConsistent held.old }
    ensures* writes_back { sem 𝓛 (lends_kept V.row held.entry result.ghost_name) }
    ensures values { result.now ≡ values_of (kept held.old) }
{
    match held {
        Some(held) => held.lend_values(),
        None => no_elements(held),
    }
}

impl<V> OrderedMap<V> {
    /// Returns an iterator over the entries in their order, each as its name and a mutable borrow of its value.
    ///
    /// The names stay as they are, whatever is written to the values.
    pub fn iter_mut(&mut self) -> IterMut<'_, V>
        ensures* writes_back { sem 𝓛 (lends_values V.row self.entry (iter_mut_name result)) }
        ensures keeps { KeepsNames self.old }
        ensures ready { IterMutCanStep result }
        ensures rest { iter_mut_rest result ≡ self.old }
        ensures len { length (iter_mut_rest result) ≡ length self.old }
        ensures values_run { LendsValuesInOrder (iter_mut_rest {V = V}) }
        ensures distinct { HasDistinctNames self.old }
        ensures fits { length self.old < 2 ^ 63 }
    {
        lend_entries(&mut self.held)
    }

    /// Returns an iterator over mutable borrows of the values, in the order of their names.
    pub fn values_mut(&mut self) -> ValuesMut<'_, V>
        ensures* writes_back { sem 𝓛 (lends_values V.row self.entry (values_mut_name result)) }
        ensures keeps { KeepsNames self.old }
        ensures rest { values_mut_rest result ≡ values_of self.old }
        ensures len { length (values_mut_rest result) ≡ length self.old }
        ensures runs { YieldsMutRefsInOrder (values_mut_steps {V = V}) values_mut_rest }
        ensures distinct { HasDistinctNames self.old }
        ensures fits { length self.old < 2 ^ 63 }
    {
        ValuesMut {
            values: lend_values(&mut self.held).iter_mut(),
        }
    }
}

impl<'a, V> IntoIterator for &'a mut OrderedMap<V> {
    type Item = (&'a str, &'a mut V);

    type IntoIter = IterMut<'a, V>;

    ghost into_iter_gives = { λ m it. (iter_mut_rest it ≡ m.now) × IterMutCanStep it × (length m.now < 2 ^ 63)
        × HasDistinctNames m.now };

    fn into_iter(self) -> IterMut<'a, V>
        ensures* writes_back { sem 𝓛 (lends_values V.row self.entry (iter_mut_name result)) }
        ensures keeps { KeepsNames self.old }
        ensures into_iter_gives { (iter_mut_rest result ≡ self.old) × IterMutCanStep result × (length self.old < 2 ^ 63)
            × HasDistinctNames self.old }
        ensures values_run { LendsValuesInOrder (iter_mut_rest {V = V}) }
    {
        self.iter_mut()
    }
}
