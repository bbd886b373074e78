//! Removal of all entries except those that pass a test.
ghost use Rattle.std.specs.Prelude.{◌≡◌, ◌<◌, ◌≤◌, IfSome, length};
ghost use Rattle.std.specs.Map.Calls.{RetainsPairs, CalledAtPair};
ghost use Rattle.std.specs.Vec.{vec_len, vec_capacity};
ghost use Rattle.openapi_map.specs.Entries.{entries_of, names_of};
ghost use Rattle.openapi_map.specs.Held.{held_entries, kept, IsConsistent, IsHeldConsistent};
ghost use Rattle.openapi_map.specs.Index.{HasRoomFor, IsIndexAt};

use crate::lookup::{Finder, marks_of};
use crate::{Held, OrderedMap};

/// Keeps the names and values for which `keep` returns true, in their order.
fn retain_columns<V, F: FnMut(&str, &mut V) -> bool>(
    names: &mut Vec<String>,
    values: &mut Vec<V>,
    mut keep: F,
)
where
    V: Drop,
    requires callable { F.IsAlwaysCallable keep }
    requires even { length values.old.items ≡ length names.old.items }
    ensures entries { RetainsPairs (CalledAtPair F.FnMut) keep (entries_of names.old.items values.old.items)
        (entries_of names.new.items values.new.items) }
    ensures even { length values.new.items ≡ length names.new.items }
    ensures len { vec_len names.new ≤ vec_len names.old }
{
    let len = names.len();
    let mut kept = 0;
    let mut place = 0;
    while place < len {
        if keep(names[place].as_str(), &mut values[place]) {
            names.swap(kept, place);
            values.swap(kept, place);
            kept += 1;
        }
        place += 1;
    }
    names.truncate(kept);
    values.truncate(kept);
}

/// Makes a finder find the names, of which there are no more than it found before.
fn find_again(finder: &mut Finder, names: &Vec<String>)
    requires { HasRoomFor (vec_len names.now) finder.old }
    ensures { IsIndexAt (names_of names.now.items) finder.new }
{
    match finder {
        Finder::Many(index) => index.link_again(names),
        Finder::Few(marks) => *marks = marks_of(names),
    }
}

impl<V> Held<V> {
    /// Keeps the entries for which `keep` returns true, in their order.
    fn retain<F: FnMut(&str, &mut V) -> bool>(&mut self, keep: F)
    where
        V: Drop,
        requires callable { F.IsAlwaysCallable keep }
        requires consistent { IsConsistent self.old }
        ensures entries { RetainsPairs (CalledAtPair F.FnMut) keep (held_entries self.old) (held_entries self.new) }
        ensures consistent { IsConsistent self.new }
    {
        retain_columns(&mut self.names, &mut self.values, keep);
        find_again(&mut self.finder, &self.names);
    }
}

/// Keeps those of the entries that a map keeps for which `keep` returns true, in their order.
fn retain_kept<V, F: FnMut(&str, &mut V) -> bool>(held: &mut Option<Box<Held<V>>>, keep: F)
where
    V: Drop,
    requires callable { F.IsAlwaysCallable keep }
    requires consistent { IsHeldConsistent held.old }
    ensures entries { RetainsPairs (CalledAtPair F.FnMut) keep (kept held.old) (kept held.new) }
    ensures consistent { IsHeldConsistent held.new }
{
    if let Some(held) = held {
        held.retain(keep);
    }
}

impl<V> OrderedMap<V> {
    /// Keeps the entries for which `keep` returns true, in their order, and drops the others.
    ///
    /// `keep` is called once for each entry, one after another. What it writes to a value that stays is kept.
    pub fn retain<F: FnMut(&str, &mut V) -> bool>(&mut self, keep: F)
    where
        V: Drop,
        requires { F.IsAlwaysCallable keep }
        ensures { RetainsPairs (CalledAtPair F.FnMut) keep self.old self.new }
    {
        retain_kept(&mut self.held, keep);
    }
}
