//! The place of a name among the names of a map, and the index that finds it in a long map.
ghost use Rattle.std.specs.Prelude.{◌≡◌, ◌<◌, ◌^◌, ◌==◌, [], ◌++◌, ◌∷◌, ℕ, List, bit_or, position, string_bytes, OnOk, OnErr};
ghost use Rattle.std.specs.Int.{bit_at};
ghost use Rattle.std.specs.List.{IsDistinct, remove};
ghost use Rattle.std.specs.Map.{keys_of, values_of};
ghost use Rattle.std.specs.Str.{bytes_eq};
ghost use Rattle.openapi_map.specs.Entries.{names_of, HasDistinctNames};
ghost use Rattle.openapi_map.specs.Held.{kept, IsHeldConsistent};
ghost use Rattle.openapi_map.specs.Index.{AreMarked, HasPlace, IsIndexAt, mark};

use crate::Held;
use crate::index::NameIndex;
use std::alloc::AllocError;

/// Up to this many entries a map has marks and no index.
pub(crate) const UNINDEXED_LIMIT: usize = 16;

/// Returns the names that a map keeps.
pub(crate) fn kept_names<V>(held: &Option<Box<Held<V>>>) -> &[String]
    requires { IsHeldConsistent held.now }
    ensures { names_of result.now ≡ keys_of (kept held.now) }
{
    match held {
        Some(held) => held.names.as_slice(),
        None => &[],
    }
}

/// Returns the values that a map keeps.
pub(crate) fn kept_values<V>(held: &Option<Box<Held<V>>>) -> &[V]
    requires { IsHeldConsistent held.now }
    ensures { result.now ≡ values_of (kept held.now) }
{
    match held {
        Some(held) => held.values.as_slice(),
        None => &[],
    }
}

/// Returns the place of a name among those that a map keeps.
pub(crate) fn place_in<V>(held: &Option<Box<Held<V>>>, name: &str) -> Option<usize>
    requires consistent { IsHeldConsistent held.now }
    requires distinct { HasDistinctNames (kept held.now) }
    ensures { result ≡ position (bytes_eq name.now) (keys_of (kept held.now)) }
{
    match held {
        Some(held) => place_of(&held.names, &held.finder, name),
        None => None,
    }
}

/// The means to find a name: the marks of few names, or an index of many.
#[derive(Clone, Drop)]
pub(crate) enum Finder {
    /// One bit for each mark that a name has. A name whose mark has no bit is absent.
    Few(u64),
    /// The places of the names by their hashes, boxed to keep a short map small.
    Many(Box<NameIndex>),
}

/// Returns the mark of a name, by its length and its first byte.
fn mark_of(name: &str) -> usize
    ensures is { result ≡ mark name.now }
    ensures within { result < 64 }
{
    let bytes = name.as_bytes();
    let first = if bytes.is_empty() {
        0
    } else {
        bytes[0] as usize
    };
    (bytes.len() + 8 * first) % 64
}

/// Returns whether some name may have the mark of this one.
fn has_mark(marks: u64, name: &str) -> bool
    ensures { result ≡ (bit_at marks (mark name.now) == 1) }
{
    (marks >> mark_of(name)) & 1 == 1
}

/// Returns the marks with that of one more name.
fn with_mark(marks: u64, name: &str) -> u64
    ensures { result ≡ bit_or marks (2 ^ mark name.now) }
{
    marks | (1 << mark_of(name))
}

/// Returns the marks of all names.
pub(crate) fn marks_of(names: &Vec<String>) -> u64
    ensures { AreMarked (names_of names.now.items) result }
{
    let mut marks = 0;
    for name in names {
        marks = with_mark(marks, name.as_str());
    }
    marks
}

/// Returns the place of a name, or `None` if it is none of the names.
fn place_of(names: &Vec<String>, finder: &Finder, name: &str) -> Option<usize>
    requires index { IsIndexAt (names_of names.now.items) finder.now }
    requires distinct { IsDistinct bytes_eq (names_of names.now.items) }
    ensures { result ≡ position (bytes_eq name.now) (names_of names.now.items) }
{
    match finder {
        Finder::Many(index) => index.place_of(names, name),
        Finder::Few(marks) => {
            if has_mark(*marks, name) {
                place_along(names, name)
            } else {
                None
            }
        }
    }
}

/// Returns the place of a name, comparing it with one name after another.
fn place_along(names: &Vec<String>, name: &str) -> Option<usize>
    ensures { result ≡ position (λ n. bytes_eq name.now (string_bytes n)) names.now.items }
{
    names.iter().position(|other| is_name(other, name))
}

/// Returns whether two names are the same. Most differ in length.
pub(crate) fn is_name(name: &String, other: &str) -> bool
    ensures { result ≡ bytes_eq other.now (string_bytes name.now) }
{
    name.len() == other.len() && name.as_str() == other
}

/// Registers a name that is about to be appended, and makes an index if the names become too many for marks.
pub(crate) fn add_name(
    names: &Vec<String>,
    finder: &mut Finder,
    name: &str,
) -> Result<(), AllocError>
    requires { IsIndexAt (names_of names.now.items) finder.old }
    ensures ok { OnOk result (IsIndexAt (names_of names.now.items ++ name.now ∷ []) finder.new) }
    ensures err { OnErr result (IsIndexAt (names_of names.now.items) finder.new) }
{
    match finder {
        Finder::Many(index) => {
            index.make_room(names)?;
            index.link_last(name);
        }
        Finder::Few(marks) => {
            if names.len() < UNINDEXED_LIMIT {
                *marks = with_mark(*marks, name);
            } else {
                let mut made = NameIndex::of_names(names)?;
                made.link_last(name);
                *finder = Finder::Many(Box::new(*names.allocator(), made)?);
            }
        }
    }
    Ok(())
}

/// Unregisters the name at a place. An index stays, however few the names become.
pub(crate) fn drop_name(finder: &mut Finder, place: usize)
    requires { HasPlace place finder.old }
    ensures { (all : List (List ℕ)) → IsIndexAt all finder.old → IsIndexAt (remove all place) finder.new }
{
    match finder {
        Finder::Many(index) => index.unlink(place),
        Finder::Few(_) => {}
    }
}
