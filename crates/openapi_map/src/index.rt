//! The index of a long map: it leads from a hash to the places of the names that have it, and holds no names.
ghost use Rattle.std.specs.Prelude.{◌≡◌, ◌+◌, ◌<◌, ◌≤◌, [], ◌++◌, ◌∷◌, ℕ, List, length, position, slice_index, EachIndex};
ghost use Rattle.std.specs.Prelude.{IfOk, OnOk, OnErr};
ghost use Rattle.std.specs.List.{IsDistinct, remove};
ghost use Rattle.std.specs.Str.{bytes_eq};
ghost use Rattle.std.specs.Vec.{vec_len, vec_capacity};
ghost use Rattle.openapi_map.specs.Entries.{names_of};
ghost use Rattle.openapi_map.specs.Index.{IsIndex, HasRoom, bucket, moved_link};

use crate::lookup::is_name;
use std::alloc::AllocError;
use std::hash::{FoldHasher, Hasher};

/// Links that lead from each bucket back along the places of the names that fall into it. A link is one more than the
/// place that it leads to, and 0 leads nowhere.
#[derive(Clone, Drop)]
pub(crate) struct NameIndex {
    // At each bucket the link to the last place whose name falls into it.
    heads: Vec<usize>,
    // At each place the link to the last place before it whose name falls into the same bucket.
    next: Vec<usize>,
}

impl NameIndex {
    /// Creates an index of the names, with twice as many buckets.
    pub(crate) fn of_names(names: &Vec<String>) -> Result<NameIndex, AllocError>
        requires { 0 < vec_len names.now }
        ensures is { IfOk result (IsIndex (names_of names.now.items)) }
        ensures room { IfOk result HasRoom }
    {
        let alloc = *names.allocator();
        let buckets = 2 * names.len();
        let mut index = NameIndex {
            heads: vec![in alloc; 0; buckets]?,
            next: Vec::with_capacity(alloc, buckets)?,
        };
        index.link_all(names);
        Ok(index)
    }

    /// Links the names in an index that has none.
    fn link_all(&mut self, names: &Vec<String>)
        requires none { IsIndex [] self.old }
        requires room { vec_len names.now ≤ vec_capacity self.old.next }
        ensures is { IsIndex (names_of names.now.items) self.new }
        ensures capacity { vec_capacity self.new.next ≡ vec_capacity self.old.next }
    {
        for name in names {
            self.link_last(name.as_str());
        }
    }

    /// Links the names in place of those that it had, and keeps its buckets.
    pub(crate) fn link_again(&mut self, names: &Vec<String>)
        requires buckets { 0 < vec_len self.old.heads }
        requires room { vec_len names.now ≤ vec_capacity self.old.next }
        ensures { IsIndex (names_of names.now.items) self.new }
    {
        self.heads.fill(0);
        self.next.clear();
        self.link_all(names);
    }

    /// Makes room for one more name. There are as many buckets as names or more, so that few names share one.
    pub(crate) fn make_room(&mut self, names: &Vec<String>) -> Result<(), AllocError>
        requires { IsIndex (names_of names.now.items) self.old }
        ensures index { IsIndex (names_of names.now.items) self.new }
        ensures room { OnOk result (HasRoom self.new) }
    {
        if names.len() < self.heads.len() {
            self.next.reserve(1)
        } else {
            *self = NameIndex::of_names(names)?;
            Ok(())
        }
    }

    /// Links the place of a name that goes last.
    pub(crate) fn link_last(&mut self, name: &str)
        requires buckets { 0 < vec_len self.old.heads }
        requires room { HasRoom self.old }
        ensures index { (names : List (List ℕ)) → IsIndex names self.old → IsIndex (names ++ name.now ∷ []) self.new }
        ensures buckets { vec_len self.new.heads ≡ vec_len self.old.heads }
        ensures capacity { vec_capacity self.new.next ≡ vec_capacity self.old.next }
    {
        let bucket = bucket_of(name, self.heads.len());
        self.next.push_reserved(self.heads[bucket]);
        self.heads[bucket] = self.next.len();
    }

    /// Returns the place of a name, or `None` if it is none of the names.
    pub(crate) fn place_of(&self, names: &Vec<String>, name: &str) -> Option<usize>
        requires index { IsIndex (names_of names.now.items) self.now }
        requires distinct { IsDistinct bytes_eq (names_of names.now.items) }
        ensures { result ≡ position (bytes_eq name.now) (names_of names.now.items) }
    {
        let mut link = self.heads[bucket_of(name, self.heads.len())];
        while link > 0 {
            let place = link - 1;
            if is_name(&names[place], name) {
                return Some(place);
            }
            link = self.next[place];
        }
        None
    }

    /// Removes a place. Those after it are reduced by one.
    pub(crate) fn unlink(&mut self, place: usize)
        requires { place < vec_len self.old.next }
        ensures { (names : List (List ℕ)) → IsIndex names self.old → IsIndex (remove names place) self.new }
    {
        let before = self.next.remove(place);
        move_links(&mut self.heads, place, before);
        move_links(&mut self.next, place, before);
    }
}

/// Moves each link behind a place up by one, as the place goes. A link to the place leads to what it led to.
fn move_links(links: &mut Vec<usize>, place: usize, before: usize)
    ensures len { vec_len links.new ≡ vec_len links.old }
    ensures each { EachIndex links.new.items (λ k.
        slice_index links.new.items k ≡ moved_link place before (slice_index links.old.items k)) }
{
    for link in links.iter_mut() {
        if *link > place {
            *link -= 1;
            if *link == place {
                *link = before;
            }
        }
    }
}

/// Returns the bucket of a name. Of a hash it takes as many low bits as number the buckets, which are a power of two.
fn bucket_of(name: &str, buckets: usize) -> usize
    requires { 0 < buckets }
    ensures is { result ≡ bucket buckets name.now }
    ensures within { result < buckets }
{
    let mut hasher = FoldHasher::default();
    hasher.write(name.as_bytes());
    hasher.finish() as usize & (buckets - 1)
}
