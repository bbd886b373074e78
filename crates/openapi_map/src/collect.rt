//! Collecting names with their values into an `OrderedMap`.
ghost use Rattle.std.specs.Prelude.{◌≡◌, [], map};
ghost use Rattle.openapi_map.specs.Entries.{insert_all, owned_entry};

use crate::OrderedMap;
use std::alloc::{AllocError, Global};

// The entries are inserted one after another, as by `insert`: an existing name keeps its place and gets the later
// value. An `Err` is an allocation failure; the entries before it are in the map then.
impl<V: Drop> Extend<(String, V)> for OrderedMap<V> {
    ghost extend_gives = { λ m es n. n ≡ insert_all m (map owned_entry es) };

    fn extend<I: IntoIterator<Item = (String, V)>>(&mut self, iter: I) -> Result<(), AllocError> {
        let mut rest = iter.into_iter();
        while let Some(entry) = rest.next() {
            let (name, value) = entry;
            self.insert(name, value)?;
        }
        Ok(())
    }
}

// What `collect` makes: the map that `extend` makes of an empty one.
impl<V: Drop> FromIterator<(String, V)> for OrderedMap<V> {
    type Alloc = Global;

    ghost from_iter_gives = { λ es m. m ≡ insert_all [] (map owned_entry es) };

    fn from_iter<I: IntoIterator<Item = (String, V)>>(
        alloc: Global,
        iter: I,
    ) -> Result<OrderedMap<V>, AllocError> {
        let mut map = OrderedMap::new(alloc);
        map.extend(iter)?;
        Ok(map)
    }
}
