//! `Clone`, `Debug`, `Index` and `PartialEq` of an `OrderedMap`.
ghost use Rattle.std.specs.Prelude.{◌≡◌, IsSome, Some};
ghost use Rattle.std.specs.Cmp.Lexicographic.{nat_list_eq_equiv};
ghost use Rattle.std.specs.HashMap.Eq.{hash_map_eq_symm, hash_map_eq_trans};
ghost use Rattle.std.specs.Str.{bytes_eq};
ghost use Rattle.openapi_map.specs.Entries.{IsCloneOf, get};
ghost use Rattle.openapi_map.specs.Equality.{entries_eq, as_map};

use crate::OrderedMap;
use std::alloc::AllocError;
use std::fmt;
use std::ops::Index;

impl<V: Clone> Clone for OrderedMap<V> {
    ghost is_clone = { IsCloneOf V.is_clone };

    fn clone(&self) -> Result<OrderedMap<V>, AllocError> {
        Ok(OrderedMap {
            held: self.held.clone()?,
            alloc: self.alloc,
        })
    }
}

// As `{"a": 1, "b": 2}`, or over several lines under `{:#?}`.
impl<V: fmt::Debug> fmt::Debug for OrderedMap<V> {
    fn fmt<W: fmt::Write>(&self, f: &mut fmt::Formatter<W>) -> fmt::Result {
        let mut out = f.debug_map();
        for (name, value) in self {
            out.entry(&name, value);
        }
        out.finish()
    }
}

// `map[name]` is the value at a name that the map is known to have: that it has it is proved by who writes it.
impl<'q, V> Index<&'q str> for OrderedMap<V> {
    type Output = V;

    ghost can_index = { λ m name. IsSome (get name.now m) };

    ghost index_gives = { λ m name v. get name.now m ≡ Some v };

    fn index(&self, name: &'q str) -> &V {
        self.get(name).unwrap()
    }
}

// Two maps are equal where they have the same names, in any order, and equal values at each.
impl<V: PartialEq> PartialEq for OrderedMap<V> {
    ghost eq = { entries_eq V.eq };

    ghost laws = { record {
      symm = λ m n. hash_map_eq_symm bytes_eq V.eq V.laws.symm (as_map m) (as_map n);
      trans = λ l m n. hash_map_eq_trans bytes_eq V.eq nat_list_eq_equiv V.laws.trans (as_map l) (as_map m) (as_map n);
    } };

    fn eq(&self, other: &OrderedMap<V>) -> bool {
        if self.len() != other.len() {
            return false;
        }
        for (name, value) in self {
            match other.get(name) {
                Some(theirs) => {
                    if value != theirs {
                        return false;
                    }
                }
                None => return false,
            }
        }
        true
    }
}
