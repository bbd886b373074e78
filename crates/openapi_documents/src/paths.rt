//! The Paths Object.
ghost use Rattle.std.proofs.Common.{refl};
ghost use Rattle.std.specs.Prelude.{◌≡◌, ◌<◌, ◌^◌, ℕ, List, [], length};
ghost use Rattle.std.specs.Map.Iter.{ShowsInOrder, ShowsValuesInOrder, deref_pair};
ghost use Rattle.openapi_map.specs.Entries.{HasDistinctNames, owned_entry};
ghost use Rattle.openapi_tables.specs.Kind as kinds;
ghost use Rattle.openapi_tables.specs.Kind.{paths};
ghost use Rattle.openapi_documents.specs.Fields.{paths_rows};

use crate::path_item::PathItem;
use openapi_fields::{
    ClassNames, Names, Object, Record, class_entries, extensions, put_class, put_extensions,
};
use openapi_map::{IntoIter, Iter};
use openapi_node::{Members, Node, OrderedMap, Result, Steps};
use openapi_values::ReferenceOr;
use std::alloc::Global;

/// The names of paths, which begin with `/`.
struct PathNames;

impl Names for PathNames {
    ghost test = { kinds.in_class kinds.path_names };

    fn contains(name: &str) -> bool {
        name.as_bytes().starts_with(b"/")
    }
}

impl ClassNames for PathNames {
    ghost class = { kinds.path_names };

    ghost by_class = { λ n. refl };

    ghost by_name = { λ n. refl };
}

/// The Paths Object (OpenAPI 3.0.3, section 4.7.8): the paths of an API, each with its path item.
#[derive(Clone, Debug, PartialEq, Drop)]
pub struct Paths {
    /// The path item of each path, or a reference to one: the members whose names begin with `/`, in their order. Any
    /// other member but an extension is ignored, and its value is not read.
    pub paths: OrderedMap<ReferenceOr<PathItem>>,
    /// Extensions: the members whose names begin with `x-`, in their order.
    pub extensions: OrderedMap<Node>,
}

impl Paths {
    /// Creates an empty `Paths`; both maps are empty.
    pub fn new(alloc: Global) -> Paths
        ensures paths { result.paths ≡ [] }
        ensures extensions { result.extensions ≡ [] }
    {
        Paths {
            paths: OrderedMap::new(alloc),
            extensions: OrderedMap::new(alloc),
        }
    }

    /// Returns an iterator over the paths with their path items or references, in their order.
    pub fn iter(&self) -> Iter<'_, ReferenceOr<PathItem>>
        ensures rest { result ≡ self.now.paths }
        ensures runs { ShowsInOrder (deref_pair {K = List ℕ} {X = ReferenceOr PathItem}) }
        ensures values_run { ShowsValuesInOrder (deref_pair {K = List ℕ} {X = ReferenceOr PathItem}) }
        ensures distinct { HasDistinctNames self.now.paths }
        ensures fits { length self.now.paths < 2 ^ 63 }
    {
        self.paths.iter()
    }
}

/// Moves the paths with their path items or references out, in their order.
impl IntoIterator for Paths {
    ghost use Rattle.openapi_values.specs.declared.reference.ReferenceOr.{ReferenceOr};
    ghost use Rattle.openapi_documents.specs.declared.path_item.PathItem.{PathItem};

    type Item = (String, ReferenceOr<PathItem>);

    type IntoIter = IntoIter<ReferenceOr<PathItem>>;

    ghost into_iter_gives = { λ p it. (it ≡ p.paths) × (length p.paths < 2 ^ 63) × HasDistinctNames p.paths
        × ShowsInOrder (owned_entry {V = ReferenceOr PathItem})
        × ShowsValuesInOrder (owned_entry {V = ReferenceOr PathItem}) };

    fn into_iter(self) -> IntoIter<ReferenceOr<PathItem>> {
        self.paths.into_iter()
    }
}

/// A name among `paths` that does not begin with `/` can't be written: it would not be read again.
impl Object for Paths {
    ghost table = { paths };

    ghost rows_of = { paths_rows };
}

#[tactic(auto, unfolding(openapi_tables::specs::Tables::final_tables, openapi_tables::specs::Tables::tables_with))]
impl Record for Paths {
    fn from_members(alloc: Global, members: &Members, steps: &mut Steps) -> Result<Self> {
        Ok(Paths {
            paths: class_entries::<Self, PathNames, _>(alloc, members, steps)?,
            extensions: extensions::<Self>(alloc, members, steps)?,
        })
    }

    fn put_rows(&self, alloc: Global, out: &mut Members) -> Result<()> {
        put_class::<Self, PathNames, _>(alloc, self, out, &self.paths)?;
        put_extensions(alloc, self, out, &self.extensions)
    }
}
