//! The iterator over the operations of a document. Contracts see it as the list of the operations that are left.
ghost use Rattle.std.specs.Prelude.{◌≡◌, ℕ, List, length};
ghost use Rattle.std.specs.Iterator.{at_most};
ghost use Rattle.std.specs.Map.Iter.{TakesFirst, ShowsInOrder};
ghost use Rattle.openapi_tables.specs.Lists.{join};
ghost use Rattle.openapi_tables.specs.Operations.{ops};
ghost use Rattle.openapi_documents.specs.AllOperations.{document_operations, left_under, lent_operation};
ghost use Rattle.openapi_documents.specs.AllOperations.{operations_at, operations_under, placed_forms};
ghost use Rattle.openapi_documents.specs.Documents.{document_form};

use crate::iter::PathItemIter;
use crate::open_api::OpenAPI;
use crate::operation::Operation;
use crate::path_item::PathItem;
use openapi_map::Iter;
use openapi_values::ReferenceOr;
use std::marker::Model;

/// An iterator over the operations of a document. It yields `(&str, &'static str, &Operation)`: the path, the method as
/// it is written in the document, and the operation. They come path by path in the order of the map. Those under a path
/// come in the order of the fields of [`PathItem`], from `get` to `trace`. A path item that is a reference has none.
#[derive(Drop)]
pub struct Operations<'a> {
    paths: Iter<'a, ReferenceOr<PathItem>>,
    path: &'a str,
    under: Option<PathItemIter<'a>>,
}

impl<'a> Model for Operations<'a> {
    ghost use Rattle.std.specs.Prelude.{List};
    ghost use Rattle.std.specs.Coded.{coded_list, coded×, coded_ℕ};
    ghost use Rattle.openapi_tables.specs.Lists.{join};
    ghost use Rattle.openapi_documents.specs.contracts.operation.Operation as operation;
    ghost use Rattle.openapi_documents.specs.AllOperations.{Placed, left_under, operations_under};

    ghost Value = { List Placed };

    ghost coded = { coded_list (coded× (coded_list coded_ℕ) (coded× (coded_list coded_ℕ) operation.the_row.coded)) };

    ghost view = { λ it. join (left_under it.path.now it.under) (operations_under it.paths) };
}

impl<'a> Iterator for Operations<'a> {
    type Item = (&'a str, &'static str, &'a Operation);

    ghost next_gives = { TakesFirst lent_operation };

    ghost remaining = { λ it. at_most (length it) };

    fn next(&mut self) -> Option<(&'a str, &'static str, &'a Operation)> {
        next_of(&mut self.paths, &mut self.path, &mut self.under)
    }
}

/// Returns the operations of the item at a path; a reference has none.
fn under_item<'a>(item: &'a ReferenceOr<PathItem>) -> Option<PathItemIter<'a>>
    ensures { (path : List ℕ) → left_under path result ≡ operations_at path item.now }
{
    match item {
        ReferenceOr::Item(item) => Some(item.iter()),
        ReferenceOr::Reference { .. } => None,
    }
}

/// Returns the next operation of the path at which an iterator is.
fn next_under<'a>(
    path: &'a str,
    under: &mut Option<PathItemIter<'a>>,
) -> Option<(&'a str, &'static str, &'a Operation)>
    ensures { TakesFirst lent_operation (left_under path.now under.old) result (left_under path.now under.new) }
{
    let (method, operation) = under.as_mut()?.next()?;
    Some((path, method, operation))
}

/// Returns the next operation of the path at which an iterator is, or else the first one of the paths behind it.
fn next_of<'a>(
    paths: &mut Iter<'a, ReferenceOr<PathItem>>,
    path: &mut &'a str,
    under: &mut Option<PathItemIter<'a>>,
) -> Option<(&'a str, &'static str, &'a Operation)>
    ensures { TakesFirst lent_operation (join (left_under path.old.now under.old) (operations_under paths.old)) result
        (join (left_under path.new.now under.new) (operations_under paths.new)) }
{
    loop {
        if let Some(found) = next_under(*path, under) {
            return Some(found);
        }
        let (name, item) = paths.next()?;
        *path = name;
        *under = under_item(item);
    }
}

impl OpenAPI {
    /// Returns an iterator over all operations of the document, path by path in the order of the map. Those under a
    /// path come as [`PathItem::iter`] returns them. A path item that is a reference has none. It allocates nothing.
    pub fn operations(&self) -> Operations<'_>
        ensures rest { result ≡ document_operations self.now }
        ensures forms { placed_forms result ≡ ops (document_form self.now) }
        ensures runs { ShowsInOrder lent_operation }
    {
        Operations {
            paths: self.paths.iter(),
            path: "",
            under: None,
        }
    }
}
