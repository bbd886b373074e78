//! The iterators over the operations of a path item. Contracts see each as the list of the operations that are left.
ghost use Rattle.std.specs.Prelude.{◌≡◌, ℕ, List, length};
ghost use Rattle.std.specs.Iterator.{at_most};
ghost use Rattle.std.specs.Map.Iter.{TakesFirst, ShowsInOrder, ShowsValuesInOrder, deref_pair};
ghost use Rattle.openapi_tables.specs.Operations.{methods, present_ops};
ghost use Rattle.openapi_documents.specs.OperationForms.{operation_form, path_item_form};
ghost use Rattle.openapi_documents.specs.Present.{forms_under, owned_method, present_operations};
ghost use Rattle.openapi_documents.specs.Present.{those_held, under_methods};

use crate::methods::Methods;
use crate::operation::Operation;
use crate::path_item::PathItem;
use std::marker::Model;

/// An iterator over the operations of a path item. It yields `(&'static str, &Operation)`: the method as it is written
/// in the document, and the operation. They come in the order of the fields of [`PathItem`], from `get` to `trace`.
#[derive(Drop)]
pub struct PathItemIter<'a> {
    left: Methods<&'a Operation>,
}

impl<'a> Model for PathItemIter<'a> {
    ghost use Rattle.std.specs.Coded.{coded_list, coded×, coded_ℕ};
    ghost use Rattle.openapi_map.specs.Entries.{Entries};
    ghost use Rattle.openapi_tables.specs.Operations.{methods};
    ghost use Rattle.openapi_documents.specs.Present.{lent, those_held, under_methods};
    ghost use Rattle.openapi_documents.specs.contracts.operation.Operation as operation;
    ghost use Rattle.openapi_documents.specs.declared.operation.Operation.{Operation};

    ghost Value = { Entries Operation };

    ghost coded = { coded_list (coded× (coded_list coded_ℕ) operation.the_row.coded) };

    ghost view = { λ it. lent (those_held methods (under_methods it.left)) };
}

impl<'a> Iterator for PathItemIter<'a> {
    type Item = (&'static str, &'a Operation);

    ghost next_gives = { TakesFirst deref_pair };

    ghost remaining = { λ it. at_most (length it) };

    fn next(&mut self) -> Option<(&'static str, &'a Operation)> {
        self.left.take_first()
    }
}

/// An iterator that moves the operations out of a path item. It yields `(&'static str, Operation)`: the method as it is
/// written in the document, and the operation. They come in the order of the fields of [`PathItem`], from `get` to
/// `trace`.
#[derive(Drop)]
pub struct PathItemIntoIter {
    left: Methods<Operation>,
}

impl Model for PathItemIntoIter {
    ghost use Rattle.std.specs.Coded.{coded_list, coded×, coded_ℕ};
    ghost use Rattle.openapi_map.specs.Entries.{Entries};
    ghost use Rattle.openapi_tables.specs.Operations.{methods};
    ghost use Rattle.openapi_documents.specs.Present.{those_held, under_methods};
    ghost use Rattle.openapi_documents.specs.contracts.operation.Operation as operation;
    ghost use Rattle.openapi_documents.specs.declared.operation.Operation.{Operation};

    ghost Value = { Entries Operation };

    ghost coded = { coded_list (coded× (coded_list coded_ℕ) operation.the_row.coded) };

    ghost view = { λ it. those_held methods (under_methods it.left) };
}

impl Iterator for PathItemIntoIter {
    type Item = (&'static str, Operation);

    ghost next_gives = { TakesFirst owned_method };

    ghost remaining = { λ it. at_most (length it) };

    fn next(&mut self) -> Option<(&'static str, Operation)> {
        self.left.take_first()
    }
}

impl PathItem {
    /// Returns an iterator over the operations, in the order get, put, post, delete, options, head, patch, trace. It
    /// allocates nothing.
    pub fn iter(&self) -> PathItemIter<'_>
        ensures rest { result ≡ present_operations self.now }
        ensures forms { forms_under operation_form result ≡ present_ops (path_item_form self.now) }
        ensures runs { ShowsInOrder (deref_pair {K = List ℕ} {X = Operation}) }
        ensures values_run { ShowsValuesInOrder (deref_pair {K = List ℕ} {X = Operation}) }
    {
        PathItemIter {
            left: Methods {
                get: self.get.as_ref(),
                put: self.put.as_ref(),
                post: self.post.as_ref(),
                delete: self.delete.as_ref(),
                options: self.options.as_ref(),
                head: self.head.as_ref(),
                patch: self.patch.as_ref(),
                trace: self.trace.as_ref(),
            },
        }
    }
}

/// Moves the operations out, in the order get, put, post, delete, options, head, patch, trace. It allocates nothing.
impl IntoIterator for PathItem {
    ghost use Rattle.openapi_documents.specs.declared.operation.Operation.{Operation};

    type Item = (&'static str, Operation);

    type IntoIter = PathItemIntoIter;

    ghost into_iter_gives = { λ x it. (it ≡ present_operations x)
        × (forms_under operation_form it ≡ present_ops (path_item_form x))
        × ShowsInOrder (owned_method {K = List ℕ} {X = Operation})
        × ShowsValuesInOrder (owned_method {K = List ℕ} {X = Operation}) };

    fn into_iter(self) -> PathItemIntoIter {
        PathItemIntoIter {
            left: Methods {
                get: self.get,
                put: self.put,
                post: self.post,
                delete: self.delete,
                options: self.options,
                head: self.head,
                patch: self.patch,
                trace: self.trace,
            },
        }
    }
}
