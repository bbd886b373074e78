//! Lists.
ghost use Rattle.std.proofs.Common.{refl};
ghost use Rattle.std.specs.Prelude.{◌≡◌, ◌+◌, ◌≤◌, ◌*◌, true, false};
ghost use Rattle.openapi_node.specs.Tree.{list, items_of, items_size};
ghost use Rattle.openapi_tables.specs.Kind.{list_of};
ghost use Rattle.openapi_fields.specs.Forms.{list_form};
ghost use Rattle.openapi_fields.specs.Returned.{ReadAs, RisesBy, WrittenAs};

use crate::from_node::FromNode;
use crate::memory::push;
use crate::place::at_index;
use crate::to_node::ToNode;
use openapi_node::{Cause, Expected, Fault, Node, Result, Steps, View};
use std::alloc::Global;

/// Reads the elements of a list, in order.
///
/// # Errors
///
/// Returns the fault of an element that `T` can't be read from, with its location in the list. An allocation failure
/// has `Cause::Memory` and the empty location.
pub fn items<T: FromNode + Drop>(alloc: Global, nodes: &[Node], steps: &mut Steps) -> Result<Vec<T>>
    ensures reads { ReadAs (list_form T.form_of) result (list_of T.kind) (list (items_of nodes.now)) }
    ensures count { RisesBy steps.old steps.new (3 * items_size (items_of nodes.now)) }
{
    let Ok(mut values) = Vec::with_capacity(alloc, nodes.len()) else {
        return Err(Fault::memory(alloc));
    };
    for (i, node) in nodes.iter().enumerate() {
        match at_index(alloc, i, T::from_node(alloc, node, steps)) {
            Ok(value) => push(alloc, &mut values, value)?,
            Err(fault) => return Err(fault),
        }
    }
    Ok(values)
}

/// Writes the elements of a list, in order.
///
/// # Errors
///
/// Returns `Cause::NameNotWritable` at the location of a name or a status code in an element that would not be read
/// again. An allocation failure has `Cause::Memory` and the empty location.
pub fn write_items<T: ToNode>(alloc: Global, values: &Vec<T>) -> Result<Node>
    ensures { WrittenAs (list_of T.kind) (list_form T.form_of values.now) result }
{
    let Ok(mut nodes) = Vec::with_capacity(alloc, values.len()) else {
        return Err(Fault::memory(alloc));
    };
    for (i, value) in values.iter().enumerate() {
        match value.to_node(alloc) {
            Ok(node) => push(alloc, &mut nodes, node)?,
            Err(fault) => return Err(fault.at_index(alloc, i)),
        }
    }
    Ok(Node::list(nodes))
}

impl<T: FromNode + Drop> FromNode for Vec<T> {
    ghost kind = { list_of T.kind };

    ghost form_of = { list_form T.form_of };

    fn from_view(alloc: Global, view: &View<'_>, steps: &mut Steps) -> Result<Vec<T>> {
        match view {
            View::List(nodes) => items(alloc, nodes, steps),
            _ => Err(Fault::new(alloc, Cause::WrongKind(Expected::List))),
        }
    }

    ghost well_made = { T.well_made };
}

impl<T: ToNode + Drop> ToNode for Vec<T> {
    fn to_node(&self, alloc: Global) -> Result<Node> {
        write_items(alloc, self)
    }

    ghost there = { λ x. refl };
}
