//! Maps by names.
ghost use Rattle.std.proofs.Common.{refl};
ghost use Rattle.std.specs.Prelude.{◌≡◌, ◌+◌, ◌≤◌, ◌*◌, true, false};
ghost use Rattle.openapi_tables.specs.Kind.{map_of};
ghost use Rattle.openapi_fields.specs.Forms.{map_form};
ghost use Rattle.openapi_fields.specs.Returned.{WrittenAs};

use crate::entries::{put_entries, read_entries};
use crate::from_node::FromNode;
use crate::names::AllNames;
use crate::to_node::ToNode;
use openapi_node::{Cause, Expected, Fault, Node, OrderedMap, Result, Steps, View};
use std::alloc::Global;

/// Writes the entries of a map, in order.
///
/// # Errors
///
/// Returns `Cause::NameNotWritable` at the location of a name or a status code in a value that would not be read again.
/// An allocation failure has `Cause::Memory` and the empty location.
pub fn write_map<T: ToNode>(alloc: Global, values: &OrderedMap<T>) -> Result<Node>
    ensures { WrittenAs (map_of T.kind) (map_form T.form_of values.now) result }
{
    let Ok(mut out) = OrderedMap::with_capacity(alloc, values.len()) else {
        return Err(Fault::memory(alloc));
    };
    match put_entries::<AllNames, T>(alloc, &mut out, values) {
        Ok(()) => Ok(Node::object(out)),
        Err(fault) => Err(fault),
    }
}

impl<T: FromNode + Drop> FromNode for OrderedMap<T> {
    ghost kind = { map_of T.kind };

    ghost form_of = { map_form T.form_of };

    fn from_view(alloc: Global, view: &View<'_>, steps: &mut Steps) -> Result<OrderedMap<T>> {
        match view {
            View::Object(members) => read_entries::<AllNames, T>(alloc, members, steps),
            _ => Err(Fault::new(alloc, Cause::WrongKind(Expected::Object))),
        }
    }

    ghost well_made = { T.well_made };
}

impl<T: ToNode + Drop> ToNode for OrderedMap<T> {
    fn to_node(&self, alloc: Global) -> Result<Node> {
        write_map(alloc, self)
    }

    ghost there = { λ x. refl };
}
