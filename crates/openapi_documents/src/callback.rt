//! The Callback Object.
ghost use Rattle.std.proofs.Common.{refl};
ghost use Rattle.std.specs.Prelude.{◌≡◌, ◌+◌, ◌≤◌, ◌*◌, []};
ghost use Rattle.openapi_node.specs.Tree.{size_of};
ghost use Rattle.openapi_tables.specs.Kind.{by, callback_object};
ghost use Rattle.openapi_tables.specs.Tables.{callback_ref};
ghost use Rattle.openapi_values.specs.Reference.{reference_form};
ghost use Rattle.openapi_fields.specs.Returned.{ReadAs, Refuses, WrittenAs};
ghost use Rattle.openapi_documents.specs.Fields.{callback_fields};
ghost use Rattle.openapi_documents.specs.OperationForms.{callback_form};
ghost use Rattle.openapi_documents.specs.Spared.{callback_spares};

use crate::path_item::PathItem;
use crate::read::read_callback;
use crate::write::write_callback;
use openapi_fields::{FromNode, Object, Referable, ToNode};
use openapi_node::{Node, OrderedMap, Result, Steps, View};
use openapi_values::ReferenceOr;
use std::alloc::Global;

/// The Callback Object (OpenAPI 3.0.3, section 4.7.18): requests that the API may send, by expressions for their URLs.
#[cycle(operations)]
#[derive(Clone, Debug, PartialEq, Drop)]
pub struct Callback {
    /// The requests, each a path item under its expression: the members whose names do not begin with `x-`, in their
    /// order. A path item here is never a reference: a `$ref` in it is ignored, and the other members are read.
    pub paths: OrderedMap<PathItem>,
    /// Extensions: the members whose names begin with `x-`, in their order.
    pub extensions: OrderedMap<Node>,
}

impl Callback {
    ghost use Rattle.openapi_documents.specs.declared.callback.Callback.{out-Callback};

    /// Creates an empty `Callback`; both maps are empty.
    pub fn new(alloc: Global) -> Callback
        ensures paths { (out-Callback result).paths ≡ [] }
        ensures extensions { (out-Callback result).extensions ≡ [] }
    {
        Callback {
            paths: OrderedMap::new(alloc),
            extensions: OrderedMap::new(alloc),
        }
    }
}

impl Object for Callback {
    ghost table = { callback_object };

    ghost rows_of = { callback_fields };
}

impl FromNode for Callback {
    ghost kind = { by callback_object };

    ghost form_of = { callback_form };

    fn from_view(alloc: Global, view: &View<'_>, steps: &mut Steps) -> Result<Callback> {
        read_callback(alloc, view, steps)
    }

    ghost well_made = { refl };
}

/// A name among `paths` that begins with `x-` can't be written: it would be read as an extension.
impl ToNode for Callback {
    fn to_node(&self, alloc: Global) -> Result<Node> {
        write_callback(alloc, self)
    }

    ghost there = { λ x. refl };
}

impl Referable for Callback {
    ghost spares_ref = { callback_spares };
}

/// Reads a callback or a reference to one.
///
/// # Errors
///
/// Returns a [`Fault`](openapi_node::Fault) with a rule that the value breaks and the location where it does. An
/// allocation failure has [`Cause::Memory`](openapi_node::Cause::Memory) and the empty location.
pub fn callback_ref_from_node(
    alloc: Global,
    node: &Node,
    steps: &mut Steps,
) -> Result<ReferenceOr<Callback>>
    ensures reads { ReadAs (reference_form callback_form) result callback_ref node.now }
    ensures refuses { Refuses result callback_ref node.now }
    ensures rises { steps.old + 1 ≤ steps.new }
    ensures count { steps.new ≤ steps.old + 3 * size_of node.now }
{
    ReferenceOr::from_node(alloc, node, steps)
}

/// Writes a callback or a reference to one.
///
/// # Errors
///
/// Returns a [`Fault`](openapi_node::Fault) with [`Cause::NameNotWritable`](openapi_node::Cause::NameNotWritable) at a
/// name or a status code that would not be read again, such as an extension without `x-`. An allocation failure has
/// [`Cause::Memory`](openapi_node::Cause::Memory) and the empty location.
pub fn callback_ref_to_node(alloc: Global, value: &ReferenceOr<Callback>) -> Result<Node>
    ensures { WrittenAs callback_ref (reference_form callback_form value.now) result }
{
    value.to_node(alloc)
}
