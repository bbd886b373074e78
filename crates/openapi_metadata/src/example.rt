//! The Example Object.
ghost use Rattle.std.specs.Prelude.{◌≡◌, ◌+◌, ◌≤◌, ◌*◌, [], None};
ghost use Rattle.openapi_node.specs.Tree.{size_of};
ghost use Rattle.openapi_tables.specs.Kind.{by, example, ref_to};
ghost use Rattle.openapi_values.specs.Reference.{reference_form};
ghost use Rattle.openapi_fields.specs.Forms.{record_form};
ghost use Rattle.openapi_fields.specs.Returned.{ReadAs, Refuses, WrittenAs};
ghost use Rattle.openapi_fields.proofs.Spared.{example_spares};
ghost use Rattle.openapi_metadata.specs.Objects.{example_rows};

use openapi_fields::{FromNode, Object, Record, Referable, ToNode, read_rows, write_rows};
use openapi_node::{Members, Node, OrderedMap, Result, Steps};
use openapi_values::ReferenceOr;
use std::alloc::Global;

/// The Example Object (OpenAPI 3.0.3, section 4.7.19): an example of a value.
#[derive(Clone, Debug, PartialEq, Drop)]
pub struct Example {
    /// A short description of the example.
    pub summary: Option<String>,
    /// A long description of the example, in CommonMark.
    pub description: Option<String>,
    /// The URL of the literal example, for values that JSON text can't hold well. Mutually exclusive with `value` (not
    /// checked).
    pub external_value: Option<String>,
    /// Extensions: the members whose names begin with `x-`, in their order.
    pub extensions: OrderedMap<Node>,
    /// The example itself, a literal value. Mutually exclusive with `external_value` (not checked).
    pub value: Option<Node>,
}

impl Example {
    /// Creates an empty `Example`; every field is `None` or empty.
    pub fn new(alloc: Global) -> Example
        ensures summary { result.summary ≡ None }
        ensures description { result.description ≡ None }
        ensures value { result.value ≡ None }
        ensures external_value { result.external_value ≡ None }
        ensures extensions { result.extensions ≡ [] }
    {
        Example {
            summary: None,
            description: None,
            value: None,
            external_value: None,
            extensions: OrderedMap::new(alloc),
        }
    }
}

impl Object for Example {
    ghost table = { example };

    ghost rows_of = { example_rows };
}

impl Record for Example {
    fn from_members(alloc: Global, members: &Members, steps: &mut Steps) -> Result<Self> {
        read_rows!(alloc, members, steps, Self => Example {
            summary: optional("summary"),
            description: optional("description"),
            value: optional("value"),
            external_value: optional("externalValue"),
            ..extensions
        })
    }

    fn put_rows(&self, alloc: Global, out: &mut Members) -> Result<()> {
        write_rows!(alloc, self, out => {
            summary: put_optional("summary"),
            description: put_optional("description"),
            value: put_optional("value"),
            external_value: put_optional("externalValue"),
            ..extensions
        })
    }
}

impl Referable for Example {
    ghost spares_ref = { example_spares };
}

/// Reads an example or a reference to one.
///
/// # Errors
///
/// Returns a [`Fault`](openapi_node::Fault) with a rule that the value breaks and the location where it does. An
/// allocation failure has [`Cause::Memory`](openapi_node::Cause::Memory) and the empty location.
pub fn example_ref_from_node(
    alloc: Global,
    node: &Node,
    steps: &mut Steps,
) -> Result<ReferenceOr<Example>>
    ensures reads { ReadAs (reference_form (record_form example_rows)) result (ref_to (by example)) node.now }
    ensures refuses { Refuses result (ref_to (by example)) node.now }
    ensures rises { steps.old + 1 ≤ steps.new }
    ensures count { steps.new ≤ steps.old + 3 * size_of node.now }
{
    ReferenceOr::from_node(alloc, node, steps)
}

/// Writes an example or a reference to one.
///
/// # Errors
///
/// Returns a [`Fault`](openapi_node::Fault) with [`Cause::NameNotWritable`](openapi_node::Cause::NameNotWritable) at an
/// extension whose name does not begin with `x-`. An allocation failure has
/// [`Cause::Memory`](openapi_node::Cause::Memory) and the empty location.
pub fn example_ref_to_node(alloc: Global, value: &ReferenceOr<Example>) -> Result<Node>
    ensures { WrittenAs (ref_to (by example)) (reference_form (record_form example_rows) value.now) result }
{
    value.to_node(alloc)
}
