//! The Link Object.
ghost use Rattle.std.specs.Prelude.{◌≡◌, ◌+◌, ◌≤◌, ◌*◌, [], None};
ghost use Rattle.openapi_node.specs.Tree.{size_of};
ghost use Rattle.openapi_tables.specs.Kind.{by, link, ref_to};
ghost use Rattle.openapi_values.specs.Reference.{reference_form};
ghost use Rattle.openapi_fields.specs.Forms.{record_form};
ghost use Rattle.openapi_fields.specs.Returned.{ReadAs, Refuses, WrittenAs};
ghost use Rattle.openapi_fields.proofs.Spared.{link_spares};
ghost use Rattle.openapi_metadata.specs.Links.{link_rows};

use crate::link_operation::{LinkOperation, operation, put_operation};
use crate::server::Server;
use openapi_fields::{
    FromNode, Object, Record, Referable, ToNode, extensions, optional, or_implied, put_optional,
    write_rows,
};
use openapi_node::{Members, Node, OrderedMap, Result, Steps};
use openapi_values::ReferenceOr;
use std::alloc::Global;

/// The Link Object (OpenAPI 3.0.3, section 4.7.20): an operation that may follow a response, and the values that are
/// passed to it.
#[derive(Clone, Debug, PartialEq, Drop)]
pub struct Link {
    /// A description of the link, in CommonMark.
    pub description: Option<String>,
    /// The linked operation: `operationRef` or `operationId`. Required here, as in the Rust crate.
    pub operation: LinkOperation,
    /// Literal values or runtime expressions that are passed to the operation, by the names of its parameters.
    pub parameters: OrderedMap<Node>,
    /// Extensions: the members whose names begin with `x-`, in their order.
    pub extensions: OrderedMap<Node>,
    /// A literal value or a runtime expression that is sent as the request body of the operation.
    pub request_body: Option<Node>,
    /// The server of the operation.
    pub server: Option<Server>,
}

impl Link {
    /// Creates a link to an operation; every other field is `None` or empty.
    pub fn new(alloc: Global, operation: LinkOperation) -> Link
        ensures description { result.description ≡ None }
        ensures operation { result.operation ≡ operation }
        ensures parameters { result.parameters ≡ [] }
        ensures extensions { result.extensions ≡ [] }
        ensures request_body { result.request_body ≡ None }
        ensures server { result.server ≡ None }
    {
        Link {
            description: None,
            operation,
            parameters: OrderedMap::new(alloc),
            extensions: OrderedMap::new(alloc),
            request_body: None,
            server: None,
        }
    }
}

impl Object for Link {
    ghost table = { link };

    ghost rows_of = { link_rows };
}

impl Record for Link {
    fn from_members(alloc: Global, members: &Members, steps: &mut Steps) -> Result<Self> {
        Ok(Link {
            description: optional::<Self, _>(alloc, members, "description", steps)?,
            operation: operation::<Self>(alloc, members, steps)?,
            request_body: optional::<Self, _>(alloc, members, "requestBody", steps)?,
            parameters: or_implied::<Self, _>(alloc, members, "parameters", steps)?,
            server: optional::<Self, _>(alloc, members, "server", steps)?,
            extensions: extensions::<Self>(alloc, members, steps)?,
        })
    }

    fn put_rows(&self, alloc: Global, out: &mut Members) -> Result<()> {
        put_optional(alloc, self, out, "description", &self.description)?;
        put_operation(alloc, self, out, &self.operation)?;
        write_rows!(alloc, self, out => {
            request_body: put_optional("requestBody"),
            parameters: put_implied("parameters"),
            server: put_optional("server"),
            ..extensions
        })
    }
}

impl Referable for Link {
    ghost spares_ref = { link_spares };
}

/// Reads a link or a reference to one.
///
/// # Errors
///
/// Returns a [`Fault`](openapi_node::Fault) with a rule that the value breaks and the location where it does. An
/// allocation failure has [`Cause::Memory`](openapi_node::Cause::Memory) and the empty location.
pub fn link_ref_from_node(
    alloc: Global,
    node: &Node,
    steps: &mut Steps,
) -> Result<ReferenceOr<Link>>
    ensures reads { ReadAs (reference_form (record_form link_rows)) result (ref_to (by link)) node.now }
    ensures refuses { Refuses result (ref_to (by link)) node.now }
    ensures rises { steps.old + 1 ≤ steps.new }
    ensures count { steps.new ≤ steps.old + 3 * size_of node.now }
{
    ReferenceOr::from_node(alloc, node, steps)
}

/// Writes a link or a reference to one.
///
/// # Errors
///
/// Returns a [`Fault`](openapi_node::Fault) with [`Cause::NameNotWritable`](openapi_node::Cause::NameNotWritable) at an
/// extension whose name does not begin with `x-`. An allocation failure has
/// [`Cause::Memory`](openapi_node::Cause::Memory) and the empty location.
pub fn link_ref_to_node(alloc: Global, value: &ReferenceOr<Link>) -> Result<Node>
    ensures { WrittenAs (ref_to (by link)) (reference_form (record_form link_rows) value.now) result }
{
    value.to_node(alloc)
}
