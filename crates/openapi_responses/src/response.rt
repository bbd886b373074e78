//! The Response Object.
ghost use Rattle.std.specs.Prelude.{◌≡◌, ◌+◌, ◌≤◌, ◌*◌, [], string_bytes};
ghost use Rattle.openapi_node.specs.Tree.{size_of};
ghost use Rattle.openapi_tables.specs.Kind.{by, ref_to, response};
ghost use Rattle.openapi_values.specs.Reference.{reference_form};
ghost use Rattle.openapi_fields.specs.Forms.{record_form};
ghost use Rattle.openapi_fields.specs.Returned.{ReadAs, Refuses, WrittenAs};
ghost use Rattle.openapi_fields.proofs.Spared.{response_spares};
ghost use Rattle.openapi_responses.specs.Messages.{response_rows};

use openapi_fields::{FromNode, Object, Record, Referable, ToNode, read_rows, write_rows};
use openapi_media_types::{Content, Header};
use openapi_metadata::Link;
use openapi_node::{Members, Node, OrderedMap, Result, Steps};
use openapi_values::ReferenceOr;
use std::alloc::Global;

/// The Response Object (OpenAPI 3.0.3, section 4.7.17): one response of an operation.
#[derive(Clone, Debug, PartialEq, Drop)]
pub struct Response {
    /// A description of the response, in CommonMark. Required.
    pub description: String,
    /// The headers of the response, or references to some, by their names. OpenAPI ignores `Content-Type` among them;
    /// here it is kept.
    pub headers: OrderedMap<ReferenceOr<Header>>,
    /// The content of the response, by media types or media type ranges.
    pub content: Content,
    /// Links to operations that may follow, or references to some, by short names.
    pub links: OrderedMap<ReferenceOr<Link>>,
    /// Extensions: the members whose names begin with `x-`, in their order.
    pub extensions: OrderedMap<Node>,
}

impl Response {
    /// Creates an empty `Response`; every field is empty.
    pub fn new(alloc: Global) -> Response
        ensures description { string_bytes result.description ≡ [] }
        ensures headers { result.headers ≡ [] }
        ensures content { result.content ≡ [] }
        ensures links { result.links ≡ [] }
        ensures extensions { result.extensions ≡ [] }
    {
        Response {
            description: String::new(alloc),
            headers: OrderedMap::new(alloc),
            content: Content::new(alloc),
            links: OrderedMap::new(alloc),
            extensions: OrderedMap::new(alloc),
        }
    }
}

impl Object for Response {
    ghost table = { response };

    ghost rows_of = { response_rows };
}

#[tactic(auto, unfolding(openapi_tables::specs::Tables::final_tables, openapi_tables::specs::Tables::tables_with))]
impl Record for Response {
    fn from_members(alloc: Global, members: &Members, steps: &mut Steps) -> Result<Self> {
        read_rows!(alloc, members, steps, Self => Response {
            description: required("description"),
            headers: or_implied("headers"),
            content: or_implied("content"),
            links: or_implied("links"),
            ..extensions
        })
    }

    fn put_rows(&self, alloc: Global, out: &mut Members) -> Result<()> {
        write_rows!(alloc, self, out => {
            description: put_required("description"),
            headers: put_implied("headers"),
            content: put_implied("content"),
            links: put_implied("links"),
            ..extensions
        })
    }
}

impl Referable for Response {
    ghost spares_ref = { response_spares };
}

/// Reads a response or a reference to one.
///
/// # Errors
///
/// Returns a [`Fault`](openapi_node::Fault) with a rule that the value breaks and the location where it does. An
/// allocation failure has [`Cause::Memory`](openapi_node::Cause::Memory) and the empty location.
pub fn response_ref_from_node(
    alloc: Global,
    node: &Node,
    steps: &mut Steps,
) -> Result<ReferenceOr<Response>>
    ensures reads { ReadAs (reference_form (record_form response_rows)) result (ref_to (by response)) node.now }
    ensures refuses { Refuses result (ref_to (by response)) node.now }
    ensures rises { steps.old + 1 ≤ steps.new }
    ensures count { steps.new ≤ steps.old + 3 * size_of node.now }
{
    ReferenceOr::from_node(alloc, node, steps)
}

/// Writes a response or a reference to one.
///
/// # Errors
///
/// Returns a [`Fault`](openapi_node::Fault) with [`Cause::NameNotWritable`](openapi_node::Cause::NameNotWritable) at an
/// extension whose name does not begin with `x-`. An allocation failure has
/// [`Cause::Memory`](openapi_node::Cause::Memory) and the empty location.
pub fn response_ref_to_node(alloc: Global, value: &ReferenceOr<Response>) -> Result<Node>
    ensures { WrittenAs (ref_to (by response)) (reference_form (record_form response_rows) value.now) result }
{
    value.to_node(alloc)
}
