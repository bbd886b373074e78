//! The Request Body Object.
ghost use Rattle.std.specs.Prelude.{◌≡◌, ◌+◌, ◌≤◌, ◌*◌, false, [], None};
ghost use Rattle.openapi_node.specs.Tree.{size_of};
ghost use Rattle.openapi_tables.specs.Kind.{by, ref_to, request_body};
ghost use Rattle.openapi_values.specs.Reference.{reference_form};
ghost use Rattle.openapi_fields.specs.Forms.{record_form};
ghost use Rattle.openapi_fields.specs.Returned.{ReadAs, Refuses, WrittenAs};
ghost use Rattle.openapi_fields.proofs.Spared.{request_body_spares};
ghost use Rattle.openapi_responses.specs.Messages.{request_body_rows};

use openapi_fields::{
    FromNode, Object, Record, Referable, ToNode, extensions, optional, or_implied, write_rows,
};
use openapi_media_types::Content;
use openapi_node::{Members, Node, OrderedMap, Result, Steps};
use openapi_values::ReferenceOr;
use std::alloc::Global;

/// The Request Body Object (OpenAPI 3.0.3, section 4.7.13): the body of a request.
#[derive(Clone, Debug, PartialEq, Drop)]
pub struct RequestBody {
    /// A description of the body, in CommonMark.
    pub description: Option<String>,
    /// The content of the body, by media types or media type ranges. OpenAPI requires it; here a missing one is empty,
    /// as in the Rust crate.
    pub content: Content,
    /// Whether the body is required. False by default.
    pub required: bool,
    /// Extensions: the members whose names begin with `x-`, in their order.
    pub extensions: OrderedMap<Node>,
}

impl RequestBody {
    /// Creates a request body that is not required; every other field is `None` or empty.
    pub fn new(alloc: Global) -> RequestBody
        ensures description { result.description ≡ None }
        ensures content { result.content ≡ [] }
        ensures required { result.required ≡ false }
        ensures extensions { result.extensions ≡ [] }
    {
        RequestBody {
            description: None,
            content: Content::new(alloc),
            required: false,
            extensions: OrderedMap::new(alloc),
        }
    }
}

impl Object for RequestBody {
    ghost table = { request_body };

    ghost rows_of = { request_body_rows };
}

#[tactic(auto, unfolding(openapi_tables::specs::Tables::final_tables, openapi_tables::specs::Tables::tables_with))]
impl Record for RequestBody {
    fn from_members(alloc: Global, members: &Members, steps: &mut Steps) -> Result<Self> {
        Ok(RequestBody {
            required: or_implied::<Self, _>(alloc, members, "required", steps)?,
            description: optional::<Self, _>(alloc, members, "description", steps)?,
            extensions: extensions::<Self>(alloc, members, steps)?,
            content: or_implied::<Self, _>(alloc, members, "content", steps)?,
        })
    }

    fn put_rows(&self, alloc: Global, out: &mut Members) -> Result<()> {
        write_rows!(alloc, self, out => {
            description: put_optional("description"),
            content: put_implied("content"),
            required: put_implied("required"),
            ..extensions
        })
    }
}

impl Referable for RequestBody {
    ghost spares_ref = { request_body_spares };
}

/// Reads a request body or a reference to one.
///
/// # Errors
///
/// Returns a [`Fault`](openapi_node::Fault) with a rule that the value breaks and the location where it does. An
/// allocation failure has [`Cause::Memory`](openapi_node::Cause::Memory) and the empty location.
pub fn request_body_ref_from_node(
    alloc: Global,
    node: &Node,
    steps: &mut Steps,
) -> Result<ReferenceOr<RequestBody>>
    ensures reads { ReadAs (reference_form (record_form request_body_rows)) result (ref_to (by request_body)) node.now }
    ensures refuses { Refuses result (ref_to (by request_body)) node.now }
    ensures rises { steps.old + 1 ≤ steps.new }
    ensures count { steps.new ≤ steps.old + 3 * size_of node.now }
{
    ReferenceOr::from_node(alloc, node, steps)
}

/// Writes a request body or a reference to one.
///
/// # Errors
///
/// Returns a [`Fault`](openapi_node::Fault) with [`Cause::NameNotWritable`](openapi_node::Cause::NameNotWritable) at an
/// extension whose name does not begin with `x-`. An allocation failure has
/// [`Cause::Memory`](openapi_node::Cause::Memory) and the empty location.
pub fn request_body_ref_to_node(alloc: Global, value: &ReferenceOr<RequestBody>) -> Result<Node>
    ensures { WrittenAs (ref_to (by request_body)) (reference_form (record_form request_body_rows) value.now) result }
{
    value.to_node(alloc)
}
