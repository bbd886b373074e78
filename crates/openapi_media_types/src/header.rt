//! The Header Object.
ghost use Rattle.std.proofs.Common.{refl};
ghost use Rattle.std.specs.Prelude.{◌≡◌, ◌+◌, ◌≤◌, ◌*◌, [], None, false};
ghost use Rattle.openapi_node.specs.Tree.{size_of};
ghost use Rattle.openapi_tables.specs.Kind.{by, header, ref_to};
ghost use Rattle.openapi_values.specs.Reference.{reference_form};
ghost use Rattle.openapi_fields.specs.Returned.{ReadAs, Refuses, WrittenAs};
ghost use Rattle.openapi_fields.proofs.Spared.{header_spares};
ghost use Rattle.openapi_media_types.specs.ContentForms.{header_form};
ghost use Rattle.openapi_media_types.specs.Fields.{header_fields};

use crate::format::ParameterSchemaOrContent;
use crate::read::read_header;
use crate::write::write_header;
use openapi_fields::{FromNode, Object, Referable, ToNode};
use openapi_metadata::Example;
use openapi_node::{Node, OrderedMap, Result, Steps, View};
use openapi_values::{HeaderStyle, ReferenceOr};
use std::alloc::Global;

/// The Header Object (OpenAPI 3.0.3, section 4.7.21): a header of a response or of a part of a body. It is like a
/// header parameter without a name: its name is the key in a map.
#[cycle(contents)]
#[derive(Clone, Debug, PartialEq, Drop)]
pub struct Header {
    /// A description of the header, in CommonMark.
    pub description: Option<String>,
    /// How the value is serialized. `simple` by default; the default is written too.
    pub style: HeaderStyle,
    /// Whether the header is required. False by default.
    pub required: bool,
    /// Whether the header should no longer be used.
    pub deprecated: Option<bool>,
    /// An example of the value. Mutually exclusive with `examples` (not checked).
    pub example: Option<Node>,
    /// The description of the value: `schema` or `content`. Required here, as in the Rust crate.
    pub format: ParameterSchemaOrContent,
    /// Examples of the value, or references to some, by names. Mutually exclusive with `example` (not checked).
    pub examples: OrderedMap<ReferenceOr<Example>>,
    /// Extensions: the members whose names begin with `x-`, in their order.
    pub extensions: OrderedMap<Node>,
}

impl Header {
    ghost use Rattle.openapi_media_types.specs.declared.header.Header.{out-Header};
    ghost use Rattle.openapi_values.specs.declared.parameter.HeaderStyle.TheVariants.{Simple};

    /// Creates a header that is not required, with a schema or a content and the default style. Every other field is
    /// `None` or empty.
    pub fn new(alloc: Global, format: ParameterSchemaOrContent) -> Header
        ensures description { (out-Header result).description ≡ None }
        ensures style { (out-Header result).style ≡ Simple }
        ensures required { (out-Header result).required ≡ false }
        ensures deprecated { (out-Header result).deprecated ≡ None }
        ensures example { (out-Header result).example ≡ None }
        ensures format { (out-Header result).format ≡ format }
        ensures examples { (out-Header result).examples ≡ [] }
        ensures extensions { (out-Header result).extensions ≡ [] }
    {
        Header {
            description: None,
            style: HeaderStyle::Simple,
            required: false,
            deprecated: None,
            example: None,
            format,
            examples: OrderedMap::new(alloc),
            extensions: OrderedMap::new(alloc),
        }
    }
}

impl Object for Header {
    ghost table = { header };

    ghost rows_of = { header_fields };
}

impl FromNode for Header {
    ghost kind = { by header };

    ghost form_of = { header_form };

    fn from_view(alloc: Global, view: &View<'_>, steps: &mut Steps) -> Result<Header> {
        read_header(alloc, view, steps)
    }

    ghost well_made = { refl };
}

impl ToNode for Header {
    fn to_node(&self, alloc: Global) -> Result<Node> {
        write_header(alloc, self)
    }

    ghost there = { λ x. refl };
}

impl Referable for Header {
    ghost spares_ref = { header_spares };
}

/// Reads a header or a reference to one.
///
/// # Errors
///
/// Returns a [`Fault`](openapi_node::Fault) with a rule that the value breaks and the location where it does. An
/// allocation failure has [`Cause::Memory`](openapi_node::Cause::Memory) and the empty location.
pub fn header_ref_from_node(
    alloc: Global,
    node: &Node,
    steps: &mut Steps,
) -> Result<ReferenceOr<Header>>
    ensures reads { ReadAs (reference_form header_form) result (ref_to (by header)) node.now }
    ensures refuses { Refuses result (ref_to (by header)) node.now }
    ensures rises { steps.old + 1 ≤ steps.new }
    ensures count { steps.new ≤ steps.old + 3 * size_of node.now }
{
    ReferenceOr::from_node(alloc, node, steps)
}

/// Writes a header or a reference to one.
///
/// # Errors
///
/// Returns a [`Fault`](openapi_node::Fault) with [`Cause::NameNotWritable`](openapi_node::Cause::NameNotWritable) at an
/// extension whose name does not begin with `x-`. An allocation failure has
/// [`Cause::Memory`](openapi_node::Cause::Memory) and the empty location.
pub fn header_ref_to_node(alloc: Global, value: &ReferenceOr<Header>) -> Result<Node>
    ensures { WrittenAs (ref_to (by header)) (reference_form header_form value.now) result }
{
    value.to_node(alloc)
}
