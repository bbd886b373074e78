//! The Media Type Object, and contents by their media types.
ghost use Rattle.std.proofs.Common.{refl};
ghost use Rattle.std.specs.Prelude.{◌≡◌, ◌+◌, ◌≤◌, ◌*◌, [], None};
ghost use Rattle.openapi_node.specs.Tree.{size_of};
ghost use Rattle.openapi_tables.specs.Kind.{by, media_type};
ghost use Rattle.openapi_tables.specs.Tables.{content};
ghost use Rattle.openapi_fields.specs.Forms.{map_form};
ghost use Rattle.openapi_fields.specs.Returned.{ReadAs, Refuses, WrittenAs};
ghost use Rattle.openapi_media_types.specs.ContentForms.{media_type_form};
ghost use Rattle.openapi_media_types.specs.Fields.{media_type_fields};

use crate::encoding::Encoding;
use crate::read::read_media_type;
use crate::write::write_media_type;
use openapi_fields::{FromNode, Object, ToNode};
use openapi_metadata::Example;
use openapi_node::{Node, OrderedMap, Result, Steps, View};
use openapi_schema::Schema;
use openapi_values::ReferenceOr;
use std::alloc::Global;

/// The content of a parameter, a header, a body or a response: Media Type Objects by media types or media type ranges.
pub type Content = OrderedMap<MediaType>;

/// The Media Type Object (OpenAPI 3.0.3, section 4.7.14): the content for one media type.
#[cycle(contents)]
#[derive(Clone, Debug, PartialEq, Drop)]
pub struct MediaType {
    /// An example of the content. Mutually exclusive with `examples` (not checked).
    pub example: Option<Node>,
    /// Examples of the content, or references to some, by names. Mutually exclusive with `example` (not checked).
    pub examples: OrderedMap<ReferenceOr<Example>>,
    /// How the properties of the schema are encoded, by the names of the properties.
    pub encoding: OrderedMap<Encoding>,
    /// Extensions: the members whose names begin with `x-`, in their order.
    pub extensions: OrderedMap<Node>,
    /// The schema of the content, or a reference to one.
    pub schema: Option<ReferenceOr<Schema>>,
}

impl MediaType {
    ghost use Rattle.openapi_media_types.specs.declared.media_type.MediaType.{out-MediaType};

    /// Creates an empty `MediaType`; every field is `None` or empty.
    pub fn new(alloc: Global) -> MediaType
        ensures schema { (out-MediaType result).schema ≡ None }
        ensures example { (out-MediaType result).example ≡ None }
        ensures examples { (out-MediaType result).examples ≡ [] }
        ensures encoding { (out-MediaType result).encoding ≡ [] }
        ensures extensions { (out-MediaType result).extensions ≡ [] }
    {
        MediaType {
            schema: None,
            example: None,
            examples: OrderedMap::new(alloc),
            encoding: OrderedMap::new(alloc),
            extensions: OrderedMap::new(alloc),
        }
    }
}

impl Object for MediaType {
    ghost table = { media_type };

    ghost rows_of = { media_type_fields };
}

impl FromNode for MediaType {
    ghost kind = { by media_type };

    ghost form_of = { media_type_form };

    fn from_view(alloc: Global, view: &View<'_>, steps: &mut Steps) -> Result<MediaType> {
        read_media_type(alloc, view, steps)
    }

    ghost well_made = { refl };
}

impl ToNode for MediaType {
    fn to_node(&self, alloc: Global) -> Result<Node> {
        write_media_type(alloc, self)
    }

    ghost there = { λ x. refl };
}

/// Reads a content: an object whose members are all Media Type Objects.
///
/// # Errors
///
/// Returns a [`Fault`](openapi_node::Fault) with a rule that the value breaks and the location where it does. An
/// allocation failure has [`Cause::Memory`](openapi_node::Cause::Memory) and the empty location.
pub fn content_from_node(alloc: Global, node: &Node, steps: &mut Steps) -> Result<Content>
    ensures reads { ReadAs (map_form media_type_form) result content node.now }
    ensures refuses { Refuses result content node.now }
    ensures rises { steps.old + 1 ≤ steps.new }
    ensures count { steps.new ≤ steps.old + 3 * size_of node.now }
{
    Content::from_node(alloc, node, steps)
}

/// Writes a content.
///
/// # Errors
///
/// Returns a [`Fault`](openapi_node::Fault) with [`Cause::NameNotWritable`](openapi_node::Cause::NameNotWritable) at an
/// extension whose name does not begin with `x-`. An allocation failure has
/// [`Cause::Memory`](openapi_node::Cause::Memory) and the empty location.
pub fn content_to_node(alloc: Global, value: &Content) -> Result<Node>
    ensures { WrittenAs content (map_form media_type_form value.now) result }
{
    value.to_node(alloc)
}
