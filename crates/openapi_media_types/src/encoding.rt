//! The Encoding Object.
ghost use Rattle.std.proofs.Common.{refl};
ghost use Rattle.std.specs.Prelude.{◌≡◌, [], None, false};
ghost use Rattle.openapi_tables.specs.Kind.{by, encoding};
ghost use Rattle.openapi_media_types.specs.ContentForms.{encoding_form};
ghost use Rattle.openapi_media_types.specs.Fields.{encoding_fields};

use crate::header::Header;
use crate::read::read_encoding;
use crate::write::write_encoding;
use openapi_fields::{FromNode, Object, ToNode};
use openapi_node::{Node, OrderedMap, Result, Steps, View};
use openapi_values::{QueryStyle, ReferenceOr};
use std::alloc::Global;

/// The Encoding Object (OpenAPI 3.0.3, section 4.7.15): how one property of a body is encoded.
#[cycle(contents)]
#[derive(Clone, Debug, PartialEq, Drop)]
pub struct Encoding {
    /// The media type of the property, a media type range, or a list of both. `None` is written as `null`.
    pub content_type: Option<String>,
    /// Headers with more information about the property, or references to some, by names.
    pub headers: OrderedMap<ReferenceOr<Header>>,
    /// How the value of the property is serialized, as for a query parameter.
    pub style: Option<QueryStyle>,
    /// Whether each item or member of the value is a parameter of its own. False by default here, as in the Rust crate,
    /// although OpenAPI has true by default for `form`.
    pub explode: bool,
    /// Whether the value may contain reserved characters of RFC 3986 without escapes. False by default.
    pub allow_reserved: bool,
    /// Extensions: the members whose names begin with `x-`, in their order.
    pub extensions: OrderedMap<Node>,
}

impl Encoding {
    ghost use Rattle.openapi_media_types.specs.declared.encoding.Encoding.{out-Encoding};

    /// Creates an encoding with both flags false; every other field is `None` or empty.
    pub fn new(alloc: Global) -> Encoding
        ensures content_type { (out-Encoding result).content_type ≡ None }
        ensures headers { (out-Encoding result).headers ≡ [] }
        ensures style { (out-Encoding result).style ≡ None }
        ensures explode { (out-Encoding result).explode ≡ false }
        ensures allow_reserved { (out-Encoding result).allow_reserved ≡ false }
        ensures extensions { (out-Encoding result).extensions ≡ [] }
    {
        Encoding {
            content_type: None,
            headers: OrderedMap::new(alloc),
            style: None,
            explode: false,
            allow_reserved: false,
            extensions: OrderedMap::new(alloc),
        }
    }
}

impl Object for Encoding {
    ghost table = { encoding };

    ghost rows_of = { encoding_fields };
}

impl FromNode for Encoding {
    ghost kind = { by encoding };

    ghost form_of = { encoding_form };

    fn from_view(alloc: Global, view: &View<'_>, steps: &mut Steps) -> Result<Encoding> {
        read_encoding(alloc, view, steps)
    }

    ghost well_made = { refl };
}

impl ToNode for Encoding {
    fn to_node(&self, alloc: Global) -> Result<Node> {
        write_encoding(alloc, self)
    }

    ghost there = { λ x. refl };
}
