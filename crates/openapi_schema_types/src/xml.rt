#![tactic(auto, unfolding(openapi_tables::specs::Tables::final_tables, openapi_tables::specs::Tables::tables_with))]
//! The XML Object.
ghost use Rattle.std.specs.Prelude.{◌≡◌, false, [], None};
ghost use Rattle.openapi_tables.specs.Kind.{xml_object};
ghost use Rattle.openapi_schema_types.specs.Annotations.{xml_rows};

use openapi_fields::{Object, Record, read_rows, write_rows};
use openapi_node::{Members, Node, OrderedMap, Result, Steps};
use std::alloc::Global;

/// The XML Object (OpenAPI 3.0.3, section 4.7.26): how a property is represented in XML.
#[derive(Clone, Debug, PartialEq, Drop)]
pub struct Xml {
    /// The name of the element or attribute that the property is written as, instead of the property's own name.
    pub name: Option<String>,
    /// The URI of the namespace, in absolute form.
    pub namespace: Option<String>,
    /// The prefix of the name.
    pub prefix: Option<String>,
    /// Whether the property is written as an attribute and not as an element. False by default.
    pub attribute: bool,
    /// Whether the elements of an array are inside a wrapping element. False by default; it has an effect only for
    /// arrays.
    pub wrapped: bool,
    /// Extensions: the members whose names begin with `x-`, in their order.
    pub extensions: OrderedMap<Node>,
}

impl Xml {
    /// Creates an empty `Xml`; every flag is false, and every other field is `None` or empty.
    pub fn new(alloc: Global) -> Xml
        ensures name { result.name ≡ None }
        ensures namespace { result.namespace ≡ None }
        ensures prefix { result.prefix ≡ None }
        ensures attribute { result.attribute ≡ false }
        ensures wrapped { result.wrapped ≡ false }
        ensures extensions { result.extensions ≡ [] }
    {
        Xml {
            name: None,
            namespace: None,
            prefix: None,
            attribute: false,
            wrapped: false,
            extensions: OrderedMap::new(alloc),
        }
    }
}

impl Object for Xml {
    ghost table = { xml_object };

    ghost rows_of = { xml_rows };
}

impl Record for Xml {
    fn from_members(alloc: Global, members: &Members, steps: &mut Steps) -> Result<Self> {
        read_rows!(alloc, members, steps, Self => Xml {
            name: optional("name"),
            namespace: optional("namespace"),
            prefix: optional("prefix"),
            attribute: or_implied("attribute"),
            wrapped: or_implied("wrapped"),
            ..extensions
        })
    }

    fn put_rows(&self, alloc: Global, out: &mut Members) -> Result<()> {
        write_rows!(alloc, self, out => {
            name: put_optional("name"),
            namespace: put_optional("namespace"),
            prefix: put_optional("prefix"),
            attribute: put_implied("attribute"),
            wrapped: put_implied("wrapped"),
            ..extensions
        })
    }
}
