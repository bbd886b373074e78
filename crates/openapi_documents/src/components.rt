#![tactic(auto, unfolding(openapi_tables::specs::Tables::final_tables, openapi_tables::specs::Tables::tables_with))]
//! The Components Object.
ghost use Rattle.std.specs.Prelude.{◌≡◌, []};
ghost use Rattle.openapi_tables.specs.Kind as kinds;
ghost use Rattle.openapi_documents.specs.Documents.{components_rows};

use crate::callback::Callback;
use openapi_fields::{Object, Record, extensions, from_joined, or_implied, write_rows};
use openapi_media_types::Header;
use openapi_metadata::{Example, Link};
use openapi_node::{Members, Node, OrderedMap, Result, Steps};
use openapi_parameters::Parameter;
use openapi_responses::{RequestBody, Response};
use openapi_schema::Schema;
use openapi_security::SecurityScheme;
use openapi_values::ReferenceOr;
use std::alloc::Global;

/// The Components Object (OpenAPI 3.0.3, section 4.7.7): reusable objects or references to some, by names. They have no
/// effect unless something refers to them. The names are not checked.
#[derive(Clone, Debug, PartialEq, Drop)]
pub struct Components {
    /// Schemas.
    pub schemas: OrderedMap<ReferenceOr<Schema>>,
    /// Responses.
    pub responses: OrderedMap<ReferenceOr<Response>>,
    /// Parameters.
    pub parameters: OrderedMap<ReferenceOr<Parameter>>,
    /// Examples.
    pub examples: OrderedMap<ReferenceOr<Example>>,
    /// Request bodies.
    pub request_bodies: OrderedMap<ReferenceOr<RequestBody>>,
    /// Headers.
    pub headers: OrderedMap<ReferenceOr<Header>>,
    /// Security schemes, by the names that security requirements use.
    pub security_schemes: OrderedMap<ReferenceOr<SecurityScheme>>,
    /// Links.
    pub links: OrderedMap<ReferenceOr<Link>>,
    /// Callbacks.
    pub callbacks: OrderedMap<ReferenceOr<Callback>>,
    /// Extensions: the members whose names begin with `x-`, in their order.
    pub extensions: OrderedMap<Node>,
}

impl Components {
    /// Creates an empty `Components`; every map is empty.
    pub fn new(alloc: Global) -> Components
        ensures schemas { result.schemas ≡ [] }
        ensures responses { result.responses ≡ [] }
        ensures parameters { result.parameters ≡ [] }
        ensures examples { result.examples ≡ [] }
        ensures request_bodies { result.request_bodies ≡ [] }
        ensures headers { result.headers ≡ [] }
        ensures security_schemes { result.security_schemes ≡ [] }
        ensures links { result.links ≡ [] }
        ensures callbacks { result.callbacks ≡ [] }
        ensures extensions { result.extensions ≡ [] }
    {
        Components {
            schemas: OrderedMap::new(alloc),
            responses: OrderedMap::new(alloc),
            parameters: OrderedMap::new(alloc),
            examples: OrderedMap::new(alloc),
            request_bodies: OrderedMap::new(alloc),
            headers: OrderedMap::new(alloc),
            security_schemes: OrderedMap::new(alloc),
            links: OrderedMap::new(alloc),
            callbacks: OrderedMap::new(alloc),
            extensions: OrderedMap::new(alloc),
        }
    }
}

impl Object for Components {
    ghost table = { kinds.components };

    ghost rows_of = { components_rows };
}

impl Record for Components {
    fn from_members(alloc: Global, members: &Members, steps: &mut Steps) -> Result<Self> {
        from_joined!(Components {
            schemas: or_implied::<Self, _>(alloc, members, "schemas", steps),
            responses: or_implied::<Self, _>(alloc, members, "responses", steps),
            parameters: or_implied::<Self, _>(alloc, members, "parameters", steps),
            examples: or_implied::<Self, _>(alloc, members, "examples", steps),
            request_bodies: or_implied::<Self, _>(alloc, members, "requestBodies", steps),
            headers: or_implied::<Self, _>(alloc, members, "headers", steps),
            security_schemes: or_implied::<Self, _>(alloc, members, "securitySchemes", steps),
            links: or_implied::<Self, _>(alloc, members, "links", steps),
            callbacks: or_implied::<Self, _>(alloc, members, "callbacks", steps),
            extensions: extensions::<Self>(alloc, members, steps),
        })
    }

    fn put_rows(&self, alloc: Global, out: &mut Members) -> Result<()> {
        write_rows!(alloc, self, out => {
            schemas: put_implied("schemas"),
            responses: put_implied("responses"),
            parameters: put_implied("parameters"),
            examples: put_implied("examples"),
            request_bodies: put_implied("requestBodies"),
            headers: put_implied("headers"),
            security_schemes: put_implied("securitySchemes"),
            links: put_implied("links"),
            callbacks: put_implied("callbacks"),
            ..extensions
        })
    }
}
