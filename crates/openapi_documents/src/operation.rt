//! The Operation Object.
ghost use Rattle.std.proofs.Common.{refl};
ghost use Rattle.std.specs.Prelude.{◌≡◌, [], None, false};
ghost use Rattle.openapi_tables.specs.Kind.{by, operation};
ghost use Rattle.openapi_documents.specs.Fields.{operation_fields};
ghost use Rattle.openapi_documents.specs.OperationForms.{operation_form};

use crate::callback::Callback;
use crate::read::read_operation;
use crate::write::write_operation;
use openapi_fields::{FromNode, Object, ToNode};
use openapi_metadata::Server;
use openapi_node::{Node, OrderedMap, Result, Steps, View};
use openapi_parameters::Parameter;
use openapi_responses::{RequestBody, Responses};
use openapi_schema_types::ExternalDocumentation;
use openapi_security::SecurityRequirement;
use openapi_values::ReferenceOr;
use std::alloc::Global;

/// The Operation Object (OpenAPI 3.0.3, section 4.7.10): one operation of an API, under a path and an HTTP method.
#[cycle(operations)]
#[derive(Clone, Debug, PartialEq, Drop)]
pub struct Operation {
    /// The tags by which the operation is grouped.
    pub tags: Vec<String>,
    /// A short summary of the operation.
    pub summary: Option<String>,
    /// A description of the operation, in CommonMark.
    pub description: Option<String>,
    /// `operationId`: a name of the operation, unique in the API (not checked).
    pub operation_id: Option<String>,
    /// Whether the operation should no longer be used. False by default.
    pub deprecated: bool,
    /// External documentation of the operation.
    pub external_docs: Option<ExternalDocumentation>,
    /// The security requirements, of which a call has to meet one. They replace those of the document, and an empty
    /// list removes those.
    pub security: Option<Vec<SecurityRequirement>>,
    /// The servers of the operation, which replace those of the path item or the document.
    pub servers: Vec<Server>,
    /// Extensions: the members whose names begin with `x-`, in their order.
    pub extensions: OrderedMap<Node>,
    /// The parameters of the operation, or references to some. One replaces a parameter of the path item with the same
    /// name and location.
    pub parameters: Vec<ReferenceOr<Parameter>>,
    /// The callbacks of the operation, or references to some, by names.
    pub callbacks: OrderedMap<ReferenceOr<Callback>>,
    /// The possible responses. Required.
    pub responses: Responses,
    /// `requestBody`: the body of a request, or a reference to one.
    pub request_body: Option<ReferenceOr<RequestBody>>,
}

impl Operation {
    ghost use Rattle.openapi_documents.specs.declared.operation.Operation.{out-Operation};

    /// Creates an operation with no fields set and no responses.
    pub fn new(alloc: Global) -> Operation
        ensures tags { (out-Operation result).tags.items ≡ [] }
        ensures summary { (out-Operation result).summary ≡ None }
        ensures description { (out-Operation result).description ≡ None }
        ensures external_docs { (out-Operation result).external_docs ≡ None }
        ensures operation_id { (out-Operation result).operation_id ≡ None }
        ensures parameters { (out-Operation result).parameters.items ≡ [] }
        ensures request_body { (out-Operation result).request_body ≡ None }
        ensures default_response { (out-Operation result).responses.default ≡ None }
        ensures responses { (out-Operation result).responses.responses.entries ≡ [] }
        ensures response_extensions { (out-Operation result).responses.extensions ≡ [] }
        ensures callbacks { (out-Operation result).callbacks ≡ [] }
        ensures deprecated { (out-Operation result).deprecated ≡ false }
        ensures security { (out-Operation result).security ≡ None }
        ensures servers { (out-Operation result).servers.items ≡ [] }
        ensures extensions { (out-Operation result).extensions ≡ [] }
    {
        Operation {
            tags: Vec::new(alloc),
            summary: None,
            description: None,
            external_docs: None,
            operation_id: None,
            parameters: Vec::new(alloc),
            request_body: None,
            responses: Responses::new(alloc),
            callbacks: OrderedMap::new(alloc),
            deprecated: false,
            security: None,
            servers: Vec::new(alloc),
            extensions: OrderedMap::new(alloc),
        }
    }
}

impl Object for Operation {
    ghost table = { operation };

    ghost rows_of = { operation_fields };
}

impl FromNode for Operation {
    ghost kind = { by operation };

    ghost form_of = { operation_form };

    fn from_view(alloc: Global, view: &View<'_>, steps: &mut Steps) -> Result<Operation> {
        read_operation(alloc, view, steps)
    }

    ghost well_made = { refl };
}

impl ToNode for Operation {
    fn to_node(&self, alloc: Global) -> Result<Node> {
        write_operation(alloc, self)
    }

    ghost there = { λ x. refl };
}
