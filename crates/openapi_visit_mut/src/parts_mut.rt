//! What is inside each part, borrowed mutably.
use crate::part_mut::{AsPartMut, PartMut};
use indexmap::IndexMap;
use openapi_documents::{Components, OpenAPI, Operation, PathItem, Paths};
use openapi_map::OrderedMap;
use openapi_media_types::{Header, MediaType, ParameterSchemaOrContent};
use openapi_node::ReferenceToken;
use openapi_parameters::{Parameter, ParameterData};
use openapi_responses::{Response, Responses};
use openapi_schema::{AdditionalProperties, AnySchema, ObjectType, Schema, SchemaKind, Type};
use openapi_values::{ReferenceOr, StatusCode};
use std::alloc::{AllocError, Global};

/// The parts inside one part, each with its location, a JSON Pointer.
#[derive(Drop)]
pub(crate) struct PartsMut<'a> {
    alloc: Global,
    pub location: String,
    pub found: Vec<(String, PartMut<'a>)>,
    /// An error if an allocation failed. Nothing is added afterwards.
    pub result: Result<(), AllocError>,
}

impl<'a> PartsMut<'a> {
    /// Creates an empty list of the parts of an object at a location.
    pub(crate) fn new(alloc: Global, location: String) -> PartsMut<'a> {
        PartsMut {
            alloc,
            location,
            found: Vec::new(alloc),
            result: Ok(()),
        }
    }

    /// Adds a part at a path below the location, unless an allocation failed before.
    fn add(&mut self, path: &str, part: PartMut<'a>) {
        if self.result.is_ok() {
            self.result = self.try_add(path, part);
        }
    }

    /// Adds a part at a path below the location.
    fn try_add(&mut self, path: &str, part: PartMut<'a>) -> Result<(), AllocError> {
        let location = self.location.as_str();
        let location = format!(in self.alloc; "{location}/{path}")?;
        Ok(self.found.push((location, part))?)
    }

    /// Adds a value.
    fn one<T: AsPartMut>(&mut self, path: &str, value: &'a mut T) {
        self.add(path, value.as_part_mut());
    }

    /// Adds the value of a field that has one.
    fn some<T: AsPartMut>(&mut self, path: &str, value: &'a mut Option<T>) {
        if let Some(value) = value {
            self.one(path, value);
        }
    }

    /// Adds a value at a path, whose allocation may have failed.
    fn entry<T: AsPartMut>(&mut self, path: Result<String, AllocError>, value: &'a mut T) {
        match path {
            Ok(path) => self.one(path.as_str(), value),
            Err(error) => self.result = Err(error),
        }
    }

    /// Adds each value of a map. The path is what comes before the names.
    fn map<T: AsPartMut>(&mut self, path: &str, values: &'a mut OrderedMap<T>) {
        for (name, value) in values.iter_mut() {
            self.entry(
                format!(in self.alloc; "{path}{}", ReferenceToken(name)),
                value,
            );
        }
    }

    /// Adds each response of a status code.
    fn codes(&mut self, path: &str, values: &'a mut IndexMap<StatusCode, ReferenceOr<Response>>) {
        for (code, value) in values.iter_mut() {
            self.entry(format!(in self.alloc; "{path}{code}"), value);
        }
    }

    /// Adds each value of a list.
    fn list<T: AsPartMut>(&mut self, path: &str, values: &'a mut [T]) {
        let mut index: usize = 0;
        for value in values.iter_mut() {
            self.entry(format!(in self.alloc; "{path}{index}"), value);
            index += 1;
        }
    }

    fn document(&mut self, it: &'a mut OpenAPI) {
        self.paths(&mut it.paths);
        self.some("components", &mut it.components);
    }

    fn paths(&mut self, it: &'a mut Paths) {
        self.map("paths/", &mut it.paths)
    }

    fn components(&mut self, it: &'a mut Components) {
        self.map("schemas/", &mut it.schemas);
        self.map("responses/", &mut it.responses);
        self.map("parameters/", &mut it.parameters);
        self.map("examples/", &mut it.examples);
        self.map("requestBodies/", &mut it.request_bodies);
        self.map("headers/", &mut it.headers);
        self.map("securitySchemes/", &mut it.security_schemes);
        self.map("links/", &mut it.links);
        self.map("callbacks/", &mut it.callbacks);
    }

    fn path_item(&mut self, it: &'a mut PathItem) {
        self.list("parameters/", &mut it.parameters);
        self.some("get", &mut it.get);
        self.some("put", &mut it.put);
        self.some("post", &mut it.post);
        self.some("delete", &mut it.delete);
        self.some("options", &mut it.options);
        self.some("head", &mut it.head);
        self.some("patch", &mut it.patch);
        self.some("trace", &mut it.trace);
    }

    fn operation_fields(&mut self, it: &'a mut Operation) {
        self.list("parameters/", &mut it.parameters);
        self.some("requestBody", &mut it.request_body);
        self.responses(&mut it.responses);
        self.map("callbacks/", &mut it.callbacks);
    }

    fn responses(&mut self, it: &'a mut Responses) {
        self.some("responses/default", &mut it.default);
        self.codes("responses/", &mut it.responses);
    }

    fn parameter(&mut self, it: &'a mut Parameter) {
        match it {
            Parameter::Query { parameter_data, .. }
            | Parameter::Header { parameter_data, .. }
            | Parameter::Path { parameter_data, .. }
            | Parameter::Cookie { parameter_data, .. } => self.parameter_data(parameter_data),
        }
    }

    fn parameter_data(&mut self, it: &'a mut ParameterData) {
        match &mut it.format {
            ParameterSchemaOrContent::Schema(it) => self.one("schema", it),
            ParameterSchemaOrContent::Content(it) => self.map("content/", it),
        }
        self.map("examples/", &mut it.examples);
    }

    fn header(&mut self, it: &'a mut Header) {
        match &mut it.format {
            ParameterSchemaOrContent::Schema(it) => self.one("schema", it),
            ParameterSchemaOrContent::Content(it) => self.map("content/", it),
        }
        self.map("examples/", &mut it.examples);
    }

    fn response(&mut self, it: &'a mut Response) {
        self.map("headers/", &mut it.headers);
        self.map("content/", &mut it.content);
        self.map("links/", &mut it.links);
    }

    fn media_type(&mut self, it: &'a mut MediaType) {
        self.some("schema", &mut it.schema);
        self.map("examples/", &mut it.examples);
        self.map("encoding/", &mut it.encoding);
    }

    fn object_type(&mut self, it: &'a mut ObjectType) {
        self.map("properties/", &mut it.properties);
        if let Some(AdditionalProperties::Schema(it)) = &mut it.additional_properties {
            self.one("additionalProperties", it);
        }
    }

    fn any_schema(&mut self, it: &'a mut AnySchema) {
        self.map("properties/", &mut it.properties);
        if let Some(AdditionalProperties::Schema(it)) = &mut it.additional_properties {
            self.one("additionalProperties", it);
        }
        self.some("items", &mut it.items);
        self.list("oneOf/", &mut it.one_of);
        self.list("allOf/", &mut it.all_of);
        self.list("anyOf/", &mut it.any_of);
        self.some("not", &mut it.not);
    }

    fn schema(&mut self, it: &'a mut Schema) {
        match &mut it.schema_kind {
            SchemaKind::Typed(Type::Object(it)) => self.object_type(it),
            SchemaKind::Typed(Type::Array(it)) => self.some("items", &mut it.items),
            SchemaKind::Typed(_) => {}
            SchemaKind::OneOf { one_of } => self.list("oneOf/", one_of),
            SchemaKind::AllOf { all_of } => self.list("allOf/", all_of),
            SchemaKind::AnyOf { any_of } => self.list("anyOf/", any_of),
            SchemaKind::Not { not } => self.one("not", not),
            SchemaKind::Any(it) => self.any_schema(it),
        }
    }

    /// Adds the parts of a part, in the order of its fields.
    pub(crate) fn inside(&mut self, part: PartMut<'a>) {
        match part {
            PartMut::Document(it) => self.document(it),
            PartMut::Components(it) => self.components(it),
            PartMut::PathItem(it) => self.path_item(it),
            PartMut::Operation(it) => self.operation_fields(it),
            PartMut::Parameter(it) => self.parameter(it),
            PartMut::RequestBody(it) => self.map("content/", &mut it.content),
            PartMut::Response(it) => self.response(it),
            PartMut::Header(it) => self.header(it),
            PartMut::MediaType(it) => self.media_type(it),
            PartMut::Encoding(it) => self.map("headers/", &mut it.headers),
            PartMut::Callback(it) => self.map("", &mut it.paths),
            PartMut::Schema(it) => self.schema(it),
            PartMut::Example(_)
            | PartMut::Link(_)
            | PartMut::SecurityScheme(_)
            | PartMut::Reference(_) => {}
        }
    }
}
