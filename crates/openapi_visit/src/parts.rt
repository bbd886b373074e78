//! What is inside each part.
use crate::part::Part;
use indexmap::IndexMap;
use openapi_documents::{Components, Operation, PathItem};
use openapi_map::OrderedMap;
use openapi_media_types::{Content, MediaType, ParameterSchemaOrContent};
use openapi_metadata::Example;
use openapi_node::ReferenceToken;
use openapi_schema::{AdditionalProperties, AnySchema, Schema, SchemaKind, Type};
use openapi_values::{ReferenceOr, StatusCode};
use std::alloc::{AllocError, Global};

/// The parts inside one part, each with its location, a JSON Pointer.
#[derive(Drop)]
pub(crate) struct Parts<P> {
    alloc: Global,
    pub location: String,
    pub found: Vec<(String, P)>,
    /// An error if an allocation failed. Nothing is added afterwards.
    pub result: Result<(), AllocError>,
}

/// These functions do not see what parts are, so that their proofs do not see all types of a document. A part is made of a
/// value, and of the text of a reference.
impl<P: Drop> Parts<P> {
    /// Creates an empty list of the parts of an object at a location.
    pub(crate) fn new(alloc: Global, location: String) -> Parts<P> {
        Parts {
            alloc,
            location,
            found: Vec::new(alloc),
            result: Ok(()),
        }
    }

    /// Adds a part at a path below the location, unless an allocation failed before.
    fn add(&mut self, path: &str, part: P) {
        if self.result.is_ok() {
            self.result = self.try_add(path, part);
        }
    }

    /// Adds a part at a path below the location.
    fn try_add(&mut self, path: &str, part: P) -> Result<(), AllocError> {
        let location = self.location.as_str();
        let location = format!(in self.alloc; "{location}/{path}")?;
        Ok(self.found.push((location, part))?)
    }

    /// Adds a part at a path, whose allocation may have failed.
    fn entry(&mut self, path: Result<String, AllocError>, part: P) {
        match path {
            Ok(path) => self.add(path.as_str(), part),
            Err(error) => self.result = Err(error),
        }
    }

    /// Adds the value of a map at a name. The path is what comes before the name.
    fn named(&mut self, path: &str, name: &str, part: P) {
        let path = format!(in self.alloc; "{path}{}", ReferenceToken(name));
        self.entry(path, part);
    }

    /// Adds the value of a list at an index. The path is what comes before the index.
    fn indexed(&mut self, path: &str, index: usize, part: P) {
        let path = format!(in self.alloc; "{path}{index}");
        self.entry(path, part);
    }

    /// Adds a value, or the reference in its place.
    fn one<'a, T>(&mut self, path: &str, value: &'a ReferenceOr<T>)
    where
        P: From<&'a T> + From<&'a str>,
    {
        self.add(path, part_of(value));
    }

    /// Adds the value of a field that has one, or the reference in its place.
    fn some<'a, T>(&mut self, path: &str, value: &'a Option<ReferenceOr<T>>)
    where
        P: From<&'a T> + From<&'a str>,
    {
        if let Some(value) = value {
            self.one(path, value);
        }
    }

    /// Adds each value of a map, or the reference in its place. The path is what comes before the names.
    fn map<'a, T>(&mut self, path: &str, values: &'a OrderedMap<ReferenceOr<T>>)
    where
        P: From<&'a T> + From<&'a str>,
    {
        for (name, value) in values.iter() {
            self.named(path, name, part_of(value));
        }
    }

    /// Adds each value of a list, or the reference in its place.
    fn list<'a, T>(&mut self, path: &str, values: &'a Vec<ReferenceOr<T>>)
    where
        P: From<&'a T> + From<&'a str>,
    {
        for (index, value) in values.iter().enumerate() {
            self.indexed(path, index, part_of(value));
        }
    }

    /// Adds each value of a map by status codes, or the reference in its place.
    fn codes<'a, T>(&mut self, path: &str, values: &'a IndexMap<StatusCode, ReferenceOr<T>>)
    where
        P: From<&'a T> + From<&'a str>,
    {
        for (code, value) in values.iter() {
            let path = format!(in self.alloc; "{path}{code}");
            self.entry(path, part_of(value));
        }
    }

    /// Adds the value of a field that has one and takes no reference.
    fn some_item<'a, T>(&mut self, path: &str, value: &'a Option<T>)
    where
        P: From<&'a T>,
    {
        if let Some(value) = value {
            self.add(path, P::from(value));
        }
    }

    /// Adds each value of a map that takes no references. The path is what comes before the names.
    fn items<'a, T>(&mut self, path: &str, values: &'a OrderedMap<T>)
    where
        P: From<&'a T>,
    {
        for (name, value) in values.iter() {
            self.named(path, name, P::from(value));
        }
    }
}

/// Returns the part of a value, or of the reference in its place.
fn part_of<'a, T, P: From<&'a T> + From<&'a str>>(value: &'a ReferenceOr<T>) -> P {
    match value {
        ReferenceOr::Reference { reference } => P::from(reference.as_str()),
        ReferenceOr::Item(item) => P::from(item),
    }
}

impl<'a> Parts<Part<'a>> {
    /// Adds the components of a document.
    fn components(&mut self, it: &'a Components) {
        self.map("schemas/", &it.schemas);
        self.map("responses/", &it.responses);
        self.map("parameters/", &it.parameters);
        self.map("examples/", &it.examples);
        self.map("requestBodies/", &it.request_bodies);
        self.map("headers/", &it.headers);
        self.map("securitySchemes/", &it.security_schemes);
        self.map("links/", &it.links);
        self.map("callbacks/", &it.callbacks);
    }

    /// Adds the parameters and the operations of a path item.
    fn path_item(&mut self, it: &'a PathItem) {
        self.list("parameters/", &it.parameters);
        self.some_item("get", &it.get);
        self.some_item("put", &it.put);
        self.some_item("post", &it.post);
        self.some_item("delete", &it.delete);
        self.some_item("options", &it.options);
        self.some_item("head", &it.head);
        self.some_item("patch", &it.patch);
        self.some_item("trace", &it.trace);
    }

    /// Adds the parts of an operation.
    fn operation_fields(&mut self, it: &'a Operation) {
        self.list("parameters/", &it.parameters);
        self.some("requestBody", &it.request_body);
        self.some("responses/default", &it.responses.default);
        self.codes("responses/", &it.responses.responses);
        self.map("callbacks/", &it.callbacks);
    }

    /// Adds the media types of a body, a parameter or a header.
    fn content(&mut self, it: &'a Content) {
        self.items("content/", it);
    }

    /// Adds the parts of a media type.
    fn media_type(&mut self, it: &'a MediaType) {
        self.some("schema", &it.schema);
        self.map("examples/", &it.examples);
        self.items("encoding/", &it.encoding);
    }

    /// Adds the parts of a parameter or a header.
    fn described(
        &mut self,
        format: &'a ParameterSchemaOrContent,
        examples: &'a OrderedMap<ReferenceOr<Example>>,
    ) {
        match format {
            ParameterSchemaOrContent::Schema(it) => self.one("schema", it),
            ParameterSchemaOrContent::Content(it) => self.content(it),
        }
        self.map("examples/", examples);
    }

    /// Adds the schemas of the properties of an object.
    fn properties(
        &mut self,
        properties: &'a OrderedMap<ReferenceOr<Box<Schema>>>,
        additional: &'a Option<AdditionalProperties>,
    ) {
        self.map("properties/", properties);
        if let Some(AdditionalProperties::Schema(it)) = additional {
            self.one("additionalProperties", it);
        }
    }

    /// Adds the schemas inside a schema.
    fn schema(&mut self, it: &'a Schema) {
        match &it.schema_kind {
            SchemaKind::Typed(Type::Object(it)) => {
                self.properties(&it.properties, &it.additional_properties)
            }
            SchemaKind::Typed(Type::Array(it)) => self.some("items", &it.items),
            SchemaKind::Typed(_) => {}
            SchemaKind::OneOf { one_of } => self.list("oneOf/", one_of),
            SchemaKind::AllOf { all_of } => self.list("allOf/", all_of),
            SchemaKind::AnyOf { any_of } => self.list("anyOf/", any_of),
            SchemaKind::Not { not } => self.one("not", not),
            SchemaKind::Any(it) => self.any_schema(it),
        }
    }

    /// Adds the schemas inside a schema of no kind.
    fn any_schema(&mut self, it: &'a AnySchema) {
        self.properties(&it.properties, &it.additional_properties);
        self.some("items", &it.items);
        self.list("oneOf/", &it.one_of);
        self.list("allOf/", &it.all_of);
        self.list("anyOf/", &it.any_of);
        if let Some(it) = &it.not {
            self.one("not", it);
        }
    }

    /// Adds the parts of a part, in the order of its fields.
    pub(crate) fn inside(&mut self, part: Part<'a>) {
        match part {
            Part::Document(it) => {
                self.map("paths/", &it.paths.paths);
                self.some_item("components", &it.components);
            }
            Part::Components(it) => self.components(it),
            Part::PathItem(it) => self.path_item(it),
            Part::Operation(it) => self.operation_fields(it),
            Part::Parameter(it) => {
                let it = it.parameter_data_ref();
                self.described(&it.format, &it.examples)
            }
            Part::RequestBody(it) => self.content(&it.content),
            Part::Response(it) => {
                self.map("headers/", &it.headers);
                self.content(&it.content);
                self.map("links/", &it.links);
            }
            Part::Header(it) => self.described(&it.format, &it.examples),
            Part::MediaType(it) => self.media_type(it),
            Part::Encoding(it) => self.map("headers/", &it.headers),
            Part::Callback(it) => self.items("", &it.paths),
            Part::Schema(it) => self.schema(it),
            Part::Example(_) | Part::Link(_) | Part::SecurityScheme(_) | Part::Reference(_) => {}
        }
    }
}
