//! Objects with an extension of their own, whose name each writer checks: one without the prefix `x-` would not be read as
//! an extension again, and is not written.

use crate::built::{check_built, extension, schema_of};
use openapiv3::{
    Callback, Components, Content, Encoding, ExternalDocumentation, Header, HeaderStyle, MediaType,
    Node, Operation, OrderedMap, Parameter, ParameterData, ParameterSchemaOrContent, PathItem,
    PathStyle, Paths, Response, Responses, Schema, ToNode, Xml,
};
use std::alloc::Global;
use std::test::Fail;

/// An object that can have extensions.
pub(crate) trait Extended {
    /// Returns an object that is empty except for these extensions.
    fn extended(alloc: Global, extensions: OrderedMap<Node>) -> Self;
}

impl Extended for ExternalDocumentation {
    fn extended(alloc: Global, extensions: OrderedMap<Node>) -> ExternalDocumentation {
        let mut docs = ExternalDocumentation::new(alloc);
        docs.extensions = extensions;
        docs
    }
}

impl Extended for Xml {
    fn extended(alloc: Global, extensions: OrderedMap<Node>) -> Xml {
        let mut xml = Xml::new(alloc);
        xml.extensions = extensions;
        xml
    }
}

impl Extended for Schema {
    fn extended(alloc: Global, extensions: OrderedMap<Node>) -> Schema {
        schema_of(alloc, extensions)
    }
}

impl Extended for Encoding {
    fn extended(alloc: Global, extensions: OrderedMap<Node>) -> Encoding {
        let mut encoding = Encoding::new(alloc);
        encoding.extensions = extensions;
        encoding
    }
}

impl Extended for MediaType {
    fn extended(alloc: Global, extensions: OrderedMap<Node>) -> MediaType {
        let mut media_type = MediaType::new(alloc);
        media_type.extensions = extensions;
        media_type
    }
}

impl Extended for Header {
    fn extended(alloc: Global, extensions: OrderedMap<Node>) -> Header {
        Header {
            description: None,
            style: HeaderStyle::Simple,
            required: false,
            deprecated: None,
            example: None,
            format: ParameterSchemaOrContent::Content(OrderedMap::new(alloc)),
            examples: OrderedMap::new(alloc),
            extensions,
        }
    }
}

/// Returns the data of a parameter with this content and these extensions.
pub(crate) fn data_of(
    alloc: Global,
    content: Content,
    extensions: OrderedMap<Node>,
) -> ParameterData {
    ParameterData {
        name: String::new(alloc),
        description: None,
        required: false,
        deprecated: None,
        example: None,
        examples: OrderedMap::new(alloc),
        explode: None,
        extensions,
        format: ParameterSchemaOrContent::Content(content),
    }
}

impl Extended for ParameterData {
    fn extended(alloc: Global, extensions: OrderedMap<Node>) -> ParameterData {
        data_of(alloc, OrderedMap::new(alloc), extensions)
    }
}

/// A parameter in a path.
impl Extended for Parameter {
    fn extended(alloc: Global, extensions: OrderedMap<Node>) -> Parameter {
        Parameter::Path {
            parameter_data: ParameterData::extended(alloc, extensions),
            style: PathStyle::Simple,
        }
    }
}

impl Extended for Response {
    fn extended(alloc: Global, extensions: OrderedMap<Node>) -> Response {
        let mut response = Response::new(alloc);
        response.extensions = extensions;
        response
    }
}

impl Extended for Responses {
    fn extended(alloc: Global, extensions: OrderedMap<Node>) -> Responses {
        let mut responses = Responses::new(alloc);
        responses.extensions = extensions;
        responses
    }
}

impl Extended for Operation {
    fn extended(alloc: Global, extensions: OrderedMap<Node>) -> Operation {
        let mut operation = Operation::new(alloc);
        operation.extensions = extensions;
        operation
    }
}

impl Extended for PathItem {
    fn extended(alloc: Global, extensions: OrderedMap<Node>) -> PathItem {
        let mut path_item = PathItem::new(alloc);
        path_item.extensions = extensions;
        path_item
    }
}

impl Extended for Callback {
    fn extended(alloc: Global, extensions: OrderedMap<Node>) -> Callback {
        let mut callback = Callback::new(alloc);
        callback.extensions = extensions;
        callback
    }
}

impl Extended for Paths {
    fn extended(alloc: Global, extensions: OrderedMap<Node>) -> Paths {
        let mut paths = Paths::new(alloc);
        paths.extensions = extensions;
        paths
    }
}

impl Extended for Components {
    fn extended(alloc: Global, extensions: OrderedMap<Node>) -> Components {
        let mut components = Components::new(alloc);
        components.extensions = extensions;
        components
    }
}

/// Returns an object that is empty except for a null extension of this name.
pub(crate) fn with_extension<T: Extended>(rt: &HostRuntime, name: &str) -> Result<T, Fail> {
    let extensions = extension(rt, name)?;
    Ok(T::extended(rt.alloc(), extensions))
}

/// Checks that an object is refused for an extension without the prefix, and written as a JSON text with one that has it.
fn check_prefix<T: Extended + ToNode + Drop>(rt: &HostRuntime, wanted: &str) -> Result<(), Fail> {
    let refused = Err("name not writable at #/foo");
    check_built(rt, with_extension::<T>(rt, "foo"), refused)?;
    check_built(rt, with_extension::<T>(rt, "x-foo"), Ok(wanted))
}

#[test]
fn schemas_and_their_parts_check_names(rt: HostRuntime) -> Result<(), Fail> {
    check_prefix::<ExternalDocumentation>(&rt, r#"{"url":"","x-foo":null}"#)?;
    check_prefix::<Xml>(&rt, r#"{"x-foo":null}"#)?;
    check_prefix::<Schema>(&rt, r#"{"x-foo":null}"#)
}

#[test]
fn parameters_and_contents_check_names(rt: HostRuntime) -> Result<(), Fail> {
    check_prefix::<Encoding>(&rt, r#"{"contentType":null,"x-foo":null}"#)?;
    check_prefix::<MediaType>(&rt, r#"{"x-foo":null}"#)?;
    check_prefix::<Header>(&rt, r#"{"style":"simple","content":{},"x-foo":null}"#)?;
    check_prefix::<ParameterData>(&rt, r#"{"name":"","content":{},"x-foo":null}"#)?;
    let wanted = r#"{"in":"path","name":"","content":{},"x-foo":null,"style":"simple"}"#;
    check_prefix::<Parameter>(&rt, wanted)
}

#[test]
fn responses_and_operations_check_names(rt: HostRuntime) -> Result<(), Fail> {
    check_prefix::<Response>(&rt, r#"{"description":"","x-foo":null}"#)?;
    check_prefix::<Responses>(&rt, r#"{"x-foo":null}"#)?;
    check_prefix::<Operation>(&rt, r#"{"responses":{},"x-foo":null}"#)
}

#[test]
fn paths_and_components_check_names(rt: HostRuntime) -> Result<(), Fail> {
    check_prefix::<PathItem>(&rt, r#"{"x-foo":null}"#)?;
    check_prefix::<Callback>(&rt, r#"{"x-foo":null}"#)?;
    check_prefix::<Paths>(&rt, r#"{"x-foo":null}"#)?;
    check_prefix::<Components>(&rt, r#"{"x-foo":null}"#)
}
