//! What is read and written by functions of its own: references, contents and security requirements.

use openapiv3::{
    Callback, Content, Example, Fault, Header, Link, Node, Parameter, PathItem, ReferenceOr,
    RequestBody, Response, Schema, SecurityRequirement, SecurityScheme, Steps,
    boxed_schema_ref_from_node, boxed_schema_ref_to_node, callback_ref_from_node,
    callback_ref_to_node, content_from_node, content_to_node, example_ref_from_node,
    example_ref_to_node, header_ref_from_node, header_ref_to_node, link_ref_from_node,
    link_ref_to_node, parameter_ref_from_node, parameter_ref_to_node, path_item_ref_from_node,
    path_item_ref_to_node, request_body_ref_from_node, request_body_ref_to_node,
    response_ref_from_node, response_ref_to_node, schema_ref_from_node, schema_ref_to_node,
    security_requirement_from_node, security_requirement_to_node, security_scheme_ref_from_node,
    security_scheme_ref_to_node,
};
use std::alloc::Global;

/// What two functions read and write.
trait ByFunctions: Drop {
    /// Reads a value by the first function.
    fn read(alloc: Global, node: &Node, steps: &mut Steps) -> Result<Self, Fault>;

    /// Writes a value by the second function.
    fn write(&self, alloc: Global) -> Result<Node, Fault>;
}

impl ByFunctions for ReferenceOr<Callback> {
    fn read(alloc: Global, node: &Node, steps: &mut Steps) -> Result<Self, Fault> {
        callback_ref_from_node(alloc, node, steps)
    }

    fn write(&self, alloc: Global) -> Result<Node, Fault> {
        callback_ref_to_node(alloc, self)
    }
}

impl ByFunctions for ReferenceOr<Example> {
    fn read(alloc: Global, node: &Node, steps: &mut Steps) -> Result<Self, Fault> {
        example_ref_from_node(alloc, node, steps)
    }

    fn write(&self, alloc: Global) -> Result<Node, Fault> {
        example_ref_to_node(alloc, self)
    }
}

impl ByFunctions for ReferenceOr<Header> {
    fn read(alloc: Global, node: &Node, steps: &mut Steps) -> Result<Self, Fault> {
        header_ref_from_node(alloc, node, steps)
    }

    fn write(&self, alloc: Global) -> Result<Node, Fault> {
        header_ref_to_node(alloc, self)
    }
}

impl ByFunctions for ReferenceOr<Link> {
    fn read(alloc: Global, node: &Node, steps: &mut Steps) -> Result<Self, Fault> {
        link_ref_from_node(alloc, node, steps)
    }

    fn write(&self, alloc: Global) -> Result<Node, Fault> {
        link_ref_to_node(alloc, self)
    }
}

impl ByFunctions for ReferenceOr<Parameter> {
    fn read(alloc: Global, node: &Node, steps: &mut Steps) -> Result<Self, Fault> {
        parameter_ref_from_node(alloc, node, steps)
    }

    fn write(&self, alloc: Global) -> Result<Node, Fault> {
        parameter_ref_to_node(alloc, self)
    }
}

impl ByFunctions for ReferenceOr<PathItem> {
    fn read(alloc: Global, node: &Node, steps: &mut Steps) -> Result<Self, Fault> {
        path_item_ref_from_node(alloc, node, steps)
    }

    fn write(&self, alloc: Global) -> Result<Node, Fault> {
        path_item_ref_to_node(alloc, self)
    }
}

impl ByFunctions for ReferenceOr<RequestBody> {
    fn read(alloc: Global, node: &Node, steps: &mut Steps) -> Result<Self, Fault> {
        request_body_ref_from_node(alloc, node, steps)
    }

    fn write(&self, alloc: Global) -> Result<Node, Fault> {
        request_body_ref_to_node(alloc, self)
    }
}

impl ByFunctions for ReferenceOr<Response> {
    fn read(alloc: Global, node: &Node, steps: &mut Steps) -> Result<Self, Fault> {
        response_ref_from_node(alloc, node, steps)
    }

    fn write(&self, alloc: Global) -> Result<Node, Fault> {
        response_ref_to_node(alloc, self)
    }
}

impl ByFunctions for ReferenceOr<Schema> {
    fn read(alloc: Global, node: &Node, steps: &mut Steps) -> Result<Self, Fault> {
        schema_ref_from_node(alloc, node, steps)
    }

    fn write(&self, alloc: Global) -> Result<Node, Fault> {
        schema_ref_to_node(alloc, self)
    }
}

impl ByFunctions for ReferenceOr<SecurityScheme> {
    fn read(alloc: Global, node: &Node, steps: &mut Steps) -> Result<Self, Fault> {
        security_scheme_ref_from_node(alloc, node, steps)
    }

    fn write(&self, alloc: Global) -> Result<Node, Fault> {
        security_scheme_ref_to_node(alloc, self)
    }
}

impl ByFunctions for ReferenceOr<Box<Schema>> {
    fn read(alloc: Global, node: &Node, steps: &mut Steps) -> Result<Self, Fault> {
        boxed_schema_ref_from_node(alloc, node, steps)
    }

    fn write(&self, alloc: Global) -> Result<Node, Fault> {
        boxed_schema_ref_to_node(alloc, self)
    }
}

impl ByFunctions for Content {
    fn read(alloc: Global, node: &Node, steps: &mut Steps) -> Result<Self, Fault> {
        content_from_node(alloc, node, steps)
    }

    fn write(&self, alloc: Global) -> Result<Node, Fault> {
        content_to_node(alloc, self)
    }
}

impl ByFunctions for SecurityRequirement {
    fn read(alloc: Global, node: &Node, steps: &mut Steps) -> Result<Self, Fault> {
        security_requirement_from_node(alloc, node, steps)
    }

    fn write(&self, alloc: Global) -> Result<Node, Fault> {
        security_requirement_to_node(alloc, self)
    }
}

/// Returns what a node is cleaned to by the two functions of a type.
fn cleaned<T: ByFunctions>(rt: &HostRuntime, node: &Node) -> Result<Node, Fault> {
    let mut steps = Steps::new(rt);
    match T::read(rt.alloc(), node, &mut steps) {
        Ok(value) => value.write(rt.alloc()),
        Err(fault) => Err(fault),
    }
}

/// Returns what a node is cleaned to by the two functions of the type of a name, or `None` if it has none.
///
/// # Errors
///
/// The result inside is the [`Fault`] of reading the node or of writing the value.
pub fn by_functions(rt: &HostRuntime, name: &str, node: &Node) -> Option<Result<Node, Fault>> {
    match name {
        "ReferenceOr<Callback>" => Some(cleaned::<ReferenceOr<Callback>>(rt, node)),
        "ReferenceOr<Example>" => Some(cleaned::<ReferenceOr<Example>>(rt, node)),
        "ReferenceOr<Header>" => Some(cleaned::<ReferenceOr<Header>>(rt, node)),
        "ReferenceOr<Link>" => Some(cleaned::<ReferenceOr<Link>>(rt, node)),
        "ReferenceOr<Parameter>" => Some(cleaned::<ReferenceOr<Parameter>>(rt, node)),
        "ReferenceOr<PathItem>" => Some(cleaned::<ReferenceOr<PathItem>>(rt, node)),
        "ReferenceOr<RequestBody>" => Some(cleaned::<ReferenceOr<RequestBody>>(rt, node)),
        "ReferenceOr<Response>" => Some(cleaned::<ReferenceOr<Response>>(rt, node)),
        "ReferenceOr<Schema>" => Some(cleaned::<ReferenceOr<Schema>>(rt, node)),
        "ReferenceOr<SecurityScheme>" => Some(cleaned::<ReferenceOr<SecurityScheme>>(rt, node)),
        "ReferenceOr<Box<Schema>>" => Some(cleaned::<ReferenceOr<Box<Schema>>>(rt, node)),
        "Content" => Some(cleaned::<Content>(rt, node)),
        "SecurityRequirement" => Some(cleaned::<SecurityRequirement>(rt, node)),
        _ => None,
    }
}
