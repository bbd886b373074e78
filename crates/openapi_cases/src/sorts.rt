//! Reports of what was read: the kind of a schema, and the operations of a document.

use openapiv3::{FromNode, Node, OpenAPI, Schema, SchemaKind, SchemaType, Steps};
use std::test::Fail;

/// A value that is reported.
trait Tells {
    /// Returns the lines of the report.
    fn tell(&self, rt: &HostRuntime) -> Result<String, Fail>;
}

/// Returns the word for the kind of a schema.
fn word_of(kind: &SchemaKind) -> &'static str {
    match kind {
        SchemaKind::Typed(SchemaType::String(_)) => "string",
        SchemaKind::Typed(SchemaType::Number(_)) => "number",
        SchemaKind::Typed(SchemaType::Integer(_)) => "integer",
        SchemaKind::Typed(SchemaType::Object(_)) => "object",
        SchemaKind::Typed(SchemaType::Array(_)) => "array",
        SchemaKind::Typed(SchemaType::Boolean(_)) => "boolean",
        SchemaKind::OneOf { .. } => "oneOf",
        SchemaKind::AllOf { .. } => "allOf",
        SchemaKind::AnyOf { .. } => "anyOf",
        SchemaKind::Not { .. } => "not",
        SchemaKind::Any(_) => "any",
    }
}

impl Tells for Schema {
    fn tell(&self, rt: &HostRuntime) -> Result<String, Fail> {
        Ok(format!(in rt.alloc(); "= {}\n", word_of(&self.schema_kind))?)
    }
}

impl Tells for OpenAPI {
    fn tell(&self, rt: &HostRuntime) -> Result<String, Fail> {
        let mut text = String::new(rt.alloc());
        for (path, method, operation) in self.operations() {
            write!(text, "= {method} {path}")?;
            if let Some(id) = &operation.operation_id {
                write!(text, " {id}")?;
            }
            text.push('\n')?;
        }
        Ok(text)
    }
}

/// Returns the report of what is read from a node.
fn told<T: FromNode + Tells + Drop>(rt: &HostRuntime, node: &Node) -> Result<String, Fail> {
    let mut steps = Steps::new(rt);
    match T::from_node(rt.alloc(), node, &mut steps) {
        Ok(value) => value.tell(rt),
        Err(fault) => Ok(format!(in rt.alloc(); "! {fault}\n")?),
    }
}

/// Returns the kind that a schema is read as.
///
/// # Errors
///
/// Returns [`Fail`] if an allocation fails.
pub fn sort(rt: &HostRuntime, node: &Node) -> Result<String, Fail> {
    told::<Schema>(rt, node)
}

/// Returns a line for each operation of a document: its method, its path, and its identifier if it has one.
///
/// # Errors
///
/// Returns [`Fail`] if an allocation fails.
pub fn operations(rt: &HostRuntime, node: &Node) -> Result<String, Fail> {
    told::<OpenAPI>(rt, node)
}
