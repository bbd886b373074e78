//! The properties of a schema that is referred to.
use anyhow::Result;
use openapiv3::{OpenAPI, Resolve, Schema, SchemaKind, SchemaType};
use std::alloc::Global;

/// Returns the name and the title of each property of the schema to which a reference leads.
///
/// # Errors
///
/// An error if the reference, or that of a property, leads nowhere, or if an allocation fails.
pub fn properties_of(alloc: Global, document: &OpenAPI, reference: &str) -> Result<Vec<String>> {
    let mut found = Vec::new(alloc);
    let schema: &Schema = document.component(reference)?;
    if let SchemaKind::Typed(SchemaType::Object(object)) = &schema.schema_kind {
        for (name, property) in object.properties.iter() {
            let property = document.resolve_boxed(property)?;
            let title = property.schema_data.title.as_deref().unwrap_or("");
            found.push(format!(in alloc; "{name}: {title}")?)?;
        }
    }
    Ok(found)
}
