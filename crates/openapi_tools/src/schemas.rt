//! All schemas of a document.
use openapiv3::{OpenAPI, Schema, Visitor, visit};
use std::alloc::{AllocError, Global};

/// Collects the locations of the schemas without a title.
#[derive(Drop)]
struct Untitled {
    alloc: Global,
    found: Vec<String>,
}

impl Visitor for Untitled {
    type Error = AllocError;

    fn schema(&mut self, location: &str, schema: &Schema) -> Result<(), AllocError> {
        if schema.schema_data.title.is_none() {
            self.found.push(String::from_str(self.alloc, location)?)?;
        }
        Ok(())
    }
}

/// Returns the location of each schema without a title, a JSON Pointer.
///
/// # Errors
///
/// [`AllocError`] if an allocation fails.
pub fn untitled_schemas(alloc: Global, document: &OpenAPI) -> Result<Vec<String>, AllocError> {
    let mut untitled = Untitled {
        alloc,
        found: Vec::new(alloc),
    };
    visit(alloc, document, &mut untitled)?;
    Ok(untitled.found)
}
