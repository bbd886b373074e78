//! Operations without a description.
use openapiv3::OpenAPI;
use std::alloc::{AllocError, Global};

/// Returns the method and the path of each operation without a description.
///
/// # Errors
///
/// [`AllocError`] if an allocation fails.
pub fn undescribed_operations(
    alloc: Global,
    document: &OpenAPI,
) -> Result<Vec<String>, AllocError> {
    let mut found = Vec::new(alloc);
    for (path, method, operation) in document.operations() {
        if operation.description.is_none() {
            found.push(format!(in alloc; "{method} {path}")?)?;
        }
    }
    Ok(found)
}
