//! A flag that is set in a document.
use anyhow::Result;
use openapiv3::{Method, OpenAPI, ReferenceOr, Steps, Word, from_json_in_order, to_json_pretty};
use std::alloc::Global;

/// Returns the text of a document in which each operation under a path is deprecated.
///
/// # Errors
///
/// An error if the bytes are no document, or if an allocation fails.
pub fn deprecate(alloc: Global, bytes: &[u8], path: &str, steps: &mut Steps) -> Result<String> {
    let mut document: OpenAPI = from_json_in_order(alloc, bytes, steps)?;
    if let Some(ReferenceOr::Item(item)) = document.paths.paths.get_mut(path) {
        for method in Method::all() {
            if let Some(operation) = item.get_mut(*method) {
                operation.deprecated = true;
            }
        }
    }
    Ok(to_json_pretty(alloc, &document, steps)?)
}
