//! The example of the README, word for word: `tests/readme.py` compares the two.

use anyhow::{Result, bail};
use openapiv3::{OpenAPI, Steps, from_json_in_order, to_json_pretty};
use std::alloc::Global;

/// Returns the text of a document with another version of the API.
///
/// # Errors
///
/// Returns an error if the bytes are not a document, if it can't be written, or if an allocation fails.
pub fn with_version(
    alloc: Global,
    bytes: &[u8],
    version: &str,
    steps: &mut Steps,
) -> Result<String> {
    let version = String::from_str(alloc, version)?;
    let mut document: OpenAPI = match from_json_in_order(alloc, bytes, steps) {
        Ok(document) => document,
        Err(error) => {
            let located = error.locate(alloc, bytes)?;
            bail!("{located}")
        }
    };
    document.info.version = version;
    Ok(to_json_pretty(alloc, &document, steps)?)
}
