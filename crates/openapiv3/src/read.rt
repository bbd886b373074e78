//! Typed objects from JSON text.
ghost use Rattle.std.specs.Prelude.{◌≡◌, IfOk, IfErr};
ghost use Rattle.openapi_json.specs.Ordered.{IsTreeInOrder};
ghost use Rattle.openapi_json.specs.Reading.{IsTreeOfText};
ghost use Rattle.openapiv3.specs.Read.{Explains, IsReadOf};

use openapi_fields::FromNode;
use openapi_json::{JsonFault, node_from_json, node_from_json_in_order};
use openapi_node::{Fault, Steps};
use std::alloc::Global;
use thiserror::Error;

/// The reason why bytes were not read as an OpenAPI object. It prints as one line of text: what is wrong, and the JSON
/// Pointer of the value. [`ReadError::locate`] adds its line and column.
#[derive(Debug, Drop, Error, PartialEq)]
pub enum ReadError {
    /// The bytes are not UTF-8 or not JSON, a number in them is not whole, or an allocation failed.
    #[error("{0}")]
    Json(JsonFault),
    /// The bytes are JSON, but not the expected object. The fault has a location and a rule that is broken there, or
    /// reports an allocation failure.
    #[error("{0}")]
    Refused(Fault),
}

impl From<JsonFault> for ReadError {
    ghost use Rattle.openapiv3.specs.declared.read.ReadError.TheVariants.{Json};

    ghost from_gives = { λ f e. e ≡ Json f };

    fn from(fault: JsonFault) -> ReadError {
        ReadError::Json(fault)
    }
}

impl From<Fault> for ReadError {
    ghost use Rattle.openapiv3.specs.declared.read.ReadError.TheVariants.{Refused};

    ghost from_gives = { λ f e. e ≡ Refused f };

    fn from(fault: Fault) -> ReadError {
        ReadError::Refused(fault)
    }
}

/// Reads an OpenAPI object from JSON text, with the entries of each map in the order of their names.
///
/// # Errors
///
/// Returns [`ReadError::Json`] if the bytes are not JSON in UTF-8, or if a number in them is not whole. Returns
/// [`ReadError::Refused`] with a location and a rule that is broken there if the JSON value is not such an object. Both
/// variants also report an allocation failure.
///
/// # Examples
///
/// ```rust
/// let text = r#"{"title":"Pets","version":"1"}"#;
/// let info: Info = from_json(rt.alloc(), text.as_bytes(), &mut Steps::new(&rt))?;
/// assert_eq!(rt; info.title.as_str(), "Pets");
/// ```
pub fn from_json<T: FromNode>(
    alloc: Global,
    bytes: &[u8],
    steps: &mut Steps,
) -> Result<T, ReadError>
    ensures reads { IfOk result (λ x. IsReadOf IsTreeOfText T.form_of x T.kind bytes.now steps.old steps.new) }
    ensures refuses { IfErr result (Explains IsTreeOfText T.kind bytes.now steps.old steps.new) }
{
    let tree = node_from_json(alloc, bytes)?;
    let value = T::from_node(alloc, &tree, steps)?;
    Ok(value)
}

/// Reads an OpenAPI object from JSON text as [`from_json`] does, but with the entries of each map in the order of the
/// text.
///
/// # Errors
///
/// Returns the errors of [`from_json`].
///
/// # Examples
///
/// ```rust
/// let text = r#"{"name":"pets","x-b":1,"x-a":2}"#;
/// let tag: Tag = from_json_in_order(rt.alloc(), text.as_bytes(), &mut Steps::new(&rt))?;
/// let mut names = tag.extensions.keys();
/// assert_eq!(rt; names.next(), Some("x-b"));
/// assert_eq!(rt; names.next(), Some("x-a"));
/// ```
pub fn from_json_in_order<T: FromNode>(
    alloc: Global,
    bytes: &[u8],
    steps: &mut Steps,
) -> Result<T, ReadError>
    ensures reads { IfOk result (λ x. IsReadOf IsTreeInOrder T.form_of x T.kind bytes.now steps.old steps.new) }
    ensures refuses { IfErr result (Explains IsTreeInOrder T.kind bytes.now steps.old steps.new) }
{
    let node = node_from_json_in_order(alloc, bytes)?;
    let value = T::from_node(alloc, &node, steps)?;
    Ok(value)
}
