//! JSON text from typed objects.
ghost use Rattle.std.specs.Prelude.{◌≡◌, IfOk, IfErr, string_bytes};
ghost use Rattle.openapi_fields.specs.Returned.{NotWritable};
ghost use Rattle.openapi_tables.specs.Tables.{final_tables};
ghost use Rattle.openapi_tables.specs.Unwritable.{unwritable};
ghost use Rattle.openapiv3.specs.Write.{IsByName, IsInOrder, IsPretty, IsWrittenOf};

use openapi_fields::ToNode;
use openapi_json::{json_from_node, json_from_node_in_order, pretty_from_node_in_order};
use openapi_node::{Fault, Result, Steps};
use std::alloc::Global;

/// Writes an OpenAPI object as compact JSON text, with the members of each object in the order of their names.
///
/// # Errors
///
/// Returns a [`Fault`] with [`Cause::NameNotWritable`](openapi_node::Cause::NameNotWritable) at a name or a status code
/// that would not be read again, such as an extension without `x-`. An allocation failure has
/// [`Cause::Memory`](openapi_node::Cause::Memory) and the empty location.
///
/// # Examples
///
/// ```rust
/// let name = String::from_str(rt.alloc(), "Ann")?;
/// let mut contact = Contact::new(rt.alloc());
/// contact.name = Some(name);
/// let text = to_json(rt.alloc(), &contact, &mut Steps::new(&rt))?;
/// assert_eq!(rt; text.as_str(), r#"{"name":"Ann"}"#);
/// ```
pub fn to_json<T: ToNode>(alloc: Global, value: &T, steps: &mut Steps) -> Result<String>
    ensures text { IfOk result (λ s. IsWrittenOf IsByName T.FromNode.kind (T.FromNode.form_of value.now) (string_bytes s)) }
    ensures refuses { IfErr result (λ f. NotWritable f (unwritable final_tables T.FromNode.kind
        (T.FromNode.form_of value.now))) }
{
    let node = value.to_node(alloc)?;
    match json_from_node(alloc, &node, steps) {
        Ok(text) => Ok(text),
        Err(_) => Err(Fault::memory(alloc)),
    }
}

/// Writes an OpenAPI object as compact JSON text. Fields are in the order of the field tables, and the entries of each
/// map in their order.
///
/// # Errors
///
/// Returns the errors of [`to_json`].
pub fn to_json_in_order<T: ToNode>(alloc: Global, value: &T, steps: &mut Steps) -> Result<String>
    ensures text { IfOk result (λ s. IsWrittenOf IsInOrder T.FromNode.kind (T.FromNode.form_of value.now) (string_bytes s)) }
    ensures refuses { IfErr result (λ f. NotWritable f (unwritable final_tables T.FromNode.kind
        (T.FromNode.form_of value.now))) }
{
    let node = value.to_node(alloc)?;
    match json_from_node_in_order(alloc, &node, steps) {
        Ok(text) => Ok(text),
        Err(_) => Err(Fault::memory(alloc)),
    }
}

/// Writes an OpenAPI object as [`to_json_in_order`] does, but with a line for each item and each member, indented by
/// two spaces. There is no line feed at the end.
///
/// # Errors
///
/// Returns the errors of [`to_json`].
pub fn to_json_pretty<T: ToNode>(alloc: Global, value: &T, steps: &mut Steps) -> Result<String>
    ensures text { IfOk result (λ s. IsWrittenOf IsPretty T.FromNode.kind (T.FromNode.form_of value.now) (string_bytes s)) }
    ensures refuses { IfErr result (λ f. NotWritable f (unwritable final_tables T.FromNode.kind
        (T.FromNode.form_of value.now))) }
{
    let node = value.to_node(alloc)?;
    match pretty_from_node_in_order(alloc, &node, steps) {
        Ok(text) => Ok(text),
        Err(_) => Err(Fault::memory(alloc)),
    }
}
