//! From nodes to JSON text with a line for each value.
ghost use Rattle.std.specs.Prelude.{◌≡◌, ◌≤◌, IfOk, string_bytes};
ghost use Rattle.json.specs.Layout.{pretty};
ghost use Rattle.json.specs.Lex.{tokens};
ghost use Rattle.serde_json.specs.Read.{max_depth};
ghost use Rattle.openapi_json.specs.Ordered.{IsTreeInOrder};
ghost use Rattle.openapi_json.specs.Reading.{IsTreeOfText};
ghost use Rattle.openapi_json.specs.Scanned.{AreGood};
ghost use Rattle.openapi_json.specs.Writing.{data_in_order, data_tokens, nesting, tree_by_name};
ghost use Rattle.openapi_node.specs.Json.{data_of};

use crate::write::{Order, text_of};
use json::{Pretty, Reader, Scratch};
use openapi_node::{Node, Steps};
use std::alloc::{AllocError, Global};

/// Returns the JSON text of a node with a line for each item and each member, indented by two spaces, and the members of each
/// object in their order.
///
/// # Errors
///
/// Returns [`AllocError`] if an allocation fails.
pub fn pretty_from_node_in_order(
    alloc: Global,
    node: &Node,
    steps: &mut Steps,
) -> Result<String, AllocError>
    ensures text { IfOk result (λ s. string_bytes s ≡ pretty (data_tokens (data_in_order node.now))) }
    ensures reads_back { IfOk result (λ s. nesting node.now ≤ max_depth → IsTreeInOrder (string_bytes s) node.now) }
{
    node.names_differ();
    let text = text_of(alloc, node, Order::AsTheyStand, steps)?;
    spread(alloc, text.as_str())
}

/// Returns the JSON text of a node with a line for each item and each member, indented by two spaces, and the members of each
/// object in the order of their names.
///
/// # Errors
///
/// Returns [`AllocError`] if an allocation fails.
pub fn pretty_from_node(alloc: Global, node: &Node, steps: &mut Steps) -> Result<String, AllocError>
    ensures text { IfOk result (λ s. string_bytes s ≡ pretty (data_tokens (data_of node.now))) }
    ensures reads_back { IfOk result (λ s. nesting node.now ≤ max_depth
        → IsTreeOfText (string_bytes s) (tree_by_name node.now)) }
{
    let text = text_of(alloc, node, Order::ByName, steps)?;
    spread(alloc, text.as_str())
}

/// Returns a JSON text with a line for each item and each member.
fn spread(alloc: Global, text: &str) -> Result<String, AllocError>
    requires { AreGood (tokens text.now) }
    ensures text { IfOk result (λ s. string_bytes s ≡ pretty (tokens text.now)) }
    ensures same { IfOk result (λ s. tokens (string_bytes s) ≡ tokens text.now) }
{
    let mut scratch = Scratch::new(alloc);
    let Ok(mut reader) = Reader::new(text, &mut scratch) else {
        return Err(AllocError);
    };
    let mut out = Pretty::new(alloc);
    'tokens: while let Some(token) = reader.next() {
        out.token(token)?;
    }
    match String::from_utf8(out.into_inner()) {
        Ok(text) => Ok(text),
        Err(_) => Err(AllocError),
    }
}
