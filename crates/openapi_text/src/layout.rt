//! How a JSON value is laid out in a text.
ghost use Rattle.std.specs.Prelude.{◌≡◌, IfOk, IfErr, string_bytes};
ghost use Rattle.openapi_text.specs.Texts.{IsTextOf, IsUnread, text_in};

use crate::fault::RunFault;
use openapi_json::{
    json_from_node, json_from_node_in_order, node_from_json, node_from_json_in_order,
    pretty_from_node_in_order,
};
use openapi_node::{Node, Steps};
use std::alloc::Global;

/// How a JSON value is read from a text and written.
#[derive(Clone, Copy, Debug, PartialEq, Eq)]
pub enum Layout {
    /// With members by name, and no space.
    ByName,
    /// With members in order, and no space.
    InOrder,
    /// With members in order, and a line for each item and each member.
    Pretty,
}

/// Returns the JSON value that bytes hold.
///
/// # Errors
///
/// Returns [`RunFault::NotJson`] if the bytes are not JSON (RFC 8259) in UTF-8, and [`RunFault::Refused`] if a number
/// in them is not whole. Returns [`RunFault::Memory`] if an allocation fails.
#[tactic(auto, using(crate::proofs::Texts::tree_by_name, crate::proofs::Texts::tree_in_order, crate::proofs::Texts::tree_of_pretty, crate::proofs::Texts::unread_text))]
pub fn read_tree(alloc: Global, layout: Layout, bytes: &[u8]) -> Result<Node, RunFault>
    ensures ok { IfOk result (λ n. IsTextOf layout bytes.now (λ t. n ≡ t)) }
    ensures err { IfErr result (IsUnread bytes.now) }
{
    let node = match layout {
        Layout::ByName => node_from_json(alloc, bytes)?,
        Layout::InOrder | Layout::Pretty => node_from_json_in_order(alloc, bytes)?,
    };
    Ok(node)
}

/// Returns the text of a JSON value, with the end of its last line.
///
/// # Errors
///
/// Returns [`RunFault::Memory`] if an allocation fails. There is no other error.
pub fn text_of(
    alloc: Global,
    node: &Node,
    layout: Layout,
    steps: &mut Steps,
) -> Result<String, RunFault>
    ensures ok { IfOk result (λ text. string_bytes text ≡ text_in layout node.now) }
    ensures err { IfErr result (λ e. e ≡ RunFault.Memory) }
{
    let mut text = match layout {
        Layout::ByName => json_from_node(alloc, node, steps)?,
        Layout::InOrder => json_from_node_in_order(alloc, node, steps)?,
        Layout::Pretty => pretty_from_node_in_order(alloc, node, steps)?,
    };
    text.push('\n')?;
    Ok(text)
}
