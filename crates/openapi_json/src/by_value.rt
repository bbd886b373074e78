//! Nodes from bytes: in one pass over the tokens, or through a value of `serde_json` if that pass returns none.
ghost use Rattle.std.specs.Prelude.{◌≡◌, ◌⊎◌, IfOk, IfErr};
ghost use Rattle.openapi_json.specs.Reading.{Explains, IsTreeOfText};

use crate::fault::JsonFault;
use crate::read::read_bytes;
use crate::unread::Unread;
use openapi_node::{Cause, Node};
use serde_json::Value;
use std::alloc::Global;

/// Reads JSON text as a node, with the members of each object in the order of their names.
///
/// If a name comes again in an object, its last value counts, as in `serde_json`.
///
/// # Errors
///
/// Returns [`JsonFault::NotJson`] if the bytes are not UTF-8, or no JSON as `serde_json` reads it. Returns
/// [`JsonFault::NotWhole`] with the location of a number that a node can't hold, and [`JsonFault::Memory`] if an
/// allocation fails.
pub fn node_from_json(alloc: Global, bytes: &[u8]) -> Result<Node, JsonFault>
    ensures ok { IfOk result (IsTreeOfText bytes.now) }
    ensures err { IfErr result (Explains bytes.now) }
{
    match read_bytes(alloc, bytes) {
        Ok(node) => Ok(node),
        Err(Unread::Memory) => Err(JsonFault::Memory),
        Err(Unread::Other) => node_by_value(alloc, bytes),
    }
}

/// Reads JSON text through a value of `serde_json`, to find out why the pass over the tokens failed.
fn node_by_value(alloc: Global, bytes: &[u8]) -> Result<Node, JsonFault>
    ensures ok { IfOk result (IsTreeOfText bytes.now) }
    ensures err { IfErr result (Explains bytes.now) }
{
    let value = match Value::from_slice(alloc, bytes) {
        Ok(value) => value,
        Err(error) => {
            return Err(if error.is_memory() {
                JsonFault::Memory
            } else {
                JsonFault::NotJson
            });
        }
    };
    match Node::from_value(alloc, &value) {
        Ok(node) => Ok(node),
        Err(fault) => match fault.cause {
            Cause::Memory => Err(JsonFault::Memory),
            _ => Err(JsonFault::NotWhole(fault)),
        },
    }
}
