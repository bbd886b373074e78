//! From the text of an object to its normalized text.
ghost use Rattle.std.specs.Prelude.{◌≡◌, IfErr, IfOk, length, string_bytes, true};
ghost use Rattle.openapi_faults.specs.Dropped.{dropped_in};
ghost use Rattle.openapi_tables.specs.Conforms.{conforms};
ghost use Rattle.openapi_tables.specs.Tables.{final_tables};
ghost use Rattle.openapi_text.specs.Texts.{Explains, IsFaultOf};
ghost use Rattle.openapi_text.specs.declared.layout.Layout.TheVariants as layout;
ghost use Rattle.openapi_text.specs.Located.{IsRefusal};
ghost use Rattle.openapi_normalize.specs.Normalized.{IsNormalized, kind_of, normal, text_for};
ghost use Rattle.openapi_normalize.specs.Normalized as meaning;

use crate::indent::indented;
use crate::task::{Object, Task};
use openapi_documents::OpenAPI;
use openapi_faults::dropped_members;
use openapi_json::{
    json_from_node, json_from_node_in_order, pretty_from_node, pretty_from_node_in_order,
};
use openapi_metadata::Tag;
use openapi_node::{Node, Steps};
use openapi_schema::Schema;
use openapi_text::{Layout, Refusal, RunFault, cleaned_tree, read_tree, settled_tree};
use std::alloc::{AllocError, Global};
use std::mem;

/// The spaces by which the text is indented that needs no change.
const PRETTY_INDENT: usize = 2;

/// A normalized text.
#[derive(Debug, Drop)]
pub struct Normalized {
    /// The text, with the end of its last line.
    pub text: String,
    /// How many members of the source are not in it, since reading drops them.
    pub dropped: usize,
}

/// Returns the normalized text of an object, from the bytes of its JSON text.
///
/// If `is_last` is true, the memory of the value is not freed, since the process is to end soon.
///
/// # Errors
///
/// Returns a [`Refusal`] if the bytes are not JSON, if a number is not whole, or if the value does not conform to the
/// field tables. It has the position of the value, if that is known. An allocation failure is also a [`Refusal`].
pub fn normalize(
    alloc: Global,
    task: Task,
    is_last: bool,
    bytes: &[u8],
    steps: &mut Steps,
) -> Result<Normalized, Refusal>
    ensures ok { IfOk result (λ n. IsNormalized task bytes.now (string_bytes n.text) n.dropped) }
    ensures err { IfErr result (IsRefusal (kind_of task.object) bytes.now) }
{
    match normalized_or_fault(alloc, task, is_last, bytes, steps) {
        Ok(normalized) => Ok(normalized),
        Err(fault) => Err(Refusal::located(alloc, bytes, fault)),
    }
}

/// Returns the normalized text of an object, or why there is none.
fn normalized_or_fault(
    alloc: Global,
    task: Task,
    is_last: bool,
    bytes: &[u8],
    steps: &mut Steps,
) -> Result<Normalized, RunFault>
    ensures ok { IfOk result (λ n. IsNormalized task bytes.now (string_bytes n.text) n.dropped) }
    ensures err { IfErr result (Explains layout.InOrder (kind_of task.object) bytes.now) }
{
    let read = read_tree(alloc, Layout::InOrder, bytes)?;
    let dropped = count_dropped(alloc, task.object, &read, steps)?;
    let node = normal_node(alloc, task, read, steps)?;
    let text = text_of(alloc, task, &node, steps);
    if is_last {
        mem::forget(node);
    }
    Ok(Normalized {
        text: text?,
        dropped,
    })
}

/// Returns how many members of an object reading drops.
fn count_dropped(
    alloc: Global,
    object: Object,
    node: &Node,
    steps: &mut Steps,
) -> Result<usize, AllocError>
    ensures { IfOk result (λ n. n ≡ length (dropped_in (kind_of object) node.now)) }
{
    let dropped = dropped_members(alloc, object.kind(), node, steps)?;
    Ok(dropped.len())
}

/// Returns the value of an object, cleaned or in stable form.
fn normal_node(alloc: Global, task: Task, node: Node, steps: &mut Steps) -> Result<Node, RunFault>
    ensures ok { IfOk result (λ n. (conforms final_tables (kind_of task.object) node ≡ true)
        × (n ≡ normal task node)) }
    ensures err { IfErr result (IsFaultOf (kind_of task.object) node) }
{
    match (task.object, task.settle) {
        (Object::Document, false) => cleaned_tree::<OpenAPI>(alloc, node, steps),
        (Object::Document, true) => settled_tree::<OpenAPI>(alloc, node, steps),
        (Object::Schema, false) => cleaned_tree::<Schema>(alloc, node, steps),
        (Object::Schema, true) => settled_tree::<Schema>(alloc, node, steps),
        (Object::Tag, false) => cleaned_tree::<Tag>(alloc, node, steps),
        (Object::Tag, true) => settled_tree::<Tag>(alloc, node, steps),
    }
}

/// Returns the text of a value, with the end of its last line.
fn text_of(alloc: Global, task: Task, node: &Node, steps: &mut Steps) -> Result<String, AllocError>
    ensures { IfOk result (λ s. string_bytes s ≡ text_for task node.now) }
{
    let mut text = match task.indent {
        None if task.sort => json_from_node(alloc, node, steps)?,
        None => json_from_node_in_order(alloc, node, steps)?,
        Some(indent) => pretty_text(alloc, task.sort, indent, node, steps)?,
    };
    text.push('\n')?;
    Ok(text)
}

/// Returns the text of a value with a line for each item and each member.
fn pretty_text(
    alloc: Global,
    sort: bool,
    indent: usize,
    node: &Node,
    steps: &mut Steps,
) -> Result<String, AllocError>
    ensures { IfOk result (λ s. string_bytes s ≡ meaning.pretty_text indent (meaning.data_as sort node.now)) }
{
    let text = if sort {
        pretty_from_node(alloc, node, steps)?
    } else {
        pretty_from_node_in_order(alloc, node, steps)?
    };
    if indent == PRETTY_INDENT {
        Ok(text)
    } else {
        indented(alloc, text.as_str(), indent)
    }
}
