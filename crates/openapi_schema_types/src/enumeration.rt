//! The entries of an enumeration, as texts, numbers or flags.
ghost use Rattle.std.specs.Prelude.{◌≡◌, ◌+◌, ◌≤◌, length, IfOk, IfErr};
ghost use Rattle.openapi_node.specs.Tree.{items_size, items_of};
ghost use Rattle.openapi_node.specs.Fault.{IsMemory};
ghost use Rattle.openapi_node.specs.View.{shown};
ghost use Rattle.openapi_tables.specs.Members as members;
ghost use Rattle.openapi_fields.specs.Returned.{RisesBy};
ghost use Rattle.openapi_schema_types.specs.Enumerations.{GivesEntry, EntriesReadAs};
ghost use Rattle.openapi_schema_types.specs.Enumerations.{text_tree, number_tree, signed_tree, flag_tree};

use openapi_node::{Fault, Node, Result, Steps, View, Whole};
use std::alloc::Global;

/// What an entry of an enumeration can be, if it is not null.
pub trait Entry: Sized {
    ghost use Rattle.std.specs.Prelude.{◌≡◌, Bool, IfErr};
    ghost use Rattle.openapi_node.specs.Fault.{IsMemory};
    ghost use Rattle.openapi_node.specs.Tree.{Tree};
    ghost use Rattle.openapi_node.specs.View.{shown};
    ghost use Rattle.openapi_schema_types.specs.Enumerations.{GivesEntry};

    /// Whether a node is null or such a value.
    ghost test: { Tree → Bool };

    /// The node of a value.
    ghost tree_in: { Self → Tree };

    /// Reads an entry from a view. The inner `None` is null; the outer one is a value that is no such entry.
    ///
    /// # Errors
    ///
    /// Returns `Cause::Memory` with the empty location if an allocation fails.
    fn from_shown(alloc: Global, view: &View<'_>) -> Result<Option<Option<Self>>>
        ensures reads { GivesEntry test tree_in result (shown view.now) }
        ensures err { IfErr result IsMemory };
}

impl Entry for String {
    ghost test = { members.is_null_or_text };

    ghost tree_in = { text_tree };

    fn from_shown(alloc: Global, view: &View<'_>) -> Result<Option<Option<String>>> {
        match view {
            View::Null => Ok(Some(None)),
            View::Text(text) => match String::from_str(alloc, text) {
                Ok(text) => Ok(Some(Some(text))),
                Err(_) => Err(Fault::memory(alloc)),
            },
            _ => Ok(None),
        }
    }
}

impl Entry for Whole {
    ghost test = { members.is_null_or_whole };

    ghost tree_in = { number_tree };

    fn from_shown(_alloc: Global, view: &View<'_>) -> Result<Option<Option<Whole>>> {
        match view {
            View::Null => Ok(Some(None)),
            View::Whole(number) => Ok(Some(Some(*number))),
            _ => Ok(None),
        }
    }
}

impl Entry for i64 {
    ghost test = { members.is_null_or_signed };

    ghost tree_in = { signed_tree };

    fn from_shown(_alloc: Global, view: &View<'_>) -> Result<Option<Option<i64>>> {
        match view {
            View::Null => Ok(Some(None)),
            View::Whole(number) => match number.as_i64() {
                Some(number) => Ok(Some(Some(number))),
                None => Ok(None),
            },
            _ => Ok(None),
        }
    }
}

impl Entry for bool {
    ghost test = { members.is_null_or_flag };

    ghost tree_in = { flag_tree };

    fn from_shown(_alloc: Global, view: &View<'_>) -> Result<Option<Option<bool>>> {
        match view {
            View::Null => Ok(Some(None)),
            View::Flag(flag) => Ok(Some(Some(*flag))),
            _ => Ok(None),
        }
    }
}

/// Reads the entries of an enumeration as values of one type, null among them. Returns `None` if one of them is
/// something else. Each entry is accessed at most once.
///
/// # Errors
///
/// Returns `Cause::Memory` with the empty location if an allocation fails.
pub fn entries<T: Entry + Drop>(
    alloc: Global,
    nodes: &[Node],
    steps: &mut Steps,
) -> Result<Option<Vec<Option<T>>>>
    ensures reads { EntriesReadAs T.test T.tree_in result nodes.now }
    ensures err { IfErr result IsMemory }
    ensures count { RisesBy steps.old steps.new (length nodes.now) }
{
    let Ok(mut values) = Vec::with_capacity(alloc, nodes.len()) else {
        return Err(Fault::memory(alloc));
    };
    for node in nodes {
        let view = node.open(steps);
        match T::from_shown(alloc, &view)? {
            Some(value) => {
                if values.push(value).is_err() {
                    return Err(Fault::memory(alloc));
                }
            }
            None => return Ok(None),
        }
    }
    Ok(Some(values))
}

/// Copies the entries of an enumeration.
///
/// # Errors
///
/// Returns `Cause::Memory` with the empty location if an allocation fails.
#[tactic(auto, using(crate::proofs::ItemSizes::items_size_drop))]
pub fn copies(alloc: Global, nodes: &[Node], steps: &mut Steps) -> Result<Vec<Node>>
    ensures ok { IfOk result (λ v. v.items ≡ nodes.now) }
    ensures err { IfErr result IsMemory }
    ensures count { RisesBy steps.old steps.new (items_size (items_of nodes.now)) }
{
    let Ok(mut values) = Vec::with_capacity(alloc, nodes.len()) else {
        return Err(Fault::memory(alloc));
    };
    for node in nodes {
        let copy = node.copy(alloc, steps)?;
        if values.push(copy).is_err() {
            return Err(Fault::memory(alloc));
        }
    }
    Ok(values)
}
