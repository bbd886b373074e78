//! One visit of all that is required in a value.
ghost use Rattle.std.specs.Prelude.{◌+◌, ◌*◌, ◌≤◌, IfOk};
ghost use Rattle.openapi_node.specs.Tree.{size_of};
ghost use Rattle.openapi_tables.specs.Faults.{asked};
ghost use Rattle.openapi_tables.specs.Tables.{final_tables};
ghost use Rattle.openapi_faults.specs.Meaning.{kind_of};
ghost use Rattle.openapi_faults.specs.Walk.{Folds};

use crate::kind::Kind;
use crate::walk::{Visitor, Walk};
use openapi_node::{Node, Steps};
use std::alloc::{AllocError, Global};

/// Visits all that is required in a value, and returns the visitor.
///
/// # Errors
///
/// Returns [`AllocError`] if an allocation fails.
pub(crate) fn visited<V: Visitor + Drop>(
    alloc: Global,
    visitor: V,
    kind: Kind,
    node: &Node,
    steps: &mut Steps,
) -> Result<V, AllocError>
    ensures visits { IfOk result (λ after. Folds V.Takes visitor (asked final_tables (kind_of kind) node.now) after) }
    ensures rises { steps.old ≤ steps.new }
    ensures count { steps.new ≤ steps.old + 3 * size_of node.now }
{
    let mut walk = Walk {
        visitor,
        place: Vec::new(alloc),
    };
    let outcome = walk.value(kind, node, steps);
    let Walk { visitor, place } = walk;
    drop(place);
    outcome?;
    Ok(visitor)
}
