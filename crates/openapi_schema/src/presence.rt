//! The entries of `enum`, unless it is missing or null.
ghost use Rattle.std.specs.Prelude.{◌+◌, ◌*◌, ◌<◌, ◌≤◌, codes, IfOk};
ghost use Rattle.openapi_node.specs.Tree.{items_of, items_size, members_of, size_of};
ghost use Rattle.openapi_node.specs.View.{shown};
ghost use Rattle.openapi_tables.specs.ByRow.{row_weight};
ghost use Rattle.openapi_tables.specs.Kind as kinds;
ghost use Rattle.openapi_fields.specs.Forms.{optional_form};
ghost use Rattle.openapi_fields.specs.Returned.{ReadAs, RowReadAs, RisesBy};
ghost use Rattle.openapi_schema.specs.KindNames.{trees_form};
ghost use Rattle.openapi_schema.specs.Kinds.{entries_weight, trees_in};

use openapi_fields::{as_member, present_view};
use openapi_node::{Cause, Expected, Fault, Members, Node, Result, Steps, View};
use std::alloc::Global;

/// Returns the elements of a list, without access to them.
fn elements<'a>(alloc: Global, view: &View<'a>) -> Result<&'a [Node]>
    ensures reads { ReadAs (λ nodes. trees_form nodes.now) result (kinds.list_of kinds.any_tree) (shown view.now) }
    ensures within { IfOk result (λ nodes. items_size (items_of nodes.now) < size_of (shown view.now)) }
{
    match view {
        View::List(nodes) => Ok(nodes),
        _ => Err(Fault::new(alloc, Cause::WrongKind(Expected::List))),
    }
}

/// Returns the entries of `enum`, or `None` if it is missing or null. The entries are not accessed.
pub(crate) fn lent_entries<'a>(
    alloc: Global,
    members: &'a Members,
    steps: &mut Steps,
) -> Result<Option<&'a [Node]>>
    ensures reads { RowReadAs (optional_form (λ nodes. trees_form nodes.now)) result kinds.a_schema_kind
        (kinds.row (codes "enum") kinds.optional (kinds.list_of kinds.any_tree)) (members_of members.now) }
    ensures count { RisesBy steps.old steps.new
        (3 * row_weight (kinds.row (codes "enum") kinds.optional (kinds.list_of kinds.any_tree)) (members_of members.now)) }
    ensures left { IfOk result (λ o. steps.new + 2 * entries_weight (trees_in o) ≤ steps.old + 3 * row_weight
        (kinds.row (codes "enum") kinds.optional (kinds.list_of kinds.any_tree)) (members_of members.now)) }
{
    match present_view(members, "enum", steps) {
        None => Ok(None),
        Some(view) => as_member(alloc, "enum", elements(alloc, &view)),
    }
}
