//! The rows of a table, read among the members of an object.
ghost use Rattle.std.specs.Prelude.{◌≡◌, ◌+◌, ◌≤◌, ◌*◌, Some};
ghost use Rattle.openapi_node.specs.Tree.{members_of, find};
ghost use Rattle.openapi_tables.specs.ByRow.{row_where, is_named, row_weight, rows_asked};
ghost use Rattle.openapi_tables.specs.Kind as kinds;
ghost use Rattle.openapi_tables.specs.Tables.{final_tables};
ghost use Rattle.openapi_fields.specs.Forms.{optional_form};
ghost use Rattle.openapi_fields.specs.Returned.{MemberReadAs, RowReadAs, RisesBy, unless_null};

use crate::from_node::FromNode;
use crate::object::HasSlots;
use crate::presence::{as_member, present_view};
use openapi_node::{Cause, Fault, Members, Node, Result, Steps, find_member};
use std::alloc::Global;

/// Reads the member of a name, if it exists.
pub(crate) fn found<T: FromNode>(
    alloc: Global,
    members: &Members,
    name: &str,
    steps: &mut Steps,
) -> Result<Option<T>>
    ensures reads { MemberReadAs T.form_of result T.kind name.now (find name.now (members_of members.now)) }
    ensures count { RisesBy steps.old steps.new
        (3 * row_weight (kinds.row name.now kinds.required T.kind) (members_of members.now)) }
{
    let Some(node) = find_member(members, name) else {
        return Ok(None);
    };
    as_member(alloc, name, T::from_node(alloc, node, steps))
}

/// Reads the member of a name, unless it is missing or null.
fn present<T: FromNode>(
    alloc: Global,
    members: &Members,
    name: &str,
    steps: &mut Steps,
) -> Result<Option<T>>
    ensures reads { MemberReadAs T.form_of result T.kind name.now (unless_null (find name.now
        (members_of members.now))) }
    ensures count { RisesBy steps.old steps.new
        (3 * row_weight (kinds.row name.now kinds.optional T.kind) (members_of members.now)) }
{
    match present_view(members, name, steps) {
        None => Ok(None),
        Some(view) => as_member(alloc, name, T::from_view(alloc, &view, steps)),
    }
}

/// Reads a member that has to exist.
///
/// # Errors
///
/// Returns `Cause::Missing` with the empty location if the name is missing. Otherwise it returns a fault with a rule
/// that the member breaks and the location in the object where it does. An allocation failure has `Cause::Memory` and
/// the empty location.
pub fn required<R: HasSlots, T: FromNode>(
    alloc: Global,
    members: &Members,
    name: &'static str,
    steps: &mut Steps,
) -> Result<T>
    requires row { row_where (is_named name.now) (rows_asked final_tables R.object) ≡ Some
        (kinds.row name.now kinds.required T.kind) }
    ensures reads { RowReadAs T.form_of result R.object (kinds.row name.entry.now kinds.required T.kind)
        (members_of members.now) }
    ensures rises { steps.old ≤ steps.new }
    ensures count { steps.new ≤ steps.old + 3 * row_weight (kinds.row name.entry.now kinds.required T.kind)
        (members_of members.now) }
{
    match found(alloc, members, name, steps) {
        Ok(member) => match member {
            Some(value) => Ok(value),
            None => Err(Fault::new(alloc, Cause::Missing(name))),
        },
        Err(fault) => Err(fault),
    }
}

/// Reads a member that may be missing or null.
///
/// # Errors
///
/// Returns a fault with a rule that the member breaks and the location in the object where it does. An allocation
/// failure has `Cause::Memory` and the empty location.
pub fn optional<R: HasSlots, T: FromNode>(
    alloc: Global,
    members: &Members,
    name: &'static str,
    steps: &mut Steps,
) -> Result<Option<T>>
    requires row { row_where (is_named name.now) (rows_asked final_tables R.object) ≡ Some
        (kinds.row name.now kinds.optional T.kind) }
    ensures reads { RowReadAs (optional_form T.form_of) result R.object
        (kinds.row name.entry.now kinds.optional T.kind) (members_of members.now) }
    ensures rises { steps.old ≤ steps.new }
    ensures count { steps.new ≤ steps.old + 3 * row_weight (kinds.row name.entry.now kinds.optional T.kind)
        (members_of members.now) }
{
    present(alloc, members, name, steps)
}

/// Reads a member that may be missing or null, and that is written as null in both cases.
///
/// # Errors
///
/// Returns a fault with a rule that the member breaks and the location in the object where it does. An allocation
/// failure has `Cause::Memory` and the empty location.
pub fn nullable<R: HasSlots, T: FromNode>(
    alloc: Global,
    members: &Members,
    name: &'static str,
    steps: &mut Steps,
) -> Result<Option<T>>
    requires row { row_where (is_named name.now) (rows_asked final_tables R.object) ≡ Some
        (kinds.row name.now kinds.nullable T.kind) }
    ensures reads { RowReadAs (optional_form T.form_of) result R.object
        (kinds.row name.entry.now kinds.nullable T.kind) (members_of members.now) }
    ensures rises { steps.old ≤ steps.new }
    ensures count { steps.new ≤ steps.old + 3 * row_weight (kinds.row name.entry.now kinds.nullable T.kind)
        (members_of members.now) }
{
    present(alloc, members, name, steps)
}
