//! The operation of the Link Object.
ghost use Rattle.std.specs.Prelude.{◌≡◌, ◌+◌, ◌≤◌, ◌*◌, Some, OnOk, IfErr, codes};
ghost use Rattle.openapi_node.specs.Tree.{members_of};
ghost use Rattle.openapi_tables.specs.ByRow.{row_where, is_named, row_weight};
ghost use Rattle.openapi_tables.specs.Kind.{by, link_operation};
ghost use Rattle.openapi_tables.specs.Slots.{slot_where, before, through, slots_lost, IsWritten};
ghost use Rattle.openapi_tables.specs.Tables.{final_tables};
ghost use Rattle.openapi_fields.specs.Returned.{RowReadAs, NotWritable, RisesBy};
ghost use Rattle.openapi_metadata.specs.Links.{operation_row, operation_form, link_operation_rows};

use openapi_fields::{Either, HasSlots, Object, Record, decided, put_first, put_second};
use openapi_node::{Members, Node, Result, Steps};
use std::alloc::Global;

/// The operation to which a Link Object (OpenAPI 3.0.3, section 4.7.20) leads. OpenAPI allows a link only one of the
/// two names; of an object with both, the first one is read.
#[derive(Clone, Debug, PartialEq, Drop)]
pub enum LinkOperation {
    /// `operationRef`: a relative or absolute URI reference to an operation.
    OperationRef(String),
    /// `operationId`: the name of an operation that the document defines.
    OperationId(String),
}

/// Reads the operation among the members of an object.
pub(crate) fn operation<R: Object>(
    alloc: Global,
    members: &Members,
    steps: &mut Steps,
) -> Result<LinkOperation>
    requires row { row_where (is_named (codes "operationRef")) (final_tables R.table)
        ≡ Some operation_row }
    ensures reads { RowReadAs operation_form result (by R.table) operation_row (members_of members.now) }
    ensures count { RisesBy steps.old steps.new (3 * row_weight operation_row (members_of members.now)) }
{
    match decided::<R, String, String>(alloc, members, "operationRef", "operationId", steps) {
        Ok(Either::First(reference)) => Ok(LinkOperation::OperationRef(reference)),
        Ok(Either::Second(name)) => Ok(LinkOperation::OperationId(name)),
        Err(fault) => Err(fault),
    }
}

/// Writes the operation among the members of an object.
pub(crate) fn put_operation<R: HasSlots>(
    alloc: Global,
    owner: &R,
    out: &mut Members,
    operation: &LinkOperation,
) -> Result<()>
    requires slot { slot_where (is_named (codes "operationRef")) (R.slots_of owner.now)
        ≡ Some (operation_row, operation_form operation.now) }
    requires before { IsWritten final_tables (before (is_named (codes "operationRef")) (R.slots_of owner.now)) out.old }
    ensures ok { OnOk result (IsWritten final_tables (through (is_named (codes "operationRef"))
        (R.slots_of owner.now)) out.new) }
    ensures err { IfErr result (λ f. NotWritable f (slots_lost final_tables (R.slots_of owner.now))) }
{
    let (first, second) = ("operationRef", "operationId");
    match operation {
        LinkOperation::OperationRef(reference) => {
            put_first::<R, String, String>(alloc, owner, out, first, second, reference)
        }
        LinkOperation::OperationId(name) => {
            put_second::<R, String, String>(alloc, owner, out, first, second, name)
        }
    }
}

/// Of an object with both members `operationRef` and `operationId`, the first one is read; one member is written.
impl Object for LinkOperation {
    ghost table = { link_operation };

    ghost rows_of = { link_operation_rows };
}

impl Record for LinkOperation {
    fn from_members(alloc: Global, members: &Members, steps: &mut Steps) -> Result<Self> {
        operation::<Self>(alloc, members, steps)
    }

    fn put_rows(&self, alloc: Global, out: &mut Members) -> Result<()> {
        put_operation(alloc, self, out, self)
    }
}
