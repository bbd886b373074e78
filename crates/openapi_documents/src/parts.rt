#![tactic(auto, unfolding(openapi_tables::specs::Tables::final_tables, openapi_tables::specs::Tables::tables_with))]
//! What is read of path items, and written of operations, except for what leads back to path items.
ghost use Rattle.std.specs.Prelude.{◌≡◌, ◌+◌, ◌*◌, ◌≤◌, [], codes, OnOk, IfErr};
ghost use Rattle.openapi_node.specs.Tree.{members_of};
ghost use Rattle.openapi_tables.specs.ByRow.{AreRows, is_named, rows_weight};
ghost use Rattle.openapi_tables.specs.Kind as kinds;
ghost use Rattle.openapi_tables.specs.Slots.{before, through, slots_lost, IsWritten};
ghost use Rattle.openapi_tables.specs.Tables.{final_tables};
ghost use Rattle.openapi_fields.specs.Returned.{RowsReadAs, NotWritable, RisesBy};
ghost use Rattle.openapi_documents.specs.Fields.{operation_slots, path_item_fields};
ghost use Rattle.openapi_documents.specs.Parts.{beside_rows, method_forms, method_rows};

use crate::methods::Methods;
use crate::operation::Operation;
use crate::path_item::PathItem;
use openapi_fields::{extensions, joined, nested, optional, or_implied, put_required, write_rows};
use openapi_node::{Members, Result, Steps};
use std::alloc::Global;

/// Reads a path item whose operations were read.
#[inline(never)]
pub(crate) fn path_item_with(
    alloc: Global,
    members: &Members,
    methods: Methods<Operation>,
    steps: &mut Steps,
) -> Result<PathItem>
    requires { AreRows final_tables method_rows (method_forms methods) (members_of members.now) }
    ensures reads { RowsReadAs path_item_fields result (kinds.by kinds.path_item) (members_of members.now) }
    ensures count { RisesBy steps.old steps.new (3 * rows_weight beside_rows (members_of members.now)) }
{
    let beside = joined!(
        optional::<PathItem, _>(alloc, members, "summary", steps),
        optional::<PathItem, _>(alloc, members, "description", steps),
        or_implied::<PathItem, _>(alloc, members, "servers", steps),
        or_implied::<PathItem, _>(alloc, members, "parameters", steps),
        extensions::<PathItem>(alloc, members, steps)
    );
    match beside {
        Ok(beside) => {
            let nested!(summary, description, servers, parameters, extensions) = beside;
            Ok(PathItem {
                summary,
                description,
                get: methods.get,
                put: methods.put,
                post: methods.post,
                delete: methods.delete,
                options: methods.options,
                head: methods.head,
                patch: methods.patch,
                trace: methods.trace,
                servers,
                parameters,
                extensions,
            })
        }
        Err(fault) => {
            drop(methods);
            Err(fault)
        }
    }
}

/// Writes the fields before the callbacks of an operation, into an object that has no members yet.
pub(crate) fn put_before_callbacks(
    alloc: Global,
    operation: &Operation,
    out: &mut Members,
) -> Result<()>
    requires { IsWritten final_tables [] out.old }
    ensures ok { OnOk result (IsWritten final_tables (before (is_named (codes "callbacks"))
        (operation_slots operation.now)) out.new) }
    ensures err { IfErr result (λ f. NotWritable f (slots_lost final_tables (operation_slots operation.now))) }
{
    write_rows!(alloc, operation, out => {
        tags: put_implied("tags"),
        summary: put_optional("summary"),
        description: put_optional("description"),
        external_docs: put_optional("externalDocs"),
        operation_id: put_optional("operationId"),
        parameters: put_implied("parameters"),
        request_body: put_optional("requestBody"),
    });
    put_required(alloc, operation, out, "responses", &operation.responses)
}

/// Writes the fields behind the callbacks of an operation.
pub(crate) fn put_behind_callbacks(
    alloc: Global,
    operation: &Operation,
    out: &mut Members,
) -> Result<()>
    requires { IsWritten final_tables (through (is_named (codes "callbacks")) (operation_slots operation.now)) out.old }
    ensures ok { OnOk result (IsWritten final_tables (operation_slots operation.now) out.new) }
    ensures err { IfErr result (λ f. NotWritable f (slots_lost final_tables (operation_slots operation.now))) }
{
    write_rows!(alloc, operation, out => {
        deprecated: put_implied("deprecated"),
        security: put_optional("security"),
        servers: put_implied("servers"),
        ..extensions
    })
}
