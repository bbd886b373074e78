#![tactic(auto, unfolding(openapi_tables::specs::Tables::final_tables, openapi_tables::specs::Tables::tables_with))]
//! How operations, path items and callbacks are written. The functions are mutually recursive, as those that read
//! them do: each gets a smaller part of the value in the end.
ghost use Rattle.std.specs.Prelude.{codes, IfErr, IfOk, OnOk};
ghost use Rattle.openapi_tables.specs.ByRow.{is_class, is_named};
ghost use Rattle.openapi_tables.specs.Kind as kinds;
ghost use Rattle.openapi_tables.specs.Slots.{before, through, slots_lost, IsWritten};
ghost use Rattle.openapi_tables.specs.Tables.{callback_ref, final_tables};
ghost use Rattle.openapi_fields.specs.Forms.{map_form, optional_form};
ghost use Rattle.openapi_fields.specs.Returned.{NotWritable, WrittenAs};
ghost use Rattle.openapi_values.specs.Reference.{reference_form};
ghost use Rattle.openapi_fields.specs.Writing.{MemberWrittenAs, RowsWritten};
ghost use Rattle.openapi_documents.specs.Fields.{callback_slots, operation_slots, path_item_slots};
ghost use Rattle.openapi_documents.specs.OperationForms.{callback_form, operation_form, path_item_form};

use crate::callback::Callback;
use crate::operation::Operation;
use crate::parts::{put_before_callbacks, put_behind_callbacks};
use crate::path_item::PathItem;
use openapi_fields::{
    Extensions, Names, as_some, put_extensions, put_row, put_written, whole_object,
    write_reference, write_rows,
};
use openapi_node::{Cause, Fault, Members, Node, OrderedMap, Result};
use openapi_values::ReferenceOr;
use std::alloc::Global;

/// Writes a path item.
#[cycle(write)]
pub(crate) fn write_path_item(alloc: Global, path_item: &PathItem) -> Result<Node>
    ensures { WrittenAs (kinds.by kinds.path_item) (path_item_form path_item.now) result }
{
    whole_object(path_item_members(alloc, path_item))
}

/// Returns the members that a path item is written as.
#[cycle(write)]
fn path_item_members(alloc: Global, path_item: &PathItem) -> Result<Members>
    ensures { RowsWritten (path_item_slots path_item.now) result }
{
    let mut out = OrderedMap::new(alloc);
    write_rows!(alloc, path_item, &mut out => {
        summary: put_optional("summary"),
        description: put_optional("description"),
    });
    put_methods(alloc, path_item, &mut out)?;
    write_rows!(alloc, path_item, &mut out => {
        servers: put_implied("servers"),
        parameters: put_implied("parameters"),
        ..extensions
    })?;
    Ok(out)
}

/// Writes the operation under each method, the last one behind the comma.
macro_rules! put_each {
    ($alloc:ident, $path_item:ident, $out:ident => $($method:ident)*, $last:ident) => {{
        $(
            let $method = write_method($alloc, &$path_item.$method);
            put_row($alloc, $path_item, $out, stringify!($method), $method)?;
        )*
        let $last = write_method($alloc, &$path_item.$last);
        put_row($alloc, $path_item, $out, stringify!($last), $last)
    }};
}

/// Writes the operations of a path item, behind its texts.
#[cycle(write)]
fn put_methods(alloc: Global, path_item: &PathItem, out: &mut Members) -> Result<()>
    requires { IsWritten final_tables (before (is_named (codes "get")) (path_item_slots path_item.now)) out.old }
    ensures ok { OnOk result (IsWritten final_tables (through (is_named (codes "trace"))
        (path_item_slots path_item.now)) out.new) }
    ensures err { IfErr result (λ f. NotWritable f (slots_lost final_tables (path_item_slots path_item.now))) }
{
    put_each!(alloc, path_item, out => get put post delete options head patch, trace)
}

/// Writes the operation under a method, and nothing if there is none.
#[cycle(write)]
fn write_method(alloc: Global, value: &Option<Operation>) -> Result<Option<Node>>
    ensures { MemberWrittenAs kinds.optional (kinds.by kinds.operation) (optional_form operation_form value.now) result }
{
    match value {
        None => Ok(None),
        Some(operation) => as_some(write_operation(alloc, operation)),
    }
}

/// Writes an operation.
#[cycle(write)]
pub(crate) fn write_operation(alloc: Global, operation: &Operation) -> Result<Node>
    ensures { WrittenAs (kinds.by kinds.operation) (operation_form operation.now) result }
{
    whole_object(operation_members(alloc, operation))
}

/// Returns the members that an operation is written as.
#[cycle(write)]
fn operation_members(alloc: Global, operation: &Operation) -> Result<Members>
    ensures { RowsWritten (operation_slots operation.now) result }
{
    let mut out = OrderedMap::new(alloc);
    put_before_callbacks(alloc, operation, &mut out)?;
    put_row(
        alloc,
        operation,
        &mut out,
        "callbacks",
        write_callbacks(alloc, &operation.callbacks),
    )?;
    put_behind_callbacks(alloc, operation, &mut out)?;
    Ok(out)
}

/// Writes callbacks and references by names, and nothing if there are none.
#[cycle(write)]
fn write_callbacks(
    alloc: Global,
    values: &OrderedMap<ReferenceOr<Callback>>,
) -> Result<Option<Node>>
    ensures { MemberWrittenAs kinds.listed (kinds.map_of callback_ref) (map_form (reference_form callback_form) values.now)
        result }
{
    if values.is_empty() {
        return Ok(None);
    }
    let mut out = OrderedMap::new(alloc);
    for i in 0..values.len() {
        let (name, value) = values.entry_at(i);
        match put_written(alloc, &mut out, name, write_callback_ref(alloc, value)) {
            Ok(()) => {}
            Err(fault) => return Err(fault),
        }
    }
    Ok(Some(Node::object(out)))
}

/// Writes a callback or a reference to one.
#[cycle(write)]
fn write_callback_ref(alloc: Global, value: &ReferenceOr<Callback>) -> Result<Node>
    ensures { WrittenAs callback_ref (reference_form callback_form value.now) result }
{
    match value {
        ReferenceOr::Reference { reference } => write_reference(alloc, reference.as_str()),
        ReferenceOr::Item(callback) => write_callback(alloc, callback),
    }
}

/// Writes a callback.
#[cycle(write)]
pub(crate) fn write_callback(alloc: Global, callback: &Callback) -> Result<Node>
    ensures { WrittenAs (kinds.by kinds.callback_object) (callback_form callback.now) result }
{
    whole_object(callback_members(alloc, callback))
}

/// Returns the members that a callback is written as.
#[cycle(write)]
fn callback_members(alloc: Global, callback: &Callback) -> Result<Members>
    ensures { RowsWritten (callback_slots callback.now) result }
{
    let mut out = request_members(alloc, callback)?;
    put_extensions(alloc, callback, &mut out, &callback.extensions)?;
    Ok(out)
}

/// Returns the members that the path items of a callback are written as. A name that begins with `x-` is an error, too.
#[cycle(write)]
fn request_members(alloc: Global, callback: &Callback) -> Result<Members>
    ensures ok { IfOk result (λ out. IsWritten final_tables (through (is_class kinds.callback_names)
        (callback_slots callback.now)) out) }
    ensures err { IfErr result (λ f. NotWritable f (slots_lost final_tables (callback_slots callback.now))) }
{
    let mut out = OrderedMap::new(alloc);
    for i in 0..callback.paths.len() {
        let (name, value) = callback.paths.entry_at(i);
        if Extensions::contains(name) {
            return Err(Fault::new(alloc, Cause::NameNotWritable).at_name(alloc, name));
        }
        match put_written(alloc, &mut out, name, write_path_item(alloc, value)) {
            Ok(()) => {}
            Err(fault) => return Err(fault),
        }
    }
    Ok(out)
}
