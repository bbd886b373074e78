#![tactic(auto, unfolding(openapi_tables::specs::Tables::final_tables, openapi_tables::specs::Tables::tables_with))]
//! How operations, path items and callbacks are read.
//!
//! The functions are mutually recursive: a path item has operations, an operation may have callbacks, and these have
//! path items. The node gets smaller with each round. A value that was accessed is passed on as its view.
ghost use Rattle.std.specs.Prelude.{◌≡◌, ◌+◌, ◌*◌, ◌≤◌, None, Some, codes};
ghost use Rattle.openapi_node.specs.Tree.{members_of, members_size, object, size_of};
ghost use Rattle.openapi_node.specs.View.{shown};
ghost use Rattle.openapi_tables.specs.ByRow.{is_named, row_where, row_weight, rows_asked, rows_weight};
ghost use Rattle.openapi_tables.specs.Kind as kinds;
ghost use Rattle.openapi_tables.specs.Tables.{callback_ref, final_tables};
ghost use Rattle.openapi_fields.specs.Forms.{map_form, optional_form};
ghost use Rattle.openapi_fields.specs.Returned.{ReadAs, RowReadAs, RisesBelow, RisesBy};
ghost use Rattle.openapi_values.specs.Reference.{reference_form};
ghost use Rattle.openapi_fields.specs.Reading.{PartReadAs};
ghost use Rattle.openapi_documents.specs.OperationForms.{callback_form, operation_form, path_item_form};
ghost use Rattle.openapi_documents.specs.Parts.{method_forms, method_rows};
ghost use Rattle.openapi_documents.specs.Present.{NoneStands};

use crate::callback::Callback;
use crate::methods::Methods;
use crate::operation::Operation;
use crate::parts::path_item_with;
use crate::path_item::PathItem;
use openapi_fields::{
    Extensions, Names, as_item, as_member, at_name, extensions, from_joined, members_at,
    members_shown, optional, or_implied, present_view, put_read, read_reference, required,
};
use openapi_node::{Members, Node, OrderedMap, Result, Steps, View};
use openapi_values::ReferenceOr;
use std::alloc::Global;

/// Reads a path item, its operations first.
#[cycle(read)]
pub(crate) fn read_path_item(alloc: Global, view: &View<'_>, steps: &mut Steps) -> Result<PathItem>
    ensures reads { ReadAs path_item_form result (kinds.by kinds.path_item) (shown view.now) }
    ensures count { RisesBelow steps.old steps.new (3 * size_of (shown view.now)) }
{
    let members = match members_shown(alloc, view) {
        Ok(members) => members,
        Err(fault) => return Err(fault),
    };
    let mut methods = Methods::none();
    match read_methods(alloc, members, &mut methods, steps) {
        Ok(()) => path_item_with(alloc, members, methods, steps),
        Err(fault) => {
            drop(methods);
            Err(fault)
        }
    }
}

/// Reads the operation under each method, the last one behind the comma.
macro_rules! read_each {
    ($alloc:ident, $members:ident, $methods:ident, $steps:ident => $($method:ident)*, $last:ident) => {{
        $(read_method($alloc, $members, stringify!($method), &mut $methods.$method, $steps)?;)*
        read_method($alloc, $members, stringify!($last), &mut $methods.$last, $steps)
    }};
}

/// Reads the operations of a path item to where they are kept, since they are large.
#[cycle(read)]
fn read_methods(
    alloc: Global,
    members: &Members,
    methods: &mut Methods<Operation>,
    steps: &mut Steps,
) -> Result<()>
    requires { NoneStands methods.old }
    ensures reads { PartReadAs (λ done. method_forms methods.new) result (kinds.by kinds.path_item) method_rows
        (members_of members.now) }
    ensures count { RisesBy steps.old steps.new (3 * rows_weight method_rows (members_of members.now)) }
{
    read_each!(alloc, members, methods, steps => get put post delete options head patch, trace)
}

/// Reads the operation of a method to where it is kept, unless it is missing or null.
#[cycle(read)]
fn read_method(
    alloc: Global,
    members: &Members,
    method: &'static str,
    place: &mut Option<Operation>,
    steps: &mut Steps,
) -> Result<()>
    requires row { row_where (is_named method.now) (rows_asked final_tables (kinds.by kinds.path_item)) ≡ Some
        (kinds.row method.now kinds.optional (kinds.by kinds.operation)) }
    requires free { place.old ≡ None }
    ensures reads { RowReadAs (λ done. optional_form operation_form place.new) result (kinds.by kinds.path_item)
        (kinds.row method.entry.now kinds.optional (kinds.by kinds.operation)) (members_of members.now) }
    ensures count { RisesBy steps.old steps.new
        (3 * row_weight (kinds.row method.entry.now kinds.optional (kinds.by kinds.operation)) (members_of members.now)) }
{
    match present_view(members, method, steps) {
        None => Ok(()),
        Some(view) => match as_member(alloc, method, read_operation(alloc, &view, steps)) {
            Ok(operation) => {
                *place = operation;
                Ok(())
            }
            Err(fault) => Err(fault),
        },
    }
}

/// Reads an operation.
#[cycle(read)]
pub(crate) fn read_operation(alloc: Global, view: &View<'_>, steps: &mut Steps) -> Result<Operation>
    ensures reads { ReadAs operation_form result (kinds.by kinds.operation) (shown view.now) }
    ensures count { RisesBelow steps.old steps.new (3 * size_of (shown view.now)) }
{
    match members_shown(alloc, view) {
        Ok(members) => from_joined!(Operation {
            deprecated: or_implied::<Operation, _>(alloc, members, "deprecated", steps),
            tags: or_implied::<Operation, _>(alloc, members, "tags", steps),
            summary: optional::<Operation, _>(alloc, members, "summary", steps),
            description: optional::<Operation, _>(alloc, members, "description", steps),
            operation_id: optional::<Operation, _>(alloc, members, "operationId", steps),
            security: optional::<Operation, _>(alloc, members, "security", steps),
            servers: or_implied::<Operation, _>(alloc, members, "servers", steps),
            external_docs: optional::<Operation, _>(alloc, members, "externalDocs", steps),
            callbacks: read_callbacks(alloc, members, steps),
            extensions: extensions::<Operation>(alloc, members, steps),
            parameters: or_implied::<Operation, _>(alloc, members, "parameters", steps),
            request_body: optional::<Operation, _>(alloc, members, "requestBody", steps),
            responses: required::<Operation, _>(alloc, members, "responses", steps),
        }),
        Err(fault) => Err(fault),
    }
}

/// Reads the callbacks of an operation, by their names; there are none if `callbacks` is missing.
#[cycle(read)]
fn read_callbacks(
    alloc: Global,
    members: &Members,
    steps: &mut Steps,
) -> Result<OrderedMap<ReferenceOr<Callback>>>
    ensures reads { RowReadAs (map_form (reference_form callback_form)) result (kinds.by kinds.operation)
        (kinds.row (codes "callbacks") kinds.listed (kinds.map_of callback_ref)) (members_of members.now) }
    ensures count { RisesBy steps.old steps.new
        (3 * row_weight (kinds.row (codes "callbacks") kinds.listed (kinds.map_of callback_ref)) (members_of members.now)) }
{
    match members_at(alloc, members, "callbacks", steps) {
        Ok(None) => Ok(OrderedMap::new(alloc)),
        Ok(Some(entries)) => at_name(alloc, "callbacks", callbacks_of(alloc, entries, steps)),
        Err(fault) => Err(fault),
    }
}

/// Reads the callbacks and references among the members of an object, in order.
#[cycle(read)]
fn callbacks_of(
    alloc: Global,
    members: &Members,
    steps: &mut Steps,
) -> Result<OrderedMap<ReferenceOr<Callback>>>
    ensures reads { ReadAs (map_form (reference_form callback_form)) result (kinds.map_of callback_ref)
        (object (members_of members.now)) }
    ensures count { RisesBy steps.old steps.new (3 * members_size (members_of members.now)) }
{
    let mut values = OrderedMap::new(alloc);
    for i in 0..members.len() {
        let (name, node) = members.entry_at(i);
        let entry = node.open(steps);
        match put_read(
            alloc,
            &mut values,
            name,
            read_callback_ref(alloc, &entry, steps),
        ) {
            Ok(()) => {}
            Err(fault) => return Err(fault),
        }
    }
    Ok(values)
}

/// Reads a callback or a reference to one. An object with a text under `$ref` is a reference, whatever else it has.
#[cycle(read)]
fn read_callback_ref(
    alloc: Global,
    view: &View<'_>,
    steps: &mut Steps,
) -> Result<ReferenceOr<Callback>>
    ensures reads { ReadAs (reference_form callback_form) result callback_ref (shown view.now) }
    ensures count { RisesBelow steps.old steps.new (3 * size_of (shown view.now) + 1) }
{
    match read_reference(alloc, view, steps) {
        Ok(Some(reference)) => Ok(ReferenceOr::Reference { reference }),
        Ok(None) => as_item(read_callback(alloc, view, steps)),
        Err(fault) => Err(fault),
    }
}

/// Reads a callback.
#[cycle(read)]
pub(crate) fn read_callback(alloc: Global, view: &View<'_>, steps: &mut Steps) -> Result<Callback>
    ensures reads { ReadAs callback_form result (kinds.by kinds.callback_object) (shown view.now) }
    ensures count { RisesBelow steps.old steps.new (3 * size_of (shown view.now)) }
{
    match members_shown(alloc, view) {
        Ok(members) => from_joined!(Callback {
            paths: read_requests(alloc, members, steps),
            extensions: extensions::<Callback>(alloc, members, steps),
        }),
        Err(fault) => Err(fault),
    }
}

/// Reads the path items of a callback: the members whose names do not begin with `x-`, in order.
#[cycle(read)]
fn read_requests(
    alloc: Global,
    members: &Members,
    steps: &mut Steps,
) -> Result<OrderedMap<PathItem>>
    ensures reads { RowReadAs (map_form path_item_form) result (kinds.by kinds.callback_object)
        (kinds.class kinds.callback_names (kinds.by kinds.path_item)) (members_of members.now) }
    ensures count { RisesBy steps.old steps.new
        (3 * row_weight (kinds.class kinds.callback_names (kinds.by kinds.path_item)) (members_of members.now)) }
{
    let mut values = OrderedMap::new(alloc);
    for i in 0..members.len() {
        let (name, node) = members.entry_at(i);
        if Extensions::contains(name) {
            continue;
        }
        let entry = node.open(steps);
        match put_read(
            alloc,
            &mut values,
            name,
            read_path_item(alloc, &entry, steps),
        ) {
            Ok(()) => {}
            Err(fault) => return Err(fault),
        }
    }
    Ok(values)
}
