//! Readers of schemas. The functions are mutually recursive, as schemas contain schemas: each call gets a smaller part
//! of the JSON value in the end. A value is opened once, and passed on as its view.
ghost use Rattle.std.specs.Prelude.{◌≡◌, ◌+◌, ◌*◌, ◌≤◌, Some, codes};
ghost use Rattle.openapi_node.specs.Tree.{list, items_of, members_of, size_of, items_size, members_size, object};
ghost use Rattle.openapi_node.specs.View.{shown};
ghost use Rattle.openapi_tables.specs.Kind as kinds;
ghost use Rattle.openapi_tables.specs.ByRow.{is_named, row_where, row_weight, rows_asked, rows_weight};
ghost use Rattle.openapi_tables.specs.Tables.{final_tables};
ghost use Rattle.openapi_fields.specs.Forms.{list_form, map_form, optional_form};
ghost use Rattle.openapi_fields.specs.Returned.{ReadAs, RowReadAs, Refuses, RisesBelow, RisesBy};
ghost use Rattle.openapi_fields.specs.Reading.{PartReadAs};
ghost use Rattle.openapi_schema.specs.KindNames.{kind_forms};
ghost use Rattle.openapi_schema.specs.Kinds.{entries_left};
ghost use Rattle.openapi_schema.specs.RawSlots.{optional_rows};
ghost use Rattle.openapi_schema.specs.Reading.{KindReadAs};
ghost use Rattle.openapi_schema.specs.Reading.{ref_form, inner_box_form, outer_box_form};
ghost use Rattle.openapi_schema.specs.SchemaForms.{additional_form};

use crate::boxes::in_additional;
use crate::joined::{item_with, kind_with};
use crate::kind_names::KindNames;
use crate::plain_names::read_plain_names;
use crate::presence::lent_entries;
use crate::schema::{AdditionalProperties, Schema, SchemaKind};
use openapi_fields::{
    as_member, from_joined, in_inner_box, in_outer_box, present_view, push, put_read,
    read_reference,
};
use openapi_node::{Cause, Expected, Fault, Members, Node, OrderedMap, Result, Steps, View};
use openapi_values::ReferenceOr;
use std::alloc::Global;

/// Reads a schema or a reference to one. An object with a string under `$ref` is a reference, whatever other members it
/// has.
///
/// # Errors
///
/// Returns a [`Fault`](openapi_node::Fault) with a rule that the value breaks and the location where it does. An
/// allocation failure has [`Cause::Memory`](openapi_node::Cause::Memory) and the empty location.
#[cycle(read)]
pub fn schema_ref_from_node(
    alloc: Global,
    node: &Node,
    steps: &mut Steps,
) -> Result<ReferenceOr<Schema>>
    ensures reads { ReadAs ref_form result (kinds.ref_to kinds.a_schema) node.now }
    ensures refuses { Refuses result (kinds.ref_to kinds.a_schema) node.now }
    ensures rises { steps.old + 1 ≤ steps.new }
    ensures count { steps.new ≤ steps.old + 3 * size_of node.now }
{
    let view = node.open(steps);
    read_schema_ref(alloc, &view, steps)
}

/// Reads a schema or a reference to one, from a value that was accessed already.
#[cycle(read)]
pub(crate) fn read_schema_ref(
    alloc: Global,
    view: &View<'_>,
    steps: &mut Steps,
) -> Result<ReferenceOr<Schema>>
    ensures reads { ReadAs ref_form result (kinds.ref_to kinds.a_schema) (shown view.now) }
    ensures count { RisesBelow steps.old steps.new (3 * size_of (shown view.now) + 1) }
{
    let View::Object(members) = view else {
        return Err(Fault::new(alloc, Cause::WrongKind(Expected::Object)));
    };
    if let Some(reference) = read_reference(alloc, view, steps)? {
        return Ok(ReferenceOr::Reference { reference });
    }
    item_with(alloc, members, read_kind(alloc, members, steps), steps)
}

/// Reads a schema in a box or a reference to one, from a value that was accessed already. It is a function of its own,
/// so that its callers have no stack space for a whole schema where none is read.
#[cycle(read)]
fn read_boxed_schema_ref(
    alloc: Global,
    view: &View<'_>,
    steps: &mut Steps,
) -> Result<ReferenceOr<Box<Schema>>>
    ensures reads { ReadAs inner_box_form result (kinds.ref_to kinds.a_schema) (shown view.now) }
    ensures count { RisesBelow steps.old steps.new (3 * size_of (shown view.now) + 1) }
{
    in_inner_box(alloc, read_schema_ref(alloc, view, steps))
}

/// Reads a schema or a reference to one into a box, from a value that was accessed already. It is a function of its own
/// for the same reason as [`read_boxed_schema_ref`].
#[cycle(read)]
fn read_boxed_ref(
    alloc: Global,
    view: &View<'_>,
    steps: &mut Steps,
) -> Result<Box<ReferenceOr<Schema>>>
    ensures reads { ReadAs outer_box_form result (kinds.ref_to kinds.a_schema) (shown view.now) }
    ensures count { RisesBelow steps.old steps.new (3 * size_of (shown view.now) + 1) }
{
    in_outer_box(alloc, read_schema_ref(alloc, view, steps))
}

/// Reads the kind of a schema among the members of an object.
#[cycle(read)]
pub(crate) fn read_kind(alloc: Global, members: &Members, steps: &mut Steps) -> Result<SchemaKind>
    ensures reads { KindReadAs result (members_of members.now) }
    ensures count { RisesBy steps.old steps.new (3 * rows_weight optional_rows (members_of members.now)) }
{
    kind_with(alloc, read_kind_names(alloc, members, steps), steps)
}

/// Reads the values under the kind names. The accesses that are left suffice for the entries of the enumeration.
#[cycle(read)]
#[tactic(auto, using(crate::proofs::NameRows::names_weight), unfolding(openapi_tables::specs::Members::checked_rows, openapi_tables::specs::Tables::any_rows))]
#[inline(never)]
fn read_kind_names<'a>(
    alloc: Global,
    members: &'a Members,
    steps: &mut Steps,
) -> Result<KindNames<'a>>
    ensures reads { PartReadAs kind_forms result kinds.a_schema_kind optional_rows (members_of members.now) }
    ensures rises { steps.old ≤ steps.new }
    ensures left { steps.new + 2 * entries_left result ≤ steps.old
        + 3 * rows_weight optional_rows (members_of members.now) }
{
    from_joined!(KindNames {
        not: read_outer_box(alloc, members, "not", steps),
        items: read_inner_box(alloc, members, "items", steps),
        one_of: read_listed(alloc, members, "oneOf", steps),
        all_of: read_listed(alloc, members, "allOf", steps),
        any_of: read_listed(alloc, members, "anyOf", steps),
        additional_properties: read_additional(alloc, members, steps),
        properties: read_properties(alloc, members, steps),
        enumeration: lent_entries(alloc, members, steps),
        plain: read_plain_names(alloc, members, steps),
    })
}

/// Reads a reference or a schema in a box at a name, unless it is missing or null.
#[cycle(read)]
fn read_inner_box(
    alloc: Global,
    members: &Members,
    name: &'static str,
    steps: &mut Steps,
) -> Result<Option<ReferenceOr<Box<Schema>>>>
    requires row { row_where (is_named name.now) (rows_asked final_tables kinds.a_schema_kind) ≡ Some
        (kinds.row name.now kinds.optional (kinds.ref_to kinds.a_schema)) }
    ensures reads { RowReadAs (optional_form inner_box_form) result kinds.a_schema_kind
        (kinds.row name.entry.now kinds.optional (kinds.ref_to kinds.a_schema)) (members_of members.now) }
    ensures count { RisesBy steps.old steps.new
        (3 * row_weight (kinds.row name.entry.now kinds.optional (kinds.ref_to kinds.a_schema)) (members_of members.now)) }
{
    match present_view(members, name, steps) {
        None => Ok(None),
        Some(view) => as_member(alloc, name, read_boxed_schema_ref(alloc, &view, steps)),
    }
}

/// Reads a schema or a reference in a box at a name, unless it is missing or null.
#[cycle(read)]
fn read_outer_box(
    alloc: Global,
    members: &Members,
    name: &'static str,
    steps: &mut Steps,
) -> Result<Option<Box<ReferenceOr<Schema>>>>
    requires row { row_where (is_named name.now) (rows_asked final_tables kinds.a_schema_kind) ≡ Some
        (kinds.row name.now kinds.optional (kinds.ref_to kinds.a_schema)) }
    ensures reads { RowReadAs (optional_form outer_box_form) result kinds.a_schema_kind
        (kinds.row name.entry.now kinds.optional (kinds.ref_to kinds.a_schema)) (members_of members.now) }
    ensures count { RisesBy steps.old steps.new
        (3 * row_weight (kinds.row name.entry.now kinds.optional (kinds.ref_to kinds.a_schema)) (members_of members.now)) }
{
    match present_view(members, name, steps) {
        None => Ok(None),
        Some(view) => as_member(alloc, name, read_boxed_ref(alloc, &view, steps)),
    }
}

/// Reads a list of schemas and references at a name, unless it is missing or null.
#[cycle(read)]
fn read_listed(
    alloc: Global,
    members: &Members,
    name: &'static str,
    steps: &mut Steps,
) -> Result<Option<Vec<ReferenceOr<Schema>>>>
    requires row { row_where (is_named name.now) (rows_asked final_tables kinds.a_schema_kind) ≡ Some
        (kinds.row name.now kinds.optional (kinds.list_of (kinds.ref_to kinds.a_schema))) }
    ensures reads { RowReadAs (optional_form (list_form ref_form)) result kinds.a_schema_kind
        (kinds.row name.entry.now kinds.optional (kinds.list_of (kinds.ref_to kinds.a_schema)))
        (members_of members.now) }
    ensures count { RisesBy steps.old steps.new
        (3 * row_weight (kinds.row name.entry.now kinds.optional (kinds.list_of (kinds.ref_to kinds.a_schema))) (members_of members.now)) }
{
    match present_view(members, name, steps) {
        None => Ok(None),
        Some(view) => as_member(alloc, name, read_refs_in(alloc, &view, steps)),
    }
}

/// Reads the schemas and references of a list.
#[cycle(read)]
fn read_refs_in(
    alloc: Global,
    view: &View<'_>,
    steps: &mut Steps,
) -> Result<Vec<ReferenceOr<Schema>>>
    ensures reads { ReadAs (list_form ref_form) result (kinds.list_of (kinds.ref_to kinds.a_schema)) (shown view.now) }
    ensures count { RisesBelow steps.old steps.new (3 * size_of (shown view.now)) }
{
    match view {
        View::List(nodes) => read_refs(alloc, nodes, steps),
        _ => Err(Fault::new(alloc, Cause::WrongKind(Expected::List))),
    }
}

/// Reads the schemas and references among the elements of a list, in order.
#[cycle(read)]
fn read_refs(alloc: Global, nodes: &[Node], steps: &mut Steps) -> Result<Vec<ReferenceOr<Schema>>>
    ensures reads { ReadAs (list_form ref_form) result (kinds.list_of (kinds.ref_to kinds.a_schema))
        (list (items_of nodes.now)) }
    ensures count { RisesBy steps.old steps.new (3 * items_size (items_of nodes.now)) }
{
    let Ok(mut values) = Vec::with_capacity(alloc, nodes.len()) else {
        return Err(Fault::memory(alloc));
    };
    for (i, node) in nodes.iter().enumerate() {
        match schema_ref_from_node(alloc, node, steps) {
            Ok(value) => push(alloc, &mut values, value)?,
            Err(fault) => return Err(fault.at_index(alloc, i)),
        }
    }
    Ok(values)
}

/// Reads the schemas and references of `properties`, unless it is missing or null.
#[cycle(read)]
fn read_properties(
    alloc: Global,
    members: &Members,
    steps: &mut Steps,
) -> Result<Option<OrderedMap<ReferenceOr<Box<Schema>>>>, Fault>
    ensures reads { RowReadAs (optional_form (map_form inner_box_form)) result kinds.a_schema_kind
        (kinds.row (codes "properties") kinds.optional (kinds.map_of (kinds.ref_to kinds.a_schema)))
        (members_of members.now) }
    ensures count { RisesBy steps.old steps.new
        (3 * row_weight (kinds.row (codes "properties") kinds.optional (kinds.map_of (kinds.ref_to kinds.a_schema))) (members_of members.now)) }
{
    match present_view(members, "properties", steps) {
        None => Ok(None),
        Some(view) => as_member(alloc, "properties", read_properties_in(alloc, &view, steps)),
    }
}

/// Reads the schemas and references of a map.
#[cycle(read)]
fn read_properties_in(
    alloc: Global,
    view: &View<'_>,
    steps: &mut Steps,
) -> Result<OrderedMap<ReferenceOr<Box<Schema>>>>
    ensures reads { ReadAs (map_form inner_box_form) result (kinds.map_of (kinds.ref_to kinds.a_schema))
        (shown view.now) }
    ensures count { RisesBelow steps.old steps.new (3 * size_of (shown view.now)) }
{
    match view {
        View::Object(members) => read_named(alloc, members, steps),
        _ => Err(Fault::new(alloc, Cause::WrongKind(Expected::Object))),
    }
}

/// Reads the schemas and references among the members of an object, in order.
#[cycle(read)]
fn read_named(
    alloc: Global,
    members: &Members,
    steps: &mut Steps,
) -> Result<OrderedMap<ReferenceOr<Box<Schema>>>>
    ensures reads { ReadAs (map_form inner_box_form) result (kinds.map_of (kinds.ref_to kinds.a_schema))
        (object (members_of members.now)) }
    ensures count { RisesBy steps.old steps.new (3 * members_size (members_of members.now)) }
{
    let Ok(mut values) = OrderedMap::with_capacity(alloc, members.len()) else {
        return Err(Fault::memory(alloc));
    };
    for i in 0..members.len() {
        let (name, node) = members.entry_at(i);
        let entry = node.open(steps);
        match put_read(
            alloc,
            &mut values,
            name,
            read_boxed_schema_ref(alloc, &entry, steps),
        ) {
            Ok(()) => {}
            Err(fault) => return Err(fault),
        }
    }
    Ok(values)
}

/// Reads the value of `additionalProperties`, or returns `None` if it is missing or null.
#[cycle(read)]
fn read_additional(
    alloc: Global,
    members: &Members,
    steps: &mut Steps,
) -> Result<Option<AdditionalProperties>>
    ensures reads { RowReadAs (optional_form additional_form) result kinds.a_schema_kind
        (kinds.row (codes "additionalProperties") kinds.optional kinds.flag_or_schema) (members_of members.now) }
    ensures count { RisesBy steps.old steps.new
        (3 * row_weight (kinds.row (codes "additionalProperties") kinds.optional kinds.flag_or_schema) (members_of members.now)) }
{
    match present_view(members, "additionalProperties", steps) {
        None => Ok(None),
        Some(view) => as_member(
            alloc,
            "additionalProperties",
            read_additional_in(alloc, &view, steps),
        ),
    }
}

/// Reads a flag, or a schema or a reference to one.
#[cycle(read)]
pub(crate) fn read_additional_in(
    alloc: Global,
    view: &View<'_>,
    steps: &mut Steps,
) -> Result<AdditionalProperties>
    ensures reads { ReadAs additional_form result kinds.flag_or_schema (shown view.now) }
    ensures count { RisesBelow steps.old steps.new (3 * size_of (shown view.now) + 1) }
{
    match view {
        View::Flag(allowed) => Ok(AdditionalProperties::Any(*allowed)),
        View::Object(_) => in_additional(read_boxed_ref(alloc, view, steps)),
        _ => Err(Fault::new(alloc, Cause::WrongKind(Expected::FlagOrObject))),
    }
}
