//! The rows of a table, written among the members of an object.
ghost use Rattle.std.specs.Prelude.{◌≡◌, [], ◌++◌, ◌∷◌, OnOk, IfErr, Some, None};
ghost use Rattle.openapi_map.specs.Entries.{get};
ghost use Rattle.openapi_node.specs.Fault.{IsMemory};
ghost use Rattle.openapi_node.specs.Place.{named};
ghost use Rattle.openapi_tables.specs.ByRow.{is_named};
ghost use Rattle.openapi_tables.specs.Kind as kinds;
ghost use Rattle.openapi_tables.specs.Print.{print};
ghost use Rattle.openapi_tables.specs.Slots.{slot_where, before, through, slots_lost, IsWritten};
ghost use Rattle.openapi_tables.specs.Tables.{final_tables};
ghost use Rattle.openapi_tables.specs.Unwritable.{unwritable};
ghost use Rattle.openapi_fields.specs.Forms.{optional_form};
ghost use Rattle.openapi_fields.specs.Returned.{NotWritable, NotWritableBelow};

use crate::object::HasSlots;
use crate::to_node::ToNode;
use openapi_node::{Fault, Members, Node, OrderedMap, Result};
use std::alloc::Global;

/// Appends a value at a name that is not in the map.
///
/// # Errors
///
/// Returns `Cause::Memory` with the empty location if an allocation fails.
pub fn put<V: Drop>(alloc: Global, out: &mut OrderedMap<V>, name: &str, value: V) -> Result<()>
    requires { get name.now out.old ≡ None }
    ensures ok { OnOk result (out.new ≡ out.old ++ (name.now, value) ∷ []) }
    ensures err { IfErr result IsMemory }
{
    let Ok(name) = String::from_str(alloc, name) else {
        return Err(Fault::memory(alloc));
    };
    match out.push_new(name, value) {
        Ok(()) => Ok(()),
        Err(_) => Err(Fault::memory(alloc)),
    }
}

/// Appends the node that a value is written as, at a name that is not in the map.
///
/// # Errors
///
/// Returns `Cause::NameNotWritable` at the location of a name or a status code in the value that would not be read
/// again. An allocation failure has `Cause::Memory` and the empty location.
pub fn put_value<T: ToNode>(alloc: Global, out: &mut Members, name: &str, value: &T) -> Result<()>
    requires { get name.now out.old ≡ None }
    ensures ok { OnOk result (out.new ≡ out.old ++ (name.now, print final_tables T.kind (T.form_of value.now)) ∷ []) }
    ensures whole { OnOk result (unwritable final_tables T.kind (T.form_of value.now) ≡ []) }
    ensures err { IfErr result (λ f. NotWritableBelow (named name.now) f (unwritable final_tables T.kind
        (T.form_of value.now))) }
{
    match value.to_node(alloc) {
        Ok(node) => put(alloc, out, name, node),
        Err(fault) => Err(fault.at_name(alloc, name)),
    }
}

/// Writes a member that always exists.
///
/// # Errors
///
/// Returns `Cause::NameNotWritable` at the location of a name or a status code in the value that would not be read
/// again. An allocation failure has `Cause::Memory` and the empty location.
pub fn put_required<R: HasSlots, T: ToNode>(
    alloc: Global,
    owner: &R,
    out: &mut Members,
    name: &'static str,
    value: &T,
) -> Result<()>
    requires slot { slot_where (is_named name.now) (R.slots_of owner.now) ≡ Some
        (kinds.row name.now kinds.required T.kind, T.form_of value.now) }
    requires before { IsWritten final_tables (before (is_named name.now) (R.slots_of owner.now)) out.old }
    ensures ok { OnOk result (IsWritten final_tables (through (is_named name.entry.now)
        (R.slots_of owner.now)) out.new) }
    ensures err { IfErr result (λ f. NotWritable f (slots_lost final_tables (R.slots_of owner.now))) }
{
    put_value(alloc, out, name, value)
}

/// Writes a member that is left out if there is no value.
///
/// # Errors
///
/// Returns `Cause::NameNotWritable` at the location of a name or a status code in the value that would not be read
/// again. An allocation failure has `Cause::Memory` and the empty location.
pub fn put_optional<R: HasSlots, T: ToNode>(
    alloc: Global,
    owner: &R,
    out: &mut Members,
    name: &'static str,
    value: &Option<T>,
) -> Result<()>
    requires slot { slot_where (is_named name.now) (R.slots_of owner.now) ≡ Some
        (kinds.row name.now kinds.optional T.kind, optional_form T.form_of value.now) }
    requires before { IsWritten final_tables (before (is_named name.now) (R.slots_of owner.now)) out.old }
    ensures ok { OnOk result (IsWritten final_tables (through (is_named name.entry.now)
        (R.slots_of owner.now)) out.new) }
    ensures err { IfErr result (λ f. NotWritable f (slots_lost final_tables (R.slots_of owner.now))) }
{
    match value {
        None => Ok(()),
        Some(value) => put_value(alloc, out, name, value),
    }
}

/// Writes a member that is null if there is no value.
///
/// # Errors
///
/// Returns `Cause::NameNotWritable` at the location of a name or a status code in the value that would not be read
/// again. An allocation failure has `Cause::Memory` and the empty location.
pub fn put_nullable<R: HasSlots, T: ToNode>(
    alloc: Global,
    owner: &R,
    out: &mut Members,
    name: &'static str,
    value: &Option<T>,
) -> Result<()>
    requires slot { slot_where (is_named name.now) (R.slots_of owner.now) ≡ Some
        (kinds.row name.now kinds.nullable T.kind, optional_form T.form_of value.now) }
    requires before { IsWritten final_tables (before (is_named name.now) (R.slots_of owner.now)) out.old }
    ensures ok { OnOk result (IsWritten final_tables (through (is_named name.entry.now)
        (R.slots_of owner.now)) out.new) }
    ensures err { IfErr result (λ f. NotWritable f (slots_lost final_tables (R.slots_of owner.now))) }
{
    match value {
        None => put(alloc, out, name, Node::null()),
        Some(value) => put_value(alloc, out, name, value),
    }
}
