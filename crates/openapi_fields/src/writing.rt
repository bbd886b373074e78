//! Members that are put one after another, by what was written of their values.
ghost use Rattle.std.specs.Prelude.{◌≡◌, List, [], ◌++◌, ◌∷◌, None, false, OnOk, IfErr};
ghost use Rattle.openapi_map.specs.Entries.{get};
ghost use Rattle.openapi_node.specs.Fault.{IsMemory};
ghost use Rattle.openapi_tables.specs.ByRow.{is_named};
ghost use Rattle.openapi_tables.specs.Form.{Form, fields, forms_of};
ghost use Rattle.openapi_tables.specs.Kind as kinds;
ghost use Rattle.openapi_tables.specs.Kind.{Kind, Mode, TableName};
ghost use Rattle.openapi_tables.specs.Members.{plain};
ghost use Rattle.openapi_tables.specs.Print.{is_silent};
ghost use Rattle.openapi_tables.specs.Slots.{before, slots, slots_lost, through, IsWritten};
ghost use Rattle.openapi_tables.specs.Tables.{final_tables};
ghost use Rattle.openapi_fields.specs.Forms.{record_slots};
ghost use Rattle.openapi_fields.specs.Returned.{NotWritable, WrittenAs};
ghost use Rattle.openapi_fields.specs.Writing.{AreNew, MemberWrittenAs, HoldsDecided, HoldsWritten, PutAs, RowsWritten};

use crate::{HasSlots, Record, put};
use openapi_node::{Fault, Members, Node, OrderedMap, Result};
use std::alloc::Global;

/// Appends the node that a value was written as, at a name that is not in the map.
///
/// # Errors
///
/// Returns the fault of `written`, with the name before its location. An allocation failure has `Cause::Memory` and the
/// empty location.
pub fn put_written(
    alloc: Global,
    out: &mut Members,
    name: &str,
    written: Result<Node>,
) -> Result<()>
    requires { get name.now out.old ≡ None }
    ensures { (k : Kind) (f : Form) → WrittenAs k f written → PutAs k f name.now result out.old out.new }
{
    match written {
        Ok(node) => put(alloc, out, name, node),
        Err(fault) => Err(fault.at_name(alloc, name)),
    }
}

/// Returns the node that an existing value was written as.
///
/// # Errors
///
/// Returns the fault of `written`.
pub fn as_some(written: Result<Node>) -> Result<Option<Node>>
    ensures { (m : Mode) (k : Kind) (f : Form) → is_silent m f ≡ false → WrittenAs k f written
        → MemberWrittenAs m k f result }
{
    match written {
        Ok(node) => Ok(Some(node)),
        Err(fault) => Err(fault),
    }
}

/// Appends the member of a field, if one was written.
///
/// # Errors
///
/// Returns the fault of `written`, with the name before its location. An allocation failure has `Cause::Memory` and the
/// empty location.
pub fn put_row<R: HasSlots>(
    alloc: Global,
    owner: &R,
    out: &mut Members,
    name: &'static str,
    written: Result<Option<Node>>,
) -> Result<()>
    requires slot { HoldsWritten name.now (R.slots_of owner.now) written }
    requires before { IsWritten final_tables (before (is_named name.now) (R.slots_of owner.now)) out.old }
    ensures ok { OnOk result (IsWritten final_tables (through (is_named name.entry.now)
        (R.slots_of owner.now)) out.new) }
    ensures err { IfErr result (λ f. NotWritable f (slots_lost final_tables (R.slots_of owner.now))) }
{
    match written {
        Ok(node) => match node {
            Some(node) => put(alloc, out, name, node),
            None => Ok(()),
        },
        Err(fault) => Err(fault.at_name(alloc, name)),
    }
}

/// Appends the member of the one of two names that decides, with the node that its value was written as.
///
/// # Errors
///
/// Returns the fault of `written`, with the name before its location. An allocation failure has `Cause::Memory` and the
/// empty location.
pub fn put_decided<R: HasSlots>(
    alloc: Global,
    owner: &R,
    out: &mut Members,
    first: &'static str,
    name: &'static str,
    written: Result<Node>,
) -> Result<()>
    requires slot { HoldsDecided first.now name.now (R.slots_of owner.now) written }
    requires before { IsWritten final_tables (before (is_named first.now) (R.slots_of owner.now)) out.old }
    ensures ok { OnOk result (IsWritten final_tables (through (is_named first.entry.now)
        (R.slots_of owner.now)) out.new) }
    ensures err { IfErr result (λ f. NotWritable f (slots_lost final_tables (R.slots_of owner.now))) }
{
    put_written(alloc, out, name, written)
}

/// Returns the object of the members that the fields of a table were written as.
///
/// # Errors
///
/// Returns the fault of `written`.
pub fn whole_object(written: Result<Members>) -> Result<Node>
    ensures { (i : TableName) (fs : List Form) → RowsWritten (slots (final_tables i) fs) written
        → WrittenAs (kinds.by i) (fields plain (forms_of fs)) result }
{
    match written {
        Ok(members) => Ok(Node::object(members)),
        Err(fault) => Err(fault),
    }
}

/// Returns the only member of an object, with the node that its value was written as.
///
/// # Errors
///
/// Returns the fault of `written`, with the name before its location. An allocation failure has `Cause::Memory` and the
/// empty location.
pub fn only_row(alloc: Global, name: &str, written: Result<Node>) -> Result<Members>
    ensures { (k : Kind) (f : Form) → WrittenAs k f written
        → RowsWritten ((kinds.row name.now kinds.required k, f) ∷ []) result }
{
    let Ok(mut out) = OrderedMap::with_capacity(alloc, 1) else {
        return Err(Fault::memory(alloc));
    };
    match put_written(alloc, &mut out, name, written) {
        Ok(()) => Ok(out),
        Err(fault) => Err(fault),
    }
}

/// Returns the members that an object by a table is written as.
///
/// # Errors
///
/// Returns `Cause::NameNotWritable` at the location of a name or a status code that would not be read again. An
/// allocation failure has `Cause::Memory` and the empty location.
pub fn record_rows<T: Record>(alloc: Global, value: &T) -> Result<Members>
    ensures { RowsWritten (record_slots T.table T.rows_of value.now) result }
{
    let mut out = OrderedMap::new(alloc);
    match value.put_rows(alloc, &mut out) {
        Ok(()) => Ok(out),
        Err(fault) => Err(fault),
    }
}

/// Appends members, none of which has the name of an existing one.
///
/// # Errors
///
/// Returns `Cause::Memory` with the empty location if an allocation fails.
pub fn append(alloc: Global, out: &mut Members, more: Members) -> Result<()>
    requires { AreNew more out.old }
    ensures ok { OnOk result (out.new ≡ out.old ++ more) }
    ensures err { IfErr result IsMemory }
{
    if out.is_empty() {
        *out = more;
        return Ok(());
    }
    for (name, node) in more {
        match out.push_new(name, node) {
            Ok(()) => {}
            Err(_) => return Err(Fault::memory(alloc)),
        }
    }
    Ok(())
}
