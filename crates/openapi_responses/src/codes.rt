//! The members of an object whose names are status codes, as a map by the codes.
ghost use Rattle.std.specs.Prelude.{◌≡◌, ◌+◌, ◌≤◌, ◌*◌, true, [], ◌++◌, ◌∷◌, OnOk, IfErr, Some, None};
ghost use Rattle.indexmap.specs.IndexMap.{insert_entry};
ghost use Rattle.openapi_map.specs.Entries.{get};
ghost use Rattle.openapi_node.specs.Fault.{IsMemory};
ghost use Rattle.openapi_node.specs.Tree.{members_of};
ghost use Rattle.openapi_tables.specs.ByRow.{is_class, row_where, row_weight, rows_asked};
ghost use Rattle.openapi_tables.specs.Kind as kinds;
ghost use Rattle.openapi_tables.specs.Print.{print};
ghost use Rattle.openapi_tables.specs.Slots.{slot_where, before, through, slots_lost, IsWritten};
ghost use Rattle.openapi_tables.specs.Tables.{final_tables};
ghost use Rattle.openapi_tables.specs.Unwritable.{unwritable};
ghost use Rattle.openapi_values.specs.StatusCode.{code_in};
ghost use Rattle.openapi_fields.specs.Returned.{RowReadAs, NotWritable, RisesBy};
ghost use Rattle.openapi_responses.specs.Codes.{coded_form, code_text, CodeNotWritable};

use indexmap::IndexMap;
use openapi_fields::{FromNode, HasSlots, ToNode, at_name, put_value};
use openapi_node::{Cause, Fault, Members, Node, Result, Steps};
use openapi_values::StatusCode;
use std::alloc::Global;
use std::str::FromStr;

/// Puts a value at a code: it replaces the value of that code, or is appended.
fn put_at<V: Drop>(
    alloc: Global,
    values: &mut IndexMap<StatusCode, V>,
    code: StatusCode,
    value: V,
) -> Result<()>
    ensures ok { OnOk result (values.new.entries ≡ insert_entry ⟦<StatusCode as PartialEq>⟧.eq values.old.entries code
        value) }
    ensures err { IfErr result IsMemory }
{
    match values.insert(code, value) {
        Ok(_) => Ok(()),
        Err(_) => Err(Fault::memory(alloc)),
    }
}

/// Reads the members whose names are status codes, in order. Of two values of one code both are read, and the later one
/// replaces the earlier one in its place.
pub(crate) fn coded_entries<R: HasSlots, T: FromNode + Drop>(
    alloc: Global,
    members: &Members,
    steps: &mut Steps,
) -> Result<IndexMap<StatusCode, T>>
    requires row { row_where (is_class kinds.status_names) (rows_asked final_tables R.object) ≡ Some
        (kinds.class kinds.status_names T.kind) }
    ensures reads { RowReadAs (coded_form T.form_of) result R.object (kinds.class kinds.status_names T.kind)
        (members_of members.now) }
    ensures count { RisesBy steps.old steps.new
        (3 * row_weight (kinds.class kinds.status_names T.kind) (members_of members.now)) }
{
    let mut values = IndexMap::new(alloc);
    for i in 0..members.len() {
        let (name, node) = members.entry_at(i);
        let Ok(code) = StatusCode::from_str(name) else {
            continue;
        };
        match at_name(alloc, name, T::from_node(alloc, node, steps)) {
            Ok(value) => put_at(alloc, &mut values, code, value)?,
            Err(fault) => return Err(fault),
        }
    }
    Ok(values)
}

/// Puts what a value is written as last, under the text of a code that is not there yet. A code that would not be read
/// again is refused.
fn put_code<T: ToNode>(alloc: Global, out: &mut Members, code: &StatusCode, value: &T) -> Result<()>
    requires { kinds.writable_code (code_in code.now) ≡ true → get (code_text code.now) out.old ≡ None }
    ensures ok { OnOk result (out.new ≡ out.old ++ (
      code_text code.now,
      print final_tables T.kind
          (T.form_of value.now),
    ) ∷ []) }
    ensures writable { OnOk result (kinds.writable_code (code_in code.now) ≡ true) }
    ensures whole { OnOk result (unwritable final_tables T.kind (T.form_of value.now) ≡ []) }
    ensures err { IfErr result (λ f. CodeNotWritable T.form_of T.kind f code.now value.now) }
{
    let Ok(text) = format!(in alloc; "{code}") else {
        return Err(Fault::memory(alloc));
    };
    if !code.is_writable() {
        return Err(Fault::new(alloc, Cause::NameNotWritable).at_name(alloc, text.as_str()));
    }
    put_value(alloc, out, text.as_str(), value)
}

/// Writes the entries of a map by status codes, in order, each under the text of its code.
pub(crate) fn put_coded<R: HasSlots, T: ToNode>(
    alloc: Global,
    owner: &R,
    out: &mut Members,
    values: &IndexMap<StatusCode, T>,
) -> Result<()>
    requires slot { slot_where (is_class kinds.status_names) (R.slots_of owner.now) ≡ Some
        (kinds.class kinds.status_names T.kind, coded_form T.form_of values.now) }
    requires before { IsWritten final_tables (before (is_class kinds.status_names) (R.slots_of owner.now)) out.old }
    ensures ok { OnOk result (IsWritten final_tables (through (is_class kinds.status_names)
        (R.slots_of owner.now)) out.new) }
    ensures err { IfErr result (λ f. NotWritable f (slots_lost final_tables (R.slots_of owner.now))) }
{
    for (code, value) in values {
        match put_code(alloc, out, code, value) {
            Ok(()) => {}
            Err(fault) => return Err(fault),
        }
    }
    Ok(())
}
