//! Tags: strings that decide by which table an object is read.
ghost use Rattle.std.specs.Prelude.{◌≡◌, ◌+◌, ◌≤◌, ◌*◌, OnOk, IfErr, Some};
ghost use Rattle.openapi_node.specs.Tree.{members_of};
ghost use Rattle.openapi_tables.specs.ByRow.{is_named, row_weight};
ghost use Rattle.openapi_tables.specs.Form.{absent};
ghost use Rattle.openapi_tables.specs.Kind as kinds;
ghost use Rattle.openapi_tables.specs.Slots.{slot_where, before, through, slots_lost, IsWritten};
ghost use Rattle.openapi_tables.specs.Tables.{final_tables};
ghost use Rattle.openapi_fields.specs.Returned.{TagReadAs, NotWritable, RisesBy};

use crate::object::HasSlots;
use crate::place::at_name;
use crate::put_rows::put;
use crate::words::{read_word, write_text};
use openapi_node::{Cause, Fault, Members, Node, Result, Steps, find_member};
use openapi_values::Word;
use std::alloc::Global;

/// Reads the tag of an object: a string that has to exist and has to be a word of a set.
///
/// # Errors
///
/// Returns `Cause::Missing` with the empty location if the name is missing. With the name as location, it returns
/// `Cause::WrongKind` if the value is no string, and `Cause::UnknownVariant` if it is no word of the set. An allocation
/// failure has `Cause::Memory` and the empty location.
pub fn tag<T: Word>(
    alloc: Global,
    members: &Members,
    name: &'static str,
    steps: &mut Steps,
) -> Result<T>
    ensures reads { TagReadAs T.word_of result name.entry.now T.words (members_of members.now) }
    ensures count { RisesBy steps.old steps.new
        (3 * row_weight (kinds.row name.entry.now kinds.required (kinds.one_of T.words)) (members_of members.now)) }
{
    let Some(node) = find_member(members, name) else {
        return Err(Fault::new(alloc, Cause::Missing(name)));
    };
    let view = node.open(steps);
    match at_name(alloc, name, read_word::<T>(alloc, &view)) {
        Ok(word) => Ok(word),
        Err(fault) => Err(fault),
    }
}

/// Writes the tag of an object.
///
/// # Errors
///
/// Returns `Cause::Memory` with the empty location if an allocation fails.
pub fn put_tag<R: HasSlots>(
    alloc: Global,
    owner: &R,
    out: &mut Members,
    name: &'static str,
    word: &str,
) -> Result<()>
    requires slot { slot_where (is_named name.now) (R.slots_of owner.now) ≡ Some
        (kinds.constant name.now word.now, absent) }
    requires before { IsWritten final_tables (before (is_named name.now) (R.slots_of owner.now)) out.old }
    ensures ok { OnOk result (IsWritten final_tables (through (is_named name.entry.now)
        (R.slots_of owner.now)) out.new) }
    ensures err { IfErr result (λ f. NotWritable f (slots_lost final_tables (R.slots_of owner.now))) }
{
    match write_text(alloc, word) {
        Ok(text) => put(alloc, out, name, text),
        Err(fault) => Err(fault),
    }
}
