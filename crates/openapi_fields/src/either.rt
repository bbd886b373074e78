//! Fields of two names, of which the name decides that comes first among the members of an object.
ghost use Rattle.std.specs.Prelude.{◌≡◌, ◌+◌, ◌≤◌, ◌*◌, false, OnOk, IfErr, Some};
ghost use Rattle.std.specs.Option.{option_map};
ghost use Rattle.std.specs.List.{slice_get};
ghost use Rattle.std.specs.Map.Iter.{deref_pair};
ghost use Rattle.openapi_node.specs.Tree.{members_of};
ghost use Rattle.openapi_tables.specs.ByRow.{row_where, is_named, row_weight};
ghost use Rattle.openapi_tables.specs.Form.{deciding};
ghost use Rattle.openapi_tables.specs.Kind as kinds;
ghost use Rattle.openapi_tables.specs.Lists.{same_text};
ghost use Rattle.openapi_tables.specs.Slots.{slot_where, before, through, slots_lost, IsWritten};
ghost use Rattle.openapi_tables.specs.Tables.{final_tables};
ghost use Rattle.openapi_fields.specs.Decided.{DeciderFound};
ghost use Rattle.openapi_fields.specs.Entries.{chosen};
ghost use Rattle.openapi_fields.specs.Forms.{is_either, either_form};
ghost use Rattle.openapi_fields.specs.Returned.{RowReadAs, NotWritable};

use crate::from_node::FromNode;
use crate::object::{HasSlots, Object};
use crate::place::at_name;
use crate::put_rows::put_value;
use crate::to_node::ToNode;
use openapi_node::{Cause, Fault, Members, Node, Result, Steps};
use std::alloc::Global;

/// The value of the name that decides.
#[derive(Drop)]
pub enum Either<A, B> {
    /// The value of the first name of the field.
    First(A),
    /// The value of the second name of the field.
    Second(B),
}

/// Returns whether two names are the same.
fn is_same(a: &str, b: &str) -> bool
    ensures { result ≡ same_text a.now b.now }
{
    a == b
}

/// Returns whether a name is one of two.
fn is_one_of(first: &str, second: &str, name: &str) -> bool
    ensures { result ≡ is_either first.now second.now name.now }
{
    is_same(first, name) || is_same(second, name)
}

/// Returns the first of the members that have one of two names.
fn first_of_two<'a>(members: &'a Members, first: &str, second: &str) -> Option<(&'a str, &'a Node)>
    ensures { option_map deref_pair result ≡ slice_get (chosen (is_either first.now second.now) members.now) 0 }
{
    for i in 0..members.len() {
        let (name, node) = members.entry_at(i);
        if is_one_of(first, second, name) {
            return Some((name, node));
        }
    }
    None
}

/// Returns the value of the name that decides: the first of the members that have one of the two names.
///
/// # Errors
///
/// Returns `Cause::MissingEither` with the empty location if no member has one of the names.
pub fn decider<'a>(
    alloc: Global,
    members: &'a Members,
    first: &'static str,
    second: &'static str,
) -> Result<Either<&'a Node, &'a Node>>
    ensures { DeciderFound first.entry.now second.entry.now result members.now }
{
    let Some((name, node)) = first_of_two(members, first, second) else {
        return Err(Fault::new(alloc, Cause::MissingEither(first, second)));
    };
    if is_same(first, name) {
        Ok(Either::First(node))
    } else {
        Ok(Either::Second(node))
    }
}

/// Reads a member that has one of two names, of which one has to exist. If both exist, the first one decides, and the
/// other one is not accessed.
///
/// # Errors
///
/// Returns `Cause::MissingEither` with the empty location if both names are missing. Otherwise it returns a fault with
/// a rule that the member breaks and the location in the object where it does. An allocation failure has
/// `Cause::Memory` and the empty location.
pub fn decided<R: Object, A: FromNode, B: FromNode>(
    alloc: Global,
    members: &Members,
    first: &'static str,
    second: &'static str,
    steps: &mut Steps,
) -> Result<Either<A, B>>
    requires row { row_where (is_named first.now) (final_tables R.table) ≡ Some
        (kinds.either first.now A.kind second.now B.kind) }
    ensures reads { RowReadAs (either_form first.entry.now A.form_of second.entry.now B.form_of) result (kinds.by R.table)
        (kinds.either first.entry.now A.kind second.entry.now B.kind) (members_of members.now) }
    ensures rises { steps.old ≤ steps.new }
    ensures count { steps.new ≤ steps.old + 3 * row_weight (kinds.either first.entry.now A.kind second.entry.now B.kind)
        (members_of members.now) }
{
    match decider(alloc, members, first, second) {
        Ok(Either::First(node)) => match at_name(alloc, first, A::from_node(alloc, node, steps)) {
            Ok(value) => Ok(Either::First(value)),
            Err(fault) => Err(fault),
        },
        Ok(Either::Second(node)) => match at_name(alloc, second, B::from_node(alloc, node, steps)) {
            Ok(value) => Ok(Either::Second(value)),
            Err(fault) => Err(fault),
        },
        Err(fault) => Err(fault),
    }
}

/// Writes the member of the first of two names, which decides.
///
/// # Errors
///
/// Returns `Cause::NameNotWritable` at the location of a name or a status code in the value that would not be read
/// again. An allocation failure has `Cause::Memory` and the empty location.
pub fn put_first<R: HasSlots, A: ToNode, B: FromNode>(
    alloc: Global,
    owner: &R,
    out: &mut Members,
    first: &'static str,
    second: &'static str,
    value: &A,
) -> Result<()>
    requires slot { slot_where (is_named first.now) (R.slots_of owner.now) ≡ Some
        (kinds.either first.now A.kind second.now B.kind, deciding first.now (A.form_of value.now)) }
    requires before { IsWritten final_tables (before (is_named first.now) (R.slots_of owner.now)) out.old }
    ensures ok { OnOk result (IsWritten final_tables (through (is_named first.entry.now)
        (R.slots_of owner.now)) out.new) }
    ensures err { IfErr result (λ f. NotWritable f (slots_lost final_tables (R.slots_of owner.now))) }
{
    put_value(alloc, out, first, value)
}

/// Writes the member of the second of two names, which decides.
///
/// # Errors
///
/// Returns `Cause::NameNotWritable` at the location of a name or a status code in the value that would not be read
/// again. An allocation failure has `Cause::Memory` and the empty location.
pub fn put_second<R: HasSlots, A: FromNode, B: ToNode>(
    alloc: Global,
    owner: &R,
    out: &mut Members,
    first: &'static str,
    second: &'static str,
    value: &B,
) -> Result<()>
    requires slot { slot_where (is_named first.now) (R.slots_of owner.now) ≡ Some
        (kinds.either first.now A.kind second.now B.kind, deciding second.now (B.form_of value.now)) }
    requires apart { same_text first.now second.now ≡ false }
    requires before { IsWritten final_tables (before (is_named first.now) (R.slots_of owner.now)) out.old }
    ensures ok { OnOk result (IsWritten final_tables (through (is_named first.entry.now)
        (R.slots_of owner.now)) out.new) }
    ensures err { IfErr result (λ f. NotWritable f (slots_lost final_tables (R.slots_of owner.now))) }
{
    put_value(alloc, out, second, value)
}
