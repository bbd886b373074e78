//! The members of an object whose names are of a class.
ghost use Rattle.std.specs.Prelude.{◌≡◌, ◌+◌, ◌≤◌, ◌*◌, OnOk, IfErr, Some};
ghost use Rattle.openapi_node.specs.Tree.{members_of};
ghost use Rattle.openapi_tables.specs.ByRow.{is_class, row_where, row_weight, rows_asked};
ghost use Rattle.openapi_tables.specs.Kind as kinds;
ghost use Rattle.openapi_tables.specs.Slots.{slot_where, before, through, slots_lost, IsWritten};
ghost use Rattle.openapi_tables.specs.Tables.{final_tables};
ghost use Rattle.openapi_fields.specs.Forms.{map_form, extensions_form};
ghost use Rattle.openapi_fields.specs.Returned.{RowReadAs, NotWritable};

use crate::entries::{put_entries, read_entries};
use crate::from_node::FromNode;
use crate::names::{ClassNames, Extensions};
use crate::object::HasSlots;
use crate::to_node::ToNode;
use openapi_node::{Members, Node, OrderedMap, Result, Steps};
use std::alloc::Global;

/// Reads the members whose names are of a class, in order.
///
/// # Errors
///
/// Returns a fault with a rule that such a member breaks and the location in the object where it does. An allocation
/// failure has `Cause::Memory` and the empty location.
pub fn class_entries<R: HasSlots, N: ClassNames, T: FromNode + Drop>(
    alloc: Global,
    members: &Members,
    steps: &mut Steps,
) -> Result<OrderedMap<T>>
    requires row { row_where (is_class N.class) (rows_asked final_tables R.object) ≡ Some (kinds.class N.class T.kind) }
    ensures reads { RowReadAs (map_form T.form_of) result R.object (kinds.class N.class T.kind)
        (members_of members.now) }
    ensures rises { steps.old ≤ steps.new }
    ensures count { steps.new ≤ steps.old + 3 * row_weight (kinds.class N.class T.kind) (members_of members.now) }
{
    read_entries::<N, T>(alloc, members, steps)
}

/// Reads the extensions, in order.
///
/// # Errors
///
/// Returns `Cause::Memory` with the empty location if an allocation fails. Any value is allowed in an extension.
pub fn extensions<R: HasSlots>(
    alloc: Global,
    members: &Members,
    steps: &mut Steps,
) -> Result<Members>
    requires row { row_where (is_class kinds.extensions) (rows_asked final_tables R.object) ≡ Some
        (kinds.class kinds.extensions kinds.any_tree) }
    ensures reads { RowReadAs extensions_form result R.object (kinds.class kinds.extensions kinds.any_tree)
        (members_of members.now) }
    ensures rises { steps.old ≤ steps.new }
    ensures count { steps.new ≤ steps.old + 3 * row_weight (kinds.class kinds.extensions kinds.any_tree)
        (members_of members.now) }
{
    class_entries::<R, Extensions, Node>(alloc, members, steps)
}

/// Writes entries whose names have to be of a class.
///
/// # Errors
///
/// Returns `Cause::NameNotWritable` at the location of a name or a status code that would not be read again, such as a
/// name that is not of the class. An allocation failure has `Cause::Memory` and the empty location.
pub fn put_class<R: HasSlots, N: ClassNames, T: ToNode>(
    alloc: Global,
    owner: &R,
    out: &mut Members,
    values: &OrderedMap<T>,
) -> Result<()>
    requires slot { slot_where (is_class N.class) (R.slots_of owner.now) ≡ Some
        (kinds.class N.class T.kind, map_form T.form_of values.now) }
    requires before { IsWritten final_tables (before (is_class N.class) (R.slots_of owner.now)) out.old }
    ensures ok { OnOk result (IsWritten final_tables (through (is_class N.class) (R.slots_of owner.now)) out.new) }
    ensures err { IfErr result (λ f. NotWritable f (slots_lost final_tables (R.slots_of owner.now))) }
{
    put_entries::<N, T>(alloc, out, values)
}

/// Writes the extensions.
///
/// # Errors
///
/// Returns `Cause::NameNotWritable` at the location of a name that does not begin with `x-`. An allocation failure has
/// `Cause::Memory` and the empty location.
pub fn put_extensions<R: HasSlots>(
    alloc: Global,
    owner: &R,
    out: &mut Members,
    values: &Members,
) -> Result<()>
    requires slot { slot_where (is_class kinds.extensions) (R.slots_of owner.now) ≡ Some
        (kinds.class kinds.extensions kinds.any_tree, extensions_form values.now) }
    requires before { IsWritten final_tables (before (is_class kinds.extensions) (R.slots_of owner.now)) out.old }
    ensures ok { OnOk result (IsWritten final_tables (through (is_class kinds.extensions)
        (R.slots_of owner.now)) out.new) }
    ensures err { IfErr result (λ f. NotWritable f (slots_lost final_tables (R.slots_of owner.now))) }
{
    put_class::<R, Extensions, Node>(alloc, owner, out, values)
}
