//! Objects, which are read and written row by row.
ghost use Rattle.std.proofs.Common.{refl};
ghost use Rattle.std.specs.Prelude.{◌+◌, ◌≤◌, ◌*◌};
ghost use Rattle.openapi_tables.specs.Kind.{by};
ghost use Rattle.openapi_tables.proofs.SlotWriting.{final_apart};
ghost use Rattle.openapi_fields.specs.Forms.{record_form, record_slots};

use crate::from_node::FromNode;
use crate::to_node::ToNode;
use openapi_node::{Cause, Expected, Fault, Members, Node, OrderedMap, Result, Steps, View};
use std::alloc::Global;

/// What the helpers of fields require of a type that is an object. It has no function, so that they can be called in a
/// cycle.
pub trait HasSlots {
    ghost use Rattle.std.specs.Prelude.{◌≡◌, true, List};
    ghost use Rattle.openapi_tables.specs.Kind.{Kind};
    ghost use Rattle.openapi_tables.specs.Slots.{Slot, slots_apart};

    /// The kind by whose rows the type is read.
    ghost object: { Kind };

    /// The rows that a value is written as, each beside its form.
    ghost slots_of: { Self → List Slot };

    /// No name is taken by two of the rows.
    ghost apart: { (x : Self) → slots_apart (slots_of x) ≡ true };
}

/// An object by a table. It has no function either: what reads and writes it may be part of a cycle.
pub trait Object {
    ghost use Rattle.std.specs.Prelude.{List};
    ghost use Rattle.openapi_tables.specs.Form.{Form};
    ghost use Rattle.openapi_tables.specs.Kind.{TableName};

    /// The table whose rows the type is read by.
    ghost table: { TableName };

    /// The forms of a value's fields, in the order of the rows.
    ghost rows_of: { Self → List Form };
}

impl<T: Object> HasSlots for T {
    ghost object = { by T.table };

    ghost slots_of = { record_slots T.table T.rows_of };

    ghost apart = { λ x. final_apart T.table (T.rows_of x) };
}

/// An object by a table that is read and written by itself.
pub trait Record: Object + Sized {
    ghost use Rattle.std.specs.Prelude.{◌≡◌, ◌+◌, ◌*◌, ◌≤◌, [], OnOk, IfErr};
    ghost use Rattle.openapi_node.specs.Tree.{members_of};
    ghost use Rattle.openapi_tables.specs.ByRow.{rows_weight};
    ghost use Rattle.openapi_tables.specs.Kind.{by};
    ghost use Rattle.openapi_tables.specs.Slots.{slots_lost, IsWritten};
    ghost use Rattle.openapi_tables.specs.Tables.{final_tables};
    ghost use Rattle.openapi_fields.specs.Forms.{record_slots};
    ghost use Rattle.openapi_fields.specs.Returned.{RowsReadAs, NotWritable};

    /// Reads the fields from the members of an object.
    ///
    /// # Errors
    ///
    /// Returns a fault with a rule that the object breaks and the location in it where it does. An allocation failure
    /// has `Cause::Memory` and the empty location.
    fn from_members(alloc: Global, members: &Members, steps: &mut Steps) -> Result<Self>
        ensures reads { RowsReadAs Self.rows_of result (by Self.table) (members_of members.now) }
        ensures rises { steps.old ≤ steps.new }
        ensures count { steps.new ≤ steps.old + 3 * rows_weight (final_tables Self.table) (members_of members.now) };

    /// Writes the fields into an object that has no members yet.
    ///
    /// # Errors
    ///
    /// Returns `Cause::NameNotWritable` at the location of a name or a status code that would not be read again. An
    /// allocation failure has `Cause::Memory` and the empty location.
    fn put_rows(&self, alloc: Global, out: &mut Members) -> Result<()>
        requires { IsWritten final_tables [] out.old }
        ensures ok { OnOk result (IsWritten final_tables (record_slots Self.table Self.rows_of self.now) out.new) }
        ensures err { IfErr result (λ f. NotWritable f (slots_lost final_tables
            (record_slots Self.table Self.rows_of self.now))) };
}

impl<T: Record> FromNode for T {
    ghost kind = { by T.table };

    ghost form_of = { record_form T.rows_of };

    fn from_view(alloc: Global, view: &View<'_>, steps: &mut Steps) -> Result<T> {
        match view {
            View::Object(members) => T::from_members(alloc, members, steps),
            _ => Err(Fault::new(alloc, Cause::WrongKind(Expected::Object))),
        }
    }

    ghost well_made = { refl };
}

impl<T: Record> ToNode for T {
    fn to_node(&self, alloc: Global) -> Result<Node> {
        let mut out = OrderedMap::new(alloc);
        match self.put_rows(alloc, &mut out) {
            Ok(()) => Ok(Node::object(out)),
            Err(fault) => Err(fault),
        }
    }

    ghost there = { λ x. refl };
}
