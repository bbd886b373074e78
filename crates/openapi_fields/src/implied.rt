//! Fields with a default, which a missing member is read as: no entries, false, no format, the default style.
ghost use Rattle.std.proofs.Common.{refl};
ghost use Rattle.std.specs.Prelude.{◌≡◌, ◌+◌, ◌≤◌, ◌*◌, OnOk, IfErr, Some, codes};
ghost use Rattle.openapi_node.specs.Tree.{members_of};
ghost use Rattle.openapi_tables.specs.ByRow.{row_where, is_named, row_weight, rows_asked};
ghost use Rattle.openapi_tables.specs.Kind as kinds;
ghost use Rattle.openapi_tables.specs.Slots.{slot_where, before, through, slots_lost, IsWritten};
ghost use Rattle.openapi_tables.specs.Tables.{final_tables};
ghost use Rattle.openapi_fields.specs.Returned.{RowReadAs, NotWritable};

use crate::from_node::FromNode;
use crate::object::HasSlots;
use crate::put_rows::put_value;
use crate::rows::found;
use crate::to_node::ToNode;
use openapi_node::{Members, Node, OrderedMap, Result, Steps};
use openapi_values::{
    CookieStyle, HeaderStyle, PathStyle, QueryStyle, VariantOrUnknownOrEmpty, Word,
};
use std::alloc::Global;

/// A type with a default, which a missing member is read as. Null is not read as a missing member.
pub trait Implied: FromNode {
    ghost use Rattle.std.specs.Prelude.{◌≡◌, true, false};
    ghost use Rattle.openapi_tables.specs.Conforms.{may_miss, skips_null};
    ghost use Rattle.openapi_tables.specs.Kind.{Mode};
    ghost use Rattle.openapi_tables.specs.Print.{is_silent};
    ghost use Rattle.openapi_tables.specs.Read.{default_of};

    /// The mode of the rows that hold the type so.
    ghost mode: { Mode };

    /// Returns the value that a missing member is read as.
    fn implied(alloc: Global) -> Self
        ensures { Self.form_of result ≡ default_of mode Self.kind };

    /// Returns whether the value is left out where it is written.
    fn is_left_out(&self) -> bool
        ensures { result ≡ is_silent mode (Self.form_of self.now) };

    /// The member may be missing.
    ghost may_be_missing: { may_miss mode ≡ true };

    /// Null is given to the kind.
    ghost keeps_null: { skips_null mode ≡ false };
}

/// No elements, which are left out.
impl<T: FromNode + Drop> Implied for Vec<T> {
    ghost mode = { kinds.listed };

    fn implied(alloc: Global) -> Vec<T> {
        Vec::new(alloc)
    }

    fn is_left_out(&self) -> bool {
        self.as_slice().is_empty()
    }

    ghost may_be_missing = { refl };

    ghost keeps_null = { refl };
}

/// No entries, which are left out.
impl<T: FromNode + Drop> Implied for OrderedMap<T> {
    ghost mode = { kinds.listed };

    fn implied(alloc: Global) -> OrderedMap<T> {
        OrderedMap::new(alloc)
    }

    fn is_left_out(&self) -> bool {
        self.is_empty()
    }

    ghost may_be_missing = { refl };

    ghost keeps_null = { refl };
}

/// False, which is left out.
impl Implied for bool {
    ghost mode = { kinds.flagged };

    fn implied(_alloc: Global) -> bool {
        false
    }

    fn is_left_out(&self) -> bool {
        !*self
    }

    ghost may_be_missing = { refl };

    ghost keeps_null = { refl };
}

/// No format, which is left out.
impl<T: Word + 'static> Implied for VariantOrUnknownOrEmpty<T> {
    ghost mode = { kinds.formatted };

    fn implied(_alloc: Global) -> VariantOrUnknownOrEmpty<T> {
        VariantOrUnknownOrEmpty::Empty
    }

    fn is_left_out(&self) -> bool {
        self.is_empty()
    }

    ghost may_be_missing = { refl };

    ghost keeps_null = { refl };
}

/// `simple`, which is always written.
impl Implied for PathStyle {
    ghost mode = { kinds.styled (codes "simple") };

    fn implied(_alloc: Global) -> PathStyle {
        PathStyle::default()
    }

    fn is_left_out(&self) -> bool {
        false
    }

    ghost may_be_missing = { refl };

    ghost keeps_null = { refl };
}

/// `form`, which is always written.
impl Implied for QueryStyle {
    ghost mode = { kinds.styled (codes "form") };

    fn implied(_alloc: Global) -> QueryStyle {
        QueryStyle::default()
    }

    fn is_left_out(&self) -> bool {
        false
    }

    ghost may_be_missing = { refl };

    ghost keeps_null = { refl };
}

/// `form`, which is always written.
impl Implied for CookieStyle {
    ghost mode = { kinds.styled (codes "form") };

    fn implied(_alloc: Global) -> CookieStyle {
        CookieStyle::default()
    }

    fn is_left_out(&self) -> bool {
        false
    }

    ghost may_be_missing = { refl };

    ghost keeps_null = { refl };
}

/// `simple`, which is always written.
impl Implied for HeaderStyle {
    ghost mode = { kinds.styled (codes "simple") };

    fn implied(_alloc: Global) -> HeaderStyle {
        HeaderStyle::default()
    }

    fn is_left_out(&self) -> bool {
        false
    }

    ghost may_be_missing = { refl };

    ghost keeps_null = { refl };
}

/// Reads a member, or returns its default if it is missing.
///
/// # Errors
///
/// Returns a fault with a rule that the member breaks and the location in the object where it does. An allocation
/// failure has `Cause::Memory` and the empty location.
pub fn or_implied<R: HasSlots, T: Implied>(
    alloc: Global,
    members: &Members,
    name: &'static str,
    steps: &mut Steps,
) -> Result<T>
    requires row { row_where (is_named name.now) (rows_asked final_tables R.object) ≡ Some
        (kinds.row name.now T.mode T.kind) }
    ensures reads { RowReadAs T.form_of result R.object (kinds.row name.entry.now T.mode T.kind)
        (members_of members.now) }
    ensures rises { steps.old ≤ steps.new }
    ensures count { steps.new ≤ steps.old + 3 * row_weight (kinds.row name.entry.now T.mode T.kind)
        (members_of members.now) }
{
    match found(alloc, members, name, steps) {
        Ok(member) => match member {
            Some(value) => Ok(value),
            None => Ok(T::implied(alloc)),
        },
        Err(fault) => Err(fault),
    }
}

/// Writes a member, unless its value is left out because a missing member is read as it.
///
/// # Errors
///
/// Returns `Cause::NameNotWritable` at the location of a name or a status code in the value that would not be read
/// again. An allocation failure has `Cause::Memory` and the empty location.
pub fn put_implied<R: HasSlots, T: Implied + ToNode>(
    alloc: Global,
    owner: &R,
    out: &mut Members,
    name: &'static str,
    value: &T,
) -> Result<()>
    requires slot { slot_where (is_named name.now) (R.slots_of owner.now) ≡ Some
        (kinds.row name.now T.mode T.kind, T.form_of value.now) }
    requires before { IsWritten final_tables (before (is_named name.now) (R.slots_of owner.now)) out.old }
    ensures ok { OnOk result (IsWritten final_tables (through (is_named name.entry.now)
        (R.slots_of owner.now)) out.new) }
    ensures err { IfErr result (λ f. NotWritable f (slots_lost final_tables (R.slots_of owner.now))) }
{
    if value.is_left_out() {
        return Ok(());
    }
    put_value(alloc, out, name, value)
}
