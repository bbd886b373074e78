//! The values of the names by which the kinds of schemas are distinguished.
ghost use Rattle.std.proofs.Common.{refl};
ghost use Rattle.std.specs.Prelude.{◌≡◌, [], string_bytes};
ghost use Rattle.std.specs.Option.{option_copied, option_map};
ghost use Rattle.openapi_node.specs.Tree.{Members};
ghost use Rattle.openapi_tables.specs.Tree.{members_list};
ghost use Rattle.openapi_tables.specs.Kind.{a_schema_kind};
ghost use Rattle.openapi_tables.specs.Tables.{final_tables};
ghost use Rattle.openapi_tables.specs.ByRow.{AreRows};
ghost use Rattle.openapi_schema.specs.KindNames.{flags_in, kind_forms};
ghost use Rattle.openapi_schema_types.specs.Masks.{mask_of, sort_in, sort_by_names};
ghost use Rattle.openapi_schema.specs.RawSlots.{optional_rows};

use crate::plain_names::PlainNames;
use crate::schema::{AdditionalProperties, Schema};
use openapi_fields::HasSlots;
use openapi_node::{Node, OrderedMap};
use openapi_schema_types::{Mask, Sort};
use openapi_values::ReferenceOr;

/// The table of these names, by which a helper of fields gets the fact that a name is one of them.
pub(crate) struct KindTable;

impl HasSlots for KindTable {
    ghost object = { a_schema_kind };

    ghost slots_of = { λ names. [] };

    ghost apart = { λ names. refl };
}

/// The values under these names that are not null. The entries of the enumeration are not read yet.
#[derive(Drop)]
pub(crate) struct KindNames<'a> {
    pub plain: PlainNames,
    pub enumeration: Option<&'a [Node]>,
    pub additional_properties: Option<AdditionalProperties>,
    pub not: Option<Box<ReferenceOr<Schema>>>,
    pub items: Option<ReferenceOr<Box<Schema>>>,
    pub one_of: Option<Vec<ReferenceOr<Schema>>>,
    pub all_of: Option<Vec<ReferenceOr<Schema>>>,
    pub any_of: Option<Vec<ReferenceOr<Schema>>>,
    pub properties: Option<OrderedMap<ReferenceOr<Box<Schema>>>>,
}

/// Returns the names that have a value.
fn present_names(names: &KindNames<'_>) -> Mask
    ensures { result.bits ≡ mask_of (flags_in names.now) }
{
    Mask::of_flags(&[
        names.plain.typ.is_some(),
        names.plain.pattern.is_some(),
        names.plain.multiple_of.is_some(),
        names.plain.exclusive_minimum.is_some(),
        names.plain.exclusive_maximum.is_some(),
        names.plain.minimum.is_some(),
        names.plain.maximum.is_some(),
        names.properties.is_some(),
        names.plain.required.is_some(),
        names.additional_properties.is_some(),
        names.plain.min_properties.is_some(),
        names.plain.max_properties.is_some(),
        names.items.is_some(),
        names.plain.min_items.is_some(),
        names.plain.max_items.is_some(),
        names.plain.unique_items.is_some(),
        names.enumeration.is_some(),
        names.plain.format.is_some(),
        names.plain.min_length.is_some(),
        names.plain.max_length.is_some(),
        names.one_of.is_some(),
        names.all_of.is_some(),
        names.any_of.is_some(),
        names.not.is_some(),
    ])
}

/// Borrows a text, if there is one.
fn lent(text: &Option<String>) -> Option<&str>
    ensures { option_copied result ≡ option_map string_bytes text.now }
{
    match text {
        Some(text) => Some(text.as_str()),
        None => None,
    }
}

/// Returns the sort that the names and the `type` allow, without access to the values of the other names.
pub(crate) fn named_sort(names: &KindNames<'_>) -> Sort
    ensures { (ms : Members) → AreRows final_tables optional_rows (kind_forms names.now) ms
        → sort_in result ≡ sort_by_names (members_list ms) }
{
    Sort::by_names(lent(&names.plain.typ), present_names(names))
}
