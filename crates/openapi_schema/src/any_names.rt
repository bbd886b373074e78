//! A schema of no sort in particular, made from the values of the kind names.
ghost use Rattle.std.specs.Prelude.{◌≡◌};
ghost use Rattle.openapi_tables.specs.Form.{leaf, no_forms, sequence};
ghost use Rattle.openapi_tables.specs.Members.{any_sort};
ghost use Rattle.openapi_fields.specs.Forms.{list_form, optional_form};
ghost use Rattle.openapi_schema.specs.Fields.{any_fields};
ghost use Rattle.openapi_schema.specs.KindNames.{kind_forms, trees_form};
ghost use Rattle.openapi_schema.specs.RawSlots.{or_else, sort_slots};

use crate::any_schema::AnySchema;
use crate::kind_names::KindNames;
use openapi_node::{Node, OrderedMap};
use std::alloc::Global;

/// Returns the schema of no sort in particular with the values of the names and these entries of its enumeration. A
/// missing list or map is an empty one.
pub(crate) fn any_of_names(alloc: Global, names: KindNames<'_>, enumeration: Vec<Node>) -> AnySchema
    requires { list_form leaf enumeration ≡ or_else (sequence no_forms) (optional_form (λ nodes. trees_form nodes.now)
        names.enumeration) }
    ensures { any_fields result ≡ sort_slots any_sort (kind_forms names.entry) }
{
    let plain = names.plain;
    AnySchema {
        typ: plain.typ,
        pattern: plain.pattern,
        multiple_of: plain.multiple_of,
        exclusive_minimum: plain.exclusive_minimum,
        exclusive_maximum: plain.exclusive_maximum,
        minimum: plain.minimum,
        maximum: plain.maximum,
        properties: names.properties.unwrap_or(OrderedMap::new(alloc)),
        required: plain.required.unwrap_or(Vec::new(alloc)),
        additional_properties: names.additional_properties,
        min_properties: plain.min_properties,
        max_properties: plain.max_properties,
        items: names.items,
        min_items: plain.min_items,
        max_items: plain.max_items,
        unique_items: plain.unique_items,
        enumeration,
        format: plain.format,
        min_length: plain.min_length,
        max_length: plain.max_length,
        one_of: names.one_of.unwrap_or(Vec::new(alloc)),
        all_of: names.all_of.unwrap_or(Vec::new(alloc)),
        any_of: names.any_of.unwrap_or(Vec::new(alloc)),
        not: names.not,
    }
}
