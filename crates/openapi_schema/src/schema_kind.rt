//! The kind of a schema: its sort by the names that are present, under the further condition of that sort.
ghost use Rattle.std.specs.Prelude.{◌≡◌, ◌+◌, ◌*◌, ◌≤◌, IfOk, IfErr};
ghost use Rattle.openapi_node.specs.Fault.{IsMemory};
ghost use Rattle.openapi_tables.specs.Members as sorts;
ghost use Rattle.openapi_fields.specs.Returned.{RisesBy};
ghost use Rattle.openapi_schema.specs.Kinds.{IsKind, IsKindBy, entries_weight, trees_in};

use crate::any_schema::AnySchema;
use crate::kind_names::{KindNames, named_sort};
use crate::kinds::{any_kind, array_kind, integer_or_any, object_kind, typed_or_any};
use crate::schema::{Schema, SchemaKind};
use openapi_node::{Result, Steps, Whole};
use openapi_schema_types::Sort;
use openapi_values::ReferenceOr;
use std::alloc::Global;

/// Returns the kind of a schema that has nothing but `not`.
fn not_kind(alloc: Global, not: Option<Box<ReferenceOr<Schema>>>) -> SchemaKind
    ensures { (names : KindNames) → names.not ≡ not → IsKindBy sorts.not_sort result names }
{
    match not {
        Some(not) => SchemaKind::Not { not },
        None => SchemaKind::Any(AnySchema::new(alloc)),
    }
}

/// Returns the kind of a schema by the values of the kind names. The only error is an allocation failure.
pub(crate) fn schema_kind(
    alloc: Global,
    names: KindNames<'_>,
    steps: &mut Steps,
) -> Result<SchemaKind>
    ensures reads { IfOk result (λ k. IsKind k names.entry) }
    ensures err { IfErr result IsMemory }
    ensures count { RisesBy steps.old steps.new (2 * entries_weight (trees_in names.entry.enumeration)) }
{
    match named_sort(&names) {
        Sort::String => typed_or_any::<String>(alloc, names, steps),
        Sort::Number => typed_or_any::<Whole>(alloc, names, steps),
        Sort::Integer => integer_or_any(alloc, names, steps),
        Sort::Boolean => typed_or_any::<bool>(alloc, names, steps),
        Sort::Object => Ok(object_kind(alloc, names)),
        Sort::Array => Ok(array_kind(names)),
        Sort::OneOf => Ok(SchemaKind::OneOf {
            one_of: names.one_of.unwrap_or(Vec::new(alloc)),
        }),
        Sort::AllOf => Ok(SchemaKind::AllOf {
            all_of: names.all_of.unwrap_or(Vec::new(alloc)),
        }),
        Sort::AnyOf => Ok(SchemaKind::AnyOf {
            any_of: names.any_of.unwrap_or(Vec::new(alloc)),
        }),
        Sort::Not => Ok(not_kind(alloc, names.not)),
        Sort::Any => any_kind(alloc, names, steps),
    }
}
