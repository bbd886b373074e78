//! The kind of a schema, made from the values of the kind names.
ghost use Rattle.std.proofs.Common.{refl};
ghost use Rattle.std.specs.Prelude.{◌≡◌, ◌+◌, ◌*◌, ◌≤◌, IfOk, IfErr};
ghost use Rattle.openapi_node.specs.Fault.{IsMemory};
ghost use Rattle.openapi_tables.specs.Members as sorts;
ghost use Rattle.openapi_fields.specs.Returned.{RisesBy};
ghost use Rattle.openapi_schema_types.specs.Enumerations.{text_tree, number_tree, signed_tree, flag_tree};
ghost use Rattle.openapi_schema.specs.Kinds.{EnumerationReadAs, LimitReadAs, LimitsReadAs, IsEnumeration, IsKindBy, IsKindOf};
ghost use Rattle.openapi_schema.specs.Kinds.{entries_weight, trees_in, trees_or_none};

use crate::any_names::any_of_names;
use crate::composite_types::{ArrayType, ObjectType};
use crate::kind_names::KindNames;
use crate::schema::{SchemaKind, SchemaType};
use openapi_node::{Node, OrderedMap, Result, Steps, Whole};
use openapi_schema_types::{
    BooleanType, Entry, IntegerType, NumberType, Sort, StringType, copies, entries,
};
use std::alloc::Global;

/// Reads the entries of an enumeration as values of one type; without an enumeration there are none. Returns `None` if
/// an entry is of another type. The only error is an allocation failure.
fn enumeration<T: Entry + Drop>(
    alloc: Global,
    nodes: Option<&[Node]>,
    steps: &mut Steps,
) -> Result<Option<Vec<Option<T>>>>
    ensures reads { EnumerationReadAs T.test T.tree_in result (trees_in nodes.entry) }
    ensures err { IfErr result IsMemory }
    ensures count { RisesBy steps.old steps.new (entries_weight (trees_in nodes.entry)) }
{
    match nodes {
        None => Ok(Some(Vec::new(alloc))),
        Some(nodes) => entries(alloc, nodes, steps),
    }
}

/// Copies the entries of an enumeration; without an enumeration there are none. The only error is an allocation
/// failure.
fn kept(alloc: Global, nodes: Option<&[Node]>, steps: &mut Steps) -> Result<Vec<Node>>
    ensures ok { IfOk result (λ v. v.items ≡ trees_or_none (trees_in nodes.entry)) }
    ensures err { IfErr result IsMemory }
    ensures count { RisesBy steps.old steps.new (entries_weight (trees_in nodes.entry)) }
{
    match nodes {
        None => Ok(Vec::new(alloc)),
        Some(nodes) => copies(alloc, nodes, steps),
    }
}

/// What the entries of an enumeration can be in a schema of one `type`, with the kind of that schema.
pub(crate) trait TypedEntry: Entry + Drop {
    ghost use Rattle.std.specs.Prelude.{◌≡◌, codes};
    ghost use Rattle.openapi_node.specs.Tree.{Members};
    ghost use Rattle.openapi_tables.specs.Tree.{members_list};
    ghost use Rattle.openapi_tables.specs.Members.{Sort, entries_pass, further, held};
    ghost use Rattle.openapi_schema.specs.Kinds.{IsEnumeration, IsKindOf};

    // The sort of the schema.
    ghost sort: { Sort };

    /// Returns a schema of this type.
    fn kind(names: KindNames<'_>, enumeration: Vec<Option<Self>>) -> SchemaKind
        requires { IsEnumeration Self.tree_in enumeration names }
        ensures { IsKindOf sort result names.entry };

    // What the sort requires further is that the entries are such values.
    ghost asks: { (ms : Members) → further sort (members_list ms) ≡ entries_pass Self.test
        (held (codes "enum") (members_list ms)) };
}

/// A schema of texts.
impl TypedEntry for String {
    ghost sort = { sorts.string_sort };

    fn kind(names: KindNames<'_>, enumeration: Vec<Option<String>>) -> SchemaKind
        requires { IsEnumeration text_tree enumeration names }
        ensures { IsKindOf sorts.string_sort result names.entry }
    {
        let plain = names.plain;
        SchemaKind::Typed(SchemaType::String(StringType {
            format: plain.format.into(),
            pattern: plain.pattern,
            enumeration,
            min_length: plain.min_length,
            max_length: plain.max_length,
        }))
    }

    ghost asks = { λ ms. refl };
}

/// A schema of numbers.
impl TypedEntry for Whole {
    ghost sort = { sorts.number_sort };

    fn kind(names: KindNames<'_>, enumeration: Vec<Option<Whole>>) -> SchemaKind
        requires { IsEnumeration number_tree enumeration names }
        ensures { IsKindOf sorts.number_sort result names.entry }
    {
        let plain = names.plain;
        SchemaKind::Typed(SchemaType::Number(NumberType {
            format: plain.format.into(),
            multiple_of: plain.multiple_of,
            exclusive_minimum: plain.exclusive_minimum.unwrap_or(false),
            exclusive_maximum: plain.exclusive_maximum.unwrap_or(false),
            minimum: plain.minimum,
            maximum: plain.maximum,
            enumeration,
        }))
    }

    ghost asks = { λ ms. refl };
}

/// A schema of flags.
impl TypedEntry for bool {
    ghost sort = { sorts.boolean_sort };

    fn kind(names: KindNames<'_>, enumeration: Vec<Option<bool>>) -> SchemaKind
        requires { IsEnumeration flag_tree enumeration names }
        ensures { IsKindOf sorts.boolean_sort result names.entry }
    {
        SchemaKind::Typed(SchemaType::Boolean(BooleanType { enumeration }))
    }

    ghost asks = { λ ms. refl };
}

/// Returns the kind of a schema of one `type`, or of no sort in particular if an entry of the enumeration is something
/// else. The only error is an allocation failure.
pub(crate) fn typed_or_any<T: TypedEntry>(
    alloc: Global,
    names: KindNames<'_>,
    steps: &mut Steps,
) -> Result<SchemaKind>
    ensures reads { IfOk result (λ k. IsKindBy T.sort k names.entry) }
    ensures err { IfErr result IsMemory }
    ensures count { RisesBy steps.old steps.new (2 * entries_weight (trees_in names.entry.enumeration)) }
{
    match enumeration::<T>(alloc, names.enumeration, steps)? {
        Some(enumeration) => Ok(T::kind(names, enumeration)),
        None => any_kind(alloc, names, steps),
    }
}

/// Returns a limit as a whole number of 64 bits with sign. The outer `None` is a number that does not fit.
fn limit(number: &Option<Whole>) -> Option<Option<i64>>
    ensures { LimitReadAs result number.now }
{
    match number {
        None => Some(None),
        Some(number) => match number.as_i64() {
            Some(number) => Some(Some(number)),
            None => None,
        },
    }
}

/// The limits of a schema of whole numbers, each of 64 bits with sign.
#[derive(Clone, Copy)]
struct Limits {
    multiple_of: Option<i64>,
    minimum: Option<i64>,
    maximum: Option<i64>,
}

/// Returns the limits, or `None` if one of them does not fit.
fn limits_in(names: &KindNames<'_>) -> Option<Limits>
    ensures { LimitsReadAs result names.now }
{
    let Some(multiple_of) = limit(&names.plain.multiple_of) else {
        return None;
    };
    let Some(minimum) = limit(&names.plain.minimum) else {
        return None;
    };
    let Some(maximum) = limit(&names.plain.maximum) else {
        return None;
    };
    Some(Limits {
        multiple_of,
        minimum,
        maximum,
    })
}

/// Returns a schema of whole numbers with these limits.
fn integer_kind(names: KindNames<'_>, limits: Limits, enumeration: Vec<Option<i64>>) -> SchemaKind
    requires multiple_of { limits.multiple_of ≡ names.plain.multiple_of }
    requires minimum { limits.minimum ≡ names.plain.minimum }
    requires maximum { limits.maximum ≡ names.plain.maximum }
    requires enumeration { IsEnumeration signed_tree enumeration names }
    ensures { IsKindOf sorts.integer_sort result names.entry }
{
    let plain = names.plain;
    SchemaKind::Typed(SchemaType::Integer(IntegerType {
        format: plain.format.into(),
        multiple_of: limits.multiple_of,
        exclusive_minimum: plain.exclusive_minimum.unwrap_or(false),
        exclusive_maximum: plain.exclusive_maximum.unwrap_or(false),
        minimum: limits.minimum,
        maximum: limits.maximum,
        enumeration,
    }))
}

/// Returns the kind of a schema of whole numbers, or of no sort in particular if a limit or an entry of the enumeration
/// does not fit 64 bits with sign. The only error is an allocation failure.
pub(crate) fn integer_or_any(
    alloc: Global,
    names: KindNames<'_>,
    steps: &mut Steps,
) -> Result<SchemaKind>
    ensures reads { IfOk result (λ k. IsKindBy sorts.integer_sort k names.entry) }
    ensures err { IfErr result IsMemory }
    ensures count { RisesBy steps.old steps.new (2 * entries_weight (trees_in names.entry.enumeration)) }
{
    let Some(limits) = limits_in(&names) else {
        return any_kind(alloc, names, steps);
    };
    match enumeration(alloc, names.enumeration, steps)? {
        Some(enumeration) => Ok(integer_kind(names, limits, enumeration)),
        None => any_kind(alloc, names, steps),
    }
}

/// Returns a schema of objects.
pub(crate) fn object_kind(alloc: Global, names: KindNames<'_>) -> SchemaKind
    ensures { IsKindOf sorts.object_sort result names.entry }
{
    let plain = names.plain;
    SchemaKind::Typed(SchemaType::Object(ObjectType {
        properties: names.properties.unwrap_or(OrderedMap::new(alloc)),
        required: plain.required.unwrap_or(Vec::new(alloc)),
        additional_properties: names.additional_properties,
        min_properties: plain.min_properties,
        max_properties: plain.max_properties,
    }))
}

/// Returns a schema of arrays.
pub(crate) fn array_kind(names: KindNames<'_>) -> SchemaKind
    ensures { IsKindOf sorts.array_sort result names.entry }
{
    let plain = names.plain;
    SchemaKind::Typed(SchemaType::Array(ArrayType {
        items: names.items,
        min_items: plain.min_items,
        max_items: plain.max_items,
        unique_items: plain.unique_items.unwrap_or(false),
    }))
}

/// Returns a schema of no sort in particular. The only error is an allocation failure.
pub(crate) fn any_kind(alloc: Global, names: KindNames<'_>, steps: &mut Steps) -> Result<SchemaKind>
    ensures ok { IfOk result (λ k. IsKindOf sorts.any_sort k names.entry) }
    ensures err { IfErr result IsMemory }
    ensures count { RisesBy steps.old steps.new (entries_weight (trees_in names.entry.enumeration)) }
{
    let enumeration = kept(alloc, names.enumeration, steps)?;
    Ok(SchemaKind::Any(any_of_names(alloc, names, enumeration)))
}
